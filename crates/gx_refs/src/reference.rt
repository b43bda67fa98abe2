use gx_hash::ObjectId;
use gx_rules::FullName;
use gx_store::Target;

/// A reference as it was found.
#[derive(Debug, PartialEq, Eq, Drop)]
pub struct Reference {
    pub name: FullName,
    pub target: Target,
    /// The first object that is no tag, once it was looked for.
    pub peeled: Option<ObjectId>,
}
