//! What references are for, by their names.
ghost use Rattle.std.specs.Prelude.{◌≡◌};
ghost use Rattle.gx_rules.specs.Category.{category_of, shared_prefix, short_name};

/// What a reference is for. Git keeps each kind in a directory of its own.
#[derive(Clone, Copy, Debug, PartialEq, Eq)]
pub enum Category {
    /// Under `refs/tags/`.
    Tag,
    /// Under `refs/heads/`.
    LocalBranch,
    /// Under `refs/remotes/`.
    RemoteBranch,
    /// Under `refs/notes/`.
    Note,
    /// Outside of any directory, as `HEAD`.
    PseudoRef,
}

/// The category of a reference of that name, if it has one.
pub(crate) fn category_of(name: &[u8]) -> Option<Category>
    ensures { result ≡ category_of name.now }
{
    if name.starts_with(b"refs/tags/") {
        Some(Category::Tag)
    } else if name.starts_with(b"refs/heads/") {
        Some(Category::LocalBranch)
    } else if name.starts_with(b"refs/remotes/") {
        Some(Category::RemoteBranch)
    } else if name.starts_with(b"refs/notes/") {
        Some(Category::Note)
    } else if name.contains(&b'/') {
        None
    } else {
        Some(Category::PseudoRef)
    }
}

/// What short names of the category leave out.
fn shared_prefix(category: Option<Category>) -> &'static [u8]
    ensures { result.now ≡ shared_prefix category }
{
    match category {
        Some(Category::Tag) => b"refs/tags/",
        Some(Category::LocalBranch) => b"refs/heads/",
        Some(Category::RemoteBranch) => b"refs/remotes/",
        Some(Category::Note) => b"refs/",
        Some(Category::PseudoRef) | None => b"",
    }
}

/// The name without what its category's names share.
#[tactic(auto, using(crate::proofs::CategoryLemmas::prefix_fits))]
pub(crate) fn short_name(name: &[u8]) -> &[u8]
    ensures { result.now ≡ short_name name.now }
{
    &name[shared_prefix(category_of(name)).len()..]
}
