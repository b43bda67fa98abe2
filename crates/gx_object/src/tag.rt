//! Tags: values, and what is read from bytes.
mod decode;
mod fields;
mod items;
mod iter;
mod lines;
mod write;

use crate::{Kind, Signature};
pub use decode::TagRef;
use gx_hash::{Bytes, ObjectId};
pub use items::TagToken;
pub use iter::TagRefIter;

/// An annotated tag: a name for an object.
#[derive(Debug, Drop)]
pub struct Tag {
    pub target: ObjectId,
    /// The kind of the target.
    pub target_kind: Kind,
    /// The tag's name, without `refs/tags/`.
    pub name: Bytes,
    pub tagger: Option<Signature>,
    pub message: Bytes,
    /// The signature from its first line on, which is written after the message as it is.
    pub signature: Option<Bytes>,
}
