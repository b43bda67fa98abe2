//! Commits: values, and what is read from bytes.
mod decode;
mod fields;
mod iter;
mod lines;
mod owned;
mod parent_ids;
mod signed_data;
mod write;

use crate::{Headers, Ids, Signature};
pub(crate) use decode::bad_line;
pub use decode::{CommitRef, ExtraHeader, ExtraHeaders};
use gx_hash::{Bytes, ObjectId};
pub use iter::{CommitRefIter, CommitToken};
pub(crate) use lines::{after, id_line, id_of, identity_line, split_line};
pub use parent_ids::ParentIds;
pub use signed_data::{SignedData, signature_of};
pub use write::push_commit;
pub(crate) use write::{has_no_newline, push_id_line, push_identity_line};

/// A header of a commit beyond those that each commit has.
#[derive(Debug, Drop)]
pub struct OwnedHeader {
    pub name: Bytes,
    pub value: Bytes,
}

/// A commit.
///
/// ```
/// let bytes = commit.to_bytes(alloc)?;
/// let id = object_id(HashKind::Sha1, commit.kind().as_bytes(), bytes.as_slice());
/// let same = CommitRef::from_bytes(alloc, bytes.as_slice(), HashKind::Sha1)?.to_owned(alloc)?;
/// ```
#[derive(Debug, Drop)]
pub struct Commit {
    pub tree: ObjectId,
    pub parents: Ids,
    pub author: Signature,
    pub committer: Signature,
    /// The encoding of the message, where it is not UTF-8.
    pub encoding: Option<Bytes>,
    pub message: Bytes,
    pub extra_headers: Headers,
}
