//! A request for a commit, as it is handed from stage to stage.

use gx_edit::PathEdit;
use gx_hash::ObjectId;
use gx_object::Signature;
use gx_rules::FullName;

/// What a commit of edits is asked for with.
#[derive(Clone, Copy)]
pub(crate) struct Request<'a> {
    pub(crate) committer: &'a Signature,
    pub(crate) author: &'a Signature,
    pub(crate) reference: &'a FullName,
    pub(crate) message: &'a [u8],
    pub(crate) parents: &'a [ObjectId],
    pub(crate) edits: &'a [PathEdit],
}
