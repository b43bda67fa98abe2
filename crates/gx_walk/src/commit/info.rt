use gx_hash::ObjectId;
use gx_object::Ids;

/// A commit that a walk lists.
#[derive(Debug, Drop)]
pub struct Info {
    pub id: ObjectId,
    /// The parents that the walk follows.
    pub parent_ids: Ids,
    /// The committer's time, in seconds since the Unix epoch, if the walk is sorted by time.
    pub commit_time: Option<i64>,
}
