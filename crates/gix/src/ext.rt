//! What this crate adds to the ids of the crates below.

ghost use Rattle.std.specs.Prelude.{◌≡◌};
ghost use Rattle.gx_hash.specs.declared.oid.ObjectId.{ObjectId};
ghost use Rattle.gix.specs.AttachedObjects.{attached_id, of_id};

use crate::{Id, Repository};
use gx_hash::ObjectId;

/// Ids of objects, together with a repository.
///
/// ```
/// let object = id.attach(&repo).object(alloc)?;
/// ```
pub trait ObjectIdExt {
    /// The id that the value is.
    ghost bare_id: { Self → ObjectId };

    /// The id as one of the repository, which is not read.
    fn attach<S>(self, repo: &Repository<S>) -> Id<'_, S>
        ensures { of_id result ≡ attached_id (bare_id self) repo.now };
}

impl ObjectIdExt for ObjectId {
    ghost bare_id = { λ id. id };

    fn attach<S>(self, repo: &Repository<S>) -> Id<'_, S> {
        Id { inner: self, repo }
    }
}
