ghost use Rattle.std.specs.Prelude.{◌≡◌, ◌<◌, ◌∷◌, [], ℕ, length, take, IfOk, OnOk, OnErr};
ghost use Rattle.gx_hash.specs.HashKind.{IsOfKind};
ghost use Rattle.gx_store.specs.Content.{id_of};
ghost use Rattle.gx_store.specs.State.{Becomes, HasCause, IfFault, all_stored};

use crate::{Objects, StoreError};
use gx_hash::{Bytes, ObjectId, object_id};
use gx_object::Kind;
use std::alloc::Global;

/// Stores an object under the id that is its digest.
pub fn write_object<S: Objects>(
    alloc: Global,
    store: &mut S,
    kind: Kind,
    bytes: &[u8],
) -> Result<ObjectId, StoreError>
    ensures id { IfOk result (λ id. id ≡ id_of (S.state store.old).hash (kind, bytes.now)) }
    ensures kind { IfOk result (IsOfKind (S.state store.old).hash) }
    ensures ok { OnOk result (Becomes (all_stored ((kind, bytes.now) ∷ []) (S.state store.old)) (S.state store.new)) }
    ensures err { OnErr result (Becomes (S.state store.old) (S.state store.new)) }
    ensures fault { IfFault result (HasCause (S.state store.old) (S.state store.new)) }
{
    let id = object_id(store.hash_kind(), kind.as_bytes(), bytes);
    store.write(alloc, id, kind, bytes)?;
    Ok(id)
}

/// Stores objects in order, each under its id. After an error the first of them are stored.
pub fn write_objects<S: Objects>(
    alloc: Global,
    store: &mut S,
    objects: &[(Kind, Bytes)],
) -> Result<(), StoreError>
    ensures ok { OnOk result (Becomes (all_stored objects.now (S.state store.old)) (S.state store.new)) }
    ensures err { OnErr result ((n : ℕ) × (n < length objects.now)
        × Becomes (all_stored (take n objects.now) (S.state store.old)) (S.state store.new)) }
    ensures fault { IfFault result (HasCause (S.state store.old) (S.state store.new)) }
{
    for object in objects {
        write_object(alloc, store, object.0, object.1.as_slice())?;
    }
    Ok(())
}
