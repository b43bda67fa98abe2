//! What holds of all ids. A proof above has each law by calling its function, which does nothing.
ghost use Rattle.std.specs.Prelude.{◌≡◌, ◌↔◌, ℕ, List, true, IsTrue, Ok};
ghost use Rattle.std.specs.Ordering.{eq_by_cmp};
ghost use Rattle.std.specs.Cmp.{IsTotalOrder};
ghost use Rattle.std.specs.FinMap.{IsAntisymmetric};
ghost use Rattle.hex.specs.Hex.{IsBytes};
ghost use Rattle.gx_hash.specs.declared.kind.HashKind.{HashKind};
ghost use Rattle.gx_hash.specs.declared.oid.ObjectId.{ObjectId};
ghost use Rattle.gx_hash.specs.contracts.oid.ObjectIdPartialEq.TheImpl as derived_eq;
ghost use Rattle.gx_hash.specs.contracts.oid.ObjectIdOrd.TheImpl as derived_ord;
ghost use Rattle.gx_hash.specs.contracts.oid.ObjectIdHash.TheImpl as derived_hash;
ghost use Rattle.gx_hash.specs.HashKind.{kind_of};
ghost use Rattle.gx_hash.specs.IdDigits.{IsHexId, IdOfDigits};
ghost use Rattle.gx_hash.specs.ObjectIds.{id_eq};
ghost use Rattle.gx_hash.specs.ObjectId.{object_id, bytes_of, hex_of, id_cmp, id_hash_input, id_from_bytes, id_from_hex};

use crate::ObjectId;

/// An id is its kind and its bytes.
pub fn kind_and_bytes_tell_apart(a: &ObjectId, b: &ObjectId)
    ensures { kind_of a.now ≡ kind_of b.now → bytes_of a.now ≡ bytes_of b.now → a.now ≡ b.now }
{}

/// The order by kind and bytes is total, and tells all ids apart.
pub fn order_is_total_and_exact()
    ensures total { IsTotalOrder id_cmp }
    ensures exact { IsAntisymmetric id_cmp }
{}

/// `cmp` goes by kind and bytes, and `==` holds of an id and itself alone.
pub fn comparisons_agree()
    ensures cmp { (derived_ord.ghosts).cmp ≡ id_cmp }
    ensures eq { (a b : ObjectId) → IsTrue ((derived_eq.ghosts).eq a b) ↔ (a ≡ b) }
{}

/// An id feeds a hasher its kind and its bytes.
pub fn hashes_kind_and_bytes()
    ensures { (id : ObjectId) → (derived_hash.ghosts).hash_input id ≡ id_hash_input id }
{}

/// The digits of an id, and its bytes with its kind, read back as the id.
pub fn spellings_read_back(id: &ObjectId)
    ensures digits { id_from_hex (hex_of id.now) ≡ Ok id.now }
    ensures bytes { id_from_bytes (kind_of id.now) (bytes_of id.now) ≡ Some id.now }
{
    are_bytes(id.as_bytes());
}

/// An object's id is of its kind and has the bytes of one, so these and its digits read back as the id.
pub fn object_id_is_whole()
    ensures bytes { (hash : HashKind) (kind_name bytes : List ℕ) →
        id_from_bytes hash (bytes_of (object_id hash kind_name bytes)) ≡ Some (object_id hash kind_name bytes) }
    ensures digits { (hash : HashKind) (kind_name bytes : List ℕ) →
        id_from_hex (hex_of (object_id hash kind_name bytes)) ≡ Ok (object_id hash kind_name bytes) }
    ensures kind { (hash : HashKind) (kind_name bytes : List ℕ) → kind_of (object_id hash kind_name bytes) ≡ hash }
{}

/// The digits of an id are as many as its kind has, in lower case, and so are those of an object's id.
pub fn id_has_digits(id: &ObjectId)
    ensures held { IsHexId (kind_of id.now) (hex_of id.now) }
    ensures computed { (hash : HashKind) (kind_name bytes : List ℕ)
        → IsHexId hash (hex_of (object_id hash kind_name bytes)) }
{
    are_bytes(id.as_bytes());
}

/// Each text of such digits is that of an id, which it reads as.
pub fn digits_are_of_an_id()
    ensures { (hash : HashKind) (text : List ℕ) → IsHexId hash text → IdOfDigits hash text }
{}

/// `==` holds where the order has two ids as equal, so of an id and itself alone.
pub fn equal_ids_are_one()
    ensures tied { (a b : ObjectId) → id_eq a b ≡ eq_by_cmp id_cmp a b }
    ensures same { (a b : ObjectId) → id_eq a b ≡ true → a ≡ b }
    ensures own { (id : ObjectId) → id_eq id id ≡ true }
{}

fn are_bytes(bytes: &[u8])
    ensures { IsBytes bytes.now }
{}
