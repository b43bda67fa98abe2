//! Laws of the language: it is read in one way only. The functions do nothing.

ghost use Rattle.std.specs.Prelude.{◌≡◌, ℕ, List, [], ◌++◌, Option};
ghost use Rattle.std.specs.List.{flat_map, AllByRecursion};
ghost use Rattle.gx_hash.specs.declared.kind.HashKind.{HashKind};
ghost use Rattle.gx_store.specs.Outside.{IsEnd};
ghost use Rattle.gx_script.specs.declared.request.Request.{Request};
ghost use Rattle.gx_script.specs.Laws.{HasNoRequest};
ghost use Rattle.gx_script.specs.Script.{IsRequest, Begins, IsBad};
ghost use Rattle.gx_script.specs.Spelling.{spelling};

/// Bytes have at most one request at their front, so that no request's spelling begins another's.
pub fn spelling_is_of_one_request()
    ensures { (hash : HashKind) (r q : Request) (a b : List ℕ) → IsRequest hash r → IsRequest hash q
        → spelling r ++ a ≡ spelling q ++ b → (r ≡ q) × (a ≡ b) }
{}

/// Each request has bytes.
pub fn no_bytes_are_no_request()
    ensures { (hash : HashKind) → HasNoRequest hash [] }
{}

/// A request that has begun is not whole.
pub fn what_begins_has_no_whole_request()
    ensures { (hash : HashKind) (bytes : List ℕ) → Begins hash bytes → HasNoRequest hash bytes }
{}

/// Bytes that go wrong do so before a request is whole.
pub fn what_is_bad_has_no_whole_request()
    ensures { (hash : HashKind) (bytes : List ℕ) (left : Option (List ℕ)) (newlines : ℕ)
        → IsBad hash bytes (IsEnd left) newlines → HasNoRequest hash bytes }
{}

/// A script has one list of requests, and one rest after them.
pub fn a_script_is_read_one_way()
    ensures { (hash : HashKind) (rs qs : List Request) (a b : List ℕ) → AllByRecursion (IsRequest hash) rs
        → AllByRecursion (IsRequest hash) qs → HasNoRequest hash a → HasNoRequest hash b
        → flat_map spelling rs ++ a ≡ flat_map spelling qs ++ b → (rs ≡ qs) × (a ≡ b) }
{}
