//! What the definitions of found and written objects say of one another, for proofs. The functions do nothing.

ghost use Rattle.std.specs.Prelude.{ℕ, Bool, List};
ghost use Rattle.gx_hash.specs.declared.oid.ObjectId.{ObjectId};
ghost use Rattle.gx_object.specs.declared.encode.Field.{Field};
ghost use Rattle.gx_object.specs.declared.kind.Kind.{Kind};
ghost use Rattle.gix.specs.Asking.{asks};
ghost use Rattle.gix.specs.CommitAs.{commit_as_meaning};
ghost use Rattle.gix.specs.CommitOverTree.{commit_writing};
ghost use Rattle.gix.specs.CommitRequest.{CommitRequest};
ghost use Rattle.gix.specs.Finds.{exists_query, header_query, try_header_query};
ghost use Rattle.gix.specs.Meaning.{IsLawful};
ghost use Rattle.gix.specs.ObjectLaws.{WrittenIsStored, WritesTwice};
ghost use Rattle.gix.specs.Shortening.{shorten_query};
ghost use Rattle.gix.specs.Writes.{buffer_writing, object_writing, writes};

/// An object that was written is stored, where the store tells its state.
pub fn written_object_is_stored()
    ensures { WrittenIsStored }
{
    gx_store::laws::writing_adds();
    gx_store::laws::added_is_found();
}

/// An object that is written a second time has the same id, and nothing changes.
pub fn writing_twice_changes_nothing()
    ensures { WritesTwice }
{
    gx_store::laws::writing_adds();
    gx_store::laws::writes_once();
}

/// To find objects, and to abbreviate their ids, is lawful.
pub fn finds_are_lawful()
    ensures header { (id : ObjectId) → IsLawful (asks (header_query id)) }
    ensures try_header { (id : ObjectId) → IsLawful (asks (try_header_query id)) }
    ensures exists { (id : ObjectId) → IsLawful (asks (exists_query id)) }
    ensures shorten { (id : ObjectId) → IsLawful (asks (shorten_query id)) }
{}

/// To write an object is lawful.
pub fn writes_are_lawful()
    ensures buffer { (kind : Kind) (bytes : List ℕ) → IsLawful (writes (buffer_writing kind bytes)) }
    ensures object { (kind : Kind) (spelling : List ℕ) (is_writable : Field → Bool)
        → IsLawful (writes (object_writing kind spelling is_writable)) }
    ensures commit { (tree : ObjectId) (r : CommitRequest) → IsLawful (writes (commit_writing tree r)) }
{}

/// A commit of a tree is lawful.
pub fn commit_as_is_lawful()
    ensures { (tree : ObjectId) (r : CommitRequest) → IsLawful (commit_as_meaning tree r) }
{}
