//! What follows from the definitions, for proofs to cite. The functions change nothing.
ghost use Rattle.std.specs.Prelude.{◌≡◌, ◌⊎◌, ℕ, List, [], None, Some, All, true};
ghost use Rattle.std.specs.List.{AllByRecursion};
ghost use Rattle.gx_hash.specs.HashKind.{IsOfKind};
ghost use Rattle.gx_hash.specs.declared.kind.HashKind.{HashKind};
ghost use Rattle.gx_object.specs.declared.commit.Commit.{Commit};
ghost use Rattle.gx_object.specs.declared.signature.Signature.{Signature};
ghost use Rattle.gx_object.specs.declared.signature.Time.{Time};
ghost use Rattle.gx_object.specs.declared.tag.Tag.{Tag};
ghost use Rattle.gx_object.specs.declared.tree.Entry.{Entry};
ghost use Rattle.gx_object.specs.Commit.{commit_bytes, plain_commit_bytes};
ghost use Rattle.gx_hash.specs.IdDigits.{HasOwnDigits};
ghost use Rattle.gx_object.specs.CommitSpelling.{CommitText, SpellsCommit, IsNoCommit};
ghost use Rattle.gx_object.specs.Identity.{identity_bytes, time_bytes, is_writable_offset};
ghost use Rattle.gx_object.specs.IdentitySpelling.{IdentityText, SpellsIdentity};
ghost use Rattle.gx_object.specs.Kind.{kind_name, kind_named};
ghost use Rattle.gx_object.specs.Mode.{mode_of, kind_of_mode};
ghost use Rattle.gx_object.specs.OwnedCommit.{IsCopyOf, IsOfHash};
ghost use Rattle.gx_object.specs.OwnedTag.{OwnsTag};
ghost use Rattle.gx_object.specs.Tag.{tag_bytes};
ghost use Rattle.gx_object.specs.TagSpelling.{TagText, SpellsTag, IsNoTag};
ghost use Rattle.gx_object.specs.TimeSpelling.{SpellsTime};
ghost use Rattle.gx_object.specs.Tree.{tree_bytes};
ghost use Rattle.gx_object.specs.TreeSpelling.{SpellsTree, ReadsUpTo, HasSpelling};
ghost use Rattle.gx_object.specs.WrittenText.{written_identity, written_commit, written_tag, HasSeconds, IsWholeMinutes, CanWriteIdentity, CanWriteCommit, TaggerHas, CanWriteTag};

use crate::{Commit, CommitRefIter, EntryKind, Kind, Tag, TagRef};
use gx_hash::laws::id_has_digits;
use gx_hash::{HashKind, ObjectId};

/// A commit without an encoding and without further headers is spelled as `push_commit` writes it.
#[tactic(auto, unfolding(crate::specs::Commit::commit_bytes, crate::specs::Commit::plain_commit_bytes))]
pub fn plain_commit(commit: &Commit)
    ensures { commit.now.encoding ≡ None → commit.now.extra_headers ≡ []
        → commit_bytes commit.now
        ≡ plain_commit_bytes commit.now.tree commit.now.parents commit.now.author commit.now.committer
        commit.now.message }
{
    let _ = commit;
}

/// A kind is found by its name.
pub fn kind_is_named(kind: Kind)
    ensures { kind_named (kind_name kind) ≡ Some kind }
{
    let _ = kind;
}

/// The mode of a kind is of that kind.
pub fn mode_has_kind(kind: EntryKind)
    ensures { kind_of_mode (mode_of kind) ≡ kind }
{
    let _ = kind;
}

/// Bytes spell one tree at most.
pub fn tree_is_spelled_once()
    ensures { (hash : HashKind) (bytes : List ℕ) (a b : List Entry) → SpellsTree hash bytes a
        → SpellsTree hash bytes b → a ≡ b }
{}

/// All bytes are read up to some place, and in one way.
pub fn bytes_are_read_in_one_way()
    ensures always { (hash : HashKind) (bytes : List ℕ) → (entries : List Entry) × (end : ℕ)
        × ReadsUpTo hash bytes entries end }
    ensures once { (hash : HashKind) (bytes : List ℕ) (a b : List Entry) (m n : ℕ) → ReadsUpTo hash bytes a m
        → ReadsUpTo hash bytes b n → (a ≡ b) × (m ≡ n) }
{}

/// What is written of a tree spells it.
pub fn written_tree_is_read()
    ensures { (hash : HashKind) (entries : List Entry) → All (HasSpelling hash) entries
        → SpellsTree hash (tree_bytes entries) entries }
{}

/// Bytes spell one commit at most.
pub fn commit_is_spelled_once()
    ensures { (hash : HashKind) (bytes : List ℕ) (a b : CommitText) → SpellsCommit hash bytes a
        → SpellsCommit hash bytes b → a ≡ b }
{}

/// All bytes spell a commit, or go wrong at one place.
pub fn bytes_spell_a_commit_or_go_wrong(bytes: &[u8], hash: HashKind)
    ensures judged { ((c : CommitText) × SpellsCommit hash bytes.now c) ⊎ ((at : ℕ) × IsNoCommit hash bytes.now at) }
    ensures once { (a b : ℕ) → IsNoCommit hash bytes.now a → IsNoCommit hash bytes.now b → a ≡ b }
{
    let _ = CommitRefIter::from_bytes(bytes, hash).message();
}

/// All bytes spell a tag, or go wrong at one place.
pub fn bytes_spell_a_tag_or_go_wrong(bytes: &[u8], hash: HashKind)
    ensures judged { ((t : TagText) × SpellsTag hash bytes.now t) ⊎ ((at : ℕ) × IsNoTag hash bytes.now at) }
    ensures once { (a b : ℕ) → IsNoTag hash bytes.now a → IsNoTag hash bytes.now b → a ≡ b }
{
    let _ = TagRef::from_bytes(bytes, hash);
}

/// Bytes spell one tag at most.
pub fn tag_is_spelled_once()
    ensures { (hash : HashKind) (bytes : List ℕ) (a b : TagText) → SpellsTag hash bytes a → SpellsTag hash bytes b
        → a ≡ b }
{}

/// A line spells one identity at most.
pub fn identity_is_spelled_once()
    ensures { (line : List ℕ) (a b : IdentityText) → SpellsIdentity line a → SpellsIdentity line b → a ≡ b }
{}

/// A text spells one moment at most.
pub fn time_is_spelled_once()
    ensures { (text : List ℕ) (a b : Time) → SpellsTime text a → SpellsTime text b → a ≡ b }
{}

/// What is written of an identity spells it, and of a moment in whole minutes that moment.
pub fn written_identity_is_read()
    ensures spelled { (who : Signature) → CanWriteIdentity who
        → SpellsIdentity (identity_bytes who) (written_identity who) }
    ensures time { (time : Time) → HasSeconds time → is_writable_offset time.offset ≡ true
        → IsWholeMinutes time.offset → SpellsTime (time_bytes time) time }
{}

/// What is written of a commit spells it, and the commit is a copy of what is read there, where its offsets are whole
/// minutes. No other commit with ids of that kind is a copy of it.
pub fn written_commit_is_read()
    ensures spelled { (hash : HashKind) (c : Commit) → CanWriteCommit hash c
        → SpellsCommit hash (commit_bytes c) (written_commit c) }
    ensures copy { (hash : HashKind) (c : Commit) → CanWriteCommit hash c → IsWholeMinutes c.author.time.offset
        → IsWholeMinutes c.committer.time.offset → IsCopyOf (written_commit c) c }
    ensures back { (hash : HashKind) (c owned : Commit) (text : CommitText) → CanWriteCommit hash c
        → IsWholeMinutes c.author.time.offset → IsWholeMinutes c.committer.time.offset → IsOfHash hash c
        → IsOfHash hash owned → SpellsCommit hash (commit_bytes c) text → IsCopyOf text owned → owned ≡ c }
{}

/// A commit that is written, read and copied is itself: its ids are of the kind of their digits.
pub fn commit_reads_back(commit: &Commit, copy: &Commit)
    ensures { (hash : HashKind) (text : CommitText) → CanWriteCommit hash commit.now
        → IsWholeMinutes commit.now.author.time.offset → IsWholeMinutes commit.now.committer.time.offset
        → SpellsCommit hash (commit_bytes commit.now) text → IsCopyOf text copy.now → copy.now ≡ commit.now }
{
    ids_have_digits(commit);
    ids_have_digits(copy);
}

/// And so is a tag.
pub fn tag_reads_back(tag: &Tag, copy: &Tag)
    ensures { (hash : HashKind) (text : TagText) → CanWriteTag hash tag.now
        → TaggerHas (λ time. IsWholeMinutes time.offset) tag.now.tagger → SpellsTag hash (tag_bytes tag.now) text
        → OwnsTag text copy.now → copy.now ≡ tag.now }
{
    id_has_digits(&tag.target);
    id_has_digits(&copy.target);
}

fn ids_have_digits(commit: &Commit)
    ensures tree { HasOwnDigits commit.now.tree }
    ensures parents { AllByRecursion HasOwnDigits commit.now.parents }
{
    id_has_digits(&commit.tree);
    have_digits(commit.parents.as_slice());
}

fn have_digits(ids: &[ObjectId])
    ensures { AllByRecursion HasOwnDigits ids.now }
{
    for id in ids {
        id_has_digits(id);
    }
}

/// What is written of a tag spells it, and the tag is a copy of what is read there, where its offset is whole
/// minutes. No other tag with an id of that kind is a copy of it.
pub fn written_tag_is_read()
    ensures spelled { (hash : HashKind) (t : Tag) → CanWriteTag hash t → SpellsTag hash (tag_bytes t) (written_tag t) }
    ensures copy { (hash : HashKind) (t : Tag) → CanWriteTag hash t
        → TaggerHas (λ time. IsWholeMinutes time.offset) t.tagger → OwnsTag (written_tag t) t }
    ensures back { (hash : HashKind) (t owned : Tag) (text : TagText) → CanWriteTag hash t
        → TaggerHas (λ time. IsWholeMinutes time.offset) t.tagger → IsOfKind hash t.target
        → IsOfKind hash owned.target → SpellsTag hash (tag_bytes t) text → OwnsTag text owned → owned ≡ t }
{}
