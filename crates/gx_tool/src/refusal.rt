//! Refusals, and how they are printed.

ghost use Rattle.std.specs.Prelude.{◌≡◌, ◌++◌, ◌∷◌, OnOk};
ghost use Rattle.gx_hash.specs.ObjectId.{hex_of};
ghost use Rattle.gx_tool.specs.Reply.{target_text, field_text, refusal_text};

use crate::target::{push_id, push_target};
use gx_hash::{Bytes, NoMemory, ObjectId};
use gx_object::{EntryKind, Field, Kind};
use gx_rules::FullName;
use gx_store::Target;

/// Why a request was refused.
#[derive(Debug, Drop)]
pub enum Refusal {
    /// Requests of this form are not served yet.
    Unsupported,
    /// The object is not stored.
    Find {
        id: ObjectId,
    },
    /// The object is of this kind, and should be of another.
    Kind {
        id: ObjectId,
        actual: Kind,
    },
    /// The object can't be read.
    Decode {
        id: ObjectId,
    },
    EmptyComponent {
        path: Bytes,
    },
    /// An entry of a tree must not have this name.
    Filename {
        id: ObjectId,
        kind: EntryKind,
        name: Bytes,
    },
    /// What an entry of a tree names is not stored.
    Missing {
        id: ObjectId,
        name: Bytes,
    },
    Unwritable {
        field: Field,
    },
    /// The reference leads back into itself.
    Cycle {
        name: FullName,
    },
    /// The reference leads through too many others.
    Depth {
        name: FullName,
    },
    MustExist {
        name: FullName,
    },
    MustNotExist {
        name: FullName,
        actual: Target,
    },
    OutOfDate {
        name: FullName,
        expected: Target,
        actual: Target,
    },
    /// The reference can't stand beside the other.
    Conflict {
        name: FullName,
        other: FullName,
    },
    /// The prefix of a listing is no relative path.
    RelativePath,
    /// Two edits share the name.
    Duplicate {
        name: FullName,
    },
    /// A line of a log is due, and nobody signs it.
    NoCommitter,
    /// What should be a name is none.
    BadName,
}

fn field_name(field: Field) -> &'static [u8]
    ensures { result.now ≡ field_text field }
{
    match field {
        Field::FileName => b"file-name",
        Field::AuthorName => b"author-name",
        Field::AuthorEmail => b"author-email",
        Field::AuthorOffset => b"author-offset",
        Field::CommitterName => b"committer-name",
        Field::CommitterEmail => b"committer-email",
        Field::CommitterOffset => b"committer-offset",
        Field::TaggerName => b"tagger-name",
        Field::TaggerEmail => b"tagger-email",
        Field::TaggerOffset => b"tagger-offset",
        Field::TagName => b"tag-name",
        Field::Encoding => b"encoding",
        Field::HeaderName => b"header-name",
    }
}

/// Appends a space and the bytes.
fn push_field(out: &mut Vec<u8>, bytes: &[u8]) -> Result<(), NoMemory>
    ensures ok { OnOk result (out.new.items ≡ out.old.items ++ 32 ∷ bytes.now) }
{
    out.push(b' ')?;
    out.extend_from_slice(bytes)?;
    Ok(())
}

/// Appends a word and a field.
fn push_with(out: &mut Vec<u8>, word: &[u8], bytes: &[u8]) -> Result<(), NoMemory>
    ensures ok { OnOk result (out.new.items ≡ out.old.items ++ (word.now ++ 32 ∷ bytes.now)) }
{
    out.extend_from_slice(word)?;
    push_field(out, bytes)
}

/// Appends a word and an id.
fn push_with_id(out: &mut Vec<u8>, word: &[u8], id: &ObjectId) -> Result<(), NoMemory>
    ensures ok { OnOk result (out.new.items ≡ out.old.items ++ (word.now ++ 32 ∷ hex_of id.now)) }
{
    out.extend_from_slice(word)?;
    push_id(out, id)
}

/// Appends a word, an id and a field.
fn push_with_id_and(
    out: &mut Vec<u8>,
    word: &[u8],
    id: &ObjectId,
    bytes: &[u8],
) -> Result<(), NoMemory>
    ensures ok { OnOk result (out.new.items ≡ out.old.items ++ (word.now ++ (32 ∷ hex_of id.now) ++ 32 ∷ bytes.now)) }
{
    push_with_id(out, word, id)?;
    push_field(out, bytes)
}

/// Appends a word, a name and a target.
fn push_with_target(
    out: &mut Vec<u8>,
    word: &[u8],
    name: &FullName,
    target: &Target,
) -> Result<(), NoMemory>
    ensures ok { OnOk result (out.new.items
        ≡ out.old.items ++ (word.now ++ (32 ∷ name.now) ++ 32 ∷ target_text target.now)) }
{
    push_with(out, word, name.as_slice())?;
    push_target(out, target)
}

fn push_filename(
    out: &mut Vec<u8>,
    id: &ObjectId,
    kind: EntryKind,
    name: &[u8],
) -> Result<(), NoMemory>
    ensures ok { OnOk result (out.new.items ≡ out.old.items ++ refusal_text (Refusal.Filename id.now kind name.now)) }
{
    push_with_id_and(out, b"filename", id, kind.as_octal_str().as_bytes())?;
    push_field(out, name)
}

fn push_out_of_date(
    out: &mut Vec<u8>,
    name: &FullName,
    expected: &Target,
    actual: &Target,
) -> Result<(), NoMemory>
    ensures ok { OnOk result (out.new.items
        ≡ out.old.items ++ refusal_text (Refusal.OutOfDate name.now expected.now actual.now)) }
{
    push_with_target(out, b"out-of-date", name, expected)?;
    push_target(out, actual)
}

fn push_conflict(out: &mut Vec<u8>, name: &FullName, other: &FullName) -> Result<(), NoMemory>
    ensures ok { OnOk result (out.new.items ≡ out.old.items ++ refusal_text (Refusal.Conflict name.now other.now)) }
{
    push_with(out, b"conflict", name.as_slice())?;
    push_field(out, other.as_slice())
}

/// Appends the refusal's word, and what it keeps.
pub(crate) fn push_refusal(out: &mut Vec<u8>, refusal: &Refusal) -> Result<(), NoMemory>
    ensures ok { OnOk result (out.new.items ≡ out.old.items ++ refusal_text refusal.now) }
{
    match refusal {
        Refusal::Unsupported => Ok(out.extend_from_slice(b"unsupported")?),
        Refusal::Find { id } => push_with_id(out, b"find", id),
        Refusal::Kind { id, actual } => push_with_id_and(out, b"kind", id, actual.as_bytes()),
        Refusal::Decode { id } => push_with_id(out, b"decode", id),
        Refusal::EmptyComponent { path } => push_with(out, b"empty-component", path.as_slice()),
        Refusal::Filename { id, kind, name } => push_filename(out, id, *kind, name.as_slice()),
        Refusal::Missing { id, name } => push_with_id_and(out, b"missing", id, name.as_slice()),
        Refusal::Unwritable { field } => push_with(out, b"unwritable", field_name(*field)),
        Refusal::Cycle { name } => push_with(out, b"cycle", name.as_slice()),
        Refusal::Depth { name } => push_with(out, b"depth", name.as_slice()),
        Refusal::MustExist { name } => push_with(out, b"must-exist", name.as_slice()),
        Refusal::MustNotExist { name, actual } => {
            push_with_target(out, b"must-not-exist", name, actual)
        }
        Refusal::OutOfDate {
            name,
            expected,
            actual,
        } => push_out_of_date(out, name, expected, actual),
        Refusal::Conflict { name, other } => push_conflict(out, name, other),
        Refusal::RelativePath => Ok(out.extend_from_slice(b"relative-path")?),
        Refusal::Duplicate { name } => push_with(out, b"duplicate", name.as_slice()),
        Refusal::NoCommitter => Ok(out.extend_from_slice(b"no-committer")?),
        Refusal::BadName => Ok(out.extend_from_slice(b"name")?),
    }
}
