//! How rows tell why a store, a reference or a tree refuses a call: the variant's name and what it holds.

use gix::commit::{CommitError, NewCommitError};
use gix::id::ShortenError;
use gix::object::find::{FindError, TryFindError};
use gix::object::tree::EditTreeError;
use gix::object::write::WriteError;
use gix::reference::iter::IterError;
use gix::reference::{RefFindError, SetTargetError};
use gx_edit::EditError;
use gx_hash::ObjectId;
use gx_object::{EntryKind, Field, Kind};
use gx_refs::RefError;
use gx_rules::{ComponentError, FullName};
use gx_store::{StoreError, Target, What};
use probe_rows::ProbeError;
use probe_rows::answers::{push_field, push_id, push_shown, push_word, word};
use std::alloc::Global;

pub fn store_error(alloc: Global, error: &StoreError) -> Result<Vec<u8>, ProbeError> {
    match error {
        StoreError::NoMemory => Err(ProbeError::NoMemory),
        StoreError::Fault { what } => failed(alloc, "fault", what),
    }
}

/// The part of a store that failed.
pub fn failed(alloc: Global, variant: &str, what: &What) -> Result<Vec<u8>, ProbeError> {
    let mut answer = word(alloc, variant)?;
    push_what(&mut answer, what)?;
    Ok(answer)
}

fn push_what(answer: &mut Vec<u8>, what: &What) -> Result<(), ProbeError> {
    match what {
        What::Object(id) => push_with_id(answer, "object", id),
        What::Name(name) => push_named(answer, "name", name.as_slice()),
        What::Index => push_word(answer, "index"),
        What::Listing => push_word(answer, "listing"),
        What::Write => push_word(answer, "write"),
    }
}

fn push_with_id(answer: &mut Vec<u8>, text: &str, id: &ObjectId) -> Result<(), ProbeError> {
    push_word(answer, text)?;
    push_id(answer, id)
}

fn push_named(answer: &mut Vec<u8>, text: &str, name: &[u8]) -> Result<(), ProbeError> {
    push_word(answer, text)?;
    push_field(answer, name)
}

pub fn reference_error(alloc: Global, error: &RefError) -> Result<Vec<u8>, ProbeError> {
    match error {
        RefError::Cycle { name } => named(alloc, "cycle", name.as_slice()),
        RefError::DepthLimitExceeded { name } => {
            named(alloc, "depth-limit-exceeded", name.as_slice())
        }
        RefError::Store { what } => failed(alloc, "store", what),
        RefError::NoMemory => Err(ProbeError::NoMemory),
        _ => edit_refusal(alloc, error),
    }
}

pub fn reference_find_error(alloc: Global, error: &RefFindError) -> Result<Vec<u8>, ProbeError> {
    match error {
        RefFindError::NotFound { name } => named(alloc, "not-found", name.as_slice()),
        RefFindError::Store { what } => failed(alloc, "store", what),
        RefFindError::NoMemory => Err(ProbeError::NoMemory),
    }
}

pub fn iter_error(alloc: Global, error: &IterError) -> Result<Vec<u8>, ProbeError> {
    match error {
        IterError::RelativePath => word(alloc, "relative-path"),
        IterError::Store { what } => failed(alloc, "store", what),
        IterError::NoMemory => Err(ProbeError::NoMemory),
    }
}

pub fn set_target_error(alloc: Global, error: &SetTargetError) -> Result<Vec<u8>, ProbeError> {
    match error {
        SetTargetError::SymbolicReference { name } => {
            named(alloc, "symbolic-reference", name.as_slice())
        }
        SetTargetError::ReferenceEdit(refusal) => reference_error(alloc, refusal),
        SetTargetError::Store { what } => failed(alloc, "store", what),
        SetTargetError::NoMemory => Err(ProbeError::NoMemory),
    }
}

/// Why edits of references are refused.
fn edit_refusal(alloc: Global, error: &RefError) -> Result<Vec<u8>, ProbeError> {
    match error {
        RefError::MustExist { name } => named(alloc, "must-exist", name.as_slice()),
        RefError::MustNotExist { name, actual } => {
            with_targets(alloc, "must-not-exist", name, &[actual])
        }
        RefError::ReferenceOutOfDate {
            name,
            expected,
            actual,
        } => with_targets(alloc, "reference-out-of-date", name, &[expected, actual]),
        RefError::NameConflict { name, with } => {
            let mut answer = named(alloc, "name-conflict", name.as_slice())?;
            push_field(&mut answer, with.as_slice())?;
            Ok(answer)
        }
        RefError::DuplicateEdit { name } => named(alloc, "duplicate-edit", name.as_slice()),
        RefError::MissingCommitter => word(alloc, "missing-committer"),
        RefError::Unwritable { field } => {
            let mut answer = word(alloc, "unwritable")?;
            push_word(&mut answer, field_name(*field))?;
            Ok(answer)
        }
        _ => Err(ProbeError::UnknownCall),
    }
}

fn with_targets(
    alloc: Global,
    variant: &str,
    name: &FullName,
    targets: &[&Target],
) -> Result<Vec<u8>, ProbeError> {
    let mut answer = named(alloc, variant, name.as_slice())?;
    for target in targets {
        push_target(&mut answer, target)?;
    }
    Ok(answer)
}

pub fn push_target(answer: &mut Vec<u8>, target: &Target) -> Result<(), ProbeError> {
    match target {
        Target::Object(id) => push_with_id(answer, "object", id),
        Target::Symbolic(name) => push_named(answer, "symbolic", name.as_slice()),
    }
}

fn named(alloc: Global, variant: &str, name: &[u8]) -> Result<Vec<u8>, ProbeError> {
    let mut answer = Vec::new(alloc);
    push_named(&mut answer, variant, name)?;
    Ok(answer)
}

pub fn edit_error(alloc: Global, error: &EditError) -> Result<Vec<u8>, ProbeError> {
    match error {
        EditError::EmptyPathComponent => word(alloc, "empty-path-component"),
        EditError::FindExistingObject { id } => with_id(alloc, "find-existing-object", id),
        EditError::ObjectKind { id, actual } => object_kind(alloc, id, *actual),
        EditError::Decode { id } => with_id(alloc, "decode", id),
        EditError::IsTree => word(alloc, "is-tree"),
        EditError::InvalidFilename {
            filename,
            kind,
            id,
            source,
        } => invalid_filename(alloc, filename.as_slice(), *kind, id, *source),
        EditError::MissingObject { filename, kind, id } => {
            missing_object(alloc, filename.as_slice(), *kind, id)
        }
        EditError::WriteObject { field } => unwritable(alloc, *field),
        EditError::Store { what } => failed(alloc, "store", what),
        EditError::NoMemory => Err(ProbeError::NoMemory),
    }
}

pub fn edit_tree_error(alloc: Global, error: &EditTreeError) -> Result<Vec<u8>, ProbeError> {
    match error {
        EditTreeError::NotFound { id } => with_id(alloc, "not-found", id),
        EditTreeError::ObjectKind {
            id,
            expected,
            actual,
        } => {
            let mut answer = object_kind(alloc, id, *expected)?;
            push_field(&mut answer, actual.as_bytes())?;
            Ok(answer)
        }
        EditTreeError::Decode { id } => with_id(alloc, "decode", id),
        EditTreeError::Store { what } => failed(alloc, "store", what),
        EditTreeError::NoMemory => Err(ProbeError::NoMemory),
    }
}

pub fn find_error(alloc: Global, error: &FindError) -> Result<Vec<u8>, ProbeError> {
    match error {
        FindError::NotFound { id } => with_id(alloc, "not-found", id),
        FindError::Store { what } => failed(alloc, "store", what),
        FindError::NoMemory => Err(ProbeError::NoMemory),
    }
}

pub fn try_find_error(alloc: Global, error: &TryFindError) -> Result<Vec<u8>, ProbeError> {
    match error {
        TryFindError::Store { what } => failed(alloc, "store", what),
        TryFindError::NoMemory => Err(ProbeError::NoMemory),
    }
}

pub fn write_error(alloc: Global, error: &WriteError) -> Result<Vec<u8>, ProbeError> {
    match error {
        WriteError::Unwritable { field } => unwritable_field(alloc, *field),
        WriteError::Read => word(alloc, "read"),
        WriteError::TooLarge => word(alloc, "too-large"),
        WriteError::SizeMismatch { declared, found } => {
            let mut answer = word(alloc, "size-mismatch")?;
            push_shown(alloc, &mut answer, declared)?;
            push_shown(alloc, &mut answer, found)?;
            Ok(answer)
        }
        WriteError::IdMismatch { given, found } => {
            let mut answer = with_id(alloc, "id-mismatch", given)?;
            push_id(&mut answer, found)?;
            Ok(answer)
        }
        WriteError::Store { what } => failed(alloc, "store", what),
        WriteError::NoMemory => Err(ProbeError::NoMemory),
    }
}

pub fn shorten_error(alloc: Global, error: &ShortenError) -> Result<Vec<u8>, ProbeError> {
    match error {
        ShortenError::NotFound { oid } => with_id(alloc, "not-found", oid),
        ShortenError::Store { what } => failed(alloc, "store", what),
        ShortenError::NoMemory => Err(ProbeError::NoMemory),
    }
}

pub fn new_commit_error(alloc: Global, error: &NewCommitError) -> Result<Vec<u8>, ProbeError> {
    match error {
        NewCommitError::Unwritable { field } => unwritable_field(alloc, *field),
        NewCommitError::Store { what } => failed(alloc, "store", what),
        NewCommitError::NoMemory => Err(ProbeError::NoMemory),
    }
}

pub fn commit_error(alloc: Global, error: &CommitError) -> Result<Vec<u8>, ProbeError> {
    match error {
        CommitError::Unwritable { field } => unwritable_field(alloc, *field),
        CommitError::ReferenceEdit(error) => reference_error(alloc, error),
        CommitError::Store { what } => failed(alloc, "store", what),
        CommitError::NoMemory => Err(ProbeError::NoMemory),
    }
}

fn unwritable_field(alloc: Global, field: Field) -> Result<Vec<u8>, ProbeError> {
    let mut answer = word(alloc, "unwritable")?;
    push_word(&mut answer, field_name(field))?;
    Ok(answer)
}

pub fn with_id(alloc: Global, variant: &str, id: &ObjectId) -> Result<Vec<u8>, ProbeError> {
    let mut answer = Vec::new(alloc);
    push_with_id(&mut answer, variant, id)?;
    Ok(answer)
}

pub fn object_kind(alloc: Global, id: &ObjectId, actual: Kind) -> Result<Vec<u8>, ProbeError> {
    let mut answer = with_id(alloc, "object-kind", id)?;
    push_field(&mut answer, actual.as_bytes())?;
    Ok(answer)
}

fn unwritable(alloc: Global, field: Field) -> Result<Vec<u8>, ProbeError> {
    let mut answer = word(alloc, "write-object")?;
    push_word(&mut answer, field_name(field))?;
    Ok(answer)
}

fn missing_object(
    alloc: Global,
    filename: &[u8],
    kind: EntryKind,
    id: &ObjectId,
) -> Result<Vec<u8>, ProbeError> {
    let mut answer = named(alloc, "missing-object", filename)?;
    push_with_id(&mut answer, kind.as_octal_str(), id)?;
    Ok(answer)
}

fn invalid_filename(
    alloc: Global,
    filename: &[u8],
    kind: EntryKind,
    id: &ObjectId,
    source: ComponentError,
) -> Result<Vec<u8>, ProbeError> {
    let mut answer = named(alloc, "invalid-filename", filename)?;
    push_with_id(&mut answer, kind.as_octal_str(), id)?;
    push_word(&mut answer, component_error(source))?;
    Ok(answer)
}

fn component_error(error: ComponentError) -> &'static str {
    match error {
        ComponentError::Empty => "empty",
        ComponentError::PathSeparator => "path-separator",
        ComponentError::Relative => "relative",
        ComponentError::DotGitDir => "dot-git-dir",
        ComponentError::SymlinkedGitModules => "symlinked-git-modules",
        ComponentError::WindowsIllegal => "windows-illegal",
        ComponentError::WindowsReserved => "windows-reserved",
    }
}

/// The fields that a tree, or a line of a log, has.
fn field_name(field: Field) -> &'static str {
    match field {
        Field::FileName => "file-name",
        Field::AuthorName => "author-name",
        Field::AuthorEmail => "author-email",
        Field::AuthorOffset => "author-offset",
        Field::CommitterName => "committer-name",
        Field::CommitterEmail => "committer-email",
        Field::CommitterOffset => "committer-offset",
        _ => "another-field",
    }
}
