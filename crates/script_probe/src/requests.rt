//! A request of a script with all its fields, on a line. A long field is told by its size and by its id as a blob,
//! and a long list by its first and its last item.

use gx_edit::PathEdit;
use gx_hash::{Bytes, HashKind, ObjectId, object_id};
use gx_object::Signature;
use gx_script::{
    CommitRequest, Expect, NameSet, NoteRequest, Order, RefRequest, Request, TagRequest, WalkId,
};
use gx_store::Target;
use probe_rows::ProbeError;
use probe_rows::answers::{push_field, push_id, push_shown, push_word};
use std::alloc::Global;

/// The most bytes of a field that are shown.
const SHOWN_BYTES: usize = 256;

/// The most items of a list that are all shown.
const SHOWN_ITEMS: usize = 16;

/// Appends the request.
pub fn push_request(
    alloc: Global,
    line: &mut Vec<u8>,
    request: &Request,
) -> Result<(), ProbeError> {
    match request {
        Request::Commit(commit) => push_commit(alloc, line, commit),
        Request::Identity(who) => push_who(alloc, line, "identity", who),
        Request::Tag(tag) => push_tag(alloc, line, tag),
        Request::Ref(change) => push_ref(alloc, line, change),
        Request::Delete { name, expect } => push_deletion(alloc, line, name.as_slice(), expect),
        Request::NoteSet(note) => push_note(alloc, line, note),
        Request::NoteDrop { reference, object } => {
            push_note_drop(alloc, line, reference.as_slice(), object)
        }
        Request::NoteGet { object, patterns } => {
            push_note_get(alloc, line, object, patterns.as_slice())
        }
        other => push_question(alloc, line, other),
    }
}

/// Appends a request that asks for references, or sets a namespace.
fn push_question(alloc: Global, line: &mut Vec<u8>, request: &Request) -> Result<(), ProbeError> {
    match request {
        Request::Refs(None) => push_word(line, "refs"),
        Request::Refs(Some(prefix)) => push_named(alloc, line, "refs", prefix.as_slice()),
        Request::Log(name) => push_named(alloc, line, "log", name.as_slice()),
        Request::Head => push_word(line, "head"),
        Request::Namespace(None) => push_word(line, "namespace"),
        Request::Namespace(Some(name)) => push_named(alloc, line, "namespace", name.as_slice()),
        other => push_history(alloc, line, other),
    }
}

/// Appends a request about objects that it names by their ids.
fn push_history(alloc: Global, line: &mut Vec<u8>, request: &Request) -> Result<(), ProbeError> {
    match request {
        Request::Paths(id) => push_with_id(line, "paths", id),
        Request::Walk { order, ids } => push_walk(alloc, line, *order, ids.as_slice()),
        Request::Bases { first, others } => push_bases(alloc, line, first, others.as_slice()),
        Request::Octopus(ids) => push_ids(alloc, line, "octopus", ids.as_slice()),
        Request::Describe { names, max, id } => push_describe(alloc, line, *names, *max, id),
        _ => Ok(()),
    }
}

fn push_walk(
    alloc: Global,
    line: &mut Vec<u8>,
    order: Order,
    ids: &[WalkId],
) -> Result<(), ProbeError> {
    push_order(alloc, line, order)?;
    push_walk_ids(alloc, line, ids)
}

fn push_bases(
    alloc: Global,
    line: &mut Vec<u8>,
    first: &ObjectId,
    others: &[ObjectId],
) -> Result<(), ProbeError> {
    push_with_id(line, "bases", first)?;
    push_ids(alloc, line, "others", others)
}

fn push_describe(
    alloc: Global,
    line: &mut Vec<u8>,
    names: NameSet,
    max: u64,
    id: &ObjectId,
) -> Result<(), ProbeError> {
    push_word(line, name_set(names))?;
    push_shown(alloc, line, &max)?;
    push_id(line, id)
}

fn push_deletion(
    alloc: Global,
    line: &mut Vec<u8>,
    name: &[u8],
    expect: &Expect,
) -> Result<(), ProbeError> {
    push_named(alloc, line, "delete", name)?;
    push_expect(alloc, line, expect)
}

fn push_note_drop(
    alloc: Global,
    line: &mut Vec<u8>,
    reference: &[u8],
    object: &ObjectId,
) -> Result<(), ProbeError> {
    push_named(alloc, line, "note-drop", reference)?;
    push_id(line, object)
}

fn push_note_get(
    alloc: Global,
    line: &mut Vec<u8>,
    object: &ObjectId,
    patterns: &[Bytes],
) -> Result<(), ProbeError> {
    push_with_id(line, "note-get", object)?;
    push_patterns(alloc, line, patterns)
}

fn push_commit(
    alloc: Global,
    line: &mut Vec<u8>,
    commit: &CommitRequest,
) -> Result<(), ProbeError> {
    push_named(alloc, line, "commit", commit.name.as_slice())?;
    push_who(alloc, line, "author", &commit.author)?;
    push_who(alloc, line, "committer", &commit.committer)?;
    push_ids(alloc, line, "parents", commit.parents.as_slice())?;
    push_named(alloc, line, "message", commit.message.as_slice())?;
    push_edits(alloc, line, commit.edits.as_slice())
}

fn push_edits(alloc: Global, line: &mut Vec<u8>, edits: &[PathEdit]) -> Result<(), ProbeError> {
    push_count(alloc, line, "edits", edits.len())?;
    for (at, edit) in edits.iter().enumerate() {
        if is_shown(at, edits.len()) {
            push_edit(alloc, line, edit)?;
        }
    }
    Ok(())
}

fn push_edit(alloc: Global, line: &mut Vec<u8>, edit: &PathEdit) -> Result<(), ProbeError> {
    push_named(alloc, line, edit_word(edit), edit.path().as_slice())?;
    match edit {
        PathEdit::File { bytes, .. } | PathEdit::Link { bytes, .. } => {
            push_bytes(alloc, line, bytes.as_slice())
        }
        PathEdit::Module { id, .. } => push_id(line, id),
        PathEdit::Remove { .. } => Ok(()),
    }
}

fn edit_word(edit: &PathEdit) -> &'static str {
    match edit {
        PathEdit::File {
            executable: false,
            ..
        } => "file",
        PathEdit::File { .. } => "exec",
        PathEdit::Link { .. } => "link",
        PathEdit::Module { .. } => "module",
        PathEdit::Remove { .. } => "drop",
    }
}

fn push_tag(alloc: Global, line: &mut Vec<u8>, tag: &TagRequest) -> Result<(), ProbeError> {
    push_named(alloc, line, "tag", tag.name.as_slice())?;
    push_id(line, &tag.target)?;
    push_field(line, tag.kind.as_bytes())?;
    if let Some(tagger) = &tag.tagger {
        push_who(alloc, line, "tagger", tagger)?;
    }
    push_named(alloc, line, "message", tag.message.as_slice())
}

fn push_ref(alloc: Global, line: &mut Vec<u8>, change: &RefRequest) -> Result<(), ProbeError> {
    push_named(alloc, line, "ref", change.name.as_slice())?;
    push_target(line, &change.target)?;
    push_expect(alloc, line, &change.expect)?;
    if let Some(committer) = &change.committer {
        push_who(alloc, line, "committer", committer)?;
    }
    push_named(alloc, line, "message", change.message.as_slice())
}

fn push_note(alloc: Global, line: &mut Vec<u8>, note: &NoteRequest) -> Result<(), ProbeError> {
    push_named(alloc, line, "note-set", note.reference.as_slice())?;
    push_id(line, &note.object)?;
    push_bytes(alloc, line, note.note.as_slice())
}

fn push_patterns(alloc: Global, line: &mut Vec<u8>, patterns: &[Bytes]) -> Result<(), ProbeError> {
    push_count(alloc, line, "patterns", patterns.len())?;
    for (at, pattern) in patterns.iter().enumerate() {
        if is_shown(at, patterns.len()) {
            push_bytes(alloc, line, pattern.as_slice())?;
        }
    }
    Ok(())
}

fn push_ids(
    alloc: Global,
    line: &mut Vec<u8>,
    word: &str,
    ids: &[ObjectId],
) -> Result<(), ProbeError> {
    push_count(alloc, line, word, ids.len())?;
    for (at, id) in ids.iter().enumerate() {
        if is_shown(at, ids.len()) {
            push_id(line, id)?;
        }
    }
    Ok(())
}

fn push_walk_ids(alloc: Global, line: &mut Vec<u8>, ids: &[WalkId]) -> Result<(), ProbeError> {
    push_count(alloc, line, "ids", ids.len())?;
    for (at, id) in ids.iter().enumerate() {
        if is_shown(at, ids.len()) {
            push_walk_id(line, id)?;
        }
    }
    Ok(())
}

fn push_walk_id(line: &mut Vec<u8>, id: &WalkId) -> Result<(), ProbeError> {
    if id.hidden {
        push_word(line, "hidden")?;
    }
    push_id(line, &id.id)
}

fn push_order(alloc: Global, line: &mut Vec<u8>, order: Order) -> Result<(), ProbeError> {
    match order {
        Order::Breadth => push_word(line, "walk breadth"),
        Order::Newest => push_word(line, "walk newest"),
        Order::Oldest => push_word(line, "walk oldest"),
        Order::NewestFrom(seconds) => {
            push_word(line, "walk newest from")?;
            push_shown(alloc, line, &seconds)
        }
        Order::OldestFrom(seconds) => {
            push_word(line, "walk oldest from")?;
            push_shown(alloc, line, &seconds)
        }
    }
}

fn name_set(names: NameSet) -> &'static str {
    match names {
        NameSet::Tags => "describe tags",
        NameSet::AllTags => "describe all-tags",
        NameSet::AllRefs => "describe all-refs",
    }
}

fn push_expect(alloc: Global, line: &mut Vec<u8>, expect: &Expect) -> Result<(), ProbeError> {
    match expect {
        Expect::Any => push_word(line, "any"),
        Expect::Exists => push_word(line, "exists"),
        Expect::Absent => push_word(line, "absent"),
        Expect::Match(target) => {
            push_word(line, "is")?;
            push_target(line, target)
        }
        Expect::MatchOrAbsent(target) => {
            push_word(line, "absent or")?;
            push_target(line, target)
        }
    }
}

/// Appends what a reference names: an id, or `symbolic` and a name.
pub fn push_target(line: &mut Vec<u8>, target: &Target) -> Result<(), ProbeError> {
    match target {
        Target::Object(id) => push_id(line, id),
        Target::Symbolic(name) => {
            push_word(line, "symbolic")?;
            push_field(line, name.as_slice())
        }
    }
}

/// Appends a word and an identity: seconds, offset, name, email.
pub fn push_who(
    alloc: Global,
    line: &mut Vec<u8>,
    word: &str,
    who: &Signature,
) -> Result<(), ProbeError> {
    push_word(line, word)?;
    push_shown(alloc, line, &who.time.seconds)?;
    push_shown(alloc, line, &who.time.offset)?;
    push_bytes(alloc, line, who.name.as_slice())?;
    push_bytes(alloc, line, who.email.as_slice())
}

fn push_named(
    alloc: Global,
    line: &mut Vec<u8>,
    word: &str,
    bytes: &[u8],
) -> Result<(), ProbeError> {
    push_word(line, word)?;
    push_bytes(alloc, line, bytes)
}

/// Appends a field of any length.
fn push_bytes(alloc: Global, line: &mut Vec<u8>, bytes: &[u8]) -> Result<(), ProbeError> {
    if bytes.len() <= SHOWN_BYTES {
        return push_field(line, bytes);
    }
    push_word(line, "(")?;
    push_shown(alloc, line, &bytes.len())?;
    push_word(line, "bytes")?;
    push_id(line, &object_id(HashKind::Sha1, b"blob", bytes))?;
    push_word(line, ")")
}

fn push_with_id(line: &mut Vec<u8>, word: &str, id: &ObjectId) -> Result<(), ProbeError> {
    push_word(line, word)?;
    push_id(line, id)
}

fn push_count(
    alloc: Global,
    line: &mut Vec<u8>,
    word: &str,
    count: usize,
) -> Result<(), ProbeError> {
    push_word(line, word)?;
    push_shown(alloc, line, &count)
}

/// Whether the item at this place of a list of this length is shown.
fn is_shown(at: usize, length: usize) -> bool {
    length <= SHOWN_ITEMS || at == 0 || at.saturating_add(1) == length
}
