//! Objects as they are read, and as they are written again.

use gx_hash::{Bytes, HashKind, ObjectId, object_id};
use gx_object::{
    Commit, CommitRef, EncodeError, Field, Kind, SignatureRef, Tag, TagRef, Tree, TreeRef,
    TreeRefIter, WriteTo,
};
use probe_rows::ProbeError;
use probe_rows::answers::{
    numbered, push_field, push_id, push_shown, push_word, quoted, shown, word,
};
use std::alloc::Global;

/// The tree that the bytes spell, as it is written.
pub fn rewrite_tree(alloc: Global, bytes: &[u8], hash: HashKind) -> Result<Vec<u8>, ProbeError> {
    let tree = own_tree(&TreeRef::from_bytes(alloc, bytes, hash)?)?;
    bytes_of(tree.to_bytes(alloc))
}

fn own_tree(tree: &TreeRef<'_>) -> Result<Tree, ProbeError> {
    Ok(tree.to_owned()?)
}

/// The commit that the bytes spell, as it is written.
pub fn rewrite_commit(alloc: Global, bytes: &[u8], hash: HashKind) -> Result<Vec<u8>, ProbeError> {
    let commit = own_commit(alloc, bytes, hash)?;
    bytes_of(commit.to_bytes(alloc))
}

fn own_commit(alloc: Global, bytes: &[u8], hash: HashKind) -> Result<Commit, ProbeError> {
    let commit = CommitRef::from_bytes(alloc, bytes, hash)?;
    Ok(commit.to_owned(alloc)?)
}

/// The tag that the bytes spell, as it is written.
pub fn rewrite_tag(alloc: Global, bytes: &[u8], hash: HashKind) -> Result<Vec<u8>, ProbeError> {
    let tag = own_tag(alloc, bytes, hash)?;
    bytes_of(tag.to_bytes(alloc))
}

fn own_tag(alloc: Global, bytes: &[u8], hash: HashKind) -> Result<Tag, ProbeError> {
    let tag = TagRef::from_bytes(bytes, hash)?;
    Ok(tag.to_owned(alloc)?)
}

fn bytes_of(written: Result<Bytes, EncodeError>) -> Result<Vec<u8>, ProbeError> {
    Ok(written?.into_vec())
}

/// The number of entries of the tree that the bytes spell, on a line.
pub fn count_entries(alloc: Global, bytes: &[u8], hash: HashKind) -> Result<Vec<u8>, ProbeError> {
    let mut count: u64 = 0;
    for entry in TreeRefIter::from_bytes(bytes, hash) {
        entry?;
        count = count.saturating_add(1);
    }
    on_a_line(alloc, count)
}

fn on_a_line(alloc: Global, count: u64) -> Result<Vec<u8>, ProbeError> {
    let mut line = shown(alloc, &count)?;
    line.push(b'\n')?;
    Ok(line)
}

/// The bytes of an object, or the first field that can't be written.
pub fn spelled(alloc: Global, written: Result<Bytes, EncodeError>) -> Result<Vec<u8>, ProbeError> {
    match written {
        Ok(bytes) => quoted(alloc, bytes.as_slice()),
        Err(error) => unwritable(alloc, error),
    }
}

/// The number of bytes of an object and its id, or the first field that can't be written.
pub fn size_and_id(
    alloc: Global,
    hash: HashKind,
    kind: Kind,
    written: Result<Bytes, EncodeError>,
) -> Result<Vec<u8>, ProbeError> {
    match written {
        Ok(bytes) => size_and_id_of(alloc, hash, kind, bytes.as_slice()),
        Err(error) => unwritable(alloc, error),
    }
}

fn size_and_id_of(
    alloc: Global,
    hash: HashKind,
    kind: Kind,
    bytes: &[u8],
) -> Result<Vec<u8>, ProbeError> {
    let mut answer = numbered(alloc, "bytes", bytes.len())?;
    push_id(&mut answer, &object_id(hash, kind.as_bytes(), bytes))?;
    Ok(answer)
}

fn unwritable(alloc: Global, error: EncodeError) -> Result<Vec<u8>, ProbeError> {
    match error {
        EncodeError::Unwritable { field } => unwritable_field(alloc, field),
        EncodeError::NoMemory => Err(ProbeError::NoMemory),
    }
}

fn unwritable_field(alloc: Global, field: Field) -> Result<Vec<u8>, ProbeError> {
    let mut answer = word(alloc, "unwritable")?;
    push_word(&mut answer, field_word(field))?;
    Ok(answer)
}

pub fn field_word(field: Field) -> &'static str {
    match field {
        Field::FileName => "file-name",
        Field::AuthorName => "author-name",
        Field::AuthorEmail => "author-email",
        Field::AuthorOffset => "author-offset",
        Field::CommitterName => "committer-name",
        Field::CommitterEmail => "committer-email",
        Field::CommitterOffset => "committer-offset",
        Field::TaggerName => "tagger-name",
        Field::TaggerEmail => "tagger-email",
        Field::TaggerOffset => "tagger-offset",
        Field::TagName => "tag-name",
        Field::Encoding => "encoding",
        Field::HeaderName => "header-name",
    }
}

/// The texts of an identity: its name, its email and its time.
pub fn texts(alloc: Global, who: &SignatureRef<'_>) -> Result<Vec<u8>, ProbeError> {
    let mut answer = Vec::new(alloc);
    push_identity_ref(&mut answer, who)?;
    Ok(answer)
}

pub fn push_identity_ref(answer: &mut Vec<u8>, who: &SignatureRef<'_>) -> Result<(), ProbeError> {
    push_field(answer, who.name.as_bytes())?;
    push_field(answer, who.email.as_bytes())?;
    push_field(answer, who.time.as_bytes())
}

pub fn push_part(answer: &mut Vec<u8>, text: &str, bytes: &[u8]) -> Result<(), ProbeError> {
    push_word(answer, text)?;
    push_field(answer, bytes)
}

pub fn push_who(
    answer: &mut Vec<u8>,
    text: &str,
    who: &SignatureRef<'_>,
) -> Result<(), ProbeError> {
    push_word(answer, text)?;
    push_identity_ref(answer, who)
}

pub fn push_named_id(answer: &mut Vec<u8>, text: &str, id: &ObjectId) -> Result<(), ProbeError> {
    push_word(answer, text)?;
    push_id(answer, id)
}

/// How the first bytes of an object are read, for each number of them in turn. Numbers with the same outcome are
/// counted together: `0*46` is 46 of them that go wrong at byte 0, `ok` is one that is an object.
#[derive(Drop)]
pub struct Cuts {
    alloc: Global,
    answer: Vec<u8>,
    place: Option<usize>,
    count: u64,
}

impl Cuts {
    pub fn new(alloc: Global) -> Cuts {
        Cuts {
            alloc,
            answer: Vec::new(alloc),
            place: None,
            count: 0,
        }
    }

    /// Takes the outcome of the next cut.
    pub fn add(&mut self, outcome: Result<(), ProbeError>) -> Result<(), ProbeError> {
        let place = match outcome {
            Ok(()) => None,
            Err(ProbeError::Decode { at }) => Some(at),
            Err(error) => return Err(error),
        };
        if self.count > 0 && place == self.place {
            self.count = self.count.saturating_add(1);
            return Ok(());
        }
        self.flush()?;
        self.place = place;
        self.count = 1;
        Ok(())
    }

    fn flush(&mut self) -> Result<(), ProbeError> {
        push_outcome(self.alloc, &mut self.answer, self.place, self.count)
    }

    pub fn into_answer(self) -> Result<Vec<u8>, ProbeError> {
        let mut cuts = self;
        cuts.flush()?;
        Ok(cuts.answer)
    }
}

/// Appends where so many cuts go wrong, if they do.
fn push_outcome(
    alloc: Global,
    answer: &mut Vec<u8>,
    place: Option<usize>,
    count: u64,
) -> Result<(), ProbeError> {
    match place {
        _ if count == 0 => Ok(()),
        None if count == 1 => push_word(answer, "ok"),
        None => push_times(alloc, answer, "ok", count),
        Some(place) => push_places(alloc, answer, place, count),
    }
}

fn push_places(
    alloc: Global,
    answer: &mut Vec<u8>,
    place: usize,
    count: u64,
) -> Result<(), ProbeError> {
    push_shown(alloc, answer, &place)?;
    push_star(alloc, answer, count)
}

fn push_times(
    alloc: Global,
    answer: &mut Vec<u8>,
    text: &str,
    count: u64,
) -> Result<(), ProbeError> {
    push_word(answer, text)?;
    push_star(alloc, answer, count)
}

/// Appends a star and the number.
fn push_star(alloc: Global, answer: &mut Vec<u8>, count: u64) -> Result<(), ProbeError> {
    let digits = shown(alloc, &count)?;
    answer.push(b'*')?;
    Ok(answer.extend_from_slice(&digits)?)
}
