//! Rows on commits. A commit that is written is told by its tree, its parents with a space between, its author and
//! its committer by four fields each, its encoding or `none`, its message, and the name and the value of each further
//! header.

use crate::fields::{hash_in, id_in, split_fields, text_in};
use crate::identities::identity_in;
use crate::objects::{
    Cuts, push_named_id, push_part, push_who, rewrite_commit, size_and_id, spelled, texts,
};
use gx_hash::{Bytes, HashKind, NoMemory, object_id};
use gx_object::{
    Commit, CommitRef, CommitRefIter, CommitToken, ExtraHeader, Headers, Ids, OwnedHeader,
    SignedData, WriteTo, push_commit, signature_of,
};
use probe_rows::ProbeError;
use probe_rows::answers::{again, hex, push_failure, push_field, push_id, push_word, quoted, word};
use std::alloc::Global;

/// The answers to rows on commits.
pub fn answer(alloc: Global, call: &str, fields: &[Vec<u8>]) -> Result<Vec<u8>, ProbeError> {
    match fields {
        [hash, bytes] => answer_read(alloc, call, hash_in(hash)?, bytes),
        [hash, fields @ ..] => answer_written(alloc, call, hash_in(hash)?, fields),
        _ => Err(ProbeError::UnknownCall),
    }
}

fn answer_read(
    alloc: Global,
    call: &str,
    hash: HashKind,
    bytes: &[u8],
) -> Result<Vec<u8>, ProbeError> {
    match call {
        "copy_ids" => copied_ids(alloc, bytes),
        "commit" => read_commit(alloc, hash, bytes),
        "commit_again" => read_again(alloc, hash, bytes),
        "commit_items" => items(alloc, hash, bytes),
        "commit_cuts" => cuts(alloc, hash, bytes),
        "parents" => parents(alloc, hash, bytes),
        _ => answer_part(alloc, call, hash, bytes),
    }
}

/// A part of a commit, read without the others.
fn answer_part(
    alloc: Global,
    call: &str,
    hash: HashKind,
    bytes: &[u8],
) -> Result<Vec<u8>, ProbeError> {
    let commit = CommitRefIter::from_bytes(bytes, hash);
    match call {
        "commit_tree" => tree(alloc, &commit),
        "commit_author" => author(alloc, &commit),
        "commit_committer" => committer(alloc, &commit),
        "commit_message" => message(alloc, &commit),
        "header_values" => header_values(alloc, hash, bytes),
        "signature" => signature(alloc, hash, bytes),
        "signed_id" => signed_id(alloc, hash, bytes),
        _ => Err(ProbeError::UnknownCall),
    }
}

fn tree(alloc: Global, commit: &CommitRefIter<'_>) -> Result<Vec<u8>, ProbeError> {
    hex(alloc, &commit.tree_id()?)
}

fn author(alloc: Global, commit: &CommitRefIter<'_>) -> Result<Vec<u8>, ProbeError> {
    texts(alloc, &commit.author()?)
}

fn committer(alloc: Global, commit: &CommitRefIter<'_>) -> Result<Vec<u8>, ProbeError> {
    texts(alloc, &commit.committer()?)
}

fn message(alloc: Global, commit: &CommitRefIter<'_>) -> Result<Vec<u8>, ProbeError> {
    quoted(alloc, commit.message()?.as_bytes())
}

fn read_again(alloc: Global, hash: HashKind, bytes: &[u8]) -> Result<Vec<u8>, ProbeError> {
    again(alloc, bytes, &rewrite_commit(alloc, bytes, hash)?)
}

fn read_commit(alloc: Global, hash: HashKind, bytes: &[u8]) -> Result<Vec<u8>, ProbeError> {
    let commit = CommitRef::from_bytes(alloc, bytes, hash)?;
    shown_commit(alloc, &commit)
}

fn shown_commit(alloc: Global, commit: &CommitRef<'_>) -> Result<Vec<u8>, ProbeError> {
    let mut answer = Vec::new(alloc);
    push_places(&mut answer, commit)?;
    push_texts(&mut answer, commit)?;
    Ok(answer)
}

fn push_places(answer: &mut Vec<u8>, commit: &CommitRef<'_>) -> Result<(), ProbeError> {
    push_part(answer, "tree", commit.tree.as_bytes())?;
    for parent in commit.parents.as_slice() {
        push_part(answer, "parent", parent.as_bytes())?;
    }
    push_who(answer, "author", &commit.author)?;
    push_who(answer, "committer", &commit.committer)
}

fn push_texts(answer: &mut Vec<u8>, commit: &CommitRef<'_>) -> Result<(), ProbeError> {
    if let Some(encoding) = commit.encoding {
        push_part(answer, "encoding", encoding.as_bytes())?;
    }
    for header in commit.extra_headers.as_slice() {
        push_header(answer, header)?;
    }
    push_part(answer, "message", commit.message.as_bytes())
}

fn push_header(answer: &mut Vec<u8>, header: &ExtraHeader<'_>) -> Result<(), ProbeError> {
    push_part(answer, "header", header.name.as_bytes())?;
    push_field(answer, header.raw.as_bytes())
}

/// The names and the values of the further headers, without the space in front of each further line of a value.
fn header_values(alloc: Global, hash: HashKind, bytes: &[u8]) -> Result<Vec<u8>, ProbeError> {
    let commit = CommitRef::from_bytes(alloc, bytes, hash)?;
    let mut answer = Vec::new(alloc);
    push_values(alloc, &mut answer, commit.extra_headers.as_slice())?;
    Ok(answer)
}

fn push_values(
    alloc: Global,
    answer: &mut Vec<u8>,
    headers: &[ExtraHeader<'_>],
) -> Result<(), ProbeError> {
    for header in headers {
        push_field(answer, header.name.as_bytes())?;
        push_field(answer, header.value(alloc)?.as_slice())?;
    }
    Ok(())
}

/// The parts that the iterator gives, the error after them if there is one, and `end`.
fn items(alloc: Global, hash: HashKind, bytes: &[u8]) -> Result<Vec<u8>, ProbeError> {
    let mut answer = Vec::new(alloc);
    for item in CommitRefIter::from_bytes(bytes, hash) {
        match item {
            Ok(token) => push_token(&mut answer, token)?,
            Err(error) => push_failure(alloc, &mut answer, ProbeError::from(error))?,
        }
    }
    push_word(&mut answer, "end")?;
    Ok(answer)
}

fn push_token(answer: &mut Vec<u8>, token: CommitToken<'_>) -> Result<(), ProbeError> {
    match token {
        CommitToken::Tree { id } => push_named_id(answer, "tree", &id),
        CommitToken::Parent { id } => push_named_id(answer, "parent", &id),
        CommitToken::Author { signature } => push_who(answer, "author", &signature),
        CommitToken::Committer { signature } => push_who(answer, "committer", &signature),
        CommitToken::Encoding(text) => push_part(answer, "encoding", text.as_bytes()),
        CommitToken::ExtraHeader(header) => push_header(answer, &header),
        CommitToken::Message(text) => push_part(answer, "message", text.as_bytes()),
    }
}

/// For each number of the first bytes, how they are read.
fn cuts(alloc: Global, hash: HashKind, bytes: &[u8]) -> Result<Vec<u8>, ProbeError> {
    let mut cuts = Cuts::new(alloc);
    for end in 0..=bytes.len() {
        let front = bytes.get(..end).unwrap_or(bytes);
        cuts.add(read_commit(alloc, hash, front).map(|_| ()))?;
    }
    cuts.into_answer()
}

fn parents(alloc: Global, hash: HashKind, bytes: &[u8]) -> Result<Vec<u8>, ProbeError> {
    let mut answer = Vec::new(alloc);
    for id in CommitRefIter::from_bytes(bytes, hash).parent_ids() {
        push_id(&mut answer, &id)?;
    }
    push_word(&mut answer, "end")?;
    Ok(answer)
}

/// The value of the signature, and the bytes that it signs.
fn signature(alloc: Global, hash: HashKind, bytes: &[u8]) -> Result<Vec<u8>, ProbeError> {
    match signature_of(alloc, bytes, hash)? {
        Some((value, signed)) => value_and_bytes(alloc, value.as_slice(), &signed),
        None => word(alloc, "none"),
    }
}

fn value_and_bytes(
    alloc: Global,
    value: &[u8],
    signed: &SignedData<'_>,
) -> Result<Vec<u8>, ProbeError> {
    let mut answer = quoted(alloc, value)?;
    push_field(&mut answer, signed.to_bytes(alloc)?.as_slice())?;
    Ok(answer)
}

/// The value of the signature, and the id of the commit that it signs.
fn signed_id(alloc: Global, hash: HashKind, bytes: &[u8]) -> Result<Vec<u8>, ProbeError> {
    match signature_of(alloc, bytes, hash)? {
        Some((value, signed)) => value_and_id(alloc, hash, value.as_slice(), &signed),
        None => word(alloc, "none"),
    }
}

fn value_and_id(
    alloc: Global,
    hash: HashKind,
    value: &[u8],
    signed: &SignedData<'_>,
) -> Result<Vec<u8>, ProbeError> {
    let bytes = signed.to_bytes(alloc)?;
    let mut answer = quoted(alloc, value)?;
    push_id(&mut answer, &object_id(hash, b"commit", bytes.as_slice()))?;
    Ok(answer)
}

fn answer_written(
    alloc: Global,
    call: &str,
    hash: HashKind,
    fields: &[Vec<u8>],
) -> Result<Vec<u8>, ProbeError> {
    match call {
        "write_commit" => written(alloc, fields),
        "commit_id" => id_of_written(alloc, hash, fields),
        "push_commit" => pushed(alloc, &commit_in(alloc, fields)?),
        _ => Err(ProbeError::UnknownCall),
    }
}

fn written(alloc: Global, fields: &[Vec<u8>]) -> Result<Vec<u8>, ProbeError> {
    let commit = commit_in(alloc, fields)?;
    spelled(alloc, commit.to_bytes(alloc))
}

fn id_of_written(alloc: Global, hash: HashKind, fields: &[Vec<u8>]) -> Result<Vec<u8>, ProbeError> {
    let commit = commit_in(alloc, fields)?;
    size_and_id(alloc, hash, commit.kind(), commit.to_bytes(alloc))
}

/// The commit without its encoding and its further headers.
fn pushed(alloc: Global, commit: &Commit) -> Result<Vec<u8>, ProbeError> {
    let mut out = Vec::new(alloc);
    push_commit(
        &mut out,
        &commit.tree,
        commit.parents.as_slice(),
        &commit.author,
        &commit.committer,
        commit.message.as_slice(),
    )?;
    quoted(alloc, &out)
}

fn commit_in(alloc: Global, fields: &[Vec<u8>]) -> Result<Commit, ProbeError> {
    let [tree, parents, fields @ ..] = fields else {
        return Err(ProbeError::UnknownCall);
    };
    let (people, texts) = split_fields(fields, 8)?;
    let mut commit = commit_by(alloc, tree, people)?;
    commit.parents = ids_in(alloc, parents)?;
    set_texts(alloc, &mut commit, texts)?;
    Ok(commit)
}

/// The commit of a tree by an author and a committer, without parents and texts.
fn commit_by(alloc: Global, tree: &[u8], people: &[Vec<u8>]) -> Result<Commit, ProbeError> {
    let (author, committer) = split_fields(people, 4)?;
    let tree = id_in(tree)?;
    let author = identity_in(alloc, author)?;
    let committer = identity_in(alloc, committer)?;
    Ok(Commit {
        tree,
        parents: Ids::from_vec(Vec::new(alloc)),
        author,
        committer,
        encoding: None,
        message: Bytes::from_vec(Vec::new(alloc)),
        extra_headers: Headers::from_vec(Vec::new(alloc)),
    })
}

fn set_texts(alloc: Global, commit: &mut Commit, texts: &[Vec<u8>]) -> Result<(), ProbeError> {
    let [encoding, message, headers @ ..] = texts else {
        return Err(ProbeError::UnknownCall);
    };
    commit.encoding = text_in(alloc, encoding)?;
    commit.message = Bytes::from_slice(alloc, message)?;
    commit.extra_headers = headers_in(alloc, headers)?;
    Ok(())
}

/// The ids of a field that has a space between each two.
fn ids_in(alloc: Global, field: &[u8]) -> Result<Ids, ProbeError> {
    let mut ids = Vec::new(alloc);
    if field.is_empty() {
        return Ok(Ids::from_vec(ids));
    }
    for digits in field.split(|byte| *byte == b' ') {
        ids.push(id_in(digits)?)?;
    }
    Ok(Ids::from_vec(ids))
}

/// A copy of the ids of a field.
fn copied_ids(alloc: Global, field: &[u8]) -> Result<Vec<u8>, ProbeError> {
    let ids = ids_in(alloc, field)?.try_clone()?;
    let mut answer = Vec::new(alloc);
    for id in ids.as_slice() {
        push_id(&mut answer, id)?;
    }
    Ok(answer)
}

/// The headers of names and values that stand by turns.
fn headers_in(alloc: Global, fields: &[Vec<u8>]) -> Result<Headers, NoMemory> {
    let mut headers = Vec::new(alloc);
    for fields in fields.chunks(2) {
        if let [name, value] = fields {
            headers.push(header_of(alloc, name, value)?)?;
        }
    }
    Ok(Headers::from_vec(headers))
}

fn header_of(alloc: Global, name: &[u8], value: &[u8]) -> Result<OwnedHeader, NoMemory> {
    Ok(OwnedHeader {
        name: Bytes::from_slice(alloc, name)?,
        value: Bytes::from_slice(alloc, value)?,
    })
}
