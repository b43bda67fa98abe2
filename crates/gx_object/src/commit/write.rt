//! The bytes that spell commits.
ghost use Rattle.std.specs.Prelude.{◌≡◌, [], ◌∷◌, ◌==◌, ◌&&◌, ◌++◌, not, codes, true, false, OnOk, OnErr, IfSome, IfNone};
ghost use Rattle.std.specs.Io.{StartsWith};
ghost use Rattle.std.specs.List.{flat_map, list_all};
ghost use Rattle.gx_object.specs.Field.{first_unwritable};
ghost use Rattle.gx_object.specs.Commit.{id_line, identity_line, head_bytes, plain_commit_bytes, encoding_line, folded_byte, header_line, commit_bytes, is_writable_header, is_writable_encoding, is_writable_commit};
ghost use Rattle.gx_object.specs.declared.kind.Kind.TheVariants as object_kind;

use crate::{
    Commit, EncodeError, Field, Kind, OwnedHeader, Signature, WriteTo, push_identity,
    unwritable_identity,
};
use gx_hash::{Bytes, NoMemory, ObjectId};
use std::alloc::Global;

/// Appends a commit without an encoding and without further headers. Nothing of it is copied but into `out`.
#[tactic(auto, unfolding(crate::specs::Commit::plain_commit_bytes))]
pub fn push_commit(
    out: &mut Vec<u8>,
    tree: &ObjectId,
    parents: &[ObjectId],
    author: &Signature,
    committer: &Signature,
    message: &[u8],
) -> Result<(), NoMemory>
    ensures ok { OnOk result (out.new.items ≡ out.old.items
        ++ plain_commit_bytes tree.now parents.now author.now committer.now message.now) }
    ensures leaves { OnErr result (StartsWith out.new.items out.old.items) }
{
    out.reserve(room_of(tree, parents, author, committer).saturating_add(message.len()))?;
    push_head(out, tree, parents, author, committer)?;
    out.push(b'\n')?;
    out.extend_from_slice(message)?;
    Ok(())
}

// How many bytes the first headers take at most, to reserve them at once.
fn room_of(
    tree: &ObjectId,
    parents: &[ObjectId],
    author: &Signature,
    committer: &Signature,
) -> usize {
    let id_line = b"parent \n".len() + tree.kind().len_in_hex();
    let times = 2 * b"committer  <> -9223372036854775808 +9959\n".len();
    parents
        .len()
        .saturating_add(1)
        .saturating_mul(id_line)
        .saturating_add(author.name.as_slice().len())
        .saturating_add(author.email.as_slice().len())
        .saturating_add(committer.name.as_slice().len())
        .saturating_add(committer.email.as_slice().len())
        .saturating_add(times)
}

#[tactic(auto, unfolding(crate::specs::Commit::head_bytes))]
fn push_head(
    out: &mut Vec<u8>,
    tree: &ObjectId,
    parents: &[ObjectId],
    author: &Signature,
    committer: &Signature,
) -> Result<(), NoMemory>
    ensures ok { OnOk result (out.new.items
        ≡ out.old.items ++ head_bytes tree.now parents.now author.now committer.now) }
    ensures leaves { OnErr result (StartsWith out.new.items out.old.items) }
{
    push_id_line(out, b"tree ", tree)?;
    push_parents(out, parents)?;
    push_identity_line(out, b"author ", author)?;
    push_identity_line(out, b"committer ", committer)
}

pub(crate) fn push_id_line(out: &mut Vec<u8>, word: &[u8], id: &ObjectId) -> Result<(), NoMemory>
    ensures ok { OnOk result (out.new.items ≡ out.old.items ++ id_line word.now id.now) }
    ensures leaves { OnErr result (StartsWith out.new.items out.old.items) }
{
    out.extend_from_slice(word)?;
    id.push_hex(out)?;
    out.push(b'\n')?;
    Ok(())
}

fn push_parents(out: &mut Vec<u8>, parents: &[ObjectId]) -> Result<(), NoMemory>
    ensures ok { OnOk result (out.new.items ≡ out.old.items ++ flat_map (id_line (codes "parent ")) parents.now) }
    ensures leaves { OnErr result (StartsWith out.new.items out.old.items) }
{
    for id in parents {
        push_id_line(out, b"parent ", id)?;
    }
    Ok(())
}

pub(crate) fn push_identity_line(
    out: &mut Vec<u8>,
    word: &[u8],
    who: &Signature,
) -> Result<(), NoMemory>
    ensures ok { OnOk result (out.new.items ≡ out.old.items ++ identity_line word.now who.now) }
    ensures leaves { OnErr result (StartsWith out.new.items out.old.items) }
{
    out.extend_from_slice(word)?;
    push_identity(out, who)?;
    out.push(b'\n')?;
    Ok(())
}

fn push_encoding(out: &mut Vec<u8>, encoding: &Option<Bytes>) -> Result<(), NoMemory>
    ensures { OnOk result (out.new.items ≡ out.old.items ++ encoding_line encoding.now) }
{
    if let Some(text) = encoding {
        out.extend_from_slice(b"encoding ")?;
        out.extend_from_slice(text.as_slice())?;
        out.push(b'\n')?;
    }
    Ok(())
}

fn push_headers(out: &mut Vec<u8>, headers: &[OwnedHeader]) -> Result<(), NoMemory>
    ensures { OnOk result (out.new.items ≡ out.old.items ++ flat_map header_line headers.now) }
{
    for header in headers {
        push_header(out, header)?;
    }
    Ok(())
}

fn push_header(out: &mut Vec<u8>, header: &OwnedHeader) -> Result<(), NoMemory>
    ensures { OnOk result (out.new.items ≡ out.old.items ++ header_line header.now) }
{
    out.extend_from_slice(header.name.as_slice())?;
    out.push(b' ')?;
    push_folded(out, header.value.as_slice())?;
    out.push(b'\n')?;
    Ok(())
}

fn push_folded(out: &mut Vec<u8>, value: &[u8]) -> Result<(), NoMemory>
    ensures { OnOk result (out.new.items ≡ out.old.items ++ flat_map folded_byte value.now) }
{
    for byte in value {
        out.push(*byte)?;
        if *byte == b'\n' {
            out.push(b' ')?;
        }
    }
    Ok(())
}

// How many bytes a commit takes, but for spaces that its headers' values are folded with.
fn room_of_commit(commit: &Commit) -> usize {
    let parents = commit.parents.as_slice();
    room_of(&commit.tree, parents, &commit.author, &commit.committer)
        .saturating_add(room_of_encoding(&commit.encoding))
        .saturating_add(room_of_headers(commit.extra_headers.as_slice()))
        .saturating_add(commit.message.as_slice().len())
}

fn room_of_encoding(encoding: &Option<Bytes>) -> usize {
    match encoding {
        None => 0,
        Some(text) => text.as_slice().len().saturating_add(b"encoding \n".len()),
    }
}

fn room_of_headers(headers: &[OwnedHeader]) -> usize {
    let mut room: usize = 0;
    for header in headers {
        room = room
            .saturating_add(header.name.as_slice().len())
            .saturating_add(header.value.as_slice().len())
            .saturating_add(2);
    }
    room
}

#[tactic(auto, unfolding(crate::specs::Commit::commit_bytes))]
fn push_whole_commit(out: &mut Vec<u8>, commit: &Commit) -> Result<(), NoMemory>
    ensures { OnOk result (out.new.items ≡ out.old.items ++ commit_bytes commit.now) }
{
    push_head(
        out,
        &commit.tree,
        commit.parents.as_slice(),
        &commit.author,
        &commit.committer,
    )?;
    push_encoding(out, &commit.encoding)?;
    push_headers(out, commit.extra_headers.as_slice())?;
    out.push(b'\n')?;
    out.extend_from_slice(commit.message.as_slice())?;
    Ok(())
}

fn fits_in_header_name(name: &[u8]) -> bool
    ensures { result ≡ list_all (λ b. not (b == 32) && not (b == 10)) name.now }
{
    name.iter().all(|b| *b != b' ' && *b != b'\n')
}

fn can_write_header(header: &OwnedHeader) -> bool
    ensures { result ≡ is_writable_header header.now }
{
    let name = header.name.as_slice();
    !name.is_empty() && fits_in_header_name(name)
}

fn can_write_headers(headers: &[OwnedHeader]) -> bool
    ensures { result ≡ list_all is_writable_header headers.now }
{
    headers.iter().all(|h| can_write_header(h))
}

pub(crate) fn has_no_newline(text: &[u8]) -> bool
    ensures { result ≡ list_all (λ b. not (b == 10)) text.now }
{
    text.iter().all(|b| *b != b'\n')
}

fn can_write_encoding(encoding: &Option<Bytes>) -> bool
    ensures { result ≡ is_writable_encoding encoding.now }
{
    match encoding {
        None => true,
        Some(text) => {
            let text = text.as_slice();
            !text.is_empty() && has_no_newline(text)
        }
    }
}

// The first field that can't be written.
#[tactic(auto, using(crate::specs::Laws::CommitFields::all_writable))]
fn unwritable_field(commit: &Commit) -> Option<Field>
    ensures first { result ≡ first_unwritable (is_writable_commit commit.now) }
    ensures found { IfSome result (λ field. is_writable_commit commit.now field ≡ false) }
    ensures none { IfNone result ((field : _) → is_writable_commit commit.now field ≡ true) }
{
    if let Some(field) = unwritable_identity(&commit.author, &commit.committer) {
        Some(field)
    } else if !can_write_encoding(&commit.encoding) {
        Some(Field::Encoding)
    } else if !can_write_headers(commit.extra_headers.as_slice()) {
        Some(Field::HeaderName)
    } else {
        None
    }
}

impl WriteTo for Commit {
    ghost object_kind = { λ _. object_kind.Commit };

    ghost spelling = { commit_bytes };

    ghost is_writable = { is_writable_commit };

    fn kind(&self) -> Kind {
        Kind::Commit
    }

    fn to_bytes(&self, alloc: Global) -> Result<Bytes, EncodeError> {
        if let Some(field) = unwritable_field(self) {
            return Err(EncodeError::Unwritable { field });
        }
        let mut out = Vec::with_capacity(alloc, room_of_commit(self))?;
        push_whole_commit(&mut out, self)?;
        Ok(Bytes::from_vec(out))
    }
}
