//! Commits as objects contain them.
ghost use Rattle.std.specs.Prelude.{◌≡◌, ◌-◌, ◌++◌, List, OnOk, [], ℕ, length, map, IfOk, IfErr, IfSome, MatchResult};
ghost use Rattle.std.specs.Option.{option_map};
ghost use Rattle.bstr.specs.BStr.{bstr_bytes};
ghost use Rattle.gx_object.specs.declared.decode.DecodeError.TheVariants.{Decode, NoMemory as no_memory};
ghost use Rattle.gx_object.specs.CommitLines.{HasParents, HasHeaders, PushesHeaders};
ghost use Rattle.gx_object.specs.OwnedCommit.{HasIdsOf};
ghost use Rattle.gx_object.specs.CommitSpelling.{CommitText, commit_text, header_text, folded, unfolded, SpellsCommit, CommitCauses};

use crate::commit::fields::read_message;
use crate::commit::lines::{header, id_line, identity_line, is_encoding, message};
use crate::{DecodeError, SignatureRef};
use bstr::BStr;
use gx_hash::{Bytes, HashKind, NoMemory};
use smallvec::SmallVec;
use std::alloc::Global;
use std::marker::Model;

/// A header of a commit beyond those that each commit has, as the object contains it.
#[derive(Clone, Copy, Debug)]
pub struct ExtraHeader<'a> {
    pub name: BStr<'a>,
    /// The value with the space that begins each of its lines after the first.
    pub raw: BStr<'a>,
}

impl<'a> ExtraHeader<'a> {
    /// The value without the space that begins each of its lines after the first.
    pub fn value(&self, alloc: Global) -> Result<Bytes, NoMemory>
        ensures ok { IfOk result (λ found. found ≡ unfolded (bstr_bytes self.now.raw)) }
        ensures folded { (value : List ℕ) → bstr_bytes self.now.raw ≡ folded value
            → IfOk result (λ found. found ≡ value) }
    {
        let raw = self.raw.as_bytes();
        let mut value = Vec::with_capacity(alloc, raw.len())?;
        push_unfolded(&mut value, raw)?;
        Ok(Bytes::from_vec(value))
    }
}

fn push_unfolded(out: &mut Vec<u8>, raw: &[u8]) -> Result<(), NoMemory>
    ensures { OnOk result (out.new.items ≡ out.old.items ++ unfolded raw.now) }
{
    let mut behind_newline = false;
    for byte in raw {
        if !(behind_newline && *byte == b' ') {
            out.push(*byte)?;
        }
        behind_newline = *byte == b'\n';
    }
    Ok(())
}

/// The further headers of a commit, in their order.
#[derive(Debug, Drop)]
pub struct ExtraHeaders<'a> {
    vec: Vec<ExtraHeader<'a>>,
}

impl<'a> Model for ExtraHeaders<'a> {
    ghost use Rattle.std.specs.Prelude.{List};
    ghost use Rattle.gx_object.specs.declared.commit.decode.ExtraHeader.{ExtraHeader};

    ghost Value = { List ExtraHeader };

    ghost view = { λ headers. headers.vec.items };
}

impl<'a> ExtraHeaders<'a> {
    pub fn new(alloc: Global) -> ExtraHeaders<'a>
        ensures { result ≡ [] }
    {
        ExtraHeaders {
            vec: Vec::new(alloc),
        }
    }

    pub fn from_vec(vec: Vec<ExtraHeader<'a>>) -> ExtraHeaders<'a>
        ensures { result ≡ vec.entry.items }
    {
        ExtraHeaders { vec }
    }

    pub fn into_vec(self) -> Vec<ExtraHeader<'a>>
        ensures { result.items ≡ self.entry }
    {
        self.vec
    }

    pub fn as_slice(&self) -> &[ExtraHeader<'a>]
        ensures { result.now ≡ self.now }
    {
        &self.vec
    }
}

/// A commit as an object contains it. All texts are slices of the object.
#[derive(Debug, Drop)]
pub struct CommitRef<'a> {
    /// The digits of the tree's id.
    pub tree: BStr<'a>,
    /// The digits of the parents' ids.
    pub parents: SmallVec<BStr<'a>, 1>,
    pub author: SignatureRef<'a>,
    pub committer: SignatureRef<'a>,
    /// The encoding of the message, where it is told.
    pub encoding: Option<BStr<'a>>,
    pub message: BStr<'a>,
    pub extra_headers: ExtraHeaders<'a>,
}

impl<'a> CommitRef<'a> {
    /// The commit that the bytes spell, in a repository of this kind. Memory runs out only for bytes that spell one.
    pub fn from_bytes(
        alloc: Global,
        bytes: &'a [u8],
        hash: HashKind,
    ) -> Result<CommitRef<'a>, DecodeError>
        ensures ok { IfOk result (λ c. SpellsCommit hash bytes.now (commit_text c)) }
        ensures causes { IfErr result (CommitCauses hash bytes.now) }
        ensures only { (c : CommitText) → SpellsCommit hash bytes.now c
            → MatchResult result (λ found. commit_text found ≡ c) (λ e. e ≡ no_memory) }
        ensures ids { IfOk result (λ c. HasIdsOf hash (commit_text c)) }
    {
        match read_commit(alloc, bytes, hash) {
            Some(commit) => Ok(commit),
            None => Err(refusal(bytes, hash)),
        }
    }
}

// Why the bytes were not read. It goes over them again and takes no memory.
fn refusal(bytes: &[u8], hash: HashKind) -> DecodeError
    ensures { CommitCauses hash bytes.now result }
{
    match read_message(bytes, hash) {
        Ok(_) => DecodeError::NoMemory,
        Err(error) => error,
    }
}

// The commit that the bytes spell, if they spell one and there is memory for its parents and headers.
fn read_commit<'a>(alloc: Global, bytes: &'a [u8], hash: HashKind) -> Option<CommitRef<'a>>
    ensures { IfSome result (λ c. SpellsCommit hash bytes.now (commit_text c)) }
{
    let (tree, rest) = id_line(bytes, b"tree ", hash)?;
    let (parents, rest) = parent_lines(alloc, rest, hash).ok()?;
    let (author, rest) = identity_line(rest, b"author ")?;
    let (committer, rest) = identity_line(rest, b"committer ")?;
    let (encoding, extra_headers, rest) = header_lines(alloc, rest).ok()?;
    let message = message(rest)?;
    Some(CommitRef {
        tree,
        parents,
        author,
        committer,
        encoding,
        message,
        extra_headers,
    })
}

// The line that begins with the rest is outside the grammar.
pub(crate) fn bad_line(bytes: &[u8], rest: &[u8]) -> DecodeError
    ensures { result ≡ Decode (length bytes.now - length rest.now) }
{
    DecodeError::Decode {
        at: bytes.len().saturating_sub(rest.len()),
    }
}

fn parent_lines<'a>(
    alloc: Global,
    bytes: &'a [u8],
    hash: HashKind,
) -> Result<(SmallVec<BStr<'a>, 1>, &'a [u8]), NoMemory>
    ensures { IfOk result (λ p. HasParents hash bytes.now (map bstr_bytes p.0.items) p.1.now) }
{
    let mut parents = SmallVec::new(alloc);
    let mut rest = bytes;
    while let Some((parent, more)) = id_line(rest, b"parent ", hash) {
        parents.push(parent)?;
        rest = more;
    }
    Ok((parents, rest))
}

fn header_lines<'a>(
    alloc: Global,
    bytes: &'a [u8],
) -> Result<(Option<BStr<'a>>, ExtraHeaders<'a>, &'a [u8]), NoMemory>
    ensures { IfOk result (λ p. HasHeaders bytes.now (option_map bstr_bytes p.0) (map header_text p.1) p.2.now) }
{
    let mut headers = Vec::new(alloc);
    let Some((first, rest)) = header(bytes) else {
        return Ok((None, ExtraHeaders::from_vec(headers), bytes));
    };
    if is_encoding(&first) {
        let rest = push_headers(&mut headers, rest)?;
        return Ok((Some(first.raw), ExtraHeaders::from_vec(headers), rest));
    }
    headers.push(first)?;
    let rest = push_headers(&mut headers, rest)?;
    Ok((None, ExtraHeaders::from_vec(headers), rest))
}

fn push_headers<'a>(
    headers: &mut Vec<ExtraHeader<'a>>,
    bytes: &'a [u8],
) -> Result<&'a [u8], NoMemory>
    ensures { IfOk result (λ rest. PushesHeaders bytes.now (map header_text headers.old.items)
        (map header_text headers.new.items) rest.now) }
{
    let mut rest = bytes;
    while let Some((header, more)) = header(rest) {
        headers.push(header)?;
        rest = more;
    }
    Ok(rest)
}
