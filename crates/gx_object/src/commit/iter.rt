//! A commit's parts, one after another.
ghost use Rattle.std.specs.Prelude.{[], ◌∷◌, IfSome, MatchOption, Some, Ok};
ghost use Rattle.gx_hash.specs.declared.kind.HashKind.{HashKind};
ghost use Rattle.gx_object.specs.CommitNext.{Tree, Parents, Committer, Encoding, Headers, next_of};
ghost use Rattle.gx_object.specs.CommitLines.{IsNotBehind, IsNoFold};
ghost use Rattle.gx_object.specs.CommitItems.{Stuck, ItemAt, IsMessage, EndsHeader, HasKind, item_of};

use crate::commit::ExtraHeader;
use crate::commit::decode::bad_line;
use crate::commit::lines::{header, id_line, id_of, identity_line, is_encoding, message};
use crate::{DecodeError, SignatureRef};
use bstr::BStr;
use gx_hash::{HashKind, ObjectId};
use std::marker::Model;

/// A part of a commit.
#[derive(Clone, Copy, Debug)]
pub enum CommitToken<'a> {
    Tree { id: ObjectId },
    Parent { id: ObjectId },
    Author { signature: SignatureRef<'a> },
    Committer { signature: SignatureRef<'a> },
    Encoding(BStr<'a>),
    ExtraHeader(ExtraHeader<'a>),
    Message(BStr<'a>),
}

/// What comes next in a commit: its tree, a parent or the author, the committer, the encoding or what follows it, a
/// further header or the message, nothing.
#[derive(Clone, Copy, Debug, PartialEq, Eq)]
pub(crate) enum Stage {
    Tree,
    Parents,
    Committer,
    Encoding,
    Headers,
    End,
}

// A part, what follows it, and what comes next there.
type Step<'a> = (CommitToken<'a>, &'a [u8], Stage);

fn tree_item(bytes: &[u8], hash: HashKind) -> Option<Step<'_>>
    ensures item { MatchOption result (Stuck hash Tree bytes.now)
        (λ p. ItemAt hash Tree bytes.now (item_of p.0) p.1.now (next_of p.2)) }
    ensures kind { IfSome result (λ p. HasKind hash (Some (Ok p.0))) }
{
    let (text, rest) = id_line(bytes, b"tree ", hash)?;
    let id = id_of(text.as_bytes(), hash);
    Some((CommitToken::Tree { id }, rest, Stage::Parents))
}

fn parent_or_author(bytes: &[u8], hash: HashKind) -> Option<Step<'_>>
    ensures item { MatchOption result (Stuck hash Parents bytes.now)
        (λ p. ItemAt hash Parents bytes.now (item_of p.0) p.1.now (next_of p.2)) }
    ensures kind { IfSome result (λ p. HasKind hash (Some (Ok p.0))) }
{
    if let Some((text, rest)) = id_line(bytes, b"parent ", hash) {
        let id = id_of(text.as_bytes(), hash);
        return Some((CommitToken::Parent { id }, rest, Stage::Parents));
    }
    let (signature, rest) = identity_line(bytes, b"author ")?;
    Some((CommitToken::Author { signature }, rest, Stage::Committer))
}

fn committer_item(bytes: &[u8]) -> Option<Step<'_>>
    ensures item { (hash : HashKind)
        → MatchOption result (Stuck hash Committer bytes.now)
        (λ p. ItemAt hash Committer bytes.now (item_of p.0) p.1.now (next_of p.2)) }
    ensures kind { (hash : HashKind) → IfSome result (λ p. HasKind hash (Some (Ok p.0))) }
{
    let (signature, rest) = identity_line(bytes, b"committer ")?;
    Some((CommitToken::Committer { signature }, rest, Stage::Encoding))
}

fn message_item(bytes: &[u8]) -> Option<Step<'_>>
    ensures item { MatchOption result (IsNotBehind (10 ∷ []) bytes.now)
        (λ p. IsMessage bytes.now (item_of p.0) p.1.now (next_of p.2)) }
    ensures kind { (hash : HashKind) → IfSome result (λ p. HasKind hash (Some (Ok p.0))) }
{
    let text = message(bytes)?;
    Some((CommitToken::Message(text), b"", Stage::End))
}

fn first_header_or_message(bytes: &[u8]) -> Option<Step<'_>>
    ensures item { (hash : HashKind)
        → MatchOption result (Stuck hash Encoding bytes.now)
        (λ p. ItemAt hash Encoding bytes.now (item_of p.0) p.1.now (next_of p.2)) }
    ensures kind { (hash : HashKind) → IfSome result (λ p. HasKind hash (Some (Ok p.0))) }
{
    let Some((header, rest)) = header(bytes) else {
        return message_item(bytes);
    };
    if is_encoding(&header) {
        return Some((CommitToken::Encoding(header.raw), rest, Stage::Headers));
    }
    Some((CommitToken::ExtraHeader(header), rest, Stage::Headers))
}

fn header_or_message(bytes: &[u8]) -> Option<Step<'_>>
    ensures item { (hash : HashKind)
        → MatchOption result (IsNoFold bytes.now
        → Stuck hash Headers bytes.now) (λ p. ItemAt hash Headers bytes.now (item_of p.0) p.1.now (next_of p.2)) }
    ensures kind { (hash : HashKind) → IfSome result (λ p. HasKind hash (Some (Ok p.0))) }
{
    let Some((header, rest)) = header(bytes) else {
        return message_item(bytes);
    };
    Some((CommitToken::ExtraHeader(header), rest, Stage::Headers))
}

fn next_item(bytes: &[u8], stage: Stage, hash: HashKind) -> Option<Step<'_>>
    ensures item { MatchOption result (EndsHeader (next_of stage) bytes.now
        → Stuck hash (next_of stage) bytes.now)
        (λ p. ItemAt hash (next_of stage) bytes.now (item_of p.0) p.1.now (next_of p.2)) }
    ensures kind { IfSome result (λ p. HasKind hash (Some (Ok p.0))) }
{
    match stage {
        Stage::Tree => tree_item(bytes, hash),
        Stage::Parents => parent_or_author(bytes, hash),
        Stage::Committer => committer_item(bytes),
        Stage::Encoding => first_header_or_message(bytes),
        Stage::Headers => header_or_message(bytes),
        Stage::End => None,
    }
}

/// Gives the parts of a commit without taking memory. After an error it ends.
#[derive(Clone, Debug, Drop)]
pub struct CommitRefIter<'a> {
    pub(crate) bytes: &'a [u8],
    rest: &'a [u8],
    stage: Stage,
    pub(crate) hash: HashKind,
    /// How many parts it has given.
    given: usize,
}

impl<'a> Model for CommitRefIter<'a> {
    ghost use Rattle.gx_object.specs.PartsRead.{PartsRead};

    ghost Value = { PartsRead };

    ghost use Rattle.gx_object.specs.CommitNext.{next_of};
    ghost use Rattle.gx_object.specs.CommitItems.{IsReached, given_at};

    ghost view = { λ it.
        record {
          text = record { hash = it.hash; bytes = it.bytes.now };
          given = given_at (next_of it.stage) it.given;
        } };

    ghost invariant = { λ it.
        IsReached (record {
          hash = it.hash;
          bytes = it.bytes.now;
          rest = it.rest.now;
          next = next_of it.stage;
        }) it.given };
}

impl<'a> CommitRefIter<'a> {
    ghost use Rattle.std.specs.Prelude.{◌≡◌, Some};

    /// The parts of the commit that the bytes spell, in a repository of this kind.
    pub fn from_bytes(bytes: &'a [u8], hash: HashKind) -> CommitRefIter<'a>
        ensures { result ≡ record { text = record { hash = hash; bytes = bytes.now }; given = Some 0 } }
    {
        CommitRefIter {
            bytes,
            rest: bytes,
            stage: Stage::Tree,
            hash,
            given: 0,
        }
    }
}

impl<'a> Iterator for CommitRefIter<'a> {
    ghost use Rattle.std.specs.Iterator.{at_most};
    ghost use Rattle.gx_object.specs.CommitItems.{GivesPart, parts_left};

    type Item = Result<CommitToken<'a>, DecodeError>;

    ghost next_gives = { GivesPart };

    ghost remaining = { λ read. at_most (parts_left read) };

    fn next(&mut self) -> Option<Result<CommitToken<'a>, DecodeError>> {
        if let Stage::End = self.stage {
            return None;
        }
        match next_item(self.rest, self.stage, self.hash) {
            Some((token, rest, stage)) => {
                self.rest = rest;
                self.stage = stage;
                self.given += 1;
                Some(Ok(token))
            }
            None => {
                let error = bad_line(self.bytes, self.rest);
                self.stage = Stage::End;
                Some(Err(error))
            }
        }
    }
}
