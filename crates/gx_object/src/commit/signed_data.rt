//! What a commit's signature is, and what it signs.
ghost use Rattle.std.specs.Prelude.{◌≡◌, ◌-◌, ◌++◌, List, ℕ, length, take, IfOk, IfErr, MatchResult, MatchOption, codes};
ghost use Rattle.std.specs.List.{AllByRecursion};
ghost use Rattle.gx_object.specs.declared.decode.DecodeError.TheVariants.{NoMemory as no_memory};
ghost use Rattle.gx_object.specs.CommitSignature.{signature_name, lines_to_end, IsOther, FirstNamed, HasSignature, IsUnsigned, IsSignedBy, TellsSignature, RefusesCommit, MissesSignature, SpellsSome};
ghost use Rattle.gx_object.specs.CommitSpelling.{CommitText, HeaderText, IsHeader, SpellsCommit, header_text};

use crate::commit::fields::{committer_line, read_message};
use crate::commit::lines::header;
use crate::{DecodeError, ExtraHeader};
use gx_hash::{Bytes, HashKind, NoMemory};
use std::alloc::Global;
use std::marker::Model;

/// What a commit's signature signs: the commit's bytes without the lines of that signature.
#[derive(Debug, Drop)]
pub struct SignedData<'a> {
    front: &'a [u8],
    rest: &'a [u8],
}

impl<'a> Model for SignedData<'a> {
    ghost use Rattle.std.specs.Prelude.{◌++◌, List, ℕ};

    ghost Value = { List ℕ };

    ghost view = { λ signed. signed.front.now ++ signed.rest.now };
}

impl<'a> SignedData<'a> {
    /// The bytes in one piece.
    pub fn to_bytes(&self, alloc: Global) -> Result<Bytes, NoMemory>
        ensures { IfOk result (λ bytes. bytes ≡ self.now) }
    {
        let mut bytes = Vec::with_capacity(
            alloc,
            self.front.len().saturating_add(self.rest.len()),
        )?;
        bytes.extend_from_slice(self.front)?;
        bytes.extend_from_slice(self.rest)?;
        Ok(Bytes::from_vec(bytes))
    }
}

/// The value of a commit's signature, and what it signs, where the commit has one. Of several, the first counts.
///
/// The name of the header that holds it goes by the kind of the repository.
pub fn signature_of<'a>(
    alloc: Global,
    bytes: &'a [u8],
    hash: HashKind,
) -> Result<Option<(Bytes, SignedData<'a>)>, DecodeError>
    ensures ok { IfOk result (λ told. MatchOption told (IsUnsigned hash bytes.now)
        (λ p. IsSignedBy hash bytes.now p.0 p.1)) }
    ensures only { (c : CommitText) → SpellsCommit hash bytes.now c
        → MatchResult result (TellsSignature hash bytes.now c) (λ e. e ≡ no_memory) }
    ensures causes { IfErr result (MissesSignature hash bytes.now) }
{
    read_signature(alloc, bytes, hash)
}

fn read_signature<'a>(
    alloc: Global,
    bytes: &'a [u8],
    hash: HashKind,
) -> Result<Option<(Bytes, SignedData<'a>)>, DecodeError>
    ensures ok { IfOk result (λ told. MatchOption told (IsUnsigned hash bytes.now)
        (λ p. IsSignedBy hash bytes.now p.0 p.1)) }
    ensures causes { IfErr result (MissesSignature hash bytes.now) }
{
    let Some((header, signed)) = find_signature(bytes, hash)? else {
        return Ok(None);
    };
    let value = header.value(alloc)?;
    Ok(Some((value, signed)))
}

fn find_signature<'a>(
    bytes: &'a [u8],
    hash: HashKind,
) -> Result<Option<(ExtraHeader<'a>, SignedData<'a>)>, DecodeError>
    ensures ok { IfOk result
        (λ found. MatchOption found (IsUnsigned hash bytes.now)
        (λ p. SpellsSome hash bytes.now (λ c. HasSignature hash bytes.now c (header_text p.0) p.1))) }
    ensures causes { IfErr result (RefusesCommit hash bytes.now) }
{
    let _ = read_message(bytes, hash)?;
    let (_, headers) = committer_line(bytes, hash)?;
    let Some((header, lines, rest)) = first_named(headers, name_of_signature(hash)) else {
        return Ok(None);
    };
    Ok(Some((header, without_header(bytes, lines, rest))))
}

fn name_of_signature(hash: HashKind) -> &'static [u8]
    ensures { result.now ≡ signature_name hash }
{
    match hash {
        HashKind::Sha1 => b"gpgsig",
        HashKind::Sha256 => b"gpgsig-sha256",
    }
}

// The first header of the name, the bytes from it on, and those after it.
fn first_named<'a>(bytes: &'a [u8], name: &[u8]) -> Option<(ExtraHeader<'a>, &'a [u8], &'a [u8])>
    ensures { (headers : List HeaderText) (message : List ℕ) → AllByRecursion IsHeader headers
        → bytes.now ≡ lines_to_end headers message
        → MatchOption result (AllByRecursion (IsOther name.now) headers)
        (λ p. FirstNamed name.now headers message (header_text p.0) p.1.now p.2.now) }
{
    let mut rest = bytes;
    while let Some((found, more)) = header(rest) {
        if found.name.as_bytes() == name {
            return Some((found, rest, more));
        }
        rest = more;
    }
    None
}

// The bytes without what is between these two ends of them.
fn without_header<'a>(bytes: &'a [u8], lines: &'a [u8], rest: &'a [u8]) -> SignedData<'a>
    ensures { result ≡ take (length bytes.now - length lines.now) bytes.now ++ rest.now }
{
    let at = bytes.len().saturating_sub(lines.len());
    SignedData {
        front: &bytes[..at],
        rest,
    }
}
