//! The lines of a commit, one function each. What they give are slices of the bytes.
ghost use Rattle.std.specs.Prelude.{◌≡◌, ◌++◌, ◌∷◌, [], codes, MatchOption, MatchBool};
ghost use Rattle.gx_hash.specs.HashKind.{IsOfKind};
ghost use Rattle.gx_hash.specs.ObjectId.{hex_of};
ghost use Rattle.gx_object.specs.CommitLines.{IsNoIdLine, IsNoIdentityLine, HasIdentityLine, IsNoHeader, HasHeader, IsHeaderLine, HasLine, HasNoLine, IsNotBehind, SplitsName, SkipsFolds, IsFold, IsNoFold};
ghost use Rattle.gx_object.specs.IdentitySpelling.{identity_text};
ghost use Rattle.gx_hash.specs.IdDigits.{IsHexId};
ghost use Rattle.gx_object.specs.CommitSpelling.{IsOneLine, text_line, header_text, IsEncoding, IsEncodingHeader};

use crate::commit::ExtraHeader;
use crate::signature::{SignatureRef, split_identity};
use bstr::BStr;
use gx_hash::{HashKind, ObjectId};
use memchr::memchr;

// What follows the word.
pub(crate) fn after<'a>(bytes: &'a [u8], word: &[u8]) -> Option<&'a [u8]>
    ensures { MatchOption result (IsNotBehind word.now bytes.now) (λ rest. bytes.now ≡ word.now ++ rest.now) }
{
    bytes.strip_prefix(word)
}

// The first line, without its newline, and what follows that.
pub(crate) fn split_line(bytes: &[u8]) -> Option<(&[u8], &[u8])>
    ensures { MatchOption result (HasNoLine bytes.now) (λ p. HasLine bytes.now p.0.now p.1.now) }
{
    let at = memchr(b'\n', bytes)?;
    Some((&bytes[..at], &bytes[at + 1..]))
}

fn is_hex_id(text: &[u8], hash: HashKind) -> bool
    ensures { MatchBool result (IsHexId hash text.now) (IsHexId hash text.now → ⊥) }
{
    text.len() == hash.len_in_hex() && text.iter().all(|b| matches!(*b, b'0'..=b'9' | b'a'..=b'f'))
}

/// The id that has these digits.
pub(crate) fn id_of(text: &[u8], hash: HashKind) -> ObjectId
    requires { IsHexId hash text.now }
    ensures digits { hex_of result ≡ text.now }
    ensures kind { IsOfKind hash result }
{
    let _ = hash;
    ObjectId::from_digits(text)
}

/// The digits of an id in a line that begins with the word, and what follows that line.
pub(crate) fn id_line<'a>(
    bytes: &'a [u8],
    word: &[u8],
    hash: HashKind,
) -> Option<(BStr<'a>, &'a [u8])>
    requires { IsOneLine word.now }
    ensures { MatchOption result (IsNoIdLine hash word.now bytes.now) (λ p. IsHexId hash p.0.bytes.now
        × (bytes.now ≡ text_line word.now p.0.bytes.now ++ p.1.now)) }
{
    let (line, rest) = split_line(bytes)?;
    let text = after(line, word)?;
    if is_hex_id(text, hash) {
        Some((BStr::new(text), rest))
    } else {
        None
    }
}

/// The identity in a line that begins with the word, and what follows that line.
pub(crate) fn identity_line<'a>(
    bytes: &'a [u8],
    word: &[u8],
) -> Option<(SignatureRef<'a>, &'a [u8])>
    requires { IsOneLine word.now }
    ensures { MatchOption result (IsNoIdentityLine word.now bytes.now)
        (λ p. HasIdentityLine word.now bytes.now (identity_text p.0) p.1.now) }
{
    let (line, rest) = split_line(bytes)?;
    let who = split_identity(after(line, word)?)?;
    Some((who, rest))
}

// The name in front of the first space.
fn split_name(line: &[u8]) -> Option<(&[u8], &[u8])>
    requires { IsOneLine line.now }
    ensures { MatchOption result (IsHeaderLine line.now → ⊥) (λ p. SplitsName line.now p.0.now p.1.now) }
{
    let at = memchr(b' ', line)?;
    if at == 0 {
        return None;
    }
    Some((&line[..at], &line[at + 1..]))
}

// What follows a whole line that begins with a space.
fn behind_fold(bytes: &[u8]) -> Option<&[u8]>
    ensures { MatchOption result (IsNoFold bytes.now) (λ rest. IsFold bytes.now rest.now) }
{
    let (line, rest) = split_line(bytes)?;
    after(line, b" ")?;
    Some(rest)
}

// What follows the lines that go on with a header.
fn skip_folds(bytes: &[u8]) -> &[u8]
    ensures { SkipsFolds bytes.now result.now }
{
    let mut rest = bytes;
    while let Some(more) = behind_fold(rest) {
        rest = more;
    }
    rest
}

/// The header in front, and what follows its lines.
pub(crate) fn header(bytes: &[u8]) -> Option<(ExtraHeader<'_>, &[u8])>
    ensures { MatchOption result (IsNoHeader bytes.now) (λ p. HasHeader bytes.now (header_text p.0) p.1.now) }
{
    let (line, behind) = split_line(bytes)?;
    let (name, _) = split_name(line)?;
    let rest = skip_folds(behind);
    let raw = &bytes[name.len() + 1..bytes.len() - rest.len() - 1];
    let header = ExtraHeader {
        name: BStr::new(name),
        raw: BStr::new(raw),
    };
    Some((header, rest))
}

fn is_encoding_text(text: &[u8]) -> bool
    ensures { MatchBool result (IsEncoding text.now) (IsEncoding text.now → ⊥) }
{
    !text.is_empty() && memchr(b'\n', text).is_none()
}

/// Whether the header is the encoding, where it is the first.
pub(crate) fn is_encoding(header: &ExtraHeader<'_>) -> bool
    ensures { MatchBool result (IsEncodingHeader (header_text header.now)) (IsEncodingHeader (header_text header.now)
        → ⊥) }
{
    header.name.as_bytes() == b"encoding".as_slice() && is_encoding_text(header.raw.as_bytes())
}

/// The message after an empty line.
pub(crate) fn message(bytes: &[u8]) -> Option<BStr<'_>>
    ensures { MatchOption result (IsNotBehind (10 ∷ []) bytes.now) (λ text. bytes.now ≡ 10 ∷ text.bytes.now) }
{
    Some(BStr::new(after(bytes, b"\n")?))
}
