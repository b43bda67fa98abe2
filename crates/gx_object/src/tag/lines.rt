//! The lines of a tag, one function each. What they give are slices of the bytes.
ghost use Rattle.std.specs.Prelude.{◌≡◌, MatchOption, MatchBool};
ghost use Rattle.std.specs.Option.{option_map};
ghost use Rattle.bstr.specs.BStr.{bstr_bytes};
ghost use Rattle.gx_object.specs.IdentitySpelling.{identity_text};
ghost use Rattle.gx_object.specs.TagLines.{IsNoTypeLine, HasTypeLine, IsNoNameLine, HasNameLine, TakesTagger, IsNoBody, HasLastSignature};
ghost use Rattle.gx_object.specs.TagSpelling.{BeginsWithText, OpensSignature, SplitsSignature, SpellsBody};

use crate::commit::{after, identity_line, split_line};
use crate::{Kind, SignatureRef};
use bstr::BStr;

/// The kind in a line of its own, and what follows that line.
pub(crate) fn type_line(bytes: &[u8]) -> Option<(Kind, &[u8])>
    ensures { MatchOption result (IsNoTypeLine bytes.now) (λ p. HasTypeLine bytes.now p.0 p.1.now) }
{
    let (line, rest) = split_line(bytes)?;
    let kind = Kind::from_bytes(after(line, b"type ")?)?;
    Some((kind, rest))
}

/// The tag's name in a line of its own, and what follows that line.
pub(crate) fn name_line(bytes: &[u8]) -> Option<(BStr<'_>, &[u8])>
    ensures { MatchOption result (IsNoNameLine bytes.now) (λ p. HasNameLine bytes.now (bstr_bytes p.0) p.1.now) }
{
    let (line, rest) = split_line(bytes)?;
    let name = after(line, b"tag ")?;
    if name.is_empty() {
        return None;
    }
    Some((BStr::new(name), rest))
}

/// The tagger where there is one, and what follows it.
pub(crate) fn tagger_line(bytes: &[u8]) -> (Option<SignatureRef<'_>>, &[u8])
    ensures { TakesTagger bytes.now (option_map identity_text result.0) result.1.now }
{
    match identity_line(bytes, b"tagger ") {
        Some((who, rest)) => (Some(who), rest),
        None => (None, bytes),
    }
}

fn begins_with(text: &[u8], word: &[u8]) -> bool
    ensures { MatchBool result (BeginsWithText text.now word.now) (BeginsWithText text.now word.now → ⊥) }
{
    after(text, word).is_some()
}

fn opens_signature(text: &[u8]) -> bool
    ensures { MatchBool result (OpensSignature text.now) (OpensSignature text.now → ⊥) }
{
    if begins_with(text, b"-----BEGIN PGP SIGNATURE-----") {
        return true;
    }
    if begins_with(text, b"-----BEGIN PGP MESSAGE-----") {
        return true;
    }
    if begins_with(text, b"-----BEGIN SSH SIGNATURE-----") {
        return true;
    }
    begins_with(text, b"-----BEGIN SIGNED MESSAGE-----")
}

// The text from the last line on that begins a signature.
fn last_signature(text: &[u8]) -> Option<&[u8]>
    ensures { HasLastSignature text.now (option_map (λ s. s.now) result) }
{
    let mut last = None;
    let mut rest = text;
    while let Some((_, behind)) = split_line(rest) {
        if opens_signature(rest) {
            last = Some(rest);
        }
        rest = behind;
    }
    if opens_signature(rest) {
        last = Some(rest);
    }
    last
}

fn split_signature(text: &[u8]) -> (BStr<'_>, Option<BStr<'_>>)
    ensures { SplitsSignature text.now (bstr_bytes result.0) (option_map bstr_bytes result.1) }
{
    let Some(signature) = last_signature(text) else {
        return (BStr::new(text), None);
    };
    let message = &text[..text.len() - signature.len()];
    (BStr::new(message), Some(BStr::new(signature)))
}

/// The message and the signature after the headers.
pub(crate) fn body(bytes: &[u8]) -> Option<(BStr<'_>, Option<BStr<'_>>)>
    ensures { MatchOption result (IsNoBody bytes.now)
        (λ p. SpellsBody bytes.now (bstr_bytes p.0) (option_map bstr_bytes p.1)) }
{
    if bytes.is_empty() {
        return Some((BStr::new(bytes), None));
    }
    Some(split_signature(after(bytes, b"\n")?))
}
