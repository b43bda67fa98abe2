//! Lines of logs read from their bytes.
ghost use Rattle.std.specs.Prelude.{◌≡◌, ◌≢◌, ◌↔◌, ◌++◌, ◌∷◌, ◌==◌, not, ℕ, List, MatchBool, MatchOption, IfOk, IsErrOf};
ghost use Rattle.std.specs.List.{list_all};
ghost use Rattle.gx_hash.specs.HashKind.{IsOfKind};
ghost use Rattle.gx_hash.specs.IdDigits.{IsHexId};
ghost use Rattle.gx_hash.specs.ObjectId.{hex_of};
ghost use Rattle.gx_object.specs.declared.signature.Signature.{Signature};
ghost use Rattle.gx_object.specs.Split.{Lacks};
ghost use Rattle.gx_store.specs.LogText.{EndsBeforeTab, HasParts, SpellsSignature, SpellsLine};
ghost use Rattle.gx_store.specs.declared.log_line.LogLine.{LogLine};
ghost use Rattle.gx_store.specs.declared.log_line.decode.LineError.TheVariants.{BadLine as bad_line, NoMemory as no_memory};

use crate::LogLine;
use gx_hash::{Bytes, HashKind, NoMemory, ObjectId};
use gx_object::laws::identity_is_spelled_once;
use gx_object::{Signature, SignatureError, SignatureRef};
use memchr::memchr;
use std::alloc::Global;
use thiserror::Error;

/// Why bytes are not read as a line of a log.
#[derive(Clone, Copy, Debug, PartialEq, Eq, Error)]
pub enum LineError {
    #[error("the bytes are no line of a log")]
    BadLine,
    #[error("out of memory")]
    NoMemory,
}

impl From<NoMemory> for LineError {
    ghost from_gives = { λ _ e. e ≡ no_memory };

    fn from(_: NoMemory) -> LineError {
        LineError::NoMemory
    }
}

/// The parts of a line, with its identity and its message as slices of it.
#[derive(Clone, Copy)]
struct LineRef<'a> {
    previous: ObjectId,
    new: ObjectId,
    identity: &'a [u8],
    message: &'a [u8],
}

impl LogLine {
    /// Reads a line, which has no newline at its end. The ids are of the kind.
    pub fn from_bytes(alloc: Global, line: &[u8], hash: HashKind) -> Result<LogLine, LineError>
        ensures ok { IfOk result (SpellsLine hash line.now) }
        ensures causes { IsErrOf result bad_line ↔ ((read : LogLine) → ¬ SpellsLine hash line.now read) }
    {
        let Some(parts) = split_line(line, hash) else {
            return Err(LineError::BadLine);
        };
        let signature = match read_signature(alloc, parts.identity) {
            Ok(signature) => signature,
            Err(error) => return Err(error),
        };
        Ok(LogLine {
            previous: parts.previous,
            new: parts.new,
            signature,
            message: Bytes::from_slice(alloc, parts.message)?,
        })
    }
}

fn read_signature(alloc: Global, text: &[u8]) -> Result<Signature, LineError>
    ensures ok { IfOk result (SpellsSignature text.now) }
    ensures causes { IsErrOf result bad_line ↔ ((who : Signature) → ¬ SpellsSignature text.now who) }
{
    identity_is_spelled_once();
    let Some(who) = SignatureRef::from_bytes(text) else {
        return Err(LineError::BadLine);
    };
    match who.to_owned(alloc) {
        Ok(signature) => Ok(signature),
        Err(SignatureError::BadTime) => Err(LineError::BadLine),
        Err(SignatureError::NoMemory) => Err(LineError::NoMemory),
    }
}

fn split_line(line: &[u8], hash: HashKind) -> Option<LineRef<'_>>
    ensures { MatchOption result ((previous new identity message : List ℕ)
        → ¬ HasParts hash line.now previous new identity message)
        (λ parts. HasParts hash line.now (hex_of parts.previous) (hex_of parts.new) parts.identity.now parts.message.now
        × IsOfKind hash parts.previous × IsOfKind hash parts.new) }
{
    let (previous, rest) = split_id(line, hash)?;
    let (new, rest) = split_id(rest, hash)?;
    let (identity, message) = split_identity(rest)?;
    if !is_one_line(message) {
        return None;
    }
    Some(LineRef {
        previous,
        new,
        identity,
        message,
    })
}

fn is_one_line(text: &[u8]) -> bool
    ensures { result ≡ list_all (λ byte. not (byte == 10)) text.now }
{
    text.iter().all(|byte| *byte != b'\n')
}

/// The id at the front of a text, and what follows the space after it.
fn split_id(text: &[u8], hash: HashKind) -> Option<(ObjectId, &[u8])>
    ensures { MatchOption result ((digits rest : List ℕ) → IsHexId hash digits → text.now ≢ digits ++ 32 ∷ rest)
        (λ parts. IsHexId hash (hex_of parts.0) × IsOfKind hash parts.0
        × (text.now ≡ hex_of parts.0 ++ 32 ∷ parts.1.now)) }
{
    let (digits, rest) = split_once(text, b' ')?;
    if !is_hex_id(digits, hash) {
        return None;
    }
    Some((ObjectId::from_digits(digits), rest))
}

fn is_hex_id(digits: &[u8], hash: HashKind) -> bool
    ensures { MatchBool result (IsHexId hash digits.now) (IsHexId hash digits.now → ⊥) }
{
    digits.len() == hash.len_in_hex()
        && digits
            .iter()
            .all(|digit| matches!(*digit, b'0'..=b'9' | b'a'..=b'f'))
}

/// The identity at the front of a text, and what follows the tab after it.
fn split_identity(text: &[u8]) -> Option<(&[u8], &[u8])>
    ensures { MatchOption result ((identity message : List ℕ) → EndsBeforeTab identity
        → text.now ≢ identity ++ 9 ∷ message)
        (λ parts. EndsBeforeTab parts.0.now × (text.now ≡ parts.0.now ++ 9 ∷ parts.1.now)) }
{
    let (front, rest) = split_once(text, b'>')?;
    let (behind, message) = split_once(rest, b'\t')?;
    let identity = text.split_at(front.len() + 1 + behind.len()).0;
    Some((identity, message))
}

/// What is before the first such byte, and what follows it.
fn split_once(text: &[u8], byte: u8) -> Option<(&[u8], &[u8])>
    ensures { MatchOption result (Lacks byte text.now) (λ parts. Lacks byte parts.0.now
        × (text.now ≡ parts.0.now ++ byte ∷ parts.1.now)) }
{
    let at = memchr(byte, text)?;
    Some((text.split_at(at).0, text.split_at(at + 1).1))
}
