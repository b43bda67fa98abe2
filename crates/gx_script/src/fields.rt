ghost use Rattle.gx_hash.specs.ObjectId.{hex_of};
ghost use Rattle.gx_object.specs.Kind.{kind_name};
ghost use Rattle.gx_rules.specs.Name.{IsFullName, IsPartialName};
ghost use Rattle.gx_script.specs.Fields.{IsId, IsIdentity, IsTarget, IsExpect, IsOrder, who_text, target_text, expect_text, order_text, set_text, walk_id_text};
ghost use Rattle.gx_script.specs.Items.{NoNewline, block_limit};
ghost use Rattle.gx_script.specs.Lines.{IsNoWho, IsNoSize, IsNoId, IsNoKind, IsNoTarget, IsNoExpect, IsNoOrder, IsNoSet, IsNoWalkId, signature_of};
ghost use Rattle.gx_hash.specs.IdDigits.{IsHexId};
ghost use Rattle.std.specs.Fmt.{decimal};
ghost use Rattle.std.specs.Prelude.{◌≡◌, ◌≤◌, ◌++◌, [], IfOk, MatchOption, MatchBool};

use crate::number::{number, signed, signed_32};
use crate::split::{after, is_without, split_once};
use crate::{Expect, NameSet, Order, WalkId};
use gx_hash::{Bytes, HashKind, NoMemory, ObjectId};
use gx_object::{Kind, Signature, Time};
use gx_rules::{FullName, NameError, PartialName};
use gx_store::Target;
use std::alloc::Global;

/// The full name that the bytes are.
pub fn full_name(alloc: Global, bytes: &[u8]) -> Result<Option<FullName>, NoMemory>
    ensures { IfOk result (λ found. MatchOption found (IsFullName bytes.now → ⊥)
        (λ name. IsFullName name × (bytes.now ≡ name))) }
{
    match FullName::new(alloc, bytes) {
        Ok(name) => Ok(Some(name)),
        Err(NameError::NoMemory) => Err(NoMemory),
        Err(_) => Ok(None),
    }
}

/// The partial name that the bytes are.
pub fn partial_name(alloc: Global, bytes: &[u8]) -> Result<Option<PartialName>, NoMemory>
    ensures { IfOk result (λ found. MatchOption found (IsPartialName bytes.now → ⊥)
        (λ name. IsPartialName name × (bytes.now ≡ name))) }
{
    match PartialName::new(alloc, bytes) {
        Ok(name) => Ok(Some(name)),
        Err(NameError::NoMemory) => Err(NoMemory),
        Err(_) => Ok(None),
    }
}

fn is_hex_id(hash: HashKind, bytes: &[u8]) -> bool
    ensures { MatchBool result (IsHexId hash bytes.now) (IsHexId hash bytes.now → ⊥) }
{
    bytes.len() == hash.len_in_hex()
        && bytes
            .iter()
            .all(|b| matches!(*b, b'0'..=b'9' | b'a'..=b'f'))
}

/// The id of the kind that the bytes spell, in lower-case digits.
pub fn object_id(hash: HashKind, bytes: &[u8]) -> Option<ObjectId>
    ensures { MatchOption result (IsNoId hash bytes.now) (λ id. IsId hash id × (bytes.now ≡ hex_of id)) }
{
    if !is_hex_id(hash, bytes) {
        return None;
    }
    match ObjectId::from_hex(bytes) {
        Ok(id) => Some(id),
        Err(_) => None,
    }
}

/// The kind of objects that the bytes name.
pub fn kind(bytes: &[u8]) -> Option<Kind>
    ensures { MatchOption result (IsNoKind bytes.now) (λ kind. bytes.now ≡ kind_name kind) }
{
    Kind::from_bytes(bytes)
}

/// An identity as a line spells it.
#[derive(Clone, Copy)]
struct Who<'a> {
    time: Time,
    name: &'a [u8],
    email: &'a [u8],
}

/// The moment and the identity that the bytes spell.
fn parse_who(bytes: &[u8]) -> Option<Who<'_>>
    requires { NoNewline bytes.now }
    ensures { MatchOption result (IsNoWho [] bytes.now)
        (λ who. IsIdentity (signature_of who.time who.name.now who.email.now)
        × (bytes.now ≡ who_text (signature_of who.time who.name.now who.email.now))) }
{
    let (seconds, rest) = split_once(bytes, b' ')?;
    let (offset, rest) = split_once(rest, b' ')?;
    let (name, email) = split_once(rest, b'\t')?;
    if !is_without(email, b'\t') {
        return None;
    }
    let time = Time {
        seconds: signed(seconds)?,
        offset: signed_32(offset)?,
    };
    Some(Who { time, name, email })
}

/// The identity in a line that begins with the word.
pub fn identity(alloc: Global, word: &[u8], line: &[u8]) -> Result<Option<Signature>, NoMemory>
    requires { NoNewline line.now }
    ensures { IfOk result (λ found. MatchOption found (IsNoWho word.now line.now)
        (λ who. IsIdentity who × (line.now ≡ word.now ++ who_text who))) }
{
    let Some(rest) = after(line, word) else {
        return Ok(None);
    };
    let Some(who) = parse_who(rest) else {
        return Ok(None);
    };
    Ok(Some(Signature {
        name: Bytes::from_slice(alloc, who.name)?,
        email: Bytes::from_slice(alloc, who.email)?,
        time: who.time,
    }))
}

/// The most bytes of a block.
const BLOCK_LIMIT: u64 = 268435456;

/// The length of a block that the bytes spell.
pub fn block_size(bytes: &[u8]) -> Option<usize>
    ensures { MatchOption result (IsNoSize bytes.now) (λ size. (size ≤ block_limit) × (bytes.now ≡ decimal size)) }
{
    let size = number(bytes)?;
    if size <= BLOCK_LIMIT {
        Some(size as usize)
    } else {
        None
    }
}

/// The target that the bytes spell: an id, or `@` and a name.
pub fn target(alloc: Global, hash: HashKind, bytes: &[u8]) -> Result<Option<Target>, NoMemory>
    ensures { IfOk result (λ found. MatchOption found (IsNoTarget hash bytes.now)
        (λ target. IsTarget hash target × (bytes.now ≡ target_text target))) }
{
    if let Some(name) = after(bytes, b"@") {
        return match full_name(alloc, name)? {
            Some(name) => Ok(Some(Target::Symbolic(name))),
            None => Ok(None),
        };
    }
    match object_id(hash, bytes) {
        Some(id) => Ok(Some(Target::Object(id))),
        None => Ok(None),
    }
}

/// What a reference has to be, as the bytes spell it.
pub fn expect(alloc: Global, hash: HashKind, bytes: &[u8]) -> Result<Option<Expect>, NoMemory>
    ensures { IfOk result (λ found. MatchOption found (IsNoExpect hash bytes.now)
        (λ expect. IsExpect hash expect × (bytes.now ≡ expect_text expect))) }
{
    if let Some(wanted) = after(bytes, b"=") {
        return match target(alloc, hash, wanted)? {
            Some(wanted) => Ok(Some(Expect::Match(wanted))),
            None => Ok(None),
        };
    }
    if let Some(wanted) = after(bytes, b"?") {
        return match target(alloc, hash, wanted)? {
            Some(wanted) => Ok(Some(Expect::MatchOrAbsent(wanted))),
            None => Ok(None),
        };
    }
    match bytes {
        b"any" => Ok(Some(Expect::Any)),
        b"exists" => Ok(Some(Expect::Exists)),
        b"absent" => Ok(Some(Expect::Absent)),
        _ => Ok(None),
    }
}

/// The order of a walk that the bytes name.
pub fn order(bytes: &[u8]) -> Option<Order>
    ensures { MatchOption result (IsNoOrder bytes.now) (λ order. IsOrder order × (bytes.now ≡ order_text order)) }
{
    if let Some(seconds) = after(bytes, b"newest:") {
        return Some(Order::NewestFrom(signed(seconds)?));
    }
    if let Some(seconds) = after(bytes, b"oldest:") {
        return Some(Order::OldestFrom(signed(seconds)?));
    }
    match bytes {
        b"breadth" => Some(Order::Breadth),
        b"newest" => Some(Order::Newest),
        b"oldest" => Some(Order::Oldest),
        _ => None,
    }
}

/// The set of names that the bytes name.
pub fn name_set(bytes: &[u8]) -> Option<NameSet>
    ensures { MatchOption result (IsNoSet bytes.now) (λ names. bytes.now ≡ set_text names) }
{
    match bytes {
        b"tags" => Some(NameSet::Tags),
        b"all-tags" => Some(NameSet::AllTags),
        b"all-refs" => Some(NameSet::AllRefs),
        _ => None,
    }
}

/// An id of a walk, hidden where `^` stands before it.
pub fn walk_id(hash: HashKind, bytes: &[u8]) -> Option<WalkId>
    ensures { MatchOption result (IsNoWalkId hash bytes.now)
        (λ walked. IsId hash walked.id × (bytes.now ≡ walk_id_text walked)) }
{
    match after(bytes, b"^") {
        Some(hex) => Some(WalkId {
            id: object_id(hash, hex)?,
            hidden: true,
        }),
        None => Some(WalkId {
            id: object_id(hash, bytes)?,
            hidden: false,
        }),
    }
}
