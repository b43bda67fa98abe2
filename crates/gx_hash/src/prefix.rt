//! Prefixes of ids, which tell ids apart by their first digits.
ghost use Rattle.std.specs.Prelude.{◌≡◌, ◌≤◌, length, take};
ghost use Rattle.std.specs.Result.{result_err};
ghost use Rattle.gx_hash.specs.ObjectId.{id_from_hex};
ghost use Rattle.gx_hash.specs.PrefixDigits.{padded, length_error, room_for, IsCut};

use crate::{HexError, ObjectId};
use std::cmp::Ordering;
use std::fmt;
use thiserror::Error;

/// The first hex digits of an id, at least four.
///
/// ```
/// let prefix = Prefix::from_hex(b"95d09f2")?;
/// let begins_so = prefix.cmp_oid(&id) == Ordering::Equal;
/// let shorter = Prefix::new(&id, 4)?;
/// ```
#[derive(Clone, Copy, Debug, PartialEq, Eq, Hash)]
pub struct Prefix {
    /// The digits, with zeros after them.
    id: ObjectId,
    hex_len: usize,
    ghost cut: { IsCut hex_len id },
}

/// Why there is no such prefix.
#[derive(Clone, Copy, Debug, PartialEq, Eq, Error)]
pub enum PrefixError {
    /// More digits than an id has.
    #[error("no id has {hex_len} hex digits")]
    TooLong { hex_len: usize },
    /// Fewer than four digits, which tell too little.
    #[error("a prefix has four hex digits at least, and not {hex_len}")]
    TooShort { hex_len: usize },
    /// The first byte that is no hex digit.
    #[error("byte {at} is no hex digit")]
    BadDigit { at: usize },
}

impl From<HexError> for PrefixError {
    ghost use Rattle.std.specs.Prelude.{◌≡◌};
    ghost use Rattle.gx_hash.specs.Prefix.{digit_error};

    ghost from_gives = { λ hex error. error ≡ digit_error hex };

    fn from(error: HexError) -> PrefixError {
        match error {
            HexError::BadDigit { at } => PrefixError::BadDigit { at },
            HexError::BadLength { found } => PrefixError::TooLong { hex_len: found },
        }
    }
}

impl Prefix {
    ghost use Rattle.std.specs.Prelude.{◌≡◌, ◌≤◌, ◌↔◌, take, length, IfOk};
    ghost use Rattle.std.specs.declared.cmp.Ordering.TheVariants.{Equal};
    ghost use Rattle.std.specs.Result.{result_err};
    ghost use Rattle.std.specs.Ordering.{nat_cmp};
    ghost use Rattle.std.specs.Cmp.Lexicographic.{slice_cmp};
    ghost use Rattle.gx_hash.specs.HashKind.{kind_of};
    ghost use Rattle.gx_hash.specs.ObjectId.{hex_of};
    ghost use Rattle.gx_hash.specs.PrefixDigits.{len_in_hex, length_error};
    ghost use Rattle.gx_hash.specs.Prefix.{prefix_digits, prefix_error, IsPrefixOf, IsLeast, IsSpelledBy};

    /// The first `hex_len` digits of the id.
    pub fn new(id: &ObjectId, hex_len: usize) -> Result<Prefix, PrefixError>
        ensures ok { IfOk result (IsPrefixOf id.now hex_len) }
        ensures causes { result_err result ≡ length_error (len_in_hex (kind_of id.now)) hex_len }
    {
        check_len(id.kind().len_in_hex(), hex_len)?;
        Ok(Prefix::first_of(id, hex_len))
    }

    /// The prefix that hex digits of either case spell. The number of digits is tested before them.
    pub fn from_hex(digits: &[u8]) -> Result<Prefix, PrefixError>
        ensures ok { IfOk result (IsSpelledBy digits.now) }
        ensures causes { result_err result ≡ prefix_error digits.now }
    {
        check_len(64, digits.len())?;
        match read_padded(digits) {
            Ok(id) => Ok(Prefix::first_of(&id, digits.len())),
            Err(error) => Err(PrefixError::from(error)),
        }
    }

    /// The first digits of the id, of which it has as many.
    fn first_of(id: &ObjectId, hex_len: usize) -> Prefix
        requires least { 4 ≤ hex_len }
        requires most { hex_len ≤ len_in_hex (kind_of id.now) }
        ensures prefix { IsPrefixOf id.now hex_len result }
        ensures size { length (hex_of id.now) ≡ len_in_hex (kind_of id.now) }
    {
        Prefix {
            id: id.keeping_digits(hex_len),
            hex_len,
        }
    }

    /// How many digits the prefix has.
    pub fn hex_len(&self) -> usize
        ensures { result ≡ length (prefix_digits self.now) }
    {
        self.hex_len
    }

    /// The least id that begins with these digits: the others are zeros.
    pub fn as_oid(&self) -> &ObjectId
        ensures { IsLeast self.now result.now }
    {
        &self.id
    }

    /// Compares the digits with as many of the id's. They are equal exactly where the id begins with them.
    #[tactic(auto, using(crate::proofs::PrefixLemmas::equal_lists))]
    pub fn cmp_oid(&self, id: &ObjectId) -> Ordering
        ensures cmp { result
            ≡ slice_cmp nat_cmp (prefix_digits self.now) (take (length (prefix_digits self.now)) (hex_of id.now)) }
        ensures equal { (result ≡ Equal)
            ↔ (prefix_digits self.now ≡ take (length (prefix_digits self.now)) (hex_of id.now)) }
    {
        let (mut own, mut other) = ([0; 64], [0; 64]);
        let own = first_digits(self.id.write_hex(&mut own), self.hex_len);
        let other = first_digits(id.write_hex(&mut other), own.len());
        own.cmp(other)
    }
}

/// The first digits, or all where there are fewer.
fn first_digits(digits: &[u8], len: usize) -> &[u8]
    ensures { result.now ≡ take len digits.now }
{
    digits.get(..len).unwrap_or(digits)
}

fn check_len(most: usize, found: usize) -> Result<(), PrefixError>
    ensures { result_err result ≡ length_error most found }
{
    if most < found {
        return Err(PrefixError::TooLong { hex_len: found });
    }
    if found < 4 {
        return Err(PrefixError::TooShort { hex_len: found });
    }
    Ok(())
}

/// The id that the digits spell, with zeros after them up to the next length of an id.
fn read_padded(digits: &[u8]) -> Result<ObjectId, HexError>
    requires { length digits.now ≤ 64 }
    ensures { result ≡ id_from_hex (padded (room_for (length digits.now)) digits.now) }
{
    let mut buffer = [b'0'; 64];
    buffer[..digits.len()].copy_from_slice(digits);
    ObjectId::from_hex(&buffer[..room_for(digits.len())])
}

/// How many digits the shortest ids have that have at least this many.
fn room_for(found: usize) -> usize
    requires { found ≤ 64 }
    ensures room { result ≡ room_for found }
    ensures fits { found ≤ result }
    ensures most { result ≤ 64 }
{
    if found <= 40 { 40 } else { 64 }
}

impl From<ObjectId> for Prefix {
    ghost use Rattle.std.specs.Prelude.{◌≡◌};
    ghost use Rattle.gx_hash.specs.ObjectId.{hex_of};
    ghost use Rattle.gx_hash.specs.HashKind.{kind_of};
    ghost use Rattle.gx_hash.specs.Prefix.{prefix_kind, prefix_digits};

    ghost from_gives = { λ id prefix. (prefix_kind prefix ≡ kind_of id) × (prefix_digits prefix ≡ hex_of id) };

    fn from(id: ObjectId) -> Prefix {
        Prefix::first_of(&id, id.kind().len_in_hex())
    }
}

impl fmt::Display for Prefix {
    ghost use Rattle.std.specs.Prelude.{Some};
    ghost use Rattle.gx_hash.specs.Prefix.{prefix_digits};

    ghost output = { λ prefix. Some (prefix_digits prefix) };

    fn fmt<W: fmt::Write>(&self, f: &mut fmt::Formatter<W>) -> fmt::Result {
        let mut buffer = [0; 64];
        match str::from_utf8(first_digits(self.id.write_hex(&mut buffer), self.hex_len)) {
            Ok(digits) => f.write_str(digits),
            Err(_) => Err(fmt::Error),
        }
    }
}
