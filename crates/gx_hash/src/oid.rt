//! Ids of objects: their bytes and their digits.

ghost use Rattle.std.specs.Prelude.{◌≡◌, ◌≤◌, Some, ◌++◌, ◌↔◌, ◌*◌, length, take, IfOk, OnOk, OnErr, IsTrue};
ghost use Rattle.gx_hash.specs.HashKind.{len_in_bytes, kind_of, IsOfKind};
ghost use Rattle.gx_hash.specs.ObjectId.{bytes_of, hex_of, null_id, empty_tree_id, empty_blob_id, id_from_bytes, bytes_from_hex, id_from_hex};
ghost use Rattle.gx_hash.specs.IdDigits.{IsHexId};
ghost use Rattle.gx_hash.specs.PrefixDigits.{len_in_hex, padded};
ghost use Rattle.gx_hash.specs.declared.kind.HashKind.{HashKind};
ghost use Rattle.hex.specs.Hex.{encode_lower};
ghost use Rattle.std.specs.Ordering.{nat_cmp};
ghost use Rattle.std.specs.Cmp.Lexicographic.{slice_cmp};

use crate::{Bytes, HashKind, NoMemory};
use hex::{FromHex, FromHexError};
use std::alloc::Global;
use std::cmp::Ordering;
use std::fmt;
use thiserror::Error;

const EMPTY_TREE_SHA1: [u8; 20] = [
    0x4b, 0x82, 0x5d, 0xc6, 0x42, 0xcb, 0x6e, 0xb9, 0xa0, 0x60, 0xe5, 0x4b, 0xf8, 0xd6, 0x92, 0x88,
    0xfb, 0xee, 0x49, 0x04,
];

const EMPTY_TREE_SHA256: [u8; 32] = [
    0x6e, 0xf1, 0x9b, 0x41, 0x22, 0x5c, 0x53, 0x69, 0xf1, 0xc1, 0x04, 0xd4, 0x5d, 0x8d, 0x85, 0xef,
    0xa9, 0xb0, 0x57, 0xb5, 0x3b, 0x14, 0xb4, 0xb9, 0xb9, 0x39, 0xdd, 0x74, 0xde, 0xcc, 0x53, 0x21,
];

const EMPTY_BLOB_SHA1: [u8; 20] = [
    0xe6, 0x9d, 0xe2, 0x9b, 0xb2, 0xd1, 0xd6, 0x43, 0x4b, 0x8b, 0x29, 0xae, 0x77, 0x5a, 0xd8, 0xc2,
    0xe4, 0x8c, 0x53, 0x91,
];

const EMPTY_BLOB_SHA256: [u8; 32] = [
    0x47, 0x3a, 0x0f, 0x4c, 0x3b, 0xe8, 0xa9, 0x36, 0x81, 0xa2, 0x67, 0xe3, 0xb1, 0xe9, 0xa7, 0xdc,
    0xda, 0x11, 0x85, 0x43, 0x6f, 0xe1, 0x41, 0xf7, 0x74, 0x91, 0x20, 0xa3, 0x03, 0x72, 0x18, 0x13,
];

/// The id of an object. Ids are ordered by kind, then by bytes.
///
/// ```
/// let id = object_id(HashKind::Sha1, b"blob", b"hello world");
/// let same = ObjectId::from_hex(b"95d09f2b10159347eece71399a7e2e907ea3df4f")?;
/// let is_same = id == same;
/// let digits = id.to_hex(alloc)?;
/// ```
#[derive(Clone, Copy, PartialEq, Eq, Hash)]
pub enum ObjectId {
    Sha1([u8; 20]),
    Sha256([u8; 32]),
}

/// Why a text is no id.
#[derive(Clone, Copy, Debug, PartialEq, Eq, Error)]
pub enum HexError {
    /// No kind of id has this many digits.
    #[error("no id has {found} hex digits")]
    BadLength { found: usize },
    /// The first byte that is no hex digit.
    #[error("byte {at} is no hex digit")]
    BadDigit { at: usize },
}

impl ObjectId {
    /// The id whose bytes are all zero, which names no object.
    pub fn null(kind: HashKind) -> ObjectId
        ensures id { result ≡ null_id kind }
        ensures kind { IsOfKind kind result }
    {
        match kind {
            HashKind::Sha1 => ObjectId::Sha1([0; 20]),
            HashKind::Sha256 => ObjectId::Sha256([0; 32]),
        }
    }

    /// The id of the tree without entries. Nothing is hashed.
    pub fn empty_tree(kind: HashKind) -> ObjectId
        ensures id { result ≡ empty_tree_id kind }
        ensures kind { IsOfKind kind result }
    {
        match kind {
            HashKind::Sha1 => ObjectId::Sha1(EMPTY_TREE_SHA1),
            HashKind::Sha256 => ObjectId::Sha256(EMPTY_TREE_SHA256),
        }
    }

    /// The id of the blob without bytes. Nothing is hashed.
    pub fn empty_blob(kind: HashKind) -> ObjectId
        ensures id { result ≡ empty_blob_id kind }
        ensures kind { IsOfKind kind result }
    {
        match kind {
            HashKind::Sha1 => ObjectId::Sha1(EMPTY_BLOB_SHA1),
            HashKind::Sha256 => ObjectId::Sha256(EMPTY_BLOB_SHA256),
        }
    }

    pub fn kind(&self) -> HashKind
        ensures { result ≡ kind_of self.now }
    {
        match self {
            ObjectId::Sha1(_) => HashKind::Sha1,
            ObjectId::Sha256(_) => HashKind::Sha256,
        }
    }

    /// The raw bytes, as many as an id of its kind has.
    pub fn as_bytes(&self) -> &[u8]
        ensures bytes { result.now ≡ bytes_of self.now }
        ensures len { length result.now ≡ len_in_bytes (kind_of self.now) }
    {
        match self {
            ObjectId::Sha1(bytes) => bytes,
            ObjectId::Sha256(bytes) => bytes,
        }
    }

    pub fn is_null(&self) -> bool
        ensures { IsTrue result ↔ (self.now ≡ null_id (kind_of self.now)) }
    {
        *self == ObjectId::null(self.kind())
    }

    pub fn is_empty_tree(&self) -> bool
        ensures { IsTrue result ↔ (self.now ≡ empty_tree_id (kind_of self.now)) }
    {
        *self == ObjectId::empty_tree(self.kind())
    }

    /// The id with these bytes, where they are as many as an id of the kind has.
    pub fn from_bytes(kind: HashKind, bytes: &[u8]) -> Option<ObjectId>
        ensures { result ≡ id_from_bytes kind bytes.now }
    {
        match kind {
            HashKind::Sha1 => match <[u8; 20]>::try_from(bytes) {
                Ok(bytes) => Some(ObjectId::Sha1(bytes)),
                Err(_) => None,
            },
            HashKind::Sha256 => match <[u8; 32]>::try_from(bytes) {
                Ok(bytes) => Some(ObjectId::Sha256(bytes)),
                Err(_) => None,
            },
        }
    }

    /// The id that hex digits of either case spell. The length is tested before the digits.
    pub fn from_hex(digits: &[u8]) -> Result<ObjectId, HexError>
        ensures { result ≡ id_from_hex digits.now }
    {
        match digits.len() {
            40 => Ok(ObjectId::Sha1(bytes_from_hex(digits)?)),
            64 => Ok(ObjectId::Sha256(bytes_from_hex(digits)?)),
            found => Err(HexError::BadLength { found }),
        }
    }

    /// The id that these are the digits of, in lower case and as many as an id of some kind has.
    pub fn from_digits(digits: &[u8]) -> ObjectId
        requires { (hash : HashKind) × IsHexId hash digits.now }
        ensures digits { hex_of result ≡ digits.now }
        ensures kind { (hash : HashKind) → IsHexId hash digits.now → IsOfKind hash result }
    {
        ObjectId::from_hex(digits).unwrap()
    }

    /// The id with these first hex digits of this one, and zeros after them.
    pub(crate) fn keeping_digits(&self, hex_len: usize) -> ObjectId
        requires { hex_len ≤ len_in_hex (kind_of self.now) }
        ensures digits { hex_of result ≡ padded (length (hex_of self.now)) (take hex_len (hex_of self.now)) }
        ensures size { length (hex_of self.now) ≡ len_in_hex (kind_of self.now) }
        ensures kind { kind_of result ≡ kind_of self.now }
    {
        match self {
            ObjectId::Sha1(bytes) => ObjectId::Sha1(keep_digits(bytes, hex_len)),
            ObjectId::Sha256(bytes) => ObjectId::Sha256(keep_digits(bytes, hex_len)),
        }
    }

    /// Writes the id's digits, in lower case, into the buffer, and gives that part of it.
    pub(crate) fn write_hex<'a>(&self, buffer: &'a mut [u8; 64]) -> &'a [u8]
        ensures { result.now ≡ hex_of self.now }
    {
        let digits = &mut buffer[..self.kind().len_in_hex()];
        hex::encode_to_slice(self.as_bytes(), digits).unwrap();
        digits
    }

    /// Appends the id's digits, in lower case.
    pub fn push_hex(&self, out: &mut Vec<u8>) -> Result<(), NoMemory>
        ensures ok { OnOk result (out.new.items ≡ out.old.items ++ hex_of self.now) }
        ensures leaves { OnErr result (out.new.items ≡ out.old.items) }
    {
        let mut buffer = [0; 64];
        out.extend_from_slice(self.write_hex(&mut buffer))?;
        Ok(())
    }

    /// The id's digits, in lower case.
    pub fn to_hex(&self, alloc: Global) -> Result<Bytes, NoMemory>
        ensures { IfOk result (λ digits. digits ≡ hex_of self.now) }
    {
        let mut digits = Vec::with_capacity(alloc, self.kind().len_in_hex())?;
        self.push_hex(&mut digits)?;
        Ok(Bytes::from_vec(digits))
    }
}

/// The bytes that twice as many hex digits spell.
fn bytes_from_hex<const N: usize>(digits: &[u8]) -> Result<[u8; N], HexError>
    requires { length digits.now ≡ 2 * N }
    ensures { result ≡ bytes_from_hex digits.now }
{
    match <[u8; N] as FromHex>::from_hex(digits) {
        Ok(bytes) => Ok(bytes),
        Err(FromHexError::InvalidHexCharacter { index, .. }) => {
            Err(HexError::BadDigit { at: index })
        }
        Err(_) => Err(HexError::BadLength {
            found: digits.len(),
        }),
    }
}

/// The bytes with these first hex digits of the given ones, and zeros after them.
fn keep_digits<const N: usize>(bytes: &[u8; N], hex_len: usize) -> [u8; N]
    requires { hex_len ≤ 2 * N }
    ensures kept { encode_lower result
        ≡ padded (length (encode_lower bytes.now)) (take hex_len (encode_lower bytes.now)) }
    ensures size { length (encode_lower bytes.now) ≡ 2 * N }
{
    let whole = hex_len / 2;
    let mut kept = [0; N];
    kept[..whole].copy_from_slice(&bytes[..whole]);
    if hex_len % 2 == 1 {
        kept[whole] = bytes[whole] / 16 * 16;
    }
    kept
}

impl Ord for ObjectId {
    ghost use Rattle.gx_hash.specs.ObjectId.{id_cmp};
    ghost use Rattle.gx_hash.specs.Laws.IdCmp.{id_cmp_total, id_cmp-eq, id_cmp-partial};

    ghost cmp = { id_cmp };

    ghost total = { id_cmp_total };

    ghost matches_partial_cmp = { id_cmp-partial };

    ghost matches_eq = { id_cmp-eq };

    fn cmp(&self, other: &ObjectId) -> Ordering {
        match (self, other) {
            (ObjectId::Sha1(a), ObjectId::Sha1(b)) => cmp_bytes(a, b),
            (ObjectId::Sha1(_), ObjectId::Sha256(_)) => Ordering::Less,
            (ObjectId::Sha256(_), ObjectId::Sha1(_)) => Ordering::Greater,
            (ObjectId::Sha256(a), ObjectId::Sha256(b)) => cmp_bytes(a, b),
        }
    }
}

impl PartialOrd for ObjectId {
    ghost use Rattle.std.specs.Ordering.{as_partial_cmp};
    ghost use Rattle.gx_hash.specs.ObjectId.{id_cmp};
    ghost use Rattle.gx_hash.specs.Laws.IdCmp.{id_partial_order};

    ghost partial_cmp = { as_partial_cmp id_cmp };

    ghost laws = { id_partial_order };

    fn partial_cmp(&self, other: &ObjectId) -> Option<Ordering> {
        Some(self.cmp(other))
    }
}

/// The order of two rows of bytes. Ids seldom share their first two bytes, so those are looked at before the whole.
fn cmp_bytes(a: &[u8], b: &[u8]) -> Ordering
    requires first { 2 ≤ length a.now }
    requires second { 2 ≤ length b.now }
    ensures { result ≡ slice_cmp nat_cmp a.now b.now }
{
    if a[0] != b[0] {
        a[0].cmp(&b[0])
    } else if a[1] != b[1] {
        a[1].cmp(&b[1])
    } else {
        a.cmp(b)
    }
}

impl fmt::Display for ObjectId {
    ghost output = { λ id. Some (hex_of id) };

    fn fmt<W: fmt::Write>(&self, f: &mut fmt::Formatter<W>) -> fmt::Result {
        let mut buffer = [0; 64];
        match str::from_utf8(self.write_hex(&mut buffer)) {
            Ok(digits) => f.write_str(digits),
            Err(_) => Err(fmt::Error),
        }
    }
}

impl fmt::Debug for ObjectId {
    ghost use Rattle.gx_hash.specs.ObjectId.{debug_text};

    ghost debug_output = { λ id. Some (debug_text id) };

    fn fmt<W: fmt::Write>(&self, f: &mut fmt::Formatter<W>) -> fmt::Result {
        match self {
            ObjectId::Sha1(_) => write!(f, "Sha1({self})"),
            ObjectId::Sha256(_) => write!(f, "Sha256({self})"),
        }
    }
}
