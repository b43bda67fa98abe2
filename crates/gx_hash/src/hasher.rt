//! What an id is the digest of.
ghost use Rattle.std.specs.Prelude.{◌≡◌};
ghost use Rattle.sha1.specs.Sha1.{sha1};
ghost use Rattle.sha2.specs.Sha256.{sha256};
ghost use Rattle.gx_hash.specs.HashKind.{IsOfKind};
ghost use Rattle.gx_hash.specs.ObjectId.{object_id, hashed_bytes};

use crate::{HashKind, ObjectId};
use itoa::Buffer;
use sha1::Sha1;
use sha2::{Digest, Sha256};

/// The id of the object of the named kind with these bytes. The bytes are hashed where they lie.
#[tactic(auto, unfolding(crate::specs::ObjectId::object_id))]
pub fn object_id(hash: HashKind, kind_name: &[u8], bytes: &[u8]) -> ObjectId
    ensures id { result ≡ object_id hash kind_name.now bytes.now }
    ensures kind { IsOfKind hash result }
{
    match hash {
        HashKind::Sha1 => ObjectId::Sha1(sha1_of_object(kind_name, bytes)),
        HashKind::Sha256 => ObjectId::Sha256(sha256_of_object(kind_name, bytes)),
    }
}

fn sha1_of_object(kind_name: &[u8], bytes: &[u8]) -> [u8; 20]
    ensures { result ≡ sha1 (hashed_bytes kind_name.now bytes.now) }
{
    let mut buffer = Buffer::new();
    let mut hasher = Sha1::new();
    hasher.update(kind_name);
    hasher.update(b" ");
    hasher.update(buffer.format(bytes.len()).as_bytes());
    hasher.update(b"\0");
    hasher.update(bytes);
    hasher.finalize()
}

fn sha256_of_object(kind_name: &[u8], bytes: &[u8]) -> [u8; 32]
    ensures { result ≡ sha256 (hashed_bytes kind_name.now bytes.now) }
{
    let mut buffer = Buffer::new();
    let mut hasher = Sha256::new();
    hasher.update(kind_name);
    hasher.update(b" ");
    hasher.update(buffer.format(bytes.len()).as_bytes());
    hasher.update(b"\0");
    hasher.update(bytes);
    hasher.finalize()
}
