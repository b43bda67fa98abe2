//! Object ids: how they are computed, written, read and ordered.
//!
//! An id is the SHA-1 or SHA-256 digest of an object's kind, size and bytes. Other crates work with either: they pass
//! a `HashKind` on and never match on it. This crate also has `Bytes`, an owned list of bytes, and `NoMemory`, since
//! every other crate uses them.
#![tactic(auto)]

mod bytes;
mod hasher;
mod kind;
pub mod laws;
mod no_memory;
mod object_ids;
mod oid;
mod prefix;

pub use bytes::Bytes;
pub use hasher::object_id;
pub use kind::HashKind;
pub use no_memory::NoMemory;
pub use object_ids::ObjectIds;
pub use oid::{HexError, ObjectId};
pub use prefix::{Prefix, PrefixError};
