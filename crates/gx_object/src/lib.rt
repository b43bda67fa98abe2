//! Git's objects, and how they are read from bytes and written to bytes.
//!
//! `to_bytes` gives the one way in which a value is written, or names a field that can't be written. `from_bytes` reads
//! a tree, a commit or a tag, or names the first place where the bytes go wrong.
#![tactic(auto)]

mod blob;
mod commit;
mod decode;
mod encode;
mod kind;
pub mod laws;
mod lists;
mod message;
mod signature;
mod split;
mod tag;
mod tree;
mod write_to;

pub use blob::Blob;
pub use commit::{
    Commit, CommitRef, CommitRefIter, CommitToken, ExtraHeader, ExtraHeaders, OwnedHeader,
    ParentIds, SignedData, push_commit, signature_of,
};
pub use decode::DecodeError;
pub use encode::{EncodeError, Field};
pub use kind::Kind;
pub use lists::{Entries, EntryRefs, Headers, Ids};
pub use message::{MessageRef, summary};
pub use signature::{
    BadTime, Signature, SignatureError, SignatureRef, Time, is_writable_identity, push_identity,
    unwritable_identity,
};
pub use tag::{Tag, TagRef, TagRefIter, TagToken};
pub use tree::{
    Entry, EntryKind, EntryMode, EntryRef, Tree, TreeRef, TreeRefIter, push_entry, push_tree,
};
pub use write_to::WriteTo;
