//! The objects of the example.

use anyhow::Result;
use gx_hash::{Bytes, ObjectId};
use gx_object::{
    Blob, Commit, Entries, Entry, EntryKind, Headers, Ids, Signature, Time, Tree, WriteTo,
};
use gx_store::{Memory, write_object};
use std::alloc::Global;

/// The name of the file.
pub const GREETING: &[u8] = b"greeting.txt";

/// Writes a commit of a tree with one file, each object after what it names, and answers the commit's id.
pub fn write(alloc: Global, store: &mut Memory) -> Result<ObjectId> {
    let blob = Blob {
        bytes: Bytes::from_slice(alloc, b"hello world\n")?,
    };
    let file = put(alloc, store, &blob)?;
    let root = put(alloc, store, &tree_with(alloc, file)?)?;
    put(alloc, store, &commit_of(alloc, root)?)
}

/// Stores an object under the id of what is written of it.
fn put<O: WriteTo>(alloc: Global, store: &mut Memory, object: &O) -> Result<ObjectId> {
    let bytes = object.to_bytes(alloc)?;
    Ok(write_object(alloc, store, object.kind(), bytes.as_slice())?)
}

fn tree_with(alloc: Global, file: ObjectId) -> Result<Tree> {
    let entry = Entry {
        mode: EntryKind::Blob.into(),
        filename: Bytes::from_slice(alloc, GREETING)?,
        oid: file,
    };
    Ok(Tree {
        entries: Entries::from_vec(vec![in alloc; entry]?),
    })
}

fn commit_of(alloc: Global, tree: ObjectId) -> Result<Commit> {
    Ok(Commit {
        tree,
        parents: Ids::from_vec(Vec::new(alloc)),
        author: someone(alloc)?,
        committer: someone(alloc)?,
        encoding: None,
        message: Bytes::from_slice(alloc, b"Say hello\n\nThe first commit.\n")?,
        extra_headers: Headers::from_vec(Vec::new(alloc)),
    })
}

fn someone(alloc: Global) -> Result<Signature> {
    Ok(Signature {
        name: Bytes::from_slice(alloc, b"A U Thor")?,
        email: Bytes::from_slice(alloc, b"author@example.com")?,
        time: Time {
            seconds: 1_700_000_000,
            offset: 0,
        },
    })
}
