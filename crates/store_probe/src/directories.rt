//! Rows that ask the definitions of paths, path maps and canonical trees, as `plain_trees` computes them.
//!
//! A directory is written as its paths in turn, with `>` between their names; a path that ends in `>` is an empty
//! directory.

use crate::edits::edits_in;
use crate::store::only;
use crate::values::hash_in;
use gx_edit::{Leaf, PathEdit};
use gx_hash::{Bytes, HashKind, ObjectId, object_id};
use gx_object::{EntryKind, Kind};
use plain_trees::{Listing, blobs_of, components, directory_of};
use probe_rows::ProbeError;
use probe_rows::answers::{push_field, push_id, truth, word};
use std::alloc::Global;

pub fn answer(alloc: Global, call: &str, fields: &[Vec<u8>]) -> Result<Vec<u8>, ProbeError> {
    match call {
        "path_names" => names_of(alloc, only(fields)?),
        "is_canonical" => canonical(alloc, fields),
        "trees" => trees(alloc, fields),
        "blobs" => blobs(alloc, fields),
        "stands_for" => stands_for(alloc, fields),
        _ => Err(ProbeError::UnknownCall),
    }
}

/// The kind of ids of a call that takes one, and the fields after it.
fn kind_and_words(fields: &[Vec<u8>]) -> Result<(HashKind, &[Vec<u8>]), ProbeError> {
    let Some((kind, words)) = fields.split_first() else {
        return Err(ProbeError::BadLine);
    };
    Ok((hash_in(kind)?, words))
}

/// The root of what edits of the empty tree leave, where that has a canonical directory.
pub fn root_of(
    alloc: Global,
    hash: HashKind,
    edits: &[PathEdit],
) -> Result<Option<ObjectId>, ProbeError> {
    match directory_of(alloc, hash, edits)? {
        Some(directory) => Ok(Some(directory.root(alloc, hash)?)),
        None => Ok(None),
    }
}

fn names_of(alloc: Global, path: &[u8]) -> Result<Vec<u8>, ProbeError> {
    let mut answer = Vec::new(alloc);
    for name in components(alloc, path)?.iter() {
        push_field(&mut answer, name.as_slice())?;
    }
    Ok(answer)
}

fn canonical(alloc: Global, paths: &[Vec<u8>]) -> Result<Vec<u8>, ProbeError> {
    let listing = listing_in(alloc, paths, HashKind::Sha1)?;
    truth(alloc, listing.is_canonical(alloc)?)
}

/// The directory of these paths, whose files hold the line `1`.
fn listing_in(alloc: Global, paths: &[Vec<u8>], hash: HashKind) -> Result<Listing, ProbeError> {
    let leaf = Leaf::new(
        EntryKind::Blob,
        object_id(hash, Kind::Blob.as_bytes(), b"1\n"),
    );
    let mut listing = Listing::end();
    for path in paths.iter().rev() {
        listing = with_path(alloc, listing, path, leaf)?;
    }
    Ok(listing)
}

/// The directory with a path before all others.
fn with_path(
    alloc: Global,
    listing: Listing,
    path: &[u8],
    leaf: Leaf,
) -> Result<Listing, ProbeError> {
    match path.strip_suffix(b">") {
        Some(name) => Ok(Listing::sub(alloc, name, Listing::end(), listing)?),
        None => Ok(listing.with_leaf(alloc, &path_in(alloc, path)?, leaf)?),
    }
}

fn path_in(alloc: Global, path: &[u8]) -> Result<Vec<Bytes>, ProbeError> {
    let mut names = Vec::new(alloc);
    for name in path.split(|byte| *byte == b'>') {
        names.push(Bytes::from_slice(alloc, name)?)?;
    }
    Ok(names)
}

/// The ids of the trees of what edits leave, the root last.
fn trees(alloc: Global, fields: &[Vec<u8>]) -> Result<Vec<u8>, ProbeError> {
    let (hash, words) = kind_and_words(fields)?;
    let edits = edits_in(alloc, words)?;
    match directory_of(alloc, hash, &edits)? {
        Some(directory) => ids_of(alloc, hash, &directory.trees(alloc, hash)?),
        None => word(alloc, "none"),
    }
}

/// The ids of the blobs that edits bring.
fn blobs(alloc: Global, fields: &[Vec<u8>]) -> Result<Vec<u8>, ProbeError> {
    let (hash, words) = kind_and_words(fields)?;
    let edits = edits_in(alloc, words)?;
    ids_of(alloc, hash, &blobs_of(alloc, &edits)?)
}

fn ids_of(alloc: Global, hash: HashKind, objects: &[(Kind, Bytes)]) -> Result<Vec<u8>, ProbeError> {
    let mut answer = Vec::new(alloc);
    for (kind, bytes) in objects {
        let id = object_id(hash, kind.as_bytes(), bytes.as_slice());
        push_id(&mut answer, &id)?;
    }
    Ok(answer)
}

/// Whether the directory of the paths before a semicolon is the canonical one of the edits after it.
fn stands_for(alloc: Global, fields: &[Vec<u8>]) -> Result<Vec<u8>, ProbeError> {
    let (hash, words) = kind_and_words(fields)?;
    let mut parts = words.split(|field| field.as_slice() == b";".as_slice());
    let (Some(paths), Some(edits)) = (parts.next(), parts.next()) else {
        return Err(ProbeError::BadLine);
    };
    let listing = listing_in(alloc, paths, hash)?;
    let edits = edits_in(alloc, edits)?;
    truth(alloc, listing.stands_for(alloc, hash, &edits)?)
}
