//! Objects of a folder. Each is written whole beside its place and renamed, so it is there whole or not at all.
use crate::error::FileError;
use crate::files::{START, is_file, read, read_start, rename, write};
use crate::name::{joined, object_path};
use crate::object::{object_text, read_header, read_object};
use crate::{Folder, index};
use gx_hash::{Bytes, HashKind, ObjectId};
use gx_object::Kind;
use gx_store::{Header, Objects, StoreError, What};
use std::alloc::Global;
use std::fs::File;
use std::rt::Files;

impl<R: Files<File = File> + AllocGlobal + Clone + Drop> Folder<R> {
    /// Makes the object's file, unless it is there.
    fn put_object(&self, id: &ObjectId, kind: Kind, bytes: &[u8]) -> Result<(), FileError> {
        let alloc = self.rt.alloc();
        let path = object_path(alloc, self.root.as_str(), id)?;
        if is_file(&self.rt, path.as_str())? {
            return Ok(());
        }
        let text = object_text(alloc, kind, bytes)?;
        // One program writes at a time, so one name serves for all objects that are being written.
        let temporary = joined(alloc, self.root.as_str(), "/~object")?;
        write(&self.rt, temporary.as_str(), &text)?;
        rename(&self.rt, temporary.as_str(), path.as_str())?;
        Ok(())
    }
}

#[tactic(auto, unfolding(crate::specs::Folder::folder_state))]
impl<R: Files<File = File> + AllocGlobal + Clone + Drop> Objects for Folder<R> {
    fn hash_kind(&self) -> HashKind {
        self.hash
    }

    fn read(&self, alloc: Global, id: &ObjectId) -> Result<Option<(Kind, Bytes)>, StoreError> {
        let path = object_path(alloc, self.root.as_str(), id)?;
        let text = match read(&self.rt, path.as_str()) {
            Ok(Some(text)) => text,
            Ok(None) => return Ok(None),
            Err(error) => return Err(error.at(What::Object(*id))),
        };
        match read_object(alloc, self.hash, &text, id)? {
            Some(object) => Ok(Some(object)),
            None => Err(StoreError::Fault {
                what: What::Object(*id),
            }),
        }
    }

    fn header(&self, alloc: Global, id: &ObjectId) -> Result<Option<Header>, StoreError> {
        let path = object_path(alloc, self.root.as_str(), id)?;
        let mut start = [0; START];
        let (filled, length) = match read_start(&self.rt, path.as_str(), &mut start) {
            Ok(Some(found)) => found,
            Ok(None) => return Ok(None),
            Err(error) => return Err(error.at(What::Object(*id))),
        };
        match read_header(alloc, start.split_at(filled.min(START)).0, length)? {
            Some(header) => Ok(Some(header)),
            None => Err(StoreError::Fault {
                what: What::Object(*id),
            }),
        }
    }

    fn exists(&self, alloc: Global, id: &ObjectId) -> Result<bool, StoreError> {
        let path = object_path(alloc, self.root.as_str(), id)?;
        match is_file(&self.rt, path.as_str()) {
            Ok(is_there) => Ok(is_there),
            Err(error) => Err(error.at(What::Object(*id))),
        }
    }

    fn count(&self, _alloc: Global) -> Result<u64, StoreError> {
        match index::count(&self.rt, self.root.as_str(), self.hash.len_in_hex()) {
            Ok(count) => Ok(count),
            Err(error) => Err(error.at(What::Index)),
        }
    }

    fn longest_shared(&self, _alloc: Global, id: &ObjectId) -> Result<usize, StoreError> {
        match index::longest_shared(&self.rt, self.root.as_str(), id) {
            Ok(longest) => Ok(longest),
            Err(error) => Err(error.at(What::Index)),
        }
    }

    fn write(
        &mut self,
        _alloc: Global,
        id: ObjectId,
        kind: Kind,
        bytes: &[u8],
    ) -> Result<(), StoreError> {
        match self.put_object(&id, kind, bytes) {
            Ok(()) => Ok(()),
            Err(error) => Err(self.write_error(error)),
        }
    }
}
