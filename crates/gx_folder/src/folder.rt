//! A folder, opened and held.
ghost use Rattle.std.specs.Prelude.{◌≡◌, IfOk};
ghost use Rattle.gx_hash.specs.declared.kind.HashKind.{HashKind as Hash};
ghost use Rattle.gx_store.specs.State.{Becomes, HasCause, OfFault};
ghost use Rattle.gx_folder.specs.Folder.{folder_state, untold};

use crate::error::FileError;
use crate::files::{is_file, read, write};
use crate::name::joined;
use crate::{OpenError, format};
use gx_hash::HashKind;
use gx_store::{Meanings, Store, StoreError, What};
use std::fs::{self, File};
use std::rt::Files;

/// A store in a folder, which is locked for other programs as long as this value lives.
///
/// Objects, references and logs are put in place by renames, and nothing is forced to the disk: what was written is
/// there after the program was killed, but not after the power went.
///
/// ```
/// let alloc = rt.alloc();
/// let mut store = Folder::create(rt.clone()?, "shop", HashKind::Sha1)?;
/// let id = write_object(alloc, &mut store, Kind::Blob, b"hello world")?;
/// drop(store);
/// let store = Folder::open(rt, "shop")?;
/// let is_stored = store.exists(alloc, &id)?;
/// ```
#[derive(Drop)]
pub struct Folder<R> {
    pub(crate) rt: R,
    /// The folder's path.
    pub(crate) root: String,
    pub(crate) hash: HashKind,
    /// The file `format`, which is locked until it is closed.
    lock: File,
    faults: u64,
}

impl<R: Files<File = File> + AllocGlobal + Clone + Drop> Folder<R> {
    /// The store in a folder. The path is that of a folder which `create` has made.
    ///
    /// A folder of which another `Folder` lives, in this program or another, is a fault.
    #[tactic(auto, unfolding(crate::specs::Folder::folder_state))]
    pub fn open(rt: R, path: &str) -> Result<Folder<R>, OpenError>
        ensures { IfOk result (λ folder. (hash : Hash) × (folder_state folder ≡ untold hash 0)) }
    {
        let format = joined(rt.alloc(), path, "/format")?;
        let Some(text) = read(&rt, format.as_str())? else {
            return Err(OpenError::NotARepository);
        };
        match format::kind_of(&text) {
            Some(hash) => Folder::hold(rt, path, hash),
            None => Err(OpenError::NotARepository),
        }
    }

    /// A new store in a folder that is not there, or has no entry. `HEAD` is symbolic to `refs/heads/main`.
    ///
    /// `format` is written last. After a failure the folder may have entries, and is no repository then.
    #[tactic(auto, unfolding(crate::specs::Folder::folder_state))]
    pub fn create(rt: R, path: &str, hash: HashKind) -> Result<Folder<R>, OpenError>
        ensures { IfOk result (λ folder. folder_state folder ≡ untold hash 0) }
    {
        fs::create_dir_all(&rt, path)?;
        for entry in fs::read_dir(&rt, path)? {
            let _entry = entry?;
            return Err(OpenError::NotARepository);
        }
        let head = joined(rt.alloc(), path, "/HEAD")?;
        write(&rt, head.as_str(), b"ref: refs/heads/main\n")?;
        let format = joined(rt.alloc(), path, "/format")?;
        write(&rt, format.as_str(), format::text_of(hash).as_bytes())?;
        Folder::hold(rt, path, hash)
    }

    /// The store in a folder of the kind, once its file `format` is locked.
    #[tactic(auto, unfolding(crate::specs::Folder::folder_state))]
    fn hold(rt: R, path: &str, hash: HashKind) -> Result<Folder<R>, OpenError>
        ensures { IfOk result (λ folder. folder_state folder ≡ untold hash 0) }
    {
        // Two names that differ in case are two references, so they need two files. `Format` is no name of one.
        let other = joined(rt.alloc(), path, "/Format")?;
        if is_file(&rt, other.as_str())? {
            return Err(OpenError::Fault);
        }
        let format = joined(rt.alloc(), path, "/format")?;
        let lock = File::open(&rt, format.as_str())?;
        if lock.try_lock().is_err() {
            return Err(OpenError::Fault);
        }
        Ok(Folder {
            root: joined(rt.alloc(), path, "")?,
            rt,
            hash,
            lock,
            faults: 0,
        })
    }

    /// How many calls failed to change the store.
    #[tactic(auto, unfolding(crate::specs::Folder::folder_state))]
    pub fn fault_count(&self) -> u64
        ensures { result ≡ (folder_state self.now).faults }
    {
        self.faults
    }

    /// What a failed change answers. It is counted as a fault, unless memory ran out.
    #[tactic(auto, unfolding(crate::specs::Folder::folder_state))]
    pub(crate) fn write_error(&mut self, error: FileError) -> StoreError
        ensures state { Becomes (folder_state self.old) (folder_state self.new) }
        ensures fault { OfFault result (HasCause (folder_state self.old) (folder_state self.new)) }
    {
        match error {
            FileError::NoMemory => StoreError::NoMemory,
            FileError::Io(_) => {
                self.faults = self.faults.saturating_add(1);
                StoreError::Fault { what: What::Write }
            }
        }
    }
}

impl<R: Files<File = File> + AllocGlobal + Clone + Drop> Meanings for Folder<R> {
    ghost state = { folder_state };
}

impl<R: Files<File = File> + AllocGlobal + Clone + Drop> Store for Folder<R> {}
