//! The repository itself, and what it shows of its store.

mod reference;

ghost use Rattle.std.specs.Prelude.{◌≡◌};
ghost use Rattle.gix.specs.Repository.{store_of, settings_of};

mod commit;
mod header;
mod write;
mod write_stream;

use crate::Settings;
use gx_hash::HashKind;
use gx_store::Store;

/// A repository over a store: what reads it takes it by `&self`, what writes it by `&mut self`.
///
/// ```
/// let mut repo = Repository::new(Memory::new(alloc, HashKind::Sha1)?, Settings::new());
/// let main = FullName::new(alloc, b"refs/heads/main")?;
/// let edits = [PathEdit::File { path, bytes, executable: false }];
/// let id = repo.commit_edits(alloc, &who, &who, &main, b"Begin\n", &NO_PARENT_IDS, &edits)?;
/// ```
#[derive(Drop)]
pub struct Repository<S> {
    pub(crate) store: S,
    pub(crate) settings: Settings,
}

impl<S: Store> Repository<S> {
    /// Takes the store as it is. Nothing is read or written.
    pub fn new(store: S, settings: Settings) -> Self
        ensures store { store_of result ≡ store }
        ensures settings { settings_of result ≡ settings }
    {
        Repository { store, settings }
    }

    pub fn store(&self) -> &S
        ensures { result.now ≡ store_of self.now }
    {
        &self.store
    }

    pub fn settings(&self) -> &Settings
        ensures { result.now ≡ settings_of self.now }
    {
        &self.settings
    }

    /// Takes other settings, and gives back those from before.
    pub fn set_settings(&mut self, settings: Settings) -> Settings
        ensures settings { settings_of self.new ≡ settings }
        ensures before { result ≡ settings_of self.old }
        ensures store { store_of self.new ≡ store_of self.old }
    {
        std::mem::replace(&mut self.settings, settings)
    }

    /// The kind of every id in the repository.
    pub fn object_hash(&self) -> HashKind
        ensures { result ≡ (S.state (store_of self.now)).hash }
    {
        self.store.hash_kind()
    }

    /// The store, when the repository is no longer needed.
    pub fn into_store(self) -> S
        ensures { result ≡ store_of self }
    {
        let Repository { store, settings: _ } = self;
        store
    }
}
