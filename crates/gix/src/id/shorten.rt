ghost use Rattle.std.specs.Prelude.{◌≡◌, ◌≤◌, min, is_some, IfOk, IfErr, IfSome};
ghost use Rattle.gx_hash.specs.HashKind.{kind_of};
ghost use Rattle.gx_hash.specs.Prefix.{IsPrefixOf};
ghost use Rattle.gx_hash.specs.PrefixDigits.{len_in_hex};
ghost use Rattle.gx_store.specs.Content.{lookup};
ghost use Rattle.gx_store.specs.State.{IfFault, IsUnreadable};
ghost use Rattle.gx_store.specs.declared.error.What.TheVariants as part;
ghost use Rattle.gix.specs.Shortening.{IsChosenLen, IsShortened, ShortenCauses};

use crate::{Repository, calculate_auto_hex_len};
use gx_hash::laws::id_has_digits;
use gx_hash::{NoMemory, ObjectId, Prefix};
use gx_store::laws::shared_digits_are_a_prefix;
use gx_store::{Objects, Store, StoreError, What};
use std::alloc::Global;
use thiserror::Error;

/// Why an id has no abbreviation.
#[derive(Debug, PartialEq, Eq, Drop, Error)]
pub enum ShortenError {
    #[error("{oid} is not stored")]
    NotFound { oid: ObjectId },
    #[error("the store failed at {what:?}")]
    Store { what: What },
    #[error("out of memory")]
    NoMemory,
}

impl From<StoreError> for ShortenError {
    ghost use Rattle.gix.specs.Shortening.{of_store};

    ghost from_gives = { λ failure error. error ≡ of_store failure };

    fn from(error: StoreError) -> ShortenError {
        match error {
            StoreError::NoMemory => ShortenError::NoMemory,
            StoreError::Fault { what } => ShortenError::Store { what },
        }
    }
}

impl<S: Store> Repository<S> {
    ghost use Rattle.gix.specs.Asking.{asks};
    ghost use Rattle.gix.specs.Meaning.{Means};
    ghost use Rattle.gix.specs.Repository.{held_by, settings_of, store_of};
    ghost use Rattle.gix.specs.Shortening.{IsShortenedOrWhole, shorten_query};

    /// The first digits of an id, as many as `Settings::hex_len` says or as suit the number of objects, and more until
    /// no other object's id begins with them.
    ///
    /// # Errors
    /// `NotFound` exactly where the id is not stored; `Store` if the id, or what is known of all objects together,
    /// can't be read; `NoMemory`.
    pub fn shorten(&self, alloc: Global, id: &ObjectId) -> Result<Prefix, ShortenError>
        ensures { Means (asks (shorten_query id.now)) (held_by S.state self.now) result (held_by S.state self.now) }
    {
        shorten(alloc, &self.store, self.settings.hex_len, id)
    }

    /// The same, or all digits of the id where it is not stored or can't be read.
    pub fn shorten_or_id(&self, alloc: Global, id: &ObjectId) -> Result<Prefix, NoMemory>
        ensures { IfOk result (IsShortenedOrWhole (settings_of self.now).hex_len id.now
            (S.state (store_of self.now))) }
    {
        match shorten(alloc, &self.store, self.settings.hex_len, id) {
            Ok(prefix) => Ok(prefix),
            Err(ShortenError::NoMemory) => Err(NoMemory),
            Err(_) => Ok(Prefix::from(*id)),
        }
    }
}

fn shorten<S: Objects>(
    alloc: Global,
    store: &S,
    hex_len: Option<usize>,
    id: &ObjectId,
) -> Result<Prefix, ShortenError>
    ensures ok { IfOk result (IsShortened hex_len id.now (S.state store.now).content) }
    ensures causes { IfErr result (ShortenCauses id.now (S.state store.now)) }
{
    if !is_stored(alloc, store, id)? {
        return Err(ShortenError::NotFound { oid: *id });
    }
    let chosen = chosen_len(alloc, store, hex_len, id.kind().len_in_hex())?;
    let shared = store.longest_shared(alloc, id)?;
    id_has_digits(id);
    shared_digits_are_a_prefix(id);
    Ok(first_digits(id, chosen.max(shared.saturating_add(1))))
}

/// Whether an object is there. The empty tree is, whether or not it was written.
fn is_stored<S: Objects>(alloc: Global, store: &S, id: &ObjectId) -> Result<bool, StoreError>
    ensures found { IfOk result (λ found. IfSome (S.state store.now).content (λ content.
        found ≡ is_some (lookup content id.now))) }
    ensures fault { IfFault result (IsUnreadable (S.state store.now) (part.Object id.now)) }
{
    if id.is_empty_tree() {
        return Ok(true);
    }
    store.exists(alloc, id)
}

/// How many digits are wanted of an id that has so many.
fn chosen_len<S: Objects>(
    alloc: Global,
    store: &S,
    hex_len: Option<usize>,
    digits: usize,
) -> Result<usize, StoreError>
    requires { 40 ≤ digits }
    ensures chosen { IfOk result (λ chosen. IfSome (S.state store.now).content (λ content.
        IsChosenLen hex_len digits content chosen)) }
    ensures least { IfOk result (λ chosen. 4 ≤ chosen) }
    ensures most { IfOk result (λ chosen. chosen ≤ digits) }
    ensures fault { IfFault result (IsUnreadable (S.state store.now) part.Index) }
{
    match hex_len {
        Some(chosen) => Ok(chosen.clamp(4, digits)),
        None => Ok(calculate_auto_hex_len(store.count(alloc)?)),
    }
}

/// So many first digits of the id, or all where it has fewer.
fn first_digits(id: &ObjectId, len: usize) -> Prefix
    requires { 4 ≤ len }
    ensures { IsPrefixOf id.now (min len (len_in_hex (kind_of id.now))) result }
{
    let most = id.kind().len_in_hex();
    Prefix::new(id, len.min(most)).unwrap()
}
