ghost use Rattle.std.specs.Prelude.{◌≡◌, IfOk, OnOk, OnErr};
ghost use Rattle.gx_store.specs.Slots.{refs_of};
ghost use Rattle.gx_store.specs.Kinds.{AreRefsOfKind, AreRefsOfKind-prop, AreChangesOfKind};

use crate::slots::Slot;
use crate::{
    Header, Lines, Meanings, Names, Objects, RefChange, References, Store, StoreError, Target,
    What, conflict, maps, sharing, slots,
};
use gx_hash::{Bytes, HashKind, NoMemory, ObjectId};
use gx_object::Kind;
use gx_rules::FullName;
use std::alloc::Global;
use std::collections::BTreeMap;

/// A store in memory, for tests and for runs without a folder. Tests can make its calls fail.
///
/// ```
/// let mut store = Memory::new(alloc, HashKind::Sha1)?;
/// let id = object_id(HashKind::Sha1, b"blob", b"hello world");
/// store.write(alloc, id, Kind::Blob, b"hello world")?;
/// let is_stored = store.exists(alloc, &id)?;
/// ```
#[derive(Drop)]
pub struct Memory {
    hash: HashKind,
    objects: BTreeMap<ObjectId, (Kind, Bytes)>,
    slots: BTreeMap<Bytes, Slot>,
    ghost kinds: { AreRefsOfKind hash (refs_of slots) } by { AreRefsOfKind-prop hash (refs_of slots) },
    broken_objects: Vec<ObjectId>,
    broken_names: Vec<FullName>,
    is_index_broken: bool,
    is_listing_broken: bool,
    /// The calls of `write` and `apply` so far.
    calls: u64,
    /// Which of these calls fail, counted from 1.
    failing: Vec<u64>,
    faults: u64,
}

impl Memory {
    ghost use Rattle.std.specs.Prelude.{IsErr, IsErrOf, IsTrue};
    ghost use Rattle.gx_store.specs.Memory.{memory_state};
    ghost use Rattle.gx_store.specs.State.{IfFault, IsUnreadable, stored};
    ghost use Rattle.gx_store.specs.Change.{applied, HaveDistinctNames};
    ghost use Rattle.gx_store.specs.Calls.{calls_of, no_calls, is_due, counted, with_due, is_fault};
    ghost use Rattle.gx_store.specs.declared.error.What.TheVariants as part;
    ghost use Rattle.gx_store.specs.declared.error.StoreError.TheVariants.{NoMemory as no_memory};
    ghost use Rattle.gx_store.specs.Breaks.{Fails, fresh, with_broken_object, with_broken_name, with_broken_index, with_broken_listing, with_object_put};

    /// A store of a new repository: without objects, and with a `HEAD` whose branch is not there yet.
    #[tactic(auto, using(crate::proofs::KindLemmas::fresh_of_kind), unfolding(crate::specs::Memory::memory_state))]
    pub fn new(alloc: Global, hash: HashKind) -> Result<Memory, NoMemory>
        ensures state { IfOk result (λ store. memory_state store ≡ fresh hash) }
        ensures calls { IfOk result (λ store. calls_of store ≡ no_calls) }
    {
        Ok(Memory {
            hash,
            objects: BTreeMap::new(alloc),
            slots: slots::start(alloc)?,
            broken_objects: Vec::new(alloc),
            broken_names: Vec::new(alloc),
            is_index_broken: false,
            is_listing_broken: false,
            calls: 0,
            failing: Vec::new(alloc),
            faults: 0,
        })
    }

    /// From now on the object can't be read.
    #[tactic(auto, unfolding(crate::specs::Memory::memory_state))]
    pub fn break_object(&mut self, id: ObjectId) -> Result<(), NoMemory>
        ensures ok { OnOk result (memory_state self.new ≡ with_broken_object id (memory_state self.old)) }
        ensures err { OnErr result (memory_state self.new ≡ memory_state self.old) }
        ensures calls { calls_of self.new ≡ calls_of self.old }
    {
        self.broken_objects.push(id)?;
        Ok(())
    }

    /// From now on the reference and its log can't be read.
    #[tactic(auto, unfolding(crate::specs::Memory::memory_state))]
    pub fn break_name(&mut self, name: FullName) -> Result<(), NoMemory>
        ensures ok { OnOk result (memory_state self.new ≡ with_broken_name name (memory_state self.old)) }
        ensures err { OnErr result (memory_state self.new ≡ memory_state self.old) }
        ensures calls { calls_of self.new ≡ calls_of self.old }
    {
        self.broken_names.push(name)?;
        Ok(())
    }

    /// From now on objects can't be counted, and ids not be compared with all others.
    #[tactic(auto, unfolding(crate::specs::Memory::memory_state))]
    pub fn break_index(&mut self)
        ensures state { memory_state self.new ≡ with_broken_index (memory_state self.old) }
        ensures calls { calls_of self.new ≡ calls_of self.old }
    {
        self.is_index_broken = true;
    }

    /// From now on names can't be listed.
    #[tactic(auto, unfolding(crate::specs::Memory::memory_state))]
    pub fn break_listing(&mut self)
        ensures state { memory_state self.new ≡ with_broken_listing (memory_state self.old) }
        ensures calls { calls_of self.new ≡ calls_of self.old }
    {
        self.is_listing_broken = true;
    }

    /// From now on there are these bytes at the id, whatever was there, and whatever the id is the digest of.
    #[tactic(auto, unfolding(crate::specs::Memory::memory_state))]
    pub fn put_raw(&mut self, id: ObjectId, kind: Kind, bytes: &[u8]) -> Result<(), NoMemory>
        ensures ok { OnOk result (memory_state self.new
            ≡ with_object_put id (kind, bytes.now) (memory_state self.old)) }
        ensures err { OnErr result (memory_state self.new ≡ memory_state self.old) }
        ensures calls { calls_of self.new ≡ calls_of self.old }
    {
        let bytes = Bytes::from_slice(*self.broken_objects.allocator(), bytes)?;
        maps::put_object(&mut self.objects, id, kind, bytes)
    }

    /// The nth of the calls of `write` and `apply` fails and changes nothing. They are counted from 1, since the start.
    #[tactic(auto, unfolding(crate::specs::Memory::memory_state))]
    pub fn fail_write(&mut self, nth: u64) -> Result<(), NoMemory>
        ensures state { memory_state self.new ≡ memory_state self.old }
        ensures ok { OnOk result (calls_of self.new ≡ with_due nth (calls_of self.old)) }
        ensures err { OnErr result (calls_of self.new ≡ calls_of self.old) }
    {
        self.failing.push(nth)?;
        Ok(())
    }

    /// How many calls failed to change the store.
    #[tactic(auto, unfolding(crate::specs::Memory::memory_state))]
    pub fn fault_count(&self) -> u64
        ensures { result ≡ (memory_state self.now).faults }
    {
        self.faults
    }

    /// A fault where tests have broken the object.
    #[tactic(auto, unfolding(crate::specs::Memory::memory_state))]
    fn check_object(&self, id: &ObjectId) -> Result<(), StoreError>
        ensures fault { IfFault result (IsUnreadable (memory_state self.now) (part.Object id.now)) }
        ensures broken { is_fault result ≡ (memory_state self.now).unreadable (part.Object id.now) }
        ensures memory { IsErrOf result no_memory → ⊥ }
    {
        if self.broken_objects.contains(id) {
            return Err(StoreError::Fault {
                what: What::Object(*id),
            });
        }
        Ok(())
    }

    /// A fault where tests have broken the name.
    #[tactic(auto, unfolding(crate::specs::Memory::memory_state))]
    fn check_name(&self, name: &FullName) -> Result<(), StoreError>
        ensures fault { IfFault result (IsUnreadable (memory_state self.now) (part.Name name.now)) }
        ensures broken { IsTrue ((memory_state self.now).unreadable (part.Name name.now)) → IsErr result }
    {
        if self.broken_names.contains(name) {
            return Err(StoreError::Fault {
                what: What::Name(name.try_clone()?),
            });
        }
        Ok(())
    }

    /// A fault where tests have broken the index.
    #[tactic(auto, unfolding(crate::specs::Memory::memory_state))]
    fn check_index(&self) -> Result<(), StoreError>
        ensures fault { IfFault result (IsUnreadable (memory_state self.now) part.Index) }
        ensures broken { is_fault result ≡ (memory_state self.now).unreadable part.Index }
        ensures memory { IsErrOf result no_memory → ⊥ }
    {
        if self.is_index_broken {
            return Err(StoreError::Fault { what: What::Index });
        }
        Ok(())
    }

    /// A fault where tests have broken the listing.
    #[tactic(auto, unfolding(crate::specs::Memory::memory_state))]
    fn check_listing(&self) -> Result<(), StoreError>
        ensures fault { IfFault result (IsUnreadable (memory_state self.now) part.Listing) }
        ensures broken { is_fault result ≡ (memory_state self.now).unreadable part.Listing }
        ensures memory { IsErrOf result no_memory → ⊥ }
    {
        if self.is_listing_broken {
            return Err(StoreError::Fault {
                what: What::Listing,
            });
        }
        Ok(())
    }

    /// Counts a call, and tells whether it is one that fails. If so, the fault is counted too.
    #[tactic(auto, unfolding(crate::specs::Memory::memory_state))]
    fn fails_now(&mut self) -> bool
        ensures fails { Fails result (memory_state self.old) (memory_state self.new) }
        ensures due { result ≡ is_due (calls_of self.old) }
        ensures calls { calls_of self.new ≡ counted (calls_of self.old) }
        ensures hash { (memory_state self.new).hash ≡ (memory_state self.old).hash }
    {
        self.calls = self.calls.saturating_add(1);
        let fails = self.failing.contains(&self.calls);
        if fails {
            self.faults = self.faults.saturating_add(1);
        }
        fails
    }

    /// Stores an object, unless its id is there.
    #[tactic(auto, unfolding(crate::specs::Memory::memory_state))]
    fn store(
        &mut self,
        alloc: Global,
        id: ObjectId,
        kind: Kind,
        bytes: &[u8],
    ) -> Result<(), NoMemory>
        ensures ok { OnOk result (memory_state self.new ≡ stored id (kind, bytes.now) (memory_state self.old)) }
        ensures err { OnErr result (memory_state self.new ≡ memory_state self.old) }
        ensures calls { calls_of self.new ≡ calls_of self.old }
    {
        maps::add_object(&mut self.objects, alloc, id, kind, bytes)
    }

    /// Makes all the changes, or none.
    #[tactic(auto, unfolding(crate::specs::Memory::memory_state))]
    fn change(&mut self, alloc: Global, changes: &[RefChange]) -> Result<(), NoMemory>
        requires names { HaveDistinctNames changes.now }
        requires kinds { AreChangesOfKind (memory_state self.old).hash changes.now }
        ensures ok { OnOk result (memory_state self.new ≡ applied changes.now (memory_state self.old)) }
        ensures err { OnErr result (memory_state self.new ≡ memory_state self.old) }
        ensures calls { calls_of self.new ≡ calls_of self.old }
    {
        slots::change(alloc, &mut self.slots, changes)
    }
}

impl Meanings for Memory {
    ghost use Rattle.gx_store.specs.Memory.{memory_state};

    ghost state = { memory_state };
}

#[tactic(auto, unfolding(crate::specs::Memory::memory_state))]
impl Objects for Memory {
    ghost use Rattle.std.specs.Prelude.{IfSome, IsErrOf, option_map};
    ghost use Rattle.std.specs.FinMap.{get, contains_key, len};
    ghost use Rattle.gx_hash.specs.ObjectId.{object_id};
    ghost use Rattle.gx_object.specs.Kind.{kind_name};
    ghost use Rattle.gx_store.specs.Memory.{memory_state};
    ghost use Rattle.gx_store.specs.Headers.{header_of};
    ghost use Rattle.gx_store.specs.Sharing.{IsLongestShared};
    ghost use Rattle.gx_store.specs.State.{Becomes, HasCause, IfFault, IsUnreadable, stored};
    ghost use Rattle.gx_store.specs.Calls.{calls_of, is_due, counted, is_fault};
    ghost use Rattle.gx_store.specs.declared.error.What.TheVariants as part;
    ghost use Rattle.gx_store.specs.declared.error.StoreError.TheVariants.{NoMemory as no_memory};

    fn hash_kind(&self) -> HashKind {
        self.hash
    }

    fn read(&self, _alloc: Global, id: &ObjectId) -> Result<Option<(Kind, Bytes)>, StoreError>
        ensures found { IfOk result (λ found. IfSome (memory_state self.now).content (λ content.
            found ≡ get content id.now)) }
        ensures fault { IfFault result (IsUnreadable (memory_state self.now) (part.Object id.now)) }
        ensures broken { is_fault result ≡ (memory_state self.now).unreadable (part.Object id.now) }
    {
        self.check_object(id)?;
        Ok(maps::object_at(&self.objects, id)?)
    }

    fn header(&self, _alloc: Global, id: &ObjectId) -> Result<Option<Header>, StoreError>
        ensures found { IfOk result (λ found. IfSome (memory_state self.now).content (λ content.
            found ≡ option_map header_of (get content id.now))) }
        ensures fault { IfFault result (IsUnreadable (memory_state self.now) (part.Object id.now)) }
        ensures broken { is_fault result ≡ (memory_state self.now).unreadable (part.Object id.now) }
        ensures memory { IsErrOf result no_memory → ⊥ }
    {
        self.check_object(id)?;
        Ok(maps::header_at(&self.objects, id))
    }

    fn exists(&self, _alloc: Global, id: &ObjectId) -> Result<bool, StoreError>
        ensures found { IfOk result (λ found. IfSome (memory_state self.now).content (λ content.
            found ≡ contains_key content id.now)) }
        ensures fault { IfFault result (IsUnreadable (memory_state self.now) (part.Object id.now)) }
        ensures broken { is_fault result ≡ (memory_state self.now).unreadable (part.Object id.now) }
        ensures memory { IsErrOf result no_memory → ⊥ }
    {
        self.check_object(id)?;
        Ok(maps::has_object(&self.objects, id))
    }

    fn count(&self, _alloc: Global) -> Result<u64, StoreError>
        ensures found { IfOk result (λ found. IfSome (memory_state self.now).content (λ content. found ≡ len content)) }
        ensures fault { IfFault result (IsUnreadable (memory_state self.now) part.Index) }
        ensures broken { is_fault result ≡ (memory_state self.now).unreadable part.Index }
        ensures memory { IsErrOf result no_memory → ⊥ }
    {
        self.check_index()?;
        Ok(maps::count(&self.objects))
    }

    fn longest_shared(&self, _alloc: Global, id: &ObjectId) -> Result<usize, StoreError>
        ensures found { IfOk result (λ found. IfSome (memory_state self.now).content (λ content.
            IsLongestShared content id.now found)) }
        ensures fault { IfFault result (IsUnreadable (memory_state self.now) part.Index) }
        ensures broken { is_fault result ≡ (memory_state self.now).unreadable part.Index }
        ensures memory { IsErrOf result no_memory → ⊥ }
    {
        self.check_index()?;
        Ok(sharing::longest_shared(&self.objects, id))
    }

    #[tactic(auto, using(crate::proofs::Becoming::becomes))]
    fn write(
        &mut self,
        alloc: Global,
        id: ObjectId,
        kind: Kind,
        bytes: &[u8],
    ) -> Result<(), StoreError>
        requires { id ≡ object_id (memory_state self.old).hash (kind_name kind) bytes.now }
        ensures ok { OnOk result (Becomes
            (stored id (kind, bytes.now) (memory_state self.old)) (memory_state self.new)) }
        ensures err { OnErr result (Becomes (memory_state self.old) (memory_state self.new)) }
        ensures fault { IfFault result (HasCause (memory_state self.old) (memory_state self.new)) }
        ensures due { is_fault result ≡ is_due (calls_of self.old) }
        ensures calls { calls_of self.new ≡ counted (calls_of self.old) }
    {
        if self.fails_now() {
            return Err(StoreError::Fault { what: What::Write });
        }
        Ok(self.store(alloc, id, kind, bytes)?)
    }
}

#[tactic(auto, unfolding(crate::specs::Memory::memory_state))]
impl References for Memory {
    ghost use Rattle.std.specs.Prelude.{IfSome, IfNone, IsErr, IsErrOf, IsSome, IsTrue, filter, nat_eq};
    ghost use Rattle.std.specs.List.{starts_with};
    ghost use Rattle.std.specs.FinMap.{get, contains_key, keys};
    ghost use Rattle.gx_store.specs.Memory.{memory_state};
    ghost use Rattle.gx_store.specs.Conflict.{Conflict, IsFree};
    ghost use Rattle.gx_store.specs.Listing.{IsListing};
    ghost use Rattle.gx_store.specs.Kinds.{IsTargetOfKind, AreLinesOfKind};
    ghost use Rattle.gx_store.specs.State.{Becomes, HasCause, IfFault, IsUnreadable};
    ghost use Rattle.gx_store.specs.declared.error.What.TheVariants as part;
    ghost use Rattle.gx_store.specs.Change.{applied, HaveDistinctNames, AfterFault};
    ghost use Rattle.gx_store.specs.Calls.{calls_of, is_due, counted, is_fault};
    ghost use Rattle.gx_store.specs.declared.error.StoreError.TheVariants.{NoMemory as no_memory};

    fn find(&self, _alloc: Global, name: &FullName) -> Result<Option<Target>, StoreError>
        ensures found { IfOk result (λ found. IfSome (memory_state self.now).references (λ refs.
            found ≡ get refs.targets name.now)) }
        ensures kind { IfOk result (λ found. IfSome found (IsTargetOfKind (memory_state self.now).hash)) }
        ensures fault { IfFault result (IsUnreadable (memory_state self.now) (part.Name name.now)) }
        ensures broken { IsTrue ((memory_state self.now).unreadable (part.Name name.now)) → IsErr result }
    {
        self.check_name(name)?;
        Ok(slots::target_at(&self.slots, name.bytes())?)
    }

    fn log(&self, alloc: Global, name: &FullName) -> Result<Option<Lines>, StoreError>
        ensures found { IfOk result (λ found. IfSome (memory_state self.now).references (λ refs.
            found ≡ get refs.logs name.now)) }
        ensures kind { IfOk result (λ found. IfSome found (AreLinesOfKind (memory_state self.now).hash)) }
        ensures fault { IfFault result (IsUnreadable (memory_state self.now) (part.Name name.now)) }
        ensures broken { IsTrue ((memory_state self.now).unreadable (part.Name name.now)) → IsErr result }
    {
        self.check_name(name)?;
        Ok(slots::log_at(alloc, &self.slots, name.bytes())?)
    }

    fn log_exists(&self, _alloc: Global, name: &FullName) -> Result<bool, StoreError>
        ensures found { IfOk result (λ found. IfSome (memory_state self.now).references (λ refs.
            found ≡ contains_key refs.logs name.now)) }
        ensures fault { IfFault result (IsUnreadable (memory_state self.now) (part.Name name.now)) }
        ensures broken { IsTrue ((memory_state self.now).unreadable (part.Name name.now)) → IsErr result }
    {
        self.check_name(name)?;
        Ok(slots::has_log(&self.slots, name.bytes()))
    }

    fn find_conflict(&self, alloc: Global, name: &FullName) -> Result<Option<FullName>, StoreError>
        ensures conflict { IfOk result (λ found. IfSome found (Conflict name.now)) }
        ensures stored { IfOk result (λ found. IfSome found (λ other. IfSome (memory_state self.now).references (λ refs.
            IsSome (get refs.targets other)))) }
        ensures none { IfOk result (λ found. IfNone found (IfSome (memory_state self.now).references (λ refs.
            IsFree refs.targets name.now))) }
        ensures fault { IfFault result (IsUnreadable (memory_state self.now) part.Listing) }
        ensures broken { is_fault result ≡ (memory_state self.now).unreadable part.Listing }
    {
        self.check_listing()?;
        Ok(conflict::conflict_of(alloc, &self.slots, name)?)
    }

    fn list(&self, alloc: Global, prefix: &[u8]) -> Result<Names, StoreError>
        ensures found { IfOk result (λ names. IfSome (memory_state self.now).references (λ refs.
            names ≡ filter (λ name. starts_with nat_eq name prefix.now) (keys refs.targets))) }
        ensures listing { IfOk result (IsListing prefix.now) }
        ensures fault { IfFault result (IsUnreadable (memory_state self.now) part.Listing) }
        ensures broken { is_fault result ≡ (memory_state self.now).unreadable part.Listing }
    {
        self.check_listing()?;
        Ok(slots::names_of(alloc, &self.slots, prefix)?)
    }

    #[tactic(auto, using(crate::proofs::Becoming::becomes, crate::proofs::Becoming::after_fault))]
    fn apply(&mut self, alloc: Global, changes: &[RefChange]) -> Result<(), StoreError>
        requires names { HaveDistinctNames changes.now }
        requires kinds { AreChangesOfKind (memory_state self.old).hash changes.now }
        ensures ok { OnOk result (Becomes (applied changes.now (memory_state self.old)) (memory_state self.new)) }
        ensures no_memory { IsErrOf result no_memory → Becomes (memory_state self.old) (memory_state self.new) }
        ensures fault { IfFault result (λ fault. HasCause (memory_state self.old) (memory_state self.new) fault
            × AfterFault changes.now (memory_state self.old) (memory_state self.new)) }
        ensures whole { OnErr result (Becomes (memory_state self.old) (memory_state self.new)) }
        ensures due { is_fault result ≡ is_due (calls_of self.old) }
        ensures calls { calls_of self.new ≡ counted (calls_of self.old) }
    {
        if self.fails_now() {
            return Err(StoreError::Fault { what: What::Write });
        }
        Ok(self.change(alloc, changes)?)
    }
}

impl Store for Memory {}
