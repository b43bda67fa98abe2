ghost use Rattle.std.specs.Prelude.{◌≡◌, IfOk, IfSome, IfNone, OnOk, OnErr, IsErrOf, IsSome, filter, nat_eq, option_map};
ghost use Rattle.std.specs.List.{starts_with};
ghost use Rattle.std.specs.FinMap.{get, contains_key, keys, len};
ghost use Rattle.gx_hash.specs.ObjectId.{object_id};
ghost use Rattle.gx_object.specs.Kind.{kind_name};
ghost use Rattle.gx_store.specs.Headers.{header_of};
ghost use Rattle.gx_store.specs.State.{StoreState, Becomes, HasCause, IfFault, IsUnreadable, stored};
ghost use Rattle.gx_store.specs.Kinds.{AreChangesOfKind, IsTargetOfKind, AreLinesOfKind};
ghost use Rattle.gx_store.specs.Change.{applied, HaveDistinctNames, AfterFault};
ghost use Rattle.gx_store.specs.Conflict.{Conflict, IsFree};
ghost use Rattle.gx_store.specs.Listing.{IsListing};
ghost use Rattle.gx_store.specs.Sharing.{IsLongestShared};
ghost use Rattle.gx_store.specs.declared.error.What.TheVariants as part;
ghost use Rattle.gx_store.specs.declared.error.StoreError.TheVariants.{NoMemory as no_memory};

use crate::{Lines, Names, RefChange, StoreError, Target};
use gx_hash::{Bytes, HashKind, ObjectId};
use gx_object::Kind;
use gx_rules::FullName;
use std::alloc::Global;

/// The state of a store: its objects, its references and logs, and how it fails. Both traits speak of one state, so a
/// contract also says that the part of the other trait is unchanged.
pub trait Meanings {
    ghost state: { Self → StoreState };
}

/// What is known of an object without its bytes.
#[derive(Clone, Copy, Debug, PartialEq, Eq)]
pub struct Header {
    pub kind: Kind,
    /// In bytes.
    pub size: u64,
}

/// A store of objects, by their ids. Objects are never changed or removed.
pub trait Objects: Meanings {
    /// The kind of every id in the store.
    fn hash_kind(&self) -> HashKind
        ensures { result ≡ (Self.state self.now).hash };

    /// The object at an id. The empty tree is found only where it was written.
    fn read(&self, alloc: Global, id: &ObjectId) -> Result<Option<(Kind, Bytes)>, StoreError>
        ensures found { IfOk result (λ found. IfSome (Self.state self.now).content (λ content.
            found ≡ get content id.now)) }
        ensures fault { IfFault result (IsUnreadable (Self.state self.now) (part.Object id.now)) };

    /// The kind and the size of the object at an id.
    fn header(&self, alloc: Global, id: &ObjectId) -> Result<Option<Header>, StoreError>
        ensures found { IfOk result (λ found. IfSome (Self.state self.now).content (λ content.
            found ≡ option_map header_of (get content id.now))) }
        ensures fault { IfFault result (IsUnreadable (Self.state self.now) (part.Object id.now)) };

    /// Whether there is an object at an id.
    fn exists(&self, alloc: Global, id: &ObjectId) -> Result<bool, StoreError>
        ensures found { IfOk result (λ found. IfSome (Self.state self.now).content (λ content.
            found ≡ contains_key content id.now)) }
        ensures fault { IfFault result (IsUnreadable (Self.state self.now) (part.Object id.now)) };

    /// How many objects there are.
    fn count(&self, alloc: Global) -> Result<u64, StoreError>
        ensures found { IfOk result (λ found. IfSome (Self.state self.now).content (λ content. found ≡ len content)) }
        ensures fault { IfFault result (IsUnreadable (Self.state self.now) part.Index) };

    /// The greatest number of first hex digits that the id shares with another id of an object, 0 without another.
    fn longest_shared(&self, alloc: Global, id: &ObjectId) -> Result<usize, StoreError>
        ensures found { IfOk result (λ found. IfSome (Self.state self.now).content (λ content.
            IsLongestShared content id.now found)) }
        ensures fault { IfFault result (IsUnreadable (Self.state self.now) part.Index) };

    /// Stores an object under its id, unless that is there.
    fn write(
        &mut self,
        alloc: Global,
        id: ObjectId,
        kind: Kind,
        bytes: &[u8],
    ) -> Result<(), StoreError>
        requires { id ≡ object_id (Self.state self.old).hash (kind_name kind) bytes.now }
        ensures ok { OnOk result (Becomes (stored id (kind, bytes.now) (Self.state self.old)) (Self.state self.new)) }
        ensures err { OnErr result (Becomes (Self.state self.old) (Self.state self.new)) }
        ensures fault { IfFault result (HasCause (Self.state self.old) (Self.state self.new)) };
}

/// A store of references and their logs, by full name.
pub trait References: Meanings {
    /// The target at a name.
    fn find(&self, alloc: Global, name: &FullName) -> Result<Option<Target>, StoreError>
        ensures found { IfOk result (λ found. IfSome (Self.state self.now).references (λ refs.
            found ≡ get refs.targets name.now)) }
        ensures kind { IfOk result (λ found. IfSome found (IsTargetOfKind (Self.state self.now).hash)) }
        ensures fault { IfFault result (IsUnreadable (Self.state self.now) (part.Name name.now)) };

    /// The log at a name, the oldest line first.
    fn log(&self, alloc: Global, name: &FullName) -> Result<Option<Lines>, StoreError>
        ensures found { IfOk result (λ found. IfSome (Self.state self.now).references (λ refs.
            found ≡ get refs.logs name.now)) }
        ensures kind { IfOk result (λ found. IfSome found (AreLinesOfKind (Self.state self.now).hash)) }
        ensures fault { IfFault result (IsUnreadable (Self.state self.now) (part.Name name.now)) };

    /// Whether there is a log at a name. No line of it is copied.
    fn log_exists(&self, alloc: Global, name: &FullName) -> Result<bool, StoreError>
        ensures found { IfOk result (λ found. IfSome (Self.state self.now).references (λ refs.
            found ≡ contains_key refs.logs name.now)) }
        ensures fault { IfFault result (IsUnreadable (Self.state self.now) (part.Name name.now)) };

    /// A reference that conflicts with the name: one of the two would be a directory that contains the other.
    fn find_conflict(&self, alloc: Global, name: &FullName) -> Result<Option<FullName>, StoreError>
        ensures conflict { IfOk result (λ found. IfSome found (Conflict name.now)) }
        ensures stored { IfOk result (λ found. IfSome found (λ other. IfSome (Self.state self.now).references (λ refs.
            IsSome (get refs.targets other)))) }
        ensures none { IfOk result (λ found. IfNone found (IfSome (Self.state self.now).references (λ refs.
            IsFree refs.targets name.now))) }
        ensures fault { IfFault result (IsUnreadable (Self.state self.now) part.Listing) };

    /// The names of references that begin with the prefix, in rising order of bytes. A log alone is not listed. Also a
    /// store that tells nothing gives no other names, and in that order.
    fn list(&self, alloc: Global, prefix: &[u8]) -> Result<Names, StoreError>
        ensures found { IfOk result (λ names. IfSome (Self.state self.now).references (λ refs.
            names ≡ filter (λ name. starts_with nat_eq name prefix.now) (keys refs.targets))) }
        ensures listing { IfOk result (IsListing prefix.now) }
        ensures fault { IfFault result (IsUnreadable (Self.state self.now) part.Listing) };

    /// Makes all the changes. Where memory runs out it makes none; a fault may leave each of them made or not.
    fn apply(&mut self, alloc: Global, changes: &[RefChange]) -> Result<(), StoreError>
        requires names { HaveDistinctNames changes.now }
        requires kinds { AreChangesOfKind (Self.state self.old).hash changes.now }
        ensures ok { OnOk result (Becomes (applied changes.now (Self.state self.old)) (Self.state self.new)) }
        ensures no_memory { IsErrOf result no_memory → Becomes (Self.state self.old) (Self.state self.new) }
        ensures fault { IfFault result (λ fault. HasCause (Self.state self.old) (Self.state self.new) fault
            × AfterFault changes.now (Self.state self.old) (Self.state self.new)) };
}

/// A store of both, with one count of faults.
pub trait Store: Objects + References {}
