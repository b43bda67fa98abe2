//! Trees that are to be written, known before the first of them is stored.
//!
//! A plan is a value: it is checked, and the same plan is stored. So each tree is encoded and hashed once, whatever
//! is asked of it before.

mod check;
mod needed;
mod store;

use crate::EditError;
use check::{check_each_name, check_names};
use gx_hash::{Bytes, HashKind, ObjectId, ObjectIds};
use gx_object::Entry;
use gx_rules::Protect;
use gx_store::{Objects, StoreError};
use needed::{check_needed, ids_of};
use std::alloc::Global;
use std::marker::Model;
use store::{check_stored, store_trees};

/// A tree that is to be written.
#[derive(Drop)]
pub(crate) struct PlannedTree {
    pub(crate) id: ObjectId,
    pub(crate) bytes: Bytes,
}

/// What is to be written: trees, each after those that it names, the entries in them, and the root.
#[derive(Drop)]
pub struct Output {
    hash: HashKind,
    trees: Vec<PlannedTree>,
    entries: Vec<Entry>,
    root: ObjectId,
}

impl Model for Output {
    ghost use Rattle.gx_edit.specs.Output.{Output};
    ghost use Rattle.gx_edit.specs.Planning.{ArePlanned, objects_of};

    ghost Value = { Output };

    ghost view = { λ o. record {
      hash = o.hash;
      trees = objects_of o.trees.items;
      entries = o.entries.items;
      root = o.root;
    } };

    ghost invariant = { λ o. ArePlanned o.hash o.trees.items };
}

impl Output {
    ghost use Rattle.std.specs.Prelude.{◌≡◌, ◌<◌, ℕ, length, take, IfOk, IfErr, OnOk, OnErr};
    ghost use Rattle.gx_store.specs.State.{Becomes, HasCause, IfFault, all_stored};
    ghost use Rattle.gx_edit.specs.CheckOutput.{MayBeWritten, CheckCauses};
    ghost use Rattle.gx_edit.specs.Planning.{ArePlanned, objects_of};
    ghost use Rattle.gx_edit.specs.Writing.{Writes, WriteCauses};

    pub(crate) fn new(
        hash: HashKind,
        trees: Vec<PlannedTree>,
        entries: Vec<Entry>,
        root: ObjectId,
    ) -> Output
        requires { ArePlanned hash trees.items }
        ensures { result ≡ record {
          hash = hash;
          trees = objects_of trees.items;
          entries = entries.items;
          root = root;
        } }
    {
        Output {
            hash,
            trees,
            entries,
            root,
        }
    }

    /// The id of the tree that all others lie below.
    pub fn root(&self) -> ObjectId
        ensures { result ≡ self.now.root }
    {
        self.root
    }

    /// Whether the trees may be written with protections once objects of the given ids are stored. This writes
    /// nothing, and looks for an object only where an entry names neither one of the given ids nor one of the trees.
    ///
    /// # Errors
    /// `InvalidFilename` and `MissingObject`; `Store` and `NoMemory`.
    pub fn check<S: Objects>(
        &self,
        alloc: Global,
        store: &S,
        protect: Protect,
        given: &ObjectIds,
    ) -> Result<(), EditError>
        ensures ok { OnOk result (MayBeWritten self.now protect given.now (S.state store.now)) }
        ensures causes { IfErr result (CheckCauses self.now protect given.now (S.state store.now)) }
    {
        check_each_name(&self.entries, protect)?;
        let trees = ids_of(alloc, &self.trees)?;
        check_needed(alloc, store, &self.entries, given, &trees)
    }

    /// Stores the trees, each where it is absent. After an error the first of them are stored, and one at least is
    /// left.
    pub fn store<S: Objects>(&self, alloc: Global, store: &mut S) -> Result<(), StoreError>
        requires { self.now.hash ≡ (S.state store.old).hash }
        ensures ok { OnOk result (Becomes (all_stored self.now.trees (S.state store.old)) (S.state store.new)) }
        ensures leaves { OnErr result ((n : ℕ) × (n < length self.now.trees)
            × Becomes (all_stored (take n self.now.trees) (S.state store.old)) (S.state store.new)) }
        ensures fault { IfFault result (HasCause (S.state store.old) (S.state store.new)) }
    {
        store_trees(alloc, store, &self.trees)
    }

    /// Stores the trees, each where it is absent, and answers the root.
    ///
    /// With `protect`, entries whose names may not be checked out are refused before anything is written, and
    /// entries, other than submodules, that name nothing are refused once the trees are stored.
    ///
    /// # Errors
    /// `InvalidFilename` and `MissingObject` with `protect` alone; `Store` and `NoMemory`.
    pub fn write<S: Objects>(
        &self,
        alloc: Global,
        store: &mut S,
        protect: Option<Protect>,
    ) -> Result<ObjectId, EditError>
        requires { self.now.hash ≡ (S.state store.old).hash }
        ensures ok { IfOk result (λ id. Writes self.now protect (S.state store.old) id (S.state store.new)) }
        ensures causes { IfErr result (WriteCauses self.now protect (S.state store.old) (S.state store.new)) }
    {
        check_names(&self.entries, protect)?;
        store_trees(alloc, store, &self.trees)?;
        check_stored(alloc, store, &self.entries, protect)?;
        Ok(self.root)
    }
}
