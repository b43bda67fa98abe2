//! All that a commit is to write, known before the first write.

ghost use Rattle.std.specs.Prelude.{◌≡◌, IfOk, IfErr, OnOk};
ghost use Rattle.gx_object.specs.Commit.{plain_commit_bytes};
ghost use Rattle.gx_hash.specs.ObjectIds.{has_id};
ghost use Rattle.gx_hash.specs.declared.oid.ObjectId.{ObjectId};
ghost use Rattle.gix.specs.declared.settings.Settings.{Settings};
ghost use Rattle.gix.specs.CommitRequest.{asked, HaveModuleIds};
ghost use Rattle.gix.specs.Admission.{AreWritable};
ghost use Rattle.gix.specs.Stages.{StageCauses, IsEditedBy, AreTreesOf, AreStorable, IsPlan, IdentityCauses};

use crate::base::base_of;
use crate::edits::{Edited, make_edits};
use crate::error::{lifted, of_reference};
use crate::moving::prepare_move;
use crate::request::Request;
use crate::{CommitEditsError, Settings};
use gx_edit::Output;
use gx_hash::{Bytes, NoMemory, ObjectId, ObjectIds, object_id};
use gx_object::{Kind, push_commit, unwritable_identity};
use gx_refs::Prepared;
use gx_store::{Objects, Store};
use std::alloc::Global;

/// The objects that a commit brings.
#[derive(Drop)]
pub(crate) struct NewObjects {
    /// The ids of the edits' blobs, in their order.
    pub(crate) blobs: Vec<ObjectId>,
    pub(crate) trees: Output,
    /// The bytes of the commit.
    pub(crate) commit: Bytes,
    pub(crate) id: ObjectId,
}

/// What a commit writes.
#[derive(Drop)]
pub(crate) struct Plan {
    pub(crate) objects: NewObjects,
    /// The edit of the reference.
    pub(crate) prepared: Prepared,
}

/// Goes through all stages. This reads alone.
pub(crate) fn plan_commit<S: Store>(
    alloc: Global,
    store: &S,
    settings: &Settings,
    request: &Request<'_>,
) -> Result<Plan, CommitEditsError>
    requires { HaveModuleIds (asked request.now).edits }
    ensures ok { IfOk result (IsPlan settings.now (asked request.now) (S.state store.now)) }
    ensures err { IfErr result (StageCauses settings.now (asked request.now) (S.state store.now)) }
{
    let objects = plan_objects(alloc, store, settings, request)?;
    gx_refs::laws::one_edit_meets_none();
    gx_refs::laws::a_signer_signs();
    match prepare_move(alloc, store, settings, request, objects.id) {
        Ok(prepared) => Ok(Plan { objects, prepared }),
        Err(refusal) => Err(of_reference(refusal)),
    }
}

fn plan_objects<S: Objects>(
    alloc: Global,
    store: &S,
    settings: &Settings,
    request: &Request<'_>,
) -> Result<NewObjects, CommitEditsError>
    requires { HaveModuleIds (asked request.now).edits }
    ensures ok { IfOk result (AreStorable settings.now (asked request.now) (S.state store.now)) }
    ensures err { IfErr result (StageCauses settings.now (asked request.now) (S.state store.now)) }
{
    let edited = edit_base(alloc, store, request)?;
    let trees = plan_trees(alloc, store, settings, request, &edited)?;
    check_identities(request)?;
    let commit = commit_bytes(alloc, &trees.root(), request)?;
    let id = object_id(
        store.hash_kind(),
        Kind::Commit.as_bytes(),
        commit.as_slice(),
    );
    let Edited { editor: _, blobs } = edited;
    Ok(NewObjects {
        blobs,
        trees,
        commit,
        id,
    })
}

/// The first two stages.
fn edit_base<S: Objects>(
    alloc: Global,
    store: &S,
    request: &Request<'_>,
) -> Result<Edited, CommitEditsError>
    requires { HaveModuleIds (asked request.now).edits }
    ensures ok { IfOk result (IsEditedBy (asked request.now) (S.state store.now)) }
    ensures err { (settings : Settings) → IfErr result (StageCauses settings (asked request.now) (S.state store.now)) }
{
    let base = base_of(alloc, store, request)?;
    make_edits(alloc, store, base, request.edits)
}

/// The third stage: the trees, the names in them, and what their entries name.
fn plan_trees<S: Objects>(
    alloc: Global,
    store: &S,
    settings: &Settings,
    request: &Request<'_>,
    edited: &Edited,
) -> Result<Output, CommitEditsError>
    requires { IsEditedBy (asked request.now) (S.state store.now) edited.now }
    ensures ok { IfOk result (AreTreesOf settings.now (asked request.now) (S.state store.now)) }
    ensures err { IfErr result (StageCauses settings.now (asked request.now) (S.state store.now)) }
{
    let blobs = ids_of(alloc, &edited.blobs)?;
    let trees = match edited.editor.plan() {
        Ok(trees) => trees,
        Err(refusal) => return Err(lifted(refusal)),
    };
    match trees.check(alloc, store, settings.protect, &blobs) {
        Ok(()) => Ok(trees),
        Err(refusal) => Err(lifted(refusal)),
    }
}

/// The ids as a set.
fn ids_of(alloc: Global, ids: &[ObjectId]) -> Result<ObjectIds, NoMemory>
    ensures { IfOk result (λ set. (id : ObjectId) → has_id set id ≡ has_id ids.now id) }
{
    let mut set = ObjectIds::new(alloc);
    for id in ids {
        set.insert(*id)?;
    }
    Ok(set)
}

/// The fourth stage: who made the commit.
fn check_identities(request: &Request<'_>) -> Result<(), CommitEditsError>
    ensures ok { OnOk result (AreWritable (asked request.now)) }
    ensures err { IfErr result (IdentityCauses (asked request.now)) }
{
    match unwritable_identity(request.author, request.committer) {
        None => Ok(()),
        Some(field) => Err(CommitEditsError::WriteObject { field }),
    }
}

pub(crate) fn commit_bytes(
    alloc: Global,
    tree: &ObjectId,
    request: &Request<'_>,
) -> Result<Bytes, NoMemory>
    ensures { IfOk result (λ bytes. bytes
        ≡ plain_commit_bytes tree.now (asked request.now).parents (asked request.now).author
        (asked request.now).committer (asked request.now).message) }
{
    let mut out = Vec::new(alloc);
    push_commit(
        &mut out,
        tree,
        request.parents,
        request.author,
        request.committer,
        request.message,
    )?;
    Ok(Bytes::from_vec(out))
}
