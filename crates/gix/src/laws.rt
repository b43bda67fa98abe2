//! What the definitions of commits say of one another, for proofs. The functions do nothing.

ghost use Rattle.std.specs.Prelude.{◌≡◌, ℕ, List, ◌∷◌, Option, Some, Result, Ok, IfOk, IfErr, Contains, codes, true};
ghost use Rattle.gx_hash.specs.HashKind.{kind_of};
ghost use Rattle.gx_hash.specs.declared.oid.ObjectId.{ObjectId};
ghost use Rattle.gx_store.specs.State.{StoreState};
ghost use Rattle.gx_edit.specs.Output.{Output};
ghost use Rattle.gix.specs.declared.settings.Settings.{Settings};
ghost use Rattle.gix.specs.declared.error.CommitEditsError.{CommitEditsError};
ghost use Rattle.gix.specs.declared.error.CommitEditsError.TheVariants.{NoMemory as no_memory};
ghost use Rattle.gix.specs.CommitEdits.{Commits, Leaves};
ghost use Rattle.gix.specs.CommitRequest.{CommitRequest};
ghost use Rattle.gx_object.specs.declared.signature.Signature.{Signature};
ghost use Rattle.gx_refs.specs.EditCauses.{MayBeMade};
ghost use Rattle.gx_refs.specs.declared.edit.RefEdit.{RefEdit};
ghost use Rattle.gix.specs.EditReferences.{edit_references_meaning, terms_in};
ghost use Rattle.gix.specs.View.{State, whole, view_of};
ghost use Rattle.gix.specs.Base.{IsMapOf};
ghost use Rattle.gix.specs.Trees.{Makes};
ghost use Rattle.gix.specs.Admission.{IsAdmitted, IsValidCommit};
ghost use Rattle.gix.specs.Causes.{Cause, CommitEditsCauses, IsFaultless};
ghost use Rattle.gix.specs.Asking.{asks};
ghost use Rattle.gix.specs.Held.{WhereTold};
ghost use Rattle.gix.specs.ListingLaws.{ListsItsOwnReferences};
ghost use Rattle.gix.specs.Logs.{log_query};
ghost use Rattle.gix.specs.Machine.{Accepts, commit_edits_meaning};
ghost use Rattle.gix.specs.Meaning.{IsLawful, Admits};
ghost use Rattle.gix.specs.References.{is_relative_path, references_query};
ghost use Rattle.gix.specs.Space.{clear_namespace_meaning, set_namespace_meaning};
ghost use Rattle.gix.specs.LawsBelow.{LawsBelow};
ghost use Rattle.gix.specs.History.{Call, CallStep, History, IsEmpty, IsLine, IsWholeId, line_map};

use gx_edit::view_laws;
use gx_hash::ObjectId;

/// The laws of the crates below that those here rest on.
fn laws_below()
    ensures { LawsBelow }
{
    view_laws::load_exists();
    view_laws::empty_view_stands();
    view_laws::read_view_stands();
    view_laws::edited_view_stands();
    view_laws::loaded_trees_have_maps();
    view_laws::view_is_written_once();
    view_laws::written_entries_stand();
    view_laws::represented_map_is_plain();
    view_laws::edited_map_is_plain();
    view_laws::spelled_view_has_a_directory();
    view_laws::written_root_is_the_map();
    view_laws::stored_output_represents();
    view_laws::written_view_has_the_map();
    gx_edit::laws::map_is_unique();
    gx_edit::laws::represented_tree_has_a_map();
    gx_store::laws::writing_adds();
    gx_store::laws::added_is_found();
    gx_store::laws::found_stays();
    gx_refs::laws::edits_that_may_be_made_are_not_refused();
}

/// A request that may be made has no cause to be refused.
pub fn admitted_has_no_cause()
    ensures { (settings : Settings) (r : CommitRequest) (state : State) (output : Output)
        (e : CommitEditsError)
        → IsAdmitted settings r (whole state) output → Cause settings r (whole state) e → ⊥ }
{
    laws_below();
}

/// A valid request may be made.
pub fn valid_is_admitted()
    ensures { (settings : Settings) (r : CommitRequest) (state : State) (output : Output)
        → IsValidCommit settings r state → Makes r (whole state) output
        → IsAdmitted settings r (whole state) output }
{
    laws_below();
}

/// A valid request is refused for lack of memory alone, where a store tells its state, can be read, and counts no
/// fault.
pub fn valid_is_made()
    ensures { (settings : Settings) (r : CommitRequest) (state : State) (old new : StoreState) (e : CommitEditsError)
        → view_of old ≡ whole state → IsFaultless old new → IsValidCommit settings r state
        → CommitEditsCauses settings r old new e → e ≡ no_memory }
{
    laws_below();
}

/// From an empty repository on, the path map of each commit that was accepted, or that a refused request left stored,
/// is that of the edits along its first-parent line. There is such a line that begins with the commit's own request,
/// and of every line this holds.
pub fn map_of_first_parent_line()
    ensures accepted { (settings : Settings) (start end : State) (calls : List Call) → IsEmpty start
        → History settings start calls end → (call : Call) (id : ObjectId) → Contains calls call → call.answer ≡ Ok id
        → (earlier : List CommitRequest) × IsLine calls id (call.request ∷ earlier)
        × IsMapOf end.hash end.content id (line_map end.hash (call.request ∷ earlier)) }
    ensures stored { (settings : Settings) (start end : State) (calls : List Call) → IsEmpty start
        → History settings start calls end → (call : Call) (id : ObjectId) → Contains calls call → call.stored ≡ Some id
        → (earlier : List CommitRequest) × IsLine calls id (call.request ∷ earlier)
        × IsMapOf end.hash end.content id (line_map end.hash (call.request ∷ earlier)) }
    ensures every { (settings : Settings) (start end : State) (calls : List Call) → IsEmpty start
        → History settings start calls end → (id : ObjectId) (line : List CommitRequest) → IsLine calls id line
        → IsMapOf end.hash end.content id (line_map end.hash line) }
{
    laws_below();
}

/// A commit that was made is accepted by the repository machine, where the store tells its state.
pub fn commit_is_accepted()
    ensures { (settings : Settings) (r : CommitRequest) (old new : StoreState) (id : ObjectId)
        → Commits settings r old id new
        → WhereTold (λ before after. Accepts settings r before id after) old new }
{
    laws_below();
}

/// What `commit_edits` promises of a call, over a store that tells its state before and after, makes the call a step of
/// a history.
pub fn call_is_a_step()
    ensures { (settings : Settings) (r : CommitRequest) (old new : StoreState) (before after : State)
        (answer : Result ObjectId CommitEditsError)
        → view_of old ≡ whole before → view_of new ≡ whole after → IfOk answer (λ id. Commits settings r old id new)
        → IfErr answer (Leaves settings r old new)
        → (stored : Option ObjectId)
        × CallStep settings (record { request = r; answer = answer; stored = stored }) before after }
{
    laws_below();
}

/// Every id of a program is whole, so that a history's premises ask of ids only that they are of the repository's kind.
pub fn ids_are_whole(id: &ObjectId)
    ensures { IsWholeId (kind_of id.now) id.now }
{
    gx_hash::laws::spellings_read_back(id);
    gx_hash::laws::id_has_digits(id);
}

/// A commit of edits is lawful.
pub fn commit_edits_is_lawful()
    ensures { (r : CommitRequest) → IsLawful (commit_edits_meaning r) }
{}

/// A valid commit is not refused by the repository machine.
pub fn valid_commit_is_not_refused()
    ensures { (r : CommitRequest) → Admits (commit_edits_meaning r) (λ settings state. IsValidCommit settings r state) }
{
    laws_below();
}

/// To read a log is lawful.
pub fn log_is_lawful()
    ensures { (name : List ℕ) → IsLawful (asks (log_query name)) }
{}

/// To list references is lawful.
pub fn references_is_lawful()
    ensures { (prefix : List ℕ) → IsLawful (asks (references_query prefix)) }
{}

/// Where the references of a namespace are the same, so is what is listed of them: there is one list.
pub fn references_are_of_their_namespace()
    ensures { ListsItsOwnReferences }
{
    gx_refs::laws::listing_is_of_its_namespace();
}

/// To edit references is lawful.
pub fn edit_references_is_lawful()
    ensures { (committer : Option Signature) (edits : List RefEdit)
        → IsLawful (edit_references_meaning committer edits) }
{}

/// Edits of references that may be made are not refused by the repository machine.
pub fn edits_that_may_be_made_are_not_refused()
    ensures { (committer : Option Signature) (edits : List RefEdit)
        → Admits (edit_references_meaning committer edits)
        (λ settings state. MayBeMade (terms_in settings committer) (Some state.references) edits) }
{
    gx_refs::laws::edits_that_may_be_made_are_not_refused();
}

/// The prefix of all references but such as `HEAD` is a relative path.
pub fn refs_is_a_relative_path()
    ensures { is_relative_path (codes "refs/") ≡ true }
{}

/// To set or clear the namespace is lawful.
pub fn namespace_is_lawful()
    ensures set { (name : List ℕ) → IsLawful (set_namespace_meaning name) }
    ensures cleared { IsLawful clear_namespace_meaning }
{}
