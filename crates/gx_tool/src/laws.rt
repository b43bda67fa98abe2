//! What the end of a run says of its script, where the source tells what is left. The functions do nothing but ask laws
//! of the crates below.

ghost use Rattle.std.specs.Prelude.{◌≡◌, ◌≤◌, ◌⊎◌, ◌↔◌, ℕ, ◌+◌, List, [], ◌++◌, length, None, Some};
ghost use Rattle.gix.specs.Held.{Whole, state_of};
ghost use Rattle.gix.specs.View.{State};
ghost use Rattle.gx_script.specs.declared.request.Request.{Request};
ghost use Rattle.gx_script.specs.Script.{IsScript};
ghost use Rattle.gx_tool.specs.Completeness.{AreValidCommits, IsFaultless, IsFaultlessScene, AreValid};
ghost use Rattle.gx_tool.specs.Course.{Moment, Answers};
ghost use Rattle.gx_tool.specs.Generating.{IsGenerated, Scene};
ghost use Rattle.gx_tool.specs.CallLaws.{CallLaws};
ghost use Rattle.gx_tool.specs.ReadsOnce.{ReadsOnce};
ghost use Rattle.gx_tool.specs.Unborn.{HaveOwnIds, IsNew};

/// The laws of the language that those here rest on.
fn reads_once()
    ensures { ReadsOnce }
{
    gx_script::laws::what_is_bad_has_no_whole_request();
    gx_script::laws::no_bytes_are_no_request();
    gx_script::laws::a_script_is_read_one_way();
}

/// The laws of the calls that requests ask for.
pub(crate) fn call_laws()
    ensures { CallLaws }
{
    gix::laws::commit_edits_is_lawful();
    gix::laws::valid_commit_is_not_refused();
    gix::laws::log_is_lawful();
    gix::laws::references_is_lawful();
    gix::laws::refs_is_a_relative_path();
    gix::laws::edit_references_is_lawful();
    gix::laws::edits_that_may_be_made_are_not_refused();
}

/// The number is 8 exactly where a byte past the limit was taken.
pub fn eight_is_a_byte_past_the_limit()
    ensures { (limit : ℕ) (start now : Moment) (number : ℕ) (taken left : List ℕ) → Answers limit start now number
        → start.left ≡ Some (taken ++ left) → now.left ≡ Some left → (number ≡ 8) ↔ (length taken ≡ limit + 1) }
{}

/// The number is 0 or 1 only where the source held a script, and was read to its end.
pub fn zero_and_one_are_a_whole_script()
    ensures { (limit : ℕ) (start now : Moment) (number : ℕ) (bytes : List ℕ) → Answers limit start now number
        → start.left ≡ Some bytes → (number ≡ 0) ⊎ (number ≡ 1)
        → (now.left ≡ Some []) × ((requests : List Request) × IsScript start.held.store.hash bytes requests) }
{}

/// The number is not 2 where the source held a script.
pub fn a_script_is_not_malformed()
    ensures { (limit : ℕ) (start now : Moment) (number : ℕ) (bytes : List ℕ) (requests : List Request)
        → Answers limit start now number → start.left ≡ Some bytes → IsScript start.held.store.hash bytes requests
        → number ≡ 2 → ⊥ }
{
    reads_once();
}

/// A script within the limit is answered whole, unless memory runs out, where nothing fails.
pub fn a_script_is_answered()
    ensures { (limit : ℕ) (start now : Moment) (number : ℕ) (bytes : List ℕ) (requests : List Request)
        → Answers limit start now number → IsFaultless start now
        → start.left ≡ Some bytes → IsScript start.held.store.hash bytes requests → length bytes ≤ limit → (number ≡ 0)
        ⊎ ((number ≡ 1) ⊎ (number ≡ 5)) }
{
    reads_once();
    call_laws();
}

/// Other bytes within the limit are malformed, unless memory runs out, where nothing fails.
pub fn other_bytes_are_malformed()
    ensures { (limit : ℕ) (start now : Moment) (number : ℕ) (bytes : List ℕ) → Answers limit start now number
        → IsFaultless start now
        → start.left ≡ Some bytes → ((requests : List Request) → IsScript start.held.store.hash bytes requests → ⊥)
        → length bytes ≤ limit → (number ≡ 2) ⊎ (number ≡ 5) }
{
    call_laws();
}

/// A script within the limit of requests that are valid, each in its own state of the run, gets an `ok` for each,
/// unless memory runs out, where nothing fails and the store tells its state.
pub fn valid_requests_are_accepted()
    ensures { (limit : ℕ) (start now : Moment) (number : ℕ) (bytes : List ℕ) (requests : List Request)
        (state : State) → Answers limit start now number → IsFaultless start now
        → start.left ≡ Some bytes → IsScript start.held.store.hash bytes requests → length bytes ≤ limit
        → state_of start.held.store ≡ Some state
        → AreValid (record { settings = start.held.settings; state = state }) requests
        → (number ≡ 0) ⊎ (number ≡ 5) }
{
    reads_once();
    call_laws();
}

/// Commits of the generator that are valid, each in its own state of the run, are all made, unless memory runs out,
/// where nothing fails and the store tells its state.
pub fn valid_commits_are_generated()
    ensures { (count : ℕ) (start now : Scene) (number : ℕ) (state : State) → IsGenerated count start now number
        → IsFaultlessScene start now → state_of start.held.store ≡ Some state
        → AreValidCommits count (record { settings = start.held.settings; state = state }) 1 None
        → (number ≡ 0) ⊎ (number ≡ 5) }
{
    call_laws();
}

/// In a new repository whose objects keep their own ids all commits of the generator are made, unless memory runs out,
/// where nothing fails and the store tells its state.
pub fn commits_on_an_unborn_head_are_generated()
    ensures { (count : ℕ) (start now : Scene) (number : ℕ) (state : State) → IsGenerated count start now number
        → IsFaultlessScene start now → state_of start.held.store ≡ Some state → count ≤ 20000
        → IsNew (record { settings = start.held.settings; state = state })
        → HaveOwnIds count (record { settings = start.held.settings; state = state }) 1 None
        → (number ≡ 0) ⊎ (number ≡ 5) }
{
    call_laws();
    gix::laws::map_of_first_parent_line();
    gx_refs::laws::an_edit_has_one_plan();
    gx_store::laws::found_stays();
}
