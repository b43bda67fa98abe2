//! Laws of chains, logs, edits and listings, for proofs about references. The functions do nothing.

ghost use Rattle.gx_refs.specs.EditLaws.{ChangesMakeEdits, OneResult, OnePlan, OneMade, MadeIsNotRefused, OneMeetsNone, SignerSigns, ListsItsOwn};
ghost use Rattle.gx_refs.specs.Laws.{EachMeets, MeetsOne, LogsGain};

/// Every name has a chain that ends, or leads back into itself, or is too deep.
#[tactic(auto, using(crate::proofs::FateLemmas::each_meets))]
pub fn each_meets_a_fate()
    ensures { EachMeets }
{}

/// It meets one of these fates alone, along one list of names.
#[tactic(auto, using(crate::proofs::FateLemmas::meets_one))]
pub fn each_meets_one_fate()
    ensures { MeetsOne }
{}

/// A log gets the line exactly where its name is among the names and a line is due for it.
#[tactic(auto, using(crate::proofs::LogLemmas::logs_gain))]
pub fn logs_gain_the_line()
    ensures { LogsGain }
{}

/// Where no name is touched twice, the changes of edits make what the edits make.
#[tactic(auto, using(crate::proofs::EditLemmas::changes_make_edits))]
pub fn changes_make_the_edits()
    ensures { ChangesMakeEdits }
{}

/// Edits make one result.
#[tactic(auto, using(crate::proofs::EditLemmas::one_result))]
pub fn edits_make_one_result()
    ensures { OneResult }
{}

/// Where the references are told, an edit has one plan.
#[tactic(auto, using(crate::proofs::RefusalLemmas::one_plan))]
pub fn an_edit_has_one_plan()
    ensures { OnePlan }
{}

/// Edits are made in one way.
#[tactic(auto, using(crate::proofs::RefusalLemmas::one_made))]
pub fn edits_are_made_in_one_way()
    ensures { OneMade }
{}

/// Edits that may be made are not refused.
#[tactic(auto, using(crate::proofs::RefusalLemmas::made_is_not_refused))]
pub fn edits_that_may_be_made_are_not_refused()
    ensures { MadeIsNotRefused }
{}

/// An edit by itself meets no other.
#[tactic(auto, using(crate::proofs::RefusalLemmas::one_meets_none))]
pub fn one_edit_meets_none()
    ensures { OneMeetsNone }
{}

/// A committer that can be written signs each line.
#[tactic(auto, using(crate::proofs::RefusalLemmas::signer_signs))]
pub fn a_signer_signs()
    ensures { SignerSigns }
{}

/// A listing under a namespace goes by the references of that namespace alone.
#[tactic(auto, using(crate::proofs::ListLemmas::lists_its_own))]
pub fn listing_is_of_its_namespace()
    ensures { ListsItsOwn }
{}
