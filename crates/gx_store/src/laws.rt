//! Laws of what is stored and of what changes make, for proofs about stores. The functions do nothing.
ghost use Rattle.gx_store.specs.Laws.{WritesOnce, WritingAdds, AddsTogether, AddedIsFound, FoundStays, StoredStays, SharesPrefix, BeginsAlike, SharesLess, OthersAreKept, EachIsMade, SameAfter, AppliedAfter, StoredAfter, CauseAfter, FaultAfter};
ghost use Rattle.gx_hash.specs.declared.kind.HashKind.{HashKind};
ghost use Rattle.gx_store.specs.LogText.{line_bytes, SpellsLine, CanWriteLine};

use crate::LogLine;
use gx_hash::ObjectId;
use gx_hash::laws::id_has_digits;
use gx_object::laws::written_identity_is_read;

/// Writing an object whose id is there changes nothing.
#[tactic(auto, using(crate::proofs::ContentLemmas::writes_once))]
pub fn writes_once()
    ensures { WritesOnce }
{}

/// Writing objects adds them, and keeps what was there.
#[tactic(auto, using(crate::proofs::ContentLemmas::writing_adds))]
pub fn writing_adds()
    ensures { WritingAdds }
{}

/// What is added by one after the other is added together.
pub fn adds_together()
    ensures { AddsTogether }
{}

/// Objects that share no digest are all found once they were added.
#[tactic(auto, using(crate::proofs::ContentLemmas::added_is_found))]
pub fn added_is_found()
    ensures { AddedIsFound }
{}

/// What is found stays found, as it is.
#[tactic(auto, using(crate::proofs::ContentLemmas::found_stays))]
pub fn found_stays()
    ensures { FoundStays }
{}

/// What is stored under an id stays under it, whatever is added.
#[tactic(auto, using(crate::proofs::ContentLemmas::stored_stays))]
pub fn stored_stays()
    ensures { StoredStays }
{}

/// Two ids share so many digits exactly where they begin alike so far, and another id of a store does not share all.
pub fn shared_digits_are_a_prefix(id: &ObjectId)
    ensures shares { SharesPrefix }
    ensures begins { BeginsAlike }
    ensures less { SharesLess id.now }
{
    id_has_digits(id);
}

/// A name that no change names keeps its target and its log.
pub fn others_are_kept()
    ensures { OthersAreKept }
{}

/// Of changes with distinct names each is made.
#[tactic(auto, using(crate::proofs::ContentLemmas::each_is_made))]
pub fn each_is_made()
    ensures { EachIsMade }
{}

/// What becomes of a state that has become what was wanted, becomes of what was wanted.
pub fn after()
    ensures same { SameAfter }
    ensures applied { AppliedAfter }
    ensures stored { StoredAfter }
    ensures cause { CauseAfter }
    ensures fault { FaultAfter }
{}

/// What is written of a line of a log spells it, so it is read as it was.
pub fn written_line_is_read(line: &LogLine)
    ensures { (hash : HashKind) → CanWriteLine hash line.now → SpellsLine hash (line_bytes line.now) line.now }
{
    id_has_digits(&line.previous);
    id_has_digits(&line.new);
    written_identity_is_read();
}
