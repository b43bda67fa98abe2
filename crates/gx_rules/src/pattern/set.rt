//! The sets of a pattern.
ghost use Rattle.std.specs.Prelude.{◌≡◌, ◌+◌, ◌<◌, ◌≤◌, Some, None, length, IfSome, MatchOption};
ghost use Rattle.gx_rules.specs.Pattern.{letters};
ghost use Rattle.gx_rules.specs.PatternReading.{letter_of, set_holds, set_takes, member_holds, range_end};

use super::letter::{Letter, read_letter};
use crate::Steps;
use std::sync::ledger::Ledger;

/// Whether the set takes the byte, and the text after the set. The text begins after the set's opening
/// bracket; nothing is found where the set is not closed.
#[tactic(auto, unfolding(crate::specs::PatternReading::set_takes))]
pub(super) fn read_set<'a, L: Ledger>(
    text: &'a [u8],
    byte: u8,
    steps: &mut Steps<L>,
) -> Option<(bool, &'a [u8])>
    ensures takes { MatchOption result
        (set_takes (letters text.now) byte ≡ None)
        (λ read. set_takes (letters text.now) byte ≡ Some (read.0, letters read.1.now)) }
    ensures shorter { IfSome result (λ read. length read.1.now < length text.now) }
    ensures cost { MatchOption result
        (steps.new ≤ steps.old + length text.now)
        (λ read. steps.new + length read.1.now ≤ steps.old + length text.now) }
    ensures counts { steps.old ≤ steps.new }
{
    let (sign, members) = read_letter(text)?;
    if sign.is_bare(b'!') || sign.is_bare(b'^') {
        let (is_held, rest) = read_members(members, byte, steps)?;
        return Some((!is_held, rest));
    }
    read_members(text, byte, steps)
}

/// Whether one of the members holds the byte, and the text after the bracket that closes the set.
#[tactic(auto, using(crate::proofs::PatternSets::members))]
fn read_members<'a, L: Ledger>(
    text: &'a [u8],
    byte: u8,
    steps: &mut Steps<L>,
) -> Option<(bool, &'a [u8])>
    ensures holds { MatchOption result
        (set_holds (letters text.now) byte ≡ None)
        (λ read. set_holds (letters text.now) byte ≡ Some (read.0, letters read.1.now)) }
    ensures shorter { IfSome result (λ read. length read.1.now < length text.now) }
    ensures cost { MatchOption result
        (steps.new ≤ steps.old + length text.now)
        (λ read. steps.new + length read.1.now ≤ steps.old + length text.now) }
    ensures counts { steps.old ≤ steps.new }
{
    let (mut first, mut rest) = read_letter(text)?;
    let mut is_held = false;
    loop {
        let (holds, behind) = read_member(first, rest, byte, steps);
        is_held = is_held || holds;
        let (next, behind) = read_letter(behind)?;
        if next.is_bare(b']') {
            return Some((is_held, behind));
        }
        first = next;
        rest = behind;
    }
}

/// Whether the member that begins with the letter holds the byte, and the text after the member. That is one step.
#[tactic(auto, unfolding(crate::specs::PatternReading::member_holds))]
fn read_member<'a, L: Ledger>(
    first: Letter,
    text: &'a [u8],
    byte: u8,
    steps: &mut Steps<L>,
) -> (bool, &'a [u8])
    ensures holds { (result.0, letters result.1.now) ≡ member_holds (letter_of first) (letters text.now) byte }
    ensures shorter { length result.1.now ≤ length text.now }
    ensures cost { steps.new ≡ steps.old + 1 }
{
    steps.tick();
    match read_range_end(text) {
        Some((last, rest)) => (first.byte() <= byte && byte <= last.byte(), rest),
        None => (first.byte() == byte, text),
    }
}

/// The letter that a dash at the front of the text makes the last of a range, and the text after it.
#[tactic(auto, unfolding(crate::specs::PatternReading::range_end))]
fn read_range_end(text: &[u8]) -> Option<(Letter, &[u8])>
    ensures last { MatchOption result
        (range_end (letters text.now) ≡ None)
        (λ read. range_end (letters text.now) ≡ Some (letter_of read.0, letters read.1.now)) }
    ensures shorter { IfSome result (λ read. length read.1.now ≤ length text.now) }
{
    let (dash, text) = read_letter(text)?;
    if !dash.is_bare(b'-') {
        return None;
    }
    let (last, rest) = read_letter(text)?;
    if last.is_bare(b']') {
        return None;
    }
    Some((last, rest))
}
