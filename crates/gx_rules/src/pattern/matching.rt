//! The walk along a pattern and a name.
ghost use Rattle.std.specs.Prelude.{◌≡◌, ℕ, ◌+◌, ◌*◌, ◌≤◌, ◌<◌, ◌↔◌, [], ◌∷◌, Some, None, IsTrue, length, MatchOption};
ghost use Rattle.gx_rules.specs.Pattern.{letters, IsMatch};
ghost use Rattle.gx_rules.specs.PatternReading.{letter_of, taken, IsAlive, IsSound, StepGives, Spends, IsAhead, Passes};

use super::letter::{Letter, read_letter};
use super::set::read_set;
use crate::Steps;
use std::sync::ledger::Ledger;

/// Whether the pattern matches the name. Each time that the walk goes back, it begins one byte of the name
/// further on, and until the next time it goes along the pattern at most once.
pub(super) fn is_match<L: Ledger>(pattern: &[u8], name: &[u8], steps: &mut Steps<L>) -> bool
    ensures matches { IsTrue result ↔ IsMatch pattern.now name.now }
    ensures cost { steps.new ≤ steps.old + (length pattern.now + 1) * (length name.now + 1) }
    ensures counts { steps.old < steps.new }
    ensures passes { IsTrue result → steps.old + length name.now < steps.new }
{
    let mut walk = Walk::new(pattern, name);
    loop {
        match walk.step(steps) {
            Step::Next(next) => walk = next,
            Step::Done(answer) => return answer,
        }
    }
}

/// What is left of the pattern and of the name. Where the two do not match, the last star takes one byte more,
/// and the walk goes on after it; earlier stars have taken all that they need.
#[derive(Clone, Copy)]
struct Walk<'a> {
    pattern: &'a [u8],
    name: &'a [u8],
    /// The pattern after the last star.
    behind_star: &'a [u8],
    /// The name from the byte on that the last star takes next; empty where there is no such byte, or no star.
    from_star: &'a [u8],
}

/// What a walk comes to: the next place, or the answer.
enum Step<'a> {
    Next(Walk<'a>),
    Done(bool),
}

impl<'a> Walk<'a> {
    fn new(pattern: &'a [u8], name: &'a [u8]) -> Walk<'a>
        ensures pattern { result.pattern.now ≡ pattern.now }
        ensures name { result.name.now ≡ name.now }
        ensures behind_star { result.behind_star.now ≡ pattern.now }
        ensures from_star { result.from_star.now ≡ [] }
    {
        Walk {
            pattern,
            name,
            behind_star: pattern,
            from_star: &[],
        }
    }

    /// Asks the next piece of the pattern for the next byte of the name.
    fn step<L: Ledger>(self, steps: &mut Steps<L>) -> Step<'a>
        requires { IsSound self }
        ensures gives { StepGives self.entry result }
        ensures counts { steps.old < steps.new }
        ensures spends { Spends self.entry steps.old steps.new result }
        ensures passes { IsAhead self.entry → Passes self.entry result }
    {
        steps.tick();
        let Some((letter, rest)) = read_letter(self.pattern) else {
            if self.name.is_empty() {
                return Step::Done(true);
            }
            return self.retry();
        };
        if letter.is_bare(b'*') {
            return Step::Next(Walk {
                pattern: rest,
                name: self.name,
                behind_star: rest,
                from_star: self.name,
            });
        }
        let Some((byte, name)) = self.name.split_first() else {
            return self.retry();
        };
        match take_piece(letter, rest, *byte, steps) {
            Some(pattern) => Step::Next(Walk {
                pattern,
                name,
                behind_star: self.behind_star,
                from_star: self.from_star,
            }),
            None => self.retry(),
        }
    }

    /// After the last star, which takes one byte more.
    fn retry(self) -> Step<'a>
        ensures gives { ¬ IsMatch self.entry.pattern.now self.entry.name.now → StepGives self.entry result }
        ensures spends { (before after : ℕ) → after ≤ before + length self.entry.pattern.now + 1
            → Spends self.entry before after result }
        ensures passes { IsAhead self.entry → Passes self.entry result }
    {
        match self.from_star.split_first() {
            Some((_, name)) => Step::Next(Walk {
                pattern: self.behind_star,
                name,
                behind_star: self.behind_star,
                from_star: name,
            }),
            None => Step::Done(false),
        }
    }
}

/// The text after the piece that begins with the letter, if it is one that takes the byte alone.
#[tactic(auto, unfolding(crate::specs::PatternReading::taken))]
fn take_piece<'a, L: Ledger>(
    letter: Letter,
    text: &'a [u8],
    byte: u8,
    steps: &mut Steps<L>,
) -> Option<&'a [u8]>
    ensures taken { MatchOption result
        (taken (letter_of letter ∷ letters text.now) byte ≡ None)
        (λ rest. taken (letter_of letter ∷ letters text.now) byte ≡ Some (letters rest.now)) }
    ensures cost { MatchOption result
        (steps.new ≤ steps.old + length text.now)
        (λ rest. steps.new + length rest.now ≤ steps.old + length text.now) }
    ensures counts { steps.old ≤ steps.new }
{
    if letter.is_bare(b'?') {
        return Some(text);
    }
    if letter.is_bare(b'[') {
        let (takes, rest) = read_set(text, byte, steps)?;
        if takes {
            return Some(rest);
        }
        return None;
    }
    if letter.is_bare(b'*') || letter.is_bare(b'\\') || letter.byte() != byte {
        return None;
    }
    Some(text)
}
