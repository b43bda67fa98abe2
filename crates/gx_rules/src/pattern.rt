//! Glob patterns over names.
ghost use Rattle.std.specs.Prelude.{◌≡◌, ◌≢◌, ◌+◌, ◌-◌, ◌*◌, ◌<◌, ◌≤◌, ◌↔◌, IsTrue, [], length, codes, MatchResult};
ghost use Rattle.std.specs.List.{list_any};
ghost use Rattle.bstr.specs.BStr.{bstr_bytes};
ghost use Rattle.gx_rules.specs.Name.{StandsAt};
ghost use Rattle.gx_rules.specs.Pattern.{IsMatch, is_wildcard};

mod letter;
mod matching;
mod set;

use self::matching::is_match;
use crate::Steps;
use bstr::BStr;
use gx_hash::{Bytes, NoMemory};
use std::alloc::Global;
use std::marker::{Brand, Model};
use std::sync::ledger::{Blank, Ledger};
use thiserror::Error;

/// Why a text is no pattern.
#[derive(Clone, Copy, Debug, PartialEq, Eq, Error)]
pub enum PatternError {
    #[error("a pattern must not be empty")]
    Empty,
    #[error("out of memory")]
    NoMemory,
}

impl From<NoMemory> for PatternError {
    ghost use Rattle.gx_rules.specs.declared.pattern.PatternError.TheVariants as pattern_error;

    ghost from_gives = { λ _ error. error ≡ pattern_error.NoMemory };

    fn from(_: NoMemory) -> PatternError {
        PatternError::NoMemory
    }
}

/// A pattern over names, as `refs/heads/*`: `?` is any byte, `*` any bytes, slashes too, `[a-z]` one byte of a
/// set, `[!a-z]` one byte that is not in it, and a backslash takes the next byte as it is. Any bytes but none are
/// a pattern; one with a set that is not closed, or with a last backslash, matches no name.
///
/// ```
/// let pattern = Pattern::new(alloc, b"refs/heads/*")?;
/// let is_match = pattern.matches(b"refs/heads/main");
/// ```
#[derive(Debug, Drop)]
pub struct Pattern {
    bytes: Bytes,
}

impl Model for Pattern {
    ghost use Rattle.std.specs.Prelude.{List, ℕ};

    ghost Value = { List ℕ };

    ghost view = { λ pattern. pattern.bytes };
}

impl Pattern {
    pub fn new(alloc: Global, text: &[u8]) -> Result<Pattern, PatternError>
        ensures { MatchResult result
            (λ pattern. (pattern ≡ text.now) × (text.now ≢ []))
            (λ error. (error ≡ PatternError.Empty) ↔ (text.now ≡ [])) }
    {
        if text.is_empty() {
            return Err(PatternError::Empty);
        }
        Ok(Pattern {
            bytes: Bytes::from_slice(alloc, text)?,
        })
    }

    pub fn as_slice(&self) -> &[u8]
        ensures { result.now ≡ self.now }
    {
        self.bytes.as_slice()
    }

    /// The bytes as text by convention, to be printed: bytes that are no UTF-8 show as U+FFFD.
    pub fn as_bstr(&self) -> BStr<'_>
        ensures { bstr_bytes result ≡ self.now }
    {
        BStr::new(self.as_slice())
    }

    /// Whether the pattern begins with a slash.
    pub fn is_absolute(&self) -> bool
        ensures { IsTrue result ↔ StandsAt (codes "/") self.now 0 }
    {
        self.as_slice().starts_with(b"/")
    }

    /// Whether the pattern ends with a slash.
    pub fn must_be_dir(&self) -> bool
        ensures { IsTrue result ↔ StandsAt (codes "/") self.now (length self.now - 1) }
    {
        self.as_slice().ends_with(b"/")
    }

    /// Whether the pattern has a byte that can make it match other names than its own text.
    pub fn has_wildcard(&self) -> bool
        ensures { result ≡ list_any is_wildcard self.now }
    {
        self.as_slice()
            .iter()
            .any(|byte| matches!(*byte, b'*' | b'?' | b'['))
    }

    /// Whether the pattern matches the whole name, in the steps that `matches_counted` counts: the time is at most
    /// proportional to the product of the two lengths, however many stars the pattern has.
    pub fn matches(&self, name: &[u8]) -> bool
        ensures { IsTrue result ↔ IsMatch self.now name.now }
    {
        matches_uncounted::<Brand>(self, name, Blank::new(1))
    }

    /// The same as `matches`, with a count of the steps. A step is one piece of the pattern, or one member of a set,
    /// that is asked for one byte of the name or for its end. Each turn of a loop is a step, and reads at most three
    /// letters of the pattern.
    pub fn matches_counted<L: Ledger>(&self, name: &[u8], steps: &mut Steps<L>) -> bool
        ensures matches { IsTrue result ↔ IsMatch self.now name.now }
        ensures cost { steps.new ≤ steps.old + (length self.now + 1) * (length name.now + 1) }
        // Steps are counted: at least one, and where the name matches, one for each of its bytes and for its end.
        ensures counts { steps.old < steps.new }
        ensures passes { IsTrue result → steps.old + length name.now < steps.new }
    {
        is_match(self.as_slice(), name, steps)
    }
}

fn matches_uncounted<L: Ledger>(pattern: &Pattern, name: &[u8], blank: Blank) -> bool
    requires name { blank.name ≡ L.name }
    requires parts { blank.parts ≡ L.parts }
    requires some { 0 < blank.parts }
    ensures { IsTrue result ↔ IsMatch pattern.now name.now }
{
    pattern.matches_counted(name, &mut Steps::<L>::new(blank))
}
