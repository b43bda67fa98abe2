//! Dates as people write them.
ghost use Rattle.std.specs.Prelude.{◌≡◌, codes, MatchResult, MatchOption};
ghost use Rattle.std.specs.Str.{bytes_eq};
ghost use Rattle.gx_object.specs.declared.signature.Time.{Time};
ghost use Rattle.gx_object.specs.TimeSpelling.{SpellsTime};
ghost use Rattle.gx_actor.specs.Date.{SpellsDate};

mod civil;
mod iso;
mod letters;
mod mail;

use bstr::BStr;
use gx_object::{SignatureRef, Time};
use thiserror::Error;

/// A text is in none of the forms of a date, or no calendar has its day, or no clock its time.
#[derive(Clone, Copy, Debug, PartialEq, Eq, Error)]
#[error("the date can't be read")]
pub struct BadDate;

/// The moment that the text says, `now` being the given one. Takes no memory.
///
/// The forms are `now`, `1660797906 +0800`, `2022-08-18`, `2022-08-18 12:45:06 +0800`, the same with a `T` for the
/// first space, and `Thu, 18 Aug 2022 12:45:06 +0800`.
///
/// ```
/// let time = read_time(b"2022-08-18 12:45:06 +0800", now)?;
/// // time.seconds is 1660797906, and time.offset is 28800
/// let refused = read_time(b"2022-02-30", now);
/// // Err(BadDate)
/// ```
pub fn read_time(text: &[u8], now: Time) -> Result<Time, BadDate>
    ensures { MatchResult result (SpellsDate now text.now) (λ _. (time : Time) → ¬ SpellsDate now text.now time) }
{
    if is_now(text) {
        return Ok(now);
    }
    if let Some(time) = read_raw(text) {
        return Ok(time);
    }
    if let Some(time) = iso::read_day(text) {
        return Ok(time);
    }
    if let Some(time) = iso::read_time(text) {
        return Ok(time);
    }
    mail::read_time(text).ok_or(BadDate)
}

fn is_now(text: &[u8]) -> bool
    ensures { result ≡ bytes_eq text.now (codes "now") }
{
    text == b"now".as_slice()
}

/// Seconds since the epoch and an offset, as objects have them.
fn read_raw(text: &[u8]) -> Option<Time>
    ensures { MatchOption result ((time : Time) → ¬ SpellsTime text.now time) (SpellsTime text.now) }
{
    let who = SignatureRef {
        name: BStr::new(b""),
        email: BStr::new(b""),
        time: BStr::new(text),
    };
    who.time().ok()
}
