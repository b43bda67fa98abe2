//! Times as objects contain them.
ghost use Rattle.std.specs.Prelude.{◌≡◌, ◌<◌, ℕ, ℤ, [], ◌∷◌, MatchOption, SomeIff};
ghost use Rattle.std.specs.Char.{digit_value};
ghost use Rattle.gx_object.specs.declared.signature.Time.{Time};
ghost use Rattle.gx_object.specs.TimeSpelling.{SpellsTwoDigits, SpellsSeconds, SpellsOffset, SpellsTime, seconds_text};

use crate::Time;
use crate::split::split_at_byte;

/// The moment that the text is.
pub(crate) fn read_time(text: &[u8]) -> Option<Time>
    ensures { MatchOption result ((time : Time) → ¬ SpellsTime text.now time) (SpellsTime text.now) }
{
    let (seconds, offset) = split_at_byte(b' ', text)?;
    Some(Time {
        seconds: read_seconds(seconds)?,
        offset: read_offset(offset)?,
    })
}

/// The seconds before the first space.
pub(crate) fn leading_seconds(text: &[u8]) -> Option<i64>
    ensures { MatchOption result ((seconds : ℤ)
        → ¬ SpellsSeconds (seconds_text text.now) seconds) (SpellsSeconds (seconds_text text.now)) }
{
    match split_at_byte(b' ', text) {
        Some((seconds, _)) => read_seconds(seconds),
        None => read_seconds(text),
    }
}

fn read_seconds(text: &[u8]) -> Option<i64>
    ensures { MatchOption result ((seconds : ℤ) → ¬ SpellsSeconds text.now seconds) (SpellsSeconds text.now) }
{
    // `parse` takes a `+`, which no time has.
    if text.starts_with(b"+") {
        return None;
    }
    str::from_utf8(text).ok()?.parse().ok()
}

fn read_offset(text: &[u8]) -> Option<i32>
    ensures { MatchOption result ((offset : ℤ) → ¬ SpellsOffset text.now offset) (SpellsOffset text.now) }
{
    let (sign, digits) = text.split_first()?;
    let (hours, minutes) = digits.split_at_checked(2)?;
    let seconds = (two_digits(hours)? * 3600 + two_digits(minutes)? * 60) as i32;
    match *sign {
        b'+' => Some(seconds),
        b'-' => Some(-seconds),
        _ => None,
    }
}

fn two_digits(text: &[u8]) -> Option<u32>
    ensures { MatchOption result ((number : ℕ)
        → ¬ SpellsTwoDigits text.now number) (λ number. SpellsTwoDigits text.now number × (number < 100)) }
{
    match text {
        [tens, ones] => Some(digit(*tens)? * 10 + digit(*ones)?),
        _ => None,
    }
}

fn digit(byte: u8) -> Option<u32>
    ensures { SomeIff result (digit_value byte < 10) (digit_value byte) }
{
    char::from(byte).to_digit(10)
}
