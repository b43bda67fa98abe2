//! Days of the calendar, times of the day, and the moments that they name.
ghost use Rattle.std.specs.Prelude.{◌≡◌, ◌+◌, ◌*◌, ◌^◌, ◌<◌, ◌+ℤ◌, ◌-ℤ◌, ◌*ℤ◌, ℤ, pos, length, MatchOption};
ghost use Rattle.std.specs.Bool.{OnTrue};
ghost use Rattle.gx_object.specs.declared.signature.Time.{Time};
ghost use Rattle.gx_object.specs.TimeSpelling.{SpellsOffset};
ghost use Rattle.jiff_core.specs.Calendar.{IsDate, IsEpochDay, days_from_civil};
ghost use Rattle.gx_actor.specs.Form.{two_digits_at};
ghost use Rattle.gx_actor.specs.Civil.{IsClock, Exists, clock_seconds, seconds_at, IsTimeAt};
ghost use Rattle.gx_actor.specs.Offset.{is_offset, offset_of};

use super::letters::{begins_in_form, two_digits_at};
use gx_object::Time;
use jiff_core::civil::Date;

/// A day and a time of that day, on some clock. There may be no such day or time.
#[derive(Clone, Copy)]
pub(crate) struct Civil {
    pub(crate) year: u32,
    pub(crate) month: u32,
    pub(crate) day: u32,
    pub(crate) hours: u32,
    pub(crate) minutes: u32,
    pub(crate) seconds: u32,
}

/// The moment at which a clock with the written offset shows this, where that is a day and a time.
pub(crate) fn time_at(civil: Civil, offset: &[u8]) -> Option<Time>
    ensures { MatchOption result ((time : Time) → ¬ IsTimeAt civil offset.now time) (IsTimeAt civil offset.now) }
{
    let offset = read_offset(offset)?;
    moment(civil, offset)
}

/// The moment at which a clock that is ahead of UTC by the offset, in seconds, shows this.
pub(crate) fn moment(civil: Civil, offset: i32) -> Option<Time>
    ensures { MatchOption result (¬ Exists civil)
        (λ time. Exists civil × (time.seconds ≡ seconds_at civil offset) × (time.offset ≡ offset)) }
{
    let day = day_number(civil.year, civil.month, civil.day)?;
    let clock = seconds_of_day(civil)?;
    Some(Time {
        seconds: utc_seconds(day, clock, offset),
        offset,
    })
}

fn utc_seconds(day: i32, clock: u32, offset: i32) -> i64
    requires day_in { IsEpochDay day }
    requires clock_in { clock < 86400 }
    ensures { result ≡ (day *ℤ pos 86400 +ℤ pos clock) -ℤ offset }
{
    i64::from(day) * 86_400 + i64::from(clock) - i64::from(offset)
}

fn day_number(year: u32, month: u32, day: u32) -> Option<i32>
    ensures { MatchOption result (¬ IsDate (pos year) (pos month) (pos day))
        (λ number. IsDate (pos year) (pos month) (pos day)
        × (number ≡ days_from_civil (pos year) month day) × IsEpochDay number) }
{
    if year > 9999 || month > 12 || day > 31 {
        return None;
    }
    let date = Date::new(year as i16, month as i8, day as i8).ok()?;
    Some(date.to_unix_epoch_day())
}

fn seconds_of_day(civil: Civil) -> Option<u32>
    ensures { MatchOption result (¬ IsClock civil)
        (λ clock. IsClock civil × (clock ≡ clock_seconds civil) × (clock < 86400)) }
{
    if civil.hours < 24 && civil.minutes < 60 && civil.seconds < 60 {
        Some(3600 * civil.hours + 60 * civil.minutes + civil.seconds)
    } else {
        None
    }
}

/// The offset that the text writes, in seconds.
fn read_offset(text: &[u8]) -> Option<i32>
    ensures { MatchOption result ((offset : ℤ) → ¬ SpellsOffset text.now offset) (SpellsOffset text.now) }
{
    if is_offset(text) {
        Some(offset_of(text))
    } else {
        None
    }
}

fn is_offset(text: &[u8]) -> bool
    ensures value { result ≡ is_offset text.now }
    ensures long { OnTrue result (length text.now ≡ 5) }
{
    text.len() == 5 && begins_in_form(b"?0000", text) && (text[0] == b'+' || text[0] == b'-')
}

fn offset_of(text: &[u8]) -> i32
    requires { length text.now ≡ 5 }
    ensures { result ≡ offset_of text.now }
{
    let seconds = offset_seconds(text) as i32;
    if text[0] == b'-' { -seconds } else { seconds }
}

fn offset_seconds(text: &[u8]) -> u32
    requires { length text.now ≡ 5 }
    ensures value { result ≡ 3600 * two_digits_at text.now 1 + 60 * two_digits_at text.now 3 }
    ensures small { result < 2 ^ 30 }
{
    3600 * two_digits_at(text, 1) + 60 * two_digits_at(text, 3)
}
