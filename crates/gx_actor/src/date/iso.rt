//! Dates as ISO 8601 writes them.
ghost use Rattle.std.specs.Prelude.{◌≡◌, ◌≤◌, length, MatchOption};
ghost use Rattle.std.specs.Bool.{OnTrue};
ghost use Rattle.gx_object.specs.declared.signature.Time.{Time};
ghost use Rattle.gx_actor.specs.Date.{SpellsIsoDay, SpellsIsoTime, is_iso_day, is_iso_time, iso_day, iso_time};

use super::civil::{Civil, moment, time_at};
use super::letters::{after, begins_in_form, two_digits_at, year_at};
use gx_object::Time;

/// `YYYY-MM-DD`: midnight in UTC.
pub(crate) fn read_day(text: &[u8]) -> Option<Time>
    ensures { MatchOption result ((time : Time) → ¬ SpellsIsoDay text.now time) (SpellsIsoDay text.now) }
{
    if !is_day(text) {
        return None;
    }
    moment(day(text), 0)
}

fn is_day(text: &[u8]) -> bool
    ensures value { result ≡ is_iso_day text.now }
    ensures long { OnTrue result (10 ≤ length text.now) }
{
    text.len() == 10 && begins_in_form(b"0000-00-00", text)
}

fn day(text: &[u8]) -> Civil
    requires { 10 ≤ length text.now }
    ensures { result ≡ iso_day text.now }
{
    Civil {
        year: year_at(text, 0),
        month: two_digits_at(text, 5),
        day: two_digits_at(text, 8),
        hours: 0,
        minutes: 0,
        seconds: 0,
    }
}

/// `YYYY-MM-DD HH:MM:SS` and an offset, also with a `T` for the first space.
pub(crate) fn read_time(text: &[u8]) -> Option<Time>
    ensures { MatchOption result ((time : Time) → ¬ SpellsIsoTime text.now time) (SpellsIsoTime text.now) }
{
    if !is_time(text) {
        return None;
    }
    time_at(time(text), after(text, 20))
}

fn is_time(text: &[u8]) -> bool
    ensures value { result ≡ is_iso_time text.now }
    ensures long { OnTrue result (20 ≤ length text.now) }
{
    begins_in_form(b"0000-00-00 00:00:00 ", text) || begins_in_form(b"0000-00-00T00:00:00 ", text)
}

fn time(text: &[u8]) -> Civil
    requires { 20 ≤ length text.now }
    ensures { result ≡ iso_time text.now }
{
    Civil {
        hours: two_digits_at(text, 11),
        minutes: two_digits_at(text, 14),
        seconds: two_digits_at(text, 17),
        ..day(text)
    }
}
