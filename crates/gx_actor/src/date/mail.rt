//! Dates as mail headers write them.
ghost use Rattle.std.specs.Prelude.{◌≡◌, ◌+◌, ◌≤◌, length, take, MatchOption};
ghost use Rattle.gx_object.specs.declared.signature.Time.{Time};
ghost use Rattle.gx_actor.specs.Date.{SpellsMailTime, SpellsTwoDigitDay, SpellsOneDigitDay, IsMailTime, mail_civil};
ghost use Rattle.gx_actor.specs.Names.{is_weekday, month_named};

use super::civil::{Civil, time_at};
use super::letters::{after, begins_in_form, digit_at, two_digits_at, year_at};
use gx_object::Time;

/// `Www, DD Mon YYYY HH:MM:SS` and an offset, also with one digit for the day.
pub(crate) fn read_time(text: &[u8]) -> Option<Time>
    ensures { MatchOption result ((time : Time) → ¬ SpellsMailTime text.now time) (SpellsMailTime text.now) }
{
    if let Some(time) = read_two_digits(text) {
        return Some(time);
    }
    read_one_digit(text)
}

fn read_two_digits(text: &[u8]) -> Option<Time>
    ensures { MatchOption result ((time : Time) → ¬ SpellsTwoDigitDay text.now time) (SpellsTwoDigitDay text.now) }
{
    if !begins_in_form(b"???, 00 ??? 0000 00:00:00 ", text) {
        return None;
    }
    read_around(text, two_digits_at(text, 5), 7)
}

fn read_one_digit(text: &[u8]) -> Option<Time>
    ensures { MatchOption result ((time : Time) → ¬ SpellsOneDigitDay text.now time) (SpellsOneDigitDay text.now) }
{
    if !begins_in_form(b"???, 0 ??? 0000 00:00:00 ", text) {
        return None;
    }
    read_around(text, digit_at(text, 5), 6)
}

/// The moment of a text in this form whose day is read and ends at the place.
fn read_around(text: &[u8], day: u32, place: usize) -> Option<Time>
    requires { place + 19 ≤ length text.now }
    ensures { MatchOption result ((time : Time) → ¬ IsMailTime text.now day place time)
        (IsMailTime text.now day place) }
{
    if !is_weekday(text.split_at(3).0) {
        return None;
    }
    let month = month_named(after(text, place + 1).split_at(3).0)?;
    time_at(civil(text, month, day, place), after(text, place + 19))
}

fn civil(text: &[u8], month: u32, day: u32, place: usize) -> Civil
    requires { place + 19 ≤ length text.now }
    ensures { result ≡ mail_civil text.now month day place }
{
    Civil {
        year: year_at(text, place + 5),
        month,
        day,
        hours: two_digits_at(text, place + 10),
        minutes: two_digits_at(text, place + 13),
        seconds: two_digits_at(text, place + 16),
    }
}

fn is_weekday(name: &[u8]) -> bool
    ensures { result ≡ is_weekday name.now }
{
    name == b"Mon".as_slice()
        || name == b"Tue".as_slice()
        || name == b"Wed".as_slice()
        || name == b"Thu".as_slice()
        || name == b"Fri".as_slice()
        || name == b"Sat".as_slice()
        || name == b"Sun".as_slice()
}

fn month_named(name: &[u8]) -> Option<u32>
    ensures { result ≡ month_named name.now }
{
    if name == b"Jan".as_slice() {
        Some(1)
    } else if name == b"Feb".as_slice() {
        Some(2)
    } else if name == b"Mar".as_slice() {
        Some(3)
    } else if name == b"Apr".as_slice() {
        Some(4)
    } else if name == b"May".as_slice() {
        Some(5)
    } else if name == b"Jun".as_slice() {
        Some(6)
    } else if name == b"Jul".as_slice() {
        Some(7)
    } else if name == b"Aug".as_slice() {
        Some(8)
    } else if name == b"Sep".as_slice() {
        Some(9)
    } else if name == b"Oct".as_slice() {
        Some(10)
    } else if name == b"Nov".as_slice() {
        Some(11)
    } else if name == b"Dec".as_slice() {
        Some(12)
    } else {
        None
    }
}
