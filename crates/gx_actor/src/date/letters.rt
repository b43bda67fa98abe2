//! Texts compared with a form, letter by letter, and the numbers in them.
ghost use Rattle.std.specs.Prelude.{◌≡◌, ◌+◌, ◌<◌, ◌≤◌, length, drop};
ghost use Rattle.std.specs.Bool.{OnTrue};
ghost use Rattle.std.specs.List.{zip, list_all};
ghost use Rattle.gx_actor.specs.Form.{fits_letter, begins_in_form, digit_at, two_digits_at, year_at};

/// Whether the text begins in the form: with a digit for each `0`, with any byte for each `?`, else with its letters.
pub(crate) fn begins_in_form(form: &[u8], text: &[u8]) -> bool
    ensures value { result ≡ begins_in_form form.now text.now }
    ensures long { OnTrue result (length form.now ≤ length text.now) }
{
    form.len() <= text.len() && fit_letters(form, text)
}

fn fit_letters(form: &[u8], text: &[u8]) -> bool
    ensures { result ≡ list_all (λ pair. fits_letter pair.0 pair.1) (zip form.now text.now) }
{
    form.iter()
        .zip(text)
        .all(|(letter, byte)| fits_letter(*letter, *byte))
}

fn fits_letter(letter: u8, byte: u8) -> bool
    ensures { result ≡ fits_letter letter byte }
{
    match letter {
        b'0' => byte.is_ascii_digit(),
        b'?' => true,
        _ => byte == letter,
    }
}

pub(crate) fn digit_at(text: &[u8], place: usize) -> u32
    requires { place < length text.now }
    ensures value { result ≡ digit_at text.now place }
    ensures small { result < 256 }
{
    u32::from(text[place].saturating_sub(b'0'))
}

pub(crate) fn two_digits_at(text: &[u8], place: usize) -> u32
    requires { place + 1 < length text.now }
    ensures value { result ≡ two_digits_at text.now place }
    ensures small { result < 4096 }
{
    10 * digit_at(text, place) + digit_at(text, place + 1)
}

pub(crate) fn year_at(text: &[u8], place: usize) -> u32
    requires { place + 3 < length text.now }
    ensures { result ≡ year_at text.now place }
{
    100 * two_digits_at(text, place) + two_digits_at(text, place + 2)
}

/// What follows the first bytes.
pub(crate) fn after(text: &[u8], count: usize) -> &[u8]
    requires { count ≤ length text.now }
    ensures { result.now ≡ drop count text.now }
{
    text.split_at(count).1
}
