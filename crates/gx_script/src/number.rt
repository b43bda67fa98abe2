ghost use Rattle.gx_script.specs.Lines.{IsNoNumber, IsNoSigned};
ghost use Rattle.std.specs.Fmt.{decimal, signed_decimal};
ghost use Rattle.std.specs.Int.{w32, w64};
ghost use Rattle.std.specs.Prelude.{◌≡◌, ◌≢◌, ◌+◌, ◌*◌, ◌^◌, ◌<◌, ◌≤◌, length, pos, negsuc, FitsSigned, ◌-◌, slice_index, MatchOption, SomeIff};

use crate::split::after;

/// The number with a digit more.
fn with_digit(value: u64, digit: u8) -> Option<u64>
    requires { digit < 10 }
    ensures { SomeIff result (value * 10 + digit < 2 ^ 64) (value * 10 + digit) }
{
    value.checked_mul(10)?.checked_add(digit as u64)
}

/// The number that the bytes spell: `0`, or digits of which the first is none.
pub fn number(bytes: &[u8]) -> Option<u64>
    ensures { MatchOption result (IsNoNumber bytes.now) (λ n. bytes.now ≡ decimal n) }
{
    if bytes.is_empty() {
        return None;
    }
    if bytes[0] != b'0' {
        return digits(bytes);
    }
    if bytes.len() == 1 { Some(0) } else { None }
}

/// The number that the bytes spell, whose first is no zero.
fn digits(bytes: &[u8]) -> Option<u64>
    requires some { 0 < length bytes.now }
    requires first { slice_index bytes.now 0 ≢ 48 }
    ensures { MatchOption result (IsNoNumber bytes.now) (λ n. bytes.now ≡ decimal n) }
{
    let mut value = 0u64;
    for b in bytes {
        if !b.is_ascii_digit() {
            return None;
        }
        value = match with_digit(value, *b - b'0') {
            Some(value) => value,
            None => return None,
        };
    }
    Some(value)
}

/// The number as a signed one.
fn positive(number: u64) -> Option<i64>
    ensures { SomeIff result (number < 2 ^ 63) (pos number) }
{
    i64::try_from(number).ok()
}

/// The negative of a number that is not 0.
fn negative(number: u64) -> Option<i64>
    ensures { SomeIff result ((0 < number) × (number ≤ 2 ^ 63)) (negsuc (number - 1)) }
{
    if number == 0 || number > 1 << 63 {
        return None;
    }
    Some(-1 - (number - 1) as i64)
}

/// The signed number that the bytes spell. Zero has no sign.
pub fn signed(bytes: &[u8]) -> Option<i64>
    ensures { MatchOption result (IsNoSigned w64 bytes.now) (λ z. bytes.now ≡ signed_decimal z) }
{
    match after(bytes, b"-") {
        Some(digits) => negative(number(digits)?),
        None => positive(number(bytes)?),
    }
}

/// The number where it has 32 bits.
fn narrow(number: i64) -> Option<i32>
    ensures { SomeIff result (FitsSigned w32 number) number }
{
    i32::try_from(number).ok()
}

/// The signed number of 32 bits that the bytes spell.
pub fn signed_32(bytes: &[u8]) -> Option<i32>
    ensures { MatchOption result (IsNoSigned w32 bytes.now) (λ z. bytes.now ≡ signed_decimal z) }
{
    narrow(signed(bytes)?)
}
