ghost use Rattle.gx_script.specs.Lines.{IsNotBehind, Splits, IsNoPair, IsPair, IsNoTriple, IsTriple, CutsField};
ghost use Rattle.gx_script.specs.Items.{Without};
ghost use Rattle.std.specs.Prelude.{◌≡◌, ◌++◌, [], ◌∷◌, MatchBool, MatchOption};

use memchr::memchr;

/// What stands after the prefix.
pub fn after<'a>(bytes: &'a [u8], prefix: &[u8]) -> Option<&'a [u8]>
    ensures { MatchOption result (IsNotBehind prefix.now bytes.now) (λ rest. bytes.now ≡ prefix.now ++ rest.now) }
{
    bytes.strip_prefix(prefix)
}

/// The bytes before the first such byte, and those after it.
pub fn split_once(bytes: &[u8], byte: u8) -> Option<(&[u8], &[u8])>
    ensures { MatchOption result (Without byte bytes.now) (λ p. Splits byte bytes.now p.0.now p.1.now) }
{
    let at = memchr(byte, bytes)?;
    Some((&bytes[..at], &bytes[at + 1..]))
}

/// Whether there is no such byte.
pub fn is_without(bytes: &[u8], byte: u8) -> bool
    ensures { MatchBool result (Without byte bytes.now) (Without byte bytes.now → ⊥) }
{
    memchr(byte, bytes).is_none()
}

/// The field after the word, and what stands after its space.
pub fn pair<'a>(line: &'a [u8], word: &[u8]) -> Option<(&'a [u8], &'a [u8])>
    ensures { MatchOption result (IsNoPair word.now line.now) (λ p. IsPair word.now line.now p.0.now p.1.now) }
{
    let rest = after(line, word)?;
    let (first, rest) = split_once(rest, b' ')?;
    Some((first, rest))
}

/// Two fields after the word, and what stands after their spaces.
pub fn triple<'a>(line: &'a [u8], word: &[u8]) -> Option<(&'a [u8], &'a [u8], &'a [u8])>
    ensures { MatchOption result (IsNoTriple word.now line.now)
        (λ p. IsTriple word.now line.now p.0.now p.1.now p.2.now) }
{
    let (first, rest) = pair(line, word)?;
    let (second, rest) = split_once(rest, b' ')?;
    Some((first, second, rest))
}

/// The field after the space in front, and what stands after the field.
pub fn next_field(bytes: &[u8]) -> Option<(&[u8], &[u8])>
    ensures { MatchOption result (IsNotBehind (32 ∷ []) bytes.now) (λ p. CutsField bytes.now p.0.now p.1.now) }
{
    let rest = after(bytes, b" ")?;
    match memchr(b' ', rest) {
        Some(at) => Some(rest.split_at(at)),
        None => Some((rest, &[])),
    }
}
