//! Where texts are cut.
ghost use Rattle.std.specs.Prelude.{◌≡◌, ◌++◌, ◌∷◌, MatchOption};
ghost use Rattle.gx_object.specs.Split.{Lacks};

use memchr::memchr;

/// What is before the first such byte, and what follows it.
pub(crate) fn split_at_byte(byte: u8, text: &[u8]) -> Option<(&[u8], &[u8])>
    ensures { MatchOption result (Lacks byte text.now) (λ parts. (text.now ≡ parts.0.now ++ byte ∷ parts.1.now)
        × Lacks byte parts.0.now) }
{
    let at = memchr(byte, text)?;
    Some((text.split_at(at).0, text.split_at(at + 1).1))
}
