//! The letters of a pattern.
ghost use Rattle.std.specs.Prelude.{◌≡◌, ◌<◌, [], ◌∷◌, length, IfSome, MatchOption};
ghost use Rattle.gx_rules.specs.Pattern.{letters, byte_of, is_bare};
ghost use Rattle.gx_rules.specs.PatternReading.{letter_of};

/// A byte of a pattern: bare, or after a backslash that takes its meaning from it.
#[derive(Clone, Copy)]
pub(super) enum Letter {
    Bare(u8),
    Escaped(u8),
}

impl Letter {
    pub(super) fn byte(self) -> u8
        ensures { result ≡ byte_of (letter_of self) }
    {
        match self {
            Letter::Bare(byte) | Letter::Escaped(byte) => byte,
        }
    }

    /// Whether the letter is the byte, with its meaning.
    pub(super) fn is_bare(self, byte: u8) -> bool
        ensures { result ≡ is_bare byte (letter_of self) }
    {
        match self {
            Letter::Bare(bare) => bare == byte,
            Letter::Escaped(_) => false,
        }
    }
}

/// The first letter of the text, and the text after it. A backslash that nothing follows is bare.
#[tactic(auto, using(crate::proofs::PatternLetters::reading))]
pub(super) fn read_letter(text: &[u8]) -> Option<(Letter, &[u8])>
    ensures letters { MatchOption result
        (letters text.now ≡ [])
        (λ read. letters text.now ≡ letter_of read.0 ∷ letters read.1.now) }
    ensures shorter { IfSome result (λ read. length read.1.now < length text.now) }
{
    let (byte, rest) = text.split_first()?;
    if *byte != b'\\' {
        return Some((Letter::Bare(*byte), rest));
    }
    match rest.split_first() {
        Some((next, rest)) => Some((Letter::Escaped(*next), rest)),
        None => Some((Letter::Bare(*byte), rest)),
    }
}
