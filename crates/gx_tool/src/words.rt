ghost use Rattle.std.specs.Prelude.{◌≡◌, ◌↔◌, ℕ, decimal, IsTrue, MatchOption, MatchResult};
ghost use Rattle.gx_tool.specs.Words.{AreAllowed, AskFor, IsCount};

use itoa::Buffer;
use thiserror::Error;

/// What the words after the program's name ask for.
#[derive(Clone, Copy, Debug, PartialEq, Eq)]
pub enum Job {
    /// To apply a script.
    Apply,
    /// To make this many commits of the generator.
    Generate(u32),
}

/// The words are no allowed list.
#[derive(Clone, Copy, Debug, PartialEq, Eq, Error)]
#[error("the words are no allowed list")]
pub struct BadWords;

/// The most commits of the generator.
const MOST_COMMITS: u32 = 20_000;

/// Whether the word spells the number as the program writes it.
fn is_spelled(number: u32, word: &str) -> bool
    ensures { IsTrue result ↔ (word.now ≡ decimal number) }
{
    let mut buffer = Buffer::new();
    word == buffer.format(number)
}

/// The count of commits that the word spells.
fn count_of(word: &str) -> Option<u32>
    ensures { MatchOption result ((count : ℕ) → IsCount count word.now → ⊥) (λ count. IsCount count word.now) }
{
    let Ok(count) = word.parse::<u32>() else {
        return None;
    };
    if count > MOST_COMMITS {
        return None;
    }
    if !is_spelled(count, word) {
        return None;
    }
    Some(count)
}

/// Reads the words: a store, and what to do with it.
pub fn parse_words(words: &[String]) -> Result<Job, BadWords>
    ensures { MatchResult result (AskFor words.now) (λ _. AreAllowed words.now → ⊥) }
{
    match words {
        [_, word] if word.as_str() == "apply" => Ok(Job::Apply),
        [_, word, count] if word.as_str() == "generate" => match count_of(count.as_str()) {
            Some(count) => Ok(Job::Generate(count)),
            None => Err(BadWords),
        },
        _ => Err(BadWords),
    }
}
