//! What a name says to a file system that passes over some code points, some letters' case, or some bytes at the end.
ghost use Rattle.std.specs.Prelude.{◌≡◌, ◌<◌, ◌≤◌, length, MatchOption};
ghost use Rattle.gx_rules.specs.Component.{seen, spells, ends_at, is_ignorable, without_ignorable};
ghost use Rattle.gx_rules.specs.ComponentRules.{SeesFirst};

use std::marker::Model;

/// The bytes of a name that the file system sees: on HFS+ those outside of ignorable code points, else all.
#[derive(Drop)]
pub(super) struct Seen<'a> {
    name: &'a [u8],
    hfs: bool,
}

impl<'a> Model for Seen<'a> {
    ghost use Rattle.std.specs.Prelude.{List, ℕ};
    ghost use Rattle.gx_rules.specs.Component.{seen};

    ghost Value = { List ℕ };

    ghost view = { λ s. seen s.hfs s.name.now };
}

impl<'a> Seen<'a> {
    pub(super) fn new(name: &'a [u8], hfs: bool) -> Seen<'a>
        ensures { result ≡ seen hfs name.now }
    {
        Seen { name, hfs }
    }
}

impl<'a> Iterator for Seen<'a> {
    ghost use Rattle.std.specs.Iterator.{YieldsFirst, item_count};

    type Item = u8;

    ghost next_gives = { YieldsFirst (λ bytes. bytes) };

    ghost remaining = { item_count (λ bytes. bytes) };

    fn next(&mut self) -> Option<u8> {
        if self.hfs {
            self.name = behind_ignorable(self.name);
        }
        let (first, rest) = self.name.split_first()?;
        self.name = rest;
        Some(*first)
    }
}

/// The name from its first code point on that HFS+ sees.
fn behind_ignorable(name: &[u8]) -> &[u8]
    ensures same { without_ignorable result.now ≡ without_ignorable name.now }
    ensures first { SeesFirst result.now }
{
    let mut rest = name;
    while let Some(behind) = without_one(rest) {
        rest = behind;
    }
    rest
}

/// The name after the ignorable code point with which it begins, if it begins with one.
fn without_one(name: &[u8]) -> Option<&[u8]>
    ensures { MatchOption result (SeesFirst name.now)
        (λ behind. (without_ignorable name.now ≡ without_ignorable behind.now)
        × (length behind.now < length name.now)) }
{
    match name {
        [a, b, c, rest @ ..] if is_ignorable(*a, *b, *c) => Some(rest),
        _ => None,
    }
}

fn is_ignorable(a: u8, b: u8, c: u8) -> bool
    ensures { result ≡ is_ignorable a b c }
{
    match (a, b) {
        (0xe2, 0x80) => (0x8c..=0x8f).contains(&c) || (0xaa..=0xae).contains(&c),
        (0xe2, 0x81) => (0xaa..=0xaf).contains(&c),
        (0xef, 0xbb) => c == 0xbf,
        _ => false,
    }
}

/// Whether the name begins with the word, in any ASCII case, then has any bytes of `fill`, and then ends or goes on
/// with a byte of `cut`. The word is given in lower case.
#[tactic(auto, using(crate::proofs::SpellingLemmas::spells_same, crate::proofs::SpellingLemmas::spells_other))]
pub(super) fn spells(name: Seen<'_>, word: &[u8], fill: &[u8], cut: &[u8]) -> bool
    ensures { result ≡ spells word.now fill.now cut.now name.entry }
{
    let mut rest = name;
    for letter in word {
        match rest.next() {
            Some(byte) if byte.to_ascii_lowercase() == *letter => {}
            _ => return false,
        }
    }
    ends_at(rest, fill, cut)
}

/// Whether the name has any bytes of `fill`, and then ends or goes on with a byte of `cut`.
fn ends_at(name: Seen<'_>, fill: &[u8], cut: &[u8]) -> bool
    ensures { result ≡ ends_at fill.now cut.now name.entry }
{
    for byte in name {
        if !fill.contains(&byte) {
            return cut.contains(&byte);
        }
    }
    true
}
