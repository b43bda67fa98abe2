//! Paths as they are written: names with a slash between each two.
ghost use Rattle.std.specs.Prelude.{◌≡◌, ◌+◌, ◌<◌, ◌==◌, ◌∷◌, [], length, take, drop, position, MatchOption};
ghost use Rattle.gx_rules.specs.Path.{components};

use std::marker::Model;

/// The components of a path that are left, front to back.
#[derive(Debug, Drop)]
pub struct PathComponents<'a> {
    rest: Option<&'a [u8]>,
}

impl<'a> Model for PathComponents<'a> {
    ghost use Rattle.gx_rules.specs.Path.{Path, components_in};

    ghost Value = { Path };

    ghost view = { λ parts. components_in parts.rest };
}

impl<'a> Iterator for PathComponents<'a> {
    ghost use Rattle.std.specs.Iterator.{YieldsFirstBy, item_count};

    type Item = &'a [u8];

    ghost next_gives = { YieldsFirstBy (λ component. component.now) (λ parts. parts) };

    ghost remaining = { item_count (λ parts. parts) };

    fn next(&mut self) -> Option<&'a [u8]> {
        let path = self.rest?;
        match first_slash(path) {
            None => {
                self.rest = None;
                Some(path)
            }
            Some(at) => {
                self.rest = Some(&path[at + 1..]);
                Some(&path[..at])
            }
        }
    }
}

/// The slices between the slashes of a path. An empty path has one component, which is empty.
pub fn components(path: &[u8]) -> PathComponents<'_>
    ensures { result ≡ components path.now }
{
    PathComponents { rest: Some(path) }
}

/// Where the first component ends.
#[tactic(auto, using(crate::specs::Laws::Paths::components_found))]
fn first_slash(path: &[u8]) -> Option<usize>
    ensures { MatchOption result (components path.now ≡ path.now ∷ [])
        (λ at. (at < length path.now)
        × (components path.now ≡ take at path.now ∷ components (drop (at + 1) path.now))) }
{
    slash_at(path)
}

fn slash_at(path: &[u8]) -> Option<usize>
    ensures { result ≡ position (λ b. b == 47) path.now }
{
    path.iter().position(|byte| *byte == b'/')
}
