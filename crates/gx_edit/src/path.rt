//! Paths as they are written: names with a slash between each two.

ghost use Rattle.std.specs.Prelude.{◌≡◌, ◌+◌, ◌<◌, ◌==◌, ◌∷◌, [], length, take, drop, position, MatchOption};
ghost use Rattle.gx_edit.specs.Path.{components};
ghost use Rattle.gx_edit.specs.PathList.{has_empty_name};

fn slash_at(path: &[u8]) -> Option<usize>
    ensures { result ≡ position (λ b. b == 47) path.now }
{
    path.iter().position(|byte| *byte == b'/')
}

/// Where the first name of a path ends.
#[tactic(auto, using(crate::proofs::ComponentLemmas::components_found))]
fn first_slash(path: &[u8]) -> Option<usize>
    ensures { MatchOption result (components path.now ≡ path.now ∷ [])
        (λ at. (at < length path.now)
        × (components path.now ≡ take at path.now ∷ components (drop (at + 1) path.now))) }
{
    slash_at(path)
}

/// Parts a path at its first slash, into the first name and the path after the slash. None where there is no slash.
pub(crate) fn split_first_name(path: &[u8]) -> Option<(&[u8], &[u8])>
    ensures parts { MatchOption result (components path.now ≡ path.now ∷ [])
        (λ parts. components path.now ≡ parts.0.now ∷ components parts.1.now) }
    ensures more { MatchOption result (Unit {0}) (λ parts. (components parts.1.now ≡ []) → ⊥) }
    ensures shorter { MatchOption result (Unit {0}) (λ parts. length parts.1.now < length path.now) }
{
    match first_slash(path) {
        None => None,
        Some(at) => Some((&path[..at], &path[at + 1..])),
    }
}

/// Whether a name of the path is empty.
pub(crate) fn has_empty_name(path: &[u8]) -> bool
    ensures { result ≡ has_empty_name (components path.now) }
{
    let mut rest = path;
    while let Some((name, below)) = split_first_name(rest) {
        if name.is_empty() {
            return true;
        }
        rest = below;
    }
    rest.is_empty()
}
