// Whether a directory is the one that edits of the empty tree make.
ghost use Rattle.std.specs.Prelude.{◌≡◌, ◌∷◌, [], ◌++◌, IfOk, IsTrue};
ghost use Rattle.gx_edit.specs.PathMap.{no_paths, edited};
ghost use Rattle.gx_edit.specs.CanonicalTree.{StandsFor};
ghost use Rattle.plain_trees.specs.Plain.{StandsIn, AgreesAt};

use crate::edits::edited;
use crate::listing::{Line, Listing};
use crate::names::components;
use gx_edit::{Leaf, PathEdit};
use gx_hash::{Bytes, HashKind, NoMemory};
use std::alloc::Global;

fn is_same_leaf(leaf: Option<Leaf>, other: Option<Leaf>) -> bool
    ensures { IsTrue result → leaf ≡ other }
{
    match (leaf, other) {
        (None, None) => true,
        (Some(leaf), Some(other)) => leaf == other,
        _ => false,
    }
}

/// The path of a name at another path.
fn joined(alloc: Global, above: &[Bytes], name: &[u8]) -> Result<Vec<Bytes>, NoMemory>
    ensures { IfOk result (λ path. path.items ≡ above.now ++ name.now ∷ []) }
{
    let mut path = Vec::new(alloc);
    for name in above {
        path.push(name.try_clone()?)?;
    }
    path.push(Bytes::from_slice(alloc, name)?)?;
    Ok(path)
}

impl Listing {
    /// Whether each leaf of the directory, which stands at `above`, is what the edits leave at its path.
    #[tactic(auto, using(crate::proofs::PlainLemmas::standing))]
    fn is_left_by(
        &self,
        alloc: Global,
        hash: HashKind,
        edits: &[PathEdit],
        above: &[Bytes],
    ) -> Result<bool, NoMemory>
        ensures { IfOk result (λ yes. IsTrue yes → StandsIn (edited hash no_paths edits.now) above.now self.now) }
    {
        match &self.first {
            Line::End => Ok(true),
            Line::File(name, leaf, rest) => {
                let path = joined(alloc, above, name.as_slice())?;
                let left = edited(alloc, hash, edits, &path)?;
                let others = rest.is_left_by(alloc, hash, edits, above)?;
                Ok(is_same_leaf(left, Some(*leaf)) && others)
            }
            Line::Sub(name, inner, rest) => {
                let path = joined(alloc, above, name.as_slice())?;
                let below = inner.is_left_by(alloc, hash, edits, &path)?;
                let others = rest.is_left_by(alloc, hash, edits, above)?;
                Ok(below && others)
            }
        }
    }

    /// Whether the directory has at the path of each edit what all edits leave there.
    fn agrees_at(
        &self,
        alloc: Global,
        hash: HashKind,
        all: &[PathEdit],
        edits: &[PathEdit],
    ) -> Result<bool, NoMemory>
        ensures { IfOk result (λ yes. IsTrue yes → AgreesAt (edited hash no_paths all.now) self.now edits.now) }
    {
        let Some((edit, others)) = edits.split_first() else {
            return Ok(true);
        };
        let path = components(alloc, edit.path().as_slice())?;
        let left = edited(alloc, hash, all, &path)?;
        let agree = self.agrees_at(alloc, hash, all, others)?;
        Ok(is_same_leaf(self.leaf_at(&path), left) && agree)
    }

    /// Whether the directory is the canonical one of what the edits make of the empty tree.
    #[tactic(auto, using(crate::proofs::PlainLemmas::stands))]
    pub fn stands_for(
        &self,
        alloc: Global,
        hash: HashKind,
        edits: &[PathEdit],
    ) -> Result<bool, NoMemory>
        ensures { IfOk result (λ yes. IsTrue yes → StandsFor self.now (edited hash no_paths edits.now)) }
    {
        let canonical = self.is_canonical(alloc)?;
        let left = self.is_left_by(alloc, hash, edits, &[])?;
        let agrees = self.agrees_at(alloc, hash, edits, edits)?;
        Ok(canonical && left && agrees)
    }
}
