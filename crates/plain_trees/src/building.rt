// The canonical directory of what edits make of the empty tree. How it is built is not proved: it is tested at the end.
ghost use Rattle.std.specs.Prelude.{◌≡◌, IfOk, IfSome};
ghost use Rattle.gx_edit.specs.PathMap.{no_paths, edited};
ghost use Rattle.gx_edit.specs.CanonicalTree.{StandsFor};
ghost use Rattle.plain_trees.specs.Plain.{first_inner, without_first, with_first_leaf};

use crate::edits::edited;
use crate::listing::{Line, Listing};
use crate::names::{components, is_same_name};
use gx_edit::{Leaf, PathEdit};
use gx_hash::{Bytes, HashKind, NoMemory};
use std::alloc::Global;

/// The canonical directory of what the edits make of the empty tree, where it has one. A path with a zero byte is in
/// none.
pub fn directory_of(
    alloc: Global,
    hash: HashKind,
    edits: &[PathEdit],
) -> Result<Option<Listing>, NoMemory>
    ensures { IfOk result (λ found. IfSome found (λ listing. StandsFor listing (edited hash no_paths edits.now))) }
{
    let listing = built(alloc, hash, edits)?;
    if listing.stands_for(alloc, hash, edits)? {
        Ok(Some(listing))
    } else {
        Ok(None)
    }
}

/// The directory of the leaves that are left. In the byte order of whole paths a directory's paths stand together, and
/// where its name with a slash is sorted.
fn built(alloc: Global, hash: HashKind, edits: &[PathEdit]) -> Result<Listing, NoMemory> {
    let mut listing = Listing::end();
    let mut last = None;
    for path in sorted_paths(alloc, edits)?.iter().rev() {
        if last == Some(path.as_slice()) {
            continue;
        }
        let names = components(alloc, path)?;
        if let Some(leaf) = edited(alloc, hash, edits, &names)? {
            listing = listing.with_leaf(alloc, &names, leaf)?;
        }
        last = Some(path.as_slice());
    }
    Ok(listing)
}

fn sorted_paths(alloc: Global, edits: &[PathEdit]) -> Result<Vec<Vec<u8>>, NoMemory> {
    let mut paths = Vec::new(alloc);
    for edit in edits {
        paths.push(Vec::from_slice(alloc, edit.path().as_slice())?)?;
    }
    paths.sort()?;
    Ok(paths)
}

impl Listing {
    /// The directory with a leaf before all others: in its first entry, where that is a directory of the path's first
    /// name.
    pub fn with_leaf(self, alloc: Global, path: &[Bytes], leaf: Leaf) -> Result<Listing, NoMemory>
        ensures { IfOk result (λ listing. listing ≡ with_first_leaf path.now leaf self) }
    {
        let Some((name, below)) = path.split_first() else {
            return Ok(self);
        };
        if below.is_empty() {
            return Listing::file(alloc, name.as_slice(), leaf, self);
        }
        let (inner, rest) = self.split_first(name.as_slice());
        let inner = inner.with_leaf(alloc, below, leaf)?;
        Listing::sub(alloc, name.as_slice(), inner, rest)
    }

    /// What the first entry has below it, where it is a directory of that name, and the entries after it.
    fn split_first(self, name: &[u8]) -> (Listing, Listing)
        ensures inner { result.0 ≡ first_inner name.now self }
        ensures rest { result.1 ≡ without_first name.now self }
    {
        match self.first {
            Line::Sub(first, inner, rest) => {
                if is_same_name(first.as_slice(), name) {
                    return (Box::into_inner(inner), Box::into_inner(rest));
                }
                let first = Line::Sub(first, inner, rest);
                (Listing::end(), Listing { first })
            }
            first => (Listing::end(), Listing { first }),
        }
    }
}
