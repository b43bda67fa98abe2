// Names, and paths as lists of them.
ghost use Rattle.std.specs.Prelude.{◌≡◌, ◌≢◌, ◌∷◌, ◌++◌, [], ◌↔◌, IfOk, IsTrue, Contains, bytes_eq};
ghost use Rattle.gx_edit.specs.Path.{IsName, components, path_eq, leads_to};
ghost use Rattle.gx_edit.specs.CanonicalTree.{IsBelow};

use gx_hash::{Bytes, NoMemory};
use std::alloc::Global;
use std::cmp::Ordering;

/// The names of a path that is written with a slash between each two.
pub fn components(alloc: Global, path: &[u8]) -> Result<Vec<Bytes>, NoMemory>
    ensures { IfOk result (λ names. names.items ≡ components path.now) }
{
    let mut names = Vec::new(alloc);
    for name in gx_rules::components(path) {
        names.push(Bytes::from_slice(alloc, name)?)?;
    }
    Ok(names)
}

pub(crate) fn is_same_name(name: &[u8], other: &[u8]) -> bool
    ensures { result ≡ bytes_eq name.now other.now }
{
    name == other
}

pub(crate) fn differ(name: &[u8], other: &[u8]) -> bool
    ensures { IsTrue result ↔ (name.now ≢ other.now) }
{
    name != other
}

pub(crate) fn is_below(key: &[u8], other: &[u8]) -> bool
    ensures { IsTrue result ↔ IsBelow key.now other.now }
{
    matches!(key.cmp(other), Ordering::Less)
}

fn has_byte(name: &[u8], byte: u8) -> bool
    ensures { IsTrue result ↔ Contains name.now byte }
{
    name.contains(&byte)
}

fn is_not_empty(name: &[u8]) -> bool
    ensures { IsTrue result ↔ (name.now ≢ []) }
{
    !name.is_empty()
}

pub(crate) fn is_name(name: &[u8]) -> bool
    ensures { IsTrue result ↔ IsName name.now }
{
    let slash = has_byte(name, b'/');
    let zero = has_byte(name, 0);
    is_not_empty(name) && !slash && !zero
}

/// The key by which a directory of this name is sorted.
pub(crate) fn with_slash(alloc: Global, name: &[u8]) -> Result<Bytes, NoMemory>
    ensures { IfOk result (λ key. key ≡ name.now ++ 47 ∷ []) }
{
    let mut key = Vec::from_slice(alloc, name)?;
    key.push(b'/')?;
    Ok(Bytes::from_vec(key))
}

pub(crate) fn is_same_path(path: &[Bytes], other: &[Bytes]) -> bool
    ensures { result ≡ path_eq path.now other.now }
{
    path == other
}

/// Whether the second path is the first, or lies below it.
pub(crate) fn leads_to(path: &[Bytes], other: &[Bytes]) -> bool
    ensures { result ≡ leads_to path.now other.now }
{
    let Some((name, path)) = path.split_first() else {
        return true;
    };
    let Some((first, other)) = other.split_first() else {
        return false;
    };
    let below = leads_to(path, other);
    is_same_name(name.as_slice(), first.as_slice()) && below
}
