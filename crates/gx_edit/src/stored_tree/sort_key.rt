// The order in which Git sorts the entries of a tree.
ghost use Rattle.std.specs.Prelude.{◌≡◌, ◌+◌, ◌<◌, ◌^◌, slice_get, IfSome};
ghost use Rattle.gx_object.specs.Tree.{sort_key};
ghost use Rattle.gx_rules.specs.Name.{name_cmp};

use gx_object::Entry;
use std::cmp::Ordering;

/// A byte of the entry's sort key: a directory's name counts as if a slash followed it.
fn key_byte(entry: &Entry, at: usize) -> Option<u8>
    ensures value { result ≡ slice_get (sort_key entry.now) at }
    ensures small { IfSome result (λ _. at + 1 < 2 ^ 64) }
{
    let name = entry.filename.as_slice();
    match name.get(at) {
        Some(byte) => Some(*byte),
        None if at == name.len() && entry.mode.is_tree() => Some(b'/'),
        None => None,
    }
}

/// How the sort keys of two entries compare.
pub(crate) fn compare_keys(a: &Entry, b: &Entry) -> Ordering
    ensures { result ≡ name_cmp (sort_key a.now) (sort_key b.now) }
{
    let mut at = 0;
    loop {
        match (key_byte(a, at), key_byte(b, at)) {
            (None, None) => return Ordering::Equal,
            (None, Some(_)) => return Ordering::Less,
            (Some(_), None) => return Ordering::Greater,
            (Some(x), Some(y)) => {
                if x != y {
                    return x.cmp(&y);
                }
            }
        }
        at += 1;
    }
}
