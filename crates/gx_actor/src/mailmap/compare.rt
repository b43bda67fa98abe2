//! Keys compared with texts in any case.
ghost use Rattle.std.specs.Prelude.{◌≡◌};
ghost use Rattle.std.specs.Ordering.{nat_cmp};
ghost use Rattle.std.specs.Cmp.Lexicographic.{slice_cmp};
ghost use Rattle.std.specs.Str.{str_to_ascii_lowercase};
ghost use Rattle.gx_actor.specs.Index.{key_cmp, key_of};

use super::index::Key;
use std::cmp::Ordering;

/// How a key compares with that of an email and a name.
pub(crate) fn compare_keys(key: &Key, email: &[u8], name: &[u8]) -> Ordering
    ensures { result ≡ key_cmp key.now (key_of email.now name.now) }
{
    match compare(key.0.as_slice(), email) {
        Ordering::Equal => compare(key.1.as_slice(), name),
        order => order,
    }
}

/// How a text in lower case compares with another in lower case.
fn compare(lowered: &[u8], text: &[u8]) -> Ordering
    ensures { result ≡ slice_cmp nat_cmp lowered.now (str_to_ascii_lowercase text.now) }
{
    let mut left = lowered;
    let mut right = text;
    while let Some((x, after_x)) = left.split_first() {
        let Some((y, after_y)) = right.split_first() else {
            return Ordering::Greater;
        };
        match x.cmp(&y.to_ascii_lowercase()) {
            Ordering::Equal => {}
            order => return order,
        }
        left = after_x;
        right = after_y;
    }
    if right.is_empty() {
        Ordering::Equal
    } else {
        Ordering::Less
    }
}
