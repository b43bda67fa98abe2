//! Descriptions as text.

ghost use Rattle.std.specs.Prelude.{◌≡◌, ◌++◌, take, IfOk, OnOk};
ghost use Rattle.gx_walk.specs.Format.{format_text, long_text, prefix_digits};

use crate::describe::Format;
use bstr::BStr;
use gx_hash::{Bytes, NoMemory, ObjectId};
use std::alloc::Global;
use std::fmt;

impl Format {
    /// The text, as bytes: a name may be no UTF-8.
    pub fn to_bytes(&self, alloc: Global) -> Result<Bytes, NoMemory>
        ensures { IfOk result (λ text. text ≡ format_text self.now) }
    {
        let digits = self.id.to_hex(alloc)?;
        let prefix = first_digits(digits.as_slice(), self.hex_len);
        match &self.name {
            Some(name) if self.long || self.depth != 0 => {
                long_text(alloc, name.as_slice(), self.depth, prefix)
            }
            Some(name) => name.try_clone(),
            None => Bytes::from_slice(alloc, prefix),
        }
    }
}

/// The first digits, or all of them.
fn first_digits(digits: &[u8], hex_len: usize) -> &[u8]
    ensures { result.now ≡ take hex_len digits.now }
{
    match digits.get(..hex_len) {
        Some(digits) => digits,
        None => digits,
    }
}

/// The name, the depth and the prefix of the id.
fn long_text(alloc: Global, name: &[u8], depth: u64, prefix: &[u8]) -> Result<Bytes, NoMemory>
    ensures { IfOk result (λ text. text ≡ long_text name.now depth prefix.now) }
{
    let middle = format!(in alloc; "-{depth}-g")?;
    let mut text = Vec::from_slice(alloc, name)?;
    text.extend_from_slice(middle.as_bytes())?;
    text.extend_from_slice(prefix)?;
    Ok(Bytes::from_vec(text))
}

impl fmt::Display for Format {
    /// The text by convention, to be printed: bytes of a name that are no UTF-8 show as U+FFFD.
    fn fmt<W: fmt::Write>(&self, f: &mut fmt::Formatter<W>) -> fmt::Result {
        let Some(name) = &self.name else {
            return write_prefix(f, &self.id, self.hex_len);
        };
        fmt::Display::fmt(&BStr::new(name.as_slice()), f)?;
        if self.long || self.depth != 0 {
            write!(f, "-{}-g", self.depth)?;
            return write_prefix(f, &self.id, self.hex_len);
        }
        Ok(())
    }
}

/// The first digits of an id, or all of them.
fn write_prefix<W: fmt::Write>(
    f: &mut fmt::Formatter<W>,
    id: &ObjectId,
    hex_len: usize,
) -> fmt::Result {
    let mut left = hex_len;
    for byte in id.as_bytes() {
        for digit in [byte / 16, byte % 16] {
            if left == 0 {
                return Ok(());
            }
            write!(f, "{digit:x}")?;
            left -= 1;
        }
    }
    Ok(())
}
