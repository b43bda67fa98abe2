// What an editor shows of its entries.

use bstr::BStr;
use gx_hash::ObjectId;
use gx_object::EntryMode;

/// An entry of a loaded directory. A directory's id may be out of date, since it is told only when it is written.
#[derive(Clone, Copy, Debug)]
pub struct EntryView<'a> {
    pub mode: EntryMode,
    pub filename: BStr<'a>,
    pub oid: ObjectId,
}
