// What stands at a name of a loaded directory.

use gx_hash::ObjectId;
use gx_object::EntryMode;

/// An entry of a directory without its name. Its mode stays as it was read, and its id may be null.
#[derive(Clone, Copy, Debug, PartialEq, Eq)]
pub(crate) struct Item {
    pub mode: EntryMode,
    pub id: ObjectId,
}
