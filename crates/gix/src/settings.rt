//! How a repository is used.

ghost use Rattle.std.specs.Prelude.{◌≡◌, false, true, None};

use gx_refs::WriteReflog;
use gx_rules::{Namespace, Protect};

/// What is chosen for a repository.
#[derive(Debug, Drop)]
pub struct Settings {
    /// Which names a tree may not have.
    pub protect: Protect,
    /// Which logs tell of a change of a reference.
    pub log_mode: WriteReflog,
    /// How many digits ids are abbreviated to, from 4 to all of an id. What is beside that is brought within it. `None`
    /// is as many as suit the number of objects.
    pub hex_len: Option<usize>,
    /// The namespace that names of references are in.
    pub namespace: Option<Namespace>,
}

impl Settings {
    /// The defaults.
    pub fn new() -> Settings
        ensures protect { result.protect ≡ record { hfs = false; ntfs = true; windows = false } }
        ensures log_mode { result.log_mode ≡ WriteReflog.Normal }
        ensures hex_len { result.hex_len ≡ None }
        ensures namespace { result.namespace ≡ None }
    {
        Settings {
            protect: Protect::default(),
            log_mode: WriteReflog::Normal,
            hex_len: None,
            namespace: None,
        }
    }
}
