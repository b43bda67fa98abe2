//! What the lines of a mailmap say.
ghost use Rattle.std.specs.Prelude.{◌≡◌, []};

use gx_hash::Bytes;
use std::alloc::Global;
use std::marker::Model;

/// What replaces the name and the email of those who have this email, and this name where one is given.
#[derive(Debug, Drop)]
pub struct Entry {
    pub new_name: Option<Bytes>,
    pub new_email: Option<Bytes>,
    pub old_name: Option<Bytes>,
    pub old_email: Bytes,
}

/// The entries of a mailmap, in the order of their lines.
#[derive(Debug, Drop)]
pub struct MailmapEntries {
    vec: Vec<Entry>,
}

impl Model for MailmapEntries {
    ghost use Rattle.std.specs.Prelude.{List};
    ghost use Rattle.gx_actor.specs.declared.mailmap.entry.Entry.{Entry};

    ghost Value = { List Entry };

    ghost view = { λ entries. entries.vec.items };
}

impl MailmapEntries {
    pub fn new(alloc: Global) -> MailmapEntries
        ensures { result ≡ [] }
    {
        MailmapEntries {
            vec: Vec::new(alloc),
        }
    }

    pub fn from_vec(vec: Vec<Entry>) -> MailmapEntries
        ensures { result ≡ vec.items }
    {
        MailmapEntries { vec }
    }

    pub fn into_vec(self) -> Vec<Entry>
        ensures { result.items ≡ self }
    {
        self.vec
    }

    pub fn as_slice(&self) -> &[Entry]
        ensures { result.now ≡ self.now }
    {
        &self.vec
    }
}
