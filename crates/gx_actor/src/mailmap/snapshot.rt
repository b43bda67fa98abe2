//! A mailmap that is ready to be asked.
ghost use Rattle.std.specs.Prelude.{◌≡◌, ◌++◌, [], OnOk, OnErr, option_map};
ghost use Rattle.bstr.specs.BStr.{bstr_bytes};
ghost use Rattle.gx_actor.specs.Identity.{identity};
ghost use Rattle.gx_actor.specs.Index.{replaced, text_at};
ghost use Rattle.gx_actor.specs.Mailmap.{resolved};

use super::index::{Key, Places, index, places_of};
use super::{Entry, MailmapEntries};
use crate::IdentityRef;
use bstr::BStr;
use gx_hash::{Bytes, NoMemory};
use std::alloc::Global;
use std::marker::Model;

/// The entries of any mailmaps, in the order in which they were merged. Contracts see the list of them.
///
/// ```
/// let mut snapshot = Snapshot::new(alloc);
/// snapshot.merge(parse_ignore_errors(alloc, b"Joe R. Developer <joe@example.com>\n")?)?;
/// let who = snapshot.resolve(IdentityRef { name: BStr::new(b"Joe"), email: BStr::new(b"JOE@example.com"), time });
/// // who.name is `Joe R. Developer`, and who.email is still `JOE@example.com`
/// ```
#[derive(Drop)]
pub struct Snapshot {
    entries: Vec<Entry>,
    index: Vec<(Key, Places)>,
}

impl Model for Snapshot {
    ghost use Rattle.std.specs.Prelude.{List};
    ghost use Rattle.gx_actor.specs.declared.mailmap.entry.Entry.{Entry};
    ghost use Rattle.gx_actor.specs.Index.{IsIndex};

    ghost Value = { List Entry };

    ghost view = { λ snapshot. snapshot.entries.items };

    ghost invariant = { λ snapshot. IsIndex snapshot.entries.items snapshot.index.items };
}

impl Snapshot {
    /// No entries.
    pub fn new(alloc: Global) -> Snapshot
        ensures { result ≡ [] }
    {
        Snapshot {
            entries: Vec::new(alloc),
            index: Vec::new(alloc),
        }
    }

    /// Adds the entries after those that are there.
    pub fn merge(&mut self, entries: MailmapEntries) -> Result<(), NoMemory>
        ensures ok { OnOk result (self.new ≡ self.old ++ entries) }
        ensures leaves { OnErr result (self.new ≡ self.old) }
    {
        let before = self.entries.len();
        let mut added = entries.into_vec();
        self.entries.append(&mut added)?;
        match index(*self.entries.allocator(), &self.entries) {
            Ok(index) => {
                self.index = index;
                Ok(())
            }
            Err(error) => {
                self.entries.truncate(before);
                Err(error)
            }
        }
    }

    /// The identity with the name and the email that the mailmap gives for it. Takes no memory.
    pub fn resolve<'a>(&'a self, id: IdentityRef<'a>) -> IdentityRef<'a>
        ensures { identity result ≡ resolved self.now (identity id.entry) }
    {
        match places_of(&self.index, id.email.as_bytes(), id.name.as_bytes()) {
            Some(places) => replaced(&self.entries, places, id),
            None => match places_of(&self.index, id.email.as_bytes(), b"") {
                Some(places) => replaced(&self.entries, places, id),
                None => id,
            },
        }
    }
}

fn replaced<'a>(entries: &'a [Entry], places: Places, id: IdentityRef<'a>) -> IdentityRef<'a>
    ensures { identity result ≡ replaced entries.now places (identity id.entry) }
{
    IdentityRef {
        name: name_at(entries, places.name).unwrap_or(id.name),
        email: email_at(entries, places.email).unwrap_or(id.email),
        time: id.time,
    }
}

fn name_at(entries: &[Entry], place: Option<usize>) -> Option<BStr<'_>>
    ensures { option_map bstr_bytes result ≡ text_at (λ entry. entry.new_name) entries.now place }
{
    text(&entries.get(place?)?.new_name)
}

fn email_at(entries: &[Entry], place: Option<usize>) -> Option<BStr<'_>>
    ensures { option_map bstr_bytes result ≡ text_at (λ entry. entry.new_email) entries.now place }
{
    text(&entries.get(place?)?.new_email)
}

fn text(text: &Option<Bytes>) -> Option<BStr<'_>>
    ensures { option_map bstr_bytes result ≡ text.now }
{
    match text {
        Some(text) => Some(BStr::new(text.as_slice())),
        None => None,
    }
}
