//! Who did something, and when: dates as people write them, the personas that a configuration names, and mailmaps.
#![tactic(auto)]

mod date;
mod identity;
pub mod laws;
mod mailmap;
mod persona;

pub use date::{BadDate, read_time};
pub use identity::IdentityRef;
pub use mailmap::{Entry, MailmapEntries, Snapshot, parse_ignore_errors};
pub use persona::{Entity, PersonaSettings, Personas, author_of, committer_of};
