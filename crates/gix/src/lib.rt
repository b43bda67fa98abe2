//! The repository: commits of edits, edits of trees, listings of references and logs, over any store.
//!
//! A call is answered in one of two ways. Either all was done, and the clause for Ok says what the store then
//! means; or an error tells why not, and what was left behind. Whatever an error leaves, the call lets no
//! reference name a commit before that is stored: objects come first, each after all that it names.
//!
//! A commit goes through five stages: its base, its edits, its trees, its identities and its reference. All of them
//! are passed before the first write, so that a request with a fault of its own leaves nothing behind.
#![tactic(auto)]

mod base;
pub mod commit;
mod commit_edits;
mod edits;
mod error;
mod ext;
pub mod id;
pub mod laws;
mod logs;
mod moving;
mod namespace;
pub mod object;
pub mod object_laws;
mod plan;
pub mod reference;
mod repository;
mod request;
mod settings;
mod space;
mod types;
mod write;

pub use commit_edits::{MadeCommit, NO_PARENT_IDS};
pub use error::CommitEditsError;
pub use ext::ObjectIdExt;
pub use gx_edit::PathEdit;
pub use gx_store::Header;
pub use id::calculate_auto_hex_len;
pub use repository::Repository;
pub use settings::Settings;
pub use types::{Blob, Commit, Id, Object, ObjectDetached, Tag, Tree};
