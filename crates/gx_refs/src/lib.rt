//! References: where symbolic ones lead, which logs a change is written to, how names are looked up and listed, and how
//! lists of edits are made.
#![tactic(auto)]

mod answer;
mod chain_error;
mod changes;
mod conflicts;
mod edit;
mod error;
mod expected;
mod finding;
pub mod laws;
mod listing;
mod log;
mod moving;
mod names_of_chain;
mod plan;
mod preparing;
mod reference;
mod resolving;
mod shared;
mod shown;
mod signing;
mod terms;

pub use chain_error::ChainError;
pub use edit::{Change, Edits, LogChange, PreviousValue, RefEdit, RefLog};
pub use error::RefError;
pub use finding::find;
pub use listing::iterate;
pub use log::{WriteReflog, is_due, log_line};
pub use moving::move_end;
pub use names_of_chain::chain;
pub use plan::{Place, Places, Plan, Way};
pub use preparing::{Prepared, prepare};
pub use reference::Reference;
pub use resolving::{Chain, resolve};
pub use shown::Space;
pub use terms::Terms;
