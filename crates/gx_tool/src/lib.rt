//! Runs of scripts: each request of a script is run on a repository, and gets a reply.
//!
//! `run` takes a script from a source, runs it request by request over any store, and writes a line to a sink for each
//! request. Or it makes commits of a generator, and writes three lines about them. It answers the exit status of the
//! program `gx`, which hands it real streams.
#![tactic(auto)]

mod answer;
mod commit_form;
mod delete_form;
mod executing;
mod generating;
mod generator;
pub mod laws;
mod log_form;
mod ref_form;
mod refs_form;
mod refusal;
mod reply;
mod running;
mod status;
mod target;
mod words;

pub use answer::Answer;
pub use executing::{ExecuteError, execute};
pub use generator::generated_commit;
pub use refusal::Refusal;
pub use reply::{Reply, print_reply};
pub use running::{run, run_limited};
pub use words::{BadWords, Job, parse_words};
