//! Rows: lines of a call, its fields and the answer that is expected, read and printed again with the answer that the
//! libraries give. A program of rows says what answers calls, by the trait `Answer`, and hands over to `answer_rows`.
#![tactic(auto)]

pub mod answers;
mod error;
mod fields;
mod rows;
mod streams;

pub use error::ProbeError;
pub use rows::{Answer, answered};
pub use streams::{answer_rows, read_input, write_output};
