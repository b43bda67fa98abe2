//! The traits between the engine and the outside: stores of objects and references, the ends that a script is read from
//! and replies are written to, and what makes signatures.
//!
//! The contracts speak of the state of a store: its objects by id, its references and logs by name, which of them can't
//! be read, and how many writes have failed. They say what each call answers and how it changes that state, so callers
//! are proved for every store. `Memory` is a store for tests and for runs without a folder.
#![tactic(auto)]

mod calls;
mod change;
mod conflict;
mod error;
pub mod laws;
mod log_line;
mod maps;
mod memory;
mod memory_signer;
mod memory_sink;
mod memory_source;
mod names;
mod sharing;
mod signer;
mod sink;
mod slots;
mod source;
mod std_sink;
mod std_source;
mod target;
mod traits;
mod writing;

pub use calls::Calls;
pub use change::{LogAct, RefChange, TargetChange};
pub use error::{StoreError, What};
pub use log_line::{LineError, Lines, LogLine, push_log_line};
pub use memory::Memory;
pub use memory_signer::MemorySigner;
pub use memory_sink::MemorySink;
pub use memory_source::MemorySource;
pub use names::Names;
pub use signer::{Signer, SignerError};
pub use sink::{Sink, SinkError};
pub use source::{Source, SourceError};
pub use std_sink::StdSink;
pub use std_source::StdSource;
pub use target::Target;
pub use traits::{Header, Meanings, Objects, References, Store};
pub use writing::{write_object, write_objects};
