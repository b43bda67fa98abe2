//! What the library says of walks over histories, merge bases, descriptions and traversals of trees, row by row.
//! It reads rows from standard input, and prints them again with what the library answers.
#![tactic(auto)]

mod bases;
mod descriptions;
mod errors;
mod history;
mod made;
mod maps;
mod trees;
mod walks;

use bases::Call;
use probe_rows::{Answer, ProbeError, answer_rows};
use std::alloc::Global;
use std::io;
use std::process::ExitCode;

/// Reading or writing failed, or memory ran out.
const FAILED: u8 = 3;

fn main(rt: HostRuntime) -> ExitCode {
    ExitCode::from(
        match answer_rows(rt.alloc(), &Library, rt.reader(), io::writer(&rt)) {
            Ok(()) => 0,
            Err(_) => FAILED,
        },
    )
}

/// The library that walks over histories.
struct Library;

impl Answer for Library {
    fn answer(&self, alloc: Global, call: &str, fields: &[Vec<u8>]) -> Result<Vec<u8>, ProbeError> {
        match call {
            "describe" => descriptions::answer(alloc, fields),
            "bases" => bases::answer(alloc, Call::Bases, fields),
            "octopus" => bases::answer(alloc, Call::Octopus, fields),
            "graph" => maps::graph(alloc, fields),
            "name_map" => maps::name_map(alloc, fields),
            "walk" => walks::answer(alloc, fields),
            "made" => made::answer(alloc, fields),
            "traverse" => trees::answer(alloc, fields),
            _ => Err(ProbeError::UnknownCall),
        }
    }
}
