//! What the libraries say of stores, references, path maps, editors and runs, row by row. It reads rows from standard
//! input, and prints them again with what the libraries answer.
#![tactic(auto)]

mod abbreviations;
mod commits;
mod committers;
mod directories;
mod editors;
mod edits;
mod faults;
mod logs;
mod objects;
mod path_maps;
mod reference_edits;
mod references;
mod repository_references;
mod runs;
mod settings;
mod store;
mod tree_editors;
mod values;
mod writes;

use probe_rows::{Answer, ProbeError, answer_rows};
use std::alloc::Global;
use std::io;
use std::process::ExitCode;

/// Reading or writing failed, or memory ran out.
const FAILED: u8 = 3;

fn main(rt: HostRuntime) -> ExitCode {
    ExitCode::from(
        match answer_rows(rt.alloc(), &Libraries, rt.reader(), io::writer(&rt)) {
            Ok(()) => 0,
            Err(_) => FAILED,
        },
    )
}

/// The libraries whose calls rows make here.
struct Libraries;

impl Answer for Libraries {
    fn answer(&self, alloc: Global, call: &str, fields: &[Vec<u8>]) -> Result<Vec<u8>, ProbeError> {
        match call {
            "store" => store::answer(alloc, fields),
            "run" => runs::answer(alloc, fields),
            "is_due" => logs::due_of(alloc, fields),
            "log_line" => logs::line_of(alloc, fields),
            "read_log_line" => logs::read_line(alloc, fields),
            "edits" => path_maps::answer_edits(alloc, fields),
            "path_map" => path_maps::answer_steps(alloc, fields),
            "editor" => editors::answer(alloc, fields),
            "objects" => objects::answer(alloc, fields),
            "writes" => writes::answer(alloc, fields),
            "edit_tree" => tree_editors::answer(alloc, fields),
            _ => directories::answer(alloc, call, fields),
        }
    }
}
