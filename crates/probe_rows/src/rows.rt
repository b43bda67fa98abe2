//! How rows are read, and printed with other answers.
//!
//! A line that is empty or begins with `#` is a comment. A row is fields with a space between, ` = ` and the expected
//! answer; the first field is the call. A field is one or more parts joined by `+`: a bare word or a quoted text, which
//! `*N` repeats. A row goes on in lines that begin with two spaces; one of them that begins with `+` continues the last
//! field. The answer stands on the row's last line.

use crate::answers::failure;
use crate::error::ProbeError;
use crate::fields::{Fields, Unread};
use std::alloc::Global;
use std::str;

/// What is printed in place of a line that is no part of a row.
const MALFORMED: &[u8] = b"malformed row\n";

const CONTINUES: &[u8] = b"  ";

/// What answers the calls of rows: the libraries that a program asks.
pub trait Answer {
    /// What the call answers, or why there is no answer: of a call that is not known, `UnknownCall`.
    fn answer(&self, alloc: Global, call: &str, fields: &[Vec<u8>]) -> Result<Vec<u8>, ProbeError>;
}

/// The rows of the input, with what the libraries answer in place of what is expected.
pub fn answered<A: Answer>(
    alloc: Global,
    libraries: &A,
    input: &[u8],
) -> Result<Vec<u8>, ProbeError> {
    let mut rows = Rows::new(alloc);
    for line in input
        .strip_suffix(b"\n")
        .unwrap_or(input)
        .split(|byte| *byte == b'\n')
    {
        if rows.read(line)? {
            let found = answer_to(alloc, libraries, rows.fields());
            rows.answer(found)?;
        }
    }
    rows.into_output()
}

fn answer_to<A: Answer>(
    alloc: Global,
    libraries: &A,
    row: &[Vec<u8>],
) -> Result<Vec<u8>, ProbeError> {
    let [call, fields @ ..] = row else {
        return Err(ProbeError::UnknownCall);
    };
    match str::from_utf8(call) {
        Ok(call) => libraries.answer(alloc, call, fields),
        Err(_) => Err(ProbeError::UnknownCall),
    }
}

/// Rows that are read line by line, and what is printed of them.
#[derive(Drop)]
struct Rows {
    alloc: Global,
    row: Fields,
    output: Vec<u8>,
}

impl Rows {
    fn new(alloc: Global) -> Rows {
        Rows {
            alloc,
            row: Fields::new(alloc),
            output: Vec::new(alloc),
        }
    }

    /// Reads a line, and says whether it ends a row. That is answered before the next line is read.
    fn read(&mut self, line: &[u8]) -> Result<bool, ProbeError> {
        if !self.row.is_open() && is_comment(line) {
            self.print_line(line)?;
            return Ok(false);
        }
        match read_line(&mut self.row, line) {
            Ok(None) => {
                self.print_line(line)?;
                Ok(false)
            }
            Ok(Some(head)) => {
                self.output.extend_from_slice(head)?;
                Ok(true)
            }
            Err(Unread::Malformed) => {
                self.output.extend_from_slice(MALFORMED)?;
                self.row.clear();
                Ok(false)
            }
            Err(Unread::NoMemory) => Err(ProbeError::NoMemory),
        }
    }

    fn print_line(&mut self, line: &[u8]) -> Result<(), ProbeError> {
        self.output.extend_from_slice(line)?;
        self.output.push(b'\n')?;
        Ok(())
    }

    /// The fields of the row: the call, and what it is given.
    fn fields(&self) -> &[Vec<u8>] {
        self.row.as_slice()
    }

    /// Prints what the call answers, and forgets the row.
    fn answer(&mut self, found: Result<Vec<u8>, ProbeError>) -> Result<(), ProbeError> {
        let answer = match found {
            Ok(answer) => answer,
            Err(error) => failure(self.alloc, error)?,
        };
        self.row.clear();
        self.print_line(&answer)
    }

    /// All that is printed. A row without an answer is malformed.
    fn into_output(self) -> Result<Vec<u8>, ProbeError> {
        let mut output = self.output;
        if self.row.is_open() {
            output.extend_from_slice(MALFORMED)?;
        }
        Ok(output)
    }
}

fn is_comment(line: &[u8]) -> bool {
    line.is_empty() || line.starts_with(b"#")
}

/// Reads the fields of a line. The line up to its ` = ` is handed back where it has one.
fn read_line<'a>(row: &mut Fields, line: &'a [u8]) -> Result<Option<&'a [u8]>, Unread> {
    let fields = match line.strip_prefix(CONTINUES) {
        Some(more) if row.is_open() => more,
        None if !row.is_open() => line,
        _ => return Err(Unread::Malformed),
    };
    match row.read(fields)? {
        Some(answer) => Ok(Some(line.strip_suffix(answer).unwrap_or(line))),
        None => Ok(None),
    }
}
