//! What the programs of rows read and write.

use crate::error::ProbeError;
use crate::rows::{Answer, answered};
use std::alloc::Global;
use std::io::{Read, Write};

/// All bytes of the input.
pub fn read_input<R: Read + Drop>(alloc: Global, mut input: R) -> Result<Vec<u8>, ProbeError> {
    let mut bytes = Vec::new(alloc);
    match input.read_to_end(&mut bytes) {
        Ok(_) => Ok(bytes),
        Err(_) => Err(ProbeError::Failed),
    }
}

/// Writes all of the bytes.
pub fn write_output<W: Write + Drop>(mut output: W, bytes: &[u8]) -> Result<(), ProbeError> {
    match output.write_all(bytes) {
        Ok(()) => Ok(()),
        Err(_) => Err(ProbeError::Failed),
    }
}

/// Answers the rows of the input, and writes them.
pub fn answer_rows<A: Answer, R: Read + Drop, W: Write + Drop>(
    alloc: Global,
    libraries: &A,
    input: R,
    output: W,
) -> Result<(), ProbeError> {
    let rows = read_input(alloc, input)?;
    write_output(output, &answered(alloc, libraries, &rows)?)
}
