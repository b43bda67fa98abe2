//! Lines of reflogs.
ghost use Rattle.std.specs.Prelude.{◌≡◌, [], IfOk};

mod decode;
mod write;

pub use decode::LineError;
use gx_hash::{Bytes, NoMemory, ObjectId};
use gx_object::Signature;
use std::alloc::Global;
use std::marker::Model;
pub use write::push_log_line;

/// A line of a reference's log: what its target was and became, by whom, and why.
#[derive(Debug, Drop)]
pub struct LogLine {
    /// The null id where there was no target.
    pub previous: ObjectId,
    /// The null id where the reference was removed.
    pub new: ObjectId,
    pub signature: Signature,
    /// One line of text, without its newline.
    pub message: Bytes,
}

impl LogLine {
    pub fn try_clone(&self) -> Result<LogLine, NoMemory>
        ensures { IfOk result (λ copy. copy ≡ self.now) }
    {
        Ok(LogLine {
            previous: self.previous,
            new: self.new,
            signature: self.signature.try_clone()?,
            message: self.message.try_clone()?,
        })
    }
}

/// The lines of a log, the oldest first.
#[derive(Debug, Drop)]
pub struct Lines {
    vec: Vec<LogLine>,
}

impl Model for Lines {
    ghost use Rattle.std.specs.Prelude.{List};
    ghost use Rattle.gx_store.specs.declared.log_line.LogLine.{LogLine};

    ghost Value = { List LogLine };

    ghost view = { λ lines. lines.vec.items };
}

impl Lines {
    pub fn new(alloc: Global) -> Lines
        ensures { result ≡ [] }
    {
        Lines {
            vec: Vec::new(alloc),
        }
    }

    pub fn from_vec(vec: Vec<LogLine>) -> Lines
        ensures { result ≡ vec.items }
    {
        Lines { vec }
    }

    pub fn into_vec(self) -> Vec<LogLine>
        ensures { result.items ≡ self }
    {
        self.vec
    }

    pub fn as_slice(&self) -> &[LogLine]
        ensures { result.now ≡ self.now }
    {
        &self.vec
    }

    pub fn try_clone(&self) -> Result<Lines, NoMemory>
        ensures { IfOk result (λ copy. copy ≡ self.now) }
    {
        Lines::from_slice(*self.vec.allocator(), &self.vec)
    }

    /// Copies of the lines.
    pub fn from_slice(alloc: Global, lines: &[LogLine]) -> Result<Lines, NoMemory>
        ensures { IfOk result (λ copy. copy ≡ lines.now) }
    {
        let mut copies = Vec::with_capacity(alloc, lines.len())?;
        for line in lines {
            copies.push(line.try_clone()?)?;
        }
        Ok(Lines { vec: copies })
    }
}
