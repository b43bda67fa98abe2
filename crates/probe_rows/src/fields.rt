//! The fields of a row, read byte by byte.

use std::alloc::{AllocError, AllocFailed, Global};
use std::mem;

/// Why a line is not read.
#[derive(Clone, Copy)]
pub enum Unread {
    Malformed,
    NoMemory,
}

impl From<AllocError> for Unread {
    fn from(_: AllocError) -> Unread {
        Unread::NoMemory
    }
}

impl<T: Drop> From<AllocFailed<T>> for Unread {
    fn from(_: AllocFailed<T>) -> Unread {
        Unread::NoMemory
    }
}

/// Where in a line the reader is.
#[derive(Clone, Copy)]
enum Place {
    /// Between fields.
    Gap,
    /// After a `+`, where a further part of the field begins.
    Joint,
    Bare,
    Quoted,
    /// After a backslash in a quoted text.
    Escape,
    /// After `\x`.
    FirstDigit,
    /// After `\x` and a digit of this value.
    SecondDigit(u8),
    /// After the closing quote.
    Closed,
    /// After the sign of equality.
    Equals,
}

/// The fields of a row, as far as it is read.
#[derive(Drop)]
pub struct Fields {
    alloc: Global,
    list: Vec<Vec<u8>>,
    /// The field that is read: the parts that have ended, the part that has not, and what may be its count, from the
    /// asterisk on.
    field: Vec<u8>,
    part: Vec<u8>,
    count: Vec<u8>,
    has_field: bool,
    is_open: bool,
    place: Place,
}

impl Fields {
    pub fn new(alloc: Global) -> Fields {
        Fields {
            alloc,
            list: Vec::new(alloc),
            field: Vec::new(alloc),
            part: Vec::new(alloc),
            count: Vec::new(alloc),
            has_field: false,
            is_open: false,
            place: Place::Gap,
        }
    }

    /// Whether a line of a row was read, and its answer was not.
    pub fn is_open(&self) -> bool {
        self.is_open
    }

    pub fn as_slice(&self) -> &[Vec<u8>] {
        &self.list
    }

    /// Forgets the row.
    pub fn clear(&mut self) {
        self.list.clear();
        self.field.clear();
        self.part.clear();
        self.count.clear();
        self.has_field = false;
        self.is_open = false;
    }

    /// Reads a line. Where it has an answer, that is handed back.
    pub fn read<'a>(&mut self, line: &'a [u8]) -> Result<Option<&'a [u8]>, Unread> {
        self.is_open = true;
        self.place = if self.has_field && line.starts_with(b"+") {
            Place::Closed
        } else {
            Place::Gap
        };
        for (at, byte) in line.iter().enumerate() {
            if let Place::Equals = self.place {
                self.end_field()?;
                return answer_from(line, at);
            }
            self.step(*byte)?;
        }
        self.end_line()?;
        Ok(None)
    }

    fn step(&mut self, byte: u8) -> Result<(), Unread> {
        match self.place {
            Place::Gap => self.in_gap(byte),
            Place::Joint => self.begin_part(byte),
            Place::Bare => self.in_bare(byte),
            Place::Quoted => self.in_quoted(byte),
            Place::Escape => self.in_escape(byte),
            Place::FirstDigit => self.first_digit(byte),
            Place::SecondDigit(high) => self.second_digit(high, byte),
            Place::Closed => self.in_closed(byte),
            Place::Equals => Err(Unread::Malformed),
        }
    }

    fn in_gap(&mut self, byte: u8) -> Result<(), Unread> {
        match byte {
            b' ' => Ok(()),
            b'=' => {
                self.place = Place::Equals;
                Ok(())
            }
            _ => {
                self.end_field()?;
                self.has_field = true;
                self.begin_part(byte)
            }
        }
    }

    fn begin_part(&mut self, byte: u8) -> Result<(), Unread> {
        match byte {
            b' ' | b'=' | b'+' => Err(Unread::Malformed),
            b'"' => {
                self.place = Place::Quoted;
                Ok(())
            }
            _ => {
                self.place = Place::Bare;
                self.in_bare(byte)
            }
        }
    }

    fn in_bare(&mut self, byte: u8) -> Result<(), Unread> {
        match byte {
            b' ' => self.end_part(Place::Gap),
            b'+' => self.end_part(Place::Joint),
            b'=' | b'"' => Err(Unread::Malformed),
            b'*' => {
                self.no_count()?;
                Ok(self.count.push(byte)?)
            }
            b'0'..=b'9' if !self.count.is_empty() => Ok(self.count.push(byte)?),
            _ => {
                self.no_count()?;
                Ok(self.part.push(byte)?)
            }
        }
    }

    fn in_quoted(&mut self, byte: u8) -> Result<(), Unread> {
        match byte {
            b'"' => {
                self.place = Place::Closed;
                Ok(())
            }
            b'\\' => {
                self.place = Place::Escape;
                Ok(())
            }
            _ => Ok(self.part.push(byte)?),
        }
    }

    fn in_escape(&mut self, byte: u8) -> Result<(), Unread> {
        match byte {
            b'n' => self.escaped(b'\n'),
            b't' => self.escaped(b'\t'),
            b'r' => self.escaped(b'\r'),
            b'0' => self.escaped(0),
            b'\\' | b'"' => self.escaped(byte),
            b'x' => {
                self.place = Place::FirstDigit;
                Ok(())
            }
            _ => Err(Unread::Malformed),
        }
    }

    fn first_digit(&mut self, byte: u8) -> Result<(), Unread> {
        self.place = Place::SecondDigit(digit(byte)?);
        Ok(())
    }

    fn second_digit(&mut self, high: u8, byte: u8) -> Result<(), Unread> {
        let low = digit(byte)?;
        self.escaped(high.wrapping_mul(16).wrapping_add(low))
    }

    fn escaped(&mut self, byte: u8) -> Result<(), Unread> {
        self.place = Place::Quoted;
        Ok(self.part.push(byte)?)
    }

    fn in_closed(&mut self, byte: u8) -> Result<(), Unread> {
        match byte {
            b' ' => self.end_part(Place::Gap),
            b'+' => self.end_part(Place::Joint),
            b'*' if self.count.is_empty() => Ok(self.count.push(byte)?),
            b'0'..=b'9' if !self.count.is_empty() => Ok(self.count.push(byte)?),
            _ => Err(Unread::Malformed),
        }
    }

    /// What seemed to be a count is text.
    fn no_count(&mut self) -> Result<(), Unread> {
        self.part.extend_from_slice(&self.count)?;
        self.count.clear();
        Ok(())
    }

    /// An asterisk without a number is text.
    fn end_part(&mut self, next: Place) -> Result<(), Unread> {
        if self.count.len() == 1 {
            self.no_count()?;
        }
        for _ in 0..times(&self.count) {
            self.field.extend_from_slice(&self.part)?;
        }
        self.part.clear();
        self.count.clear();
        self.place = next;
        Ok(())
    }

    fn end_field(&mut self) -> Result<(), Unread> {
        if self.has_field {
            let field = mem::replace(&mut self.field, Vec::new(self.alloc));
            self.list.push(field)?;
            self.has_field = false;
        }
        Ok(())
    }

    /// The last field stays open, for a line that goes on with it.
    fn end_line(&mut self) -> Result<(), Unread> {
        match self.place {
            Place::Gap => Ok(()),
            Place::Bare | Place::Closed => self.end_part(Place::Gap),
            _ => Err(Unread::Malformed),
        }
    }
}

/// What stands after the space at this place.
fn answer_from(line: &[u8], at: usize) -> Result<Option<&[u8]>, Unread> {
    match line.get(at..) {
        Some([b' ', answer @ ..]) => Ok(Some(answer)),
        _ => Err(Unread::Malformed),
    }
}

fn digit(byte: u8) -> Result<u8, Unread> {
    match byte {
        b'0'..=b'9' => Ok(byte - b'0'),
        b'a'..=b'f' => Ok(byte - b'a' + 10),
        b'A'..=b'F' => Ok(byte - b'A' + 10),
        _ => Err(Unread::Malformed),
    }
}

/// How often a part stands with this count: an asterisk and digits, or nothing.
fn times(count: &[u8]) -> usize {
    let Some((_, digits)) = count.split_first() else {
        return 1;
    };
    digits.iter().fold(0usize, |number, digit| {
        number
            .saturating_mul(10)
            .saturating_add(usize::from(digit.wrapping_sub(b'0')))
    })
}
