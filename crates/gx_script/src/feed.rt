ghost use Rattle.gx_script.specs.Reading.{Reading, line_number};
ghost use Rattle.gx_script.specs.Script.{newlines_in};
ghost use Rattle.gx_script.specs.Items.{block_limit};
ghost use Rattle.gx_script.specs.Steps.{ReadOne, ReadOnto, Filled, FoundNewline, FoundLine, HasLine, FoundBlock, ReadsBlock, CutsLarge, given};
ghost use Rattle.std.specs.declared.alloc.Global.{Global};
ghost use Rattle.std.specs.Prelude.{◌≡◌, ◌+◌, ◌≤◌, ◌<◌, [], length, take, drop, vec_len, MatchResult, None, Some};

use crate::ScriptError;
use gx_hash::{Bytes, HashKind, NoMemory};
use gx_store::Source;
use memchr::memchr;
use std::alloc::Global;
use std::marker::Model;
use std::mem;

/// How many bytes are asked for at once.
const CHUNK: usize = 16384;

/// The most bytes of a line before its newline.
const LINE_LIMIT: usize = 65536;

/// What was taken from a source and not yet given.
#[derive(Drop)]
pub struct Feed {
    bytes: Vec<u8>,
    start: usize,
    alloc: Global,
    hash: HashKind,
    room: u64,
    newlines: u64,
    failed: Option<ScriptError>,
}

impl Model for Feed {
    ghost use Rattle.std.specs.Prelude.{◌≤◌, ◌<◌, ◌+◌, ◌-◌, ◌^◌, drop, vec_len};
    ghost use Rattle.gx_script.specs.Reading.{Reading};

    ghost Value = { Reading };

    ghost view = { λ r. record {
      hash = r.hash;
      held = drop r.start r.bytes.items;
      room = r.room;
      newlines = r.newlines;
      failed = r.failed;
    } };

    ghost invariant = { λ r. (r.start ≤ vec_len r.bytes)
        × (r.newlines + (vec_len r.bytes - r.start) + r.room < 2 ^ 64) };
}

/// Asks for one byte. False at the end.
fn read_one<I: Source>(input: &mut I) -> Result<bool, ScriptError>
    ensures one { ReadOne (I.left input.old) (I.left input.new) (I.faults input.old) (I.faults input.new) result }
    ensures later { I.faults input.old ≤ I.faults input.new }
{
    let mut byte = [0u8; 1];
    Ok(input.read(&mut byte)? != 0)
}

/// Reads up to this many bytes, and adds them to those that are there.
fn read_onto<I: Source>(input: &mut I, bytes: &mut Vec<u8>, most: u64) -> Result<usize, ScriptError>
    requires { 0 < most }
    ensures read { ReadOnto most bytes.old.items bytes.new.items
        (I.left input.old) (I.left input.new) (I.faults input.old) (I.faults input.new) result }
    ensures later { I.faults input.old ≤ I.faults input.new }
{
    let mut chunk = [0u8; CHUNK];
    let size = most.min(CHUNK as u64) as usize;
    let count = input.read(&mut chunk[..size])?;
    bytes.extend_from_slice(&chunk[..count])?;
    Ok(count)
}

/// Makes room for a chunk. A buffer that grows doubles, but goes no further than a chunk past what is wanted.
fn make_room(bytes: &mut Vec<u8>, wanted: usize) -> Result<(), NoMemory>
    ensures { bytes.new.items ≡ bytes.old.items }
{
    let held = bytes.len();
    if bytes.capacity().saturating_sub(held) < CHUNK {
        let missing = wanted.saturating_sub(held);
        bytes.reserve_exact(missing.min(held).saturating_add(CHUNK))?;
    }
    Ok(())
}

/// How many newlines there are.
fn newlines_of(bytes: &[u8]) -> u64
    ensures { result ≡ newlines_in bytes.now }
{
    bytes.iter().filter(|b| **b == b'\n').count() as u64
}

/// Where the first newline is.
fn newline_at(bytes: &[u8]) -> Option<usize>
    ensures { FoundNewline bytes.now result }
{
    memchr(b'\n', bytes)
}

/// Cuts off the front of a buffer. It is the buffer itself: only the rest is copied.
fn cut_front(alloc: Global, bytes: &mut Vec<u8>, count: usize) -> Result<Vec<u8>, NoMemory>
    requires { count ≤ vec_len bytes.old }
    ensures { MatchResult result
        (λ front. (front.items ≡ take count bytes.old.items) × (bytes.new.items ≡ drop count bytes.old.items))
        (λ _. bytes.new ≡ bytes.old) }
{
    let rest = Vec::from_slice(alloc, &bytes[count..])?;
    let mut front = mem::replace(bytes, rest);
    front.truncate(count);
    Ok(front)
}

/// Cuts off the front where it is large and nothing stands before it.
fn cut_large(
    alloc: Global,
    bytes: &mut Vec<u8>,
    start: usize,
    count: usize,
) -> Result<Option<Vec<u8>>, NoMemory>
    requires { start + count ≤ vec_len bytes.old }
    ensures { MatchResult result (CutsLarge bytes.old.items bytes.new.items start count) (λ _. bytes.new ≡ bytes.old) }
{
    if start != 0 || count < CHUNK {
        return Ok(None);
    }
    let front = cut_front(alloc, bytes, count)?;
    Ok(Some(front))
}

impl Feed {
    /// Nothing is held yet, and at most `limit` bytes will be taken.
    pub fn new(alloc: Global, hash: HashKind, limit: u64) -> Feed
        ensures { result ≡ record { hash = hash; held = []; room = limit; newlines = 0; failed = None } }
    {
        Feed {
            bytes: Vec::new(alloc),
            start: 0,
            alloc,
            hash,
            room: limit,
            newlines: 0,
            failed: None,
        }
    }

    /// The allocator. All are equal.
    pub fn alloc(&self) -> Global
        ensures { (other : Global) → result ≡ other }
    {
        self.alloc
    }

    /// The kind of ids in the script.
    pub fn hash(&self) -> HashKind
        ensures { result ≡ self.now.hash }
    {
        self.hash
    }

    /// Why nothing more is given.
    pub fn failed(&self) -> Option<ScriptError>
        ensures { result ≡ self.now.failed }
    {
        self.failed
    }

    /// Keeps why nothing more is given.
    pub fn fail(&mut self, error: ScriptError)
        ensures { self.new ≡ record self.old { failed = Some error } }
    {
        self.failed = Some(error);
    }

    /// What is held.
    pub fn held(&self) -> &[u8]
        ensures { result.now ≡ self.now.held }
    {
        &self.bytes[self.start..]
    }

    /// Moves what is held to the front of the buffer.
    fn compact(&mut self)
        ensures { self.new ≡ self.old }
    {
        if self.start == 0 {
            return;
        }
        let count = self.bytes.len() - self.start;
        self.bytes.copy_within(self.start.., 0);
        self.bytes.truncate(count);
        self.start = 0;
    }

    /// Takes more bytes, within the limit as long as there is room. False at the end of the input.
    fn fill<I: Source>(&mut self, wanted: usize, input: &mut I) -> Result<bool, ScriptError>
        ensures filled { Filled self.old self.new
            (I.left input.old) (I.left input.new) (I.faults input.old) (I.faults input.new) result }
        ensures later { I.faults input.old ≤ I.faults input.new }
        ensures kind { self.new.hash ≡ self.old.hash }
    {
        if self.room == 0 {
            if read_one(input)? {
                return Err(ScriptError::TooLong);
            }
            return Ok(false);
        }
        self.compact();
        make_room(&mut self.bytes, wanted)?;
        let count = read_onto(input, &mut self.bytes, self.room)?;
        self.room -= count as u64;
        Ok(count != 0)
    }

    /// What is wrong after this many newlines of what is held.
    fn malformed_behind(&self, newlines: u64) -> ScriptError
        ensures { result ≡ ScriptError.Malformed (line_number self.now newlines) }
    {
        let line = self.newlines.saturating_add(newlines).saturating_add(1);
        ScriptError::Malformed { line }
    }

    /// The line at the front of what is held is wrong.
    pub fn malformed(&self) -> ScriptError
        ensures { result ≡ ScriptError.Malformed (line_number self.now 0) }
    {
        self.malformed_behind(0)
    }

    /// Takes bytes until a whole line is held, and answers how long it is. None where the input ends before.
    pub fn find_line<I: Source>(&mut self, input: &mut I) -> Result<Option<usize>, ScriptError>
        ensures found { FoundLine self.old self.new
            (I.left input.old) (I.left input.new) (I.faults input.old) (I.faults input.new) result }
        ensures later { I.faults input.old ≤ I.faults input.new }
        ensures kind { self.new.hash ≡ self.old.hash }
    {
        let mut scanned = 0;
        'fills: loop {
            if let Some(count) = newline_at(&self.held()[scanned..]) {
                if scanned + count <= LINE_LIMIT {
                    return Ok(Some(scanned + count));
                }
                return Err(self.malformed());
            }
            scanned = self.held().len();
            if scanned > LINE_LIMIT {
                return Err(self.malformed());
            }
            if !self.fill(LINE_LIMIT + 1, input)? {
                return Ok(None);
            }
        }
    }

    /// Takes bytes until a whole line is held, and answers how long it is.
    pub fn line<I: Source>(&mut self, input: &mut I) -> Result<usize, ScriptError>
        ensures found { HasLine self.old self.new
            (I.left input.old) (I.left input.new) (I.faults input.old) (I.faults input.new) result }
        ensures later { I.faults input.old ≤ I.faults input.new }
        ensures kind { self.new.hash ≡ self.old.hash }
    {
        match self.find_line(input)? {
            Some(size) => Ok(size),
            None => Err(self.malformed()),
        }
    }

    /// Gives the bytes at the front of what is held.
    pub fn give(&mut self, count: usize)
        requires { count ≤ length self.old.held }
        ensures { self.new ≡ given self.old count }
    {
        let newlines = newlines_of(&self.held()[..count]);
        self.newlines += newlines;
        self.start += count;
    }

    /// Takes bytes until more than `count` are held. False where the input ends before.
    fn find_block<I: Source>(&mut self, count: usize, input: &mut I) -> Result<bool, ScriptError>
        requires { count ≤ block_limit }
        ensures found { FoundBlock count self.old self.new
            (I.left input.old) (I.left input.new) (I.faults input.old) (I.faults input.new) result }
        ensures later { I.faults input.old ≤ I.faults input.new }
        ensures kind { self.new.hash ≡ self.old.hash }
    {
        'fills: while self.held().len() <= count {
            if !self.fill(count + 1, input)? {
                return Ok(false);
            }
        }
        Ok(true)
    }

    /// Gives the bytes at the front of what is held as a block. A large block is the buffer itself.
    fn give_block(&mut self, count: usize) -> Result<Bytes, NoMemory>
        requires { count ≤ length self.old.held }
        ensures { MatchResult result
            (λ block. (block ≡ take count self.old.held) × (self.new ≡ given self.old count))
            (λ _. self.new ≡ self.old) }
    {
        if let Some(block) = cut_large(self.alloc, &mut self.bytes, self.start, count)? {
            self.newlines += newlines_of(&block);
            return Ok(Bytes::from_vec(block));
        }
        let block = Bytes::from_slice(self.alloc, &self.held()[..count])?;
        self.give(count);
        Ok(block)
    }

    /// Reads a block.
    pub fn block<I: Source>(&mut self, count: usize, input: &mut I) -> Result<Bytes, ScriptError>
        requires { count ≤ block_limit }
        ensures block { ReadsBlock count self.old self.new
            (I.left input.old) (I.left input.new) (I.faults input.old) (I.faults input.new) result }
        ensures later { I.faults input.old ≤ I.faults input.new }
        ensures kind { self.new.hash ≡ self.old.hash }
    {
        if !self.find_block(count, input)? {
            return Err(self.malformed_behind(newlines_of(self.held())));
        }
        if self.held()[count] != b'\n' {
            return Err(self.malformed_behind(newlines_of(&self.held()[..count])));
        }
        let block = self.give_block(count)?;
        self.give(1);
        Ok(block)
    }
}
