//! The lines of requests after their first.

ghost use Rattle.gx_script.specs.Grammar.{SaysOpening, SaysWho, SaysMessage, SaysPerson, SaysParent, SaysChange, IsNo, ReadsSaid, ReadsFirst};
ghost use Rattle.gx_script.specs.Fields.{end_line};
ghost use Rattle.gx_script.specs.Steps.{ReadsLine};
ghost use Rattle.gx_script.specs.Items.{NoNewline, block_limit};
ghost use Rattle.std.specs.Prelude.{◌≡◌, ◌≢◌, ◌≤◌, IfOk, MatchOption};

use crate::ScriptError;
use crate::change::{Change, is_end, read_change};
use crate::feed::Feed;
use crate::fields::{block_size, identity, object_id};
use crate::opening::{Opening, read_opening};
use crate::split::after;
use gx_hash::{HashKind, NoMemory, ObjectId};
use gx_object::Signature;
use gx_store::Source;
use std::alloc::Global;

/// A line of the parents of a commit, or the one after them.
#[derive(Drop)]
pub enum ParentLine {
    Parent(ObjectId),
    /// The message follows, which has this size.
    Message(usize),
}

/// The line of a person who may be left out, or the one after it.
#[derive(Drop)]
pub enum PersonLine {
    Who(Signature),
    /// The message follows, which has this size.
    Message(usize),
}

/// How many bytes the message has that the line announces.
fn message_size(line: &[u8]) -> Option<usize>
    ensures { MatchOption result (IsNo SaysMessage line.now) (λ size. SaysMessage size line.now) }
{
    block_size(after(line, b"message ")?)
}

/// The most parents of a commit.
const PARENT_LIMIT: usize = 1024;

/// The id in the line of a parent.
fn parent_id(hash: HashKind, count: usize, line: &[u8]) -> Option<ObjectId>
    ensures { MatchOption result ((id : ObjectId) → SaysParent hash count (ParentLine.Parent id) line.now → ⊥)
        (λ id. SaysParent hash count (ParentLine.Parent id) line.now) }
{
    if count >= PARENT_LIMIT {
        return None;
    }
    object_id(hash, after(line, b"parent ")?)
}

/// What a line after this many parents says.
fn parent(hash: HashKind, count: usize, line: &[u8]) -> Option<ParentLine>
    ensures { MatchOption result (IsNo (SaysParent hash count) line.now) (λ next. SaysParent hash count next line.now) }
{
    match parent_id(hash, count, line) {
        Some(id) => Some(ParentLine::Parent(id)),
        None => Some(ParentLine::Message(message_size(line)?)),
    }
}

/// The person in a line that begins with the word, or the length of the message.
fn person(alloc: Global, word: &[u8], line: &[u8]) -> Result<Option<PersonLine>, NoMemory>
    requires { NoNewline line.now }
    ensures { IfOk result (λ found. MatchOption found (IsNo (SaysPerson word.now) line.now)
        (λ next. SaysPerson word.now next line.now)) }
{
    if let Some(who) = identity(alloc, word, line)? {
        return Ok(Some(PersonLine::Who(who)));
    }
    match message_size(line) {
        Some(size) => Ok(Some(PersonLine::Message(size))),
        None => Ok(None),
    }
}

/// Reads the first line of a request. None where the input ends before it.
pub fn first_line<I: Source>(feed: &mut Feed, input: &mut I) -> Result<Option<Opening>, ScriptError>
    ensures line { ReadsFirst feed.old feed.new
        (I.left input.old) (I.left input.new) (I.faults input.old) (I.faults input.new) result }
    ensures later { I.faults input.old ≤ I.faults input.new }
    ensures kind { feed.new.hash ≡ feed.old.hash }
{
    let Some(size) = feed.find_line(input)? else {
        if feed.held().is_empty() {
            return Ok(None);
        }
        return Err(feed.malformed());
    };
    let Some(opening) = read_opening(feed.alloc(), feed.hash(), &feed.held()[..size])? else {
        return Err(feed.malformed());
    };
    feed.give(size + 1);
    Ok(Some(opening))
}

/// Reads the line of an author or a committer.
pub fn who_line<I: Source>(
    feed: &mut Feed,
    word: &[u8],
    input: &mut I,
) -> Result<Signature, ScriptError>
    ensures line { ReadsSaid (SaysWho word.now) feed.old feed.new
        (I.left input.old) (I.left input.new) (I.faults input.old) (I.faults input.new) result }
    ensures later { I.faults input.old ≤ I.faults input.new }
    ensures kind { feed.new.hash ≡ feed.old.hash }
{
    let size = feed.line(input)?;
    let Some(who) = identity(feed.alloc(), word, &feed.held()[..size])? else {
        return Err(feed.malformed());
    };
    feed.give(size + 1);
    Ok(who)
}

/// Reads a line after this many parents.
pub fn parent_line<I: Source>(
    feed: &mut Feed,
    count: usize,
    input: &mut I,
) -> Result<ParentLine, ScriptError>
    ensures line { ReadsSaid (SaysParent feed.old.hash count) feed.old feed.new
        (I.left input.old) (I.left input.new) (I.faults input.old) (I.faults input.new) result }
    ensures later { I.faults input.old ≤ I.faults input.new }
    ensures kind { feed.new.hash ≡ feed.old.hash }
{
    let size = feed.line(input)?;
    let Some(next) = parent(feed.hash(), count, &feed.held()[..size]) else {
        return Err(feed.malformed());
    };
    feed.give(size + 1);
    Ok(next)
}

/// Reads the line of a person who may be left out, or the one after it.
pub fn person_line<I: Source>(
    feed: &mut Feed,
    word: &[u8],
    input: &mut I,
) -> Result<PersonLine, ScriptError>
    ensures line { ReadsSaid (SaysPerson word.now) feed.old feed.new
        (I.left input.old) (I.left input.new) (I.faults input.old) (I.faults input.new) result }
    ensures later { I.faults input.old ≤ I.faults input.new }
    ensures kind { feed.new.hash ≡ feed.old.hash }
{
    let size = feed.line(input)?;
    let Some(next) = person(feed.alloc(), word, &feed.held()[..size])? else {
        return Err(feed.malformed());
    };
    feed.give(size + 1);
    Ok(next)
}

/// Reads the line that announces a message, and answers how long that is.
pub fn message_line<I: Source>(feed: &mut Feed, input: &mut I) -> Result<usize, ScriptError>
    ensures line { ReadsSaid SaysMessage feed.old feed.new
        (I.left input.old) (I.left input.new) (I.faults input.old) (I.faults input.new) result }
    ensures later { I.faults input.old ≤ I.faults input.new }
    ensures kind { feed.new.hash ≡ feed.old.hash }
{
    let size = feed.line(input)?;
    let Some(count) = message_size(&feed.held()[..size]) else {
        return Err(feed.malformed());
    };
    feed.give(size + 1);
    Ok(count)
}

/// Reads a line after this many edits, where a block may have this many bytes.
pub fn change_line<I: Source>(
    feed: &mut Feed,
    count: usize,
    room: u64,
    input: &mut I,
) -> Result<Change, ScriptError>
    ensures line { ReadsSaid (SaysChange feed.old.hash count room) feed.old feed.new
        (I.left input.old) (I.left input.new) (I.faults input.old) (I.faults input.new) result }
    ensures later { I.faults input.old ≤ I.faults input.new }
    ensures kind { feed.new.hash ≡ feed.old.hash }
{
    let size = feed.line(input)?;
    let line = &feed.held()[..size];
    let Some(next) = read_change(feed.alloc(), feed.hash(), count, room, line)? else {
        return Err(feed.malformed());
    };
    feed.give(size + 1);
    Ok(next)
}

/// Reads the last line of a request.
pub fn end_line<I: Source>(feed: &mut Feed, input: &mut I) -> Result<(), ScriptError>
    ensures line { ReadsLine (λ _ line. line ≡ end_line) (λ line. line ≢ end_line) feed.old feed.new
        (I.left input.old) (I.left input.new) (I.faults input.old) (I.faults input.new) result }
    ensures later { I.faults input.old ≤ I.faults input.new }
    ensures kind { feed.new.hash ≡ feed.old.hash }
{
    let size = feed.line(input)?;
    if !is_end(&feed.held()[..size]) {
        return Err(feed.malformed());
    }
    feed.give(size + 1);
    Ok(())
}
