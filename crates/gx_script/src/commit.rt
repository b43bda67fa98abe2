//! A commit after its first line.

ghost use Rattle.gx_script.specs.Commits.{edits_items};
ghost use Rattle.gx_script.specs.Grammar.{ReadsFrom, at_over, at_content, AtParent, AtEdit, AtContent, AtAuthor, parents_items, FitParents, FitEdits, content_of, FitsContent, commit_tail, FitsCommit};
ghost use Rattle.gx_script.specs.Items.{block_limit};
ghost use Rattle.gx_script.specs.NextEdit.{found_items, behind_edit, FitsFound};
ghost use Rattle.std.specs.Prelude.{◌≡◌, ◌≤◌};

use crate::change::Change;
use crate::feed::Feed;
use crate::lines::{ParentLine, change_line, parent_line, who_line};
use crate::{CommitRequest, ScriptError};
use gx_edit::{PathEdit, PathEdits};
use gx_hash::Bytes;
use gx_object::Ids;
use gx_rules::FullName;
use gx_store::Source;

/// Reads the parents, and how long the message is.
fn parents<I: Source>(feed: &mut Feed, input: &mut I) -> Result<(Ids, usize), ScriptError>
    ensures parents { ReadsFrom (AtParent 0) at_content parents_items (FitParents feed.old.hash) feed.old feed.new
        (I.left input.old) (I.left input.new) (I.faults input.old) (I.faults input.new) result }
    ensures later { I.faults input.old ≤ I.faults input.new }
    ensures kind { feed.new.hash ≡ feed.old.hash }
{
    let mut ids = Vec::new(feed.alloc());
    'parents: loop {
        match parent_line(feed, ids.len(), input)? {
            ParentLine::Parent(id) => ids.push(id)?,
            ParentLine::Message(size) => return Ok((Ids::from_vec(ids), size)),
        }
    }
}

/// Reads an edit after this many others, with its block. None at the end of the request.
fn next_edit<I: Source>(
    feed: &mut Feed,
    count: usize,
    room: &mut u64,
    input: &mut I,
) -> Result<Option<PathEdit>, ScriptError>
    ensures edit { ReadsFrom (AtEdit count room.old) (behind_edit count room.new) found_items
        (FitsFound feed.old.hash count) feed.old feed.new
        (I.left input.old) (I.left input.new) (I.faults input.old) (I.faults input.new) result }
    ensures later { I.faults input.old ≤ I.faults input.new }
    ensures kind { feed.new.hash ≡ feed.old.hash }
{
    match change_line(feed, count, *room, input)? {
        Change::Put(kind, size, path) => {
            let bytes = feed.block(size, input)?;
            *room -= size as u64;
            Ok(Some(kind.edit(path, bytes)))
        }
        Change::Whole(edit) => Ok(Some(edit)),
        Change::End => Ok(None),
    }
}

/// Reads the edits, whose blocks may have this many bytes, and the end of the request.
fn edits<I: Source>(feed: &mut Feed, most: u64, input: &mut I) -> Result<PathEdits, ScriptError>
    ensures edits { ReadsFrom (AtEdit 0 most) at_over edits_items (FitEdits feed.old.hash) feed.old feed.new
        (I.left input.old) (I.left input.new) (I.faults input.old) (I.faults input.new) result }
    ensures later { I.faults input.old ≤ I.faults input.new }
    ensures kind { feed.new.hash ≡ feed.old.hash }
{
    let mut edits = Vec::new(feed.alloc());
    let mut room = most;
    'edits: loop {
        let Some(edit) = next_edit(feed, edits.len(), &mut room, input)? else {
            return Ok(PathEdits::from_vec(edits));
        };
        edits.push(edit)?;
    }
}

/// The most bytes that the blocks of a request have together.
const BLOCKS_LIMIT: u64 = 1073741824;

/// Reads a message of this many bytes, the edits, and the end of the request.
fn content<I: Source>(
    feed: &mut Feed,
    size: usize,
    input: &mut I,
) -> Result<(Bytes, PathEdits), ScriptError>
    requires { size ≤ block_limit }
    ensures content { ReadsFrom (AtContent size) at_over content_of (FitsContent feed.old.hash size) feed.old feed.new
        (I.left input.old) (I.left input.new) (I.faults input.old) (I.faults input.new) result }
    ensures later { I.faults input.old ≤ I.faults input.new }
    ensures kind { feed.new.hash ≡ feed.old.hash }
{
    let message = feed.block(size, input)?;
    let edits = edits(feed, BLOCKS_LIMIT - size as u64, input)?;
    Ok((message, edits))
}

/// Reads a commit on the reference of this name.
pub fn commit<I: Source>(
    feed: &mut Feed,
    name: FullName,
    input: &mut I,
) -> Result<CommitRequest, ScriptError>
    ensures commit { ReadsFrom AtAuthor at_over commit_tail (FitsCommit feed.old.hash name) feed.old feed.new
        (I.left input.old) (I.left input.new) (I.faults input.old) (I.faults input.new) result }
    ensures later { I.faults input.old ≤ I.faults input.new }
    ensures kind { feed.new.hash ≡ feed.old.hash }
{
    let author = who_line(feed, b"author ", input)?;
    let committer = who_line(feed, b"committer ", input)?;
    let (parents, size) = parents(feed, input)?;
    let (message, edits) = content(feed, size, input)?;
    Ok(CommitRequest {
        name,
        author,
        committer,
        parents,
        message,
        edits,
    })
}
