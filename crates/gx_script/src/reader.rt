ghost use Rattle.gx_script.specs.Grammar.{IsOpening, ReadsBehind};
ghost use Rattle.gx_script.specs.Reading.{Next};
ghost use Rattle.std.specs.Prelude.{◌≡◌, ◌≤◌, [], IfOk, IfErr, None, Some};

use crate::commit::commit;
use crate::feed::Feed;
use crate::lines::first_line;
use crate::message::described;
use crate::opening::Opening;
use crate::{NoteRequest, RefRequest, Request, ScriptError, TagRequest};
use gx_hash::{HashKind, NoMemory};
use gx_store::Source;
use std::alloc::Global;
use std::marker::Model;

/// Reads a script, a request at a time.
///
/// ```
/// let mut source = StdSource::new(b"head\nnamespace\n".as_slice());
/// let mut reader = ScriptReader::new(alloc, HashKind::Sha1, 1 << 40)?;
/// let request = reader.next(&mut source)?;
/// ```
#[derive(Drop)]
pub struct ScriptReader {
    feed: Feed,
}

impl Model for ScriptReader {
    ghost use Rattle.gx_script.specs.Reading.{Reading};

    ghost Value = { Reading };

    ghost view = { λ reader. reader.feed };
}

/// Reads what stands after the first line of a request.
fn rest<I: Source>(feed: &mut Feed, opening: Opening, input: &mut I) -> Result<Request, ScriptError>
    requires { IsOpening feed.old.hash opening }
    ensures rest { ReadsBehind opening feed.old feed.new
        (I.left input.old) (I.left input.new) (I.faults input.old) (I.faults input.new) result }
    ensures later { I.faults input.old ≤ I.faults input.new }
    ensures kind { feed.new.hash ≡ feed.old.hash }
{
    match opening {
        Opening::OneLine(request) => Ok(request),
        Opening::Commit(name) => Ok(Request::Commit(commit(feed, name, input)?)),
        Opening::Tag(name, target, kind) => {
            let (tagger, message) = described(feed, b"tagger ", input)?;
            Ok(Request::Tag(TagRequest {
                name,
                target,
                kind,
                tagger,
                message,
            }))
        }
        Opening::Ref(name, target, expect) => {
            let (committer, message) = described(feed, b"committer ", input)?;
            Ok(Request::Ref(RefRequest {
                name,
                target,
                expect,
                committer,
                message,
            }))
        }
        Opening::NoteSet(reference, object, size) => {
            let note = feed.block(size, input)?;
            Ok(Request::NoteSet(NoteRequest {
                reference,
                object,
                note,
            }))
        }
    }
}

impl ScriptReader {
    /// A reader of a script with ids of the kind, and with at most `limit` bytes.
    pub fn new(alloc: Global, hash: HashKind, limit: u64) -> Result<ScriptReader, NoMemory>
        ensures { IfOk result (λ reader. reader
            ≡ record { hash = hash; held = []; room = limit; newlines = 0; failed = None }) }
    {
        Ok(ScriptReader {
            feed: Feed::new(alloc, hash, limit),
        })
    }

    /// Reads a request. None where the input ends before it.
    fn request<I: Source>(&mut self, input: &mut I) -> Result<Option<Request>, ScriptError>
        ensures next { Next self.old self.new
            (I.left input.old) (I.left input.new) (I.faults input.old) (I.faults input.new) result }
        ensures later { I.faults input.old ≤ I.faults input.new }
        ensures kind { self.new.hash ≡ self.old.hash }
    {
        let Some(opening) = first_line(&mut self.feed, input)? else {
            return Ok(None);
        };
        let request = rest(&mut self.feed, opening, input)?;
        Ok(Some(request))
    }

    /// The next request, or None at the end of the script. After an `Err` each call answers the same and takes nothing.
    pub fn next<I: Source>(&mut self, input: &mut I) -> Result<Option<Request>, ScriptError>
        ensures next { self.old.failed ≡ None → Next self.old self.new
            (I.left input.old) (I.left input.new) (I.faults input.old) (I.faults input.new) result }
        ensures later { I.faults input.old ≤ I.faults input.new }
        ensures kind { self.new.hash ≡ self.old.hash }
        ensures refused { IfErr result (λ e. self.new.failed ≡ Some e) }
        ensures again { (e : ScriptError) → self.old.failed ≡ Some e
            → (result ≡ Err e) × (self.new ≡ self.old) × (input.new ≡ input.old) }
    {
        if let Some(error) = self.feed.failed() {
            return Err(error);
        }
        match self.request(input) {
            Ok(request) => Ok(request),
            Err(error) => {
                self.feed.fail(error);
                Err(error)
            }
        }
    }
}
