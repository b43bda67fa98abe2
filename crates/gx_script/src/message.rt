//! The rest of a request after its first line, for requests that have a message or a block.

ghost use Rattle.gx_script.specs.Grammar.{ReadsFrom, at_over, text_items, HasSize, described_items, FitsDescribed, IsPersonWord, AtText, AtPerson};
ghost use Rattle.gx_script.specs.Items.{block_limit};
ghost use Rattle.std.specs.Prelude.{◌≡◌, ◌≤◌};

use crate::ScriptError;
use crate::feed::Feed;
use crate::lines::{PersonLine, end_line, message_line, person_line};
use gx_hash::Bytes;
use gx_object::Signature;
use gx_store::Source;

/// Reads a message of this many bytes, and the end of its request.
fn text<I: Source>(feed: &mut Feed, size: usize, input: &mut I) -> Result<Bytes, ScriptError>
    requires { size ≤ block_limit }
    ensures text { ReadsFrom (AtText size) at_over text_items (HasSize size) feed.old feed.new
        (I.left input.old) (I.left input.new) (I.faults input.old) (I.faults input.new) result }
    ensures later { I.faults input.old ≤ I.faults input.new }
    ensures kind { feed.new.hash ≡ feed.old.hash }
{
    let message = feed.block(size, input)?;
    end_line(feed, input)?;
    Ok(message)
}

/// Reads a person, who may be left out, a message, and the end of their request.
pub fn described<I: Source>(
    feed: &mut Feed,
    word: &[u8],
    input: &mut I,
) -> Result<(Option<Signature>, Bytes), ScriptError>
    requires { IsPersonWord word.now }
    ensures described { ReadsFrom (AtPerson word.now) at_over (described_items word.now) FitsDescribed feed.old feed.new
        (I.left input.old) (I.left input.new) (I.faults input.old) (I.faults input.new) result }
    ensures later { I.faults input.old ≤ I.faults input.new }
    ensures kind { feed.new.hash ≡ feed.old.hash }
{
    match person_line(feed, word, input)? {
        PersonLine::Who(who) => {
            let size = message_line(feed, input)?;
            let message = text(feed, size, input)?;
            Ok((Some(who), message))
        }
        PersonLine::Message(size) => {
            let message = text(feed, size, input)?;
            Ok((None, message))
        }
    }
}
