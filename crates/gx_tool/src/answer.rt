//! Answers to requests that were accepted, and how they are printed.

ghost use Rattle.std.specs.Prelude.{◌≡◌, ◌++◌, ◌∷◌, [], IfOk, OnOk, codes};
ghost use Rattle.std.specs.List.{flat_map};
ghost use Rattle.gx_hash.specs.ObjectId.{hex_of};
ghost use Rattle.gx_tool.specs.Reply.{answer_text, count_text, log_line_text, log_text, reference_text, references_text};

use crate::target::push_target;
use gix::reference::iter::ReferenceList;
use gx_hash::{NoMemory, ObjectId};
use gx_refs::Reference;
use gx_rules::FullName;
use gx_store::{Lines, LogLine, push_log_line};
use itoa::Buffer;

/// What an accepted request is answered.
#[derive(Debug, Drop)]
pub enum Answer {
    /// The id of what was made.
    Id(ObjectId),
    /// A log, the oldest line first, if there is one.
    Log(Option<Lines>),
    /// The name of the reference that was edited.
    Name(FullName),
    /// The references that were listed, in the order of their names.
    References(ReferenceList),
}

/// Appends the line of a reply that shows a line of a log.
fn push_shown(out: &mut Vec<u8>, line: &LogLine) -> Result<(), NoMemory>
    ensures ok { OnOk result (out.new.items ≡ out.old.items ++ log_line_text line.now) }
{
    out.extend_from_slice(b"log ")?;
    push_log_line(out, line)?;
    out.push(b'\n')?;
    Ok(())
}

fn push_lines(out: &mut Vec<u8>, lines: &[LogLine]) -> Result<(), NoMemory>
    ensures ok { OnOk result (out.new.items ≡ out.old.items ++ flat_map log_line_text lines.now) }
{
    for line in lines {
        push_shown(out, line)?;
    }
    Ok(())
}

/// Appends `ok` and a count, with a newline.
fn push_count(out: &mut Vec<u8>, count: usize) -> Result<(), NoMemory>
    ensures ok { OnOk result (out.new.items ≡ out.old.items ++ count_text count) }
{
    let mut buffer = Buffer::new();
    out.extend_from_slice(b"ok ")?;
    out.extend_from_slice(buffer.format(count).as_bytes())?;
    out.push(b'\n')?;
    Ok(())
}

/// Appends a log and the count of its lines.
fn push_log(out: &mut Vec<u8>, log: &Option<Lines>) -> Result<(), NoMemory>
    ensures ok { OnOk result (out.new.items ≡ out.old.items ++ log_text log.now) }
{
    match log {
        None => Ok(out.extend_from_slice(b"ok none\n")?),
        Some(lines) => {
            push_lines(out, lines.as_slice())?;
            push_count(out, lines.as_slice().len())
        }
    }
}

/// Appends the line of a reply that shows a reference.
fn push_reference(out: &mut Vec<u8>, reference: &Reference) -> Result<(), NoMemory>
    ensures ok { OnOk result (out.new.items ≡ out.old.items ++ reference_text reference.now) }
{
    out.extend_from_slice(b"ref ")?;
    out.extend_from_slice(reference.name.as_slice())?;
    push_target(out, &reference.target)?;
    out.push(b'\n')?;
    Ok(())
}

fn push_references(out: &mut Vec<u8>, references: &[Reference]) -> Result<(), NoMemory>
    ensures ok { OnOk result (out.new.items ≡ out.old.items ++ flat_map reference_text references.now) }
{
    for reference in references {
        push_reference(out, reference)?;
    }
    Ok(())
}

/// Appends references and their count.
fn push_listing(out: &mut Vec<u8>, references: &[Reference]) -> Result<(), NoMemory>
    ensures ok { OnOk result (out.new.items ≡ out.old.items ++ references_text references.now) }
{
    push_references(out, references)?;
    push_count(out, references.len())
}

/// Appends `ok` and the id, with a newline.
fn push_made(out: &mut Vec<u8>, id: &ObjectId) -> Result<(), NoMemory>
    ensures ok { OnOk result (out.new.items ≡ out.old.items ++ (codes "ok " ++ hex_of id.now ++ 10 ∷ [])) }
{
    out.extend_from_slice(b"ok ")?;
    id.push_hex(out)?;
    out.push(b'\n')?;
    Ok(())
}

/// Appends `ok` and the name, with a newline.
fn push_name(out: &mut Vec<u8>, name: &FullName) -> Result<(), NoMemory>
    ensures ok { OnOk result (out.new.items ≡ out.old.items ++ (codes "ok " ++ name.now ++ 10 ∷ [])) }
{
    out.extend_from_slice(b"ok ")?;
    out.extend_from_slice(name.as_slice())?;
    out.push(b'\n')?;
    Ok(())
}

/// Appends the lines of an answer.
pub(crate) fn push_answer(out: &mut Vec<u8>, answer: &Answer) -> Result<(), NoMemory>
    ensures ok { OnOk result (out.new.items ≡ out.old.items ++ answer_text answer.now) }
{
    match answer {
        Answer::Id(id) => push_made(out, id),
        Answer::Log(log) => push_log(out, log),
        Answer::Name(name) => push_name(out, name),
        Answer::References(references) => push_listing(out, references.as_slice()),
    }
}
