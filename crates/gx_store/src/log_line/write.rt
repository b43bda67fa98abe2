//! The bytes that a line of a log is written as.
ghost use Rattle.std.specs.Prelude.{◌≡◌, ◌++◌, ◌∷◌, [], IfOk, OnOk, OnErr};
ghost use Rattle.std.specs.Io.{StartsWith};
ghost use Rattle.gx_hash.specs.ObjectId.{hex_of};
ghost use Rattle.gx_object.specs.Identity.{identity_bytes};
ghost use Rattle.gx_store.specs.LogText.{one_line, line_bytes};

use crate::LogLine;
use gx_hash::{Bytes, NoMemory, ObjectId};
use gx_object::push_identity;
use std::alloc::Global;

impl LogLine {
    /// The line as a log has it, without the newline at its end.
    pub fn to_bytes(&self, alloc: Global) -> Result<Bytes, NoMemory>
        ensures { IfOk result (λ bytes. bytes ≡ line_bytes self.now) }
    {
        let mut out = Vec::new(alloc);
        push_log_line(&mut out, self)?;
        Ok(Bytes::from_vec(out))
    }
}

/// Appends the line as a log has it, without the newline at its end.
#[tactic(auto, unfolding(crate::specs::LogText::line_bytes))]
pub fn push_log_line(out: &mut Vec<u8>, line: &LogLine) -> Result<(), NoMemory>
    ensures ok { OnOk result (out.new.items ≡ out.old.items ++ line_bytes line.now) }
    ensures leaves { OnErr result (StartsWith out.new.items out.old.items) }
{
    push_front(out, line)?;
    push_one_line(out, line.message.as_slice())?;
    Ok(())
}

/// Appends what stands in front of the message.
fn push_front(out: &mut Vec<u8>, line: &LogLine) -> Result<(), NoMemory>
    ensures ok { OnOk result (out.new.items ≡ out.old.items ++ hex_of line.now.previous ++ 32 ∷ hex_of line.now.new
        ++ 32 ∷ identity_bytes line.now.signature ++ 9 ∷ []) }
    ensures leaves { OnErr result (StartsWith out.new.items out.old.items) }
{
    push_ids(out, line)?;
    push_identity(out, &line.signature)?;
    out.push(b'\t')?;
    Ok(())
}

/// Appends the ids, each followed by a space.
fn push_ids(out: &mut Vec<u8>, line: &LogLine) -> Result<(), NoMemory>
    ensures ok { OnOk result (out.new.items
        ≡ out.old.items ++ hex_of line.now.previous ++ 32 ∷ hex_of line.now.new ++ 32 ∷ []) }
    ensures leaves { OnErr result (StartsWith out.new.items out.old.items) }
{
    push_id(out, &line.previous)?;
    push_id(out, &line.new)?;
    Ok(())
}

/// Appends the id and a space.
fn push_id(out: &mut Vec<u8>, id: &ObjectId) -> Result<(), NoMemory>
    ensures ok { OnOk result (out.new.items ≡ out.old.items ++ hex_of id.now ++ 32 ∷ []) }
    ensures leaves { OnErr result (StartsWith out.new.items out.old.items) }
{
    id.push_hex(out)?;
    out.push(b' ')?;
    Ok(())
}

/// Appends the message with spaces for its newlines.
fn push_one_line(out: &mut Vec<u8>, message: &[u8]) -> Result<(), NoMemory>
    ensures ok { OnOk result (out.new.items ≡ out.old.items ++ one_line message.now) }
    ensures leaves { OnErr result (StartsWith out.new.items out.old.items) }
{
    if !message.contains(&b'\n') {
        out.extend_from_slice(message)?;
        return Ok(());
    }
    let line = one_line(*out.allocator(), message)?;
    out.extend_from_slice(&line)?;
    Ok(())
}

fn one_line(alloc: Global, message: &[u8]) -> Result<Vec<u8>, NoMemory>
    ensures { IfOk result (λ line. line.items ≡ one_line message.now) }
{
    let line = message
        .iter()
        .map(|byte| if *byte == b'\n' { b' ' } else { *byte })
        .collect(alloc)?;
    Ok(line)
}
