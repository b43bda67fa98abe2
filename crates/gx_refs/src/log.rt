//! Lines of reflogs.

ghost use Rattle.std.specs.Prelude.{◌≡◌, Bool, IfOk, IfSome};
ghost use Rattle.gx_store.specs.State.{IfFault};
ghost use Rattle.gx_store.specs.LogText.{one_line};
ghost use Rattle.gx_refs.specs.Log.{is_made, is_due, is_due_where, IsLogFault, log_line};

use gx_hash::{Bytes, NoMemory, ObjectId};
use gx_object::Signature;
use gx_rules::FullName;
use gx_store::{LogLine, References, StoreError};
use std::alloc::Global;

/// Which logs are written: the setting `core.logAllRefUpdates`.
#[derive(Clone, Copy, Debug, PartialEq, Eq)]
pub enum WriteReflog {
    /// Those of `HEAD`, branches, remote branches and notes, and each that is there or forced.
    Normal,
    /// All.
    Always,
    /// No line is written, not even to a log that is there.
    Disable,
}

/// Whether a missing log is made for the name, where not all are.
pub(crate) fn is_made_normally(name: &[u8]) -> bool
    ensures { result ≡ is_made WriteReflog.Normal name.now }
{
    name == b"HEAD".as_slice()
        || name.starts_with(b"refs/heads/")
        || name.starts_with(b"refs/remotes/")
        || name.starts_with(b"refs/notes/")
}

/// Whether a line is due for the name. A fault comes only where that goes by the log that is there.
pub fn is_due<S: References>(
    alloc: Global,
    store: &S,
    mode: WriteReflog,
    name: &FullName,
    force: bool,
) -> Result<bool, StoreError>
    ensures due { IfOk result (λ due. IfSome (S.state store.now).references (λ refs.
        due ≡ is_due mode refs.logs force name.now)) }
    ensures untold { IfOk result (λ due. (has_log : Bool) × (due ≡ is_due_where mode force has_log name.now)) }
    ensures fault { IfFault result (IsLogFault (S.state store.now) mode force name.now name.now) }
{
    match mode {
        WriteReflog::Disable => Ok(false),
        WriteReflog::Always => Ok(true),
        WriteReflog::Normal => is_due_normally(alloc, store, name, force),
    }
}

fn is_due_normally<S: References>(
    alloc: Global,
    store: &S,
    name: &FullName,
    force: bool,
) -> Result<bool, StoreError>
    ensures due { IfOk result (λ due. IfSome (S.state store.now).references (λ refs.
        due ≡ is_due WriteReflog.Normal refs.logs force name.now)) }
    ensures untold { IfOk result
        (λ due. (has_log : Bool) × (due ≡ is_due_where WriteReflog.Normal force has_log name.now)) }
    ensures fault { IfFault result (IsLogFault (S.state store.now) WriteReflog.Normal force name.now name.now) }
{
    if force || is_made_normally(name.as_slice()) {
        return Ok(true);
    }
    store.log_exists(alloc, name)
}

fn one_line(alloc: Global, message: &[u8]) -> Result<Bytes, NoMemory>
    ensures { IfOk result (λ line. line ≡ one_line message.now) }
{
    let line = message
        .iter()
        .map(|byte| if *byte == b'\n' { b' ' } else { *byte })
        .collect(alloc)?;
    Ok(Bytes::from_vec(line))
}

/// The line that tells of a change from one id to another.
pub fn log_line(
    alloc: Global,
    previous: ObjectId,
    new: ObjectId,
    signature: &Signature,
    message: &[u8],
) -> Result<LogLine, NoMemory>
    ensures { IfOk result (λ line. line ≡ log_line previous new signature.now message.now) }
{
    Ok(LogLine {
        previous,
        new,
        signature: signature.try_clone()?,
        message: one_line(alloc, message)?,
    })
}
