ghost use Rattle.std.specs.Prelude.{◌≡◌, IfOk};

use crate::{LogLine, Target};
use gx_hash::NoMemory;
use gx_rules::FullName;

/// What becomes of a reference's target.
#[derive(Debug, Drop)]
pub enum TargetChange {
    Keep,
    /// Makes the reference where it is missing.
    Set(Target),
    Remove,
}

impl TargetChange {
    pub fn try_clone(&self) -> Result<TargetChange, NoMemory>
        ensures { IfOk result (λ copy. copy ≡ self.now) }
    {
        match self {
            TargetChange::Keep => Ok(TargetChange::Keep),
            TargetChange::Set(target) => Ok(TargetChange::Set(target.try_clone()?)),
            TargetChange::Remove => Ok(TargetChange::Remove),
        }
    }
}

/// What becomes of a reference's log.
#[derive(Debug, Drop)]
pub enum LogAct {
    Keep,
    /// Adds the line at the end, and makes the log where it is missing.
    Append(LogLine),
    Remove,
}

impl LogAct {
    pub fn try_clone(&self) -> Result<LogAct, NoMemory>
        ensures { IfOk result (λ copy. copy ≡ self.now) }
    {
        match self {
            LogAct::Keep => Ok(LogAct::Keep),
            LogAct::Append(line) => Ok(LogAct::Append(line.try_clone()?)),
            LogAct::Remove => Ok(LogAct::Remove),
        }
    }
}

/// A change of one reference and of its log.
#[derive(Debug, Drop)]
pub struct RefChange {
    pub name: FullName,
    pub target: TargetChange,
    pub log: LogAct,
}

impl RefChange {
    pub fn try_clone(&self) -> Result<RefChange, NoMemory>
        ensures { IfOk result (λ copy. copy ≡ self.now) }
    {
        Ok(RefChange {
            name: self.name.try_clone()?,
            target: self.target.try_clone()?,
            log: self.log.try_clone()?,
        })
    }
}
