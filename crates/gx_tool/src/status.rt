ghost use Rattle.std.specs.Prelude.{◌≡◌};
ghost use Rattle.gx_tool.specs.Course.{code};

/// How a run ended.
#[derive(Clone, Copy, Debug, PartialEq, Eq)]
pub enum Status {
    /// Each request of the script got an `ok`.
    Done,
    /// All requests of the script were replied to, one or more with `no`.
    Refusals,
    Malformed,
    ReadFault,
    WriteFault,
    NoMemory,
    /// The words ask for no run.
    BadWords,
    StoreFault,
    TooLong,
}

impl Status {
    /// The status as the program's exit status.
    pub fn code(self) -> u8
        ensures { result ≡ code self }
    {
        match self {
            Status::Done => 0,
            Status::Refusals => 1,
            Status::Malformed => 2,
            Status::ReadFault => 3,
            Status::WriteFault => 4,
            Status::NoMemory => 5,
            Status::BadWords => 6,
            Status::StoreFault => 7,
            Status::TooLong => 8,
        }
    }
}
