//! The exit status of a call.

/// The way in which a call of `tlut` ends.
#[derive(Clone, Copy, Debug, PartialEq, Eq)]
pub enum Status {
    /// The job is done.
    Done,
    /// The arguments are invalid: a usage error.
    Usage,
    /// The content of a file is refused.
    Refused,
    /// A file or the circuit exceeds a limit.
    Limit,
    /// A file could not be read.
    ReadFault,
    /// The output could not be written.
    WriteFault,
    /// A region of the configuration lost its port while no spare was left.
    PortFault,
    /// Memory ran out.
    Memory,
}

impl Status {
    ghost use Rattle.std.specs.Prelude.{◌≡◌};
    ghost use Rattle.cmd_base.specs.Statuses.{code_of};

    /// The exit status as a number.
    pub fn code(&self) -> u8
        ensures { result ≡ code_of self.now }
    {
        match self {
            Status::Done => 0,
            Status::Usage => 2,
            Status::Refused => 3,
            Status::Limit => 4,
            Status::ReadFault => 5,
            Status::WriteFault => 6,
            Status::PortFault => 7,
            Status::Memory => 8,
        }
    }
}
