//! The outcome of a call.
ghost use Rattle.std.specs.Prelude.{◌≡◌};
ghost use Rattle.cmd_base.specs.Statuses.{refusal_status as status_of_refusal, status_of};
ghost use Rattle.cmd_base.specs.Writing.{writing_outcome};

use crate::status::Status;
use tl_fault::Refusal;
use tl_io::Failed;

/// A file that a command reads.
#[derive(Clone, Copy, Debug, PartialEq, Eq)]
pub enum File {
    Netlist,
    Params,
    Script,
    Pack,
    Cert,
}

/// The outcome of a call.
#[derive(Debug, Drop)]
pub enum Outcome {
    Done,
    Usage,
    /// L1: the file is longer than its kind may be: `MOST_BYTES` for a text, `MOST_PACK_BYTES` for a pack.
    TooLong(File),
    /// The file, or the circuit that a netlist denotes, is refused for another reason.
    Refused(File, Refusal),
    ReadFault(File),
    WriteFault,
    PortFault,
    Memory,
}

// The status of a refusal: over a limit, or refused.
fn refusal_status(refusal: &Refusal) -> Status
    ensures { result ≡ status_of_refusal refusal.now }
{
    if refusal.is_limit() {
        return Status::Limit;
    }
    Status::Refused
}

impl Outcome {
    /// The outcome of a job whose last work was to write: done, or a fault of writing.
    pub fn of_writing(written: Result<(), Failed>) -> Outcome
        ensures { result ≡ writing_outcome written }
    {
        match written {
            Ok(()) => Outcome::Done,
            Err(_) => Outcome::WriteFault,
        }
    }

    /// The exit status for this outcome.
    pub fn status(&self) -> Status
        ensures { result ≡ status_of self.now }
    {
        match self {
            Outcome::Done => Status::Done,
            Outcome::Usage => Status::Usage,
            Outcome::TooLong(_) => Status::Limit,
            Outcome::Refused(_, refusal) => refusal_status(refusal),
            Outcome::ReadFault(_) => Status::ReadFault,
            Outcome::WriteFault => Status::WriteFault,
            Outcome::PortFault => Status::PortFault,
            Outcome::Memory => Status::Memory,
        }
    }
}
