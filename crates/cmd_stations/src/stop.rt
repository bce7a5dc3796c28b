//! Why a text can't be read or a source circuit can't be mapped.
use cmd_base::{File, Outcome};
use tl_fault::{Refusal, Reported};

/// Why a text can't be read or a source circuit can't be mapped.
#[derive(Debug, Drop)]
pub enum Stop {
    /// The text or the circuit is refused.
    Refused(Refusal),
    /// Memory ran out.
    Memory,
}

impl Stop {
    ghost use Rattle.std.specs.Prelude.{◌≡◌};
    ghost use Rattle.cmd_stations.specs.Stops.{refusal_of, outcome_at};

    // The stop for an error with this refusal; `None` means that memory ran out.
    fn of(refusal: Option<Refusal>) -> Stop
        ensures { refusal_of result ≡ refusal }
    {
        match refusal {
            Some(refusal) => Stop::Refused(refusal),
            None => Stop::Memory,
        }
    }

    /// The outcome if this stop occurs at a file.
    pub fn at(self, file: File) -> Outcome
        ensures { result ≡ outcome_at file self }
    {
        match self {
            Stop::Refused(refusal) => Outcome::Refused(file, refusal),
            Stop::Memory => Outcome::Memory,
        }
    }
}

impl<E: Reported> From<E> for Stop {
    ghost use Rattle.std.specs.Prelude.{◌≡◌};
    ghost use Rattle.cmd_stations.specs.Stops.{refusal_of};

    ghost from_gives = { λ error stop. refusal_of stop ≡ E.reports error };

    fn from(error: E) -> Stop {
        Stop::of(error.refusal())
    }
}
