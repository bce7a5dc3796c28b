//! Why no graph was built.
use aig_core::AigErr;
use tl_fault::{Details, OutOfMemory, Refusal, Reported};

/// Why no graph was built.
#[derive(Debug, Drop, thiserror::Error)]
pub enum BuildErr {
    /// L3: the graph would have more AND nodes than it may.
    #[error("too many nodes")]
    TooManyNodes,
    /// Memory ran out.
    #[error("out of memory")]
    Memory,
}

impl Reported for BuildErr {
    ghost use Rattle.aig_build.specs.Refusals.{refusal_of};

    ghost reports = { refusal_of };

    fn refusal(self) -> Option<Refusal> {
        match self {
            BuildErr::TooManyNodes => Some(Refusal::new("L3", "TooManyNodes", Details::Nothing)),
            BuildErr::Memory => None,
        }
    }
}

impl<E: OutOfMemory> From<E> for BuildErr {
    ghost use Rattle.std.specs.Prelude.{◌≡◌};
    ghost use Rattle.aig_build.specs.declared.build_err.BuildErr.TheVariants.{Memory};

    ghost from_gives = { λ _ e. e ≡ Memory };

    fn from(_: E) -> BuildErr {
        BuildErr::Memory
    }
}
