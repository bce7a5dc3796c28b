//! Why a step ended early.
use port_bank::PortFault as BankFault;
use tl_io::Failed;

/// An external fault during a step.
#[derive(Clone, Copy, Debug, PartialEq, Eq, thiserror::Error)]
pub enum StepErr {
    /// The output accepted only a prefix of a line.
    #[error("write fault")]
    WriteFault,
    /// A region of the configuration lost its port while no spare was left.
    #[error("port fault")]
    PortFault,
}

impl From<Failed> for StepErr {
    ghost use Rattle.std.specs.Prelude.{◌≡◌};
    ghost use Rattle.run_core.specs.declared.step_err.StepErr.TheVariants.{WriteFault};

    ghost from_gives = { λ _ e. e ≡ WriteFault };

    fn from(_: Failed) -> StepErr {
        StepErr::WriteFault
    }
}

impl From<BankFault> for StepErr {
    ghost use Rattle.std.specs.Prelude.{◌≡◌};
    ghost use Rattle.run_core.specs.declared.step_err.StepErr.TheVariants.{PortFault};

    ghost from_gives = { λ _ e. e ≡ PortFault };

    fn from(_: BankFault) -> StepErr {
        StepErr::PortFault
    }
}
