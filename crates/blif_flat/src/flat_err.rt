//! Why a library has no flat circuit.

use tl_fault::{Details, Name, Names, OutOfMemory, Refusal, Reported};

/// Why a library has no flat circuit. Most variants hold the name of a model, a logical line in it (counted from 1), and the
/// name that is reported. A net is written as the ordinals of its instance, each followed by `/`, and the name at its driver.
#[derive(Debug, Drop, thiserror::Error)]
pub enum FlatErr {
    /// F1: the library has no model of the name in this `.subckt` line. The name is reported.
    #[error("unknown model in line {1}")]
    UnknownModel(Name, u32, Name),
    /// F2: a model contains itself, through the models of this chain. The repeated model is the first and the last.
    #[error("recursive model")]
    RecursiveModel(Names),
    /// F3: this formal is neither an input nor an output of its model.
    #[error("unknown formal in line {1}")]
    UnknownFormal(Name, u32, Name),
    /// F4: this input of the subcircuit's model isn't connected.
    #[error("unconnected input in line {1}")]
    Unconnected(Name, u32, Name),
    /// L2: the weight of the main model exceeds 2^22.
    #[error("too large")]
    TooLarge,
    /// F5: the line drives this name, which is already driven.
    #[error("doubly driven in line {1}")]
    DoublyDriven(Name, u32, Name),
    /// F6: the line reads this name, which isn't driven.
    #[error("undriven in line {1}")]
    Undriven(Name, u32, Name),
    /// F7: the control nets of two latches differ. The earlier one is first.
    #[error("second clock")]
    SecondClock(Name, Name),
    /// F8: the control net of a latch isn't an input of the main model.
    #[error("clock is no input")]
    ClockNotInput(Name),
    /// F9: this clock net is an input of a cover or a latch, or an output of the main model.
    #[error("clock as data")]
    ClockAsData(Name),
    /// F10: the nets of a loop of covers. Each reads the next, and the last reads the first.
    #[error("loop")]
    Loop(Names),
    /// Out of memory.
    #[error("out of memory")]
    Memory,
}

impl Reported for FlatErr {
    ghost use Rattle.blif_flat.specs.Refusals.{refusal_of};

    ghost reports = { refusal_of };

    fn refusal(self) -> Option<Refusal> {
        match self {
            FlatErr::UnknownModel(model, line, name) => {
                Some(Refusal::located("F1", "UnknownModel", model, line, name))
            }
            FlatErr::RecursiveModel(chain) => Some(Refusal::new(
                "F2",
                "RecursiveModel",
                Details::Listed(chain),
            )),
            FlatErr::UnknownFormal(model, line, name) => {
                Some(Refusal::located("F3", "UnknownFormal", model, line, name))
            }
            FlatErr::Unconnected(model, line, name) => {
                Some(Refusal::located("F4", "Unconnected", model, line, name))
            }
            FlatErr::TooLarge => Some(Refusal::new("L2", "TooLarge", Details::Nothing)),
            FlatErr::DoublyDriven(model, line, name) => {
                Some(Refusal::located("F5", "DoublyDriven", model, line, name))
            }
            FlatErr::Undriven(model, line, name) => {
                Some(Refusal::located("F6", "Undriven", model, line, name))
            }
            FlatErr::SecondClock(first, second) => Some(Refusal::new(
                "F7",
                "SecondClock",
                Details::Two(first, second),
            )),
            FlatErr::ClockNotInput(net) => Some(Refusal::new(
                "F8",
                "ClockNotInput",
                Details::One(net),
            )),
            FlatErr::ClockAsData(net) => Some(Refusal::new("F9", "ClockAsData", Details::One(net))),
            FlatErr::Loop(nets) => Some(Refusal::new("F10", "Loop", Details::Listed(nets))),
            FlatErr::Memory => None,
        }
    }
}

impl<E: OutOfMemory> From<E> for FlatErr {
    ghost use Rattle.std.specs.Prelude.{◌≡◌};
    ghost use Rattle.blif_flat.specs.declared.flat_err.FlatErr.TheVariants.{Memory};

    ghost from_gives = { λ _ e. e ≡ Memory };

    fn from(_: E) -> FlatErr {
        FlatErr::Memory
    }
}
