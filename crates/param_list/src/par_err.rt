//! Why a text is refused as a parameter list.
use tl_fault::{Details, Name, OutOfMemory, Refusal, Reported};
use tl_text::TextErr;

/// Why a text is refused as a parameter list. The number is that of a logical line, or of a physical line for the first two
/// variants. Lines are counted from 1.
#[derive(Debug, Drop, thiserror::Error)]
pub enum ParErr {
    /// T1: a byte that no line may have.
    #[error("bad byte in line {0}")]
    BadByte(u32),
    /// T2: a token ends in `\`.
    #[error("trailing backslash in line {0}")]
    TrailingSlash(u32),
    /// P1: the line isn't a name and `0` or `1`.
    #[error("malformed line {0}")]
    Malformed(u32),
    /// L8: the name is too long, or there are too many parameters.
    #[error("too many parameters in line {0}")]
    Parameters(u32),
    /// P2: the name isn't an input of the main model.
    #[error("no input in line {0}")]
    NotInput(u32, Name),
    /// P3: the name is a clock net.
    #[error("a clock in line {0}")]
    IsClock(u32, Name),
    /// P4: an earlier line has the same name.
    #[error("a name repeated in line {0}")]
    Repeated(u32, Name),
    /// Memory ran out.
    #[error("out of memory")]
    Memory,
}

impl Reported for ParErr {
    ghost use Rattle.param_list.specs.Refusals.{refusal_of};

    ghost reports = { refusal_of };

    fn refusal(self) -> Option<Refusal> {
        match self {
            ParErr::BadByte(line) => TextErr::BadByte(line).refusal(),
            ParErr::TrailingSlash(line) => TextErr::TrailingSlash(line).refusal(),
            ParErr::Malformed(line) => Some(Refusal::new("P1", "Malformed", Details::Line(line))),
            ParErr::Parameters(line) => Some(Refusal::new("L8", "Parameters", Details::Line(line))),
            ParErr::NotInput(line, name) => Some(Refusal::named("P2", "NotInput", line, name)),
            ParErr::IsClock(line, name) => Some(Refusal::named("P3", "IsClock", line, name)),
            ParErr::Repeated(line, name) => Some(Refusal::named("P4", "Repeated", line, name)),
            ParErr::Memory => None,
        }
    }
}

impl<E: OutOfMemory> From<E> for ParErr {
    ghost use Rattle.std.specs.Prelude.{◌≡◌};
    ghost use Rattle.param_list.specs.declared.par_err.ParErr.TheVariants.{Memory};

    ghost from_gives = { λ _ e. e ≡ Memory };

    fn from(_: E) -> ParErr {
        ParErr::Memory
    }
}
