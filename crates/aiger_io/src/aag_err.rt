//! Why a text is refused as a circuit.
use tl_fault::{Details, Name, OutOfMemory, Refusal, Reported};

/// Why a text is refused as an AIGER circuit. Lines are counted from 1.
#[derive(Debug, Drop, thiserror::Error)]
pub enum AagErr {
    /// A1: the first line isn't `aag` and five numbers, or the numbers are inconsistent.
    #[error("bad header in line 1")]
    Header,
    /// A2: the line has an invalid form, or is missing.
    #[error("malformed line {0}")]
    Malformed(u32),
    /// A3: a literal of the line is out of range.
    #[error("literal out of range in line {0}")]
    Range(u32),
    /// A4: the ordinal or the name of the symbol isn't allowed here.
    #[error("bad symbol in line {0}")]
    BadSymbol(u32, Name),
    /// A5: the header is that of a later version of the format.
    #[error("unsupported header in line 1")]
    Unsupported,
    /// Memory ran out.
    #[error("out of memory")]
    Memory,
}

impl Reported for AagErr {
    ghost use Rattle.aiger_io.specs.Refusals.{refusal_of};

    ghost reports = { refusal_of };

    fn refusal(self) -> Option<Refusal> {
        match self {
            AagErr::Header => Some(Refusal::new("A1", "Header", Details::Line(1))),
            AagErr::Malformed(line) => Some(Refusal::new("A2", "Malformed", Details::Line(line))),
            AagErr::Range(line) => Some(Refusal::new("A3", "Range", Details::Line(line))),
            AagErr::BadSymbol(line, name) => Some(Refusal::new(
                "A4",
                "BadSymbol",
                Details::Named(line, name),
            )),
            AagErr::Unsupported => Some(Refusal::new("A5", "Unsupported", Details::Line(1))),
            AagErr::Memory => None,
        }
    }
}

impl<E: OutOfMemory> From<E> for AagErr {
    ghost use Rattle.std.specs.Prelude.{◌≡◌};
    ghost use Rattle.aiger_io.specs.declared.aag_err.AagErr.TheVariants.{Memory};

    ghost from_gives = { λ _ e. e ≡ Memory };

    fn from(_: E) -> AagErr {
        AagErr::Memory
    }
}
