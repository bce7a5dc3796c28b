//! Why a text is refused as a script.
use tl_fault::{Details, Name, OutOfMemory, Refusal, Reported};
use tl_text::TextErr;

/// Why a text is refused as a script. The first number is that of a logical line, or of a physical line for the first two
/// variants. Lines are counted from 1.
#[derive(Debug, Drop, thiserror::Error)]
pub enum ScriptErr {
    /// T1: a byte that no line may have.
    #[error("bad byte in line {0}")]
    BadByte(u32),
    /// T2: a token ends in `\`.
    #[error("trailing backslash in line {0}")]
    TrailingSlash(u32),
    /// L7: there are 2^20 events already.
    #[error("too many events in line {0}")]
    Events(u32),
    /// S1: the line has none of the five forms.
    #[error("malformed line {0}")]
    Malformed(u32),
    /// S6: a cycle in a script that may have none.
    #[error("a cycle in line {0}")]
    NotHere(u32),
    /// S2: the number of values in a cycle isn't the number of regular inputs, which is the second number.
    #[error("not {1} values in line {0}")]
    Width(u32, u32),
    /// S3: the name isn't a parameter.
    #[error("no parameter in line {0}")]
    NotParameter(u32, Name),
    /// S4: the parameter is already set on this line.
    #[error("a parameter repeated in line {0}")]
    RepeatedInSet(u32, Name),
    /// S5: the address isn't less than the number of configuration bits, which is the second number.
    #[error("not below {1} in line {0}")]
    Address(u32, u32),
    /// Memory ran out.
    #[error("out of memory")]
    Memory,
}

impl Reported for ScriptErr {
    ghost use Rattle.run_text.specs.ScriptRefusals.{refusal_of};

    ghost reports = { refusal_of };

    fn refusal(self) -> Option<Refusal> {
        match self {
            ScriptErr::BadByte(line) => TextErr::BadByte(line).refusal(),
            ScriptErr::TrailingSlash(line) => TextErr::TrailingSlash(line).refusal(),
            ScriptErr::Events(line) => Some(Refusal::new("L7", "Events", Details::Line(line))),
            ScriptErr::Malformed(line) => {
                Some(Refusal::new("S1", "Malformed", Details::Line(line)))
            }
            ScriptErr::NotHere(line) => Some(Refusal::new("S6", "NotHere", Details::Line(line))),
            ScriptErr::Width(line, width) => Some(Refusal::new(
                "S2",
                "Width",
                Details::Width(line, width),
            )),
            ScriptErr::NotParameter(line, name) => Some(Refusal::new(
                "S3",
                "NotParameter",
                Details::Named(line, name),
            )),
            ScriptErr::RepeatedInSet(line, name) => Some(Refusal::new(
                "S4",
                "RepeatedInSet",
                Details::Named(line, name),
            )),
            ScriptErr::Address(line, bits) => Some(Refusal::new(
                "S5",
                "Address",
                Details::Bits(line, bits),
            )),
            ScriptErr::Memory => None,
        }
    }
}

impl<E: OutOfMemory> From<E> for ScriptErr {
    ghost use Rattle.std.specs.Prelude.{◌≡◌};
    ghost use Rattle.run_text.specs.declared.script_err.ScriptErr.TheVariants.{Memory};

    ghost from_gives = { λ _ e. e ≡ Memory };

    fn from(_: E) -> ScriptErr {
        ScriptErr::Memory
    }
}
