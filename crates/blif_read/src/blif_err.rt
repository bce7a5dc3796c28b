//! Why a text denotes no library.
use tl_fault::{Details, Name, OutOfMemory, Refusal, Reported};
use tl_text::TextErr;

/// Why a text denotes no library. Each number is that of a logical line; for the first two variants, of a physical line.
/// Lines are counted from 1.
#[derive(Debug, Drop, thiserror::Error)]
pub enum BlifErr {
    /// T1: a byte that no line may contain.
    #[error("bad byte in line {0}")]
    BadByte(u32),
    /// T2: a token ends in `\`.
    #[error("trailing backslash in line {0}")]
    TrailingSlash(u32),
    /// B1: the line is neither a command nor a row.
    #[error("no command in line {0}")]
    NotCommand(u32),
    /// B2: the first token begins with `.` and isn't a supported command.
    #[error("unsupported command in line {0}")]
    Unsupported(u32),
    /// B3: no model is open.
    #[error("outside of a model in line {0}")]
    OutsideModel(u32),
    /// B4: a command has too few or too many tokens.
    #[error("wrong number of tokens in line {0}")]
    Arity(u32),
    /// B5: a row is malformed.
    #[error("bad row in line {0}")]
    BadRow(u32),
    /// B6: a row's output character differs from that of the cover's first row.
    #[error("mixed rows in line {0}")]
    MixedRows(u32),
    /// B7: the init or the type of a latch is invalid.
    #[error("bad latch in line {0}")]
    BadLatch(u32),
    /// B8: the type of a latch is `fe`, `ah`, `al` or `as`.
    #[error("kind of latch in line {0}")]
    LatchKind(u32),
    /// B9: an earlier model has this name.
    #[error("model repeated in line {0}")]
    DuplicateModel(u32, Name),
    /// B10: this name occurs twice in the model's `.inputs`, `.outputs` or `.clock` lines.
    #[error("port repeated in line {0}")]
    DuplicatePort(u32, Name),
    /// B11: a connection has no `=`, an empty side, or a formal that occurs earlier in the line.
    #[error("bad connection in line {0}")]
    BadConnection(u32),
    /// B12: the text contains no `.model`.
    #[error("no model")]
    NoModel,
    /// Out of memory.
    #[error("out of memory")]
    Memory,
}

impl Reported for BlifErr {
    ghost use Rattle.blif_read.specs.Refusals.{refusal_of};

    ghost reports = { refusal_of };

    fn refusal(self) -> Option<Refusal> {
        match self {
            BlifErr::BadByte(line) => TextErr::BadByte(line).refusal(),
            BlifErr::TrailingSlash(line) => TextErr::TrailingSlash(line).refusal(),
            BlifErr::NotCommand(line) => Some(Refusal::new(
                "B1",
                "NotCommand",
                Details::Line(line),
            )),
            BlifErr::Unsupported(line) => Some(Refusal::new(
                "B2",
                "Unsupported",
                Details::Line(line),
            )),
            BlifErr::OutsideModel(line) => Some(Refusal::new(
                "B3",
                "OutsideModel",
                Details::Line(line),
            )),
            BlifErr::Arity(line) => Some(Refusal::new("B4", "Arity", Details::Line(line))),
            BlifErr::BadRow(line) => Some(Refusal::new("B5", "BadRow", Details::Line(line))),
            BlifErr::MixedRows(line) => Some(Refusal::new("B6", "MixedRows", Details::Line(line))),
            BlifErr::BadLatch(line) => Some(Refusal::new("B7", "BadLatch", Details::Line(line))),
            BlifErr::LatchKind(line) => Some(Refusal::new("B8", "LatchKind", Details::Line(line))),
            BlifErr::DuplicateModel(line, name) => {
                Some(Refusal::named("B9", "DuplicateModel", line, name))
            }
            BlifErr::DuplicatePort(line, name) => {
                Some(Refusal::named("B10", "DuplicatePort", line, name))
            }
            BlifErr::BadConnection(line) => Some(Refusal::new(
                "B11",
                "BadConnection",
                Details::Line(line),
            )),
            BlifErr::NoModel => Some(Refusal::new("B12", "NoModel", Details::Nothing)),
            BlifErr::Memory => None,
        }
    }
}

impl<E: OutOfMemory> From<E> for BlifErr {
    ghost use Rattle.std.specs.Prelude.{◌≡◌};
    ghost use Rattle.blif_read.specs.declared.blif_err.BlifErr.TheVariants.{Memory};

    ghost from_gives = { λ _ e. e ≡ Memory };

    fn from(_: E) -> BlifErr {
        BlifErr::Memory
    }
}
