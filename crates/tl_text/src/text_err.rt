//! Why a text is refused.
use tl_fault::{Details, OutOfMemory, Refusal, Reported};

/// Why a text is refused. The number is that of the physical line, counted from 1.
#[derive(Clone, Copy, Debug, PartialEq, Eq, thiserror::Error)]
pub enum TextErr {
    /// T1: a byte below 32 other than tab and line feed, or the byte 127. A carriage return before a line feed is allowed.
    #[error("bad byte in line {0}")]
    BadByte(u32),
    /// T2: a token ends in `\`.
    #[error("trailing backslash in line {0}")]
    TrailingSlash(u32),
    /// Out of memory.
    #[error("out of memory")]
    Memory,
}

impl Reported for TextErr {
    ghost use Rattle.tl_text.specs.Refusals.{refusal_of};

    ghost reports = { refusal_of };

    fn refusal(self) -> Option<Refusal> {
        match self {
            TextErr::BadByte(line) => Some(Refusal::new("T1", "BadByte", Details::Line(line))),
            TextErr::TrailingSlash(line) => Some(Refusal::new(
                "T2",
                "TrailingSlash",
                Details::Line(line),
            )),
            TextErr::Memory => None,
        }
    }
}

impl<E: OutOfMemory> From<E> for TextErr {
    ghost use Rattle.std.specs.Prelude.{◌≡◌};
    ghost use Rattle.tl_text.specs.declared.text_err.TextErr.TheVariants.{Memory};

    ghost from_gives = { λ _ e. e ≡ Memory };

    fn from(_: E) -> TextErr {
        TextErr::Memory
    }
}
