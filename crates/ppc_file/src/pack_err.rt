//! Why bytes are refused as a pack file.
use tl_fault::{Details, OutOfMemory, Refusal, Reported};

/// Why bytes are refused as a pack file. The number is the offset of the refused field.
#[derive(Clone, Copy, Debug, PartialEq, Eq, thiserror::Error)]
pub enum PackErr {
    /// K1: the file doesn't begin with the magic.
    #[error("bad magic at byte {0}")]
    Magic(u32),
    /// K2: the version is neither 1 nor 2.
    #[error("unknown version at byte {0}")]
    Version(u32),
    /// K3: the file ends before the field or inside it.
    #[error("truncated at byte {0}")]
    Truncated(u32),
    /// K4: the name, its length or the initial value of a parameter is invalid, or an earlier parameter has this name.
    #[error("bad name at byte {0}")]
    BadName(u32),
    /// K5: there are more than 2^25 nodes, the fan-ins of a node aren't two earlier nodes in order, or an earlier node has
    /// this pair.
    #[error("bad node at byte {0}")]
    BadNode(u32),
    /// K6: there are more than 2^25 bits, or a bit isn't a literal of the graph.
    #[error("bad bit at byte {0}")]
    BadBit(u32),
    /// K7: bytes follow the last bit.
    #[error("trailing bytes from byte {0}")]
    Trailing(u32),
    /// K8: a number of version 2 has more than five bytes, is above 2^32 - 1, or has a needless last byte; or there are more
    /// than 65,535 parameters.
    #[error("bad number at byte {0}")]
    BadNumber(u32),
    /// Memory ran out.
    #[error("out of memory")]
    Memory,
}

impl Reported for PackErr {
    ghost use Rattle.ppc_file.specs.Refusals.{refusal_of};

    ghost reports = { refusal_of };

    fn refusal(self) -> Option<Refusal> {
        let (code, word, at) = match self {
            PackErr::Magic(at) => ("K1", "Magic", at),
            PackErr::Version(at) => ("K2", "Version", at),
            PackErr::Truncated(at) => ("K3", "Truncated", at),
            PackErr::BadName(at) => ("K4", "BadName", at),
            PackErr::BadNode(at) => ("K5", "BadNode", at),
            PackErr::BadBit(at) => ("K6", "BadBit", at),
            PackErr::Trailing(at) => ("K7", "Trailing", at),
            PackErr::BadNumber(at) => ("K8", "BadNumber", at),
            PackErr::Memory => return None,
        };
        Some(Refusal::new(code, word, Details::Byte(at)))
    }
}

impl<E: OutOfMemory> From<E> for PackErr {
    ghost use Rattle.std.specs.Prelude.{◌≡◌};
    ghost use Rattle.ppc_file.specs.declared.pack_err.PackErr.TheVariants.{Memory};

    ghost from_gives = { λ _ e. e ≡ Memory };

    fn from(_: E) -> PackErr {
        PackErr::Memory
    }
}
