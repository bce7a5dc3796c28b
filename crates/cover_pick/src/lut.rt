//! A LUT, and why a call returns no template.
use aig_core::Lit;
use cut_enum::Cut;
use tl_fault::{Details, OutOfMemory, Refusal, Reported};

/// The LUT of a literal: its leaves, and the address of its first bit. A LUT of m leaves has 2^m bits.
#[derive(Drop)]
pub struct Lut {
    pub lit: Lit,
    pub leaves: Cut,
    pub base: u32,
}

/// Why a call returns no template.
#[derive(Debug, PartialEq, Eq, Drop, thiserror::Error)]
pub enum PickErr {
    /// The work exceeds [`MOST_WORK`](crate::MOST_WORK).
    #[error("too much work")]
    Work,
    /// Memory ran out.
    #[error("out of memory")]
    Memory,
}

impl Reported for PickErr {
    ghost use Rattle.cover_pick.specs.Refusals.{refusal_of};

    ghost reports = { refusal_of };

    fn refusal(self) -> Option<Refusal> {
        match self {
            PickErr::Work => Some(Refusal::new("L6", "Work", Details::Nothing)),
            PickErr::Memory => None,
        }
    }
}

impl<E: OutOfMemory> From<E> for PickErr {
    ghost use Rattle.std.specs.Prelude.{◌≡◌};
    ghost use Rattle.cover_pick.specs.declared.lut.PickErr.TheVariants.{Memory};

    ghost from_gives = { λ _ e. e ≡ Memory };

    fn from(_: E) -> PickErr {
        PickErr::Memory
    }
}
