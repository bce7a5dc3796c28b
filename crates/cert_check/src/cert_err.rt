//! Why a certificate is refused.
use tl_fault::{Details, OutOfMemory, Refusal, Reported};
use tl_text::TextErr;

/// Why a text is no certificate, or a certificate is invalid. The first number is that of a logical line, or of a physical
/// line for the first two variants. Lines are counted from 1.
#[derive(Debug, PartialEq, Eq, Drop, thiserror::Error)]
pub enum CertErr {
    /// T1: a byte that no line may have.
    #[error("bad byte in line {0}")]
    BadByte(u32),
    /// T2: a token ends in `\`.
    #[error("trailing backslash in line {0}")]
    TrailingSlash(u32),
    /// C1: the line has an invalid form, or is in the wrong place.
    #[error("malformed line {0}")]
    Malformed(u32),
    /// C2: the node of the step isn't an AND node, or isn't above that of the step before.
    #[error("bad claim in line {0}")]
    BadClaim(u32),
    /// C3: the path doesn't lead from a regular source to the node of its step.
    #[error("bad path in line {0}")]
    BadPath(u32),
    /// C4: the step has the wrong number of paths for its claim.
    #[error("wrong number of paths of the claim in line {0}")]
    PathCount(u32),
    /// C5: the path on this line shares a node with an earlier path of its step, and the claim of that node is too low.
    #[error("shared node in line {0}")]
    Shared(u32, u32),
    /// C6: no root is as deep as the certificate states.
    #[error("depth not reached")]
    NotReached,
    /// Memory ran out.
    #[error("out of memory")]
    Memory,
}

impl Reported for CertErr {
    ghost use Rattle.cert_check.specs.Refusals.{refusal_of};

    ghost reports = { refusal_of };

    fn refusal(self) -> Option<Refusal> {
        match self {
            CertErr::BadByte(line) => TextErr::BadByte(line).refusal(),
            CertErr::TrailingSlash(line) => TextErr::TrailingSlash(line).refusal(),
            CertErr::Malformed(line) => Some(Refusal::new("C1", "Malformed", Details::Line(line))),
            CertErr::BadClaim(line) => Some(Refusal::new("C2", "BadClaim", Details::Line(line))),
            CertErr::BadPath(line) => Some(Refusal::new("C3", "BadPath", Details::Line(line))),
            CertErr::PathCount(line) => Some(Refusal::new("C4", "PathCount", Details::Line(line))),
            CertErr::Shared(line, node) => {
                Some(Refusal::new("C5", "Shared", Details::NodeIn(line, node)))
            }
            CertErr::NotReached => Some(Refusal::new("C6", "NotReached", Details::Nothing)),
            CertErr::Memory => None,
        }
    }
}

impl<E: OutOfMemory> From<E> for CertErr {
    ghost use Rattle.std.specs.Prelude.{◌≡◌};
    ghost use Rattle.cert_check.specs.declared.cert_err.CertErr.TheVariants.{Memory};

    ghost from_gives = { λ _ e. e ≡ Memory };

    fn from(_: E) -> CertErr {
        CertErr::Memory
    }
}
