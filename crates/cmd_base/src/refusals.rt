//! The refusal that any file may get.
ghost use Rattle.std.specs.Prelude.{◌≡◌};
ghost use Rattle.cmd_base.specs.Refusals as own;

use tl_fault::{Details, Refusal};

/// The refusal of a file that is longer than its kind may be: `MOST_BYTES` for a text, `MOST_PACK_BYTES` for a pack.
pub fn too_long() -> Refusal
    ensures { result ≡ own.too_long }
{
    Refusal::new("L1", "FileTooLong", Details::Nothing)
}
