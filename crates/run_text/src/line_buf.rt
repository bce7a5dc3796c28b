//! The buffer of a line of output.
ghost use Rattle.std.specs.Prelude.{◌≡◌, [], IfOk};

use std::alloc::{AllocError, Global};
use std::marker::Model;
use tl_piece::WriteBuffer;

/// A buffer for the bytes of a line that aren't written yet. Between lines its content has no meaning.
///
/// A contract sees it as these bytes.
#[derive(Drop)]
pub struct LineBuf {
    pub(crate) piece: Box<WriteBuffer>,
}

impl Model for LineBuf {
    ghost use Rattle.std.specs.Prelude.{List, ℕ};

    ghost Value = { List ℕ };

    ghost view = { λ buf. buf.piece.value };
}

impl LineBuf {
    /// An empty buffer with 4,096 bytes reserved.
    ///
    /// # Errors
    /// `AllocError` if there is no memory for them.
    pub fn make(alloc: Global) -> Result<LineBuf, AllocError>
        ensures { IfOk result (λ buf. buf ≡ []) }
    {
        Ok(LineBuf {
            piece: Box::new(alloc, WriteBuffer::new())?,
        })
    }
}
