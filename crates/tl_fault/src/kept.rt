//! How the bytes of a name are stored.
ghost use Rattle.std.specs.Prelude.{◌≡◌, ◌≤◌, length, IfOk};
ghost use Rattle.tl_fault.specs.KeptBytes.{IsKept, kept_bytes};

use std::alloc::{AllocError, Global};

// The most bytes that are kept in place.
const IN_PLACE: usize = 22;

/// Up to 22 bytes in place, or more in an allocation.
#[derive(Debug, Drop)]
pub(crate) enum Kept {
    /// The number of bytes, and an array that begins with them.
    Short(u8, [u8; IN_PLACE]),
    Long(Box<Vec<u8>>),
}

// As few bytes as are kept in place.
fn short(bytes: &[u8]) -> Kept
    requires { length bytes.now ≤ 22 }
    ensures value { kept_bytes result ≡ bytes.now }
    ensures kept { IsKept result }
{
    let mut cells = [0; IN_PLACE];
    cells[..bytes.len()].copy_from_slice(bytes);
    Kept::Short(bytes.len() as u8, cells)
}

/// A copy of the bytes. `Err` only if memory runs out.
pub(crate) fn keep(alloc: Global, bytes: &[u8]) -> Result<Kept, AllocError>
    ensures value { IfOk result (λ kept. kept_bytes kept ≡ bytes.now) }
    ensures kept { IfOk result IsKept }
{
    if bytes.len() <= IN_PLACE {
        return Ok(short(bytes));
    }
    let copy = Vec::from_slice(alloc, bytes)?;
    Ok(Kept::Long(Box::new(alloc, copy)?))
}

impl Kept {
    /// The bytes, in constant time.
    pub(crate) fn bytes(&self) -> &[u8]
        requires { IsKept self.now }
        ensures { result.now ≡ kept_bytes self.now }
    {
        match self {
            Kept::Short(len, cells) => &cells[..*len as usize],
            Kept::Long(bytes) => bytes.as_slice(),
        }
    }
}
