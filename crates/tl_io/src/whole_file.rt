//! Reading a whole file of a shelf.
ghost use Rattle.std.specs.Prelude.{◌≡◌, ◌<◌, ◌≤◌, false, IfOk, OnOk, IsErrOf, length, take};
ghost use Rattle.tl_io.specs.Causes.{Rose};
ghost use Rattle.tl_io.specs.Slurp.{IsFile, IsLonger};

use crate::read_error::Slurp;
use crate::told_name::NAME_ROOM;
use crate::{Failed, Shelf};
use std::alloc::Global;

/// Reads the whole file of this name, of at most `limit` bytes.
///
/// If the shelf tells its files, the result is all bytes of the file. It makes one pass over the file and one copy of it.
///
/// # Errors
/// - `ReadFault` only if the shelf's count of read faults rose, in this call and since the read began.
/// - `TooLong` if and only if the shelf gave more than `limit` bytes.
/// - `Memory` if there is no memory for the bytes.
pub fn slurp<S: Shelf>(
    alloc: Global,
    shelf: &mut S,
    name: &str,
    limit: u64,
) -> Result<Vec<u8>, Slurp>
    // All bytes of the file, or the cause of the error.
    ensures file { IfOk result (λ text. IsFile (S.seen shelf.old).files name.now text.items) }
    ensures short { IfOk result (λ text. length text.items ≤ limit) }
    ensures fault { IsErrOf result Slurp.ReadFault → Rose (S.seen shelf.old).read_faults (S.seen shelf.new).read_faults × Rose (S.seen shelf.new).before (S.seen shelf.new).read_faults }
    ensures too_long { IsErrOf result Slurp.TooLong → limit < (S.seen shelf.new).given }
    ensures longer { IsErrOf result Slurp.TooLong → IsLonger (S.seen shelf.old).files name.now limit }

    // Besides `TooLong`, only `Memory` can come after more bytes than the limit.
    ensures within { OnOk result ((S.seen shelf.new).given ≤ limit) }
    ensures fault_within { IsErrOf result Slurp.ReadFault → (S.seen shelf.new).given ≤ limit }

    // The shelf then tells this name.
    ensures name { OnOk result ((S.seen shelf.new).name ≡ take NAME_ROOM name.now) }
    ensures fault_name { IsErrOf result Slurp.ReadFault → (S.seen shelf.new).name ≡ take NAME_ROOM name.now }
    ensures too_long_name { IsErrOf result Slurp.TooLong → (S.seen shelf.new).name ≡ take NAME_ROOM name.now }

    // What is unchanged.
    ensures later { (S.seen shelf.old).read_faults ≤ (S.seen shelf.new).read_faults }
    ensures files { (S.seen shelf.new).files ≡ (S.seen shelf.old).files }
    ensures write_faults { (S.seen shelf.new).write_faults ≡ (S.seen shelf.old).write_faults }
    ensures not_writing { (S.seen shelf.new).is_writing ≡ false }
{
    if let Err(Failed) = shelf.begin_read(name) {
        return Err(Slurp::ReadFault);
    }
    let mut text = Vec::new(alloc);
    let mut buf = [0u8; 4096];
    loop {
        match shelf.pull(&mut buf) {
            Err(Failed) => return Err(Slurp::ReadFault),
            Ok(0) => return Ok(text),
            Ok(n) => {
                if n as u64 > limit - text.len() as u64 {
                    return Err(Slurp::TooLong);
                }
                if text.extend_from_slice(&buf[..n]).is_err() {
                    return Err(Slurp::Memory);
                }
            }
        }
    }
}
