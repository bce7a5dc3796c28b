//! Copies into arrays of C.
ghost use Rattle.std.specs.Prelude.{◌≡◌, length};
ghost use Rattle.tlut_host.specs.Calls.{IsValueCall};
ghost use Rattle.tlut_host.specs.Copied.{copied, copied_plain};

use crate::setting::{BitWrite, DONE, RANGE};
use tl_io::Write;

// Copies as many of the writes as there is room for, and answers how many there are.
pub(crate) fn copy_writes(from: &[Write], to: &mut [BitWrite]) -> usize
    ensures copied { to.new ≡ copied from.now to.old }
    ensures count { result ≡ length from.now }
{
    let fits = from.len().min(to.len());
    for place in 0..fits {
        let write = from[place];
        to[place] = BitWrite {
            address: write.address,
            bit: write.bit,
        };
    }
    from.len()
}

// Copies as many of the bits as there is room for, and answers how many there are.
pub(crate) fn copy_bits(from: &[bool], to: &mut [bool]) -> usize
    ensures copied { to.new ≡ copied_plain from.now to.old }
    ensures count { result ≡ length from.now }
{
    let fits = from.len().min(to.len());
    for place in 0..fits {
        to[place] = from[place];
    }
    from.len()
}

// Copies as many of the bytes as there is room for, and answers how many there are.
pub(crate) fn copy_bytes(from: &[u8], to: &mut [u8]) -> usize
    ensures copied { to.new ≡ copied_plain from.now to.old }
    ensures count { result ≡ length from.now }
{
    let fits = from.len().min(to.len());
    for place in 0..fits {
        to[place] = from[place];
    }
    from.len()
}

// The value of this number, or `RANGE` if there is none.
pub(crate) fn value_at(values: &[bool], number: u16, value: &mut bool) -> u32
    ensures { IsValueCall number values.now value.old value.new result }
{
    let Some(found) = values.get(number as usize) else {
        return RANGE;
    };
    *value = *found;
    DONE
}
