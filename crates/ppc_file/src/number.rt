//! Reading the numbers of a pack file.
ghost use Rattle.std.specs.Prelude.{◌≡◌, ◌<◌, ◌≤◌, ◌^◌, IfOk};
ghost use Rattle.std.specs.Int.{w16, w32};
ghost use Rattle.ppc_file.specs.Numbers.{offset as offset_of, sevens_at as sevens_there, number_at};
ghost use Rattle.ppc_file.specs.Reading.{Gives};

use crate::pack_err::PackErr;
use crate::version::Version;

// The offset in a file of `total` bytes at which `rest` begins.
pub(crate) fn offset(total: u32, rest: &[u8]) -> u32
    ensures { result ≡ offset_of total rest.now }
{
    (total as usize).saturating_sub(rest.len()) as u32
}

// The number at an offset, in at most `left` bytes of seven bits, and the bytes after it.
fn sevens_at(at: u32, left: u32, rest: &[u8]) -> Result<(u64, &[u8]), PackErr>
    requires { left ≤ 5 }
    ensures number { Gives (λ x. (x.0, x.1.now)) result (sevens_there at left rest.now) }
    ensures small { IfOk result (λ x. x.0 < 128 ^ left) }
{
    if left == 0 {
        return Err(PackErr::BadNumber(at));
    }
    match rest {
        [] => Err(PackErr::Truncated(at)),
        [byte, behind @ ..] => {
            if *byte < 128 {
                return Ok((*byte as u64, behind));
            }
            let (high, behind) = sevens_at(at, left - 1, behind)?;
            if high == 0 {
                return Err(PackErr::BadNumber(at));
            }
            Ok(((*byte - 128) as u64 + 128 * high, behind))
        }
    }
}

// The number of version 2 with which the bytes begin, and the bytes after it.
fn number_of_sevens(total: u32, rest: &[u8]) -> Result<(u32, &[u8]), PackErr>
    ensures { Gives (λ x. (x.0, x.1.now)) result (number_at total Version.Two w32 rest.now) }
{
    let at = offset(total, rest);
    let (number, behind) = sevens_at(at, 5, rest)?;
    if number > 4_294_967_295 {
        return Err(PackErr::BadNumber(at));
    }
    Ok((number as u32, behind))
}

// The number of a field that has two bytes in version 1, and the bytes after it.
pub(crate) fn short_number(
    version: Version,
    total: u32,
    rest: &[u8],
) -> Result<(u32, &[u8]), PackErr>
    ensures { Gives (λ x. (x.0, x.1.now)) result (number_at total version w16 rest.now) }
{
    match version {
        Version::One => {
            if rest.len() < 2 {
                return Err(PackErr::Truncated(offset(total, rest)));
            }
            let (front, behind) = rest.split_at(2);
            Ok((u16::from_be_bytes([front[0], front[1]]) as u32, behind))
        }
        Version::Two => number_of_sevens(total, rest),
    }
}

// The number of a field that has four bytes in version 1, and the bytes after it.
pub(crate) fn number(version: Version, total: u32, rest: &[u8]) -> Result<(u32, &[u8]), PackErr>
    ensures { Gives (λ x. (x.0, x.1.now)) result (number_at total version w32 rest.now) }
{
    match version {
        Version::One => {
            if rest.len() < 4 {
                return Err(PackErr::Truncated(offset(total, rest)));
            }
            let (front, behind) = rest.split_at(4);
            let number = u32::from_be_bytes([front[0], front[1], front[2], front[3]]);
            Ok((number, behind))
        }
        Version::Two => number_of_sevens(total, rest),
    }
}
