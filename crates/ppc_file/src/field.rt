//! Reading the fields of a pack file, one by one. Each call returns a field and the bytes after it.
ghost use Rattle.std.specs.Prelude.{◌≡◌, ◌<◌};
ghost use Rattle.std.specs.List.{list_any};
ghost use Rattle.tl_text.specs.Lines.{ends_in};
ghost use Rattle.ppc_file.specs.Fields.{bytes_at as bytes_there, magic_at, version_at, param_count_at, node_count_at, bit_count_at, name_length_at, name_at, is_bad_byte as is_bad_byte_there, value_at, param_at, fan_ins_at, is_bad_pair as is_bad_pair_there, bit_at};
ghost use Rattle.ppc_file.specs.Reading.{Gives};

use crate::number::{number, offset, short_number};
use crate::pack_err::PackErr;
use crate::version::Version;
use aig_core::{Lit, Pair};
use ppc_pack::{MOST_NAME_BYTES, MOST_PACK_BITS, MOST_PACK_NODES, MOST_PARAMETERS};
use tl_text::NameIndex;

// The next `count` bytes, and those after them.
fn bytes_at(total: u32, count: usize, rest: &[u8]) -> Result<(&[u8], &[u8]), PackErr>
    ensures { Gives (λ x. (x.0.now, x.1.now)) result (bytes_there total count rest.now) }
{
    if rest.len() < count {
        return Err(PackErr::Truncated(offset(total, rest)));
    }
    Ok(rest.split_at(count))
}

// The four letters of the magic.
pub(crate) fn magic(total: u32, rest: &[u8]) -> Result<(&[u8], &[u8]), PackErr>
    ensures { Gives (λ x. (x.0.now, x.1.now)) result (magic_at total rest.now) }
{
    let (letters, behind) = bytes_at(total, 4, rest)?;
    if letters != b"TPPC".as_slice() {
        return Err(PackErr::Magic(offset(total, rest)));
    }
    Ok((letters, behind))
}

// The version.
pub(crate) fn version(total: u32, rest: &[u8]) -> Result<(Version, &[u8]), PackErr>
    ensures { Gives (λ x. (x.0, x.1.now)) result (version_at total rest.now) }
{
    let (number, behind) = short_number(Version::One, total, rest)?;
    match number {
        1 => Ok((Version::One, behind)),
        2 => Ok((Version::Two, behind)),
        _ => Err(PackErr::Version(offset(total, rest))),
    }
}

// The number of parameters.
pub(crate) fn param_count(
    version: Version,
    total: u32,
    rest: &[u8],
) -> Result<(u32, &[u8]), PackErr>
    ensures { Gives (λ x. (x.0, x.1.now)) result (param_count_at total version rest.now) }
{
    let (count, behind) = short_number(version, total, rest)?;
    if count as usize > MOST_PARAMETERS {
        return Err(PackErr::BadNumber(offset(total, rest)));
    }
    Ok((count, behind))
}

// The number of nodes.
pub(crate) fn node_count(version: Version, total: u32, rest: &[u8]) -> Result<(u32, &[u8]), PackErr>
    ensures { Gives (λ x. (x.0, x.1.now)) result (node_count_at total version rest.now) }
{
    let (count, behind) = number(version, total, rest)?;
    if count > MOST_PACK_NODES {
        return Err(PackErr::BadNode(offset(total, rest)));
    }
    Ok((count, behind))
}

// The number of bits.
pub(crate) fn bit_count(version: Version, total: u32, rest: &[u8]) -> Result<(u32, &[u8]), PackErr>
    ensures { Gives (λ x. (x.0, x.1.now)) result (bit_count_at total version rest.now) }
{
    let (count, behind) = number(version, total, rest)?;
    if count > MOST_PACK_BITS {
        return Err(PackErr::BadBit(offset(total, rest)));
    }
    Ok((count, behind))
}

// The length of the name of a parameter, in bytes.
fn name_length(version: Version, total: u32, rest: &[u8]) -> Result<(u32, &[u8]), PackErr>
    ensures { Gives (λ x. (x.0, x.1.now)) result (name_length_at total version rest.now) }
{
    let (length, behind) = short_number(version, total, rest)?;
    if length as usize > MOST_NAME_BYTES || length == 0 {
        return Err(PackErr::BadName(offset(total, rest)));
    }
    Ok((length, behind))
}

// Whether no name may contain this byte.
fn is_bad_byte(byte: u8) -> bool
    ensures { result ≡ is_bad_byte_there byte }
{
    byte < 33 || byte == b'#' || byte == 127
}

fn has_bad_byte(name: &[u8]) -> bool
    ensures { result ≡ list_any is_bad_byte_there name.now }
{
    name.iter().any(|byte| is_bad_byte(*byte))
}

fn ends_in_slash(name: &[u8]) -> bool
    ensures { result ≡ ends_in 92 name.now }
{
    !name.is_empty() && name[name.len() - 1] == b'\\'
}

// The name of a parameter.
fn name<'a>(
    total: u32,
    earlier: &NameIndex,
    length: u32,
    rest: &'a [u8],
) -> Result<(&'a [u8], &'a [u8]), PackErr>
    ensures { Gives (λ x. (x.0.now, x.1.now)) result (name_at total earlier.now length rest.now) }
{
    let (name, behind) = bytes_at(total, length as usize, rest)?;
    if has_bad_byte(name) || ends_in_slash(name) || earlier.has(name) {
        return Err(PackErr::BadName(offset(total, rest)));
    }
    Ok((name, behind))
}

// The initial value of a parameter.
fn value(total: u32, rest: &[u8]) -> Result<(bool, &[u8]), PackErr>
    ensures { Gives (λ x. (x.0, x.1.now)) result (value_at total rest.now) }
{
    match rest {
        [] => Err(PackErr::Truncated(offset(total, rest))),
        [0, behind @ ..] => Ok((false, behind)),
        [1, behind @ ..] => Ok((true, behind)),
        [_, ..] => Err(PackErr::BadName(offset(total, rest))),
    }
}

// A parameter as it is in the file.
#[derive(Clone, Copy)]
pub(crate) struct NamedInit<'a> {
    pub name: &'a [u8],
    pub init: bool,
}

// A parameter, given the names of the earlier ones.
pub(crate) fn param<'a>(
    version: Version,
    total: u32,
    earlier: &NameIndex,
    rest: &'a [u8],
) -> Result<(NamedInit<'a>, &'a [u8]), PackErr>
    ensures { Gives (λ x. (record { name = x.0.name.now; init = x.0.init }, x.1.now)) result (param_at total version earlier.now rest.now) }
{
    let (length, rest) = name_length(version, total, rest)?;
    let (name, rest) = name(total, earlier, length, rest)?;
    let (init, rest) = value(total, rest)?;
    Ok((NamedInit { name, init }, rest))
}

// The fan-ins of a node in version 1.
fn fan_ins_of_bytes(total: u32, rest: &[u8]) -> Result<(Pair, &[u8]), PackErr>
    ensures { Gives (λ x. (x.0, x.1.now)) result (fan_ins_at total Version.One 0 rest.now) }
{
    if rest.len() < 8 {
        return Err(PackErr::Truncated(offset(total, rest)));
    }
    let (x, rest) = number(Version::One, total, rest)?;
    let (y, rest) = number(Version::One, total, rest)?;
    Ok((
        Pair {
            x: Lit(x),
            y: Lit(y),
        },
        rest,
    ))
}

// The fan-ins of the node with an index in version 2.
fn fan_ins_of_differences(total: u32, node: u32, rest: &[u8]) -> Result<(Pair, &[u8]), PackErr>
    requires { node < 2147483648 }
    ensures { Gives (λ x. (x.0, x.1.now)) result (fan_ins_at total Version.Two node rest.now) }
{
    let (first, rest) = number(Version::Two, total, rest)?;
    let (second, rest) = number(Version::Two, total, rest)?;
    let y = (2 * node).saturating_sub(first);
    let x = y.saturating_sub(second);
    Ok((
        Pair {
            x: Lit(x),
            y: Lit(y),
        },
        rest,
    ))
}

// The fan-ins of the node with an index.
pub(crate) fn fan_ins(
    version: Version,
    total: u32,
    node: u32,
    rest: &[u8],
) -> Result<(Pair, &[u8]), PackErr>
    requires { node < 2147483648 }
    ensures { Gives (λ x. (x.0, x.1.now)) result (fan_ins_at total version node rest.now) }
{
    match version {
        Version::One => fan_ins_of_bytes(total, rest),
        Version::Two => fan_ins_of_differences(total, node, rest),
    }
}

// Whether these can't be the fan-ins of the node with this index: one is a constant, they aren't in order, both are of one
// node, or one isn't below the node.
pub(crate) fn is_bad_pair(node: u32, pair: Pair) -> bool
    ensures { result ≡ is_bad_pair_there node pair }
{
    let Pair { x, y } = pair;
    x.0 < 2 || y.0 <= x.0 || x.0 / 2 == y.0 / 2 || node <= y.0 / 2
}

// The literal of a bit.
pub(crate) fn bit(
    version: Version,
    total: u32,
    nodes: u32,
    rest: &[u8],
) -> Result<(Lit, &[u8]), PackErr>
    ensures { Gives (λ x. (x.0, x.1.now)) result (bit_at total version nodes rest.now) }
{
    let (literal, behind) = number(version, total, rest)?;
    if nodes <= literal / 2 {
        return Err(PackErr::BadBit(offset(total, rest)));
    }
    Ok((Lit(literal), behind))
}
