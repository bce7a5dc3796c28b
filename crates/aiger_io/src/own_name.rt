//! Generated names, which differ from those of inputs and outputs.
ghost use Rattle.std.specs.Prelude.{◌≡◌, ◌+◌, ◌++◌, max, replicate, IfOk};
ghost use Rattle.netlist.specs.Flat.{underscores as underscores_of, most_underscores};
ghost use Rattle.aiger_io.specs.CircuitLibrary.{mark_of, own_name};

use itoa::Buffer;
use std::alloc::{AllocError, Global};
use tl_text::Name;

// The number of underscores with which a name begins.
fn underscores(name: &[u8]) -> usize
    ensures { result ≡ underscores_of name.now }
{
    let mut count = 0;
    for &byte in name {
        if byte != b'_' {
            return count;
        }
        count += 1;
    }
    count
}

// The greatest number of leading underscores in the names, and at least `least`.
fn most_of(names: &[Name], least: usize) -> usize
    ensures { result ≡ max least (most_underscores names.now) }
{
    let mut most = least;
    for name in names {
        most = most.max(underscores(name.bytes()));
    }
    most
}

// `count` underscores, and one more.
fn underscores_more(alloc: Global, count: usize) -> Result<Vec<u8>, AllocError>
    ensures { IfOk result (λ bytes. bytes.items ≡ replicate (1 + count) 95) }
{
    let mut bytes = vec![in alloc; b'_'; count]?;
    bytes.push(b'_')?;
    Ok(bytes)
}

/// One underscore more than any of these names begins with.
pub(crate) fn mark(alloc: Global, inputs: &[Name], outputs: &[Name]) -> Result<Vec<u8>, AllocError>
    ensures { IfOk result (λ mark. mark.items ≡ mark_of (inputs.now ++ outputs.now)) }
{
    let mark = underscores_more(alloc, most_of(outputs, most_of(inputs, 0)))?;
    Ok(mark)
}

/// The generated name with a number. Time is linear in its length.
pub(crate) fn name_of(
    alloc: Global,
    mark: &[u8],
    letter: u8,
    number: u32,
) -> Result<Name, AllocError>
    ensures { IfOk result (λ name. name ≡ own_name mark.now letter number) }
{
    let mut buffer = Buffer::new();
    let digits = buffer.format(number).as_bytes();
    let mut bytes = Vec::from_slice(alloc, mark)?;
    bytes.push(letter)?;
    bytes.extend_from_slice(digits)?;
    Name::make(alloc, &bytes)
}
