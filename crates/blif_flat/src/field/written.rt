//! How the names of nets are written: the ordinals of the instance from the outside in, each followed by `/`, and then the name
//! at the driver.
ghost use Rattle.std.specs.Prelude.{◌≡◌, ◌<◌, ◌∷◌, ◌++◌, [], length, decimal, Some, slice_get, IfOk, OnOk};
ghost use Rattle.std.specs.Option.{option_and_then};
ghost use Rattle.blif_flat.specs.Bodies.Conditions.{AreCoversOf};
ghost use Rattle.blif_flat.specs.{Path, CoverAt, IsWritten, AreInstances, IsWrittenAt, AreUnder};
ghost use Rattle.blif_flat.specs.{body_at, cover_in, is_cover, cover_net, path_text, paths_of, places_at, output_or, output_at as output_at_of};
ghost use Rattle.netlist.specs.CoverValue.{CoverValue};

use crate::circuit::instances::{Gate, Instance};
use itoa::Buffer;
use netlist::{BlifModel, Body, Library};
use std::alloc::{AllocError, Global};
use tl_text::Name;

// A row of the instances.
fn row_at(instances: &[Instance], i: u32) -> Instance
    requires { i < length instances.now }
    ensures { slice_get instances.now i ≡ Some result }
{
    instances[i as usize]
}

// The path of a row: its ordinal, then those of the instances that it stands in.
fn path_at(alloc: Global, instances: &[Instance], i: u32) -> Result<Vec<u32>, AllocError>
    requires instances { AreUnder instances.now }
    requires here { i < length instances.now }
    ensures { IfOk result (λ path. slice_get (paths_of instances.now) i ≡ Some path.items) }
{
    let mut path = Vec::new(alloc);
    let mut at = i;
    while let Some(parent) = row_at(instances, at).parent {
        path.push(row_at(instances, at).ordinal)?;
        at = parent;
    }
    Ok(path)
}

// Adds an ordinal and `/`.
fn add_ordinal(text: &mut Vec<u8>, ordinal: u32) -> Result<(), AllocError>
    ensures { OnOk result (text.new.items ≡ text.old.items ++ (decimal ordinal ++ 47 ∷ [])) }
{
    let mut digits = Buffer::new();
    text.extend_from_slice(digits.format(ordinal).as_bytes())?;
    text.push(b'/')?;
    Ok(())
}

// The text of a path, from the outside in.
fn written_path(alloc: Global, path: Vec<u32>) -> Result<Vec<u8>, AllocError>
    ensures { IfOk result (λ text. text.items ≡ path_text path.items) }
{
    let mut text = Vec::new(alloc);
    let mut left = path;
    while let Some(ordinal) = left.pop() {
        add_ordinal(&mut text, ordinal)?;
    }
    Ok(text)
}

// A text after the path of a row.
fn written_under(
    alloc: Global,
    instances: &[Instance],
    i: u32,
    name: &[u8],
) -> Result<Name, AllocError>
    requires instances { AreUnder instances.now }
    requires here { i < length instances.now }
    ensures { IfOk result (λ text. (path : Path) → slice_get (paths_of instances.now) i ≡ Some path → text ≡ path_text path ++ name.now) }
{
    let path = path_at(alloc, instances, i)?;
    let mut text = written_path(alloc, path)?;
    text.extend_from_slice(name)?;
    Name::make(alloc, text.as_slice())
}

/// The written name of a net: the decimal ordinals of the instance of this row from the outside in, each followed by `/`, and
/// then the name at the driver. `Err` only if memory runs out. The time is linear in the bytes of the result.
pub(crate) fn write_net(
    alloc: Global,
    instances: &[Instance],
    i: u32,
    name: &Name,
) -> Result<Name, AllocError>
    requires instances { AreUnder instances.now }
    requires here { i < length instances.now }
    ensures { IfOk result (λ text. (path : Path) → slice_get (paths_of instances.now) i ≡ Some path → text ≡ path_text path ++ name.now) }
{
    written_under(alloc, instances, i, name.bytes())
}

// The output of the cover of a command, and nothing where there is no cover.
fn output_in(model: &BlifModel, command: u32) -> &[u8]
    ensures { result.now ≡ output_or (option_and_then cover_in (body_at model.now command)) }
{
    match model.commands.get(command as usize) {
        None => b"",
        Some(found) => match &found.body {
            Body::Cover(cover) => cover.output.bytes(),
            Body::Latch(_) => b"",
            Body::Subckt(_) => b"",
        },
    }
}

// The same by the number of the model.
fn output_at(library: &Library, model: u32, command: u32) -> &[u8]
    ensures { result.now ≡ output_at_of library.now model command }
{
    match library.models.get(model as usize) {
        None => b"",
        Some(found) => output_in(found, command),
    }
}

// The net of the cover that is this command of the instance of this row, as it is written.
fn write_cover(
    alloc: Global,
    library: &Library,
    instances: &[Instance],
    i: u32,
    command: u32,
) -> Result<Name, AllocError>
    requires instances { AreInstances library.now instances.now }
    requires here { i < length instances.now }
    ensures { IfOk result (λ text. (path : Path) (c : CoverValue) → slice_get (paths_of instances.now) i ≡ Some path
        → CoverAt library.now path command c → IsWritten library.now (cover_net path command) text) }
{
    let model = row_at(instances, i).model;
    let text = written_under(alloc, instances, i, output_at(library, model, command))?;
    Ok(text)
}

/// The written name of the net that the cover of this number drives. The gates are those of the covers. `Err` only if memory
/// runs out. The time is linear in the bytes of the result.
pub(crate) fn written_cover(
    alloc: Global,
    library: &Library,
    instances: &[Instance],
    gates: &[Gate],
    number: u32,
) -> Result<Name, AllocError>
    requires instances { AreInstances library.now instances.now }
    requires gates { AreCoversOf library.now instances.now gates.now }
    requires here { number < length gates.now }
    ensures { IfOk result (λ text. IsWrittenAt library.now (places_at library.now is_cover (paths_of instances.now)) number text) }
{
    let gate = gates[number as usize];
    let text = write_cover(alloc, library, instances, gate.row, gate.command)?;
    Ok(text)
}
