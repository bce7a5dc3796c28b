//! Building the library of a circuit.
ghost use Rattle.std.specs.Prelude.{◌≡◌, ◌+◌, ◌<◌, ◌^◌, ◌∷◌, ◌++◌, length, IfOk, OnOk};
ghost use Rattle.aiger_io.specs.CircuitLibrary.{port_name, variable_name, zero_command, item_commands, commands_from, library_of};

use crate::command::{buffer, gate, latch, literal, zero};
use crate::header::Header;
use crate::item::Item;
use crate::own_name::{mark, name_of};
use netlist::{BlifModel, Command, Library};
use std::alloc::{AllocError, Global};
use tl_text::{Name, TextKey};

// The name of the port with an ordinal.
fn port(alloc: Global, names: &[Name], ordinal: usize) -> Result<Name, AllocError>
    ensures { IfOk result (λ name. name ≡ port_name names.now ordinal) }
{
    match names.get(ordinal) {
        Some(name) => Name::make(alloc, name.bytes()),
        None => Name::make(alloc, b""),
    }
}

// The parts of a circuit from which the commands are built.
#[derive(Drop)]
pub struct Parts<'a> {
    header: Header,
    mark: &'a [u8],
    inputs: &'a [Name],
    outputs: &'a [Name],
}

impl<'a> Parts<'a> {
    // Adds the commands of a latch.
    fn add_latch(
        &self,
        alloc: Global,
        commands: &mut Vec<Command>,
        place: u32,
        own: u32,
        next: u32,
        init: bool,
    ) -> Result<(), AllocError>
        requires { place + 2 < 2 ^ 32 }
        ensures { OnOk result (commands.new.items ≡ commands.old.items ++ item_commands self.now.mark.now self.now.header self.now.inputs.now self.now.outputs.now place (Item.Latch own next init)) }
    {
        let ordinal = place.saturating_sub(self.header.inputs);
        let output = name_of(alloc, self.mark, b'x', ordinal)?;
        let command = literal(alloc, self.mark, place + 2, next, output)?;
        commands.push(command)?;
        let input = name_of(alloc, self.mark, b'x', ordinal)?;
        let state = name_of(alloc, self.mark, b'v', own / 2)?;
        commands.push(latch(place + 2, input, state, init))?;
        Ok(())
    }

    // Adds the cover of an output.
    fn add_output(
        &self,
        alloc: Global,
        commands: &mut Vec<Command>,
        place: u32,
        l: u32,
    ) -> Result<(), AllocError>
        requires { place + 2 < 2 ^ 32 }
        ensures { OnOk result (commands.new.items ≡ commands.old.items ++ item_commands self.now.mark.now self.now.header self.now.inputs.now self.now.outputs.now place (Item.Output l)) }
    {
        let first = self.header.inputs as usize + self.header.latches as usize;
        let name = port(alloc, self.outputs, (place as usize).saturating_sub(first))?;
        let command = literal(alloc, self.mark, place + 2, l, name)?;
        commands.push(command)?;
        Ok(())
    }

    // Adds the cover of an input.
    fn add_input(
        &self,
        alloc: Global,
        commands: &mut Vec<Command>,
        place: u32,
        own: u32,
    ) -> Result<(), AllocError>
        requires { place + 2 < 2 ^ 32 }
        ensures { OnOk result (commands.new.items ≡ commands.old.items ++ item_commands self.now.mark.now self.now.header self.now.inputs.now self.now.outputs.now place (Item.Input own)) }
    {
        let name = port(alloc, self.inputs, place as usize)?;
        let command = buffer(alloc, self.mark, place + 2, own, name)?;
        commands.push(command)?;
        Ok(())
    }

    // Adds the cover of an AND gate.
    fn add_gate(
        &self,
        alloc: Global,
        commands: &mut Vec<Command>,
        place: u32,
        own: u32,
        left: u32,
        right: u32,
    ) -> Result<(), AllocError>
        requires { place + 2 < 2 ^ 32 }
        ensures { OnOk result (commands.new.items ≡ commands.old.items ++ item_commands self.now.mark.now self.now.header self.now.inputs.now self.now.outputs.now place (Item.And own left right)) }
    {
        let command = gate(alloc, self.mark, place + 2, own, left, right)?;
        commands.push(command)?;
        Ok(())
    }

    // Adds the commands for the line at a place.
    fn add(
        &self,
        alloc: Global,
        commands: &mut Vec<Command>,
        place: u32,
        item: Item,
    ) -> Result<(), AllocError>
        requires { place + 2 < 2 ^ 32 }
        ensures { OnOk result (commands.new.items ≡ commands.old.items ++ item_commands self.now.mark.now self.now.header self.now.inputs.now self.now.outputs.now place item) }
    {
        match item {
            Item::Input(own) => self.add_input(alloc, commands, place, own),
            Item::Latch(own, next, init) => self.add_latch(alloc, commands, place, own, next, init),
            Item::Output(l) => self.add_output(alloc, commands, place, l),
            Item::And(own, left, right) => self.add_gate(alloc, commands, place, own, left, right),
        }
    }

    // The commands of all lines.
    fn commands(&self, alloc: Global, items: &[Item]) -> Result<Vec<Command>, AllocError>
        requires { length items.now + 2 < 2 ^ 32 }
        ensures { IfOk result (λ commands. commands.items ≡ zero_command 1 (variable_name self.now.mark.now 0) ∷ commands_from self.now.mark.now self.now.header self.now.inputs.now self.now.outputs.now 0 items.now) }
    {
        let mut commands = Vec::new(alloc);
        let output = name_of(alloc, self.mark, b'v', 0)?;
        commands.push(zero(alloc, 1, output))?;
        let mut place = 0;
        for item in items {
            self.add(alloc, &mut commands, place, *item)?;
            place += 1;
        }
        Ok(commands)
    }
}

/// The library of a circuit, given by its parts, from a text of this key.
pub(crate) fn library(
    alloc: Global,
    key: TextKey,
    header: &Header,
    items: &[Item],
    inputs: Vec<Name>,
    outputs: Vec<Name>,
) -> Result<Library, AllocError>
    requires { length items.now + 2 < 2 ^ 32 }
    ensures { IfOk result (λ library. library ≡ library_of (record { header = header.now; items = items.now; inputs = inputs.items; outputs = outputs.items })) }
{
    let mark = mark(alloc, &inputs, &outputs)?;
    let parts = Parts {
        header: *header,
        mark: &mark,
        inputs: &inputs,
        outputs: &outputs,
    };
    let commands = parts.commands(alloc, items)?;
    let mut models = Vec::new(alloc);
    models.push(BlifModel {
        name: Name::make(alloc, b"aag")?,
        line: 1,
        inputs,
        outputs,
        clocks: Vec::new(alloc),
        commands,
    })?;
    Ok(Library::of(models, key))
}
