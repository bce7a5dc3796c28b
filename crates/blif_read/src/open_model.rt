//! A model whose lines are being read.
ghost use Rattle.std.specs.Prelude.{◌≡◌, ◌++◌, Some, ◌∷◌, [], None, IfOk, OnOk};
ghost use Rattle.netlist.specs.declared.command.Body.TheVariants.{Latch as LatchBody, Subckt as SubcktBody};
ghost use Rattle.blif_read.specs.LineFault.{latch_fault, names_fault, ports_fault, row_fault, subckt_fault};
ghost use Rattle.blif_read.specs.Reading.{ReadsUnless, body_read, commands_with, flushed, fresh, latch_of, model_line_fault, names_read, place_of_cover, row_read, subckt_of, model_after as after};

use crate::blif_err::BlifErr;
use crate::connections::subckt_line;
use crate::keyword::Keyword;
use crate::latch_line::latch_line;
use crate::open_cover::{OpenCover, open_cover, read_cover_row};
use crate::port_list::PortList;
use netlist::{BlifModel, Body, Command};
use std::alloc::{AllocError, Global};
use std::marker::Model;
use tl_text::{Name, TextKey};

/// A model whose lines are being read. A cover whose rows may follow isn't among its commands yet.
#[derive(Drop)]
pub(crate) struct OpenModel {
    name: Name,
    line: u32,
    inputs: PortList,
    outputs: PortList,
    clocks: PortList,
    commands: Vec<Command>,
    cover: Option<OpenCover>,
}

impl Model for OpenModel {
    ghost use Rattle.blif_read.specs.Reading.{ModelRead};

    ghost Value = { ModelRead };

    ghost view = { λ m. record {
      model = record { name = m.name; line = m.line; inputs = m.inputs; outputs = m.outputs; clocks = m.clocks; commands = m.commands.items };
      cover = m.cover;
    } };
}

// Appends the cover of whose rows none follow any more.
fn add_cover(commands: &mut Vec<Command>, cover: Option<OpenCover>) -> Result<(), AllocError>
    ensures { OnOk result (commands.new.items ≡ commands_with commands.old.items cover) }
{
    match cover {
        None => Ok(()),
        Some(OpenCover { line, mut cover }) => {
            cover.rows.shrink_to_fit();
            commands.push(Command {
                line,
                body: Body::Cover(cover),
            })?;
            Ok(())
        }
    }
}

// Puts the last cover among the commands: no row of it follows any more.
fn end_cover(model: &mut OpenModel) -> Result<(), AllocError>
    ensures { OnOk result (model.new
        ≡ record { model = record model.old.model { commands = commands_with model.old.model.commands model.old.cover }; cover = None }) }
{
    let cover = model.cover.take();
    add_cover(&mut model.commands, cover)
}

// Appends the names of a line to ports.
fn add_ports(
    alloc: Global,
    ports: &mut PortList,
    number: u32,
    names: Vec<Name>,
) -> Result<(), BlifErr>
    ensures { ReadsUnless (ports_fault number ports.old names.items) (λ _. ports.new ≡ ports.old ++ names.items) result }
{
    let key = ports.key();
    let before = std::mem::replace(ports, PortList::new(alloc, key));
    *ports = before.with(alloc, number, names)?;
    Ok(())
}

// Begins the cover of a `.names` line.
fn begin_cover(
    alloc: Global,
    model: &mut OpenModel,
    number: u32,
    names: Vec<Name>,
) -> Result<(), BlifErr>
    ensures { ReadsUnless (names_fault number names.items) (λ _. model.new ≡ names_read number names.items model.old) result }
{
    end_cover(model)?;
    match open_cover(alloc, number, names) {
        None => Err(BlifErr::Arity(number)),
        Some(next) => {
            model.cover = Some(next);
            Ok(())
        }
    }
}

// Adds the row that a line's words are.
fn add_row(alloc: Global, model: &mut OpenModel, number: u32, words: &[Name]) -> Result<(), BlifErr>
    ensures { ReadsUnless (row_fault number (place_of_cover model.old.cover) words.now) (λ _. model.new ≡ row_read words.now model.old) result }
{
    model.cover = read_cover_row(alloc, number, model.cover.take(), words)?;
    Ok(())
}

// Adds the latch that a line's words are.
fn add_latch(model: &mut OpenModel, number: u32, words: Vec<Name>) -> Result<(), BlifErr>
    ensures { ReadsUnless (latch_fault number words.items) (λ _. model.new ≡ body_read number (LatchBody (latch_of words.items)) model.old) result }
{
    end_cover(model)?;
    let latch = latch_line(number, words)?;
    model.commands.push(Command {
        line: number,
        body: Body::Latch(latch),
    })?;
    Ok(())
}

// Adds the subcircuit that a line's words are.
fn add_subckt(
    alloc: Global,
    model: &mut OpenModel,
    number: u32,
    words: Vec<Name>,
) -> Result<(), BlifErr>
    ensures { ReadsUnless (subckt_fault number words.items)
        (λ _. model.new ≡ body_read number (SubcktBody (subckt_of words.items)) model.old) result }
{
    end_cover(model)?;
    let subckt = subckt_line(alloc, model.inputs.key(), number, words)?;
    model.commands.push(Command {
        line: number,
        body: Body::Subckt(subckt),
    })?;
    Ok(())
}

/// Adds a line, which doesn't begin or end a model.
pub(crate) fn add_line(
    alloc: Global,
    model: &mut OpenModel,
    keyword: Keyword,
    number: u32,
    words: Vec<Name>,
) -> Result<(), BlifErr>
    ensures { ReadsUnless (model_line_fault keyword model.old number words.items)
        (λ _. model.new ≡ after keyword number words.items model.old) result }
{
    match keyword {
        Keyword::Plain => add_row(alloc, model, number, &words),
        Keyword::Inputs => {
            end_cover(model)?;
            add_ports(alloc, &mut model.inputs, number, words)
        }
        Keyword::Outputs => {
            end_cover(model)?;
            add_ports(alloc, &mut model.outputs, number, words)
        }
        Keyword::Clock => {
            end_cover(model)?;
            add_ports(alloc, &mut model.clocks, number, words)
        }
        Keyword::Names => begin_cover(alloc, model, number, words),
        Keyword::Latch => add_latch(model, number, words),
        Keyword::Subckt => add_subckt(alloc, model, number, words),
        Keyword::Model | Keyword::End | Keyword::Unknown => Ok(()),
    }
}

/// A model after its `.model` line, in a text of this key.
pub(crate) fn begun(alloc: Global, key: TextKey, name: Name, line: u32) -> OpenModel
    ensures { result ≡ fresh (name ∷ []) line }
{
    OpenModel {
        name,
        line,
        inputs: PortList::new(alloc, key),
        outputs: PortList::new(alloc, key),
        clocks: PortList::new(alloc, key),
        commands: Vec::new(alloc),
        cover: None,
    }
}

/// The finished model.
pub(crate) fn closed(model: OpenModel) -> Result<BlifModel, AllocError>
    ensures { IfOk result (λ m. m ≡ flushed model) }
{
    let OpenModel {
        name,
        line,
        inputs,
        outputs,
        clocks,
        mut commands,
        cover,
    } = model;
    add_cover(&mut commands, cover)?;
    Ok(BlifModel {
        name,
        line,
        inputs: inputs.names(),
        outputs: outputs.names(),
        clocks: clocks.names(),
        commands,
    })
}
