//! The reader: one pass over the logical lines of a text.
ghost use Rattle.std.specs.Prelude.{◌≡◌, ◌∷◌, [], ◌++◌, length, None, Some, Ok, MatchResult, MatchOption, OnOk};
ghost use Rattle.std.specs.Option.{option_map};
ghost use Rattle.tl_text.specs.LineValue.{AreLinesIn};
ghost use Rattle.blif_read.specs.declared.keyword.Keyword.TheVariants as keyword_;
ghost use Rattle.blif_read.specs.Statement.{statements};
ghost use Rattle.blif_read.specs.LineFault.{line_fault, model_fault};
ghost use Rattle.blif_read.specs.Reading.{ReadsUnless, context, end_line_fault, ended, fault_of, finished, inside_fault, library_at_end, library_read, model_after as after, next, next_by, steps};
ghost use Rattle.blif_read.specs.Refusals.{refusal_of};
ghost use Rattle.tl_fault.specs.OrMemory.{OrMemory};

use crate::blif_err::BlifErr;
use crate::keyword::Keyword;
use crate::open_model::{OpenModel, add_line, begun, closed};
use crate::statement::{Statement, line_statement};
use netlist::{BlifModel, Library};
use std::alloc::{AllocError, Global};
use std::marker::Model;
use tl_text::{Line, Name, NameIndex, TextKey};

/// What was read so far: the names of the models, the finished models, and the one whose lines are being read.
#[derive(Drop)]
struct Reader {
    names: NameIndex,
    done: Vec<BlifModel>,
    current: Option<OpenModel>,
}

impl Model for Reader {
    ghost use Rattle.blif_read.specs.Reading.{State};

    ghost Value = { State };

    ghost view = { λ r. record { names = r.names; done = r.done.items; current = r.current } };
}

// Ends the open model, if there is one.
fn close(reader: &mut Reader) -> Result<(), AllocError>
    ensures { OnOk result (reader.new ≡ record { names = reader.old.names; done = ended reader.old; current = None }) }
{
    match reader.current.take() {
        None => Ok(()),
        Some(model) => {
            let model = closed(model)?;
            reader.done.push(model)?;
            Ok(())
        }
    }
}

// The word of a list of one.
fn only(mut words: Vec<Name>) -> Option<Name>
    ensures { MatchOption result (length words.items ≡ 1 → ⊥) (λ word. words.items ≡ word ∷ []) }
{
    if words.len() != 1 {
        return None;
    }
    words.pop()
}

// The name of a model that begins, by the words after `.model`, which is then among the names.
fn new_name(
    alloc: Global,
    names: &mut NameIndex,
    number: u32,
    words: Vec<Name>,
) -> Result<Name, BlifErr>
    ensures { ReadsUnless (model_fault number names.old words.items)
        (λ name. (words.items ≡ name ∷ []) × (names.new ≡ names.old ++ words.items)) result }
{
    let Some(name) = only(words) else {
        return Err(BlifErr::Arity(number));
    };
    if names.place(name.bytes()).is_some() {
        return Err(BlifErr::DuplicateModel(number, name));
    }
    names.add(alloc, name.bytes())?;
    Ok(name)
}

// Begins a model, by the words after `.model`.
fn begin(alloc: Global, reader: &mut Reader, number: u32, words: Vec<Name>) -> Result<(), BlifErr>
    ensures { ReadsUnless (model_fault number reader.old.names words.items)
        (λ _. reader.new ≡ next_by keyword_.Model reader.old number words.items) result }
{
    let name = new_name(alloc, &mut reader.names, number, words)?;
    close(reader)?;
    reader.current = Some(begun(alloc, reader.names.key(), name, number));
    Ok(())
}

// Ends the open model, by the words after `.end`.
fn end(reader: &mut Reader, number: u32, words: &[Name]) -> Result<(), BlifErr>
    ensures { ReadsUnless (end_line_fault reader.old.current number words.now)
        (λ _. reader.new ≡ next_by keyword_.End reader.old number words.now) result }
{
    if reader.current.is_none() {
        return Err(BlifErr::OutsideModel(number));
    }
    if !words.is_empty() {
        return Err(BlifErr::Arity(number));
    }
    close(reader)?;
    Ok(())
}

// Reads a line within the open model.
fn inside(
    alloc: Global,
    reader: &mut Reader,
    keyword: Keyword,
    number: u32,
    words: Vec<Name>,
) -> Result<(), BlifErr>
    ensures { ReadsUnless (inside_fault keyword reader.old.current number words.items)
        (λ _. reader.new ≡ record reader.old { current = option_map (after keyword number words.items) reader.old.current }) result }
{
    let Some(mut model) = reader.current.take() else {
        return Err(BlifErr::OutsideModel(number));
    };
    let added = add_line(alloc, &mut model, keyword, number, words);
    reader.current = Some(model);
    added?;
    Ok(())
}

// Reads a line.
fn step(alloc: Global, reader: &mut Reader, line: Statement) -> Result<(), BlifErr>
    ensures { ReadsUnless (line_fault (context reader.old) line) (λ _. reader.new ≡ next reader.old line) result }
{
    let Statement {
        number,
        keyword,
        arguments,
    } = line;
    match keyword {
        Keyword::Unknown => Err(BlifErr::Unsupported(number)),
        Keyword::Model => begin(alloc, reader, number, arguments),
        Keyword::End => end(reader, number, &arguments),
        _ => inside(alloc, reader, keyword, number, arguments),
    }
}

// Reads lines, and lets go of each once it is read.
fn read_each(
    alloc: Global,
    reader: &mut Reader,
    text: &[u8],
    lines: Vec<Line>,
) -> Result<(), BlifErr>
    requires { AreLinesIn text.now lines.items }
    ensures { MatchResult result
        (λ _. steps reader.old (statements text.now lines.items) ≡ Ok reader.new)
        (OrMemory refusal_of (λ e. fault_of (steps reader.old (statements text.now lines.items)) ≡ Some e)) }
{
    for line in lines {
        let statement = line_statement(alloc, text, &line)?;
        step(alloc, reader, statement)?;
    }
    Ok(())
}

// The library at the end of the text.
fn finish(alloc: Global, reader: &mut Reader) -> Result<Library, BlifErr>
    ensures { MatchResult result
        (λ library. library_at_end (ended reader.old) ≡ Ok library)
        (OrMemory refusal_of (λ e. fault_of (library_at_end (ended reader.old)) ≡ Some e)) }
{
    close(reader)?;
    let models = std::mem::replace(&mut reader.done, Vec::new(alloc));
    if models.is_empty() {
        return Err(BlifErr::NoModel);
    }
    Ok(Library::of(models, reader.names.key()))
}

// The library of lines, read from the start.
fn run(
    alloc: Global,
    reader: &mut Reader,
    text: &[u8],
    lines: Vec<Line>,
) -> Result<Library, BlifErr>
    requires { AreLinesIn text.now lines.items }
    ensures { MatchResult result
        (λ library. finished (steps reader.old (statements text.now lines.items)) ≡ Ok library)
        (OrMemory refusal_of (λ e. fault_of (finished (steps reader.old (statements text.now lines.items))) ≡ Some e)) }
{
    read_each(alloc, reader, text, lines)?;
    finish(alloc, reader)
}

/// The library of a text's logical lines. Each line is freed once it is read.
pub(crate) fn read_lines(alloc: Global, text: &[u8], lines: Vec<Line>) -> Result<Library, BlifErr>
    requires { AreLinesIn text.now lines.items }
    ensures { MatchResult result
        (λ library. library_read (statements text.now lines.items) ≡ Ok library)
        (OrMemory refusal_of (λ e. fault_of (library_read (statements text.now lines.items)) ≡ Some e)) }
{
    let mut reader = Reader {
        names: NameIndex::new(alloc, TextKey::of(text)),
        done: Vec::new(alloc),
        current: None,
    };
    run(alloc, &mut reader, text, lines)
}
