//! The fault line on stderr.
ghost use Rattle.std.specs.Prelude.{[], ◌∷◌, map, codes, decimal};
ghost use Rattle.std.specs.List.{concat};
ghost use Rattle.tl_io.specs.Sink.{IsPut};
ghost use Rattle.tl_fault.specs.Refusals.{details_words, spaced};
ghost use Rattle.cmd_base.specs.FaultLine.{Reports, line_of, head_line, refusal_line, plain_line};

use crate::outcome::Outcome;
use crate::refusals::too_long;
use itoa::Buffer;
use tl_fault::{Details, Name, Refusal};
use tl_io::{Failed, Sink};

// Writes the pieces one after another, up to the first that fails.
fn put_all<S: Sink>(sink: &mut S, pieces: &[&[u8]]) -> Result<(), Failed>
    ensures { IsPut (S.seen sink.old) (concat (map (λ piece. piece.now) pieces.now)) (S.seen sink.new) result }
{
    for piece in pieces {
        sink.put(piece)?;
    }
    Ok(())
}

// Writes a line with a file's name and a word.
fn put_plain<E: Sink>(err: &mut E, name: &[u8], word: &[u8]) -> Result<(), Failed>
    ensures { IsPut (E.seen err.old) (plain_line name.now word.now) (E.seen err.new) result }
{
    put_all(err, &[b"tlut: ", name, word, b"\n"])
}

// Writes words, each after a blank.
fn put_words<E: Sink>(err: &mut E, words: &[&[u8]]) -> Result<(), Failed>
    ensures { IsPut (E.seen err.old) (spaced (map (λ word. word.now) words.now)) (E.seen err.new) result }
{
    for word in words {
        put_all(err, &[b" ", word])?;
    }
    Ok(())
}

// Writes names, each after a blank.
fn put_names<E: Sink>(err: &mut E, names: &[Name]) -> Result<(), Failed>
    ensures { IsPut (E.seen err.old) (spaced names.now) (E.seen err.new) result }
{
    for name in names {
        put_all(err, &[b" ", name.bytes()])?;
    }
    Ok(())
}

// Writes the number of a line, a word and another number.
fn put_counted<E: Sink>(err: &mut E, line: u32, word: &[u8], count: u32) -> Result<(), Failed>
    ensures { IsPut (E.seen err.old) (spaced (codes "line" ∷ decimal line ∷ word.now ∷ decimal count ∷ [])) (E.seen err.new) result }
{
    let mut first = Buffer::new();
    let mut second = Buffer::new();
    let line = first.format(line).as_bytes();
    let count = second.format(count).as_bytes();
    put_words(err, &[b"line", line, word, count])
}

// Writes the details of a refusal.
fn put_details<E: Sink>(err: &mut E, details: &Details) -> Result<(), Failed>
    ensures { IsPut (E.seen err.old) (spaced (details_words details.now)) (E.seen err.new) result }
{
    let mut digits = Buffer::new();
    match details {
        Details::Nothing => put_words(err, &[]),
        Details::Line(line) => put_words(err, &[b"line", digits.format(*line).as_bytes()]),
        Details::Named(line, name) => {
            let line = digits.format(*line).as_bytes();
            put_words(err, &[b"line", line, name.bytes()])
        }
        Details::Located(model, line, name) => {
            let line = digits.format(*line).as_bytes();
            put_words(err, &[b"model", model.bytes(), b"line", line, name.bytes()])
        }
        Details::One(name) => put_words(err, &[name.bytes()]),
        Details::Two(first, second) => put_words(err, &[first.bytes(), second.bytes()]),
        Details::Listed(names) => put_names(err, names.list()),
        Details::Node(node) => put_words(err, &[b"node", digits.format(*node).as_bytes()]),
        Details::Width(line, width) => put_counted(err, *line, b"width", *width),
        Details::Bits(line, bits) => put_counted(err, *line, b"bits", *bits),
        Details::NodeIn(line, node) => put_counted(err, *line, b"node", *node),
        Details::Byte(offset) => put_words(err, &[b"byte", digits.format(*offset).as_bytes()]),
    }
}

// Writes a file's name, a code and a word.
fn put_title<'a, E: Sink>(
    err: &mut E,
    name: &'a [u8],
    code: &'a [u8],
    word: &'a [u8],
) -> Result<(), Failed>
    ensures { IsPut (E.seen err.old) (head_line name.now code.now word.now) (E.seen err.new) result }
{
    put_all(err, &[b"tlut: ", name, b": ", code, b" ", word])
}

// Writes a file's name, and the code and the word of a refusal.
fn put_head<E: Sink>(err: &mut E, name: &[u8], refusal: &Refusal) -> Result<(), Failed>
    ensures { IsPut (E.seen err.old) (head_line name.now refusal.now.code refusal.now.word) (E.seen err.new) result }
{
    put_title(err, name, refusal.code.as_bytes(), refusal.word.as_bytes())
}

// Writes the details of a refusal after its word.
fn put_told<E: Sink>(err: &mut E, refusal: &Refusal) -> Result<(), Failed>
    ensures { IsPut (E.seen err.old) (spaced (details_words refusal.now.details)) (E.seen err.new) result }
{
    put_details(err, &refusal.details)
}

// Writes the line of a refusal of the file with this name.
fn put_refusal<E: Sink>(err: &mut E, name: &[u8], refusal: &Refusal) -> Result<(), Failed>
    ensures { IsPut (E.seen err.old) (refusal_line name.now refusal.now) (E.seen err.new) result }
{
    put_head(err, name, refusal)?;
    put_told(err, refusal)?;
    put_all(err, &[b"\n"])
}

// Writes the line of an outcome.
fn put_outcome<E: Sink>(
    err: &mut E,
    usage: &[&[u8]],
    name: &[u8],
    outcome: &Outcome,
) -> Result<(), Failed>
    ensures { IsPut (E.seen err.old) (line_of (map (λ piece. piece.now) usage.now) name.now outcome.now) (E.seen err.new) result }
{
    match outcome {
        Outcome::Done => put_all(err, &[]),
        Outcome::Usage => put_all(err, usage),
        Outcome::TooLong(_) => put_refusal(err, name, &too_long()),
        Outcome::Refused(_, refusal) => put_refusal(err, name, refusal),
        Outcome::ReadFault(_) => put_plain(err, name, b": read failed"),
        Outcome::WriteFault => put_all(err, &[b"tlut: write failed\n"]),
        Outcome::PortFault => put_all(err, &[b"tlut: port failed\n"]),
        Outcome::Memory => put_all(err, &[b"tlut: out of memory\n"]),
    }
}

/// Writes the fault line of an outcome. For a usage error this is the `usage` text. If `err` fails, nothing else changes.
#[tactic(auto, using(crate::proofs::PutLemmas::reports))]
pub fn report<E: Sink>(err: &mut E, usage: &[&[u8]], name: &[u8], outcome: &Outcome)
    ensures reports { Reports (E.seen err.old) (E.seen err.new) (line_of (map (λ piece. piece.now) usage.now) name.now outcome.now) }
{
    let _ = put_outcome(err, usage, name, outcome);
}
