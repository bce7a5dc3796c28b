//! The `.subckt` lines.
ghost use Rattle.std.specs.Prelude.{◌≡◌, ◌==◌, ◌<◌, ◌++◌, [], length, true, false, None, Some, MatchResult, IfOk, position};
ghost use Rattle.blif_read.specs.declared.blif_err.BlifErr.TheVariants.{BadConnection};
ghost use Rattle.blif_read.specs.LineFault.{connection_of, split_at, repeats_formal, with_formal, connections_fault, subckt_fault};
ghost use Rattle.blif_read.specs.Reading.{ReadsUnless, put_pair, pairs_of, subckt_of};
ghost use Rattle.blif_read.specs.Refusals.{refusal_of};
ghost use Rattle.tl_fault.specs.OrMemory.{OrMemory};

use crate::blif_err::BlifErr;
use netlist::{Connection, Subckt};
use std::alloc::{AllocError, Global};
use tl_text::{Name, NameIndex, TextKey};

// The place of the first `=` of a word.
fn sign(word: &[u8]) -> Option<usize>
    ensures { result ≡ position (λ b. b == 61) word.now }
{
    word.iter().position(|b| *b == b'=')
}

// The connection that a word is, split at a place.
fn split(alloc: Global, word: &[u8], place: usize) -> Result<Option<Connection>, AllocError>
    requires { place < length word.now }
    ensures { IfOk result (λ pair. pair ≡ split_at word.now (Some place)) }
{
    let formal = &word[..place];
    if formal.is_empty() {
        return Ok(None);
    }
    let actual = &word[place + 1..];
    if actual.is_empty() {
        return Ok(None);
    }
    let formal = Name::make(alloc, formal)?;
    let actual = Name::make(alloc, actual)?;
    Ok(Some(Connection { formal, actual }))
}

// The connection that a word is.
fn connection(alloc: Global, word: &[u8]) -> Result<Option<Connection>, AllocError>
    ensures { IfOk result (λ pair. pair ≡ connection_of word.now) }
{
    match sign(word) {
        None => Ok(None),
        Some(place) => split(alloc, word, place),
    }
}

// Adds the connection that a word is, and its formal.
fn add_pair(
    alloc: Global,
    number: u32,
    formals: &mut NameIndex,
    pairs: &mut Vec<Connection>,
    word: &[u8],
) -> Result<(), BlifErr>
    ensures { MatchResult result
        (λ _. (repeats_formal formals.old (connection_of word.now) ≡ false)
        × (formals.new ≡ with_formal formals.old (connection_of word.now))
        × (pairs.new.items ≡ pairs.old.items ++ put_pair (connection_of word.now) []))
        (OrMemory refusal_of (λ e. (repeats_formal formals.old (connection_of word.now) ≡ true) × (e ≡ BadConnection number))) }
{
    let Some(pair) = connection(alloc, word)? else {
        return Err(BlifErr::BadConnection(number));
    };
    if formals.place(pair.formal.bytes()).is_some() {
        return Err(BlifErr::BadConnection(number));
    }
    formals.add(alloc, pair.formal.bytes())?;
    pairs.push(pair)?;
    Ok(())
}

// The connections that words are.
fn pairs(
    alloc: Global,
    key: TextKey,
    number: u32,
    words: &[Name],
) -> Result<Vec<Connection>, BlifErr>
    ensures { ReadsUnless (connections_fault number [] words.now) (λ pairs. pairs.items ≡ pairs_of words.now) result }
{
    let mut formals = NameIndex::new(alloc, key);
    let mut pairs = Vec::new(alloc);
    for word in words {
        add_pair(alloc, number, &mut formals, &mut pairs, word.bytes())?;
    }
    Ok(pairs)
}

/// The subcircuit given by the words after `.subckt`, in a text of this key.
pub(crate) fn subckt_line(
    alloc: Global,
    key: TextKey,
    number: u32,
    mut words: Vec<Name>,
) -> Result<Subckt, BlifErr>
    ensures { ReadsUnless (subckt_fault number words.items) (λ subckt. subckt ≡ subckt_of words.items) result }
{
    if words.is_empty() {
        return Err(BlifErr::Arity(number));
    }
    let model = words.remove(0);
    let pairs = pairs(alloc, key, number, &words)?;
    Ok(Subckt { model, pairs })
}
