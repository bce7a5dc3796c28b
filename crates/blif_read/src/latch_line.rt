//! The `.latch` lines.
ghost use Rattle.std.specs.Prelude.{◌≡◌, Some, Option, ◌<◌, length, None, MatchResult};
ghost use Rattle.blif_read.specs.LineFault.{init_fault, kind_fault, latch_fault};
ghost use Rattle.blif_read.specs.Reading.{ReadsUnless, control_of, latch_of};
ghost use Rattle.blif_read.specs.Refusals.{refusal_of};
ghost use Rattle.tl_fault.specs.OrMemory.{OrMemory};

use crate::blif_err::BlifErr;
use netlist::Latch;
use tl_text::Name;

// Is a word an init?
fn check_init(number: u32, init: &[u8]) -> Result<(), BlifErr>
    ensures { MatchResult result (λ _. init_fault number init.now ≡ None) (OrMemory refusal_of (λ e. init_fault number init.now ≡ Some e)) }
{
    if init == b"0".as_slice()
        || init == b"1".as_slice()
        || init == b"2".as_slice()
        || init == b"3".as_slice()
    {
        return Ok(());
    }
    Err(BlifErr::BadLatch(number))
}

// Is a word the type of latch that there is?
fn check_kind(number: u32, kind: &[u8]) -> Result<(), BlifErr>
    ensures { MatchResult result (λ _. kind_fault number kind.now ≡ None) (OrMemory refusal_of (λ e. kind_fault number kind.now ≡ Some e)) }
{
    if kind == b"re".as_slice() {
        return Ok(());
    }
    if kind == b"fe".as_slice()
        || kind == b"ah".as_slice()
        || kind == b"al".as_slice()
        || kind == b"as".as_slice()
    {
        return Err(BlifErr::LatchKind(number));
    }
    Err(BlifErr::BadLatch(number))
}

// Are words those of a latch?
fn check(number: u32, words: &[Name]) -> Result<(), BlifErr>
    ensures { MatchResult result (λ _. latch_fault number words.now ≡ None) (OrMemory refusal_of (λ e. latch_fault number words.now ≡ Some e)) }
{
    match words {
        [_, _] => Ok(()),
        [_, _, init] => check_init(number, init.bytes()),
        [_, _, kind, _] => check_kind(number, kind.bytes()),
        [_, _, kind, _, init] => {
            check_kind(number, kind.bytes())?;
            check_init(number, init.bytes())
        }
        _ => Err(BlifErr::Arity(number)),
    }
}

// Does a latch of these words start at 1?
fn starts_at_1(words: &[Name]) -> bool
    ensures { result ≡ (latch_of words.now).init }
{
    match words {
        [_, _, init] => init.bytes() == b"1".as_slice(),
        [_, _, _, _, init, ..] => init.bytes() == b"1".as_slice(),
        _ => false,
    }
}

// The control that a word names.
fn control(word: Name) -> Option<Name>
    ensures { result ≡ control_of word }
{
    if word.bytes() == b"NIL".as_slice() {
        return None;
    }
    Some(word)
}

// The latch of words that have the form of one.
fn made(mut words: Vec<Name>) -> Latch
    requires { 1 < length words.items }
    ensures { result ≡ latch_of words.items }
{
    let init = starts_at_1(&words);
    let control = if words.len() < 4 {
        None
    } else {
        control(words.remove(3))
    };
    let output = words.remove(1);
    let input = words.remove(0);
    Latch {
        input,
        output,
        control,
        init,
    }
}

/// The latch given by the words after `.latch`.
pub(crate) fn latch_line(number: u32, words: Vec<Name>) -> Result<Latch, BlifErr>
    ensures { ReadsUnless (latch_fault number words.items) (λ latch. latch ≡ latch_of words.items) result }
{
    check(number, &words)?;
    Ok(made(words))
}
