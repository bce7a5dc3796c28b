//! The numbers of a rule: sums, differences, products and remainders of numbers and counters.
use crate::stop::PlayStop;
use std::alloc::Global;
use tl_text::decimal;

/// A counter and its value.
#[derive(Clone, Copy)]
pub struct Counter<'a> {
    pub name: &'a str,
    pub value: i64,
}

const UNREAD: PlayStop = PlayStop::Unread(0, "a number that can't be worked out");

// The value of a word: a number, or the innermost counter of that name.
fn value_of(word: &[u8], counters: &[Counter]) -> Result<i64, PlayStop> {
    if let Some(number) = decimal(word) {
        return i64::try_from(number).ok().ok_or(UNREAD);
    }
    for counter in counters.iter().rev() {
        if counter.name.as_bytes() == word {
            return Ok(counter.value);
        }
    }
    Err(UNREAD)
}

// How strongly an operation binds; 0 for an open parenthesis.
fn rank(operation: u8) -> u8 {
    match operation {
        b'*' | b'%' => 2,
        b'+' | b'-' => 1,
        _ => 0,
    }
}

fn applied(operation: u8, x: i64, y: i64) -> Result<i64, PlayStop> {
    let value = match operation {
        b'+' => x.checked_add(y),
        b'-' => x.checked_sub(y),
        b'*' => x.checked_mul(y),
        _ => x.checked_rem(y),
    };
    value.ok_or(UNREAD)
}

// What was read of an expression: values, and operations that wait for their second value.
#[derive(Drop)]
struct Reading {
    values: Vec<i64>,
    operations: Vec<u8>,
}

impl Reading {
    // Replaces the last two values by the result of the last operation.
    fn apply(&mut self) -> Result<(), PlayStop> {
        let operation = self.operations.pop().ok_or(UNREAD)?;
        let y = self.values.pop().ok_or(UNREAD)?;
        let x = self.values.pop().ok_or(UNREAD)?;
        self.values.push(applied(operation, x, y)?)?;
        Ok(())
    }

    // Applies the operations that bind at least as strongly as this one.
    fn apply_down_to(&mut self, least: u8) -> Result<(), PlayStop> {
        for _ in 0..self.operations.len() {
            match self.operations.last() {
                Some(operation) if least <= rank(*operation) => self.apply()?,
                _ => break,
            }
        }
        Ok(())
    }

    fn close(&mut self) -> Result<(), PlayStop> {
        self.apply_down_to(1)?;
        match self.operations.pop() {
            Some(b'(') => Ok(()),
            _ => Err(UNREAD),
        }
    }

    fn take(&mut self, operation: u8) -> Result<(), PlayStop> {
        match operation {
            b' ' => Ok(()),
            b'(' => Ok(self.operations.push(operation)?),
            b')' => self.close(),
            _ => {
                self.apply_down_to(rank(operation))?;
                Ok(self.operations.push(operation)?)
            }
        }
    }

    // Reads the word before an operation, if there is one.
    fn take_word(&mut self, word: &mut Vec<u8>, counters: &[Counter]) -> Result<(), PlayStop> {
        if !word.is_empty() {
            self.values.push(value_of(word.as_slice(), counters)?)?;
            word.clear();
        }
        Ok(())
    }
}

// The value of an expression without sums over a counter.
fn plain_value(alloc: Global, text: &str, counters: &[Counter]) -> Result<i64, PlayStop> {
    let mut reading = Reading {
        values: Vec::new(alloc),
        operations: Vec::new(alloc),
    };
    let mut word = Vec::new(alloc);
    for byte in text.bytes() {
        if b" ()+-*%".contains(&byte) {
            reading.take_word(&mut word, counters)?;
            reading.take(byte)?;
        } else {
            word.push(byte)?;
        }
    }
    reading.take_word(&mut word, counters)?;
    reading.apply_down_to(1)?;
    match (reading.values.as_slice(), reading.operations.is_empty()) {
        ([value], true) => Ok(*value),
        _ => Err(UNREAD),
    }
}

/// The two bounds of a counter, `A..B`.
pub fn bounds(alloc: Global, text: &str, counters: &[Counter]) -> Result<(i64, i64), PlayStop> {
    let (first, last) = text.split_once("..").ok_or(UNREAD)?;
    Ok((
        plain_value(alloc, first, counters)?,
        plain_value(alloc, last, counters)?,
    ))
}

// The sum of an expression over a counter: the text after the word `sum`.
fn sum(alloc: Global, text: &str) -> Result<i64, PlayStop> {
    let (name, rest) = text.split_once(' ').ok_or(UNREAD)?;
    let (range, expression) = rest.split_once(' ').ok_or(UNREAD)?;
    let (first, last) = bounds(alloc, range, &[])?;
    let mut total = 0i64;
    for value in first..last.saturating_add(1) {
        let term = plain_value(alloc, expression, &[Counter { name, value }])?;
        total = total.checked_add(term).ok_or(UNREAD)?;
    }
    Ok(total)
}

/// The value of an expression, or of a sum over a counter.
pub fn value(alloc: Global, text: &str, counters: &[Counter]) -> Result<i64, PlayStop> {
    match text.strip_prefix("sum ") {
        Some(rest) => sum(alloc, rest),
        None => plain_value(alloc, text, counters),
    }
}
