//! The reader of physical lines.
ghost use Rattle.std.specs.Prelude.{◌≡◌, ◌+◌, ◌^◌, ◌<◌, [], length, Ok, Err, IfOk, OnOk, MatchResult};
ghost use Rattle.tl_fault.specs.OrMemory.{OrMemory};
ghost use Rattle.tl_text.specs.Lines.{extended};
ghost use Rattle.tl_text.specs.Reading.{with_line, all_lines, line_result};
ghost use Rattle.tl_text.specs.Refusals.{refusal_of};

use crate::line::Line;
use crate::physical_line::{content_of, cut_end, has_bad, has_end, has_slash_end, push_tokens};
use crate::text_err::TextErr;
use std::alloc::{AllocError, Global};
use std::marker::Model;

// What was read of a text: the lines so far, and the one that goes on.
#[derive(Drop)]
pub struct Reader {
    done: Vec<Line>,
    unfinished: Option<Line>,
}

impl Model for Reader {
    ghost use Rattle.tl_text.specs.Reading.{Reading};

    ghost Value = { Reading };

    ghost view = { λ r. record { done = r.done.items; unfinished = r.unfinished } };
}

// The line that goes on, or a new one.
fn line_to_extend(alloc: Global, unfinished: Option<Line>, number: u32) -> Line
    ensures { result ≡ extended number unfinished [] }
{
    match unfinished {
        None => Line {
            number,
            tokens: Vec::new(alloc),
        },
        Some(line) => line,
    }
}

// Adds a line that has a token.
fn add_line(done: &mut Vec<Line>, line: Line) -> Result<(), AllocError>
    ensures { OnOk result (done.new.items ≡ with_line done.old.items line) }
{
    if !line.tokens.is_empty() {
        done.push(line)?;
    }
    Ok(())
}

impl Reader {
    // Nothing read yet.
    pub fn new(alloc: Global) -> Reader
        ensures { result ≡ record { done = []; unfinished = None } }
    {
        Reader {
            done: Vec::new(alloc),
            unfinished: None,
        }
    }

    // Reads a physical line that starts at a place. After an `Err` the reader is of no use.
    pub fn read(&mut self, alloc: Global, number: u32, at: u32, line: &[u8]) -> Result<(), TextErr>
        requires { at + length line.now < 2 ^ 32 }
        ensures { MatchResult result (λ _. line_result number at line.now self.old ≡ Ok self.new) (OrMemory refusal_of (λ e. line_result number at line.now self.old ≡ Err e)) }
    {
        if has_bad(line) {
            return Err(TextErr::BadByte(number));
        }
        let content = content_of(line);
        let words = cut_end(content, b'\\');
        if has_slash_end(words) {
            return Err(TextErr::TrailingSlash(number));
        }
        let mut open = line_to_extend(alloc, self.unfinished.take(), number);
        push_tokens(&mut open.tokens, at, words)?;
        if has_end(content, b'\\') {
            self.unfinished = Some(open);
        } else {
            add_line(&mut self.done, open)?;
        }
        Ok(())
    }

    // All lines. The end of the text ends the line that goes on.
    pub fn finish(self) -> Result<Vec<Line>, AllocError>
        ensures { IfOk result (λ v. v.items ≡ all_lines self.done self.unfinished) }
    {
        let Reader {
            mut done,
            unfinished,
        } = self;
        if let Some(line) = unfinished {
            add_line(&mut done, line)?;
        }
        Ok(done)
    }
}
