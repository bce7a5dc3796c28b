//! The parts of one physical line.
ghost use Rattle.std.specs.Prelude.{◌≡◌, ◌==◌, ℕ, ◌+◌, ◌-◌, ◌^◌, ◌<◌, None, ◌++◌, length, if◌then◌else◌, OnOk};
ghost use Rattle.std.specs.List.{list_any, suffix_len, position_or_len};
ghost use Rattle.tl_text.specs.Lines.{is_bad, content, words, ends_in, without_last, has_slash_end as slash_ends};
ghost use Rattle.tl_text.specs.Tokens.{is_blank, tokens_at};

use crate::token::Token;
use std::alloc::AllocError;

fn is_blank_byte(b: u8) -> bool
    ensures { result ≡ is_blank b }
{
    b == b' ' || b == b'\t'
}

// Does a line have a byte that none may have?
pub fn has_bad(line: &[u8]) -> bool
    ensures { result ≡ list_any is_bad line.now }
{
    line.iter().any(|b| (*b < 32 && *b != b'\t') || *b == 127)
}

// Does a line end in this byte?
pub fn has_end(line: &[u8], byte: u8) -> bool
    requires { 0 < byte }
    ensures { result ≡ ends_in byte line.now }
{
    !line.is_empty() && line[line.len() - 1] == byte
}

// A line without its last byte, where it ends in a given one.
pub fn cut_end(line: &[u8], byte: u8) -> &[u8]
    requires { 0 < byte }
    ensures { result.now ≡ (if ends_in byte line.now then without_last line.now else line.now) }
{
    if has_end(line, byte) {
        return &line[..line.len() - 1];
    }
    line
}

// Where the comment of a line begins, or its length.
fn comment_place(line: &[u8]) -> usize
    ensures { result ≡ position_or_len (λ b. b == 35) line.now }
{
    for (i, b) in line.iter().enumerate() {
        if *b == b'#' {
            return i;
        }
    }
    line.len()
}

// How much of a line stands before the blanks at its end.
fn trimmed_len(line: &[u8]) -> usize
    ensures { result ≡ length line.now - suffix_len is_blank line.now }
{
    let mut end = line.len();
    while end > 0 && is_blank_byte(line[end - 1]) {
        end -= 1;
    }
    end
}

// A line without its comment and the blanks before it.
pub fn content_of(line: &[u8]) -> &[u8]
    ensures { result.now ≡ content line.now }
{
    let front = &line[..comment_place(line)];
    &front[..trimmed_len(front)]
}

// Does a token end in a backslash?
pub fn has_slash_end(line: &[u8]) -> bool
    ensures { result ≡ slash_ends line.now }
{
    for i in 0..line.len() {
        if line[i] == b'\\' && (i + 1 == line.len() || is_blank_byte(line[i + 1])) {
            return true;
        }
    }
    false
}

// Adds the tokens of bytes that start at a place. On `Err` some of them may stand there.
pub fn push_tokens(tokens: &mut Vec<Token>, at: u32, line: &[u8]) -> Result<(), AllocError>
    requires { at + length line.now < 2 ^ 32 }
    ensures { OnOk result (tokens.new.items ≡ tokens.old.items ++ tokens_at at line.now) }
{
    let mut open = None;
    let mut here = at;
    for b in line {
        match open {
            None => {
                if !is_blank_byte(*b) {
                    open = Some(here);
                }
            }
            Some(start) => {
                if is_blank_byte(*b) {
                    tokens.push(Token { start, end: here })?;
                    open = None;
                }
            }
        }
        here += 1;
    }
    if let Some(start) = open {
        tokens.push(Token { start, end: here })?;
    }
    Ok(())
}
