//! A logical line as its keyword and its arguments.
ghost use Rattle.std.specs.Prelude.{◌≡◌, ℕ, ◌<◌, length, map, IfOk};
ghost use Rattle.list_laws.specs.Members.{In};
ghost use Rattle.tl_text.specs.LineValue.{IsWithin, IsLineIn, token_bytes, words_line};
ghost use Rattle.blif_read.specs.Statement.{begins_with_dot as begins_with, keyword_of, statement_of, statement_at};
ghost use Rattle.tl_text.specs.declared.token.Token.{Token};

use crate::keyword::Keyword;
use std::alloc::{AllocError, Global};
use std::marker::Model;
use tl_text::{Line, Name, Token};

/// A logical line: its number, its kind, and its words. A keyword isn't among the words.
#[derive(Drop)]
pub(crate) struct Statement {
    pub(crate) number: u32,
    pub(crate) keyword: Keyword,
    pub(crate) arguments: Vec<Name>,
}

impl Model for Statement {
    ghost use Rattle.blif_read.specs.Statement.{StatementValue};

    ghost Value = { StatementValue };

    ghost view = { λ s. record { number = s.number; keyword = s.keyword; arguments = s.arguments.items } };
}

// Is the first byte of a word a `.`?
fn begins_with_dot(word: &[u8]) -> bool
    ensures { result ≡ begins_with word.now }
{
    match word.first() {
        None => false,
        Some(byte) => *byte == b'.',
    }
}

// What the first word of a line says.
fn keyword(word: &[u8]) -> Keyword
    ensures { result ≡ keyword_of word.now }
{
    if word == b".model".as_slice() {
        Keyword::Model
    } else if word == b".inputs".as_slice() {
        Keyword::Inputs
    } else if word == b".outputs".as_slice() {
        Keyword::Outputs
    } else if word == b".clock".as_slice() {
        Keyword::Clock
    } else if word == b".names".as_slice() {
        Keyword::Names
    } else if word == b".latch".as_slice() {
        Keyword::Latch
    } else if word == b".subckt".as_slice() {
        Keyword::Subckt
    } else if word == b".end".as_slice() {
        Keyword::End
    } else if begins_with_dot(word) {
        Keyword::Unknown
    } else {
        Keyword::Plain
    }
}

// The words that tokens of a text are.
fn words(alloc: Global, text: &[u8], tokens: &[Token]) -> Result<Vec<Name>, AllocError>
    requires { (token : Token) → In tokens.now token → IsWithin text.now token }
    ensures { IfOk result (λ words. words.items ≡ map (token_bytes text.now) tokens.now) }
{
    let mut words = Vec::with_capacity(alloc, tokens.len())?;
    for token in tokens {
        words.push(Name::make(alloc, token.bytes(text))?)?;
    }
    Ok(words)
}

// The statement that a line's words are.
fn statement_with(number: u32, mut words: Vec<Name>) -> Statement
    ensures { result ≡ statement_at number words.items }
{
    let keyword = match words.first() {
        None => Keyword::Plain,
        Some(word) => keyword(word.bytes()),
    };
    match keyword {
        Keyword::Plain => Statement {
            number,
            keyword,
            arguments: words,
        },
        _ => {
            let _word = words.remove(0);
            Statement {
                number,
                keyword,
                arguments: words,
            }
        }
    }
}

/// The statement of a line.
pub(crate) fn line_statement(
    alloc: Global,
    text: &[u8],
    line: &Line,
) -> Result<Statement, AllocError>
    requires { IsLineIn text.now line.now }
    ensures { IfOk result (λ statement. statement ≡ statement_of (words_line text.now line.now)) }
{
    let words = words(alloc, text, &line.tokens)?;
    Ok(statement_with(line.number, words))
}
