//! A logical line of a text.
use crate::token::Token;
use std::marker::Model;

/// A logical line: the tokens of a physical line and of its continuations.
#[derive(Drop)]
pub struct Line {
    /// Its first physical line, counted from 1.
    pub number: u32,
    /// Its tokens, from left to right.
    pub tokens: Vec<Token>,
}

impl Model for Line {
    ghost use Rattle.tl_text.specs.LineValue.{LineValue};

    ghost Value = { LineValue };

    ghost view = { λ l. record { number = l.number; tokens = l.tokens.items } };
}
