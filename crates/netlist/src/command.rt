//! A command of a model.
use crate::cover::Cover;
use crate::latch::Latch;
use crate::subckt::Subckt;

/// The content of a command.
#[derive(Drop)]
pub enum Body {
    /// `.names` and its rows.
    Cover(Cover),
    /// `.latch`.
    Latch(Latch),
    /// `.subckt`.
    Subckt(Subckt),
}

/// A command of a model.
#[derive(Drop)]
pub struct Command {
    /// Its logical line, counted from 1.
    pub line: u32,
    pub body: Body,
}
