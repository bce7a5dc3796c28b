//! A refusal: its code, its word and its details.
use crate::name::Name;
use crate::names::Names;
use std::marker::Model;

/// What a refusal reports after its code and its word. Lines are counted from 1.
#[derive(Debug, Drop)]
pub enum Details {
    /// Nothing more.
    Nothing,
    /// A line.
    Line(u32),
    /// A line, and a name in it.
    Named(u32, Name),
    /// The name of a model, a line in it, and a name there.
    Located(Name, u32, Name),
    /// A name.
    One(Name),
    /// Two names.
    Two(Name, Name),
    /// Names.
    Listed(Names),
    /// A node of a graph.
    Node(u32),
    /// A line, and the number of values of a cycle.
    Width(u32, u32),
    /// A line, and the number of configuration bits.
    Bits(u32, u32),
    /// A line, and a node of a graph in it.
    NodeIn(u32, u32),
    /// The offset of a byte in a file, from 0.
    Byte(u32),
}

/// A refusal. A code that begins with `L` means a limit of the tool. Any other code blames the input.
#[derive(Debug, Drop)]
pub struct Refusal {
    pub code: &'static str,
    pub word: &'static str,
    pub details: Details,
}

impl Model for Refusal {
    ghost use Rattle.tl_fault.specs.RefusalValue.{RefusalValue};

    ghost Value = { RefusalValue };

    ghost view = { λ r. record { code = r.code.now; word = r.word.now; details = r.details } };
}

impl Refusal {
    ghost use Rattle.std.specs.Prelude.{◌≡◌};
    ghost use Rattle.tl_fault.specs.RefusalValue.{refusal};
    ghost use Rattle.tl_fault.specs.Refusals.{is_limit};
    ghost use Rattle.tl_fault.specs.declared.refusal.Details.TheVariants.{Named, Located};

    /// The refusal with this code, word and details.
    pub fn new(code: &'static str, word: &'static str, details: Details) -> Refusal
        ensures { result ≡ refusal code.now word.now details }
    {
        Refusal {
            code,
            word,
            details,
        }
    }

    /// The refusal with this code and word at a name in a line.
    pub fn named(code: &'static str, word: &'static str, line: u32, name: Name) -> Refusal
        ensures { result ≡ refusal code.now word.now (Named line name) }
    {
        Refusal::new(code, word, Details::Named(line, name))
    }

    /// The refusal with this code and word at a name in a line of a model.
    pub fn located(
        code: &'static str,
        word: &'static str,
        model: Name,
        line: u32,
        name: Name,
    ) -> Refusal
        ensures { result ≡ refusal code.now word.now (Located model line name) }
    {
        Refusal::new(code, word, Details::Located(model, line, name))
    }

    /// Whether the refusal is a limit of the tool.
    pub fn is_limit(&self) -> bool
        ensures { result ≡ is_limit self.now }
    {
        self.code.starts_with("L")
    }
}
