//! Events, and the names that a script may use.
use std::marker::Model;
use tl_io::Assign;
use tl_text::Name;

/// The maximal number of events in a script.
pub const MOST_EVENTS: usize = 1_048_576;

/// An event of a script.
#[derive(Debug, Drop)]
pub enum Event {
    /// Gives new values to parameters, each at most once.
    Set(Vec<Assign>),
    /// Ticks the clock, with these values of the regular inputs in their order.
    Cycle(Vec<bool>),
    /// Flips the configuration bit at this address, as a fault does.
    Upset(u32),
    /// Sets every upset bit right.
    Scrub,
    /// Prints the configuration.
    Image,
}

/// The words with which the lines of a script begin.
#[derive(Clone, Copy, Debug, PartialEq, Eq)]
pub enum Forms {
    /// `set`, `cycle`, `upset`, `scrub` and `image`.
    Run,
    /// `ask` and `tick` instead of `set` and `cycle`, and no other words.
    Pace,
}

/// What a script may name, and the words with which its lines begin.
#[derive(Drop)]
pub struct ScriptNames {
    pub forms: Forms,
    /// The names of the parameters, in order.
    pub params: Vec<Name>,
    /// The number of regular inputs; `None` if the script may have no cycles.
    pub width: Option<u32>,
    /// The number of configuration bits.
    pub bits: u32,
}

impl Model for ScriptNames {
    ghost use Rattle.run_text.specs.NamesValue.{NamesValue};

    ghost Value = { NamesValue };

    ghost view = { λ n. record { forms = n.forms; params = n.params.items; width = n.width; bits = n.bits } };
}
