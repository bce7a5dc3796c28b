//! Reconfiguration at a limited rate: a configuration port takes a fixed number of bits per tick, and the circuit stalls until the
//! device has the configuration of the parameters' values.
//!
//! A script has two kinds of lines. An *ask* requests new values for parameters and writes nothing. At a *tick* the circuit plays a
//! clock cycle if the device has the configuration of the values that were requested last. Otherwise it waits: the states don't
//! change, and the first bits that differ are written, at most as many as the port takes per tick. So the circuit never steps under
//! a half-written configuration, whatever comes between an ask and a tick.
//!
//! `specs/Pace.antt` defines the machine as a relation over configurations specialised from scratch. `specs/Stalls.antt` says how
//! many ticks a change stalls the circuit, and `specs/Cost.antt` which nodes and addresses an event may look at. A [`Pacer`]
//! marks the addresses at which the device is behind, so neither an ask nor a tick looks at any others; each look at an address
//! is a counted call of `late_device`.
//!
//! - `event.rt`: the events. `text.rt`: reading a script of them.
//! - `backlog.rt`: the device and the addresses at which it is behind. `pacer.rt`: the machine.
//!
//! No call after `Pacer::make` allocates.
#![tactic(auto)]

mod backlog;
mod event;
mod pacer;
mod text;

pub use backlog::Backlog;
pub use event::PaceEvent;
pub use pacer::Pacer;
pub use text::{pace_events, read_pace};
