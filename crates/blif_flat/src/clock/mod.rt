//! The clock nets.
pub mod clock_check;
pub mod clocks;
pub mod controls;
pub mod wiring;
