//! The models: their names, their ports, and their faults.
pub mod checks;
pub mod driven;
pub mod drivers;
pub mod line_check;
pub mod ports;
pub mod walk;
pub mod weight;
