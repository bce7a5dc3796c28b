//! The fields of a flat circuit.
pub mod assemble;
pub mod flat_gates;
pub mod flat_ports;
pub mod loops;
pub mod written;
