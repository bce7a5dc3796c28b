//! A device that is behind the wanted configuration, on which each look at an address is counted.
//!
//! The device has a configuration, and marks at the addresses whose wanted bit differs. Two calls look at one address: the test
//! whether it is marked, and sending a bit to the least marked one. Each is a step of the caller's counter, and adds one to the
//! device's number of looks. No other call reports anything about a single address; a clock cycle is played under the whole
//! configuration.
//!
//! `specs/Late.antt` defines the device as plain lists.
#![tactic(auto)]

mod device;

pub use device::LateDevice;
