//! Generated cases: a multiplier of 1 to 32 digits, and a script that changes its coefficient a hundred times.
//!
//! # The circuit
//!
//! The netlist multiplies two numbers of n binary digits with rows of full adders: the data `x`, which are inputs, and the
//! coefficient `c`, whose digits are parameters. The product `y` has 2n digits. The lowest digit of a number has place 0. Row
//! j has the *partial products* `pI_J` of digit j of the coefficient with each digit of the data. Each row from 1 on adds its
//! partial products to the sum of the rows before, one place higher: the full adder of row j at place i gives the sum bit
//! `sJ_I`, at place i + j of the product, and the carry bit `kJ_I` to the place above (`specs/Netlist.antt`). The full adder
//! is a model of its own, `fa`. With the coefficient as parameters, the LUTs are those of a multiplier by a constant, and
//! change with it (Bruneel, Heirman, Stroobandt, 2011).
//!
//! # The rounds
//!
//! The parameter list has the digits of a seed. Round j, from 1 to 100, sets the coefficient to (seed + 2654435761 j) modulo
//! 2^n, and then has a cycle with the data (seed + 40503 j j) modulo 2^n (`specs/Script.antt`).
//!
//! # The texts
//!
//! Each text is a list of lines, and each line a list of words. A blank separates two words, and a line feed ends each line
//! (`specs/Lines.antt`). The names of the nets are in `specs/Netlist.antt`. [`multiplier`] gives exactly these texts.
//! `proofs/Examples.antt` works out those of one digit and of two.
//!
//! - `net.rt` has the nets as values that print their names.
//! - `head.rt` adds the first and last lines of the netlist, `netlist.rt` those between them.
//! - `numbers.rt` has the numbers of the rounds, and `changes.rt` the parameter list and the script.
//! - `generate.rt` puts the case together.
#![tactic(auto)]

mod case;
mod changes;
mod generate;
mod head;
mod net;
mod netlist;
mod numbers;

pub use case::Case;
pub use generate::multiplier;
