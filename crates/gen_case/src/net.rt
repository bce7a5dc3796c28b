//! The nets of a multiplier, and their names.
use std::fmt;

/// A number of the multiplier, as a bus of its binary digits.
#[derive(Clone, Copy)]
pub enum Bus {
    /// The data, `x`.
    Data,
    /// The coefficient, `c`.
    Coefficient,
    /// The product of both, `y`.
    Product,
}

impl fmt::Display for Bus {
    ghost use Rattle.std.specs.Prelude.{Some};
    ghost use Rattle.gen_case.specs.Netlist.{bus_letter};

    ghost output = { λ bus. Some (bus_letter bus) };

    fn fmt<W: fmt::Write>(&self, f: &mut fmt::Formatter<W>) -> fmt::Result {
        match self {
            Bus::Data => write!(f, "x"),
            Bus::Coefficient => write!(f, "c"),
            Bus::Product => write!(f, "y"),
        }
    }
}

/// A net of the multiplier, printed as its name.
#[derive(Clone, Copy)]
pub enum CaseNet {
    /// The constant 0.
    Zero,
    /// The digit of a number at a place, counted from 0.
    Digit(Bus, u32),
    /// The partial product of a digit of the data and a digit of the coefficient, given by their places.
    Partial(u32, u32),
    /// The sum bit of the full adder in a row, at a place.
    Sum(u32, u32),
    /// The carry bit of the full adder in a row, at a place.
    Carry(u32, u32),
}

impl fmt::Display for CaseNet {
    ghost use Rattle.std.specs.Prelude.{Some};
    ghost use Rattle.gen_case.specs.Netlist.{net_name};

    ghost output = { λ net. Some (net_name net) };

    fn fmt<W: fmt::Write>(&self, f: &mut fmt::Formatter<W>) -> fmt::Result {
        match self {
            CaseNet::Zero => write!(f, "zero"),
            CaseNet::Digit(bus, place) => write!(f, "{bus}{place}"),
            CaseNet::Partial(i, j) => write!(f, "p{i}_{j}"),
            CaseNet::Sum(j, i) => write!(f, "s{j}_{i}"),
            CaseNet::Carry(j, i) => write!(f, "k{j}_{i}"),
        }
    }
}
