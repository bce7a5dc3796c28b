//! Definitions and laws about lists and binary digits that several crates share, each stated once.
//!
//! The definitions are in `specs/`: `Members` (membership), `Order` (ascending and descending lists) and `Digits` (numbers by
//! their binary digits, the lowest first).
//!
//! The laws are in `proofs/`, for any type of elements: `Members` (of joined, mapped and filtered lists), `Reversed`, `Apart`
//! (lists without repeated elements), `Places` (elements by their places, with one set), `Ranges` (of numbers), `Items` (what
//! a loop over a list meets), `TwoLists`, `FirstPlace` (the first element that passes a test), `Choice` (values chosen by a
//! test) and `Digits`.
#![tactic(auto)]

ghost use Rattle.std.specs.Prelude.{◌≡◌, ◌<◌};
ghost use Rattle.list_laws.specs.Digits.{digit as digit_of};

/// The binary digit at `place` of a number, where place 0 is the lowest.
pub fn digit(number: u32, place: u32) -> bool
    requires { place < 32 }
    ensures { result ≡ digit_of number place }
{
    (number >> place) % 2 == 1
}

#[cfg(test)]
mod tests {
    use super::*;

    #[test]
    fn reads_the_digits_of_six(rt: HostRuntime) {
        for (place, want) in [(0, false), (1, true), (2, true), (3, false), (31, false)] {
            assert_eq!(rt; digit(6, place), want, "at place {place}");
        }
    }
}
