//! The totals of a case's events.
ghost use Rattle.std.specs.Prelude.{◌≡◌, ◌+◌, ◌*◌, ◌^◌, ◌<◌};
ghost use Rattle.list_laws.specs.Digits.{bit_value, number};
ghost use Rattle.run_text.specs.EventValue.{event_value};
ghost use Rattle.cmd_run.specs.GenCommand.Totals.{writes_of, output_of};

use run_core::Machine;
use run_text::Event;

/// The totals of a case's events.
#[derive(Clone, Copy)]
pub struct CaseTotals {
    /// The number of writes in the changes.
    pub writes: u64,
    /// The sum of the outputs of the cycles, read as binary numbers.
    pub total: u128,
}

// The number with one more binary digit appended as the lowest.
fn with_lowest(number: u128, digit: bool) -> u128
    requires { bit_value digit + 2 * number < 2 ^ 128 }
    ensures { result ≡ bit_value digit + 2 * number }
{
    if digit { 2 * number + 1 } else { 2 * number }
}

// The number with these binary digits, the lowest first.
fn number_of(digits: &[bool]) -> u128
    requires { number digits.now < 2 ^ 128 }
    ensures { result ≡ number digits.now }
{
    let mut value: u128 = 0;
    for digit in digits.iter().rev() {
        value = with_lowest(value, *digit);
    }
    value
}

/// The totals after an event that the machine has just played.
pub fn with_event(totals: CaseTotals, event: &Event, machine: &Machine) -> CaseTotals
    requires writes { totals.writes + writes_of (event_value event.now) machine.now < 2 ^ 64 }
    requires total { totals.total + output_of (event_value event.now) machine.now < 2 ^ 128 }
    ensures writes { result.writes ≡ totals.writes + writes_of (event_value event.now) machine.now }
    ensures total { result.total ≡ totals.total + output_of (event_value event.now) machine.now }
{
    match event {
        Event::Set(_) => {
            let writes = totals.writes + machine.writes().len() as u64;
            CaseTotals { writes, ..totals }
        }
        Event::Cycle(_) => {
            let total = totals.total + number_of(machine.outputs());
            CaseTotals { total, ..totals }
        }
        Event::Upset(_) | Event::Scrub | Event::Image => totals,
    }
}
