//! The trait of configuration ports.
ghost use Rattle.std.specs.Prelude.{◌≡◌, slice_get};
ghost use Rattle.std.specs.Option.{option_and_then};
ghost use Rattle.tl_io.specs.Port.{PortSeen, Writes, IsCounted};

use crate::{Failed, Write};

/// Takes configuration bits.
///
/// Contracts see a port as three values: the log of accepted writes if the port tells it, the number of accepted writes,
/// and the count of faults. The trait has no laws, because a law does not reach a `dyn` value. The bounds of the counts
/// are clauses of each call instead.
pub trait ConfigPort: Drop {
    /// The value that contracts see.
    ghost port_seen: { Self → PortSeen };

    /// Sends a bit to its address. The log and the number of accepted writes grow by this one write. The count of faults
    /// is unchanged.
    ///
    /// # Errors
    /// `Failed` if the port did not accept the write. The count of faults grew by one, up to its last value of 2^64 - 1.
    fn write(&mut self, address: u32, bit: bool) -> Result<(), Failed>
        ensures writes { Writes (port_seen self.old) (record { address = address; bit = bit }) (port_seen self.new) result }
        ensures counted { IsCounted (port_seen self.new) };

    /// Returns the accepted write of this number, counted from 0. Returns `None` if and only if the port does not tell its
    /// log or the log has no write of this number.
    fn logged(&self, i: usize) -> Option<Write>
        ensures lookup { result ≡ option_and_then (λ writes. slice_get writes i) (port_seen self.now).log }
        ensures counted { IsCounted (port_seen self.now) };

    /// Returns the count of faults.
    fn faults(&self) -> u64
        ensures value { result ≡ (port_seen self.now).faults }
        ensures counted { IsCounted (port_seen self.now) };
}
