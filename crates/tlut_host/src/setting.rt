//! What crosses between C and a host: settings, writes and statuses.

/// The call did what it was asked.
pub const DONE: u32 = 0;

/// The bytes aren't a pack.
pub const REFUSED: u32 = 1;

/// The bytes are more than a pack can have.
pub const LIMIT: u32 = 2;

/// Memory ran out.
pub const MEMORY: u32 = 3;

/// The handle isn't open.
pub const CLOSED: u32 = 4;

/// The handle is open.
pub const OPEN: u32 = 5;

/// No parameter has this number, or no bit this address.
pub const RANGE: u32 = 6;

/// The parameters are not in ascending order.
pub const ORDER: u32 = 7;

// The statuses have the numbers of `include/tlut_host.h`.
const _: () = prove!(
    DONE == 0
        && REFUSED == 1
        && LIMIT == 2
        && MEMORY == 3
        && CLOSED == 4
        && OPEN == 5
        && RANGE == 6
        && ORDER == 7
);

/// A new value of a parameter.
#[repr(C)]
#[derive(Clone, Copy)]
pub struct ParameterSetting {
    /// The number of the parameter, from 0.
    pub parameter: u16,
    /// Its value.
    pub bit: bool,
}

/// A write of a configuration bit.
#[repr(C)]
#[derive(Clone, Copy)]
pub struct BitWrite {
    /// The number of the bit in the configuration, from 0.
    pub address: u32,
    /// Its value.
    pub bit: bool,
}

/// Why bytes aren't a pack: the number of the rule, 1 to 8 for K1 to K8, and the offset of the refused field. Both are 0
/// where nothing was refused.
#[repr(C)]
#[derive(Clone, Copy)]
pub struct PackRefusal {
    pub rule: u32,
    pub offset: u32,
}
