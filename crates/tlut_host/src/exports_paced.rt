//! What C calls at a limited rate.
ghost use Rattle.std.specs.Prelude.{◌≡◌, ◌≢◌, ◌<◌, ◌≤◌, true, false, Option, Some, None, is_some, length, if◌then◌else◌};
ghost use Rattle.ppc_pack.specs.declared.pack.TheConstants.{MOST_PACK_BYTES};
ghost use Rattle.tlut_host.specs.declared.setting.TheConstants.{DONE, LIMIT, CLOSED, OPEN, RANGE};
ghost use Rattle.tlut_host.specs.Copied.{bit_write};
ghost use Rattle.tlut_host.specs.Opened.{IsTold, HoldsOne};
ghost use Rattle.tlut_host.specs.Calls.{IsTellingCall, IsCopyCall, IsAskCall, IsTickCall};
ghost use Rattle.tlut_host.specs.Paced.{IsPacedOpened};

use crate::copy::copy_writes;
use crate::handle_paced::{PacedHandle, put_paced, take_paced};
use crate::opened::open_paced;
use crate::setting::{BitWrite, CLOSED, DONE, OPEN, PackRefusal, ParameterSetting, RANGE};
use std::alloc::Global;

/// Opens a pack at the initial values of its parameters, for a device that takes `rate` bits per tick, and allocates all the
/// memory that later calls need. `RANGE` if the rate is 0.
#[unsafe(no_mangle)]
pub extern "C" fn tlut_paced_open(
    alloc: Global,
    pack: &[u8],
    rate: u32,
    handle: &mut PacedHandle,
    refusal: &mut PackRefusal,
) -> u32
    ensures done { result ≡ DONE → HoldsOne handle.new.held.value (IsPacedOpened pack.now rate) }
    ensures kept { result ≢ DONE → handle.new.held.value ≡ handle.old.held.value }
    ensures open { is_some handle.old.held.value ≡ true → result ≡ OPEN }
    ensures only_open { result ≡ OPEN → is_some handle.old.held.value ≡ true }
    ensures quiet { result ≡ DONE → refusal.new ≡ refusal.old }
    ensures quiet_open { result ≡ OPEN → refusal.new ≡ refusal.old }
    ensures range { result ≡ RANGE → rate ≡ 0 }
    ensures quiet_range { result ≡ RANGE → refusal.new ≡ refusal.old }
    ensures zero { is_some handle.old.held.value ≡ false → rate ≡ 0 → result ≡ RANGE }
    ensures told { result ≢ DONE → result ≢ OPEN → result ≢ RANGE → IsTold pack.now result refusal.new }
    ensures limit { is_some handle.old.held.value ≡ false → 1 ≤ rate → MOST_PACK_BYTES < length pack.now → result ≡ LIMIT }
{
    if handle.is_open {
        return OPEN;
    }
    if rate == 0 {
        return RANGE;
    }
    match open_paced(alloc, pack, rate) {
        Ok(host) => {
            put_paced(handle, host);
            DONE
        }
        Err(error) => error.tell(refusal),
    }
}

/// Frees what a handle at a limited rate is to. `DONE`, or `CLOSED` if it isn't open.
#[unsafe(no_mangle)]
pub extern "C" fn tlut_paced_close(handle: &mut PacedHandle) -> u32
    ensures closed { handle.new.held.value ≡ None }
    ensures status { result ≡ (if is_some handle.old.held.value then DONE else CLOSED) }
{
    match take_paced(handle) {
        None => CLOSED,
        Some(_) => DONE,
    }
}

/// Requests new values of parameters in ascending order, each at most once, and tells how many bits of the device differ from
/// their configuration. Nothing is written.
#[unsafe(no_mangle)]
pub extern "C" fn tlut_ask(
    handle: &mut PacedHandle,
    settings: &[ParameterSetting],
    waiting: &mut usize,
) -> u32
    ensures { IsTellingCall handle.old.held.value handle.new.held.value result (waiting.new ≡ waiting.old)
        (λ old new. IsAskCall settings.now old new waiting.old waiting.new result) }
{
    let Some(mut host) = take_paced(handle) else {
        return CLOSED;
    };
    let status = host.ask(settings, waiting);
    put_paced(handle, host);
    status
}

/// Lets the clock tick: tells whether the device has the configuration of the requested values, so that the circuit may be
/// clocked, and otherwise writes the first bits that differ, at most as many as the rate.
#[unsafe(no_mangle)]
pub extern "C" fn tlut_tick(handle: &mut PacedHandle, is_right: &mut bool) -> u32
    ensures { IsTellingCall handle.old.held.value handle.new.held.value result (is_right.new ≡ is_right.old) (λ old new. IsTickCall old new is_right.new result) }
{
    let Some(mut host) = take_paced(handle) else {
        return CLOSED;
    };
    *is_right = host.tick();
    put_paced(handle, host);
    DONE
}

/// Copies the writes of the last tick as far as there is room, and sets the count to the total number.
#[unsafe(no_mangle)]
pub extern "C" fn tlut_sent(
    handle: &mut PacedHandle,
    writes: &mut [BitWrite],
    count: &mut usize,
) -> u32
    ensures { IsCopyCall handle.old.held.value handle.new.held.value (λ h. h.writes) bit_write writes.old writes.new count.old count.new result }
{
    let Some(host) = take_paced(handle) else {
        return CLOSED;
    };
    *count = copy_writes(host.writes(), writes);
    put_paced(handle, host);
    DONE
}
