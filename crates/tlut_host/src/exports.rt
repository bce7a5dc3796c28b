//! What C calls. Each function tests what C can get wrong, and asks only for memory that is there.
ghost use Rattle.std.specs.Prelude.{◌≡◌, ◌≢◌, ◌<◌, true, false, Option, Some, None, is_some, length, if◌then◌else◌};
ghost use Rattle.ppc_pack.specs.declared.pack.TheConstants.{MOST_PACK_BYTES};
ghost use Rattle.tlut_host.specs.declared.setting.TheConstants.{DONE, LIMIT, CLOSED, OPEN};
ghost use Rattle.tlut_host.specs.Copied.{bit_write};
ghost use Rattle.tlut_host.specs.Kept.{param_names};
ghost use Rattle.tlut_host.specs.Opened.{IsOpened, IsTold, HoldsOne};
ghost use Rattle.tlut_host.specs.Calls.{IsCall, IsReadCall, IsCopyCall, IsSetCall, IsUpsetCall, IsScrubCall, IsValueCall, IsNameRead, IsNumberCall, TellsCounts};

use crate::copy::{copy_bits, copy_writes, value_at};
use crate::handle::{Handle, put, take};
use crate::names::{tell_name, tell_number};
use crate::opened::open;
use crate::setting::{BitWrite, CLOSED, DONE, OPEN, PackRefusal, ParameterSetting};
use std::alloc::Global;

/// Opens a pack at the initial values of its parameters, and allocates all the memory that later calls need.
#[unsafe(no_mangle)]
pub extern "C" fn tlut_open(
    alloc: Global,
    pack: &[u8],
    handle: &mut Handle,
    refusal: &mut PackRefusal,
) -> u32
    ensures done { result ≡ DONE → HoldsOne handle.new.held.value (IsOpened pack.now) }
    ensures kept { result ≢ DONE → handle.new.held.value ≡ handle.old.held.value }
    ensures open { is_some handle.old.held.value ≡ true → result ≡ OPEN }
    ensures only_open { result ≡ OPEN → is_some handle.old.held.value ≡ true }
    ensures quiet { result ≡ DONE → refusal.new ≡ refusal.old }
    ensures quiet_open { result ≡ OPEN → refusal.new ≡ refusal.old }
    ensures told { result ≢ DONE → result ≢ OPEN → IsTold pack.now result refusal.new }
    ensures limit { is_some handle.old.held.value ≡ false → MOST_PACK_BYTES < length pack.now → result ≡ LIMIT }
{
    if handle.is_open {
        return OPEN;
    }
    match open(alloc, pack) {
        Ok(host) => {
            put(handle, host);
            DONE
        }
        Err(error) => error.tell(refusal),
    }
}

/// Frees what a handle is to. `DONE`, or `CLOSED` if it isn't open.
#[unsafe(no_mangle)]
pub extern "C" fn tlut_close(handle: &mut Handle) -> u32
    ensures closed { handle.new.held.value ≡ None }
    ensures status { result ≡ (if is_some handle.old.held.value then DONE else CLOSED) }
{
    match take(handle) {
        None => CLOSED,
        Some(_) => DONE,
    }
}

/// Gives new values to parameters in ascending order, each at most once.
#[unsafe(no_mangle)]
pub extern "C" fn tlut_set(handle: &mut Handle, settings: &[ParameterSetting]) -> u32
    ensures { IsCall handle.old.held.value handle.new.held.value result (λ old new. IsSetCall settings.now old new result) }
{
    let Some(mut host) = take(handle) else {
        return CLOSED;
    };
    let status = host.set(settings);
    put(handle, host);
    status
}

/// Flips the configuration bit at an address, as a fault does.
#[unsafe(no_mangle)]
pub extern "C" fn tlut_upset(handle: &mut Handle, address: u32) -> u32
    ensures { IsCall handle.old.held.value handle.new.held.value result (λ old new. IsUpsetCall address old new result) }
{
    let Some(mut host) = take(handle) else {
        return CLOSED;
    };
    let status = host.upset(address);
    put(handle, host);
    status
}

/// Sets every upset bit right.
#[unsafe(no_mangle)]
pub extern "C" fn tlut_scrub(handle: &mut Handle) -> u32
    ensures { IsCall handle.old.held.value handle.new.held.value result (λ old new. IsScrubCall old new result) }
{
    let Some(mut host) = take(handle) else {
        return CLOSED;
    };
    host.scrub();
    put(handle, host);
    DONE
}

/// Copies the writes of the last event as far as there is room, and sets the count to the total number.
#[unsafe(no_mangle)]
pub extern "C" fn tlut_writes(
    handle: &mut Handle,
    writes: &mut [BitWrite],
    count: &mut usize,
) -> u32
    ensures { IsCopyCall handle.old.held.value handle.new.held.value (λ h. h.writes) bit_write writes.old writes.new count.old count.new result }
{
    let Some(host) = take(handle) else {
        return CLOSED;
    };
    *count = copy_writes(host.writes(), writes);
    put(handle, host);
    DONE
}

/// Copies the configuration of the device as far as there is room, and tells how many bits there are.
#[unsafe(no_mangle)]
pub extern "C" fn tlut_image(handle: &mut Handle, bits: &mut [bool], count: &mut usize) -> u32
    ensures { IsCopyCall handle.old.held.value handle.new.held.value (λ h. h.state.config) (λ b. b) bits.old bits.new count.old count.new result }
{
    let Some(host) = take(handle) else {
        return CLOSED;
    };
    *count = copy_bits(host.image(), bits);
    put(handle, host);
    DONE
}

/// Copies the values of the parameters as far as there is room, and sets the count to the total number.
#[unsafe(no_mangle)]
pub extern "C" fn tlut_values(handle: &mut Handle, bits: &mut [bool], count: &mut usize) -> u32
    ensures { IsCopyCall handle.old.held.value handle.new.held.value (λ h. h.state.params) (λ b. b) bits.old bits.new count.old count.new result }
{
    let Some(host) = take(handle) else {
        return CLOSED;
    };
    *count = copy_bits(host.values(), bits);
    put(handle, host);
    DONE
}

/// Tells how many parameters and configuration bits there are.
#[unsafe(no_mangle)]
pub extern "C" fn tlut_counts(handle: &mut Handle, parameters: &mut usize, bits: &mut usize) -> u32
    ensures { IsReadCall handle.old.held.value handle.new.held.value result ((parameters.new ≡ parameters.old) × (bits.new ≡ bits.old))
        (λ h. TellsCounts h parameters.new bits.new result) }
{
    let Some(host) = take(handle) else {
        return CLOSED;
    };
    *parameters = host.values().len();
    *bits = host.image().len();
    put(handle, host);
    DONE
}

/// Tells the value of a parameter.
#[unsafe(no_mangle)]
pub extern "C" fn tlut_value(handle: &mut Handle, parameter: u16, bit: &mut bool) -> u32
    ensures { IsReadCall handle.old.held.value handle.new.held.value result (bit.new ≡ bit.old) (λ h. IsValueCall parameter h.state.params bit.old bit.new result) }
{
    let Some(host) = take(handle) else {
        return CLOSED;
    };
    let status = value_at(host.values(), parameter, bit);
    put(handle, host);
    status
}

/// Copies the name of a parameter as far as there is room, and sets the length to that of the name in bytes.
#[unsafe(no_mangle)]
pub extern "C" fn tlut_name(
    handle: &mut Handle,
    parameter: usize,
    name: &mut [u8],
    count: &mut usize,
) -> u32
    ensures { IsReadCall handle.old.held.value handle.new.held.value result ((name.new ≡ name.old) × (count.new ≡ count.old))
        (λ h. IsNameRead h parameter name.old name.new count.old count.new result) }
{
    let Some(host) = take(handle) else {
        return CLOSED;
    };
    let status = tell_name(&host, parameter, name, count);
    put(handle, host);
    status
}

/// Tells the number of the parameter of this name.
#[unsafe(no_mangle)]
pub extern "C" fn tlut_number(handle: &mut Handle, name: &[u8], number: &mut usize) -> u32
    ensures { IsReadCall handle.old.held.value handle.new.held.value result (number.new ≡ number.old)
        (λ h. IsNumberCall (param_names h.pack.params) name.now number.old number.new result) }
{
    let Some(host) = take(handle) else {
        return CLOSED;
    };
    let status = tell_number(&host, name, number);
    put(handle, host);
    status
}
