//! Names and numbers of parameters.
ghost use Rattle.tlut_host.specs.Calls.{IsNameCall, IsNumberCall};
ghost use Rattle.tlut_host.specs.Kept.{param_names};

use crate::copy::copy_bytes;
use crate::host::NamedSpecialiser;
use crate::setting::{DONE, RANGE};

// Copies the name of a parameter, and sets its length. `RANGE` if there is none of this number.
pub(crate) fn tell_name(
    host: &NamedSpecialiser,
    parameter: usize,
    name: &mut [u8],
    count: &mut usize,
) -> u32
    ensures { IsNameCall (param_names host.now.pack.params) parameter name.old name.new count.old count.new result }
{
    let Some(bytes) = host.name(parameter) else {
        return RANGE;
    };
    *count = copy_bytes(bytes, name);
    DONE
}

// Tells the number of the parameter of a name. `RANGE` if there is none.
pub(crate) fn tell_number(host: &NamedSpecialiser, name: &[u8], number: &mut usize) -> u32
    ensures { IsNumberCall (param_names host.now.pack.params) name.now number.old number.new result }
{
    let Some(found) = host.number(name) else {
        return RANGE;
    };
    *number = found;
    DONE
}
