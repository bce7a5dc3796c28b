//! Settings of C as assigns.
ghost use Rattle.std.specs.Prelude.{◌≡◌, ◌≤◌, ◌<◌, length, map, vec_capacity};
ghost use Rattle.tlut_host.specs.declared.setting.TheConstants.{DONE};
ghost use Rattle.tlut_host.specs.Settings.{settings_status, assign_of};

use crate::setting::{DONE, ORDER, ParameterSetting, RANGE};
use tl_io::Assign;

// The settings as assigns in a vector with room for one of each parameter. `DONE`, or why they are refused.
pub(crate) fn gather(assigns: &mut Vec<Assign>, params: usize, settings: &[ParameterSetting]) -> u32
    requires { params ≤ vec_capacity assigns.old }
    ensures status { result ≡ settings_status params 0 settings.now }
    ensures are { result ≡ DONE → assigns.new.items ≡ map assign_of settings.now }
    ensures room { params ≤ vec_capacity assigns.new }
{
    assigns.clear();
    let mut next = 0usize;
    for setting in settings {
        let parameter = setting.parameter as usize;
        if params <= parameter {
            return RANGE;
        }
        if parameter < next {
            return ORDER;
        }
        let _ = assigns.push(Assign {
            param: setting.parameter,
            bit: setting.bit,
        });
        next = parameter + 1;
    }
    DONE
}
