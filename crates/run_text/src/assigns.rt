//! The parameters that a line of a script sets, by their ordinals.
ghost use Rattle.std.specs.Prelude.{◌≡◌, ◌≤◌, ◌++◌, [], ◌∷◌, List, length, None, Some, MatchResult};
ghost use Rattle.tl_text.specs.declared.limits.TheConstants.{MOST_PARAMETERS};
ghost use Rattle.tl_fault.specs.OrMemory.{OrMemory};
ghost use Rattle.tl_text.specs.NameIndex.{place_of};
ghost use Rattle.run_text.specs.EventValue.{each_of};
ghost use Rattle.run_text.specs.ScriptText.{settings_refusal, assign_of};
ghost use Rattle.run_text.specs.ScriptRefusals.{refusal_of};
ghost use Rattle.run_text.specs.declared.setting.Setting.{Setting as SettingValue};

use crate::script_err::ScriptErr;
use crate::setting::Setting;
use std::alloc::Global;
use tl_io::Assign;
use tl_text::{Name, NameIndex};

// The parameter of a setting, given the names of the earlier settings in the line.
fn read_assign(
    alloc: Global,
    number: u32,
    params: &NameIndex,
    seen: &NameIndex,
    setting: &Setting,
) -> Result<Assign, ScriptErr>
    requires { length params.now ≤ MOST_PARAMETERS }
    ensures { MatchResult result
        (λ assign. (assign_of params.now setting.now ≡ Some assign) × (place_of seen.now setting.now.name ≡ None)
        × ((rest : List SettingValue) → settings_refusal params.now number seen.now (setting.now ∷ rest)
        ≡ settings_refusal params.now number (seen.now ++ setting.now.name ∷ []) rest))
        (OrMemory refusal_of (λ e. (rest : List SettingValue) → settings_refusal params.now number seen.now (setting.now ∷ rest) ≡ Some e)) }
{
    let name = setting.name.bytes();
    let Some(param) = params.place(name) else {
        return Err(ScriptErr::NotParameter(number, Name::make(alloc, name)?));
    };
    if seen.has(name) {
        return Err(ScriptErr::RepeatedInSet(number, Name::make(alloc, name)?));
    }
    Ok(Assign {
        param: param as u16,
        bit: setting.bit,
    })
}

/// The parameters of the settings of a line, by their ordinals. Time is linear in the names, on average over the hashes.
///
/// # Errors
/// The first of S3 and S4, setting by setting; `Memory` if memory runs out.
pub(crate) fn read_assigns(
    alloc: Global,
    number: u32,
    params: &NameIndex,
    settings: &[Setting],
) -> Result<Vec<Assign>, ScriptErr>
    requires { length params.now ≤ MOST_PARAMETERS }
    ensures { MatchResult result
        (λ assigns. (settings_refusal params.now number [] settings.now ≡ None) × (each_of (assign_of params.now) settings.now ≡ Some assigns.items))
        (OrMemory refusal_of (λ e. settings_refusal params.now number [] settings.now ≡ Some e)) }
{
    let mut seen = params.fresh(alloc);
    let mut assigns = Vec::new(alloc);
    for setting in settings {
        let assign = read_assign(alloc, number, params, &seen, setting)?;
        seen.add(alloc, setting.name.bytes())?;
        assigns.push(assign)?;
    }
    Ok(assigns)
}
