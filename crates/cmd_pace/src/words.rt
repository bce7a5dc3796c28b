//! The arguments of `pace`.
ghost use Rattle.std.specs.Prelude.{◌≡◌, ◌≤◌, map, string_bytes, IfSome, Some};
ghost use Rattle.std.specs.Option.{option_map};
ghost use Rattle.cmd_stations.specs.Source.{source_seen};
ghost use Rattle.cmd_stations.specs.Script.{scripted_seen, scripted_word};
ghost use Rattle.cmd_pace.specs.Job.{rate_of, pace_words, pace_of, pace_seen, scripted_of, IsInRange};

use cmd_base::File;
use cmd_stations::{ScriptedWords, SourceWords, read_source_words, source_name};
use cover_pick::Rule;
use run_text::Forms;
use tl_text::decimal;

/// The source circuit, the script's file name, and the number of bits that the configuration port takes per tick.
#[derive(Clone, Copy)]
pub struct PaceWords<'a> {
    pub source: SourceWords<'a>,
    pub script: &'a str,
    pub rate: u32,
}

// The rate that an argument gives: from 1 to 2^32 - 1.
fn rate(word: &str) -> Option<u32>
    ensures value { result ≡ rate_of word.now }
    ensures range { IfSome result (λ rate. 1 ≤ rate) }
{
    let number = decimal(word.as_bytes())?;
    if number < 1 || number > u32::MAX as u64 {
        return None;
    }
    Some(number as u32)
}

// The arguments of `pace` from their parts.
fn assemble<'a>(
    source: Option<SourceWords<'a>>,
    script: &'a str,
    rate: Option<u32>,
) -> Option<PaceWords<'a>>
    ensures value { option_map (λ w. pace_seen w) result ≡ pace_words (option_map (λ s. source_seen s) source.entry) script.now rate }
    ensures source { IfSome result (λ w. source.entry ≡ Some w.source) }
    ensures rate { IfSome result (λ w. rate ≡ Some w.rate) }
{
    match (source, rate) {
        (Some(source), Some(rate)) => Some(PaceWords {
            source,
            script,
            rate,
        }),
        _ => None,
    }
}

/// Reads the arguments `pace K NETLIST PARAMS SCRIPT RATE`, for a rule by which cuts are chosen. Returns `None` exactly if they
/// don't have this form.
pub fn read_pace_words(rule: Rule, words: &[String]) -> Option<PaceWords<'_>>
    ensures value { option_map (λ w. pace_seen w) result ≡ pace_of rule (map string_bytes words.now) }
    ensures range { IfSome result IsInRange }
{
    match words {
        [command, k, netlist, params, script, bits] if command.as_str() == "pace" => assemble(
            read_source_words(rule, k.as_str(), netlist.as_str(), params.as_str()),
            script.as_str(),
            rate(bits.as_str()),
        ),
        _ => None,
    }
}

/// The source circuit and its script.
pub(crate) fn scripted<'a>(words: &PaceWords<'a>) -> ScriptedWords<'a>
    ensures { scripted_seen result ≡ scripted_of (pace_seen words.now) }
{
    ScriptedWords {
        source: words.source,
        script: words.script,
        forms: Forms::Pace,
    }
}

/// The argument that names a file.
pub fn pace_name<'a>(words: &PaceWords<'a>, file: File) -> &'a str
    ensures { result.now ≡ scripted_word (scripted_of (pace_seen words.now)) file }
{
    match file {
        File::Script => words.script,
        File::Netlist | File::Params | File::Pack | File::Cert => {
            source_name(&words.source, file)
        }
    }
}
