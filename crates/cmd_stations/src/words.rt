//! The arguments that name a source circuit.
ghost use Rattle.std.specs.Prelude.{◌≡◌, ◌≤◌, IfSome};
ghost use Rattle.std.specs.Option.{option_map};
ghost use Rattle.cut_sets.specs.declared.limits.TheConstants.{MOST_LEAVES};
ghost use Rattle.cmd_stations.specs.Source.{source_word, k_of, source_words, source_seen, IsTableSize};

use cmd_base::File;
use cover_pick::Rule;
use cut_enum::MOST_LEAVES;

/// The arguments that name the files of a source circuit, the number of inputs of its LUTs, and the rule that chooses their
/// cuts.
#[derive(Clone, Copy)]
pub struct SourceWords<'a> {
    pub rule: Rule,
    pub k: u8,
    pub netlist: &'a str,
    pub params: &'a str,
}

// The digit of the maximal number of LUT inputs.
const LAST_DIGIT: u8 = b'0' + MOST_LEAVES as u8;

/// The number of LUT inputs in an argument, from 2 to `MOST_LEAVES`.
pub fn table_size(word: &str) -> Option<u8>
    ensures value { result ≡ k_of word.now }
    ensures range { IfSome result (λ k. (2 ≤ k) × (k ≤ MOST_LEAVES)) }
{
    match word.as_bytes() {
        [digit] if b'2' <= *digit && *digit <= LAST_DIGIT => Some(*digit - b'0'),
        _ => None,
    }
}

/// Reads the arguments of a source circuit, with the rule that chooses its cuts. `None` if and only if the first one isn't a
/// valid number of LUT inputs.
pub fn read_source_words<'a>(
    rule: Rule,
    k: &str,
    netlist: &'a str,
    params: &'a str,
) -> Option<SourceWords<'a>>
    ensures value { option_map (λ w. source_seen w) result ≡ source_words rule (k_of k.now) netlist.now params.now }
    ensures range { IfSome result (λ w. IsTableSize w.k) }
{
    match table_size(k) {
        Some(k) => Some(SourceWords {
            rule,
            k,
            netlist,
            params,
        }),
        None => None,
    }
}

/// The argument that names a file of a source circuit.
pub fn source_name<'a>(words: &SourceWords<'a>, file: File) -> &'a str
    ensures { result.now ≡ source_word (source_seen words.now) file }
{
    match file {
        File::Netlist => words.netlist,
        File::Params | File::Script | File::Pack | File::Cert => words.params,
    }
}
