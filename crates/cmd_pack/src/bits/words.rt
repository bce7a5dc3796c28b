//! The arguments of `bits`.
ghost use Rattle.std.specs.Prelude.{◌≡◌, map, string_bytes};
ghost use Rattle.std.specs.Option.{option_map};
ghost use Rattle.cmd_pack.specs.Bits.{bits_of, bits_seen, bits_word};

use cmd_base::File;

/// The arguments that name the pack and the script.
#[derive(Clone, Copy)]
pub struct BitsWords<'a> {
    pub pack: &'a str,
    pub script: &'a str,
}

/// Reads the arguments `bits PACK SCRIPT`. `None` if and only if they have another form.
pub fn read_bits(words: &[String]) -> Option<BitsWords<'_>>
    ensures { option_map (λ w. bits_seen w) result ≡ bits_of (map string_bytes words.now) }
{
    match words {
        [command, pack, script] if command.as_str() == "bits" => Some(BitsWords {
            pack: pack.as_str(),
            script: script.as_str(),
        }),
        _ => None,
    }
}

/// The argument that names a file.
pub fn file_name<'a>(words: &BitsWords<'a>, file: File) -> &'a str
    ensures { result.now ≡ bits_word (bits_seen words.now) file }
{
    match file {
        File::Script => words.script,
        File::Netlist | File::Params | File::Pack | File::Cert => words.pack,
    }
}
