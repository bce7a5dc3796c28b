//! The arguments of `repack`.
ghost use Rattle.std.specs.Prelude.{◌≡◌, map, string_bytes};
ghost use Rattle.std.specs.Option.{option_map};
ghost use Rattle.cmd_pack.specs.Repack.{repack_of, repack_seen};

/// The arguments that name the pack and the output file.
#[derive(Clone, Copy)]
pub struct RepackWords<'a> {
    pub old: &'a str,
    pub new: &'a str,
}

/// Reads the arguments `repack OLD NEW`, which differ. `None` if and only if they have another form.
pub fn read_repack(words: &[String]) -> Option<RepackWords<'_>>
    ensures { option_map (λ w. repack_seen w) result ≡ repack_of (map string_bytes words.now) }
{
    match words {
        [command, old, new] if command.as_str() == "repack" && old.as_str() != new.as_str() => {
            Some(RepackWords {
                old: old.as_str(),
                new: new.as_str(),
            })
        }
        _ => None,
    }
}
