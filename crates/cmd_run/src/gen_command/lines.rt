//! The first and the last line that `gen` prints.
ghost use Rattle.std.specs.Prelude.{◌≡◌, IfOk, string_bytes};
ghost use Rattle.cmd_run.specs.GenCommand.Verdict as told;

use crate::gen_command::totals::CaseTotals;
use crate::gen_command::words::GenWords;
use std::alloc::{AllocError, Global};

/// The first line: the arguments.
pub fn first_line(alloc: Global, words: &GenWords) -> Result<String, AllocError>
    ensures { IfOk result (λ line. string_bytes line ≡ told.first_line words.now) }
{
    format!(in alloc; "gen {} {}\n", words.digits, words.seed)
}

/// The last line: the totals of the rounds.
pub fn last_line(alloc: Global, totals: CaseTotals) -> Result<String, AllocError>
    ensures { IfOk result (λ line. string_bytes line ≡ told.last_line totals.writes totals.total) }
{
    format!(in alloc;
        "rounds 100 writes {} total {}\n",
        totals.writes, totals.total
    )
}
