//! The program `tlut`: it maps with the rule of the fewest leaves.
#![tactic(auto)]

use cover_pick::Rule;
use std::process::ExitCode;
use tlut_main::main_by;

fn main(rt: HostRuntime) -> ExitCode {
    main_by(rt, Rule::FewestLeaves)
}
