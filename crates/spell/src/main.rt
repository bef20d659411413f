// The speller: each line of standard input, a shown syllable, answered on standard output by its keys.
#![tactic(auto)]

use lines::Program;
use std::process::ExitCode;

fn main(rt: HostRuntime) -> ExitCode {
    filter::run(&rt, Program::Spell)
}
