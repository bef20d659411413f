// The drill with the places of the keys: each line of standard input answered on standard output, behind a header, in two columns more.
#![tactic(auto)]

use lines::Program;
use std::process::ExitCode;

fn main(rt: HostRuntime) -> ExitCode {
    filter::run(&rt, Program::DrillWithKeys)
}
