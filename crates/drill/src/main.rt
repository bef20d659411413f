// The drill: each line of standard input answered on standard output, behind a header.
#![tactic(auto)]

use lines::Program;
use std::process::ExitCode;

fn main(rt: HostRuntime) -> ExitCode {
    filter::run(&rt, Program::Drill)
}
