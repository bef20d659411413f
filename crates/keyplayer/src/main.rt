// The player with a line for each key: its time, what it did and what was shown after it.
#![tactic(auto)]

use std::process::ExitCode;

fn main(rt: HostRuntime) -> ExitCode {
    playing::run(&rt, true)
}
