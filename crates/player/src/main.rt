// The player: the recording on standard input replayed, a line for each word that it commits, and the summary.
#![tactic(auto)]

use std::process::ExitCode;

fn main(rt: HostRuntime) -> ExitCode {
    playing::run(&rt, false)
}
