// How a program ends where it could not read or write on.
#![tactic(auto)]

ghost use Rattle.std.specs.Prelude.{◌≡◌};
ghost use Rattle.std.specs.IoError.{error_kind};
ghost use Rattle.std.specs.Process.{exit_status};
ghost use Rattle.ending.specs.Endings.{status_of};

use std::io;
use std::io::ErrorKind;
use std::process::ExitCode;

// A shell's status for a program that SIGPIPE ended. The signal itself is passed over before main begins, and the write fails.
const UNREAD: u8 = 141;

// The exit status of a run that ended in this error: 141 where nobody reads any more what it writes, else that of a failure.
pub fn status(e: io::Error) -> ExitCode
    ensures { exit_status result ≡ status_of (error_kind e) }
{
    match e.kind() {
        ErrorKind::BrokenPipe => ExitCode::from(UNREAD),
        _ => ExitCode::FAILURE,
    }
}
