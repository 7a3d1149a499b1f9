// Tells that a program failed.
//
// Where a read or a write fails, a program writes a line to standard error, which names what failed and why, and ends with status 1.
#![tactic(auto)]

ghost use Rattle.std.specs.Prelude.{◌≡◌};
ghost use Rattle.std.specs.Process.{exit_status};

use std::io;
use std::process::ExitCode;

// Tells of a program, by its name, what failed and why, and says the status to end with. Where standard error takes no line, the status is the same.
pub fn tell(rt: &impl Eprint, name: &[u8], what: &[u8], why: io::Error) -> ExitCode
    ensures { exit_status result ≡ 1 }
{
    let name = name.escape_ascii();
    let what = what.escape_ascii();
    let _ = eprintln!(rt; "{name}{what}: {why}");
    ExitCode::FAILURE
}
