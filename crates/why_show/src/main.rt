// What `why --show` runs: says what broke each line of standard input, and under each line that is refused draws its text with a `^` under the
// first bad byte or under the end.
#![tactic(auto)]

use std::process::ExitCode;
use stream::Program;

fn main(rt: HostRuntime) -> ExitCode {
    filter::run(&rt, Program::WhyShow, b"why")
}
