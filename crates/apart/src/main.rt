// Says how far apart the two date-times of each line of standard input are, a letter, a space, a text, a space and a text: `SECONDS NANOS` or
// `refused N`, a line of standard output each.
#![tactic(auto)]

use std::process::ExitCode;
use stream::Program;

fn main(rt: HostRuntime) -> ExitCode {
    filter::run(&rt, Program::Apart, b"apart")
}
