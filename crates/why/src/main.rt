// Says what broke each line of standard input, a letter, a space and a text: `ok`, `early N` or `bad N`, a line of standard output each.
#![tactic(auto)]

use std::process::ExitCode;
use stream::Program;

fn main(rt: HostRuntime) -> ExitCode {
    filter::run(&rt, Program::Why, b"why")
}
