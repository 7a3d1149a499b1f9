// Makes the stamps of a log uniform: for each line of standard input, a letter, a space and a text, a line of standard output with the one
// spelling of the record that the whole reader gives, or `refused N`.
#![tactic(auto)]

use std::process::ExitCode;
use stream::Program;

fn main(rt: HostRuntime) -> ExitCode {
    filter::run(&rt, Program::Spell, b"spell")
}
