// Shows what arrives in pieces: the text of each line of standard input, a letter, a space and a text, is cut by `|`, and its line of standard
// output has what the beginning reader says after each piece, and what the whole reader says at the end.
#![tactic(auto)]

use std::process::ExitCode;
use stream::Program;

fn main(rt: HostRuntime) -> ExitCode {
    filter::run(&rt, Program::Pieces, b"pieces")
}
