// Answers each line of standard input by a line of standard output, which says what the beginning reader and the whole reader of the kind
// that the line names tell of its text:
//
//     B COUNT VERDICT W WCOUNT RECORD
#![tactic(auto)]

use std::process::ExitCode;
use stream::Program;

fn main(rt: HostRuntime) -> ExitCode {
    filter::run(&rt, Program::Answers, b"answers")
}
