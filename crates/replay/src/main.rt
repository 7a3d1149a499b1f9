// Holds each line of a sample of the original's own answers, which `compare/sample` made, against ours, and says `same`, or `differs` and our
// answer. A line is
//
//     K HEXBYTES TAB B COUNT W WCOUNT RECORD
//
// in the words of `answers`, without the verdict and a time's digits, which the original has not. Among the sample are lines that are wrong on
// purpose, so that a comparison that sees nothing shows.
#![tactic(auto)]

use std::process::ExitCode;
use stream::Program;

fn main(rt: HostRuntime) -> ExitCode {
    filter::run(&rt, Program::Replay, b"replay")
}
