// A week of logs in numbers: counts the lines of standard input by kind and answer, adds up the seconds of its durations, and prints seven lines.
#![tactic(auto)]

ghost use Rattle.std.specs.Prelude.{◌≤◌, length};
ghost use Rattle.week.specs.Turns.{Turned, Counted};

use logs::Week;
use std::io::{Input, Read};
use std::process::ExitCode;
use telling::tell;

// The log so far, and whether bytes came behind the input.
#[derive(Clone, Copy)]
struct Progress {
    week: Week,
    past: bool,
}

// Reads once, and counts what came; at the end of the input nothing does. Where the read failed, that is told, and the status is that to end with.
fn one_turn(
    rt: &impl Eprint,
    input: &mut impl Read,
    so_far: Progress,
    table: &mut [[u64; 4]; 5],
    buf: &mut [u8],
    kept: &mut [u8],
) -> Result<Option<Progress>, ExitCode>
    ensures { Turned so_far table.old kept.old table.new kept.new result }
{
    let n = input
        .read(buf)
        .map_err(|why| tell(rt, b"week", b": standard input", why))?;
    if n == 0 {
        return Ok(None);
    }
    let block = &buf[..n];
    let past = so_far.past || logs::is_past(so_far.week, block);
    let week = logs::step(so_far.week, table, kept, block);
    Ok(Some(Progress { week, past }))
}

// A proved loop has to end, and nothing says that an input does. So the loop counts its turns, to a number that no run reaches. What comes
// behind the input is read too, so that whoever writes it is not cut off.
fn all_turns(
    rt: &(impl Input + Eprint),
    table: &mut [[u64; 4]; 5],
    buf: &mut [u8],
    kept: &mut [u8],
) -> Result<Progress, ExitCode>
    requires { 205 ≤ length kept.old }
    ensures { Counted table.new kept.new result }
{
    *table = logs::no_counts();
    let mut input = rt.reader();
    let mut so_far = Progress {
        week: logs::start(),
        past: false,
    };
    for _ in 0..u64::MAX {
        match one_turn(rt, &mut input, so_far, table, buf, kept)? {
            Some(next) => so_far = next,
            None => return Ok(so_far),
        }
    }
    Err(ExitCode::FAILURE)
}

// Writes the table, and where bytes were left out, that they were; and says the status to end with.
fn report(
    rt: &(impl Print + Eprint),
    log: Progress,
    table: [[u64; 4]; 5],
    kept: &[u8],
) -> ExitCode {
    let mut out = [0u8; 1024];
    let n = logs::finish(log.week, table, kept, &mut out);
    if log.past {
        let _ = eprintln!(rt; "week: only the first 4294967295 bytes were counted");
    }
    match rt.write_all(&out[..n]) {
        Ok(()) => ExitCode::SUCCESS,
        Err(why) => tell(rt, b"week", b": standard output", why),
    }
}

fn main(rt: HostRuntime) -> ExitCode {
    let mut buf = [0u8; 65536];
    let mut kept = [0u8; 256];
    let mut table = [[0u64; 4]; 5];
    match all_turns(&rt, &mut table, &mut buf, &mut kept) {
        Ok(log) => report(&rt, log, table, &kept),
        Err(status) => status,
    }
}
