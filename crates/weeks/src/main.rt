// Tries the counts of `week` on several logs, parted by byte 28 and of 65,536 bytes at most together: each is counted whole, byte by byte and in
// blocks of seven bytes, and each time its seven lines are written.
#![tactic(auto)]

ghost use Rattle.std.specs.Prelude.{◌≤◌, length, IfOk};
ghost use Rattle.text.specs.Text.{Puts};
ghost use Rattle.lines.specs.Lines.{lines};
ghost use Rattle.logs.specs.Log.{input};
ghost use Rattle.logs.specs.Table.{log_text};

use std::io;
use std::io::{Input, Read};
use std::process::ExitCode;
use telling::tell;

// Counts a log in blocks of so many bytes, at least one, and puts its table: that of its lines, however it is cut.
#[tactic(auto, using(crate::proofs::Along::begins, crate::proofs::Along::goes_on))]
fn count_in_blocks(log: &[u8], size: usize, out: &mut [u8]) -> usize
    ensures { Puts (log_text (lines (input log.now))) out.old 0 out.new result }
{
    let mut kept = [0u8; 256];
    let mut table = logs::no_counts();
    let mut week = logs::start();
    for block in log.chunks(size.max(1)) {
        week = logs::step(week, &mut table, &mut kept, block);
    }
    logs::finish(week, table, &kept, out)
}

fn report(rt: &impl Print, log: &[u8], size: usize) -> io::Result<()> {
    let mut out = [0u8; 1024];
    let n = count_in_blocks(log, size, &mut out);
    rt.write_all(&out[..n])
}

fn try_log(rt: &impl Print, log: &[u8]) -> io::Result<()> {
    for size in [log.len(), 1, 7] {
        report(rt, log, size)?;
    }
    Ok(())
}

fn try_logs(rt: &impl Print, s: &[u8]) -> io::Result<()> {
    for log in s.split(|&b| b == 28) {
        try_log(rt, log)?;
    }
    Ok(())
}

// Reads until the buffer is full or the input ends, and says how many bytes came.
fn read_full(input: &mut impl Read, buf: &mut [u8]) -> io::Result<usize>
    ensures { IfOk result (λ n. n ≤ length buf.new) }
{
    let mut done = 0;
    // Kept: each read says how far it came, and std's `read_to_end` needs a heap.
    while done < buf.len() {
        let n = input.read(&mut buf[done..])?;
        if n == 0 {
            break;
        }
        done += n;
    }
    Ok(done)
}

fn main(rt: HostRuntime) -> ExitCode {
    let mut buf = [0u8; 65536];
    let n = match read_full(&mut rt.reader(), &mut buf) {
        Ok(n) => n,
        Err(why) => return tell(&rt, b"weeks", b": standard input", why),
    };
    match try_logs(&rt, &buf[..n]) {
        Ok(()) => ExitCode::SUCCESS,
        Err(why) => tell(&rt, b"weeks", b": standard output", why),
    }
}
