// A week of logs in numbers: the counts and the sum of a log that arrives in blocks.
//
// Whoever reads a log block by block begins with `start` and `no_counts`, gives each block to `step`, and at the end of the input calls `finish`,
// which puts the table of all that was handed over. The buffer, for a line that no byte 10 has ended yet, has at least 205 bytes.
#![tactic(auto)]

ghost use Rattle.std.specs.Prelude.{◌≤◌, [], ◌≡◌, length};
ghost use Rattle.counts.specs.Counts.{table_of};
ghost use Rattle.logs.specs.Log.{started, with_line, One, AllLines, passes, Steps, Finishes};

use counts::Counted;
use tally::Tally;

mod table;

// Only so many bytes are the input.
pub const LIMIT: usize = 4294967295;

// A log so far, beside its table: the bad lines, the sum, the bytes that are held of the line that goes on, and those that were taken.
#[derive(Clone, Copy)]
pub struct Week {
    pub bad: u64,
    pub tally: Tally,
    pub held: usize,
    pub taken: usize,
}

// How far a block is used, and the log then.
#[derive(Clone, Copy)]
struct Reached {
    week: Week,
    used: usize,
}

// A log of which nothing has come.
pub fn start() -> Week
    ensures { result ≡ started }
{
    Week {
        bad: 0,
        tally: Tally { sum: Some(0) },
        held: 0,
        taken: 0,
    }
}

// Its table.
#[tactic(auto, unfolding(counts::specs::Counts::how_many))]
pub fn no_counts() -> counts::Table
    ensures { result ≡ table_of [] }
{
    [[0u64; 4]; 5]
}

// The log with one line more, which ended.
fn with_line(week: Week, line: Option<Counted>) -> Week
    ensures { result ≡ with_line week line }
{
    Week {
        bad: counts::count_bad(week.bad, line),
        tally: tally::after_line(week.tally, counts::seconds(line)),
        held: 0,
        taken: week.taken,
    }
}

// One line: takes it, and counts it where it ends.
fn one_line(
    week: Week,
    table: &mut counts::Table,
    kept: &mut [u8],
    block: &[u8],
    from: usize,
) -> Reached
    requires { week.held ≤ length kept.old }
    ensures { One week block.now from table.old kept.old table.new kept.new result }
{
    let taken = lines::take_line(kept, week.held, block, from);
    let held = taken.held;
    let used = taken.used;
    if taken.ended {
        let line = counts::see(&kept[..held]);
        *table = counts::count(*table, line);
        return Reached {
            week: with_line(week, line),
            used,
        };
    }
    Reached {
        week: Week { held, ..week },
        used,
    }
}

// All lines of a block.
fn all_lines(week: Week, table: &mut counts::Table, kept: &mut [u8], block: &[u8]) -> Week
    requires { week.held ≤ length kept.old }
    ensures { AllLines week block.now table.old kept.old table.new kept.new result }
{
    let mut so_far = week;
    let mut used = 0;
    while used < block.len() {
        let one = one_line(so_far, table, kept, block, used);
        so_far = one.week;
        used = one.used;
    }
    so_far
}

// Takes a block, as far as it is input, and counts the lines that it ends.
pub fn step(week: Week, table: &mut counts::Table, kept: &mut [u8], block: &[u8]) -> Week
    ensures { Steps week block.now table.old kept.old table.new kept.new result }
{
    let taken = week.taken.min(LIMIT);
    let n = (LIMIT - taken).min(block.len());
    let ready = Week {
        held: week.held.min(kept.len()),
        taken: taken + n,
        ..week
    };
    all_lines(ready, table, kept, &block[..n])
}

// Whether a block has bytes behind the input.
pub fn is_past(week: Week, block: &[u8]) -> bool
    ensures { result ≡ passes week block.now }
{
    LIMIT - week.taken.min(LIMIT) < block.len()
}

// The end of the input: puts the table, with the last line, where no byte 10 ended it and it is not empty.
pub fn finish(week: Week, table: counts::Table, kept: &[u8], out: &mut [u8]) -> usize
    ensures { Finishes week table kept.now out.old out.new result }
{
    let n = week.held.min(kept.len());
    if n == 0 {
        return table::put_week(out, table, week.bad, week.tally.sum);
    }
    let line = counts::see(&kept[..n]);
    let last = with_line(week, line);
    table::put_week(out, counts::count(table, line), last.bad, last.tally.sum)
}
