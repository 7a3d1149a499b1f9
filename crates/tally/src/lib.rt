// The running sum of a log's durations.
#![tactic(auto)]

ghost use Rattle.std.specs.Prelude.{◌≡◌};
ghost use Rattle.tally.specs.Tally.{with_line};

// The seconds so far: exact, or none since a line's seconds or the sum passed what 64 bits hold.
#[derive(Clone, Copy)]
pub struct Tally {
    pub sum: Option<u64>,
}

// The line step: adds one line's seconds to a tally that is lent to it.
pub fn line_step(tally: &mut Tally, line: Option<u64>)
    ensures { tally.new ≡ with_line tally.old line }
{
    tally.sum = types::both(tally.sum, line);
}

// The tally behind one line more.
pub fn after_line(mut tally: Tally, line: Option<u64>) -> Tally
    ensures { result ≡ with_line tally line }
{
    line_step(&mut tally, line);
    tally
}
