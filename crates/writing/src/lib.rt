// What writers share: their answer, digits in a fixed width, and how many digits a number has.
#![tactic(auto)]

ghost use Rattle.std.specs.Prelude.{◌≡◌, ◌+◌, ◌%◌, ◌≤◌, length};
ghost use Rattle.text.specs.Text.{Puts, decimal};
ghost use Rattle.writing.specs.Spelling.{padded};
ghost use Rattle.writing.specs.Writing.{number_of, count_of, room_for};

use text::put_byte;

// Why nothing was written: no reader gives the record, or the buffer is shorter than the text.
#[derive(Clone, Copy)]
pub enum Unwritten {
    NoReader,
    TooShort,
}

// 0, 4 or 5, the paper's number.
pub fn number(written: Result<usize, Unwritten>) -> u32
    ensures { result ≡ number_of written }
{
    match written {
        Ok(_) => 0,
        Err(Unwritten::NoReader) => 4,
        Err(Unwritten::TooShort) => 5,
    }
}

// The text's length, 0 where none was written.
pub fn count(written: Result<usize, Unwritten>) -> usize
    ensures { result ≡ count_of written }
{
    written.unwrap_or(0)
}

// The text's length, where some reader gives the record and the buffer has room for the text.
pub fn room_for(measured: Option<usize>, buffer: &[u8]) -> Result<usize, Unwritten>
    ensures { result ≡ room_for measured (length buffer.now) }
{
    let count = measured.ok_or(Unwritten::NoReader)?;
    if buffer.len() < count {
        return Err(Unwritten::TooShort);
    }
    Ok(count)
}

// A number's last decimal digit.
pub fn last_digit(n: u32) -> u8
    ensures { result ≡ 48 + n % 10 }
{
    48 + ((n % 10) as u8)
}

// Puts a number's last two decimal digits. With room for both, a number below 100 has them at one go.
#[tactic(auto, using(crate::proofs::Digits::two_at_one_go), unfolding(text::specs::Text::puts, crate::specs::Spelling::padded))]
pub fn put_two(out: &mut [u8], at: usize, n: u32) -> usize
    ensures { Puts (padded 2 n) out.old at out.new result }
{
    if n < 100 && at < out.len() && 1 < out.len() - at {
        let tens = n / 10;
        out[at] = 48 + (tens as u8);
        out[at + 1] = 48 + ((n - tens * 10) as u8);
        return at + 2;
    }
    let next = put_byte(out, at, last_digit(n / 10));
    put_byte(out, next, last_digit(n))
}

// Puts a number's last three decimal digits.
#[tactic(auto, using(crate::proofs::Digits::padded_three), unfolding(text::specs::Text::puts))]
pub fn put_three(out: &mut [u8], at: usize, n: u32) -> usize
    ensures { Puts (padded 3 n) out.old at out.new result }
{
    let next = put_byte(out, at, last_digit(n / 100));
    put_two(out, next, n % 100)
}

// How many decimal digits a number has.
#[tactic(auto, using(crate::proofs::Digits::decimal_between, crate::proofs::Digits::decimal_zero))]
pub fn decimal_length(n: u64) -> usize
    ensures size { result ≡ length (decimal n) }
    ensures most { result ≤ 20 }
{
    n.checked_ilog10().unwrap_or(0) as usize + 1
}
