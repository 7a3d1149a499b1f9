// Fields of a fixed number of digits, each read from a place of the input (parser.rs).
#![tactic(auto)]

ghost use Rattle.std.specs.Prelude.{◌≡◌, leb};
ghost use Rattle.parser.specs.Reading.{Says};
ghost use Rattle.parser.specs.Digits.{field, reach, lowest, highest};
ghost use Rattle.parser.specs.Fields.{preceded_by, month, day, hour, minute, second};
ghost use Rattle.parser.specs.Read.{exact_found, exact_more};
ghost use Rattle.fields.specs.Read.{cut_field};

use parser::{Exact, Miss};

// Whether the greatest number that `left` more digits make of `value` is at least `lo`.
fn can_be_at_least(lo: u32, left: usize, value: u64) -> bool
    ensures { result ≡ leb lo (highest left value) }
{
    let least = u64::from(lo);
    let mut high = value;
    for _ in 0..left {
        if least <= high {
            return true;
        }
        high = high * 10 + 9;
    }
    least <= high
}

// Whether the least number that `left` more digits make of `value` is at most `hi`.
fn can_be_at_most(hi: u32, left: usize, value: u64) -> bool
    ensures { result ≡ leb (lowest left value) hi }
{
    let most = u64::from(hi);
    let mut low = value;
    for _ in 0..left {
        if most < low {
            return false;
        }
        low *= 10;
    }
    low <= most
}

// What an input that ends before a field does finds: `left` digits more could still bring the number into its range, or not.
fn cut_field(left: usize, lo: u32, hi: u32, value: u64) -> Miss
    ensures { result ≡ cut_field (reach lo hi left value) }
{
    if can_be_at_least(lo, left, value) && can_be_at_most(hi, left, value) {
        Miss::Cut
    } else {
        Miss::Wrong
    }
}

// Exactly `places` digits, whose number lies from `lo` to `hi`.
pub fn take_digits_in_range(
    s: &[u8],
    at: usize,
    places: usize,
    lo: u32,
    hi: u32,
) -> Result<Exact<u32>, Miss>
    ensures { Says (field places lo hi) s.now at (exact_found result) (exact_more result) }
{
    let top = u64::from(hi);
    let mut value = 0;
    for taken in 0..places {
        let Some(&b) = s.get(at + taken) else {
            return Err(cut_field(places - taken, lo, hi, value));
        };
        if !b.is_ascii_digit() {
            return Err(Miss::Wrong);
        }
        value = value * 10 + u64::from(b - b'0');
        if top < value {
            return Err(Miss::Wrong);
        }
    }
    if value < u64::from(lo) {
        return Err(Miss::Wrong);
    }
    Ok(Exact {
        value: value as u32,
        next: at + places,
    })
}

// Exactly 1 digit
pub fn digit_1(s: &[u8], at: usize) -> Result<Exact<u32>, Miss>
    ensures { Says (field 1 0 9) s.now at (exact_found result) (exact_more result) }
{
    take_digits_in_range(s, at, 1, 0, 9)
}

// Exactly 2 digits
pub fn digit_2(s: &[u8], at: usize) -> Result<Exact<u32>, Miss>
    ensures { Says (field 2 0 99) s.now at (exact_found result) (exact_more result) }
{
    take_digits_in_range(s, at, 2, 0, 99)
}

// Exactly 3 digits
pub fn digit_3(s: &[u8], at: usize) -> Result<Exact<u32>, Miss>
    ensures { Says (field 3 0 999) s.now at (exact_found result) (exact_more result) }
{
    take_digits_in_range(s, at, 3, 0, 999)
}

// Exactly 4 digits
pub fn digit_4(s: &[u8], at: usize) -> Result<Exact<u32>, Miss>
    ensures { Says (field 4 0 9999) s.now at (exact_found result) (exact_more result) }
{
    take_digits_in_range(s, at, 4, 0, 9999)
}

// MM
pub fn date_month(s: &[u8], at: usize) -> Result<Exact<u32>, Miss>
    ensures { Says month s.now at (exact_found result) (exact_more result) }
{
    take_digits_in_range(s, at, 2, 1, 12)
}

// DD
pub fn date_day(s: &[u8], at: usize) -> Result<Exact<u32>, Miss>
    ensures { Says day s.now at (exact_found result) (exact_more result) }
{
    take_digits_in_range(s, at, 2, 1, 31)
}

// HH
pub fn time_hour(s: &[u8], at: usize) -> Result<Exact<u32>, Miss>
    ensures { Says hour s.now at (exact_found result) (exact_more result) }
{
    take_digits_in_range(s, at, 2, 0, 23)
}

// MM
pub fn time_minute(s: &[u8], at: usize) -> Result<Exact<u32>, Miss>
    ensures { Says minute s.now at (exact_found result) (exact_more result) }
{
    take_digits_in_range(s, at, 2, 0, 59)
}

// SS
pub fn time_second(s: &[u8], at: usize) -> Result<Exact<u32>, Miss>
    ensures { Says second s.now at (exact_found result) (exact_more result) }
{
    take_digits_in_range(s, at, 2, 0, 60)
}

// [:]NN, from 00 to `hi`.
pub fn after_colon(s: &[u8], at: usize, hi: u32) -> Result<Exact<u32>, Miss>
    ensures { Says (preceded_by 58 (field 2 0 hi)) s.now at (exact_found result) (exact_more result) }
{
    take_digits_in_range(s, parser::past(s, at, 58), 2, 0, hi)
}
