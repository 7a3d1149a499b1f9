// Digit runs and the fraction, each read from a place of the input to its last digit (parser.rs). A place past the end is the end,
// and nothing is asked of a caller.
#![tactic(auto)]

ghost use Rattle.std.specs.Prelude.{◌≡◌, ◌+◌, ◌-◌, ◌*◌, ◌^◌, ◌<◌, ◌≤◌, ◌==◌, length, drop, MatchOption};
ghost use Rattle.std.specs.List.{prefix_len};
ghost use Rattle.parser.specs.Reading.{Says};
ghost use Rattle.parser.specs.Digits.{limit, run, at_most, run_as, up_to_nine, fraction_of, fraction, run_at};
ghost use Rattle.parser.specs.Read.{got_found, got_more};

use parser::{Found, Miss};
use types::{Fraction, Refusal};

// The number with one digit more: none where that is larger than any that a run may have, which is the largest of 64 bits. Below a tenth
// of that every digit fits, and is added without a checked sum, which takes longer.
fn with_digit(value: u64, digit: u64) -> Option<u64>
    ensures { MatchOption result (limit < value * 10 + digit) (λ n. (n ≡ value * 10 + digit) × (n ≤ limit)) }
{
    if value < u64::MAX / 10 && digit < 10 {
        return Some(value * 10 + digit);
    }
    value.checked_mul(10)?.checked_add(digit)
}

// A run of one digit or more, with any number of leading zeros.
pub fn take_digits(s: &[u8], at: usize) -> Found<u64>
    ensures { Says run s.now at (got_found result) (got_more result) }
{
    let mut value = 0;
    for (taken, &b) in parser::leftover(s, at).iter().enumerate() {
        if !b.is_ascii_digit() {
            return parser::further(at, at + taken, value, false);
        }
        value = with_digit(value, u64::from(b - b'0')).ok_or(Miss::Stopped(Refusal::TooBig))?;
    }
    parser::further(at, s.len(), value, true)
}

// The place after the zeros that stand from `at` on.
fn zeros_end(s: &[u8], at: usize) -> usize
    ensures { result ≡ at + prefix_len (λ b. b == 48) (drop at s.now) }
{
    at + parser::leftover(s, at)
        .iter()
        .take_while(|b| **b == b'0')
        .count()
}

// A fraction of zeros, of any length: another digit ends all reading, as no form.
pub fn take_zeros(s: &[u8], at: usize) -> Found<Fraction>
    ensures { Says (run_as fraction_of (at_most 0) 1) s.now at (got_found result) (got_more result) }
{
    let end = zeros_end(s, at);
    let zero = fraction_of(0, end - at);
    let Some(b) = s.get(end) else {
        return parser::further(at, end, zero, true);
    };
    if b.is_ascii_digit() {
        return Err(Miss::Stopped(Refusal::NoForm));
    }
    parser::further(at, end, zero, false)
}

// The place after the digits that stand from `at` on.
fn digits_end(s: &[u8], at: usize) -> usize
    ensures { result ≡ at + length (run_at s.now at) }
{
    at + parser::leftover(s, at)
        .iter()
        .take_while(|b| b.is_ascii_digit())
        .count()
}

// A fraction's first nine places, in billionths.
const FACTORS: [u32; 9] = [
    100000000, 10000000, 1000000, 100000, 10000, 1000, 100, 10, 1,
];

// What a digit is worth at a place, counted from 0.
fn factor(place: usize) -> u32
    requires { place < 9 }
    ensures { result ≡ 10 ^ (8 - place) }
{
    FACTORS[place]
}

// The fraction after its comma or point, in billionths: digits past the ninth are read and dropped.
pub fn fraction_nanosecond(s: &[u8], at: usize) -> Found<Fraction>
    ensures { Says fraction s.now at (got_found result) (got_more result) }
{
    let mut nanosecond = 0;
    for place in 0..9 {
        let next = at + place;
        let Some(&b) = s.get(next) else {
            return parser::further(at, next, fraction_of(nanosecond, place), true);
        };
        if !b.is_ascii_digit() {
            return parser::further(at, next, fraction_of(nanosecond, place), false);
        }
        nanosecond += u32::from(b - b'0') * factor(place);
    }
    let end = digits_end(s, at + 9);
    parser::further(at, end, fraction_of(nanosecond, end - at), s.len() <= end)
}

// How many of a fraction's digits are stored, of so many that were written.
pub fn digits_stored(written: usize) -> u32
    ensures { result ≡ up_to_nine written }
{
    written.min(9) as u32
}

// A fraction of so many billionths, of which so many digits were written.
pub fn fraction_of(nanosecond: u32, written: usize) -> Fraction
    ensures nanosecond { result.nanosecond ≡ nanosecond }
    ensures digits { result.digits ≡ up_to_nine written }
{
    Fraction {
        nanosecond,
        digits: digits_stored(written),
    }
}

// What the last of so many digits is worth, of nine.
pub fn unit(digits: usize) -> u32
    ensures { result ≡ 10 ^ (9 - digits) }
{
    match digits {
        0 => 1000000000,
        1..=9 => factor(digits - 1),
        _ => 1,
    }
}
