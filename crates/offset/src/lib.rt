// Offsets from UTC (offset.rs).
#![tactic(auto)]

ghost use Rattle.std.specs.Prelude.{◌≡◌, not, ◌≤◌};
ghost use Rattle.types.specs.Sums.{signed_offset};
ghost use Rattle.parser.specs.Reading.{Says, got, no, pick};
ghost use Rattle.parser.specs.Read.{got_found, got_more};
ghost use Rattle.offset.specs.Rules.{offset, offset_hour, offset_minute, offset_zulu, allowed};

use parser::{Found, Got, Miss};
use types::Offset;

// What is read at one go, before the rule is asked.
pub mod plain;

// No offset here: for good, or where the input ended too early.
fn no_offset(more: bool) -> Found<Offset>
    ensures found { got_found result ≡ no }
    ensures more { got_more result ≡ more }
{
    Err(if more { Miss::Cut } else { Miss::Wrong })
}

fn minus_zero(minus: bool, hour: u32, minute: u32) -> bool
    ensures { result ≡ not (allowed minus hour minute) }
{
    minus && hour == 0 && minute == 0
}

// The offset of a sign, an hour and a minute. Minus zero is refused.
fn signed_offset(minus: bool, hour: u32, minute: u32, next: usize, more: bool) -> Found<Offset>
    requires { (hour ≤ 23) × (minute ≤ 59) }
    ensures found { got_found result ≡ pick (allowed minus hour minute) (got (signed_offset minus hour minute) next) no }
    ensures more { got_more result ≡ more }
{
    if minus_zero(minus, hour, minute) {
        return no_offset(more);
    }
    match Offset::new(minus, hour, minute) {
        Some(value) => Ok(Got { value, next, more }),
        None => no_offset(more),
    }
}

// [[:]MM], after a sign and an hour
fn offset_minute(s: &[u8], at: usize, minus: bool, hour: u32) -> Found<Offset>
    requires { hour ≤ 23 }
    ensures { Says (offset_minute minus hour) s.now at (got_found result) (got_more result) }
{
    let minute = parser::optional(at, fields::after_colon(s, at, 59), 0)?;
    signed_offset(minus, hour, minute.value, minute.next, minute.more)
}

// (+|-)HH[[:]MM]
pub fn offset_hour(s: &[u8], at: usize) -> Found<Offset>
    ensures { Says offset_hour s.now at (got_found result) (got_more result) }
{
    let sign = parser::sign(s, at)?;
    let hour = fields::time_hour(s, sign.next)?;
    offset_minute(s, hour.next, sign.value, hour.value)
}

// Z
pub fn offset_zulu(s: &[u8], at: usize) -> Found<Offset>
    ensures { Says offset_zulu s.now at (got_found result) (got_more result) }
{
    let next = parser::literal(s, at, b'Z')?;
    Ok(Got {
        value: Offset::ZERO,
        next,
        more: false,
    })
}

// (Z|+...|-...)
pub fn offset_at(s: &[u8], at: usize) -> Found<Offset>
    ensures { Says offset s.now at (got_found result) (got_more result) }
{
    match offset_hour(s, at) {
        Err(Miss::Wrong) => offset_zulu(s, at),
        found => found,
    }
}
