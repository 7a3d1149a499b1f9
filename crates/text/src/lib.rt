// The output: bytes that are put one behind the other into a buffer of the caller's.
//
// Each function here takes the place of the next byte and returns the place behind what it put. What does not fit is left out, so that no
// caller has to promise room. That nothing is left out where there is room for all of it is `puts_fits` of `proofs/Laws.antt`.
#![tactic(auto)]

ghost use Rattle.std.specs.Prelude.{[], ◌∷◌};
ghost use Rattle.text.specs.Text.{Puts, decimal};

// Puts one byte.
#[tactic(auto, using(crate::proofs::Laws::puts_byte, crate::proofs::Laws::puts_no_byte))]
pub fn put_byte(out: &mut [u8], at: usize, byte: u8) -> usize
    ensures { Puts (byte ∷ []) out.old at out.new result }
{
    if at < out.len() {
        out[at] = byte;
        at + 1
    } else {
        at
    }
}

// Puts some bytes.
#[tactic(auto, using(crate::proofs::Laws::puts_nothing, crate::proofs::Laws::puts_turn))]
pub fn put(out: &mut [u8], at: usize, bytes: &[u8]) -> usize
    ensures { Puts bytes.now out.old at out.new result }
{
    let mut next = at;
    for &byte in bytes {
        next = put_byte(out, next, byte);
    }
    next
}

// Puts a number's decimal digits.
#[tactic(auto, using(crate::proofs::Decimals::decimal_is))]
pub fn put_decimal(out: &mut [u8], at: usize, n: u64) -> usize
    ensures { Puts (decimal n) out.old at out.new result }
{
    let mut digits = [0u8; 20];
    let count = io::decimal(n, &mut digits);
    put(out, at, &digits[..count])
}
