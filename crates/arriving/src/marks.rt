// What the kept bytes end in, and by which family they are shortened: the mark (specs/Keeping.antt).
ghost use Rattle.std.specs.Prelude.{◌≡◌, eqb};
ghost use Rattle.parser.specs.Reading.{or, and, within};
ghost use Rattle.parser.specs.Digits.{is_digit};
ghost use Rattle.shortening.specs.Points.{is_point};
ghost use Rattle.shortening.specs.Sides.{starts_zeros, has_sides};
ghost use Rattle.arriving.specs.Keeping.{first_mark, drops_zeros, zero_mark, point_mark, next_mark, joinable, joins_to};

use kinds::answer::Kind;

// Kept: marks are numbers and no enum, since the digits of a fraction are counted in them, and the laws of `Tidy` compute with that.
// A comma or point; each digit behind it is one more.
const POINT: u8 = 1;

// The tenth digit behind a comma or point.
const TENTH: u8 = 11;

// From here on zeros are dropped; this one: some other digit stands before.
const ZEROS: u8 = 16;

// No digit stands before.
const FRESH: u8 = 17;

// A 0 that no digit stands before.
const ZERO: u8 = 27;

// A side begins.
const SIDE: u8 = 32;

pub fn has_sides(kind: Kind) -> bool
    ensures { result ≡ has_sides kind }
{
    matches!(kind, Kind::Interval(_))
}

pub fn first_mark(kind: Kind) -> u8
    ensures { result ≡ first_mark kind }
{
    match kind {
        Kind::Interval(_) => SIDE,
        Kind::Duration => FRESH,
        _ => 0,
    }
}

fn starts_zeros(b: u8) -> bool
    ensures { result ≡ starts_zeros b }
{
    b == b'P' || b == b'R'
}

fn is_digit(b: u8) -> bool
    ensures { result ≡ is_digit b }
{
    b.is_ascii_digit()
}

fn is_point(b: u8) -> bool
    ensures { result ≡ is_point b }
{
    b == b',' || b == b'.'
}

// A `/` begins a side.
fn begins_side(sides: bool, b: u8) -> bool
    ensures { result ≡ and sides (eqb b 47) }
{
    sides && b == b'/'
}

// By a side's first byte, and behind it by the mark.
fn drops_zeros(mark: u8, b: u8) -> bool
    ensures { result ≡ drops_zeros mark b }
{
    if mark == SIDE {
        starts_zeros(b)
    } else {
        ZEROS <= mark
    }
}

// No digit but a 0 stands before.
fn is_leading(mark: u8) -> bool
    ensures { result ≡ or (eqb mark 17) (eqb mark 27) }
{
    mark == FRESH || mark == ZERO
}

fn zero_mark(mark: u8, b: u8) -> u8
    ensures { result ≡ zero_mark mark b }
{
    if !is_digit(b) {
        FRESH
    } else if b == b'0' && is_leading(mark) {
        ZERO
    } else {
        ZEROS
    }
}

// A comma or point stands before, and at most ten digits behind it.
fn is_fraction(mark: u8) -> bool
    ensures { result ≡ within 1 11 mark }
{
    POINT <= mark && mark <= TENTH
}

fn point_mark(mark: u8, b: u8) -> u8
    ensures { result ≡ point_mark mark b }
{
    if !is_digit(b) {
        return if is_point(b) { POINT } else { 0 };
    }
    if is_fraction(mark) {
        TENTH.min(mark + 1)
    } else {
        0
    }
}

#[tactic(auto, unfolding(crate::specs::Keeping::next_mark))]
pub fn next_mark(sides: bool, mark: u8, b: u8) -> u8
    ensures { result ≡ next_mark sides mark b }
{
    if begins_side(sides, b) {
        SIDE
    } else if drops_zeros(mark, b) {
        zero_mark(mark, b)
    } else {
        point_mark(mark, b)
    }
}

fn is_joinable(mark: u8) -> bool
    ensures { result ≡ joinable mark }
{
    mark == TENTH || mark == ZERO
}

// The byte is joined to the last kept one.
pub fn joins(mark: u8, len: usize, b: u8) -> bool
    ensures { result ≡ joins_to mark len b }
{
    is_joinable(mark) && 0 < len && is_digit(b)
}
