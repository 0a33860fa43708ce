// Integers (document 01, 'Rules'): what the primitives compute, exactly, over bits in two's complement of the width that cells has. A number is an i64 on
// the way: a difference and a quotient of two integers of 48 bits fit it, and so does every total of 256 of them, which is at most 256 * 2^47 = 2^55.
// That 256 is all a stack holds; `sum_up` asks for it, and the proof of its loop bounds the total of i integers by i * HALF.
#![tactic(auto)]

ghost use Rattle.std.specs.Prelude.{◌≡◌, ◌≢◌, ◌<◌, ◌≤◌, pos, ◌-ℤ◌, length, take};
ghost use Rattle.std.specs.Int.Signed.{mag, lt_z};
ghost use Rattle.cells.specs.Cells.{half, full};
ghost use Rattle.integers.specs.Integers.{signed, floor_quotient};
ghost use Rattle.integers.specs.Answers.{ranged_of, sum_of};

// What a total answers where not all cells are integers.
#[derive(Clone, Copy, PartialEq, Eq)]
pub struct NotIntegers;

fn signed_value(a: u64) -> i64
    requires { a < full }
    ensures value { result ≡ signed a }
    ensures near { mag result < half }
{
    if a < cells::HALF {
        a as i64
    } else {
        a as i64 - cells::FULL as i64
    }
}

// The bits of a number that is in range.
fn in_range(z: i64) -> Option<u64>
    ensures { result ≡ ranged_of z }
{
    if z < 0 {
        if z < -(cells::HALF as i64) {
            None
        } else {
            Some((z + cells::FULL as i64) as u64)
        }
    } else if z < cells::HALF as i64 {
        Some(z as u64)
    } else {
        None
    }
}

pub fn difference(a: u64, b: u64) -> Option<u64>
    requires a_fits { a < full }
    requires b_fits { b < full }
    ensures { result ≡ ranged_of (signed a -ℤ signed b) }
{
    in_range(signed_value(a) - signed_value(b))
}

pub fn less(a: u64, b: u64) -> bool
    requires a_fits { a < full }
    requires b_fits { b < full }
    ensures { result ≡ lt_z (signed a) (signed b) }
{
    signed_value(a) < signed_value(b)
}

// The quotient toward zero, corrected by one where the signs differ and a remainder is left.
fn floor_quotient(x: i64, y: i64) -> i64
    requires x_fits { mag x < half }
    requires not_zero { y ≢ pos 0 }
    ensures { result ≡ floor_quotient x y }
{
    let q = x / y;
    if (x < 0) != (y < 0) && x % y != 0 {
        q - 1
    } else {
        q
    }
}

// The least integer by -1 is over.
pub fn floor_div(a: u64, b: u64) -> Option<u64>
    requires a_fits { a < full }
    requires b_fits { b < full }
    requires not_zero { b ≢ 0 }
    ensures { result ≡ ranged_of (floor_quotient (signed a) (signed b)) }
{
    in_range(floor_quotient(signed_value(a), signed_value(b)))
}

// The total of the first n cells is exact: partial sums may be out of range.
pub fn sum_up(s: &[u64], n: usize) -> Result<Option<u64>, NotIntegers>
    requires within { n ≤ length s.now }
    requires few { n ≤ 256 }
    ensures { result ≡ sum_of (take n s.now) }
{
    let mut total: i64 = 0;
    for i in 0..n {
        let c = s[i];
        if cells::tag_of(c) != 6 {
            return Err(NotIntegers);
        }
        total += signed_value(cells::int_of(c));
    }
    Ok(in_range(total))
}
