// Text into a lent buffer: bytes, decimals, words and lines, from place `at` on. Each function answers the place after what it put.
#![tactic(auto)]

ghost use Rattle.std.specs.Prelude.{[], ◌∷◌, ◌++◌, ◌+◌, ◌≤◌, length};
ghost use Rattle.text.specs.Put.{Put};
ghost use Rattle.text.specs.Text.{decimal, integer, line};

pub fn put_bytes(out: &mut [u8], at: usize, bytes: &[u8]) -> usize
    requires { at + length bytes.now ≤ length out.old }
    ensures { Put out.old at out.new result bytes.now }
{
    let next = at + bytes.len();
    out[at..next].copy_from_slice(bytes);
    next
}

pub fn put_byte(out: &mut [u8], at: usize, byte: u8) -> usize
    requires { at + 1 ≤ length out.old }
    ensures { Put out.old at out.new result (byte ∷ []) }
{
    out[at] = byte;
    at + 1
}

pub fn put_decimal(out: &mut [u8], at: usize, n: u64) -> usize
    requires { at + 20 ≤ length out.old }
    ensures put { Put out.old at out.new result (decimal n) }
    ensures upper_bound { result ≤ at + 20 }
{
    let mut text = [0u8; 20];
    let count = io::decimal(n, &mut text);
    put_bytes(out, at, &text[..count])
}

// Bits in two's complement, of a width that has `full` patterns of bits. (Bits of no such width are -0: so nothing is asked of x.)
pub fn put_integer(out: &mut [u8], at: usize, x: u64, full: u64) -> usize
    requires { at + 21 ≤ length out.old }
    ensures put { Put out.old at out.new result (integer full x) }
    ensures upper_bound { result ≤ at + 21 }
{
    if x < full / 2 {
        return put_decimal(out, at, x);
    }
    let next = put_byte(out, at, b'-');
    if x < full {
        return put_decimal(out, next, full - x);
    }
    put_decimal(out, next, 0)
}

// ---- words with what follows them, and lines

pub fn put_word(out: &mut [u8], at: usize, word: &[u8]) -> usize
    requires { at + length word.now + 1 ≤ length out.old }
    ensures { Put out.old at out.new result (word.now ++ (32 ∷ [])) }
{
    let next = put_bytes(out, at, word);
    put_byte(out, next, b' ')
}

// A number, and the blank or newline after it.
pub fn put_number(out: &mut [u8], at: usize, n: u64, after: u8) -> usize
    requires { at + 21 ≤ length out.old }
    ensures put { Put out.old at out.new result (decimal n ++ (after ∷ [])) }
    ensures upper_bound { result ≤ at + 21 }
{
    let next = put_decimal(out, at, n);
    put_byte(out, next, after)
}

// A line of a word and two numbers.
pub fn put_numbers(out: &mut [u8], at: usize, word: &[u8], a: u64, b: u64) -> usize
    requires { at + length word.now + 43 ≤ length out.old }
    ensures put { Put out.old at out.new result (line (word.now ∷ decimal a ∷ decimal b ∷ [])) }
    ensures upper_bound { result ≤ at + length word.now + 43 }
{
    let first = put_word(out, at, word);
    let second = put_number(out, first, a, b' ');
    put_number(out, second, b, b'\n')
}
