// Fields of a bit-packed file, most significant bit first (document 01, 'Two files').
#![tactic(auto)]

ghost use Rattle.std.specs.Prelude.{◌≡◌, ◌+◌, ◌*◌, ◌≤◌, ◌<◌, length, get_or};
ghost use Rattle.fields.specs.Field.{field_at, field_read};

use cells::BitPlace;

// The byte at i, or 0 past the end.
fn byte_at(s: &[u8], i: usize) -> u32
    ensures { (result ≡ get_or s.now i 0) × (result < 256) }
{
    if i < s.len() { s[i] as u32 } else { 0 }
}

// The two bytes at i, both there.
fn pair_at(s: &[u8], i: usize) -> u32
    requires { i + 1 < length s.now }
    ensures { (result ≡ get_or s.now i 0 * 256 + get_or s.now (i + 1) 0) × (get_or s.now (i + 1) 0 < 256) × (result < 65536) }
{
    s[i] as u32 * 256 + s[i + 1] as u32
}

// The two bytes at i, one test where both are there.
fn two_at(s: &[u8], i: usize) -> u32
    requires { i ≤ 262146 }
    ensures { (result ≡ get_or s.now i 0 * 256 + get_or s.now (i + 1) 0) × (get_or s.now (i + 1) 0 < 256) × (result < 65536) }
{
    if i + 1 < s.len() {
        pair_at(s, i)
    } else {
        byte_at(s, i) * 256
    }
}

// The four bytes at i, one test where all are there.
pub fn four_at(s: &[u8], i: usize) -> u32
    requires { i ≤ 262144 }
    ensures { result ≡ field_at s.now (8 * i) 32 }
{
    if i + 3 < s.len() {
        pair_at(s, i) * 0x10000 + pair_at(s, i + 2)
    } else {
        two_at(s, i) * 0x10000 + two_at(s, i + 2)
    }
}

// The number that `width` bits are, at most 8: they lie in two bytes.
pub fn bits_at(s: &[u8], at: BitPlace, width: usize) -> u32
    requires { (length s.now ≤ 262144) × ((width ≤ 8) × (at.0 + width ≤ 8 * length s.now)) }
    ensures { (result ≡ field_at s.now at.0 width) × (result < 256) }
{
    let two = two_at(s, at.byte());
    (two >> (16 - at.bit() - width)) % (1u32 << width)
}

// The number that the 21 bits at a place are, a code and two operand bytes; bits past the end are 0.
pub fn line_at(s: &[u8], at: BitPlace) -> u32
    requires { (length s.now ≤ 262144) × (at.0 ≤ 8 * length s.now) }
    ensures { (result ≡ field_at s.now at.0 21) × (result < 0x200000) }
{
    (four_at(s, at.byte()) >> (11 - at.bit())) % 0x200000
}

// The number that 16 bits are.
fn half_word_at(s: &[u8], at: BitPlace) -> u32
    requires { (length s.now ≤ 262144) × (at.0 + 16 ≤ 8 * length s.now) }
    ensures { (result ≡ field_at s.now at.0 16) × (result < 65536) }
{
    bits_at(s, at, 8) * 256 + bits_at(s, at.past(8), 8)
}

// The number that 32 bits are.
fn word_at(s: &[u8], at: BitPlace) -> u32
    requires { (length s.now ≤ 262144) × (at.0 + 32 ≤ 8 * length s.now) }
    ensures { result ≡ field_at s.now at.0 32 }
{
    half_word_at(s, at) * 65536 + half_word_at(s, at.past(16))
}

// The number that 48 bits are.
pub fn wide_at(s: &[u8], at: BitPlace) -> u64
    requires { (length s.now ≤ 262144) × (at.0 + 48 ≤ 8 * length s.now) }
    ensures { result ≡ field_at s.now at.0 48 }
{
    half_word_at(s, at) as u64 * 0x1_0000_0000 + word_at(s, at.past(16)) as u64
}

// The field of `width` bits, at most 8, at a place.
pub fn read_field(s: &[u8], at: BitPlace, width: usize) -> Option<(u32, BitPlace)>
    requires { (length s.now ≤ 262144) × (width ≤ 8) }
    ensures { result ≡ field_read s.now at.0 width }
{
    if at.within(width, s.len()) {
        return Some((bits_at(s, at, width), at.past(width)));
    }
    None
}

// The field of 32 bits at a place.
pub fn read_word(s: &[u8], at: BitPlace) -> Option<(u32, BitPlace)>
    requires { length s.now ≤ 262144 }
    ensures { result ≡ field_read s.now at.0 32 }
{
    if at.within(32, s.len()) {
        return Some((word_at(s, at), at.past(32)));
    }
    None
}

// The field of 24 bits at a place.
pub fn read_three(s: &[u8], at: BitPlace) -> Option<(u32, BitPlace)>
    requires { length s.now ≤ 262144 }
    ensures { result ≡ field_read s.now at.0 24 }
{
    if at.within(24, s.len()) {
        let three = bits_at(s, at, 8) * 65536 + half_word_at(s, at.past(8));
        return Some((three, at.past(24)));
    }
    None
}
