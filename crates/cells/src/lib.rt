// Cells and code places (document 01, 'Cells'): each cell is made here and taken apart here.
#![tactic(auto)]

ghost use Rattle.std.specs.Prelude.{◌≡◌, ◌+◌, ◌*◌, ◌-◌, ◌/◌, ◌%◌, ◌≤◌, ◌<◌, eqb, ltb, leb};
ghost use Rattle.cells.specs.Cells.{full, widened, tag_of, int_cell, int_of, closure_cell, closure_of, closure_template, closure_env};
ghost use Rattle.cells.specs.Cells.{pair_cell, pair_first, pair_second, layer_cell, layer_parent, layer_count};
ghost use Rattle.cells.specs.Cells.{frame_cell, frame_count, frame_template, frame_env, frame_place, starting_global, value_of};

// A code place in a tree file: a bit number from the file's start.
#[derive(Clone, Copy)]
pub struct BitPlace(pub usize);

// A code place in a linear file: a byte number within its template's code.
#[derive(Clone, Copy)]
pub struct BytePlace(pub usize);

// What is to be known of a place is asked here, and no other crate takes one apart. Files are at most 262,144 bytes.
impl BitPlace {
    // n bits on.
    pub fn past(self, n: usize) -> BitPlace
        requires { self.0 + n < 0x100000000 }
        ensures { result.0 ≡ self.0 + n }
    {
        BitPlace(self.0 + n)
    }

    // n bits back.
    pub fn back(self, n: usize) -> BitPlace
        requires { n ≤ self.0 }
        ensures { result.0 ≡ self.0 - n }
    {
        BitPlace(self.0 - n)
    }

    // Whether it lies before another.
    pub fn before(self, other: BitPlace) -> bool
        ensures { result ≡ ltb self.0 other.0 }
    {
        self.0 < other.0
    }

    // How many bits lie between an earlier place and this one.
    pub fn since(self, from: BitPlace) -> usize
        requires { from.0 ≤ self.0 }
        ensures { result ≡ self.0 - from.0 }
    {
        self.0 - from.0
    }

    // The byte of the file that it lies in.
    pub fn byte(self) -> usize
        ensures { result ≡ self.0 / 8 }
    {
        self.0 / 8
    }

    // Which bit of its byte it is, the most significant first.
    pub fn bit(self) -> usize
        ensures { result ≡ self.0 % 8 }
    {
        self.0 % 8
    }

    // How many bits it is from there to the next byte.
    pub fn to_byte(self) -> usize
        ensures { result ≡ (8 - self.0 % 8) % 8 }
    {
        (8 - self.0 % 8) % 8
    }

    // Whether the n bits there lie within a file of so many bytes.
    pub fn within(self, n: usize, bytes: usize) -> bool
        requires { bytes ≤ 262144 }
        ensures { result ≡ leb (self.0 + n) (8 * bytes) }
    {
        let p = self.0;
        let end = 8 * bytes;
        if end < p {
            return false;
        }
        if end - p < n {
            return false;
        }
        true
    }

    // Whether a file of so many bytes ends there.
    pub fn ends(self, bytes: usize) -> bool
        requires { bytes ≤ 262144 }
        ensures { result ≡ eqb self.0 (8 * bytes) }
    {
        self.0 == 8 * bytes
    }

    // Where a file of so many bytes ends.
    pub fn end_of(bytes: usize) -> BitPlace
        requires { bytes ≤ 262144 }
        ensures { result.0 ≡ 8 * bytes }
    {
        BitPlace(8 * bytes)
    }

    // Whether it is the file's first bit, where no code stands.
    pub fn is_first(self) -> bool
        ensures { result ≡ eqb self.0 0 }
    {
        self.0 == 0
    }

    // The number of it that a refusal tells.
    pub fn number(self) -> usize
        ensures { result ≡ self.0 }
    {
        self.0
    }

    // What a slot of a run's table holds of it, and back.
    pub fn to_slot(self) -> u64
        ensures { result ≡ self.0 }
    {
        self.0 as u64
    }

    pub fn from_slot(slot: u64) -> BitPlace
        ensures { result.0 ≡ slot }
    {
        BitPlace(slot as usize)
    }

    // Its index in the links: two codes are at least 5 bits apart.
    pub fn link_index(self) -> usize
        ensures { result ≡ self.0 / 5 }
    {
        self.0 / 5
    }

    // What a link holds of it, and back.
    pub fn to_link(self) -> u32
        requires { self.0 < 0x100000000 }
        ensures { result ≡ self.0 }
    {
        self.0 as u32
    }

    pub fn from_link(link: u32) -> BitPlace
        ensures { result.0 ≡ link }
    {
        BitPlace(link as usize)
    }
}

impl BytePlace {
    // n bytes on.
    pub fn past(self, n: usize) -> BytePlace
        requires { self.0 + n < 0x100000000 }
        ensures { result.0 ≡ self.0 + n }
    {
        BytePlace(self.0 + n)
    }

    // How many of the `len` bytes of a code are left there, none past its end.
    pub fn left(self, len: usize) -> usize
        ensures { result ≡ len - self.0 }
    {
        let p = self.0;
        if len < p {
            return 0;
        }
        len - p
    }

    // Its index in a file where the code begins at `start`.
    pub fn index(self, start: usize) -> usize
        requires { start + self.0 < 0x100000000 }
        ensures { result ≡ start + self.0 }
    {
        start + self.0
    }

    // Whether it is the code's first byte.
    pub fn is_first(self) -> bool
        ensures { result ≡ eqb self.0 0 }
    {
        self.0 == 0
    }
}

// What a closure cell holds.
#[derive(Clone, Copy)]
pub struct Closure {
    pub template: u64,
    pub env: u64,
    pub location: u64,
}

// The value of a cell. An integer is its 48 bits in two's complement.
#[derive(Clone, Copy)]
pub enum Value {
    False,
    True,
    Null,
    Unspecified,
    Integer(u64),
    Procedure(Closure),
    Pair(u64, u64),
    // A cell that is no value: not in use, undefined, a layer or a frame.
    NoValue,
}

// The cells that are constants. 0 is a cell that is not in use.
pub const FALSE: u64 = 0x1000_0000_0000_0000;

pub const TRUE: u64 = 0x2000_0000_0000_0000;

pub const NULL: u64 = 0x3000_0000_0000_0000;

pub const UNSPECIFIED: u64 = 0x4000_0000_0000_0000;

pub const UNDEFINED: u64 = 0x5000_0000_0000_0000;

// The tag of a cell, its highest 4 bits.
pub fn tag_of(c: u64) -> u64
    ensures { result ≡ tag_of c }
{
    c / 0x1000_0000_0000_0000
}

// ---- 6: an integer

// The width, 48 bits: FULL patterns of bits, the first HALF of them not negative.
pub const HALF: u64 = 0x8000_0000_0000;

pub const FULL: u64 = 2 * HALF;

pub fn int_cell(x: u64) -> u64
    requires { x < full }
    ensures { result ≡ int_cell x }
{
    0x6000_0000_0000_0000 + x * 0x1000
}

pub fn int_of(c: u64) -> u64
    ensures { result ≡ int_of c }
{
    c / 0x1000 % FULL
}

// The same number with more bits: a constant of tag 4 has 32.
pub fn widened(x: u32) -> u64
    ensures { result ≡ widened x }
{
    if x < 0x8000_0000 {
        x as u64
    } else {
        x as u64 + (FULL - 0x1_0000_0000)
    }
}

// ---- 7: a closure

pub fn closure_cell(t: u8, e: u16, l: u16) -> u64
    ensures { result ≡ closure_cell t e l }
{
    0x7000_0000_0000_0000
        + (t as u64) * 0x10_0000_0000_0000
        + (e as u64) * 0x10_0000_0000
        + (l as u64) * 0x10_0000
}

pub fn closure_of(c: u64) -> Closure
    ensures { result ≡ closure_of c }
{
    Closure {
        template: c / 0x10_0000_0000_0000 % 0x100,
        env: c / 0x10_0000_0000 % 0x1_0000,
        location: c / 0x10_0000 % 0x1_0000,
    }
}

pub fn closure_template(c: u64) -> u8
    ensures { result ≡ closure_template c }
{
    (c / 0x10_0000_0000_0000 % 0x100) as u8
}

pub fn closure_env(c: u64) -> u16
    ensures { result ≡ closure_env c }
{
    (c / 0x10_0000_0000 % 0x1_0000) as u16
}

// ---- 8: a pair

pub fn pair_cell(a: u16, b: u16) -> u64
    ensures { result ≡ pair_cell a b }
{
    0x8000_0000_0000_0000 + (a as u64) * 0x1000_0000_0000 + (b as u64) * 0x1000_0000
}

pub fn pair_first(c: u64) -> u16
    ensures { result ≡ pair_first c }
{
    (c / 0x1000_0000_0000 % 0x1_0000) as u16
}

pub fn pair_second(c: u64) -> u16
    ensures { result ≡ pair_second c }
{
    (c / 0x1000_0000 % 0x1_0000) as u16
}

// ---- 9: a layer

pub fn layer_cell(e: u16, n: u8) -> u64
    ensures { result ≡ layer_cell e n }
{
    0x9000_0000_0000_0000 + (e as u64) * 0x1000_0000_0000 + (n as u64) * 0x10_0000_0000
}

pub fn layer_parent(c: u64) -> u16
    ensures { result ≡ layer_parent c }
{
    (c / 0x1000_0000_0000 % 0x1_0000) as u16
}

pub fn layer_count(c: u64) -> u8
    ensures { result ≡ layer_count c }
{
    (c / 0x10_0000_0000 % 0x100) as u8
}

// ---- 10: a frame. Its code place is a bit place or a byte place: what a frame is made of says which.

// The place's lowest 24 bits are kept.
fn frame_cell(n: u8, t: u8, e: u16, p: usize) -> u64
    ensures { result ≡ frame_cell n t e (p % 0x1000000) }
{
    0xA000_0000_0000_0000
        + (n as u64) * 0x10_0000_0000_0000
        + (t as u64) * 0x1000_0000_0000
        + (e as u64) * 0x1000_0000
        + ((p % 0x100_0000) as u64) * 0x10
}

fn frame_place(c: u64) -> usize
    ensures { result ≡ frame_place c }
{
    (c / 0x10 % 0x100_0000) as usize
}

pub fn tree_frame(n: u8, t: u8, e: u16, p: BitPlace) -> u64
    ensures { result ≡ frame_cell n t e (p.0 % 0x1000000) }
{
    frame_cell(n, t, e, p.0)
}

pub fn linear_frame(n: u8, t: u8, e: u16, p: BytePlace) -> u64
    ensures { result ≡ frame_cell n t e (p.0 % 0x1000000) }
{
    frame_cell(n, t, e, p.0)
}

pub fn tree_place(c: u64) -> BitPlace
    ensures { result.0 ≡ frame_place c }
{
    BitPlace(frame_place(c))
}

pub fn linear_place(c: u64) -> BytePlace
    ensures { result.0 ≡ frame_place c }
{
    BytePlace(frame_place(c))
}

pub fn frame_count(c: u64) -> u8
    ensures { result ≡ frame_count c }
{
    (c / 0x10_0000_0000_0000 % 0x100) as u8
}

pub fn frame_template(c: u64) -> u8
    ensures { result ≡ frame_template c }
{
    (c / 0x1000_0000_0000 % 0x100) as u8
}

pub fn frame_env(c: u64) -> u16
    ensures { result ≡ frame_env c }
{
    (c / 0x1000_0000 % 0x1_0000) as u16
}

// ---- by the tag

// 22: whether a cell may stand in a global at the start.
pub fn starting_global(c: u64) -> bool
    ensures { result ≡ starting_global c }
{
    let t = tag_of(c);
    match t {
        1..=5 => c == t * 0x1000_0000_0000_0000,
        6 => c == int_cell(int_of(c)),
        _ => false,
    }
}

pub fn value_of(c: u64) -> Value
    ensures { result ≡ value_of c }
{
    match tag_of(c) {
        1 => Value::False,
        2 => Value::True,
        3 => Value::Null,
        4 => Value::Unspecified,
        6 => Value::Integer(int_of(c)),
        7 => Value::Procedure(closure_of(c)),
        8 => Value::Pair(pair_first(c) as u64, pair_second(c) as u64),
        _ => Value::NoValue,
    }
}
