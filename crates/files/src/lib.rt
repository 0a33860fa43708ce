// Tree files and linear files (document 01, 'Two files').
#![tactic(auto)]

ghost use Rattle.std.specs.Prelude.{◌≡◌, Result, ◌+◌, ◌*◌, ◌≤◌, ◌<◌, length};
ghost use Rattle.std.proofs.lemmas.List.Edits.{sets};
ghost use Rattle.files.specs.Entries.{field, kind_at, constant_at, entry_at, entries_at, zero_bits, nothing_more};
ghost use Rattle.files.specs.EntriesRead.{told, past_told, entry_told, slots_at};
ghost use Rattle.files.specs.Refusal.{refusal};
ghost use Rattle.files.specs.Room.{count_of};

use cells::BitPlace;

// Why a file is refused, and where: the number of the table, and the place.
#[derive(Clone, Copy)]
pub struct Refusal<P>(pub u8, pub P);

// The place in the file as the number that is told.
impl From<Refusal<BitPlace>> for Refusal<usize> {
    ghost from_gives = { λ r told. told ≡ refusal r.0 r.1.0 };

    fn from(refused: Refusal<BitPlace>) -> Refusal<usize> {
        Refusal(refused.0, refused.1.number())
    }
}

// What reading finds, or why and where it is refused.
pub type Reading<T> = Result<T, Refusal<BitPlace>>;

// What a function that fills an output answers: how many bytes it wrote, or a refusal.
pub type Outcome = Result<usize, Refusal<usize>>;

// ---- fields: each is told with the place past it, and is refused 2 where it runs past the end

// The field of `width` bits, at most 8, at a place.
pub fn read_field(s: &[u8], at: BitPlace, width: usize) -> Reading<(u32, BitPlace)>
    requires { (length s.now ≤ 262144) × (width ≤ 8) }
    ensures { result ≡ told (field s.now at.0 width) }
{
    fields::read_field(s, at, width).ok_or(Refusal(2, at))
}

// The field of 24 bits at a place.
pub fn read_three(s: &[u8], at: BitPlace) -> Reading<(u32, BitPlace)>
    requires { length s.now ≤ 262144 }
    ensures { result ≡ told (field s.now at.0 24) }
{
    fields::read_three(s, at).ok_or(Refusal(2, at))
}

// The field of 32 bits at a place.
pub fn read_word(s: &[u8], at: BitPlace) -> Reading<(u32, BitPlace)>
    requires { length s.now ≤ 262144 }
    ensures { result ≡ told (field s.now at.0 32) }
{
    fields::read_word(s, at).ok_or(Refusal(2, at))
}

// The field of 48 bits at a place.
pub fn read_wide(s: &[u8], at: BitPlace) -> Reading<(u64, BitPlace)>
    requires { length s.now ≤ 262144 }
    ensures { result ≡ told (field s.now at.0 48) }
{
    if at.within(48, s.len()) {
        return Ok((fields::wide_at(s, at), at.past(48)));
    }
    Err(Refusal(2, at))
}

// ---- entries: each is told as its slot in a run's table, with the place past it

// The constant whose tag t stands at `tag` and ends at `at`. Tags 4 and 5 are integers, of 32 and of 48 bits.
fn read_constant(s: &[u8], tag: BitPlace, t: u32, at: BitPlace) -> Reading<(u64, BitPlace)>
    requires { (length s.now ≤ 262144) × (at.0 ≤ 8 * length s.now) }
    ensures { result ≡ entry_told (constant_at s.now tag.0 t at.0) }
{
    if t < 4 {
        let slot = (t as u64 + 1) * 0x1000_0000_0000_0000;
        return Ok((slot, at));
    }
    if t == 4 {
        let (x, past) = read_word(s, at)?;
        return Ok((cells::int_cell(cells::widened(x)), past));
    }
    if t == 5 {
        let (x, past) = read_wide(s, at)?;
        return Ok((cells::int_cell(x), past));
    }
    Err(Refusal(3, tag))
}

// The entry at `kind` whose kind is k and ends at `at`, of template `own` of `count`.
fn read_kind(
    s: &[u8],
    own: usize,
    count: usize,
    kind: BitPlace,
    at: BitPlace,
    k: u32,
) -> Reading<(u64, BitPlace)>
    requires { (length s.now ≤ 262144) × (k < 4) }
    ensures { result ≡ entry_told (kind_at s.now own count kind.0 at.0 k) }
{
    match k {
        1 => {
            let (t, past) = read_field(s, at, 3)?;
            read_constant(s, at, t, past)
        }
        2 => {
            let (g, past) = read_field(s, at, 8)?;
            let slot = 0xB000_0000_0000_0000 + g as u64;
            Ok((slot, past))
        }
        3 => {
            let (t, past) = read_field(s, at, 8)?;
            if t as usize <= own {
                return Err(Refusal(3, at));
            }
            if count <= t as usize {
                return Err(Refusal(3, at));
            }
            let slot = 0xC000_0000_0000_0000 + t as u64;
            Ok((slot, past))
        }
        _ => Err(Refusal(3, kind)),
    }
}

// The entry at a place, of template `own` of `count`.
pub fn read_entry(s: &[u8], own: usize, count: usize, at: BitPlace) -> Reading<(u64, BitPlace)>
    requires { length s.now ≤ 262144 }
    ensures { result ≡ entry_told (entry_at s.now own count at.0) }
{
    let (k, past) = read_field(s, at, 2)?;
    read_kind(s, own, count, at, past, k)
}

// The n entries of template `own` of `count`, from `at` on, into slots 1 to n of row `own` of the table; the place past them.
pub fn read_entries(
    s: &[u8],
    table: &mut [u64],
    own: usize,
    count: usize,
    n: usize,
    at: BitPlace,
) -> Reading<BitPlace>
    requires { (length s.now ≤ 262144) × ((256 * own + 256 ≤ length table.old) × ((count ≤ 64) × (n < 256))) }
    ensures value { result ≡ past_told (entries_at s.now own count n at.0) }
    ensures table_after { table.new ≡ sets table.old (256 * own + 1) (slots_at s.now own count n at.0) }
{
    let first = 256 * own + 1;
    let mut here = at;
    for slot in first..first + n {
        let (x, past) = read_entry(s, own, count, here)?;
        table[slot] = x;
        here = past;
    }
    Ok(here)
}

// ---- what ends a part of a file, and a file: each is refused 5

// The n bits at a place, which must be zero; the place past them.
pub fn zero_bits(s: &[u8], at: BitPlace, n: usize) -> Reading<BitPlace>
    requires { (length s.now ≤ 262144) × (at.0 + n ≤ 8 * length s.now) }
    ensures { result ≡ past_told (zero_bits s.now n at.0 (tt {0})) }
{
    let mut here = at;
    for _ in 0..n {
        if fields::bits_at(s, here, 1) != 0 {
            return Err(Refusal(5, here));
        }
        here = here.past(1);
    }
    Ok(here)
}

// A place that must be the file's end.
pub fn nothing_more(s: &[u8], at: BitPlace) -> Reading<BitPlace>
    requires { length s.now ≤ 262144 }
    ensures { result ≡ past_told (nothing_more s.now at.0 (tt {0})) }
{
    if at.ends(s.len()) {
        return Ok(at);
    }
    Err(Refusal(5, at))
}

// The number of templates that a file begins with, 0 where none is read.
pub fn count_of(s: &[u8]) -> usize
    ensures { result ≡ count_of s.now }
{
    if 262144 < s.len() {
        return 0;
    }
    match fields::read_field(s, BitPlace(0), 8) {
        Some((count, _)) => count as usize,
        None => 0,
    }
}
