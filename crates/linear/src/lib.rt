// Reading a linear file (document 01, 'Two files'; refusals 1, 2, 3 and 5), and a run's table of it.
#![tactic(auto)]

ghost use Rattle.std.specs.Prelude.{◌≡◌, List, ◌+◌, ◌*◌, ◌≤◌, length};
ghost use Rattle.files.specs.Entries.{Entry};
ghost use Rattle.files.specs.Linear.{linear_template_at, linear_templates_at, linear_read};
ghost use Rattle.files.specs.Room.{RoomFor};
ghost use Rattle.files.specs.EntriesRead.{past_told};
ghost use Rattle.linear.specs.Filled.{linear_told, checked_told, padded_code, code_filled, template_filled, templates_filled, linear_filled};

use cells::BitPlace;
use files::{Reading, Refusal};

// What follows a template's entries: padding, the code's length, the code; the place past it. Where the code begins, and its length, go to
// slot 0 of row `own`.
fn read_code(s: &[u8], table: &mut [u64], own: usize, at: BitPlace) -> Reading<BitPlace>
    requires { (length s.now ≤ 262144) × ((256 * own + 256 ≤ length table.old) × (at.0 ≤ 8 * length s.now)) }
    ensures value { (es : List Entry) → result ≡ past_told (padded_code s.now es at.0) }
    ensures table_after { (es : List Entry) → table.new ≡ code_filled own (padded_code s.now es at.0) table.old }
{
    let size = files::zero_bits(s, at, at.to_byte())?;
    let (n, code) = files::read_three(s, size)?;
    let bits = 8 * (n as usize);
    if code.within(bits, s.len()) {
        table[256 * own] = code.byte() as u64 + 0x1_0000_0000 * (n as u64);
        return Ok(code.past(bits));
    }
    Err(Refusal(2, BitPlace::end_of(s.len())))
}

// Template `own` of `count`: E, the entries, what follows them; the place past it.
fn read_template(
    s: &[u8],
    table: &mut [u64],
    own: usize,
    count: usize,
    at: BitPlace,
) -> Reading<BitPlace>
    requires { (length s.now ≤ 262144) × ((256 * own + 256 ≤ length table.old) × (count ≤ 64)) }
    ensures value { result ≡ past_told (linear_template_at s.now own count at.0) }
    ensures table_after { table.new ≡ template_filled s.now own count at.0 table.old }
{
    let (n, first) = files::read_field(s, at, 8)?;
    let padding = files::read_entries(s, table, own, count, n as usize, first)?;
    read_code(s, table, own, padding)
}

// The `count` templates, from `at` on; the place past them.
fn read_templates(s: &[u8], table: &mut [u64], count: usize, at: BitPlace) -> Reading<BitPlace>
    requires { (length s.now ≤ 262144) × ((256 * count ≤ length table.old) × (count ≤ 64)) }
    ensures value { result ≡ past_told (linear_templates_at s.now count 0 count at.0) }
    ensures table_after { table.new ≡ templates_filled s.now count 0 count at.0 table.old }
{
    let mut here = at;
    for own in 0..count {
        here = read_template(s, table, own, count, here)?;
    }
    Ok(here)
}

// Reads a linear file, and fills a run's table, which has a row for each template; its number of templates.
pub fn read_linear(s: &[u8], table: &mut [u64]) -> Reading<u8>
    requires { RoomFor s.now (length table.old) }
    ensures value { result ≡ linear_told (linear_read s.now) }
    ensures table_after { table.new ≡ linear_filled s.now table.old }
{
    if 262144 < s.len() {
        return Err(Refusal(1, BitPlace(0)));
    }
    let (count, first) = files::read_field(s, BitPlace(0), 8)?;
    if count < 1 {
        return Err(Refusal(3, BitPlace(0)));
    }
    if 64 < count {
        return Err(Refusal(3, BitPlace(0)));
    }
    let past = read_templates(s, table, count as usize, first)?;
    files::nothing_more(s, past)?;
    Ok(count as u8)
}

// 1, 2, 3 and 5: what the linear machine says of a file before it runs it.
pub fn check_linear(s: &[u8]) -> Result<(), Refusal<usize>>
    ensures { result ≡ checked_told (linear_read s.now) }
{
    let mut table = [0u64; 16384];
    match read_linear(s, &mut table) {
        Ok(_) => Ok(()),
        Err(Refusal(number, place)) => Err(Refusal(number, place.number())),
    }
}
