// The flattener (document 01, 'Flattening').
#![tactic(auto)]

ghost use Rattle.std.specs.Prelude.{◌≡◌, ◌+◌, ◌*◌, ◌-◌, ◌/◌, ◌≤◌, ◌<◌, length};
ghost use Rattle.std.proofs.lemmas.List.Edits.{sets};
ghost use Rattle.files.specs.Linear.{byte_of, bytes_of, three_bytes, templates_bytes};
ghost use Rattle.flatten.specs.Flatten.{flattened};
ghost use Rattle.files.specs.Outcome.{answered, written};
ghost use Rattle.files.specs.Room.{RoomFor, ZerosFor};
ghost use Rattle.readback.specs.Lists.{bits_from};
ghost use Rattle.flatten.specs.ToFlatten.{TemplateToWrite, TemplatesToWrite, TemplateDone};

use cells::BitPlace;
use files::{Outcome, Refusal};
use lists::Keep;
use tree::Tier;

// The place past a template, and how many bytes of the linear file are written.
#[derive(Clone, Copy)]
pub struct Past {
    pub next: BitPlace,
    pub front: usize,
}

// The byte that the bits from a place to `end` begin with; bits that are not there are zero.
fn first_byte(s: &[u8], at: BitPlace, end: BitPlace) -> u8
    requires { (length s.now ≤ 65536) × (at.0 < end.0) × (end.0 ≤ 8 * length s.now) }
    ensures { result ≡ byte_of (bits_from s.now at.0 (end.0 - at.0)) }
{
    let n = end.since(at);
    if n < 8 {
        return (fields::bits_at(s, at, n) << (8 - n)) as u8;
    }
    fields::bits_at(s, at, 8) as u8
}

// The bits from a place to `end` as bytes, with zero bits to the last byte.
fn write_bits(s: &[u8], at: BitPlace, end: BitPlace, out: &mut [u8], front: usize)
    requires at_in { (length s.now ≤ 65536) × (at.0 ≤ end.0) × (end.0 ≤ 8 * length s.now) }
    requires out_long { front + (end.0 - at.0 + 7) / 8 ≤ length out.old }
    ensures { out.new ≡ sets out.old front (bytes_of (bits_from s.now at.0 (end.0 - at.0))) }
{
    let size = (end.since(at) + 7) / 8;
    let mut here = at;
    for byte in &mut out[front..front + size] {
        *byte = first_byte(s, here, end);
        here = here.past(8);
    }
}

// A length in three bytes.
fn put_length(out: &mut [u8], at: usize, n: usize)
    requires { (at + 3 ≤ length out.old) × (n < 16777216) }
    ensures { out.new ≡ sets out.old at (three_bytes n) }
{
    out[at] = (n / 65536) as u8;
    out[at + 1] = (n / 256 % 256) as u8;
    out[at + 2] = (n % 256) as u8;
}

// Template `own` at a place. Slot 0 of its row of the table says where its list begins, and so where its entries end.
fn write_template(
    s: &[u8],
    table: &[u64],
    marks: &[u32],
    own: usize,
    at: BitPlace,
    out: &mut [u8],
    front: usize,
) -> Past
    requires sizes { (length s.now ≤ 65536) × (256 * own + 256 ≤ length table.now) × (own < 64) }
    requires to_write { TemplateToWrite s.now table.now marks.now own at.0 front (length out.old) }
    ensures { (w : TemplateToWrite s.now table.now marks.now own at.0 front (length out.old))
        → TemplateDone w result out.old out.new }
{
    let start = BitPlace::from_slot(table[256 * own]);
    let size = emit::measure(marks, start).size;
    out[front] = fields::bits_at(s, at, 8) as u8;
    let entries = at.past(8);
    write_bits(s, entries, start, out, front + 1);
    let f = front + 1 + (start.since(entries) + 7) / 8;
    put_length(out, f, size);
    let end = f + 3 + size;
    let next = emit::write_list(s, marks, start, 15, out, f + 3, end);
    Past { next, front: end }
}

// The `count` templates, which stand from bit 8 on, into the bytes from 1 on.
fn write_templates(s: &[u8], table: &[u64], marks: &[u32], count: usize, out: &mut [u8])
    requires sizes { (length s.now ≤ 65536) × (256 * count ≤ length table.now) }
    requires to_write { TemplatesToWrite s.now table.now marks.now count 0 8 1 (length out.old) }
    ensures { (w : TemplatesToWrite s.now table.now marks.now count 0 8 1 (length out.old))
        → out.new ≡ sets out.old 1 (templates_bytes w.templates) }
{
    let mut here = BitPlace(8);
    let mut front: usize = 1;
    for own in 0..count {
        let past = write_template(s, table, marks, own, here, out, front);
        here = past.next;
        front = past.front;
    }
}

// Flattens a tree file into an output, with a table of zeros and marks for it to fill.
fn flatten_marked(s: &[u8], table: &mut [u64], marks: &mut [u32], out: &mut [u8]) -> Outcome
    requires { ZerosFor s.now table.old × (length s.now ≤ 65536 → 8 * length s.now ≤ 5 * length marks.old) }
    ensures value { result ≡ answered (flattened s.now (length out.old)) }
    ensures out_after { out.new ≡ written out.old (flattened s.now (length out.old)) }
{
    let sum = tree::read_accepted(s, table, Keep::Sizes, marks)?;
    if sum.far < 64 {
        return Err(Refusal(8, sum.far as usize));
    }
    let size = sum.size;
    if out.len() < size {
        return Err(Refusal(9, size));
    }
    let count = sum.count;
    out[0] = count;
    write_templates(s, table, marks, count as usize, out);
    Ok(size)
}

// The same with a table of CELLS numbers and MARKS marks of its own, one for each 5 bits, where they are enough. It is not inlined: tables of several
// sizes would share one frame.
#[inline(never)]
fn flatten_sized<const CELLS: usize, const MARKS: usize>(s: &[u8], out: &mut [u8]) -> Outcome
    requires { (CELLS ≤ 16384) × (MARKS ≤ 104858) × RoomFor s.now CELLS × (length s.now ≤ 65536 → 8 * length s.now ≤ 5 * MARKS) }
    ensures value { result ≡ answered (flattened s.now (length out.old)) }
    ensures out_after { out.new ≡ written out.old (flattened s.now (length out.old)) }
{
    let mut table = [0u64; CELLS];
    let mut marks = [0u32; MARKS];
    flatten_marked(s, &mut table, &mut marks, out)
}

// Flattens a tree file into an output, with tables for the file's size.
#[tactic(auto, unfolding(tree::specs::Tiers::InTier))]
pub fn flatten(s: &[u8], out: &mut [u8]) -> Outcome
    ensures value { result ≡ answered (flattened s.now (length out.old)) }
    ensures out_after { out.new ≡ written out.old (flattened s.now (length out.old)) }
{
    match tree::tier_of(s) {
        Tier::Small => flatten_sized::<1024, 820>(s, out),
        Tier::Middle => flatten_sized::<4096, 6554>(s, out),
        Tier::Many => flatten_sized::<16384, 6554>(s, out),
        Tier::Large => flatten_sized::<16384, 104858>(s, out),
    }
}
