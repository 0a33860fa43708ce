// Joining a prologue and a file (document 02, request 10).
#![tactic(auto)]

ghost use Rattle.std.specs.Prelude.{◌≡◌, ◌++◌, ℕ, ◌+◌, ◌*◌, ◌-◌, ◌≤◌, ◌<◌, length, get_or, replicate, leb};
ghost use Rattle.files.specs.Code.{Code};
ghost use Rattle.files.specs.Reading.{got, list_at};
ghost use Rattle.tree.specs.Summary.{judged_told};
ghost use Rattle.tree.specs.Filled.{tree_filled};
ghost use Rattle.bit_writer.specs.Put.{put_bits};
ghost use Rattle.tree_file.specs.File.{levels};
ghost use Rattle.rewrite.specs.Tokens.{index_in, tokens_bits, renewed, TokensAt};
ghost use Rattle.files.specs.Outcome.{answered, written};
ghost use Rattle.join.specs.Join.{is_prologue, operand_checked, joined_file};
ghost use Rattle.join.specs.Operands.{CodeAt, Operand, Unclosed, PrologueAt, ToJoin, first_of, joint_of, turn_of, file_end};
ghost use Rattle.join.specs.Copied.{entries_of, entries_copied, lists_copied};

use cells::BitPlace;
use files::{Outcome, Refusal};
use lists::{Keep, Shape};
use tree::Summary;

// The first template of a file: E, the first bit of its list and the place past it.
#[derive(Clone, Copy)]
pub struct First {
    pub entries: usize,
    pub start: BitPlace,
    pub past: BitPlace,
}

// Where in a prologue's list the file's code goes, and in how many saved lists that is.
#[derive(Clone, Copy)]
pub struct Joint {
    pub place: BitPlace,
    pub depth: usize,
}

// What an instruction says of the joint: it is there, past the instruction, or in its saved list.
#[derive(Clone, Copy)]
pub enum Turn {
    There,
    Past(BitPlace),
    Within(BitPlace),
}

// ---- the operands

// Whether a file of so many templates, which was read, is a prologue, where `unclosed` is the lowest whose list is not closed: no list is read again where
// all are closed.
fn is_prologue(s: &[u8], table: &[u64; 16384], count: u8, unclosed: u8) -> bool
    requires { (length s.now ≤ 65536) × Unclosed s.now table.now count unclosed }
    ensures { (w : Operand s.now table.now count) → result ≡ is_prologue w.templates }
{
    if count != 1 {
        return false;
    }
    if 64 <= unclosed {
        return false;
    }
    let mut none = [0u32; 1];
    match lists::read_list(
        s,
        table,
        0,
        BitPlace::from_slot(table[0]),
        15,
        Keep::Pasts,
        &mut none,
    ) {
        Ok((_, facts)) => facts.class.is_open(),
        Err(_) => false,
    }
}

// Reads and judges an operand, 1 to 7, and fills a table: a prologue, or, where `or_closed` says so, also a file whose lists are closed.
fn read_operand(
    s: &[u8],
    table: &mut [u64; 16384],
    or_closed: bool,
) -> Result<Summary, Refusal<usize>>
    requires { table.old ≡ replicate 16384 0 }
    ensures value { result ≡ judged_told (operand_checked or_closed s.now) }
    ensures table_after { table.new ≡ tree_filled s.now table.old }
{
    let mut none = [0u32; 1];
    let sum = tree::read_tree(s, table, Keep::Pasts, &mut none)?;
    if !is_prologue(s, table, sum.count, sum.unclosed) {
        if !or_closed {
            return Err(Refusal(6, 0));
        }
        if sum.unclosed < 64 {
            return Err(Refusal(6, sum.unclosed as usize));
        }
    }
    if sum.misnamed < 64 {
        return Err(Refusal(7, sum.misnamed as usize));
    }
    Ok(sum)
}

// ---- where things stand

// The place past a list that is known to be read.
fn past_list(s: &[u8], table: &[u64; 16384], own: usize, at: BitPlace, levels: usize) -> BitPlace
    requires { (length s.now ≤ 65536) × (own < 64) }
    ensures { (c : Code) (q : ℕ) → list_at s.now levels at.0 ≡ got c q → result.0 ≡ q }
{
    let mut none = [0u32; 1];
    match lists::read_list(s, table, own, at, levels, Keep::Pasts, &mut none) {
        Ok((next, _)) => next,
        Err(Refusal(_, next)) => next,
    }
}

fn first_template(s: &[u8], table: &[u64; 16384], count: u8) -> First
    requires { Operand s.now table.now count }
    ensures { (w : Operand s.now table.now count) → result ≡ first_of w.templates }
{
    let start = BitPlace::from_slot(table[0]);
    let past = past_list(s, table, 0, start, 15);
    let entries = fields::bits_at(s, BitPlace(8), 8) as usize;
    First {
        entries,
        start,
        past,
    }
}

// The place past the last list of a file, where the first template is known: no list is read again where it is the only one.
fn file_end(s: &[u8], table: &[u64; 16384], count: u8, first: First) -> BitPlace
    requires operand { Operand s.now table.now count }
    requires first_is { (w : Operand s.now table.now count) → first ≡ first_of w.templates }
    ensures { (w : Operand s.now table.now count) → result.0 ≡ file_end w.templates }
{
    if count == 1 {
        return first.past;
    }
    let own = count as usize - 1;
    let slot = 256 * own;
    past_list(s, table, own, BitPlace::from_slot(table[slot]), 15)
}

// What the instruction at a place says of the joint, with `levels` levels left below its list.
#[tactic(auto, unfolding(lists::specs::Shapes::Numbered))]
fn turn_at(s: &[u8], table: &[u64; 16384], here: BitPlace, levels: usize) -> Turn
    requires { (length s.now ≤ 65536) × CodeAt s.now levels here.0 }
    ensures { (w : CodeAt s.now levels here.0) → result ≡ turn_of here.0 w.code }
{
    match lists::shape_of(fields::bits_at(s, here, 5)) {
        Shape::End => Turn::There,
        Shape::Plain(operands) => Turn::Past(here.past(5 + 8 * operands)),
        Shape::Branch => {
            let mid = past_list(s, table, 0, here.past(5), levels - 1);
            Turn::Past(past_list(s, table, 0, mid, levels - 1))
        }
        Shape::Save => Turn::Within(here.past(13)),
        Shape::NoCode => unreachable!(),
    }
}

// Where in the list at a place another goes.
fn find_joint(s: &[u8], table: &[u64; 16384], at: BitPlace) -> Joint
    requires { (length s.now ≤ 65536) × CodeAt s.now 15 at.0 }
    ensures { (w : CodeAt s.now 15 at.0) → result ≡ joint_of at.0 w.code }
{
    let mut here = at;
    let mut levels: usize = 15;
    loop {
        match turn_at(s, table, here, levels) {
            Turn::There => {
                return Joint {
                    place: here,
                    depth: 15 - levels,
                };
            }
            Turn::Past(next) => {
                here = next;
            }
            Turn::Within(next) => {
                here = next;
                levels -= 1;
            }
        }
    }
}

// Whether the list at a place has at most so many levels below it. A list that was read has at most 15, and is not read again to know that.
fn levels_fit(s: &[u8], table: &[u64; 16384], at: BitPlace, most: usize) -> bool
    requires { (length s.now ≤ 65536) × (most ≤ 15) }
    ensures { (w : CodeAt s.now 15 at.0) → result ≡ leb (levels w.code) most }
{
    if most == 15 {
        return true;
    }
    let mut none = [0u32; 1];
    lists::read_list(s, table, 0, at, most, Keep::Pasts, &mut none).is_ok()
}

// ---- the joined file

// Indices moved up by n, as far as they stay below 256.
fn move_indices(n: usize, indices: &mut [u8; 256])
    requires { n ≤ 255 }
    ensures { (i : ℕ) → n + i < 256 → get_or indices.new i 0 ≡ n + i }
{
    for i in 0..256 - n {
        indices[i] = (n + i) as u8;
    }
}

// T, E, the prologue's entries and the file's.
fn put_entries(
    a: &[u8],
    from: BitPlace,
    b: &[u8],
    second: BitPlace,
    count: u8,
    entries: usize,
    out: &mut [u8],
) -> BitPlace
    requires sizes { (length a.now ≤ 65536) × (length b.now ≤ 65536) × (length out.old ≤ 262144) × (entries ≤ 255) }
    requires lists_in { (16 ≤ from.0) × (from.0 ≤ 8 * length a.now) × (16 ≤ second.0) × (second.0 ≤ 8 * length b.now) }
    requires room { from.0 + second.0 ≤ 16 + 8 * length out.old }
    ensures place_after { result.0 ≡ from.0 + second.0 - 16 }
    ensures out_after { out.new ≡ put_bits out.old 0 (entries_of a.now from.0 b.now second.0 count entries) }
{
    let first = BitPlace(16);
    let after_count = bit_writer::put_field(out, BitPlace(0), 8, count as u32);
    let after_number = bit_writer::put_field(out, after_count, 8, entries as u32);
    let after_first = bit_writer::copy_bits(a, first, from.since(first), out, after_number);
    bit_writer::copy_bits(b, first, second.since(first), out, after_first)
}

// The prologue's list up to the joint, the file's without its code 0 and with moved indices, the rest of the prologue's, the other templates.
fn put_lists(
    a: &[u8],
    x: First,
    joint: BitPlace,
    b: &[u8],
    y: First,
    end: BitPlace,
    indices: &[u8; 256],
    out: &mut [u8],
    at: BitPlace,
) -> BitPlace
    requires sizes { (length a.now ≤ 65536) × (length b.now ≤ 65536) × (length out.old ≤ 262144) }
    requires joint_in { (x.start.0 ≤ joint.0) × (joint.0 ≤ x.past.0) × (x.past.0 ≤ 8 * length a.now) }
    requires file_in { (y.start.0 + 5 ≤ y.past.0) × (y.past.0 ≤ end.0) × (end.0 ≤ 8 * length b.now) }
    requires room { at.0 + (x.past.0 - x.start.0) + (end.0 - y.start.0) ≤ 5 + 8 * length out.old }
    requires tokens_at { TokensAt b.now y.start.0 (y.past.0 - y.start.0 - 5) }
    ensures { (w : TokensAt b.now y.start.0 (y.past.0 - y.start.0 - 5)) →
        out.new ≡ put_bits out.old at.0
        (lists_copied a.now x joint.0 b.now y end.0 (tokens_bits (renewed (index_in indices.now) w.all))) }
{
    let in_list = bit_writer::copy_bits(a, x.start, joint.since(x.start), out, at);
    let in_file = rewrite::rewrite(b, y.start, y.past.since(y.start) - 5, indices, out, in_list);
    let in_rest = bit_writer::copy_bits(a, joint, x.past.since(joint), out, in_file);
    bit_writer::copy_bits(b, y.past, end.since(y.past), out, in_rest)
}

// The joined file's bits from the output's start on.
fn write_joined(
    a: &[u8],
    x: First,
    joint: BitPlace,
    b: &[u8],
    y: First,
    end: BitPlace,
    count: u8,
    indices: &[u8; 256],
    out: &mut [u8],
)
    requires sizes { (length a.now ≤ 65536) × (length b.now ≤ 65536) × (length out.old ≤ 262144) }
    requires joint_in { (16 ≤ x.start.0) × (x.start.0 ≤ joint.0) × (joint.0 ≤ x.past.0) × (x.past.0 ≤ 8 * length a.now) }
    requires file_in { (16 ≤ y.start.0) × (y.start.0 + 5 ≤ y.past.0) × (y.past.0 ≤ end.0) × (end.0 ≤ 8 * length b.now) }
    requires entries_few { x.entries + y.entries ≤ 255 }
    requires room { x.past.0 + end.0 ≤ 21 + 8 * length out.old }
    requires tokens_at { TokensAt b.now y.start.0 (y.past.0 - y.start.0 - 5) }
    ensures { (w : TokensAt b.now y.start.0 (y.past.0 - y.start.0 - 5)) →
        out.new ≡ put_bits out.old 0
        (entries_copied a.now x b.now y count ++
        lists_copied a.now x joint.0 b.now y end.0 (tokens_bits (renewed (index_in indices.now) w.all))) }
{
    let entries = x.entries + y.entries;
    let at = put_entries(a, x.start, b, y.start, count, entries, out);
    put_lists(a, x, joint, b, y, end, indices, out, at);
}

// Joins two operands that were judged: 30, 4, 1, 9, then the file.
fn join_both(
    a: &[u8],
    first: &[u64; 16384],
    b: &[u8],
    second: &[u64; 16384],
    count: u8,
    out: &mut [u8],
) -> Outcome
    requires { ToJoin a.now first.now b.now second.now count }
    ensures value { result ≡ answered (joined_file a.now b.now (length out.old)) }
    ensures out_after { out.new ≡ written out.old (joined_file a.now b.now (length out.old)) }
{
    let x = first_template(a, first, 1);
    let y = first_template(b, second, count);
    if 255 < x.entries + y.entries {
        return Err(Refusal(30, 0));
    }
    let joint = find_joint(a, first, x.start);
    if levels_fit(b, second, y.start, 15 - joint.depth) {
        let end = file_end(b, second, count, y);
        let size = (x.past.since(BitPlace(16)) + end.since(BitPlace(5)) + 7) / 8;
        if 65536 < size {
            return Err(Refusal(1, 0));
        }
        if out.len() < size {
            return Err(Refusal(9, size));
        }
        let mut indices = [0u8; 256];
        move_indices(x.entries, &mut indices);
        write_joined(
            a,
            x,
            joint.place,
            b,
            y,
            end,
            count,
            &indices,
            &mut out[..size],
        );
        return Ok(size);
    }
    Err(Refusal(4, 0))
}

// Joins a prologue that was judged and a file.
fn join_second(a: &[u8], first: &[u64; 16384], b: &[u8], out: &mut [u8]) -> Outcome
    requires { PrologueAt a.now first.now }
    ensures value { result ≡ answered (joined_file a.now b.now (length out.old)) }
    ensures out_after { out.new ≡ written out.old (joined_file a.now b.now (length out.old)) }
{
    let mut second = [0u64; 16384];
    let sum = read_operand(b, &mut second, true)?;
    join_both(a, first, b, &second, sum.count, out)
}

// Joins a prologue and a file into an output.
pub fn join(prologue: &[u8], file: &[u8], out: &mut [u8]) -> Outcome
    ensures value { result ≡ answered (joined_file prologue.now file.now (length out.old)) }
    ensures out_after { out.new ≡ written out.old (joined_file prologue.now file.now (length out.old)) }
{
    let mut first = [0u64; 16384];
    read_operand(prologue, &mut first, false)?;
    join_second(prologue, &first, file, out)
}
