// From a linear file back to the one tree file that flattens to it (request 13). The offsets cut the code into regions from outside in;
// each region's list is judged and put into the tree in one pass. A list takes at most eight bits for each byte of its region and five
// more, so the tree is never longer than the linear file.
#![tactic(auto)]

ghost use Rattle.std.specs.Prelude.{◌≡◌, ◌&&◌, List, ℕ, ◌+◌, ◌*◌, ◌-◌, ◌≤◌, ◌<◌, Some, length, get_or, take, replicate};
ghost use Rattle.files.specs.Codes.{shape_of};
ghost use Rattle.lists.specs.Facts.{slot_named};
ghost use Rattle.lists.specs.Shapes.{Numbered};
ghost use Rattle.back.specs.Unflat.{after, ends_in_jump};
ghost use Rattle.unflatten.specs.Found.{part, found, offset_at};
ghost use Rattle.unflatten.specs.declared.Head.TheVariants.{Plain, Split, Save};
ghost use Rattle.unflatten.specs.Heads.{plain_passes, open_head, HeadIs};
ghost use Rattle.std.proofs.lemmas.List.Edits.{sets};
ghost use Rattle.fields.specs.Field.{field_at};
ghost use Rattle.files.specs.Reading.{got};
ghost use Rattle.files.specs.Entries.{field};
ghost use Rattle.files.specs.EntriesRead.{slots_at};
ghost use Rattle.unflatten.specs.Back.{backed, given};
ghost use Rattle.files.specs.Outcome.{answered, written};
ghost use Rattle.unflatten.specs.ToGrow.{CodeIn, Grows, TemplateIn, TemplateGrows, TemplatesIn, TemplatesGrow, FileIn};
ghost use Rattle.unflatten.specs.ToPut.{Puts, TwoPut, arms_size, ArmsIn, Steps};

use cells::BitPlace;
use files::{Outcome, Refusal};
use lists::Shape;

// The arms of a conditional: whether they are closed, where the first ends, where the second begins and ends.
#[derive(Clone, Copy)]
pub struct Arms {
    pub closed: bool,
    pub mid: usize,
    pub turn: usize,
    pub end: usize,
}

// What a region begins with.
#[derive(Clone, Copy)]
pub enum Head {
    // a code with so many operand bytes
    Plain(usize),
    // jump-if-false
    Split(Arms),
    // make-cont, whose saved list begins at a byte
    Save(usize),
}

// The region of a list, or of what is left of one, and whether that is to be closed (else it is open or empty).
#[derive(Clone, Copy)]
pub struct Region {
    pub from: usize,
    pub to: usize,
    pub closed: bool,
}

// A linear file, and the run's table, whose row `own` has the entries of the template that is put.
#[derive(Clone, Copy)]
pub struct Source<'a> {
    pub file: &'a [u8],
    pub table: &'a [u64; 16384],
    pub own: usize,
    ghost short: { length file.now ≤ 262144 },
    ghost within: { own < 64 },
}

// How a code is followed in a tree; a byte above 31 is no code.
#[tactic(auto, unfolding(lists::specs::Shapes::Numbered))]
fn shape(code: u8) -> Shape
    ensures { Numbered result (shape_of code) }
{
    if 31 < code {
        return Shape::NoCode;
    }
    lists::shape_of(code as u32)
}

// How many bytes follow a code in linear code; 5, which decides nothing, after a byte that is no code.
#[tactic(auto, unfolding(lists::specs::Shapes::Numbered))]
fn after(code: u8) -> usize
    ensures { result ≡ after code }
{
    if code == 5 {
        return 2;
    }
    match shape(code) {
        Shape::End => 0,
        Shape::Plain(operands) => operands,
        Shape::Branch => 2,
        Shape::Save => 3,
        Shape::NoCode => 5,
    }
}

// Whether the last instruction of a region is a jump, by going from its start over whole instructions.
fn ends_in_jump(s: &[u8], from: usize, to: usize) -> bool
    requires { (length s.now ≤ 262144) × (from ≤ to) × (to ≤ length s.now) }
    ensures { result ≡ ends_in_jump (part from to s.now) }
{
    let mut p = from;
    let mut last: u8 = 0;
    while p < to {
        last = s[p];
        p = p + 1 + after(last);
    }
    if to < p {
        return false;
    }
    last == 5
}

// The offset at a byte.
fn offset_at(s: &[u8], at: usize) -> usize
    requires { at + 2 ≤ length s.now }
    ensures { result ≡ offset_at s.now at }
{
    256 * (s[at] as usize) + s[at + 1] as usize
}

// A conditional at p whose first region, up to `turn`, ends in a jump: both arms are open, so neither is empty.
fn open_arms(s: &[u8], p: usize, turn: usize, to: usize) -> Option<Head>
    requires { (length s.now ≤ 262144) × (p + 3 ≤ turn) × (turn ≤ to) × (to ≤ length s.now) }
    ensures { result ≡ open_head s.now p turn to }
{
    if turn - p < 7 {
        return None;
    }
    let n = offset_at(s, turn - 2);
    if n == 0 {
        return None;
    }
    if to - turn < n {
        return None;
    }
    Some(Head::Split(Arms {
        closed: false,
        mid: turn - 3,
        turn,
        end: turn + n,
    }))
}

// A conditional at the start of a region, with `levels` levels left below its list.
fn conditional(s: &[u8], region: Region, levels: usize) -> Option<Head>
    requires { (length s.now ≤ 262144) × (region.from < region.to) × (region.to ≤ length s.now) × (get_or s.now region.from 0 ≡ 3) }
    ensures { HeadIs s.now levels region.closed region.from region.to result }
{
    let Region {
        from: p,
        to,
        closed,
    } = region;
    if levels == 0 {
        return None;
    }
    if to - p < 3 {
        return None;
    }
    let n = offset_at(s, p + 1);
    if to - (p + 3) < n {
        return None;
    }
    let turn = p + 3 + n;
    if ends_in_jump(s, p + 3, turn) {
        return open_arms(s, p, turn, to);
    }
    if closed {
        return Some(Head::Split(Arms {
            closed: true,
            mid: turn,
            turn,
            end: to,
        }));
    }
    None
}

// A make-cont at the start of a region, with `levels` levels left below its list.
fn make_cont(s: &[u8], region: Region, levels: usize) -> Option<Head>
    requires { (length s.now ≤ 262144) × (region.from < region.to) × (region.to ≤ length s.now) × (get_or s.now region.from 0 ≡ 4) }
    ensures { HeadIs s.now levels region.closed region.from region.to result }
{
    let Region { from: p, to, .. } = region;
    if levels == 0 {
        return None;
    }
    if to - p < 4 {
        return None;
    }
    let n = offset_at(s, p + 1);
    if to - (p + 4) < n {
        return None;
    }
    Some(Head::Save(p + 4 + n))
}

// Return or call at the start of a region, with n operands: the last of a closed region.
fn ending(s: &[u8], region: Region, n: usize, levels: usize) -> Option<Head>
    requires { (length s.now ≤ 262144) × (region.from < region.to) × (region.to ≤ length s.now) × (get_or s.now region.from 0 ≡ n + 1) × (n ≤ 1) }
    ensures { HeadIs s.now levels region.closed region.from region.to result }
{
    if region.to - region.from != 1 + n {
        return None;
    }
    if region.closed {
        return Some(Head::Plain(n));
    }
    None
}

// A code at the start of a region that can only be a neutral one.
#[tactic(auto, unfolding(lists::specs::Shapes::Numbered))]
fn neutral(s: &[u8], region: Region, levels: usize) -> Option<Head>
    requires { (length s.now ≤ 262144) × (region.from < region.to) × (region.to ≤ length s.now) × (5 ≤ get_or s.now region.from 0) }
    ensures { HeadIs s.now levels region.closed region.from region.to result }
{
    let Shape::Plain(operands) = shape(s[region.from]) else {
        return None;
    };
    if region.to - region.from < 1 + operands {
        return None;
    }
    Some(Head::Plain(operands))
}

// What a region that is not empty begins with, with `levels` levels left below its list; none, if with no list's first instruction.
fn first_of(s: &[u8], region: Region, levels: usize) -> Option<Head>
    requires { (length s.now ≤ 262144) × (region.from < region.to) × (region.to ≤ length s.now) }
    ensures { HeadIs s.now levels region.closed region.from region.to result }
{
    match s[region.from] {
        0 => None,
        1 => ending(s, region, 0, levels),
        2 => ending(s, region, 1, levels),
        3 => conditional(s, region, levels),
        4 => make_cont(s, region, levels),
        _ => neutral(s, region, levels),
    }
}

// Whether the instruction at p, with n operands, passes: a neutral code's index, and every other.
fn passes(source: &Source, p: usize, n: usize) -> bool
    requires { p + 1 + n ≤ length source.now.file.now }
    ensures { result ≡ plain_passes (slot_named source.now.table.now source.now.own) (get_or source.now.file.now p 0)
        (part (p + 1) (p + 1 + n) source.now.file.now) }
{
    let code = source.file[p];
    if code <= 5 {
        return true;
    }
    let table = source.table;
    if n == 0 {
        return lists::slot_named(table, source.own, code as u32, 0);
    }
    lists::slot_named(table, source.own, code as u32, source.file[p + 1] as u32)
}

// The instruction without lists at the start of a region, with n operands; what is left of the region, and the place past the instruction.
fn put_plain(
    source: &Source,
    region: Region,
    levels: usize,
    n: usize,
    out: &mut [u8],
    at: BitPlace,
) -> Option<(Region, BitPlace)>
    requires { (region.to ≤ length source.now.file.now) × (length out.old ≤ 262144)
        × (at.0 + 8 * (region.to - region.from) + 5 ≤ 8 * length out.old)
        × HeadIs source.now.file.now levels region.closed region.from region.to (Some (Plain n)) }
    ensures { Steps (slot_named source.now.table.now source.now.own) source.now.file.now levels region.closed region.from region.to
        out.old at.0 result out.new }
{
    let p = region.from;
    if !passes(source, p, n) {
        return None;
    }
    let code = source.file[p];
    let next = bit_writer::put_field(out, at, 5, code as u32);
    let past = bit_writer::copy_bits(source.file, BitPlace(8 * (p + 1)), 8 * n, out, next);
    let closed = 5 < code && region.closed;
    Some((
        Region {
            from: p + 1 + n,
            closed,
            ..region
        },
        past,
    ))
}

// Two lists one after the other: the arms of the conditional at p, with `levels` levels left below them; the place past them.
#[cycle(put_arms_put_conditional_put_instr_put_list_put_make_cont)]
fn put_arms(
    source: &Source,
    p: usize,
    arms: Arms,
    levels: usize,
    out: &mut [u8],
    at: BitPlace,
) -> Option<BitPlace>
    requires { (length out.old ≤ 262144) × ArmsIn source.now.file.now out.old p arms at.0 }
    ensures { TwoPut (arms_size p arms) out.old at.0
        (found (slot_named source.now.table.now source.now.own) levels arms.closed (part (p + 3) arms.mid source.now.file.now))
        (found (slot_named source.now.table.now source.now.own) levels arms.closed (part arms.turn arms.end source.now.file.now)) result out.new }
{
    let closed = arms.closed;
    let first = Region {
        from: p + 3,
        to: arms.mid,
        closed,
    };
    let mid = put_list(source, first, levels, out, at)?;
    let second = Region {
        from: arms.turn,
        to: arms.end,
        closed,
    };
    put_list(source, second, levels, out, mid)
}

// The conditional at the start of a region, with `levels` levels left below its list; what is left of the region, and the place past it.
#[cycle(put_arms_put_conditional_put_instr_put_list_put_make_cont)]
fn put_conditional(
    source: &Source,
    region: Region,
    levels: usize,
    arms: Arms,
    out: &mut [u8],
    at: BitPlace,
) -> Option<(Region, BitPlace)>
    requires { (region.to ≤ length source.now.file.now) × (length out.old ≤ 262144)
        × (at.0 + 8 * (region.to - region.from) + 5 ≤ 8 * length out.old)
        × HeadIs source.now.file.now levels region.closed region.from region.to (Some (Split arms)) }
    ensures { Steps (slot_named source.now.table.now source.now.own) source.now.file.now levels region.closed region.from region.to
        out.old at.0 result out.new }
{
    let next = bit_writer::put_field(out, at, 5, 3);
    let past = put_arms(source, region.from, arms, levels - 1, out, next)?;
    let closed = !arms.closed && region.closed;
    Some((
        Region {
            from: arms.end,
            closed,
            ..region
        },
        past,
    ))
}

// The make-cont at the start of a region, whose saved list begins at `cut`, with `levels` levels left below its list; what is left of the
// region, and the place past the saved list.
#[cycle(put_arms_put_conditional_put_instr_put_list_put_make_cont)]
fn put_make_cont(
    source: &Source,
    region: Region,
    levels: usize,
    cut: usize,
    out: &mut [u8],
    at: BitPlace,
) -> Option<(Region, BitPlace)>
    requires { (region.to ≤ length source.now.file.now) × (length out.old ≤ 262144)
        × (at.0 + 8 * (region.to - region.from) + 5 ≤ 8 * length out.old)
        × HeadIs source.now.file.now levels region.closed region.from region.to (Some (Save cut)) }
    ensures { Steps (slot_named source.now.table.now source.now.own) source.now.file.now levels region.closed region.from region.to
        out.old at.0 result out.new }
{
    let p = region.from;
    let next = bit_writer::put_field(out, at, 5, 4);
    let count = bit_writer::put_field(out, next, 8, source.file[p + 3] as u32);
    let saved = Region {
        from: cut,
        ..region
    };
    let past = put_list(source, saved, levels - 1, out, count)?;
    let left = Region {
        from: p + 4,
        to: cut,
        closed: true,
    };
    Some((left, past))
}

// The first instruction of a region that is not empty; what is left of the region, and the place past the instruction.
#[cycle(put_arms_put_conditional_put_instr_put_list_put_make_cont)]
fn put_instr(
    source: &Source,
    region: Region,
    levels: usize,
    out: &mut [u8],
    at: BitPlace,
) -> Option<(Region, BitPlace)>
    requires { (region.from < region.to) × (region.to ≤ length source.now.file.now) × (length out.old ≤ 262144)
        × (at.0 + 8 * (region.to - region.from) + 5 ≤ 8 * length out.old) }
    ensures { Steps (slot_named source.now.table.now source.now.own) source.now.file.now levels region.closed region.from region.to
        out.old at.0 result out.new }
{
    match first_of(source.file, region, levels)? {
        Head::Plain(n) => put_plain(source, region, levels, n, out, at),
        Head::Split(arms) => put_conditional(source, region, levels, arms, out, at),
        Head::Save(cut) => put_make_cont(source, region, levels, cut, out, at),
    }
}

// The list of a region, with `levels` levels left below it; the place past it.
#[cycle(put_arms_put_conditional_put_instr_put_list_put_make_cont)]
fn put_list(
    source: &Source,
    region: Region,
    levels: usize,
    out: &mut [u8],
    at: BitPlace,
) -> Option<BitPlace>
    requires { (region.from ≤ region.to) × (region.to ≤ length source.now.file.now) × (length out.old ≤ 262144)
        × (at.0 + 8 * (region.to - region.from) + 5 ≤ 8 * length out.old) }
    ensures { Puts (region.to - region.from) out.old at.0
        (found (slot_named source.now.table.now source.now.own) levels region.closed (part region.from region.to source.now.file.now)) result out.new }
{
    let mut left = region;
    let mut here = at;
    while left.from < left.to {
        let (rest, next) = put_instr(source, left, levels, out, here)?;
        left = rest;
        here = next;
    }
    if left.closed {
        return None;
    }
    Some(bit_writer::put_field(out, here, 5, 0))
}

// The code whose length stands at byte `size`; the byte past it, and the place past its list in the tree.
fn put_code(source: &Source, size: usize, out: &mut [u8], at: BitPlace) -> Option<(usize, BitPlace)>
    requires { (length out.old ≤ 262144) × CodeIn source.now.file.now out.old size at.0 }
    ensures { (n q : ℕ) → field source.now.file.now (8 * size) 24 ≡ got n q
        → Grows (slot_named source.now.table.now source.now.own) source.now.file.now size n out.old at.0 result out.new }
{
    let (n, _) = fields::read_three(source.file, BitPlace(8 * size))?;
    let from = size + 3;
    let to = from + n as usize;
    let code = Region {
        from,
        to,
        closed: true,
    };
    let past = put_list(source, code, 15, out, at)?;
    Some((to, past))
}

// Template `own` of `count`, which stands at a byte: E and the entries as they are, and the list of its code; the byte past it, and the place
// past it in the tree. The file is one that is read.
fn put_template(
    s: &[u8],
    table: &mut [u64; 16384],
    own: usize,
    count: usize,
    byte: usize,
    out: &mut [u8],
    at: BitPlace,
) -> Option<(usize, BitPlace)>
    requires { (length s.now ≤ 262144) × (own < 64) × (count ≤ 64) × (length out.old ≤ 262144)
        × TemplateIn s.now table.old out.old own count byte at.0 }
    ensures template_grows { (w : TemplateIn s.now table.old out.old own count byte at.0)
        → TemplateGrows w.linear byte w.past out.old at.0 result out.new }
    ensures table_after { table.new
        ≡ sets table.old (256 * own + 1) (slots_at s.now own count (field_at s.now (8 * byte) 8) (8 * byte + 8)) }
{
    let here = BitPlace(8 * byte);
    let n = fields::bits_at(s, here, 8);
    let past = files::read_entries(s, table, own, count, n as usize, here.past(8)).ok()?;
    let next = bit_writer::copy_bits(s, here, past.since(here), out, at);
    let source = Source {
        file: s,
        table,
        own,
    };
    put_code(&source, past.past(7).byte(), out, next)
}

// The `count` templates, which stand from byte 1 on: the place past the last, or refusal 32 at the lowest to which no list flattens.
fn put_templates(
    s: &[u8],
    table: &mut [u64; 16384],
    count: usize,
    out: &mut [u8],
    at: BitPlace,
) -> Result<BitPlace, Refusal<usize>>
    requires { (length s.now ≤ 262144) × (count ≤ 64) × (length out.old ≤ 262144)
        × TemplatesIn s.now table.old out.old 0 count 1 at.0 }
    ensures { (w : TemplatesIn s.now table.old out.old 0 count 1 at.0)
        → TemplatesGrow 0 w.linears out.old at.0 result out.new }
{
    let mut byte: usize = 1;
    let mut here = at;
    for own in 0..count {
        let put = put_template(s, table, own, count, byte, out, here);
        let (next, past) = put.ok_or(Refusal(32, own))?;
        byte = next;
        here = past;
    }
    Ok(here)
}

// The first n bytes of a tree into an output, if a tree may be so long and the output is long enough.
fn give(tree: &[u8], n: usize, out: &mut [u8]) -> Outcome
    requires { n ≤ length tree.now }
    ensures value { result ≡ answered (given (take n tree.now) (length out.old)) }
    ensures out_after { out.new ≡ written out.old (given (take n tree.now) (length out.old)) }
{
    if 65536 < n {
        return Err(Refusal(32, 0));
    }
    if out.len() < n {
        return Err(Refusal(9, n));
    }
    out[..n].copy_from_slice(&tree[..n]);
    Ok(n)
}

// The way back of a file that is read, with a zeroed table and room for the longest tree.
fn back_read(s: &[u8], table: &mut [u64; 16384], tree: &mut [u8; 262144], out: &mut [u8]) -> Outcome
    requires { FileIn s.now × (table.old ≡ replicate 16384 0) }
    ensures value { result ≡ answered (backed s.now (length out.old)) }
    ensures out_after { out.new ≡ written out.old (backed s.now (length out.old)) }
{
    let count = fields::bits_at(s, BitPlace(0), 8);
    let first = bit_writer::put_field(tree, BitPlace(0), 8, count);
    let end = put_templates(s, table, count as usize, tree, first)?;
    give(tree, end.past(7).byte(), out)
}

// From a linear file back to the one tree file that flattens to it, or a refusal: 1, 2, 3 and 5 as the linear machine gives them; 32 where no
// accepted tree file flattens to these bytes; 9.
pub fn back(s: &[u8], out: &mut [u8]) -> Outcome
    ensures value { result ≡ answered (backed s.now (length out.old)) }
    ensures out_after { out.new ≡ written out.old (backed s.now (length out.old)) }
{
    let mut table = [0u64; 16384];
    let mut tree = [0u8; 262144];
    linear::check_linear(s)?;
    back_read(s, &mut table, &mut tree, out)
}
