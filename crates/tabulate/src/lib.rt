// The tabulator (document 02, request 6): from a basic file to our tree file. A file is read and judged; then each template's own list is walked over, code
// by code, once to count its entries and bits and once to write them. An entry is found by a scan over those that the template has so far, at most 255.
#![tactic(auto)]

ghost use Rattle.std.specs.Prelude.{◌≡◌, List, [], ◌++◌, ℕ, suc, ◌+◌, ◌*◌, ◌-◌, ◌^◌, ◌≤◌, ◌<◌, length, take, Ok, IsSomeAnd};
ghost use Rattle.files.specs.Entries.{Entry};
ghost use Rattle.basic.specs.Basic.{Basic};
ghost use Rattle.basic.specs.Forest.{Lists};
ghost use Rattle.tabulate.specs.Walk.{StepIs, Walk, NextIs};
ghost use Rattle.files.specs.Reading.{got};
ghost use Rattle.basic.specs.Reading.{list_at};
ghost use Rattle.basic.specs.Told.{class_of};
ghost use Rattle.lists.specs.Facts.{says_closed};
ghost use Rattle.basic.specs.Tabulated.{entries_of, indexed, template_of, tabulated};
ghost use Rattle.basic.specs.Forest.{own_bits};
ghost use Rattle.tabulate.specs.Slots.{position, Added};
ghost use Rattle.files.specs.Linear.{bits_of, entry_bits, entries_bits};
ghost use Rattle.tree_file.specs.File.{list_bits, template_bits, templates_bits, tree_file};
ghost use Rattle.basic.specs.Checked.{tabulated_file};
ghost use Rattle.files.specs.Outcome.{answered, written};
ghost use Rattle.tabulate.specs.Put.{PutAt, EntriesIn, CodeIn, TemplateIn, TemplatesIn, WholeIn};
ghost use Rattle.tabulate.specs.Judge.{ListIn, ClosedIs, FewIn, MeasuredIs, JudgedIn, CheckedIs};
ghost use Rattle.tabulate.specs.Collect.{OwnList, CollectedIs, slot_bits, slots_bits, SlotAt};

use basic::Token;
use cells::BitPlace;
use files::{Outcome, Refusal};

// What stands at a place of a template's own list: a code that is written as it is, up to a place; a code that carries an entry, as a slot; closure, whose
// list begins at a place.
#[derive(Clone, Copy)]
enum Step {
    Copy(BitPlace),
    Entry(u32, u64, BitPlace),
    Closure(BitPlace),
}

// The code at a place. A slot has the tag of a constant and its number below it, 6 and the number of a global, 7 and the number of a template.
fn step_at(s: &[u8], at: BitPlace) -> Option<Step>
    requires { length s.now ≤ 262144 }
    ensures { (e : ℕ) (cs : List Basic) → at.0 < e → Lists s.now e at.0 cs → IsSomeAnd result (λ step. StepIs s.now e at.0 cs step) }
{
    match basic::read_token(s, at, 15).ok()? {
        Token::End(next)
        | Token::Ending(next)
        | Token::Plain(next)
        | Token::Branch(next)
        | Token::Save(next) => Some(Step::Copy(next)),
        Token::Literal(t, x, next) => Some(Step::Entry(6, t as u64 * 0x1_0000_0000_0000 + x, next)),
        Token::Global(code, g, next) => Some(Step::Entry(
            code,
            0x6_0000_0000_0000 + g as u64,
            next,
        )),
        Token::Closure(next) => Some(Step::Closure(next)),
    }
}

// Where the list of the next closure begins, from a place on, in lists that end at a place.
fn next_closure(s: &[u8], at: BitPlace, end: BitPlace) -> Option<BitPlace>
    requires { (length s.now ≤ 262144) × Walk s.now at.0 end.0 }
    ensures { (w : Walk s.now at.0 end.0) (n : ℕ) → NextIs s.now end.0 n w.lists result }
{
    let mut here = at;
    while here.before(end) {
        let step = step_at(s, here)?;
        match step {
            Step::Copy(past) => {
                here = past;
            }
            Step::Entry(_, _, past) => {
                here = past;
            }
            Step::Closure(list) => {
                return Some(list);
            }
        }
    }
    None
}

// Where a slot stands among others: their number, where it does not.
fn find(slots: &[u64], slot: u64) -> usize
    ensures { result ≡ position slot slots.now }
{
    for i in 0..slots.len() {
        if slots[i] == slot {
            return i;
        }
    }
    slots.len()
}

// A slot put behind the first of a table, unless it is there; how many there are then.
fn add(table: &mut [u64; 256], count: usize, slot: u64) -> usize
    requires { count < 256 }
    ensures { Added table.old table.new count slot result }
{
    if find(&table[..count], slot) < count {
        return count;
    }
    table[count] = slot;
    count + 1
}

// ---- one template: its number is below n, which is the next one's

// The entries of the list from a place to its end, into a table's first slots. How many there are, and how many bits the list has with indices; nothing
// where there are more than 255.
fn collect(
    s: &[u8],
    at: BitPlace,
    end: BitPlace,
    n: usize,
    table: &mut [u64; 256],
) -> Option<(usize, usize)>
    requires { (length s.now ≤ 65536) × OwnList s.now at.0 end.0 n }
    ensures { (w : OwnList s.now at.0 end.0 n) → CollectedIs (entries_of n w.list) (own_bits w.list) table.new result }
{
    let mut here = at;
    let mut next = n;
    let mut count: usize = 0;
    let mut bits: usize = 0;
    while here.before(end) {
        let step = step_at(s, here)?;
        match step {
            Step::Copy(past) => {
                bits += past.since(here);
                here = past;
            }
            Step::Entry(_, slot, past) => {
                count = add(table, count, slot);
                if 255 < count {
                    return None;
                }
                bits += 13;
                here = past;
            }
            Step::Closure(list) => {
                let (past, x) = basic::read_list(s, list, 15).ok()?;
                count = add(table, count, 0x7_0000_0000_0000 + next as u64);
                if 255 < count {
                    return None;
                }
                bits += 13;
                next = next + 1 + x.inside;
                here = past;
            }
        }
    }
    Some((count, bits))
}

// How many bits a slot's entry has.
fn slot_bits(slot: u64) -> usize
    ensures { result ≡ slot_bits slot }
{
    match slot / 0x1_0000_0000_0000 {
        4 => 37,
        5 => 53,
        6 => 10,
        7 => 10,
        _ => 5,
    }
}

// How many bits the entries of slots have.
fn entries_bits(slots: &[u64]) -> usize
    requires { length slots.now ≤ 256 }
    ensures value { result ≡ slots_bits slots.now }
    ensures upper_bound { result ≤ 53 * length slots.now }
{
    let mut bits: usize = 0;
    for &slot in slots {
        bits += slot_bits(slot);
    }
    bits
}

// ---- all templates, in the order of their numbers

// The list at a place: whether it is closed, and the place past it.
fn is_closed(s: &[u8], at: BitPlace) -> bool
    requires { length s.now ≤ 65536 }
    ensures { (c : Basic) (q : ℕ) → list_at s.now 15 at.0 ≡ got c q → result ≡ says_closed (class_of c) }
{
    match basic::read_list(s, at, 15) {
        Ok((_, x)) => x.class.is_closed(),
        Err(_) => false,
    }
}

// 6, over all templates of a file whose list ends at a place: how many there are, or the lowest whose list is not closed.
fn judge_lists(s: &[u8], end: BitPlace) -> Result<usize, usize>
    requires { (length s.now ≤ 65536) × ListIn s.now end.0 }
    ensures { (w : ListIn s.now end.0) → ClosedIs w.list result }
{
    let mut here = BitPlace(0);
    let mut own: usize = 0;
    loop {
        if !is_closed(s, here) {
            return Err(own);
        }
        let Some(list) = next_closure(s, here, end) else {
            return Ok(own + 1);
        };
        here = list;
        own += 1;
    }
}

// How many bits all templates have; nothing where one has more than 255 entries. The table is for the entries of one.
fn measure(s: &[u8], end: BitPlace, table: &mut [u64; 256]) -> Option<usize>
    requires { (length s.now ≤ 65536) × FewIn s.now end.0 }
    ensures { (w : FewIn s.now end.0) → MeasuredIs (tabulated w.whole.list) result }
{
    let mut here = BitPlace(0);
    let mut own: usize = 0;
    let mut bits: usize = 0;
    loop {
        let (past, _) = basic::read_list(s, here, 15).ok()?;
        let (count, size) = collect(s, here, past, own + 1, table)?;
        bits += 8 + entries_bits(&table[..count]) + size;
        let Some(list) = next_closure(s, here, end) else {
            return Some(bits);
        };
        here = list;
        own += 1;
    }
}

// What checking a basic file finds: the place past its list, how many templates it has, and how many bits their file.
pub type CheckedFile = Result<(BitPlace, usize, usize), Refusal<usize>>;

// 26, over the templates of a file whose list ends at a place and whose lists are closed.
fn within_limits(s: &[u8], end: BitPlace, count: usize, table: &mut [u64; 256]) -> CheckedFile
    requires { (length s.now ≤ 65536) × JudgedIn s.now end.0 count }
    ensures { CheckedIs s.now result }
{
    if 64 < count {
        return Err(Refusal(26, 0));
    }
    match measure(s, end, table) {
        Some(bits) => {
            if 524288 < 8 + bits {
                return Err(Refusal(26, 0));
            }
            Ok((end, count, 8 + bits))
        }
        None => Err(Refusal(26, 0)),
    }
}

// Reads and judges a basic file: 1 to 6, 26. The table is for the entries of one template.
pub fn check_basic(s: &[u8], table: &mut [u64; 256]) -> CheckedFile
    ensures { CheckedIs s.now result }
{
    let end = basic::read_basic(s)?;
    match judge_lists(s, end) {
        Ok(count) => within_limits(s, end, count, table),
        Err(t) => Err(Refusal(6, t)),
    }
}

// ---- writing

// The entry that a slot tells.
fn put_entry(out: &mut [u8], at: BitPlace, slot: u64) -> BitPlace
    requires { (length out.old ≤ 65536) × SlotAt slot × (at.0 + slot_bits slot ≤ 8 * length out.old) }
    ensures { (w : SlotAt slot) → PutAt out.old at.0 (entry_bits w.entry) result.0 out.new }
{
    let kind = slot / 0x1_0000_0000_0000;
    let value = slot % 0x1_0000_0000_0000;
    match kind {
        6 => tree_file::put_numbered(out, at, 2, value as u8),
        7 => tree_file::put_numbered(out, at, 3, value as u8),
        _ => tree_file::put_constant(out, at, kind as u32, value),
    }
}

// The entries that slots tell.
fn put_entries(slots: &[u64], out: &mut [u8], at: BitPlace) -> BitPlace
    requires { (length slots.now ≤ 255) × (length out.old ≤ 65536) × EntriesIn slots.now (length slots.now) out.old at.0 }
    ensures { (w : EntriesIn slots.now (length slots.now) out.old at.0)
        → PutAt out.old at.0 (entries_bits w.entries) result.0 out.new }
{
    let mut here = at;
    for &slot in slots {
        here = put_entry(out, here, slot);
    }
    here
}

// A code and the index of a slot's entry.
fn put_index(slots: &[u64], slot: u64, code: u32, out: &mut [u8], at: BitPlace) -> BitPlace
    requires { (length slots.now ≤ 255) × (length out.old ≤ 65536) × (position slot slots.now < length slots.now) × (code < 32)
        × (at.0 + 13 ≤ 8 * length out.old) }
    ensures { PutAt out.old at.0 (bits_of 5 code ++ bits_of 8 (suc (position slot slots.now))) result.0 out.new }
{
    let i = find(slots, slot);
    let next = bit_writer::put_field(out, at, 5, code);
    bit_writer::put_field(out, next, 8, (i + 1) as u32)
}

// The list from a place to its end, with indices of the entries in a table's first slots.
fn put_code(
    s: &[u8],
    at: BitPlace,
    end: BitPlace,
    n: usize,
    table: &[u64; 256],
    count: usize,
    out: &mut [u8],
    place: BitPlace,
) -> BitPlace
    requires { (length s.now ≤ 65536) × (count ≤ 255) × (length out.old ≤ 65536)
        × CodeIn s.now table.now at.0 end.0 n count out.old place.0 }
    ensures { (w : CodeIn s.now table.now at.0 end.0 n count out.old place.0)
        → PutAt out.old place.0 (list_bits (indexed w.entries n w.own.list)) result.0 out.new }
{
    let mut here = at;
    let mut next = n;
    let mut past = place;
    while here.before(end) {
        let Some(step) = step_at(s, here) else {
            return past;
        };
        match step {
            Step::Copy(after) => {
                past = bit_writer::copy_bits(s, here, after.since(here), out, past);
                here = after;
            }
            Step::Entry(code, slot, after) => {
                past = put_index(&table[..count], slot, code, out, past);
                here = after;
            }
            Step::Closure(list) => {
                let Ok((after, x)) = basic::read_list(s, list, 15) else {
                    return past;
                };
                past = put_index(
                    &table[..count],
                    0x7_0000_0000_0000 + next as u64,
                    7,
                    out,
                    past,
                );
                next = next + 1 + x.inside;
                here = after;
            }
        }
    }
    past
}

// The template whose own list goes from a place to its end: E, its entries, its code.
fn put_template(
    s: &[u8],
    at: BitPlace,
    end: BitPlace,
    n: usize,
    table: &mut [u64; 256],
    out: &mut [u8],
    place: BitPlace,
) -> BitPlace
    requires { (length s.now ≤ 65536) × (length out.old ≤ 65536)
        × TemplateIn s.now at.0 end.0 n out.old place.0 }
    ensures { (w : TemplateIn s.now at.0 end.0 n out.old place.0)
        → PutAt out.old place.0 (template_bits (template_of n w.own.list)) result.0 out.new }
{
    match collect(s, at, end, n, table) {
        Some((count, _)) => {
            let entries = bit_writer::put_field(out, place, 8, count as u32);
            let code = put_entries(&table[..count], out, entries);
            put_code(s, at, end, n, table, count, out, code)
        }
        None => place,
    }
}

// All templates, in the order of their numbers.
fn put_templates(
    s: &[u8],
    end: BitPlace,
    table: &mut [u64; 256],
    out: &mut [u8],
    at: BitPlace,
) -> BitPlace
    requires { (length s.now ≤ 65536) × (length out.old ≤ 65536) × TemplatesIn s.now end.0 out.old at.0 }
    ensures { (w : TemplatesIn s.now end.0 out.old at.0)
        → PutAt out.old at.0 (templates_bits (tabulated w.few.whole.list)) result.0 out.new }
{
    let mut here = BitPlace(0);
    let mut own: usize = 0;
    let mut place = at;
    loop {
        let Ok((past, _)) = basic::read_list(s, here, 15) else {
            return place;
        };
        place = put_template(s, here, past, own + 1, table, out, place);
        let Some(list) = next_closure(s, here, end) else {
            return place;
        };
        here = list;
        own += 1;
    }
}

// The file of all templates, in an output of its length.
fn write_tabulated(s: &[u8], end: BitPlace, count: usize, table: &mut [u64; 256], out: &mut [u8])
    requires { (length s.now ≤ 65536) × (length out.old ≤ 65536) × WholeIn s.now end.0 count out.old }
    ensures { (w : WholeIn s.now end.0 count out.old) → out.new ≡ tree_file (tabulated w.few.whole.list) }
{
    let at = bit_writer::put_field(out, BitPlace(0), 8, count as u32);
    put_templates(s, end, table, out, at);
}

// Tabulates a basic file that was checked: 9, then the file.
fn tabulate_checked(
    s: &[u8],
    end: BitPlace,
    count: usize,
    bits: usize,
    table: &mut [u64; 256],
    out: &mut [u8],
) -> Outcome
    requires { CheckedIs s.now (Ok (end, count, bits)) }
    ensures value { result ≡ answered (tabulated_file s.now (length out.old)) }
    ensures out_after { out.new ≡ written out.old (tabulated_file s.now (length out.old)) }
{
    let size = (bits + 7) / 8;
    if out.len() < size {
        return Err(Refusal(9, size));
    }
    write_tabulated(s, end, count, table, &mut out[..size]);
    Ok(size)
}

// Tabulates a basic file into an output.
pub fn tabulate(basic: &[u8], out: &mut [u8]) -> Outcome
    ensures value { result ≡ answered (tabulated_file basic.now (length out.old)) }
    ensures out_after { out.new ≡ written out.old (tabulated_file basic.now (length out.old)) }
{
    let mut table = [0u64; 256];
    let (end, count, bits) = check_basic(basic, &mut table)?;
    tabulate_checked(basic, end, count, bits, &mut table, out)
}
