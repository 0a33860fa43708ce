// Trimming a tree file (document 02, request 5): orphan templates and entries that no instruction names are taken out, and a list says what became of each.
// Both are first written into memory of the function's own, so that an output that is too short stays as it was.
#![tactic(auto)]

ghost use Rattle.std.specs.Prelude.{◌≡◌, Bool, cond, List, [], ◌++◌, ℕ, suc, ◌+◌, ◌*◌, ◌-◌, ◌≤◌, ◌<◌, length, get_or, replicate, ltb};
ghost use Rattle.lists.specs.Sets.{has};
ghost use Rattle.fields.specs.Field.{field_at};
ghost use Rattle.files.specs.laws.AllGot.{Each};
ghost use Rattle.files.specs.Linear.{entry_bits, entries_bits};
ghost use Rattle.bit_writer.specs.Put.{put_bits};
ghost use Rattle.bit_writer.specs.laws.Wrote.{Wrote};
ghost use Rattle.tree_file.specs.File.{template_bits, file_bits};
ghost use Rattle.rewrite.specs.Tokens.{TokensAt};
ghost use Rattle.text.specs.Put.{Put};
ghost use Rattle.trim.specs.Kept.{rank};
ghost use Rattle.trim.specs.Trim.{names, renumber, trim_template, trim};
ghost use Rattle.trim.specs.Lines.{template_lines, lines_from};
ghost use Rattle.trim.specs.Function.{both_into, trimmed_into, answered, file_left, list_left};
ghost use Rattle.trim.specs.Reached.{reached};
ghost use Rattle.trim.specs.Standing.{FileIn, TemplateIn, span_of, ListIn, EntryIn, EntriesIn, is_marked, Marks, Numbers, Numbered};
ghost use Rattle.trim.specs.Standing.{mark_one, names_marked, RowOf};
ghost use Rattle.trim.specs.Standing.{Leads, reached_from, marked_if, PutMore, kept_entries, kept_bits, mark_line, row_lines};

use cells::BitPlace;
use files::Refusal;
use lists::Keep;

// A template's list: where it begins and ends, and which templates its closures name (bit t, from the lowest, for template t).
#[derive(Clone, Copy)]
pub struct Span {
    pub start: BitPlace,
    pub past: BitPlace,
    pub closes: u64,
}

// Where writing goes on: in the file, in the list, and in the file that is read.
#[derive(Clone, Copy)]
pub struct Places {
    pub file: BitPlace,
    pub list: usize,
    pub next: BitPlace,
}

// ---- what stays

fn list_of(s: &[u8], table: &[u64; 16384], own: usize) -> Span
    requires { (length s.now ≤ 65536) × (own < 64) }
    ensures { (here : ℕ) (w : TemplateIn s.now table.now own here) → result ≡ span_of w.template }
{
    let slot = 256 * own;
    let start = BitPlace::from_slot(table[slot]);
    let mut none = [0u32; 1];
    match lists::read_list(s, table, own, start, 15, Keep::Pasts, &mut none) {
        Ok((past, facts)) => Span {
            start,
            past,
            closes: facts.closes,
        },
        Err(Refusal(_, place)) => Span {
            start,
            past: place,
            closes: 0,
        },
    }
}

// Template `own`, if it is in the set: it is marked, and the templates that its closures name come into the set.
fn reach_from(s: &[u8], table: &[u64; 16384], own: usize, reach: u64, marks: &mut [u8; 64]) -> u64
    requires { (length s.now ≤ 65536) × (own < 64) }
    ensures reach_after { (here : ℕ) (w : TemplateIn s.now table.now own here) → result ≡ reached_from own w.template reach }
    ensures marks_after { marks.new ≡ marked_if (has reach own) own marks.old }
{
    if (reach >> own) % 2 != 1 {
        return reach;
    }
    let list = list_of(s, table, own);
    marks[own] = 1;
    reach | list.closes
}

// Marks the templates that closures lead to from template 0 on. Names go upward, so one pass finds them.
fn mark_reached(s: &[u8], table: &[u64; 16384], count: usize, marks: &mut [u8; 64])
    requires { (length s.now ≤ 65536) × (count ≤ 64) × (marks.old ≡ replicate 64 0) }
    ensures { (w : FileIn s.now table.now count) → Marks (reached w.templates) count marks.new }
{
    let mut reach: u64 = 1;
    for own in 0..count {
        reach = reach_from(s, table, own, reach, marks);
    }
}

// Numbers the marked of the first n from 1 on; how many there are.
fn number(marks: &mut [u8], n: usize) -> u8
    requires { (n ≤ length marks.old) × (rank (is_marked marks.old) 0 n ≤ 255) }
    ensures { (result ≡ rank (is_marked marks.old) 0 n) × Numbered n marks.old marks.new }
{
    let mut count: u8 = 0;
    for mark in &mut marks[..n] {
        if 0 < *mark {
            count += 1;
            *mark = count;
        }
    }
    count
}

// The entry that a code at a place names, if it names one.
fn mark_code(s: &[u8], here: BitPlace, code: u32, row: &mut [u8; 256])
    requires { (length s.now ≤ 262144) × (6 ≤ code → code ≤ 9 → here.0 + 13 ≤ 8 * length s.now) }
    ensures { row.new ≡ mark_one code (field_at s.now (here.0 + 5) 8) row.old }
{
    if code < 6 {
        return;
    }
    if 9 < code {
        return;
    }
    row[fields::bits_at(s, here.past(5), 8) as usize] = 1;
}

// The entries that n bits of code name.
fn mark_names(s: &[u8], from: BitPlace, n: usize, row: &mut [u8; 256])
    requires { (length s.now ≤ 262144) × TokensAt s.now from.0 n }
    ensures { (w : TokensAt s.now from.0 n) → row.new ≡ names_marked w.all row.old }
{
    let mut here = from;
    let mut left = n;
    while 0 < left {
        let code = fields::bits_at(s, here, 5);
        let count = rewrite::operand_count(lists::shape_of(code));
        mark_code(s, here, code, row);
        here = here.past(5 + 8 * count);
        left -= 5 + 8 * count;
    }
}

// The new indices of a template's entries; how many stay.
fn number_names(
    s: &[u8],
    table: &[u64; 16384],
    own: usize,
    here: BitPlace,
    list: Span,
    entries: usize,
    row: &mut [u8; 256],
) -> u8
    requires { (length s.now ≤ 65536) × (row.old ≡ replicate 256 0) × ListIn s.now table.now own here.0 list entries }
    ensures { (w : ListIn s.now table.now own here.0 list entries)
        → RowOf w.at.template.code entries row.new × (result ≡ rank (λ j. names (suc j) w.at.template.code) 0 entries) }
{
    mark_names(s, list.start, list.past.since(list.start), row);
    number(row, entries + 1)
}

// ---- the file

// How many bits the entry at a place takes.
fn entry_size(s: &[u8], here: BitPlace) -> usize
    requires { (length s.now ≤ 65536) × (here.0 + 5 ≤ 8 * length s.now) }
    ensures { (size : ℕ) (w : EntryIn s.now here.0 size) → result ≡ size }
{
    if fields::bits_at(s, here, 2) != 1 {
        return 10;
    }
    let tag = fields::bits_at(s, here.past(2), 3);
    if tag == 4 {
        return 37;
    }
    if tag == 5 {
        return 53;
    }
    5
}

// The new number of a template that stays.
fn new_number(numbers: &[u8; 64], u: usize) -> u8
    requires { u < 64 }
    ensures { result ≡ get_or numbers.now u 0 - 1 }
{
    numbers[u].saturating_sub(1)
}

// The entry at a place, with the new number of the template that it names.
fn put_entry(
    s: &[u8],
    here: BitPlace,
    size: usize,
    numbers: &[u8; 64],
    out: &mut [u8; 65536],
    at: BitPlace,
) -> BitPlace
    requires size { length s.now ≤ 65536 }
    requires room { at.0 + size ≤ 8 * length out.old }
    requires entry_in { EntryIn s.now here.0 size }
    ensures place_after { result.0 ≡ at.0 + size }
    ensures out_after { (w : EntryIn s.now here.0 size) → out.new ≡ put_bits out.old at.0
        (entry_bits (renumber (λ u. get_or numbers.now u 0 - 1) w.entry)) }
{
    if fields::bits_at(s, here, 2) == 3 {
        let u = fields::bits_at(s, here.past(2), 8);
        return tree_file::put_numbered(out, at, 3, new_number(numbers, u as usize));
    }
    bit_writer::copy_bits(s, here, size, out, at)
}

// The entry at a place, if it is marked.
fn put_marked(
    s: &[u8],
    here: BitPlace,
    size: usize,
    mark: u8,
    numbers: &[u8; 64],
    out: &mut [u8; 65536],
    at: BitPlace,
) -> BitPlace
    requires size { length s.now ≤ 65536 }
    requires room { at.0 + size ≤ 524288 }
    requires entry_in { EntryIn s.now here.0 size }
    ensures short { result.0 ≤ at.0 + size }
    ensures put_more { (w : EntryIn s.now here.0 size) → PutMore out.old at.0 out.new result.0
        (cond (ltb 0 mark) (entry_bits (renumber (λ u. get_or numbers.now u 0 - 1) w.entry)) []) }
{
    if mark < 1 {
        return at;
    }
    put_entry(s, here, size, numbers, out, at)
}

// The entries that a row keeps.
fn put_entries(
    s: &[u8],
    from: BitPlace,
    count: usize,
    numbers: &[u8; 64],
    row: &[u8; 256],
    out: &mut [u8; 65536],
    at: BitPlace,
) -> BitPlace
    requires sizes { (length s.now ≤ 65536) × (count ≤ 255) }
    requires entries_in { EntriesIn s.now from.0 count at.0 }
    ensures { (w : EntriesIn s.now from.0 count at.0) → (result.0 ≤ at.0 + length (entries_bits w.entries))
        × PutMore out.old at.0 out.new result.0 (entries_bits (kept_entries numbers.now row.now w.entries)) }
{
    let mut here = from;
    let mut there = at;
    for mark in &row[1..=count] {
        let size = entry_size(s, here);
        there = put_marked(s, here, size, *mark, numbers, out, there);
        here = here.past(size);
    }
    there
}

// A template that stays: how many entries it has left, these entries, its list with the new indices.
fn put_template(
    s: &[u8],
    table: &[u64; 16384],
    own: usize,
    here: BitPlace,
    list: Span,
    entries: usize,
    left: u8,
    numbers: &[u8; 64],
    row: &[u8; 256],
    out: &mut [u8; 65536],
    at: BitPlace,
) -> BitPlace
    requires size { length s.now ≤ 65536 }
    requires at_behind { at.0 ≤ here.0 }
    requires list_in { ListIn s.now table.now own here.0 list entries }
    ensures { (w : ListIn s.now table.now own here.0 list entries)
        → RowOf w.at.template.code entries row.now
        → left ≡ rank (λ j. names (suc j) w.at.template.code) 0 entries
        → (result.0 ≤ at.0 + length (template_bits w.at.template)) × PutMore out.old at.0 out.new result.0
        (template_bits (trim_template (λ u. get_or numbers.now u 0 - 1) w.at.template)) }
{
    let second = bit_writer::put_field(out, at, 8, left as u32);
    let third = put_entries(s, here.past(8), entries, numbers, row, out, second);
    rewrite::rewrite(s, list.start, list.past.since(list.start), row, out, third)
}

// ---- the list

// A line: 0 is gone, and otherwise the new number lies `less` below the mark.
fn put_line(out: &mut [u8], at: usize, t: usize, e: usize, mark: u8, less: u8) -> usize
    requires { (at + 64 ≤ length out.old) × (t < 64) × (e < 256) × (less ≤ 1) }
    ensures put { Put out.old at out.new result (mark_line t e mark less) }
    ensures short { result ≤ at + 12 }
{
    let second = text::put_number(out, at, t as u64, b' ');
    let third = text::put_number(out, second, e as u64, b' ');
    if mark < 1 {
        return text::put_bytes(out, third, b"gone\n");
    }
    text::put_number(out, third, (mark - less) as u64, b'\n')
}

// The lines of a template and of its entries.
fn put_lines(
    out: &mut [u8],
    at: usize,
    own: usize,
    entries: usize,
    mark: u8,
    row: &[u8; 256],
) -> usize
    requires { (at + 4096 ≤ length out.old) × (own < 64) × (entries ≤ 255) }
    ensures put { Put out.old at out.new result (mark_line own 0 mark 1 ++ row_lines own row.now 1 entries) }
    ensures short { result ≤ at + 3072 }
{
    let mut there = put_line(out, at, own, 0, mark, 1);
    for n in 1..=entries {
        there = put_line(out, there, own, n, row[n], 0);
    }
    there
}

// ---- both

// A template into the file, if it stays, and into the list.
fn trim_template(
    s: &[u8],
    table: &[u64; 16384],
    own: usize,
    here: BitPlace,
    numbers: &[u8; 64],
    file: &mut [u8; 65536],
    at: BitPlace,
    lines: &mut [u8; 262144],
    to: usize,
) -> Places
    requires sizes { (length s.now ≤ 65536) × (own < 64) }
    requires written_so_far { (at.0 ≤ here.0) × (to ≤ 3072 * own) }
    requires template_in { TemplateIn s.now table.now own here.0 }
    ensures written { (result.list ≤ to + 3072) × (result.file.0 ≤ result.next.0) }
    ensures next_is { (w : TemplateIn s.now table.now own here.0) → result.next.0 ≡ here.0 + length (template_bits w.template) }
    ensures put { (w : TemplateIn s.now table.now own here.0) (keep : ℕ → Bool) → Numbers keep w.total numbers.now
        → Leads keep own w.template → Put lines.old to lines.new result.list (template_lines keep own w.template)
        × PutMore file.old at.0 file.new result.file.0 (kept_bits keep own w.template) }
{
    let entries = fields::bits_at(s, here, 8) as usize;
    let list = list_of(s, table, own);
    let mark = numbers[own];
    let mut row = [0u8; 256];
    if mark == 0 {
        return Places {
            file: at,
            list: put_lines(lines, to, own, entries, mark, &row),
            next: list.past,
        };
    }
    let left = number_names(s, table, own, here, list, entries, &mut row);
    Places {
        file: put_template(
            s, table, own, here, list, entries, left, numbers, &row, file, at,
        ),
        list: put_lines(lines, to, own, entries, mark, &row),
        next: list.past,
    }
}

// All templates: T, those that stay, and the lines of all.
fn trim_templates(
    s: &[u8],
    table: &[u64; 16384],
    count: usize,
    left: u8,
    numbers: &[u8; 64],
    file: &mut [u8; 65536],
    lines: &mut [u8; 262144],
) -> Places
    requires sizes { (length s.now ≤ 65536) × (count ≤ 64) }
    requires file_in { FileIn s.now table.now count }
    ensures { (w : FileIn s.now table.now count) (keep : ℕ → Bool) → Numbers keep count numbers.now
        → Each (Leads keep) 0 w.templates → left ≡ rank keep 0 count
        → Put lines.old 0 lines.new result.list (lines_from keep 0 w.templates)
        × Wrote file.old file.new (file_bits (trim keep w.templates)) result.file.0
        × (result.list ≤ 196608) × (result.file.0 ≤ 524288) }
{
    let mut here = BitPlace(8);
    let mut at = bit_writer::put_field(file, BitPlace(0), 8, left as u32);
    let mut to: usize = 0;
    for own in 0..count {
        let places = trim_template(s, table, own, here, numbers, file, at, lines, to);
        here = places.next;
        at = places.file;
        to = places.list;
    }
    Places {
        file: at,
        list: to,
        next: here,
    }
}

// The file and the list into the outputs, if both fit.
fn put_both(
    file: &[u8],
    size: usize,
    lines: &[u8],
    bytes: usize,
    out: &mut [u8],
    list: &mut [u8],
) -> Result<(usize, usize), Refusal<usize>>
    requires { (size ≤ length file.now) × (bytes ≤ length lines.now) }
    ensures value { result ≡ answered (both_into (length out.old) (length list.old) file.now size lines.now bytes) }
    ensures out_after { out.new ≡ file_left out.old
        (both_into (length out.old) (length list.old) file.now size lines.now bytes) }
    ensures list_after { list.new ≡ list_left list.old
        (both_into (length out.old) (length list.old) file.now size lines.now bytes) }
{
    if out.len() < size {
        return Err(Refusal(9, size));
    }
    if list.len() < bytes {
        return Err(Refusal(9, bytes));
    }
    text::put_bytes(out, 0, &file[..size]);
    text::put_bytes(list, 0, &lines[..bytes]);
    Ok((size, bytes))
}

// A file that was read, with the memory that both are written into.
fn trim_into(
    s: &[u8],
    table: &[u64; 16384],
    count: u8,
    numbers: &mut [u8; 64],
    file: &mut [u8; 65536],
    lines: &mut [u8; 262144],
    out: &mut [u8],
    list: &mut [u8],
) -> Result<(usize, usize), Refusal<usize>>
    requires file_in { FileIn s.now table.now count }
    requires numbers_zero { numbers.old ≡ replicate 64 0 }
    ensures value { result ≡ answered (trimmed_into s.now (length out.old) (length list.old)) }
    ensures out_after { out.new ≡ file_left out.old (trimmed_into s.now (length out.old) (length list.old)) }
    ensures list_after { list.new ≡ list_left list.old (trimmed_into s.now (length out.old) (length list.old)) }
{
    mark_reached(s, table, count as usize, numbers);
    let left = number(numbers, count as usize);
    let places = trim_templates(s, table, count as usize, left, numbers, file, lines);
    let size = places.file.past(places.file.to_byte()).byte();
    put_both(file, size, lines, places.list, out, list)
}

// Trims a tree file: the trimmed file into one output, the list of what became of each template and entry into the other. It answers their lengths.
pub fn trim(file: &[u8], out: &mut [u8], list: &mut [u8]) -> Result<(usize, usize), Refusal<usize>>
    ensures value { result ≡ answered (trimmed_into file.now (length out.old) (length list.old)) }
    ensures out_after { out.new ≡ file_left out.old
        (trimmed_into file.now (length out.old) (length list.old)) }
    ensures list_after { list.new ≡ list_left list.old
        (trimmed_into file.now (length out.old) (length list.old)) }
{
    let mut table = [0u64; 16384];
    let mut none = [0u32; 1];
    let sum = tree::read_checked(file, &mut table, Keep::Pasts, &mut none)?;
    let mut numbers = [0u8; 64];
    let mut whole = [0u8; 65536];
    let mut lines = [0u8; 262144];
    trim_into(
        file,
        &table,
        sum.count,
        &mut numbers,
        &mut whole,
        &mut lines,
        out,
        list,
    )
}
