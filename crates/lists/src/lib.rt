// Reading a code list of a tree file in one pass, with the facts that refusals 6, 7, 24 and 8 and the flattener need.
#![tactic(auto)]

ghost use Rattle.std.specs.Prelude.{ℕ, ◌≡◌, Some, cond, ◌&&◌, ◌||◌, ◌+◌, ◌*◌, ◌-◌, ◌/◌, ◌%◌, ◌^◌, ◌≤◌, ◌<◌, length};
ghost use Rattle.fields.specs.Field.{field_at};
ghost use Rattle.files.specs.Codes.{shape_of};
ghost use Rattle.files.specs.Flat.{arms_fit};
ghost use Rattle.files.specs.Reading.{head_at, deep_of, list_at};
ghost use Rattle.lists.specs.Sets.{unite};
ghost use Rattle.lists.specs.Shapes.{Numbered};
ghost use Rattle.lists.specs.Facts.{says_open, says_closed, slot_fits, slot_named, slot_closes, listed};
ghost use Rattle.lists.specs.Marks.{size_mark, mark_by, mark_at, mark, head_marked, list_marked};
ghost use Rattle.lists.specs.Pass.{classes_after, is_save, state_after, begun, finish, simple_added, conditional_kind, conditional_size, conditional_added};
ghost use Rattle.lists.specs.Pass.{save_kind, save_added, simple_at, deep_at, itemed, run_shape, run_after, Neutrals};

use cells::BitPlace;
use files::{Reading, Refusal};

// The class of a list.
#[derive(Clone, Copy)]
pub enum Class {
    Empty,
    Open,
    Closed,
    Neither,
}

impl Class {
    #[tactic(auto, unfolding(crate::specs::Facts::says_open))]
    pub fn is_open(self) -> bool
        ensures { result ≡ says_open self }
    {
        matches!(self, Class::Open)
    }

    #[tactic(auto, unfolding(crate::specs::Facts::says_closed))]
    pub fn is_closed(self) -> bool
        ensures { result ≡ says_closed self }
    {
        matches!(self, Class::Closed)
    }
}

// What is to be known of a list: its class, how many bytes its flat code has, whether codes 6 to 9
// name entries that suit them, whether its offsets fit, and which templates its closures name: bit t, from the lowest, for template t.
#[derive(Clone, Copy)]
pub struct Facts {
    pub class: Class,
    pub size: usize,
    pub named: bool,
    pub fits: bool,
    pub closes: u64,
}

// What reading keeps of each list, by the place where it begins: twice the size of its flat code and 1 if it is closed, or the place past it.
#[derive(Clone, Copy)]
pub enum Keep {
    Sizes,
    Pasts,
}

// What an instruction does to the class of the list that it begins.
#[derive(Clone, Copy)]
pub enum Kind {
    Neutral,
    // return, call, unless-false with two closed arms
    Ending,
    // make-cont, by its saved list: open or empty, closed, neither
    SavesOpen,
    SavesClosed,
    SavesNeither,
    // unless-false with other arms
    Neither,
}

// What one instruction adds to the facts of its list.
#[derive(Clone, Copy)]
struct Added {
    pub kind: Kind,
    pub size: usize,
    pub named: bool,
    pub fits: bool,
    pub closes: u64,
}

// What begins a list, with the place past it: its end or an instruction.
#[derive(Clone, Copy)]
enum Item {
    End(BitPlace),
    More(BitPlace, Added),
}

// The class that a whole list has, by the class of what is left of it: empty, open, closed (else it is neither).
#[derive(Clone, Copy)]
pub struct Classes {
    pub empty: Class,
    pub opened: Class,
    pub closed: Class,
}

// What is known of a list up to a place in it. `tail` counts the flat bytes since its first make-cont, once that was `seen`: the rest
// of the first is the longest of all.
#[derive(Clone, Copy)]
struct State {
    pub classes: Classes,
    pub size: usize,
    pub seen: bool,
    pub tail: usize,
    pub named: bool,
    pub fits: bool,
    pub closes: u64,
}

// A run of neutral instructions: the place past it, how many flat bytes it has, whether its indices suit its codes.
#[derive(Clone, Copy)]
struct Run {
    pub past: BitPlace,
    pub size: usize,
    pub named: bool,
}

// How a code is followed in a tree (document 01, 'Codes').
#[derive(Clone, Copy)]
pub enum Shape {
    // it ends the list
    End,
    // so many operand bytes, at most two
    Plain(usize),
    // two lists
    Branch,
    // an operand byte and a list
    Save,
    // it is no instruction of a tree
    NoCode,
}

// The shape of each code. A match, since the compiler makes an array anew at each use.
#[tactic(auto, unfolding(files::specs::Codes::shape_of, crate::specs::Shapes::Numbered))]
pub fn shape_of(code: u32) -> Shape
    requires { code < 32 }
    ensures { Numbered result (shape_of code) }
{
    match code {
        0 => Shape::End, // end of list
        1 => Shape::Plain(0), // return
        2 => Shape::Plain(1), // call n
        3 => Shape::Branch, // unless-false
        4 => Shape::Save, // make-cont n
        5 => Shape::NoCode, // (jump)
        6 => Shape::Plain(1), // literal n
        7 => Shape::Plain(1), // closure n
        8 => Shape::Plain(1), // global n
        9 => Shape::Plain(1), // set-global! n
        10 => Shape::Plain(2), // local n1 n2
        11 => Shape::Plain(2), // set-local! n1 n2
        12 => Shape::Plain(0), // push
        13 => Shape::Plain(1), // make-env n
        14 => Shape::NoCode,
        15 => Shape::Plain(0), // unspecified
        16 => Shape::Plain(1), // checkargs= n
        17 => Shape::NoCode,
        18 => Shape::Plain(0), // %%cons
        19 => Shape::Plain(0), // %%car
        20 => Shape::Plain(0), // %%cdr
        21 => Shape::Plain(0), // %%eqv
        22 => Shape::Plain(0), // %%add
        23 => Shape::Plain(0), // %%sub
        24 => Shape::Plain(0), // %%less
        25 => Shape::Plain(0), // %%floor-div
        26 => Shape::NoCode,
        27 => Shape::NoCode,
        28 => Shape::NoCode,
        29 => Shape::NoCode,
        30 => Shape::NoCode,
        _ => Shape::NoCode, // 31
    }
}

// The shape's number in the table of codes, without a jump, four bits for each code, codes 0 and 16 lowest: reading meets codes in any order, and a jump
// would often be foreseen wrongly.
fn number_by_words(code: u32) -> u8
    requires { code < 32 }
    ensures { result ≡ shape_of code }
{
    let word: u64 = if code < 16 {
        0x1621332222654210
    } else {
        0x6666661111111162
    };
    ((word >> (4 * (code % 16))) % 16) as u8
}

// As `shape_of`, by the words.
#[tactic(auto, unfolding(crate::specs::Shapes::Numbered))]
fn shape_by_words(code: u32) -> Shape
    requires { code < 32 }
    ensures { Numbered result (shape_of code) }
{
    let number = number_by_words(code);
    match number {
        0 => Shape::End,
        1 | 2 | 3 => Shape::Plain(number as usize - 1),
        4 => Shape::Branch,
        5 => Shape::Save,
        _ => Shape::NoCode,
    }
}

fn both(x: bool, y: bool) -> bool
    ensures { result ≡ (x && y) }
{
    if x { y } else { false }
}

fn either(x: bool, y: bool) -> bool
    ensures { result ≡ (x || y) }
{
    if x { true } else { y }
}

// A slot of the table suits one of the codes 6 to 9: four bits for each tag, tag 0 lowest, for the codes 8, 9, 6, 7. No jump, since any code may come.
fn slot_fits(code: u32, slot: u64) -> bool
    ensures { (6 ≤ code) × (code ≤ 9) → result ≡ slot_fits code slot }
{
    let tag = slot / 0x1000000000000000;
    (0x8300004444440u64 >> (4 * tag + (code % 4) as u64)) % 2 == 1
}

// The first operand of a neutral code suits it, if it is an index: the template's row has the entries.
pub fn slot_named(table: &[u64], own: usize, code: u32, n: u32) -> bool
    requires { (256 * own + 256 ≤ length table.now) × (own < 64) × (n < 256) × (6 ≤ code) }
    ensures { result ≡ slot_named table.now own code n }
{
    let slot = table[256 * own + n as usize];
    either(9 < code, both(n != 0, slot_fits(code, slot)))
}

// Both sets of templates together.
fn unite(x: u64, y: u64) -> u64
    ensures { result ≡ unite x y }
{
    x | y
}

// The set of the template that a neutral code names: a closure's, where its entry suits it.
fn slot_closes(table: &[u64], own: usize, code: u32, n: u32) -> u64
    requires { (256 * own + 256 ≤ length table.now) × (own < 64) × (n < 256) × (6 ≤ code) }
    ensures { result ≡ slot_closes table.now own code n }
{
    let slot = table[256 * own + n as usize];
    if both(code == 7, slot_named(table, own, code, n)) {
        1u64 << (slot % 64)
    } else {
        0
    }
}

// What an instruction without lists adds: its code, how many operands it has, and the first of them.
fn simple_added(table: &[u64], own: usize, code: u32, operands: usize, n: u32) -> Added
    requires { (256 * own + 256 ≤ length table.now) × (own < 64) × (operands ≤ 2) × (n < 256) }
    ensures { result ≡ simple_added table.now own code operands n }
{
    let size = 1 + operands;
    if code < 6 {
        return Added {
            kind: Kind::Ending,
            size,
            named: true,
            fits: true,
            closes: 0,
        };
    }
    Added {
        kind: Kind::Neutral,
        size,
        named: slot_named(table, own, code, n),
        fits: true,
        closes: slot_closes(table, own, code, n),
    }
}

// The kind of an unless-false, by the classes of its arms.
pub fn conditional_kind(x: Class, y: Class) -> Kind
    ensures { result ≡ conditional_kind x y }
{
    if both(x.is_open(), y.is_open()) {
        return Kind::Neutral;
    }
    if both(x.is_closed(), y.is_closed()) {
        return Kind::Ending;
    }
    Kind::Neither
}

// How many flat bytes an unless-false has, by the class of its first arm and the sizes of both.
fn conditional_size(class: Class, x: usize, y: usize) -> usize
    requires { (x ≤ 1048576) × (y ≤ 1048576) }
    ensures { result ≡ conditional_size class x y }
{
    if class.is_closed() {
        return 3 + x + y;
    }
    6 + x + y
}

// The offsets of an unless-false fit, by the class of its first arm and the sizes of both.
fn arms_fit(class: Class, x: usize, y: usize) -> bool
    requires { x ≤ 1048576 }
    ensures { result ≡ arms_fit (says_closed class) x y }
{
    if class.is_closed() {
        return x <= 65535;
    }
    both(3 + x <= 65535, y <= 65535)
}

// What an unless-false adds, by the facts of its arms.
fn conditional_added(x: Facts, y: Facts) -> Added
    requires { (x.size ≤ 1048576) × (y.size ≤ 1048576) }
    ensures { result ≡ conditional_added x y }
{
    Added {
        kind: conditional_kind(x.class, y.class),
        size: conditional_size(x.class, x.size, y.size),
        named: both(x.named, y.named),
        fits: both(arms_fit(x.class, x.size, y.size), both(x.fits, y.fits)),
        closes: unite(x.closes, y.closes),
    }
}

// The kind of a make-cont, by the class of its saved list.
#[tactic(auto, unfolding(crate::specs::Pass::save_kind))]
pub fn save_kind(class: Class) -> Kind
    ensures { result ≡ save_kind class }
{
    match class {
        Class::Empty => Kind::SavesOpen,
        Class::Open => Kind::SavesOpen,
        Class::Closed => Kind::SavesClosed,
        Class::Neither => Kind::SavesNeither,
    }
}

// What a make-cont adds, by the facts of its saved list.
fn save_added(x: Facts) -> Added
    requires { x.size ≤ 1048576 }
    ensures { result ≡ save_added x }
{
    Added {
        kind: save_kind(x.class),
        size: 4 + x.size,
        named: x.named,
        fits: x.fits,
        closes: x.closes,
    }
}

pub fn classes_after(kind: Kind, c: Classes) -> Classes
    ensures { result ≡ classes_after kind c }
{
    match kind {
        Kind::Neutral => Classes {
            empty: c.opened,
            opened: c.opened,
            closed: c.closed,
        },
        Kind::Ending => Classes {
            empty: c.closed,
            opened: Class::Neither,
            closed: Class::Neither,
        },
        Kind::SavesOpen => Classes {
            empty: Class::Neither,
            opened: Class::Neither,
            closed: c.opened,
        },
        Kind::SavesClosed => Classes {
            empty: Class::Neither,
            opened: Class::Neither,
            closed: c.closed,
        },
        Kind::SavesNeither => Classes {
            empty: Class::Neither,
            opened: Class::Neither,
            closed: Class::Neither,
        },
        Kind::Neither => Classes {
            empty: Class::Neither,
            opened: Class::Neither,
            closed: Class::Neither,
        },
    }
}

fn is_save(kind: Kind) -> bool
    ensures { result ≡ is_save kind }
{
    match kind {
        Kind::Neutral => false,
        Kind::Ending => false,
        Kind::SavesOpen => true,
        Kind::SavesClosed => true,
        Kind::SavesNeither => true,
        Kind::Neither => false,
    }
}

// The flat bytes since the first make-cont.
fn tail_after(st: State, size: usize) -> usize
    requires { st.tail + size ≤ 1048576 }
    ensures { result ≡ cond st.seen (st.tail + size) st.tail }
{
    let seen = st.seen;
    if seen { st.tail + size } else { st.tail }
}

// What is known of a list after one more instruction.
fn state_after(st: State, added: Added) -> State
    requires { (st.size + added.size ≤ 1048576) × (st.tail ≤ st.size) }
    ensures { result ≡ state_after st added }
{
    let kind = added.kind;
    let classes = st.classes;
    State {
        classes: classes_after(kind, classes),
        size: st.size + added.size,
        seen: either(st.seen, is_save(kind)),
        tail: tail_after(st, added.size),
        named: both(st.named, added.named),
        fits: both(st.fits, added.fits),
        closes: unite(st.closes, added.closes),
    }
}

// What is known of a list before its first instruction.
fn begin() -> State
    ensures { result ≡ begun }
{
    let classes = Classes {
        empty: Class::Empty,
        opened: Class::Open,
        closed: Class::Closed,
    };
    State {
        classes,
        size: 0,
        seen: false,
        tail: 0,
        named: true,
        fits: true,
        closes: 0,
    }
}

// The facts of a list of which nothing is left.
fn finished(st: State) -> Facts
    ensures { result ≡ finish st }
{
    let classes = st.classes;
    Facts {
        class: classes.empty,
        size: st.size,
        named: st.named,
        fits: both(st.fits, st.tail <= 65535),
        closes: st.closes,
    }
}

// ---- a run of neutral instructions

// How many flat bytes the neutral code has that begins a line of 21 bits, if it has no list and names no template. Two bits for each code, code 0 lowest;
// 0 for the others.
fn run_size(line: u32) -> Option<usize>
    requires { line < 0x200000 }
    ensures { (k : ℕ) → result ≡ Some k → (1 ≤ k) × run_shape (line / 0x10000) k }
{
    let bytes = ((0x5555249fa2000u64 >> (line / 0x8000 / 2 * 2)) % 4) as usize;
    if bytes == 0 { None } else { Some(bytes) }
}

// The 21 bits that lie `skip` bits from the first of 64.
fn line_in(high: u32, low: u32, skip: usize) -> u32
    requires { skip ≤ 43 }
    ensures { (result ≡ (high * 0x100000000 + low) / 2 ^ (43 - skip) % 2 ^ 21) × (result < 0x200000) }
{
    (((high as u64 * 0x100000000 + low as u64) << skip) >> 43) as u32
}

// What is known of a list after a run.
fn run_after(st: State, run: Run) -> State
    requires { (st.size + run.size ≤ 1048576) × (st.tail ≤ st.size) }
    ensures { result ≡ run_after st run.size run.named }
{
    let c = st.classes;
    let classes = Classes {
        empty: if run.size == 0 { c.empty } else { c.opened },
        opened: c.opened,
        closed: c.closed,
    };
    State {
        classes,
        size: st.size + run.size,
        seen: st.seen,
        tail: tail_after(st, run.size),
        named: both(st.named, run.named),
        fits: st.fits,
        closes: st.closes,
    }
}

// The neutral instructions at a place, up to one with lists, one that ends or names a template, or the last bytes of the file. The eight bytes that
// the next line lies in are loaded before it is known where in them it begins: no turn waits for its load.
fn read_run(s: &[u8], table: &[u64], own: usize, at: BitPlace) -> Run
    requires { (length s.now ≤ 65536) × (256 * own + 256 ≤ length table.now) × (own < 64) }
    ensures { Neutrals table.now own s.now at.0 result.past.0 result.size result.named }
{
    let mut here = at;
    let mut size: usize = 0;
    let mut named = true;
    if s.len() <= at.byte() + 7 {
        return Run {
            past: at,
            size,
            named,
        };
    }
    let mut skip = at.bit();
    let mut high = fields::four_at(s, at.byte());
    let mut low = fields::four_at(s, at.byte() + 4);
    while here.byte() + 7 < s.len() {
        let line = line_in(high, low, skip);
        let Some(bytes) = run_size(line) else {
            return Run {
                past: here,
                size,
                named,
            };
        };
        high = fields::four_at(s, here.byte());
        low = fields::four_at(s, here.byte() + 4);
        skip = here.bit() + (8 * bytes - 3);
        named = both(
            named,
            slot_named(table, own, line / 0x10000, line / 0x100 % 0x100),
        );
        size = size + bytes;
        here = here.past(8 * bytes - 3);
    }
    Run {
        past: here,
        size,
        named,
    }
}

// ---- marks

// Twice a size, and 1 more for a closed list.
fn size_mark(closed: bool, size: usize) -> u32
    requires { size ≤ 1048576 }
    ensures { result ≡ size_mark closed size }
{
    let twice = 2 * size as u32;
    if closed { twice + 1 } else { twice }
}

// The mark of a list with these facts and a place past it.
fn mark_of(keep: Keep, facts: Facts, past: BitPlace) -> u32
    requires { (facts.size ≤ 1048576) × (past.0 ≤ 524288) }
    ensures { result ≡ mark_by keep facts past.0 }
{
    match keep {
        Keep::Sizes => size_mark(facts.class.is_closed(), facts.size),
        Keep::Pasts => past.to_link(),
    }
}

// A mark past the end is not kept.
fn set_mark(marks: &mut [u32], at: BitPlace, value: u32)
    ensures { marks.new ≡ mark marks.old at.0 value }
{
    let i = at.link_index();
    if i < marks.len() {
        marks[i] = value;
    }
}

// The mark of a place, 0 where there is none.
pub fn mark_at(marks: &[u32], at: BitPlace) -> u32
    ensures { result ≡ mark_at marks.now at.0 }
{
    let i = at.link_index();
    if i < marks.len() { marks[i] } else { 0 }
}

// ---- reading

// An instruction without lists at a place, by its line, the 21 bits there, and how many operand bytes it has.
fn read_simple(
    s: &[u8],
    table: &[u64],
    own: usize,
    at: BitPlace,
    line: u32,
    operands: usize,
) -> Reading<Item>
    requires { (length s.now ≤ 65536) × (256 * own + 256 ≤ length table.now) × (own < 64) × (line ≡ field_at s.now at.0 21)
        × (at.0 + 5 ≤ 8 * length s.now) × (shape_of (line / 0x10000) ≡ 1 + operands) × (operands ≤ 2) }
    ensures { result ≡ itemed table.now own (simple_at s.now (line / 0x10000) (at.0 + 5) (1 + operands)) }
{
    let bits = 5 + 8 * operands;
    if at.within(bits, s.len()) {
        let added = simple_added(table, own, line / 0x10000, operands, line / 0x100 % 0x100);
        return Ok(Item::More(at.past(bits), added));
    }
    if at.within(13, s.len()) {
        return Err(Refusal(2, at.past(13)));
    }
    Err(Refusal(2, at.past(5)))
}

// An unless-false whose code ends at a place, with `levels` levels left below its arms.
#[cycle(read_conditional_read_instr_read_list_read_make_cont)]
fn read_conditional(
    s: &[u8],
    table: &[u64],
    own: usize,
    at: BitPlace,
    levels: usize,
    keep: Keep,
    marks: &mut [u32],
) -> Reading<Item>
    requires { (length s.now ≤ 65536) × (256 * own + 256 ≤ length table.now) × (own < 64) }
    ensures value { result ≡ itemed table.now own (deep_at s.now levels at.0 4) }
    ensures head_marked { head_marked keep marks.old marks.new at.0 (deep_at s.now levels at.0 4) }
{
    let (mid, x) = read_list(s, table, own, at, levels, keep, marks)?;
    let (last, y) = read_list(s, table, own, mid, levels, keep, marks)?;
    Ok(Item::More(last, conditional_added(x, y)))
}

// A make-cont whose code ends at a place, with `levels` levels left below its saved list.
#[cycle(read_conditional_read_instr_read_list_read_make_cont)]
fn read_make_cont(
    s: &[u8],
    table: &[u64],
    own: usize,
    at: BitPlace,
    levels: usize,
    keep: Keep,
    marks: &mut [u32],
) -> Reading<Item>
    requires { (length s.now ≤ 65536) × (256 * own + 256 ≤ length table.now) × (own < 64) }
    ensures value { result ≡ itemed table.now own (deep_at s.now levels at.0 5) }
    ensures head_marked { head_marked keep marks.old marks.new at.0 (deep_at s.now levels at.0 5) }
{
    let (_, saved) = files::read_field(s, at, 8)?;
    let (last, x) = read_list(s, table, own, saved, levels, keep, marks)?;
    Ok(Item::More(last, save_added(x)))
}

// What begins the list at a place, with `levels` levels left below it.
#[cycle(read_conditional_read_instr_read_list_read_make_cont)]
fn read_instr(
    s: &[u8],
    table: &[u64],
    own: usize,
    at: BitPlace,
    levels: usize,
    keep: Keep,
    marks: &mut [u32],
) -> Reading<Item>
    requires { (length s.now ≤ 65536) × (256 * own + 256 ≤ length table.now) × (own < 64) }
    ensures value { result ≡ itemed table.now own (head_at s.now (deep_of s.now levels) at.0) }
    ensures head_marked { head_marked keep marks.old marks.new (at.0 + 5) (head_at s.now (deep_of s.now levels) at.0) }
{
    if !at.within(5, s.len()) {
        return Err(Refusal(2, at));
    }
    let line = fields::line_at(s, at);
    let next = at.past(5);
    match shape_by_words(line / 0x10000) {
        Shape::End => Ok(Item::End(next)),
        Shape::Plain(operands) => read_simple(s, table, own, at, line, operands),
        Shape::Branch if 0 < levels => {
            read_conditional(s, table, own, next, levels - 1, keep, marks)
        }
        Shape::Save if 0 < levels => read_make_cont(s, table, own, next, levels - 1, keep, marks),
        Shape::Branch | Shape::Save => Err(Refusal(4, at)),
        Shape::NoCode => Err(Refusal(3, at)),
    }
}

// The list at a place of template `own`, with `levels` levels left below it: the place past it and its facts. `table` is the run's table, whose row
// `own` has the template's entries. Of each list that is read it keeps a mark, where `marks` has room for it: at the list's first place (`link_index`).
#[cycle(read_conditional_read_instr_read_list_read_make_cont)]
pub fn read_list(
    s: &[u8],
    table: &[u64],
    own: usize,
    at: BitPlace,
    levels: usize,
    keep: Keep,
    marks: &mut [u32],
) -> Reading<(BitPlace, Facts)>
    requires { (length s.now ≤ 65536) × (256 * own + 256 ≤ length table.now) × (own < 64) }
    ensures value { result ≡ listed table.now own (list_at s.now levels at.0) }
    ensures list_marked { list_marked keep marks.old marks.new at.0 (list_at s.now levels at.0) }
{
    let mut here = at;
    let mut st = begin();
    loop {
        let run = read_run(s, table, own, here);
        let so_far = run_after(st, run);
        match read_instr(s, table, own, run.past, levels, keep, marks)? {
            Item::End(next) => {
                let facts = finished(so_far);
                set_mark(marks, at, mark_of(keep, facts, next));
                return Ok((next, facts));
            }
            Item::More(next, more) => {
                here = next;
                st = state_after(so_far, more);
            }
        }
    }
}
