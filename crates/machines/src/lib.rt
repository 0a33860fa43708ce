// The two machines (document 01, 'Rules').
#![tactic(auto)]

ghost use Rattle.std.specs.Prelude.{◌≡◌, length, not};
ghost use Rattle.std.specs.List.{position};
ghost use Rattle.cells.specs.Cells.{starting_global};
ghost use Rattle.machines.specs.Runs.{memory, lowest_unfit};
ghost use Rattle.machines.specs.Fetched.{as_literal};
ghost use Rattle.machines.specs.Slots.{slot_names, slot_at, slot_resolve, resolved_as, marked_as};
ghost use Rattle.machines.specs.Start.{zeros, refusal, globals_refusal, start_refusal};

use cells::{BitPlace, BytePlace, Value};
use files::Refusal;
use owners::Owner;
use rules::Plain;

// How a run ends.
#[derive(Clone, Copy)]
pub enum End {
    Halted(Value),
    Wrong(u8),
    OutOfBudget,
    // number and place
    Refused(u8, usize),
}

// What a run returns: its end, its steps, and how many cells of stack, store and frames are in use.
#[derive(Clone, Copy)]
pub struct Run {
    pub end: End,
    pub steps: u64,
    pub stack: usize,
    pub store: usize,
    pub frames: usize,
}

// The lowest global that is not one to start with.
fn first_unfit(globals: &[u64]) -> Option<usize>
    ensures { result ≡ position (λ c. not (starting_global c)) globals.now }
{
    for at in 0..globals.len() {
        if !cells::starting_global(globals[at]) {
            return Some(at);
        }
    }
    None
}

// 22: for the lowest global that is not one to start with.
fn globals_refusal(globals: &[u64]) -> Result<(), Refusal<usize>>
    ensures { result ≡ globals_refusal (lowest_unfit 0 globals.now) }
{
    match first_unfit(globals) {
        Some(place) => Err(Refusal(22, place)),
        None => Ok(()),
    }
}

// What is refused before a run looks at its file: 20, 21, 31 and 22, where a budget may be `most`; `owner` is the owner's number. Whose run
// it is, where nothing is refused.
#[tactic(auto, unfolding(crate::specs::Start::start_refusal, owners::specs::Owners::owner_told))]
pub fn start_refusal(
    globals: &[u64],
    stack: &[u64],
    store: &[u64],
    frames: &[u64],
    budget: u64,
    most: u64,
    owner: u64,
) -> Result<Owner, Refusal<usize>>
    ensures { result ≡ start_refusal most budget owner (memory globals.now stack.now store.now frames.now) }
{
    if globals.len() != 256 {
        return Err(Refusal(20, 0));
    }
    if stack.len() != 256 {
        return Err(Refusal(20, 0));
    }
    if store.len() != 2048 {
        return Err(Refusal(20, 0));
    }
    if frames.len() != 2048 {
        return Err(Refusal(20, 0));
    }
    if budget > most {
        return Err(Refusal(21, 0));
    }
    let whose = Owner::of(owner).ok_or(Refusal(31, 0))?;
    globals_refusal(globals)?;
    Ok(whose)
}

pub fn refused(number: u8, place: usize) -> Run
    ensures { result ≡ refusal number place }
{
    Run {
        end: End::Refused(number, place),
        steps: 0,
        stack: 0,
        store: 0,
        frames: 0,
    }
}

// An accepted start zeroes stack, store and frames.
pub fn clear_all(stack: &mut [u64; 256], store: &mut [u64; 2048], frames: &mut [u64; 2048])
    ensures { (stack.new ≡ zeros 256) × (store.new ≡ zeros 2048) × (frames.new ≡ zeros 2048) }
{
    stack.fill(0);
    store.fill(0);
    frames.fill(0);
}

// A code place: a bit number in a tree file, or a byte number within its template's code in a linear file.
#[derive(Clone, Copy)]
pub enum CodePlace {
    Tree(BitPlace),
    Linear(BytePlace),
}

// What stands at a code place. The places in it are where to go on; of a make-cont the saved place, and then the rest's.
#[derive(Clone, Copy)]
pub enum Instruction {
    // a neutral code and two operands, of which it may have fewer
    Neutral(u8, u8, u8, CodePlace),
    Return,
    Call(u8),
    Branch(CodePlace, CodePlace),
    Save(u8, CodePlace, CodePlace),
    Jump(CodePlace),
    // 16
    Bad,
}

// Slot n of a template's row in a run's table, 0 past the table's end.
pub fn slot_at(table: &[u64], template: u8, n: u8) -> u64
    ensures { result ≡ slot_at table.now template n }
{
    let i = 256 * (template as usize) + n as usize;
    if i < table.len() { table[i] } else { 0 }
}

// What a slot holds under a tag; none where its tag is another.
fn under_tag(slot: u64, tag: u64) -> Option<u8>
    ensures { result ≡ marked_as tag slot }
{
    if cells::tag_of(slot) == tag {
        Some((slot % 256) as u8)
    } else {
        None
    }
}

fn literal(slot: u64) -> Option<Plain>
    ensures { result ≡ resolved_as (as_literal (slot_names slot)) }
{
    let tag = cells::tag_of(slot);
    if tag == 0 {
        return None;
    }
    if tag <= 6 {
        Some(Plain::Literal(slot))
    } else {
        None
    }
}

// The rule of a code that names no entry, with operands a and b, of which it may have fewer; none where it is no such code.
pub fn unnamed(op: u8, a: u8, b: u8) -> Option<Plain>
    ensures { result ≡ resolved_as (slot_resolve (λ _. 0) op a b) }
{
    match op {
        10 => Some(Plain::Local(a, b)),
        11 => Some(Plain::SetLocal(a, b)),
        12 => Some(Plain::Push),
        13 => Some(Plain::MakeEnv(a)),
        15 => Some(Plain::Unspecified),
        16 => Some(Plain::CheckArgs(a)),
        18 => Some(Plain::Cons),
        19 => Some(Plain::Car),
        20 => Some(Plain::Cdr),
        21 => Some(Plain::Eqv),
        22 => Some(Plain::Add),
        23 => Some(Plain::Sub),
        24 => Some(Plain::Less),
        25 => Some(Plain::FloorDiv),
        _ => None,
    }
}

// The rule of a code with operands a and b, of which it may have fewer, in a template; none where the entry is unfit, or it is no neutral code.
pub fn resolve(table: &[u64], template: u8, op: u8, a: u8, b: u8) -> Option<Plain>
    ensures { result ≡ resolved_as (slot_resolve (slot_at table.now template) op a b) }
{
    match op {
        6 => literal(slot_at(table, template, a)),
        7 => Some(Plain::Closure(under_tag(slot_at(table, template, a), 12)?)),
        8 => Some(Plain::Global(under_tag(slot_at(table, template, a), 11)?)),
        9 => Some(Plain::SetGlobal(under_tag(slot_at(table, template, a), 11)?)),
        _ => unnamed(op, a, b),
    }
}
