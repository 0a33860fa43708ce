// A step of the tree machine, and a run of steps (document 01, 'Rules'). It has a loop of its own, whose step is one jump to what its code does: each code is
// known where its rule is called, so that the compiler puts the rule in line there.
#![tactic(auto)]

ghost use Rattle.std.specs.Prelude.{◌≡◌, ◌/◌, ◌≤◌, length};
ghost use Rattle.machines.specs.Machine.{act, step};
ghost use Rattle.machines.specs.Runs.{lent, ran, start_state};
ghost use Rattle.machines.specs.Steps.{ran_from};
ghost use Rattle.machines.specs.Instruction.{tree_form, Of};
ghost use Rattle.tree_code.specs.Fetch.{instruction_at, linked_program};
ghost use Rattle.steps.specs.Step.{state_of, Taken, StepReady};
ghost use Rattle.tree_steps.specs.Ready.{LineReady, first_regs, beginning};

use cells::BitPlace;
use machines::{CodePlace, End, Instruction, Run};
use owners::Owner;
use rules::{Regs, Wrong};
use steps::{Control, OneStep};

// The bit number that a place of this machine is.
fn bit_place(at: CodePlace) -> BitPlace
    requires { Of tree_form at }
    ensures { at ≡ CodePlace.Tree result }
{
    match at {
        CodePlace::Tree(p) => p,
        CodePlace::Linear(_) => BitPlace(0),
    }
}

// The instruction at a place, of which `line` has the code and what may be operands.
fn take_coded(
    owner: Owner,
    file: &[u8],
    links: &[u32],
    table: &[u64],
    at: BitPlace,
    line: u32,
    code: u32,
    globals: &mut [u64; 256],
    stack: &mut [u64; 256],
    store: &mut [u64; 2048],
    frames: &mut [u64; 2048],
    r: Regs,
    c: Control,
) -> OneStep
    requires { LineReady file.now table.now r c at.0 line × (code ≡ line / 0x10000) }
    ensures { Taken tree_form result (lent globals.entry stack.entry store.entry frames.entry)
        (lent globals.exit stack.exit store.exit frames.exit)
        (act owner (linked_program file.now links.now table.now)
        (instruction_at file.now links.now table.now c.template at.0)
        (state_of r c (lent globals.entry stack.entry store.entry frames.entry))) }
{
    match tree_code::fetch_coded(file, links, at, line, code) {
        Instruction::Neutral(op, a, b, next) => {
            steps::act_neutral(owner, table, op, a, b, next, globals, stack, store, r, c)
        }
        Instruction::Return => steps::act_return(stack, frames, r, c),
        Instruction::Call(n) => steps::act_call(table, n, r, c),
        Instruction::Branch(first, second) => steps::act_branch(first, second, r, c),
        Instruction::Save(n, saved, rest) => steps::act_save(n, saved, rest, stack, frames, r, c),
        Instruction::Jump(to) => steps::act_jump(to, r, c),
        Instruction::Bad => OneStep::Wrong(Wrong::BadCode),
    }
}

// The same, each code for itself, in three functions, since a proof grows with the square of the arms; g, s, t and f are globals, stack, store and frames.
fn take_above_20(
    owner: Owner,
    file: &[u8],
    links: &[u32],
    table: &[u64],
    at: BitPlace,
    line: u32,
    g: &mut [u64; 256],
    s: &mut [u64; 256],
    t: &mut [u64; 2048],
    f: &mut [u64; 2048],
    r: Regs,
    c: Control,
) -> OneStep
    requires { LineReady file.now table.now r c at.0 line × (21 ≤ line / 0x10000) }
    ensures { Taken tree_form result (lent g.entry s.entry t.entry f.entry)
        (lent g.exit s.exit t.exit f.exit)
        (act owner (linked_program file.now links.now table.now)
        (instruction_at file.now links.now table.now c.template at.0)
        (state_of r c (lent g.entry s.entry t.entry f.entry))) }
{
    let code = line / 0x10000;
    match code {
        21 => take_coded(owner, file, links, table, at, line, 21, g, s, t, f, r, c),
        22 => take_coded(owner, file, links, table, at, line, 22, g, s, t, f, r, c),
        23 => take_coded(owner, file, links, table, at, line, 23, g, s, t, f, r, c),
        24 => take_coded(owner, file, links, table, at, line, 24, g, s, t, f, r, c),
        25 => take_coded(owner, file, links, table, at, line, 25, g, s, t, f, r, c),
        26 => take_coded(owner, file, links, table, at, line, 26, g, s, t, f, r, c),
        27 => take_coded(owner, file, links, table, at, line, 27, g, s, t, f, r, c),
        28 => take_coded(owner, file, links, table, at, line, 28, g, s, t, f, r, c),
        29 => take_coded(owner, file, links, table, at, line, 29, g, s, t, f, r, c),
        30 => take_coded(owner, file, links, table, at, line, 30, g, s, t, f, r, c),
        _ => take_coded(owner, file, links, table, at, line, 31, g, s, t, f, r, c),
    }
}

fn take_above_10(
    owner: Owner,
    file: &[u8],
    links: &[u32],
    table: &[u64],
    at: BitPlace,
    line: u32,
    g: &mut [u64; 256],
    s: &mut [u64; 256],
    t: &mut [u64; 2048],
    f: &mut [u64; 2048],
    r: Regs,
    c: Control,
) -> OneStep
    requires { LineReady file.now table.now r c at.0 line × (11 ≤ line / 0x10000) }
    ensures { Taken tree_form result (lent g.entry s.entry t.entry f.entry)
        (lent g.exit s.exit t.exit f.exit)
        (act owner (linked_program file.now links.now table.now)
        (instruction_at file.now links.now table.now c.template at.0)
        (state_of r c (lent g.entry s.entry t.entry f.entry))) }
{
    let code = line / 0x10000;
    match code {
        11 => take_coded(owner, file, links, table, at, line, 11, g, s, t, f, r, c),
        12 => take_coded(owner, file, links, table, at, line, 12, g, s, t, f, r, c),
        13 => take_coded(owner, file, links, table, at, line, 13, g, s, t, f, r, c),
        14 => take_coded(owner, file, links, table, at, line, 14, g, s, t, f, r, c),
        15 => take_coded(owner, file, links, table, at, line, 15, g, s, t, f, r, c),
        16 => take_coded(owner, file, links, table, at, line, 16, g, s, t, f, r, c),
        17 => take_coded(owner, file, links, table, at, line, 17, g, s, t, f, r, c),
        18 => take_coded(owner, file, links, table, at, line, 18, g, s, t, f, r, c),
        19 => take_coded(owner, file, links, table, at, line, 19, g, s, t, f, r, c),
        20 => take_coded(owner, file, links, table, at, line, 20, g, s, t, f, r, c),
        _ => take_above_20(owner, file, links, table, at, line, g, s, t, f, r, c),
    }
}

fn take_line(
    owner: Owner,
    file: &[u8],
    links: &[u32],
    table: &[u64],
    at: BitPlace,
    line: u32,
    g: &mut [u64; 256],
    s: &mut [u64; 256],
    t: &mut [u64; 2048],
    f: &mut [u64; 2048],
    r: Regs,
    c: Control,
) -> OneStep
    requires { LineReady file.now table.now r c at.0 line }
    ensures { Taken tree_form result (lent g.entry s.entry t.entry f.entry)
        (lent g.exit s.exit t.exit f.exit)
        (act owner (linked_program file.now links.now table.now)
        (instruction_at file.now links.now table.now c.template at.0)
        (state_of r c (lent g.entry s.entry t.entry f.entry))) }
{
    let code = line / 0x10000;
    match code {
        0 => take_coded(owner, file, links, table, at, line, 0, g, s, t, f, r, c),
        1 => take_coded(owner, file, links, table, at, line, 1, g, s, t, f, r, c),
        2 => take_coded(owner, file, links, table, at, line, 2, g, s, t, f, r, c),
        3 => take_coded(owner, file, links, table, at, line, 3, g, s, t, f, r, c),
        4 => take_coded(owner, file, links, table, at, line, 4, g, s, t, f, r, c),
        5 => take_coded(owner, file, links, table, at, line, 5, g, s, t, f, r, c),
        6 => take_coded(owner, file, links, table, at, line, 6, g, s, t, f, r, c),
        7 => take_coded(owner, file, links, table, at, line, 7, g, s, t, f, r, c),
        8 => take_coded(owner, file, links, table, at, line, 8, g, s, t, f, r, c),
        9 => take_coded(owner, file, links, table, at, line, 9, g, s, t, f, r, c),
        10 => take_coded(owner, file, links, table, at, line, 10, g, s, t, f, r, c),
        _ => take_above_10(owner, file, links, table, at, line, g, s, t, f, r, c),
    }
}

// What stands at c's place. At a list's end execution goes on where the link leads; no list is in more than 16 lists.
fn take_step(
    owner: Owner,
    file: &[u8],
    links: &[u32],
    table: &[u64],
    globals: &mut [u64; 256],
    stack: &mut [u64; 256],
    store: &mut [u64; 2048],
    frames: &mut [u64; 2048],
    r: Regs,
    c: Control,
) -> OneStep
    requires { Of tree_form c.place × StepReady file.now table.now r c }
    ensures { Taken tree_form result (lent globals.entry stack.entry store.entry frames.entry)
        (lent globals.exit stack.exit store.exit frames.exit)
        (step owner (linked_program file.now links.now table.now)
        (state_of r c (lent globals.entry stack.entry store.entry frames.entry))) }
{
    let place = c.place;
    let at = bit_place(place);
    if at.is_first() {
        return steps::act_return(stack, frames, r, c);
    }
    let mut here = at;
    let mut left: usize = 17;
    while here.within(5, file.len()) {
        let line = fields::line_at(file, here);
        if 0x10000 <= line {
            return take_line(
                owner, file, links, table, here, line, globals, stack, store, frames, r, c,
            );
        }
        if left == 0 {
            return OneStep::Wrong(Wrong::BadCode);
        }
        here = links::link_at(links, here);
        left = left - 1;
    }
    OneStep::Wrong(Wrong::BadCode)
}

// At most `budget` steps from the beginning of template 0's code, `first`. Registers and place are kept one by one: as structs their padding would be copied at
// each step.
fn run_from(
    file: &[u8],
    links: &[u32],
    table: &[u64],
    first: BitPlace,
    budget: u64,
    owner: Owner,
    globals: &mut [u64; 256],
    stack: &mut [u64; 256],
    store: &mut [u64; 2048],
    frames: &mut [u64; 2048],
) -> Run
    requires { StepReady file.now table.now first_regs (beginning first) }
    ensures { ran result (lent globals.exit stack.exit store.exit frames.exit)
        ≡ ran_from owner (linked_program file.now links.now table.now) budget 0
        (state_of first_regs (beginning first) (lent globals.entry stack.entry store.entry frames.entry)) }
{
    let mut v = cells::UNSPECIFIED;
    let mut env: u16 = 0;
    let mut sp = 0;
    let mut st = 0;
    let mut template: u8 = 0;
    let mut at = first;
    let mut fr: usize = 0;
    for done in 0..budget {
        let left = budget - done;
        let r = Regs { v, env, sp, st };
        let c = Control {
            template,
            place: CodePlace::Tree(at),
            fr,
        };
        match take_step(
            owner, file, links, table, globals, stack, store, frames, r, c,
        ) {
            OneStep::Next(q, k) => {
                v = q.v;
                env = q.env;
                sp = q.sp;
                st = q.st;
                template = k.template;
                let place = k.place;
                at = bit_place(place);
                fr = k.fr;
            }
            OneStep::Halted => {
                return steps::ended(End::Halted(cells::value_of(r.v)), budget, left - 1, r, c);
            }
            OneStep::Wrong(wrong) => {
                return steps::ended(End::Wrong(wrong.number()), budget, left, r, c);
            }
        }
    }
    let r = Regs { v, env, sp, st };
    let c = Control {
        template,
        place: CodePlace::Tree(at),
        fr,
    };
    steps::ended(End::OutOfBudget, budget, 0, r, c)
}

// At most `budget` steps from the start of a tree file with its links and its table, where template 0's code begins at `first`.
pub fn run_code(
    file: &[u8],
    links: &[u32],
    table: &[u64],
    first: BitPlace,
    budget: u64,
    owner: Owner,
    globals: &mut [u64; 256],
    stack: &mut [u64; 256],
    store: &mut [u64; 2048],
    frames: &mut [u64; 2048],
) -> Run
    requires { length file.now ≤ 65536 }
    ensures { ran result (lent globals.exit stack.exit store.exit frames.exit)
        ≡ ran_from owner (linked_program file.now links.now table.now) budget 0
        (start_state globals.old first.0) }
{
    machines::clear_all(stack, store, frames);
    run_from(
        file, links, table, first, budget, owner, globals, stack, store, frames,
    )
}
