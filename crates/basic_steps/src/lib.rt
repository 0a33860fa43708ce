// A step of the basic machine, and a run of steps (document 02, request 6). Its states and ends are those of `steps`, its places those of a tree: bit numbers.
// It has a loop of its own, since a third form of code in the loop of `steps` made each step of the other machines longer.
#![tactic(auto)]

ghost use Rattle.std.specs.Prelude.{◌≡◌, ◌≤◌, length};
ghost use Rattle.machines.specs.Machine.{step};
ghost use Rattle.machines.specs.Runs.{lent, ran, start_state};
ghost use Rattle.machines.specs.Steps.{ran_from};
ghost use Rattle.machines.specs.Instruction.{number, tree_form, Of};
ghost use Rattle.steps.specs.Step.{state_of, Taken, StepReady};
ghost use Rattle.basic_code.specs.Fetch.{basic_linked};

use basic_code::BasicInstruction;
use cells::BitPlace;
use machines::{CodePlace, End, Run};
use owners::Owner;
use rules::{Regs, Wrong};
use steps::{Control, OneStep};

// The bit number that a place of this machine is.
fn bit_place(at: CodePlace) -> BitPlace
    requires { Of tree_form at }
    ensures { result.0 ≡ number at }
{
    match at {
        CodePlace::Tree(p) => p,
        CodePlace::Linear(_) => BitPlace(0),
    }
}

fn take_step(
    owner: Owner,
    file: &[u8],
    links: &[u32],
    table: &[u64],
    globals: &mut [u64; 256],
    stack: &mut [u64; 256],
    store: &mut [u64; 2048],
    frames: &mut [u64; 2048],
    r: Regs,
    c: Control,
) -> OneStep
    requires { Of tree_form c.place × StepReady file.now table.now r c }
    ensures { Taken tree_form result (lent globals.entry stack.entry store.entry frames.entry)
        (lent globals.exit stack.exit store.exit frames.exit)
        (step owner (basic_linked file.now links.now table.now)
        (state_of r c (lent globals.entry stack.entry store.entry frames.entry))) }
{
    let place = c.place;
    match basic_code::fetch(file, links, c.template, bit_place(place)) {
        BasicInstruction::Ready(i, next) => steps::act_plain(
            owner,
            i,
            CodePlace::Tree(next),
            globals,
            stack,
            store,
            r,
            c,
        ),
        BasicInstruction::Return => steps::act_return(stack, frames, r, c),
        BasicInstruction::Call(n) => steps::act_call(table, n, r, c),
        BasicInstruction::Branch(first, second) => {
            steps::act_branch(CodePlace::Tree(first), CodePlace::Tree(second), r, c)
        }
        BasicInstruction::Save(n, saved, rest) => {
            let to = CodePlace::Tree(saved);
            steps::act_save(n, to, CodePlace::Tree(rest), stack, frames, r, c)
        }
        BasicInstruction::Bad => OneStep::Wrong(Wrong::BadCode),
    }
}

// At most `budget` steps, from the registers and the place that are given.
fn run_from(
    file: &[u8],
    links: &[u32],
    table: &[u64],
    globals: &mut [u64; 256],
    stack: &mut [u64; 256],
    store: &mut [u64; 2048],
    frames: &mut [u64; 2048],
    budget: u64,
    owner: Owner,
    first: Regs,
    from: Control,
) -> Run
    requires { Of tree_form from.place × StepReady file.now table.now first from }
    ensures { ran result (lent globals.exit stack.exit store.exit frames.exit)
        ≡ ran_from owner (basic_linked file.now links.now table.now) budget 0
        (state_of first from (lent globals.entry stack.entry store.entry frames.entry)) }
{
    let mut r = first;
    let mut c = from;
    for done in 0..budget {
        let left = budget - done;
        match take_step(
            owner, file, links, table, globals, stack, store, frames, r, c,
        ) {
            OneStep::Next(q, k) => {
                r = q;
                c = k;
            }
            OneStep::Halted => {
                return steps::ended(End::Halted(cells::value_of(r.v)), budget, left - 1, r, c);
            }
            OneStep::Wrong(wrong) => {
                return steps::ended(End::Wrong(wrong.number()), budget, left, r, c);
            }
        }
    }
    steps::ended(End::OutOfBudget, budget, 0, r, c)
}

// At most `budget` steps from the start of a basic file with its links and its table.
pub fn run_code(
    file: &[u8],
    links: &[u32],
    table: &[u64],
    first: BitPlace,
    budget: u64,
    owner: Owner,
    globals: &mut [u64; 256],
    stack: &mut [u64; 256],
    store: &mut [u64; 2048],
    frames: &mut [u64; 2048],
) -> Run
    requires { length file.now ≤ 65536 }
    ensures { ran result (lent globals.exit stack.exit store.exit frames.exit)
        ≡ ran_from owner (basic_linked file.now links.now table.now) budget 0
        (start_state globals.old first.0) }
{
    machines::clear_all(stack, store, frames);
    let registers = Regs {
        v: cells::UNSPECIFIED,
        env: 0,
        sp: 0,
        st: 0,
    };
    let from = Control {
        template: 0,
        place: CodePlace::Tree(first),
        fr: 0,
    };
    run_from(
        file, links, table, globals, stack, store, frames, budget, owner, registers, from,
    )
}
