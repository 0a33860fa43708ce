// A step, and a run of steps (document 01, 'Rules'). Both machines take them here: they differ only in what stands at a code place and in
// where a template's code begins, and the place itself says whose it is.
#![tactic(auto)]

ghost use Rattle.std.specs.Prelude.{◌≡◌, List, ℕ, ◌-◌, ◌%◌, ◌≤◌, ◌<◌, ◌^◌, length};
ghost use Rattle.cells.specs.Cells.{frame_cell, frame_place};
ghost use Rattle.rules.specs.Fit.{Fit};
ghost use Rattle.machines.specs.Fetched.{plain, returns, calls, branches, saves, plainly};
ghost use Rattle.machines.specs.Machine.{Program, act, step};
ghost use Rattle.machines.specs.Runs.{Memory, memory, lent, ran, start_state};
ghost use Rattle.machines.specs.Slots.{slot_at, slot_resolve};
ghost use Rattle.machines.specs.Steps.{ran_from};
ghost use Rattle.machines.specs.Instruction.{number, form_of, fetched_as, Of, Places};
ghost use Rattle.steps.specs.Step.{start_at, control, state_of, ends_with, Taken};

use cells::{BitPlace, BytePlace};
use machines::{CodePlace, End, Instruction, Run};
use owners::Owner;
use rules::{Plain, Regs, Wrong};

// Where a run is: the template, the place in its code; and how many frame cells are in use.
#[derive(Clone, Copy)]
pub struct Control {
    pub template: u8,
    pub place: CodePlace,
    pub fr: usize,
}

// How a step ends: on, or with nothing changed.
#[derive(Clone, Copy)]
pub enum OneStep {
    Next(Regs, Control),
    Halted,
    Wrong(Wrong),
}

// ---- places, each of the form of code that another is of

fn frame_of(n: u8, template: u8, env: u16, saved: CodePlace) -> u64
    ensures { result ≡ frame_cell n template env (number saved % 0x1000000) }
{
    match saved {
        CodePlace::Tree(p) => cells::tree_frame(n, template, env, p),
        CodePlace::Linear(p) => cells::linear_frame(n, template, env, p),
    }
}

fn saved_place(cell: u64, like: CodePlace) -> CodePlace
    ensures { (number result ≡ frame_place cell) × Of (form_of like) result }
{
    match like {
        CodePlace::Tree(_) => CodePlace::Tree(cells::tree_place(cell)),
        CodePlace::Linear(_) => CodePlace::Linear(cells::linear_place(cell)),
    }
}

// Where a template's code begins.
fn start_place(table: &[u64], template: u8, like: CodePlace) -> CodePlace
    ensures { (number result ≡ start_at (form_of like) table.now template) × Of (form_of like) result }
{
    match like {
        CodePlace::Tree(_) => {
            CodePlace::Tree(BitPlace::from_slot(machines::slot_at(table, template, 0)))
        }
        CodePlace::Linear(_) => CodePlace::Linear(BytePlace(0)),
    }
}

// ---- each kind of instruction

// In line in each machine's loop, as its rule is.
#[inline(always)]
pub fn act_plain(
    owner: Owner,
    i: Plain,
    next: CodePlace,
    globals: &mut [u64; 256],
    stack: &mut [u64; 256],
    store: &mut [u64; 2048],
    r: Regs,
    c: Control,
) -> OneStep
    requires { Fit r × (c.fr ≤ 2048) }
    ensures { (P : Program) (f : List ℕ)
        → Taken (form_of next) result (memory globals.old stack.old store.old f)
        (memory globals.new stack.new store.new f)
        (act owner P (plain i (number next)) (state_of r c (memory globals.old stack.old store.old f))) }
{
    match rules::plain_rule(owner, i, globals, stack, store, r) {
        Ok(q) => OneStep::Next(q, Control { place: next, ..c }),
        Err(wrong) => OneStep::Wrong(wrong),
    }
}

// A neutral code with operands a and b, of which it may have fewer.
pub fn act_neutral(
    owner: Owner,
    table: &[u64],
    op: u8,
    a: u8,
    b: u8,
    next: CodePlace,
    globals: &mut [u64; 256],
    stack: &mut [u64; 256],
    store: &mut [u64; 2048],
    r: Regs,
    c: Control,
) -> OneStep
    requires { Fit r × (c.fr ≤ 2048) }
    ensures { (P : Program) (f : List ℕ)
        → Taken (form_of next) result (memory globals.old stack.old store.old f)
        (memory globals.new stack.new store.new f)
        (act owner P (plainly (slot_resolve (slot_at table.now c.template) op a b) (number next))
        (state_of r c (memory globals.old stack.old store.old f))) }
{
    match machines::resolve(table, c.template, op, a, b) {
        Some(i) => act_plain(owner, i, next, globals, stack, store, r, c),
        None => OneStep::Wrong(Wrong::BadCode),
    }
}

pub fn act_call(table: &[u64], n: u8, r: Regs, c: Control) -> OneStep
    requires { Fit r × (c.fr ≤ 2048) }
    ensures { (o : Owner) (P : Program) (m : Memory) → ((t : ℕ) → start_at (form_of c.place) table.now t ≡ P.start t)
        → Taken (form_of c.place) result m m (act o P (calls n) (state_of r c m)) }
{
    match rules::call(n, r) {
        Ok((template, q)) => {
            let here = c.place;
            let place = start_place(table, template, here);
            OneStep::Next(
                q,
                Control {
                    template,
                    place,
                    ..c
                },
            )
        }
        Err(wrong) => OneStep::Wrong(wrong),
    }
}

pub fn act_branch(first: CodePlace, second: CodePlace, r: Regs, c: Control) -> OneStep
    requires { Fit r × (c.fr ≤ 2048) × Of (form_of first) second }
    ensures { (o : Owner) (P : Program) (m : Memory)
        → Taken (form_of first) result m m (act o P (branches 0 (number first) (number second)) (state_of r c m)) }
{
    if r.v == cells::FALSE {
        act_jump(second, r, c)
    } else {
        act_jump(first, r, c)
    }
}

// On at a place, and nothing else changes.
pub fn act_jump(to: CodePlace, r: Regs, c: Control) -> OneStep
    ensures { result ≡ OneStep.Next r (control c.template to c.fr) }
{
    OneStep::Next(r, Control { place: to, ..c })
}

pub fn act_save(
    n: u8,
    saved: CodePlace,
    rest: CodePlace,
    stack: &mut [u64; 256],
    frames: &mut [u64; 2048],
    r: Regs,
    c: Control,
) -> OneStep
    requires { Fit r × (c.fr ≤ 2048) × (number saved < 2 ^ 24) }
    ensures { (o : Owner) (P : Program) (g t : List ℕ)
        → Taken (form_of rest) result (memory g stack.old t frames.old) (memory g stack.new t frames.new)
        (act o P (saves n (number saved) (number rest)) (state_of r c (memory g stack.old t frames.old))) }
{
    let cell = frame_of(n, c.template, r.env, saved);
    match frames::make_cont(stack, frames, c.fr, r, n, cell) {
        Ok((q, fr)) => OneStep::Next(
            q,
            Control {
                place: rest,
                fr,
                ..c
            },
        ),
        Err(wrong) => OneStep::Wrong(wrong),
    }
}

pub fn act_return(stack: &mut [u64; 256], frames: &mut [u64; 2048], r: Regs, c: Control) -> OneStep
    requires { Fit r × (c.fr ≤ 2048) }
    ensures { (o : Owner) (P : Program) (g t : List ℕ)
        → Taken (form_of c.place) result (memory g stack.old t frames.old) (memory g stack.new t frames.new)
        (act o P returns (state_of r c (memory g stack.old t frames.old))) }
{
    match frames::give_back(stack, frames, c.fr, r) {
        Some((q, fr, cell)) => {
            let template = cells::frame_template(cell);
            let here = c.place;
            let place = saved_place(cell, here);
            OneStep::Next(
                q,
                Control {
                    template,
                    place,
                    fr,
                },
            )
        }
        None => OneStep::Halted,
    }
}

// ---- a run

// The end of a run that has `left` of its budget left.
pub fn ended(end: End, budget: u64, left: u64, r: Regs, c: Control) -> Run
    requires { left ≤ budget }
    ensures { result ≡ ends_with end (budget - left) r c }
{
    Run {
        end,
        steps: budget - left,
        stack: r.sp,
        store: r.st,
        frames: c.fr,
    }
}
