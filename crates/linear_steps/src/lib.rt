// A step of the linear machine, and a run of steps (document 01, 'Rules'). A code that has an arm of its own is a constant where its rule is called: the
// compiler then puts the rule in line there, and a step is one jump to what its code does.
#![tactic(auto)]

ghost use Rattle.std.specs.Prelude.{◌≡◌, false, List, ℕ, ◌+◌, ◌≤◌, length};
ghost use Rattle.runs.specs.Runs.{part};
ghost use Rattle.rules.specs.Fit.{Fit};
ghost use Rattle.machines.specs.Machine.{Program, act, step};
ghost use Rattle.machines.specs.Runs.{memory, lent, ran, start_state};
ghost use Rattle.machines.specs.Steps.{ran_from};
ghost use Rattle.machines.specs.Slots.{slot_at};
ghost use Rattle.machines.specs.Instruction.{number, linear_form, Of};
ghost use Rattle.linear_code.specs.Bytes.{code_bytes, bytes_program, AllWithin};
ghost use Rattle.linear_code.specs.Neutral.{is_transfer};
ghost use Rattle.steps.specs.Step.{control, state_of, Taken, StepReady};
ghost use Rattle.linear_steps.specs.Code.{code_of};

use cells::BytePlace;
use machines::{CodePlace, End, Instruction, Run};
use owners::Owner;
use rules::{Regs, Wrong};
use steps::{Control, OneStep};

// Where a template's code lies in the file: its first byte, and how many there are.
#[derive(Clone, Copy)]
pub struct Code {
    pub start: usize,
    pub len: usize,
}

// The place of a code, and the `left` bytes at i after it.
#[derive(Clone, Copy)]
struct Here {
    pub at: BytePlace,
    pub i: usize,
    pub left: usize,
}

// The byte number that a place of this machine is.
fn byte_place(at: CodePlace) -> BytePlace
    requires { Of linear_form at }
    ensures { result.0 ≡ number at }
{
    match at {
        CodePlace::Tree(_) => BytePlace(0),
        CodePlace::Linear(p) => p,
    }
}

// ---- a step, by its code

fn take_neutral(
    owner: Owner,
    s: &[u8],
    table: &[u64],
    here: Here,
    op: u8,
    globals: &mut [u64; 256],
    stack: &mut [u64; 256],
    store: &mut [u64; 2048],
    r: Regs,
    c: Control,
) -> OneStep
    requires { (here.i + here.left ≤ length s.now) × (here.at.0 ≤ 262144) × (is_transfer op ≡ false) × Fit r × (c.fr ≤ 2048) }
    ensures { (P : Program) (f : List ℕ)
        → Taken linear_form result (memory globals.old stack.old store.old f)
        (memory globals.new stack.new store.new f)
        (act owner P (code_bytes (slot_at table.now c.template) here.at.0 op (part s.now here.i here.left))
        (state_of r c (memory globals.old stack.old store.old f))) }
{
    match linear_code::neutral_at(s, here.i, here.left, op, here.at) {
        Some((a, b, next)) => steps::act_neutral(
            owner,
            table,
            op,
            a,
            b,
            CodePlace::Linear(next),
            globals,
            stack,
            store,
            r,
            c,
        ),
        None => OneStep::Wrong(Wrong::BadCode),
    }
}

fn take_transfer(
    owner: Owner,
    s: &[u8],
    table: &[u64],
    here: Here,
    op: u8,
    globals: &mut [u64; 256],
    stack: &mut [u64; 256],
    store: &mut [u64; 2048],
    frames: &mut [u64; 2048],
    r: Regs,
    c: Control,
) -> OneStep
    requires { (here.i + here.left ≤ length s.now) × (here.at.0 ≤ 262144) × Of linear_form c.place
        × StepReady s.now table.now r c }
    ensures { Taken linear_form result (lent globals.entry stack.entry store.entry frames.entry)
        (lent globals.exit stack.exit store.exit frames.exit)
        (act owner (bytes_program s.now table.now)
        (code_bytes (slot_at table.now c.template) here.at.0 op (part s.now here.i here.left))
        (state_of r c (lent globals.entry stack.entry store.entry frames.entry))) }
{
    match linear_code::fetch_op(s, here.i, here.left, op, here.at) {
        Instruction::Neutral(code, a, b, next) => {
            steps::act_neutral(owner, table, code, a, b, next, globals, stack, store, r, c)
        }
        Instruction::Return => steps::act_return(stack, frames, r, c),
        Instruction::Call(n) => steps::act_call(table, n, r, c),
        Instruction::Branch(first, second) => steps::act_branch(first, second, r, c),
        Instruction::Save(n, saved, rest) => {
            steps::act_save(n, saved, rest, stack, frames, r, c)
        }
        Instruction::Jump(to) => steps::act_jump(to, r, c),
        Instruction::Bad => OneStep::Wrong(Wrong::BadCode),
    }
}

// Each code has an arm of its own, in three functions, since a proof grows with the square of the arms. g, k, t, f: globals, stack, store, frames.
fn take_primitive(
    owner: Owner,
    s: &[u8],
    table: &[u64],
    here: Here,
    op: u8,
    g: &mut [u64; 256],
    k: &mut [u64; 256],
    t: &mut [u64; 2048],
    r: Regs,
    c: Control,
) -> OneStep
    requires { (here.i + here.left ≤ length s.now) × (here.at.0 ≤ 262144) × (is_transfer op ≡ false) × Fit r × (c.fr ≤ 2048) }
    ensures { (P : Program) (f : List ℕ)
        → Taken linear_form result (memory g.old k.old t.old f)
        (memory g.new k.new t.new f)
        (act owner P (code_bytes (slot_at table.now c.template) here.at.0 op (part s.now here.i here.left))
        (state_of r c (memory g.old k.old t.old f))) }
{
    match op {
        16 => take_neutral(owner, s, table, here, 16, g, k, t, r, c),
        18 => take_neutral(owner, s, table, here, 18, g, k, t, r, c),
        19 => take_neutral(owner, s, table, here, 19, g, k, t, r, c),
        20 => take_neutral(owner, s, table, here, 20, g, k, t, r, c),
        21 => take_neutral(owner, s, table, here, 21, g, k, t, r, c),
        22 => take_neutral(owner, s, table, here, 22, g, k, t, r, c),
        23 => take_neutral(owner, s, table, here, 23, g, k, t, r, c),
        24 => take_neutral(owner, s, table, here, 24, g, k, t, r, c),
        25 => take_neutral(owner, s, table, here, 25, g, k, t, r, c),
        _ => take_neutral(owner, s, table, here, op, g, k, t, r, c),
    }
}

fn take_data(
    owner: Owner,
    s: &[u8],
    table: &[u64],
    here: Here,
    op: u8,
    g: &mut [u64; 256],
    k: &mut [u64; 256],
    t: &mut [u64; 2048],
    r: Regs,
    c: Control,
) -> OneStep
    requires { (here.i + here.left ≤ length s.now) × (here.at.0 ≤ 262144) × (is_transfer op ≡ false) × Fit r × (c.fr ≤ 2048) }
    ensures { (P : Program) (f : List ℕ)
        → Taken linear_form result (memory g.old k.old t.old f)
        (memory g.new k.new t.new f)
        (act owner P (code_bytes (slot_at table.now c.template) here.at.0 op (part s.now here.i here.left))
        (state_of r c (memory g.old k.old t.old f))) }
{
    match op {
        6 => take_neutral(owner, s, table, here, 6, g, k, t, r, c),
        7 => take_neutral(owner, s, table, here, 7, g, k, t, r, c),
        8 => take_neutral(owner, s, table, here, 8, g, k, t, r, c),
        9 => take_neutral(owner, s, table, here, 9, g, k, t, r, c),
        10 => take_neutral(owner, s, table, here, 10, g, k, t, r, c),
        11 => take_neutral(owner, s, table, here, 11, g, k, t, r, c),
        12 => take_neutral(owner, s, table, here, 12, g, k, t, r, c),
        13 => take_neutral(owner, s, table, here, 13, g, k, t, r, c),
        15 => take_neutral(owner, s, table, here, 15, g, k, t, r, c),
        _ => take_primitive(owner, s, table, here, op, g, k, t, r, c),
    }
}

fn take_coded(
    owner: Owner,
    s: &[u8],
    table: &[u64],
    here: Here,
    op: u8,
    g: &mut [u64; 256],
    k: &mut [u64; 256],
    t: &mut [u64; 2048],
    f: &mut [u64; 2048],
    r: Regs,
    c: Control,
) -> OneStep
    requires { (here.i + here.left ≤ length s.now) × (here.at.0 ≤ 262144) × Of linear_form c.place
        × StepReady s.now table.now r c }
    ensures { Taken linear_form result (lent g.entry k.entry t.entry f.entry)
        (lent g.exit k.exit t.exit f.exit)
        (act owner (bytes_program s.now table.now)
        (code_bytes (slot_at table.now c.template) here.at.0 op (part s.now here.i here.left))
        (state_of r c (lent g.entry k.entry t.entry f.entry))) }
{
    match op {
        1 => take_transfer(owner, s, table, here, 1, g, k, t, f, r, c),
        2 => take_transfer(owner, s, table, here, 2, g, k, t, f, r, c),
        3 => take_transfer(owner, s, table, here, 3, g, k, t, f, r, c),
        4 => take_transfer(owner, s, table, here, 4, g, k, t, f, r, c),
        5 => take_transfer(owner, s, table, here, 5, g, k, t, f, r, c),
        _ => take_data(owner, s, table, here, op, g, k, t, r, c),
    }
}

// ---- a step

// Where a template's code lies.
fn code_at(table: &[u64], template: u8) -> Code
    ensures { result ≡ code_of table.now template }
{
    let slot = machines::slot_at(table, template, 0);
    Code {
        start: (slot % 0x1_0000_0000) as usize,
        len: (slot / 0x1_0000_0000) as usize,
    }
}

// The same, where another template's is known: most steps stay in their template.
fn code_after(table: &[u64], template: u8, before: u8, code: Code) -> Code
    requires { code ≡ code_of table.now before }
    ensures { result ≡ code_of table.now template }
{
    if template == before {
        code
    } else {
        code_at(table, template)
    }
}

// A step in a template whose code lies so.
fn take_step(
    owner: Owner,
    file: &[u8],
    table: &[u64],
    code: Code,
    globals: &mut [u64; 256],
    stack: &mut [u64; 256],
    store: &mut [u64; 2048],
    frames: &mut [u64; 2048],
    r: Regs,
    c: Control,
) -> OneStep
    requires { (code ≡ code_of table.now c.template) × Of linear_form c.place
        × StepReady file.now table.now r c }
    ensures { Taken linear_form result (lent globals.entry stack.entry store.entry frames.entry)
        (lent globals.exit stack.exit store.exit frames.exit)
        (step owner (bytes_program file.now table.now)
        (state_of r c (lent globals.entry stack.entry store.entry frames.entry))) }
{
    let place = c.place;
    let at = byte_place(place);
    let left = at.left(code.len);
    if left == 0 {
        if code.start != 0 {
            return OneStep::Wrong(Wrong::BadCode);
        }
        if at.is_first() {
            return steps::act_return(stack, frames, r, c);
        }
        return OneStep::Wrong(Wrong::BadCode);
    }
    let i = at.index(code.start);
    let here = Here {
        at,
        i: i + 1,
        left: left - 1,
    };
    let op = file[i];
    take_coded(
        owner, file, table, here, op, globals, stack, store, frames, r, c,
    )
}

// ---- a run

// At most `budget` steps in template 0, from the registers and the place that are given. Registers, template, place and frames are kept one by one: as
// structs their padding would be copied at each step.
fn run_from(
    file: &[u8],
    table: &[u64],
    globals: &mut [u64; 256],
    stack: &mut [u64; 256],
    store: &mut [u64; 2048],
    frames: &mut [u64; 2048],
    budget: u64,
    owner: Owner,
    first: Regs,
    begin: BytePlace,
) -> Run
    requires { StepReady file.now table.now first (control 0 (CodePlace.Linear begin) 0) }
    ensures { ran result (lent globals.exit stack.exit store.exit frames.exit)
        ≡ ran_from owner (bytes_program file.now table.now) budget 0
        (state_of first (control 0 (CodePlace.Linear begin) 0) (lent globals.entry stack.entry store.entry frames.entry)) }
{
    let mut v = first.v;
    let mut env = first.env;
    let mut sp = first.sp;
    let mut st = first.st;
    let mut template: u8 = 0;
    let mut at = begin;
    let mut fr: usize = 0;
    let mut code = code_at(table, template);
    for done in 0..budget {
        let left = budget - done;
        let r = Regs { v, env, sp, st };
        let c = Control {
            template,
            place: CodePlace::Linear(at),
            fr,
        };
        match take_step(
            owner, file, table, code, globals, stack, store, frames, r, c,
        ) {
            OneStep::Next(q, k) => {
                v = q.v;
                env = q.env;
                sp = q.sp;
                st = q.st;
                code = code_after(table, k.template, template, code);
                template = k.template;
                let to = k.place;
                at = byte_place(to);
                fr = k.fr;
            }
            OneStep::Halted => {
                return steps::ended(End::Halted(cells::value_of(r.v)), budget, left - 1, r, c);
            }
            OneStep::Wrong(wrong) => {
                return steps::ended(End::Wrong(wrong.number()), budget, left, r, c);
            }
        }
    }
    let last = Control {
        template,
        place: CodePlace::Linear(at),
        fr,
    };
    steps::ended(End::OutOfBudget, budget, 0, Regs { v, env, sp, st }, last)
}

// At most `budget` steps from the start of a linear file with its table.
pub fn run_code(
    file: &[u8],
    table: &[u64],
    budget: u64,
    owner: Owner,
    globals: &mut [u64; 256],
    stack: &mut [u64; 256],
    store: &mut [u64; 2048],
    frames: &mut [u64; 2048],
) -> Run
    requires { AllWithin file.now table.now }
    ensures { ran result (lent globals.exit stack.exit store.exit frames.exit)
        ≡ ran_from owner (bytes_program file.now table.now) budget 0 (start_state globals.old 0) }
{
    machines::clear_all(stack, store, frames);
    let registers = Regs {
        v: cells::UNSPECIFIED,
        env: 0,
        sp: 0,
        st: 0,
    };
    run_from(
        file,
        table,
        globals,
        stack,
        store,
        frames,
        budget,
        owner,
        registers,
        BytePlace(0),
    )
}
