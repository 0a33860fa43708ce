// The data rules (document 01, 'Rules'): what an instruction does to registers and lent cells. They see no code place.
#![tactic(auto)]

ghost use Rattle.std.specs.Prelude.{◌≡◌, List, ℕ, ◌+◌, ◌-◌, ◌<◌, ◌≤◌, get_or, set, take};
ghost use Rattle.runs.specs.Runs.{zeroed};
ghost use Rattle.rules.specs.WrongNumber.{wrong_number};
ghost use Rattle.rules.specs.declared.Wrong.TheVariants.{Kind};
ghost use Rattle.rules.specs.State.{Mem, mem, regs, answered, out};
ghost use Rattle.rules.specs.Fit.{Fit, EndFit, CallFit};
ghost use Rattle.rules.specs.Answers.{ends, found_at, integer_by, RangedFits, operands_of, OperandsFit};
ghost use Rattle.rules.specs.Rules.{literal_rule, closure_rule, held_rule, walk, local_rule, set_local_rule};
ghost use Rattle.rules.specs.Rules.{push_rule, make_env_rule, check_args_rule, cons_rule, top, part_rule, car_rule, cdr_rule, eqv_rule, add_rule, sub_rule};
ghost use Rattle.rules.specs.Rules.{less_rule};
ghost use Rattle.rules.specs.Rules.{floor_div_rule};
ghost use Rattle.rules.specs.Rules.{call_rule};
ghost use Rattle.rules.specs.Owned.{owned_rule};

use cells::{pair_first, pair_second};
use integers::NotIntegers;
use owners::Owner;
use runs::copy_down;

// The value, the environment, and how many cells of the stack and of the store are in use.
#[derive(Clone, Copy)]
pub struct Regs {
    pub v: u64,
    pub env: u16,
    pub sp: usize,
    pub st: usize,
}

// What is wrong in a step, which then changes nothing.
#[derive(Clone, Copy, PartialEq, Eq)]
pub enum Wrong {
    Count,
    NoClosure,
    Undefined,
    BeyondLayers,
    Kind,
    OutOfRange,
    BadCode,
    StackFull,
    NoRoom,
    ZeroDivisor,
    NotOwned,
}

impl Wrong {
    // The number of document 01's table.
    pub fn number(self) -> u8
        ensures { result ≡ wrong_number self }
    {
        match self {
            Wrong::Count => 10,
            Wrong::NoClosure => 11,
            Wrong::Undefined => 12,
            Wrong::BeyondLayers => 13,
            Wrong::Kind => 14,
            Wrong::OutOfRange => 15,
            Wrong::BadCode => 16,
            Wrong::StackFull => 17,
            Wrong::NoRoom => 18,
            Wrong::ZeroDivisor => 23,
            Wrong::NotOwned => 25,
        }
    }
}

impl From<NotIntegers> for Wrong {
    ghost from_gives = { λ _ wrong. wrong ≡ Kind };

    fn from(_other: NotIntegers) -> Wrong {
        Wrong::Kind
    }
}

// The instructions that neither look at the frames nor go elsewhere, their entries resolved.
#[derive(Clone, Copy)]
pub enum Plain {
    Literal(u64),
    Closure(u8),
    Global(u8),
    SetGlobal(u8),
    Local(u8, u8),
    SetLocal(u8, u8),
    Push,
    Unspecified,
    MakeEnv(u8),
    CheckArgs(u8),
    Cons,
    Car,
    Cdr,
    Eqv,
    Add,
    Sub,
    Less,
    FloorDiv,
}

// The cell at a place, 0 past the end.
fn fetch(s: &[u64], at: usize) -> u64
    ensures { result ≡ get_or s.now at 0 }
{
    if at < s.len() { s[at] } else { 0 }
}

// A cell into a place, nothing past the end.
fn put(s: &mut [u64], at: usize, c: u64)
    ensures { s.new ≡ set s.old at c }
{
    if at < s.len() {
        s[at] = c;
    }
}

// ---- literal, closure

fn literal(c: u64, r: Regs) -> Result<Regs, Wrong>
    ensures { (m : Mem) → out result m ≡ ends (literal_rule c) m r }
{
    Ok(Regs { v: c, ..r })
}

fn closure(store: &mut [u64; 2048], t: u8, r: Regs) -> Result<Regs, Wrong>
    requires { Fit r }
    ensures { (g s : List ℕ) → out result (mem g s store.new) ≡ ends (closure_rule t) (mem g s store.old) r }
{
    let st = r.st;
    if st + 1 <= 2048 {
        store[st] = cells::UNSPECIFIED;
        let v = cells::closure_cell(t, r.env, st as u16);
        Ok(Regs { v, st: st + 1, ..r })
    } else {
        Err(Wrong::NoRoom)
    }
}

// ---- global, set-global!

// v is what is held, unless that is undefined.
fn held(c: u64, r: Regs) -> Result<Regs, Wrong>
    ensures { (m : Mem) → out result m ≡ ends (held_rule c) m r }
{
    if c == cells::UNDEFINED {
        Err(Wrong::Undefined)
    } else {
        Ok(Regs { v: c, ..r })
    }
}

fn global(owner: Owner, globals: &[u64; 256], g: u8, r: Regs) -> Result<Regs, Wrong>
    ensures { (s t : List ℕ) → out result (mem globals.now s t) ≡ ends (owned_rule owner (Plain.Global g)) (mem globals.now s t) r }
{
    if !owners::may_read(owner, g) {
        return Err(Wrong::NotOwned);
    }
    let at = g as usize;
    held(globals[at], r)
}

fn set_global(owner: Owner, globals: &mut [u64; 256], g: u8, r: Regs) -> Result<Regs, Wrong>
    ensures { (s t : List ℕ)
        → out result (mem globals.new s t) ≡ ends (owned_rule owner (Plain.SetGlobal g)) (mem globals.old s t) r }
{
    if !owners::may_set(owner, g) {
        return Err(Wrong::NotOwned);
    }
    let at = g as usize;
    globals[at] = r.v;
    Ok(Regs {
        v: cells::UNSPECIFIED,
        ..r
    })
}

// ---- local, set-local!

// Where a local is held.
fn find_local(store: &[u64; 2048], env: u16, layers: u8, place: u8) -> Result<usize, Wrong>
    ensures { result ≡ found_at (walk store.now env layers place) }
{
    let mut e = env;
    let mut left = layers;
    let found = loop {
        if e == 0 {
            break Err(Wrong::BeyondLayers);
        }
        let layer = fetch(store, e as usize - 1);
        if left == 0 {
            if place < cells::layer_count(layer) {
                break Ok(e as usize + place as usize);
            }
            break Err(Wrong::BeyondLayers);
        }
        e = cells::layer_parent(layer);
        left = left - 1;
    };
    found
}

fn local(store: &[u64; 2048], a: u8, b: u8, r: Regs) -> Result<Regs, Wrong>
    ensures { (g s : List ℕ) → out result (mem g s store.now) ≡ ends (local_rule a b) (mem g s store.now) r }
{
    let l = find_local(store, r.env, a, b)?;
    held(fetch(store, l), r)
}

fn set_local(store: &mut [u64; 2048], a: u8, b: u8, r: Regs) -> Result<Regs, Wrong>
    ensures { (g s : List ℕ) → out result (mem g s store.new) ≡ ends (set_local_rule a b) (mem g s store.old) r }
{
    let l = find_local(store, r.env, a, b)?;
    put(store, l, r.v);
    Ok(Regs {
        v: cells::UNSPECIFIED,
        ..r
    })
}

// ---- push

fn push(stack: &mut [u64; 256], r: Regs) -> Result<Regs, Wrong>
    ensures { (g t : List ℕ) → out result (mem g stack.new t) ≡ ends push_rule (mem g stack.old t) r }
{
    let sp = r.sp;
    if sp < 256 {
        stack[sp] = r.v;
        Ok(Regs { sp: sp + 1, ..r })
    } else {
        Err(Wrong::StackFull)
    }
}

// ---- make-env, checkargs=

fn make_env(stack: &mut [u64; 256], store: &mut [u64; 2048], n: u8, r: Regs) -> Result<Regs, Wrong>
    requires { Fit r }
    ensures { (g : List ℕ)
        → out result (mem g stack.new store.new) ≡ ends (make_env_rule n) (mem g stack.old store.old) r }
{
    let sp = r.sp;
    let st = r.st;
    if sp != n as usize {
        return Err(Wrong::Count);
    }
    if st + 1 + sp <= 2048 {
        store[st] = cells::layer_cell(r.env, n);
        copy_down(stack, sp, store, st + 1);
        runs::clear(stack, 0, sp);
        let env = (st + 1) as u16;
        Ok(Regs {
            env,
            sp: 0,
            st: st + 1 + sp,
            ..r
        })
    } else {
        Err(Wrong::NoRoom)
    }
}

fn check_args(n: u8, r: Regs) -> Result<Regs, Wrong>
    ensures { (m : Mem) → out result m ≡ ends (check_args_rule n) m r }
{
    if r.sp == n as usize {
        Ok(r)
    } else {
        Err(Wrong::Count)
    }
}

// ---- primitives

// v is c and the stack is empty.
fn emptied(stack: &mut [u64; 256], c: u64, r: Regs) -> Regs
    requires { r.sp ≤ 256 }
    ensures value { result ≡ regs c r.env 0 r.st }
    ensures stack { stack.new ≡ zeroed stack.old 0 r.sp }
{
    runs::clear(stack, 0, r.sp);
    Regs { v: c, sp: 0, ..r }
}

fn cons(stack: &mut [u64; 256], store: &mut [u64; 2048], r: Regs) -> Result<Regs, Wrong>
    requires { Fit r }
    ensures { (g : List ℕ)
        → out result (mem g stack.new store.new) ≡ ends cons_rule (mem g stack.old store.old) r }
{
    let sp = r.sp;
    let st = r.st;
    if sp < 2 {
        return Err(Wrong::Count);
    }
    if st + 2 <= 2048 {
        store[st] = stack[sp - 2];
        store[st + 1] = stack[sp - 1];
        let pair = cells::pair_cell(st as u16, (st + 1) as u16);
        let e = emptied(stack, pair, r);
        Ok(Regs { st: st + 2, ..e })
    } else {
        Err(Wrong::NoRoom)
    }
}

// What stands at a location of the pair on top.
fn part(stack: &mut [u64; 256], store: &[u64; 2048], l: u16, r: Regs) -> Result<Regs, Wrong>
    requires { Fit r }
    ensures { (location : ℕ → ℕ) (g : List ℕ) → location (top (mem g stack.old store.now) r) ≡ l
        → out result (mem g stack.new store.now) ≡ ends (part_rule location) (mem g stack.old store.now) r }
{
    let sp = r.sp;
    if sp < 1 {
        return Err(Wrong::Count);
    }
    if cells::tag_of(stack[sp - 1]) == 8 {
        let c = fetch(store, l as usize);
        Ok(emptied(stack, c, r))
    } else {
        Err(Wrong::Kind)
    }
}

// The cell on top of the stack, its bottom where it is empty.
fn top_of(stack: &[u64; 256], r: Regs) -> u64
    requires { Fit r }
    ensures { (g t : List ℕ) → result ≡ top (mem g stack.now t) r }
{
    let sp = r.sp;
    if sp < 1 { stack[0] } else { stack[sp - 1] }
}

fn car(stack: &mut [u64; 256], store: &[u64; 2048], r: Regs) -> Result<Regs, Wrong>
    requires { Fit r }
    ensures { (g : List ℕ)
        → out result (mem g stack.new store.now) ≡ ends car_rule (mem g stack.old store.now) r }
{
    let l = pair_first(top_of(stack, r));
    part(stack, store, l, r)
}

fn cdr(stack: &mut [u64; 256], store: &[u64; 2048], r: Regs) -> Result<Regs, Wrong>
    requires { Fit r }
    ensures { (g : List ℕ)
        → out result (mem g stack.new store.now) ≡ ends cdr_rule (mem g stack.old store.now) r }
{
    let l = pair_second(top_of(stack, r));
    part(stack, store, l, r)
}

fn eqv(stack: &mut [u64; 256], r: Regs) -> Result<Regs, Wrong>
    requires { Fit r }
    ensures { (g t : List ℕ) → out result (mem g stack.new t) ≡ ends eqv_rule (mem g stack.old t) r }
{
    let sp = r.sp;
    if sp < 2 {
        return Err(Wrong::Count);
    }
    if stack[sp - 1] == stack[sp - 2] {
        Ok(emptied(stack, cells::TRUE, r))
    } else {
        Ok(emptied(stack, cells::FALSE, r))
    }
}

// v is an integer, or it is out of range.
fn integer(stack: &mut [u64; 256], x: Option<u64>, r: Regs) -> Result<Regs, Wrong>
    requires { Fit r × RangedFits x }
    ensures { (g t : List ℕ) → out result (mem g stack.new t) ≡ ends (integer_by x) (mem g stack.old t) r }
{
    match x {
        Some(bits) => Ok(emptied(stack, cells::int_cell(bits), r)),
        None => Err(Wrong::OutOfRange),
    }
}

fn add(stack: &mut [u64; 256], r: Regs) -> Result<Regs, Wrong>
    requires { Fit r }
    ensures { (g t : List ℕ) → out result (mem g stack.new t) ≡ ends add_rule (mem g stack.old t) r }
{
    let total = integers::sum_up(stack, r.sp)?;
    integer(stack, total, r)
}

// The bits of exactly two integers.
fn two_integers(stack: &[u64; 256], r: Regs) -> Result<(u64, u64), Wrong>
    requires { Fit r }
    ensures by_index { (g t : List ℕ) → result ≡ operands_of (mem g stack.now t) r }
    ensures fits { OperandsFit result }
{
    let sp = r.sp;
    if sp != 2 {
        return Err(Wrong::Count);
    }
    let left = stack[sp - 2];
    let right = stack[sp - 1];
    if cells::tag_of(left) != 6 {
        return Err(Wrong::Kind);
    }
    if cells::tag_of(right) != 6 {
        return Err(Wrong::Kind);
    }
    Ok((cells::int_of(left), cells::int_of(right)))
}

fn sub(stack: &mut [u64; 256], r: Regs) -> Result<Regs, Wrong>
    requires { Fit r }
    ensures { (g t : List ℕ) → out result (mem g stack.new t) ≡ ends sub_rule (mem g stack.old t) r }
{
    let (a, b) = two_integers(stack, r)?;
    integer(stack, integers::difference(a, b), r)
}

fn less(stack: &mut [u64; 256], r: Regs) -> Result<Regs, Wrong>
    requires { Fit r }
    ensures { (g t : List ℕ) → out result (mem g stack.new t) ≡ ends less_rule (mem g stack.old t) r }
{
    let (a, b) = two_integers(stack, r)?;
    if integers::less(a, b) {
        Ok(emptied(stack, cells::TRUE, r))
    } else {
        Ok(emptied(stack, cells::FALSE, r))
    }
}

fn floor_div(stack: &mut [u64; 256], r: Regs) -> Result<Regs, Wrong>
    requires { Fit r }
    ensures { (g t : List ℕ) → out result (mem g stack.new t) ≡ ends floor_div_rule (mem g stack.old t) r }
{
    let (a, b) = two_integers(stack, r)?;
    if b == 0 {
        return Err(Wrong::ZeroDivisor);
    }
    integer(stack, integers::floor_div(a, b), r)
}

// ---- the plain instructions together

// By the owner's right. In line in each machine's loop: behind a call a step takes more than twice as many instructions.
#[inline(always)]
pub fn plain_rule(
    owner: Owner,
    i: Plain,
    globals: &mut [u64; 256],
    stack: &mut [u64; 256],
    store: &mut [u64; 2048],
    r: Regs,
) -> Result<Regs, Wrong>
    requires { Fit r }
    ensures store_after { out result (mem globals.new stack.new store.new)
        ≡ ends (owned_rule owner i) (mem globals.old stack.old store.old) r }
    ensures fits { EndFit result }
{
    match i {
        Plain::Literal(c) => literal(c, r),
        Plain::Closure(t) => closure(store, t, r),
        Plain::Global(g) => global(owner, globals, g, r),
        Plain::SetGlobal(g) => set_global(owner, globals, g, r),
        Plain::Local(a, b) => local(store, a, b, r),
        Plain::SetLocal(a, b) => set_local(store, a, b, r),
        Plain::Push => push(stack, r),
        Plain::Unspecified => literal(cells::UNSPECIFIED, r),
        Plain::MakeEnv(n) => make_env(stack, store, n, r),
        Plain::CheckArgs(n) => check_args(n, r),
        Plain::Cons => cons(stack, store, r),
        Plain::Car => car(stack, store, r),
        Plain::Cdr => cdr(stack, store, r),
        Plain::Eqv => eqv(stack, r),
        Plain::Add => add(stack, r),
        Plain::Sub => sub(stack, r),
        Plain::Less => less(stack, r),
        Plain::FloorDiv => floor_div(stack, r),
    }
}

// ---- call

// The closure's template, and its environment.
pub fn call(n: u8, r: Regs) -> Result<(u8, Regs), Wrong>
    ensures value { answered result ≡ call_rule n r }
    ensures fits { Fit r → CallFit result }
{
    if r.sp != n as usize {
        return Err(Wrong::Count);
    }
    if cells::tag_of(r.v) == 7 {
        let env = cells::closure_env(r.v);
        Ok((cells::closure_template(r.v), Regs { env, ..r }))
    } else {
        Err(Wrong::NoClosure)
    }
}
