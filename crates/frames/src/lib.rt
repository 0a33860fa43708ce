// make-cont and return (document 01, 'Rules'). A frame's code place is packed and unpacked by the machine whose place it is.
#![tactic(auto)]

ghost use Rattle.std.specs.Prelude.{◌≡◌, List, ℕ, ◌-◌, ◌≤◌};
ghost use Rattle.rules.specs.State.{mem};
ghost use Rattle.rules.specs.Fit.{Fit};
ghost use Rattle.rules.specs.Rules.{keep_rule, return_rule};
ghost use Rattle.frames.specs.Ends.{state, kept, back, ends_kept, ends_back, KeptFit, BackFit};

use rules::{Regs, Wrong};

fn minus(a: usize, b: usize) -> usize
    ensures { result ≡ a - b }
{
    if b <= a { a - b } else { 0 }
}

// The stack's values, bottom first, and then the frame's cell. On with registers and so many frame cells in use.
pub fn make_cont(
    stack: &mut [u64; 256],
    frames: &mut [u64; 2048],
    fr: usize,
    r: Regs,
    n: u8,
    cell: u64,
) -> Result<(Regs, usize), Wrong>
    requires { (fr ≤ 2048) × Fit r }
    ensures by_index { (g s : List ℕ)
        → kept result (mem g stack.new s) frames.new ≡ ends_kept (keep_rule n cell)
        (state r (mem g stack.old s) frames.old fr) }
    ensures fits { KeptFit result }
{
    let sp = r.sp;
    if sp != n as usize {
        return Err(Wrong::Count);
    }
    if fr + sp + 1 <= 2048 {
        runs::copy_up(stack, 0, sp, frames, fr);
        frames[fr + sp] = cell;
        runs::clear(stack, 0, sp);
        Ok((Regs { sp: 0, ..r }, fr + sp + 1))
    } else {
        Err(Wrong::NoRoom)
    }
}

// Stack, template, environment and place come back, v stays. Back with registers, so many frame cells in use, and the frame's cell; or there is no frame, and
// nothing is changed.
pub fn give_back(
    stack: &mut [u64; 256],
    frames: &mut [u64; 2048],
    fr: usize,
    r: Regs,
) -> Option<(Regs, usize, u64)>
    requires { (fr ≤ 2048) × Fit r }
    ensures by_index { (g s : List ℕ)
        → back result (mem g stack.new s) frames.new ≡ ends_back return_rule (state r (mem g stack.old s) frames.old fr) }
    ensures fits { BackFit result }
{
    if fr == 0 {
        return None;
    }
    let last = fr - 1;
    let cell = frames[last];
    let n = cells::frame_count(cell) as usize;
    let base = minus(last, n);
    runs::clear(stack, 0, r.sp);
    runs::copy_up(frames, base, n, stack, 0);
    runs::clear(frames, base, n + 1);
    let env = cells::frame_env(cell);
    Some((Regs { env, sp: n, ..r }, base, cell))
}
