// What stands at a place of linear code (document 01, 'Codes').
#![tactic(auto)]

ghost use Rattle.std.specs.Prelude.{◌≡◌, false, ℕ, ◌+◌, ◌*◌, ◌≤◌, ◌<◌, length, get_or};
ghost use Rattle.runs.specs.Runs.{part};
ghost use Rattle.files.specs.Codes.{operand_bytes};
ghost use Rattle.machines.specs.Instruction.{linear_form, fetched_as, Places};
ghost use Rattle.linear_code.specs.Bytes.{whole_bytes, code_bytes};
ghost use Rattle.linear_code.specs.Neutral.{is_transfer, neutral_as};

use cells::BytePlace;
use machines::{CodePlace, Instruction};

// Byte k of the `left` bytes at i, 0 past them.
fn operand(file: &[u8], i: usize, left: usize, k: usize) -> u8
    requires { i + left ≤ length file.now }
    ensures { result ≡ get_or (part file.now i left) k 0 }
{
    if k < left { file[i + k] } else { 0 }
}

fn offset(file: &[u8], i: usize) -> usize
    requires { i + 2 ≤ length file.now }
    ensures { (result ≡ 256 * get_or file.now i 0 + get_or file.now (i + 1) 0) × (result < 65536) }
{
    256 * (file[i] as usize) + file[i + 1] as usize
}

// How many operand bytes a code has in linear code, by code (document 01, 'Codes'; the handbook prints the same table).
const OPERAND_BYTES: [u8; 32] = [
    0, // 0
    0, // 1 return
    1, // 2 call n
    2, // 3 jump-if-false hi lo
    3, // 4 make-cont hi lo n
    2, // 5 jump hi lo
    1, // 6 literal n
    1, // 7 closure n
    1, // 8 global n
    1, // 9 set-global! n
    2, // 10 local n1 n2
    2, // 11 set-local! n1 n2
    0, // 12 push
    1, // 13 make-env n
    0, // 14
    0, // 15 unspecified
    1, // 16 checkargs= n
    0, // 17
    0, // 18 %%cons
    0, // 19 %%car
    0, // 20 %%cdr
    0, // 21 %%eqv
    0, // 22 %%add
    0, // 23 %%sub
    0, // 24 %%less
    0, // 25 %%floor-div
    0, // 26
    0, // 27
    0, // 28
    0, // 29
    0, // 30
    0, // 31
];

fn operand_count(op: u8) -> usize
    ensures { result ≡ operand_bytes op }
{
    if op < 32 {
        OPERAND_BYTES[op as usize] as usize
    } else {
        0
    }
}

// An instruction that is not cut: its code, the `left` bytes at i after it, and the place past it.
fn fetch_whole(file: &[u8], i: usize, left: usize, op: u8, next: BytePlace) -> Instruction
    requires { (i + left ≤ length file.now) × (operand_bytes op ≤ left) × (next.0 ≤ 262148) }
    ensures { ((slot : ℕ → ℕ) → fetched_as slot result ≡ whole_bytes slot op (part file.now i left) next.0) × Places linear_form result }
{
    match op {
        1 => Instruction::Return,
        2 => Instruction::Call(file[i]),
        3 => Instruction::Branch(
            CodePlace::Linear(next),
            CodePlace::Linear(next.past(offset(file, i))),
        ),
        4 => Instruction::Save(
            file[i + 2],
            CodePlace::Linear(next.past(offset(file, i))),
            CodePlace::Linear(next),
        ),
        5 => Instruction::Jump(CodePlace::Linear(next.past(offset(file, i)))),
        _ => Instruction::Neutral(
            op,
            operand(file, i, left, 0),
            operand(file, i, left, 1),
            CodePlace::Linear(next),
        ),
    }
}

// An instruction: its code, which stands at a place, and the `left` bytes at i after it. One that is cut is bad.
pub fn fetch_op(file: &[u8], i: usize, left: usize, op: u8, at: BytePlace) -> Instruction
    requires { (i + left ≤ length file.now) × (at.0 ≤ 262144) }
    ensures { ((slot : ℕ → ℕ) → fetched_as slot result ≡ code_bytes slot at.0 op (part file.now i left)) × Places linear_form result }
{
    let count = operand_count(op);
    if left < count {
        return Instruction::Bad;
    }
    fetch_whole(file, i, left, op, at.past(1 + count))
}

// The operands of a neutral code, of which it may have fewer, and the place past it, where it stands at a place and the `left` bytes at i are after it; none
// where it is cut.
pub fn neutral_at(
    file: &[u8],
    i: usize,
    left: usize,
    op: u8,
    at: BytePlace,
) -> Option<(u8, u8, BytePlace)>
    requires { (i + left ≤ length file.now) × (at.0 ≤ 262144) × (is_transfer op ≡ false) }
    ensures { (slot : ℕ → ℕ) → neutral_as slot op result ≡ code_bytes slot at.0 op (part file.now i left) }
{
    let count = operand_count(op);
    if count <= left {
        let a = operand(file, i, left, 0);
        let b = operand(file, i, left, 1);
        return Some((a, b, at.past(1 + count)));
    }
    None
}
