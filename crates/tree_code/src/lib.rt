// What stands at a place of a tree file (document 01, 'Rules').
#![tactic(auto)]

ghost use Rattle.std.specs.Prelude.{◌≡◌, List, ℕ, ◌+◌, ◌*◌, ◌/◌, ◌^◌, ◌≤◌, ◌<◌, length};
ghost use Rattle.fields.specs.Field.{field_at};
ghost use Rattle.machines.specs.Instruction.{tree_form, fetched_as, Places};
ghost use Rattle.machines.specs.Slots.{slot_at};
ghost use Rattle.links.specs.Links.{link_at};
ghost use Rattle.tree_code.specs.Fetch.{tree_bytes, transfer_as, instruction_at};

use cells::BitPlace;
use machines::{CodePlace, Instruction};

// How many operand bytes each code has in a tree (document 01, 'Codes'), two bits for a code, code 0 lowest. One word, since the compiler makes a table
// anew at each use.
const OPERAND_COUNTS: u64 = 0x104a55110;

fn operand_count(code: u32) -> usize
    requires { code < 32 }
    ensures { (result ≡ tree_bytes code) × (result < 4) }
{
    (OPERAND_COUNTS >> (2 * code)) as usize % 4
}

// An instruction whose code is none of the neutral ones and has the operand n, or none; `next` is the place past it.
fn fetch_transfer(links: &[u32], at: BitPlace, code: u32, n: u8, next: BitPlace) -> Instruction
    requires { next.0 < 2 ^ 24 }
    ensures { ((slot : ℕ → ℕ) → fetched_as slot result ≡ transfer_as (link_at links.now at.0) code n next.0) × Places tree_form result }
{
    match code {
        1 => Instruction::Return,
        2 => Instruction::Call(n),
        3 => {
            let second = links::link_at(links, at);
            Instruction::Branch(CodePlace::Tree(next), CodePlace::Tree(second))
        }
        4 => {
            let rest = links::link_at(links, at);
            Instruction::Save(n, CodePlace::Tree(next), CodePlace::Tree(rest))
        }
        _ => Instruction::Bad,
    }
}

// The instruction at a place, of which `line` has the code and what may be operands.
pub fn fetch_coded(file: &[u8], links: &[u32], at: BitPlace, line: u32, code: u32) -> Instruction
    requires { (length file.now ≤ 65536) × (at.0 + 5 ≤ 8 * length file.now) × (line ≡ field_at file.now at.0 21) × (line < 0x200000)
        × (code ≡ line / 0x10000) }
    ensures { ((table : List ℕ) (t : ℕ) → fetched_as (slot_at table t) result ≡ instruction_at file.now links.now table t at.0)
        × Places tree_form result }
{
    let bits = 5 + 8 * operand_count(code);
    if at.within(bits, file.len()) {
        let next = at.past(bits);
        let first = (line / 0x100 % 0x100) as u8;
        if code < 6 {
            return fetch_transfer(links, at, code, first, next);
        }
        return Instruction::Neutral(
            code as u8,
            first,
            (line % 0x100) as u8,
            CodePlace::Tree(next),
        );
    }
    Instruction::Bad
}
