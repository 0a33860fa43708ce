// Writes the flat code of a list of a tree file (document 01, 'Flattening'): instructions from the front on, and the saved list of each
// make-cont at the back, before those of the make-conts that hold it.
#![tactic(auto)]

ghost use Rattle.std.specs.Prelude.{◌≡◌, false, ◌∷◌, ℕ, ◌+◌, ◌*◌, ◌≤◌, ◌<◌, length};
ghost use Rattle.std.proofs.lemmas.List.Edits.{sets};
ghost use Rattle.fields.specs.Field.{field_at};
ghost use Rattle.files.specs.Code.{Code};
ghost use Rattle.files.specs.Codes.{shape_of};
ghost use Rattle.files.specs.Flat.{flat, offset};
ghost use Rattle.lists.specs.declared.Keep.TheVariants.{Sizes};
ghost use Rattle.lists.specs.Marks.{mark_of, mark_at};
ghost use Rattle.lists.specs.Shapes.{Numbered};
ghost use Rattle.emit.specs.Written.{gap, jump_bytes, line_bytes, measured_of};
ghost use Rattle.emit.specs.ToWrite.{ToWrite, ArmsToWrite, SavedToWrite, ItemToWrite, ArmsDone, SavedDone, ItemDone};

use cells::BitPlace;
use lists::Shape;

// How many bytes the flat code of a list has, and whether it is closed.
#[derive(Clone, Copy)]
pub struct Measured {
    pub size: usize,
    pub closed: bool,
}

// What is left of a list: the place of its next instruction, and the part of the output for it.
#[derive(Clone, Copy)]
pub struct Rest {
    pub at: BitPlace,
    pub front: usize,
    pub back: usize,
}

// What reading kept of the list at a place.
pub fn measure(marks: &[u32], at: BitPlace) -> Measured
    ensures { (c : Code) (q : ℕ) → mark_at marks.now at.0 ≡ mark_of Sizes c q → result ≡ measured_of c }
{
    let mark = lists::mark_at(marks, at);
    Measured {
        size: (mark / 2) as usize,
        closed: mark % 2 == 1,
    }
}

// A code and an offset.
fn put_offset(out: &mut [u8], at: usize, code: u8, x: usize)
    requires { (at + 3 ≤ length out.old) × (x ≤ 65535) }
    ensures { out.new ≡ sets out.old at (code ∷ offset x) }
{
    out[at] = code;
    out[at + 1] = (x / 256) as u8;
    out[at + 2] = (x % 256) as u8;
}

// How many bytes the jump of a conditional takes.
fn gap(closed: bool) -> usize
    ensures { result ≡ gap closed }
{
    if closed { 0 } else { 3 }
}

// The jump of an open conditional over its second arm.
fn put_jump(out: &mut [u8], at: usize, closed: bool, size: usize)
    requires { (at + gap closed ≤ length out.old) × (closed ≡ false → size ≤ 65535) }
    ensures { out.new ≡ sets out.old at (jump_bytes closed size) }
{
    if closed {
        return;
    }
    put_offset(out, at, 5, size);
}

// A code and n operands, at most two, as its line has them.
fn write_simple(line: u32, n: usize, out: &mut [u8], front: usize)
    requires { (n ≤ 2) × (line < 0x200000) × (front + 1 + n ≤ length out.old) }
    ensures { out.new ≡ sets out.old front (line_bytes line n) }
{
    out[front] = (line / 0x10000) as u8;
    if n == 0 {
        return;
    }
    out[front + 1] = (line / 0x100 % 0x100) as u8;
    if n == 2 {
        out[front + 2] = (line % 0x100) as u8;
    }
}

// A conditional, from its arms on; what is left of its list after it.
#[cycle(write_conditional_write_instr_write_list_write_make_cont)]
fn write_conditional(s: &[u8], marks: &[u32], arms: Rest, levels: usize, out: &mut [u8]) -> Rest
    requires { (length s.now ≤ 65536) × (arms.back ≤ length out.old)
        × ArmsToWrite s.now marks.now levels arms.at.0 arms.front arms.back }
    ensures { (w : ArmsToWrite s.now marks.now levels arms.at.0 arms.front arms.back) → ArmsDone w result out.old out.new }
{
    let Rest { at, front, back } = arms;
    let first = measure(marks, at);
    let jump = gap(first.closed);
    let turn = front + 3 + first.size;
    put_offset(out, front, 3, jump + first.size);
    let mid = write_list(s, marks, at, levels, out, front + 3, turn);
    let second = measure(marks, mid);
    let end = turn + jump + second.size;
    put_jump(out, turn, first.closed, second.size);
    let next = write_list(s, marks, mid, levels, out, turn + jump, end);
    Rest {
        at: next,
        front: end,
        back,
    }
}

// A make-cont n, from its saved list on; what is left of its list after it.
#[cycle(write_conditional_write_instr_write_list_write_make_cont)]
fn write_make_cont(
    s: &[u8],
    marks: &[u32],
    saved: Rest,
    levels: usize,
    n: u32,
    out: &mut [u8],
) -> Rest
    requires { (length s.now ≤ 65536) × (n < 256) × (saved.back ≤ length out.old)
        × SavedToWrite s.now marks.now levels saved.at.0 saved.front saved.back }
    ensures { (w : SavedToWrite s.now marks.now levels saved.at.0 saved.front saved.back)
        → SavedDone n w result out.old out.new }
{
    let Rest { at, front, back } = saved;
    let list = measure(marks, at);
    let cut = back - list.size;
    let rest = front + 4;
    put_offset(out, front, 4, cut - rest);
    out[front + 3] = n as u8;
    let next = write_list(s, marks, at, levels, out, cut, back);
    Rest {
        at: next,
        front: rest,
        back: cut,
    }
}

// The first instruction of what is left of a list: its line, the 21 bits at its place, and its code's shape; what is left after it.
#[tactic(auto, unfolding(lists::specs::Shapes::Numbered))]
#[cycle(write_conditional_write_instr_write_list_write_make_cont)]
fn write_instr(
    s: &[u8],
    marks: &[u32],
    rest: Rest,
    levels: usize,
    line: u32,
    shape: Shape,
    out: &mut [u8],
) -> Rest
    requires { (length s.now ≤ 65536) × (rest.back ≤ length out.old) × (line ≡ field_at s.now rest.at.0 21)
        × Numbered shape (shape_of (field_at s.now rest.at.0 5)) × ItemToWrite s.now marks.now levels rest.at.0 rest.front rest.back }
    ensures { (w : ItemToWrite s.now marks.now levels rest.at.0 rest.front rest.back) → ItemDone w result out.old out.new }
{
    match shape {
        Shape::Branch => {
            let arms = Rest {
                at: rest.at.past(5),
                ..rest
            };
            write_conditional(s, marks, arms, levels - 1, out)
        }
        Shape::Save => {
            let n = line / 0x100 % 0x100;
            let saved = Rest {
                at: rest.at.past(13),
                ..rest
            };
            write_make_cont(s, marks, saved, levels - 1, n, out)
        }
        Shape::Plain(operands) => {
            write_simple(line, operands, out, rest.front);
            Rest {
                at: rest.at.past(5 + 8 * operands),
                front: rest.front + 1 + operands,
                ..rest
            }
        }
        Shape::End | Shape::NoCode => unreachable!(),
    }
}

// The list at a place, with `levels` levels left below it. `marks` has what reading kept of the lists inside it.
#[cycle(write_conditional_write_instr_write_list_write_make_cont)]
pub fn write_list(
    s: &[u8],
    marks: &[u32],
    at: BitPlace,
    levels: usize,
    out: &mut [u8],
    front: usize,
    back: usize,
) -> BitPlace
    requires { (length s.now ≤ 65536) × (back ≤ length out.old)
        × ToWrite s.now marks.now levels at.0 front back }
    ensures { (w : ToWrite s.now marks.now levels at.0 front back) →
        (result.0 ≡ w.past) × (out.new ≡ sets out.old front (flat w.code)) }
{
    let mut rest = Rest { at, front, back };
    loop {
        let line = fields::line_at(s, rest.at);
        rest = match lists::shape_of(line / 0x10000) {
            Shape::End => return rest.at.past(5),
            shape => write_instr(s, marks, rest, levels, line, shape, out),
        };
    }
}
