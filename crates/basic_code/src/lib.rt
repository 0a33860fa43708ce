// What stands at a place of a basic file (document 02, request 6).
#![tactic(auto)]

ghost use Rattle.std.specs.Prelude.{◌≡◌, List, ℕ, ◌≤◌, ◌<◌, length};
ghost use Rattle.fields.specs.Field.{field_read};
ghost use Rattle.files.specs.Codes.{shape_of};
ghost use Rattle.machines.specs.Fetched.{plainly};
ghost use Rattle.machines.specs.Slots.{slot_resolve};
ghost use Rattle.basic_code.specs.Fetch.{read_as, SavedFits, shaped_as, code_as, end_as, here_as, fetched_at};

use cells::BitPlace;
use lists::Shape;
use rules::Plain;

// What stands at a place of a basic file: of an instruction of data its rule, which needs no entry, and the place past it; the places of the others as in
// machines::Instruction.
#[derive(Clone, Copy)]
pub enum BasicInstruction {
    Ready(Plain, BitPlace),
    Return,
    Call(u8),
    Branch(BitPlace, BitPlace),
    Save(u8, BitPlace, BitPlace),
    // 16
    Bad,
}

// A code that names no entry, and the place past it.
fn ready(op: u8, a: u8, b: u8, next: BitPlace) -> BasicInstruction
    ensures { (read_as result ≡ plainly (slot_resolve (λ _. 0) op a b) next.0) × SavedFits result }
{
    match machines::unnamed(op, a, b) {
        Some(i) => BasicInstruction::Ready(i, next),
        None => BasicInstruction::Bad,
    }
}

// A code that ends at a place and has one operand.
fn fetch_one(file: &[u8], code: u32, at: BitPlace) -> BasicInstruction
    requires { (length file.now ≤ 65536) × (code < 32) }
    ensures { ((L : List ℕ) (p : ℕ) → read_as result ≡ shaped_as file.now L p code at.0 2) × SavedFits result }
{
    let Some((n, next)) = fields::read_field(file, at, 8) else {
        return BasicInstruction::Bad;
    };
    if code == 2 {
        BasicInstruction::Call(n as u8)
    } else {
        ready(code as u8, n as u8, 0, next)
    }
}

// The same of two operands.
fn fetch_two(file: &[u8], code: u32, at: BitPlace) -> BasicInstruction
    requires { (length file.now ≤ 65536) × (code < 32) }
    ensures { ((L : List ℕ) (p : ℕ) → read_as result ≡ shaped_as file.now L p code at.0 3) × SavedFits result }
{
    let Some((a, second)) = fields::read_field(file, at, 8) else {
        return BasicInstruction::Bad;
    };
    let Some((b, next)) = fields::read_field(file, second, 8) else {
        return BasicInstruction::Bad;
    };
    ready(code as u8, a as u8, b as u8, next)
}

// A make-cont, whose code stands at a place and ends at `after`.
fn fetch_save(file: &[u8], links: &[u32], at: BitPlace, after: BitPlace) -> BasicInstruction
    requires { length file.now ≤ 65536 }
    ensures { ((v : ℕ) → read_as result ≡ shaped_as file.now links.now at.0 v after.0 5) × SavedFits result }
{
    let Some((n, saved)) = fields::read_field(file, after, 8) else {
        return BasicInstruction::Bad;
    };
    BasicInstruction::Save(n as u8, saved, links::link_at(links, at))
}

// A code at a place that is none of 6 to 9 and ends at `next`.
#[tactic(auto, unfolding(lists::specs::Shapes::Numbered))]
fn fetch_shaped(
    file: &[u8],
    links: &[u32],
    at: BitPlace,
    code: u32,
    next: BitPlace,
) -> BasicInstruction
    requires { (length file.now ≤ 65536) × (code < 32) }
    ensures { (read_as result ≡ shaped_as file.now links.now at.0 code next.0 (shape_of code)) × SavedFits result }
{
    match lists::shape_of(code) {
        Shape::Plain(0) => {
            if code == 1 {
                BasicInstruction::Return
            } else {
                ready(code as u8, 0, 0, next)
            }
        }
        Shape::Plain(1) => fetch_one(file, code, next),
        Shape::Plain(_) => fetch_two(file, code, next),
        Shape::Branch => {
            let second = links::link_at(links, at);
            BasicInstruction::Branch(next, second)
        }
        Shape::Save => fetch_save(file, links, at, next),
        Shape::End | Shape::NoCode => BasicInstruction::Bad,
    }
}

// A literal, whose code ends at a place: the cell of the constant that stands in it.
fn fetch_literal(file: &[u8], at: BitPlace) -> BasicInstruction
    requires { length file.now ≤ 65536 }
    ensures { ((L : List ℕ) (p v : ℕ) → v ≡ 6 → read_as result ≡ code_as file.now L p v at.0) × SavedFits result }
{
    match files::read_entry(file, 0, 0, at) {
        Ok((cell, next)) => BasicInstruction::Ready(Plain::Literal(cell), next),
        Err(_) => BasicInstruction::Bad,
    }
}

// A closure at a place: its template's number and the place past its list are its link.
fn fetch_closure(links: &[u32], at: BitPlace) -> BasicInstruction
    ensures { ((s : List ℕ) (v q : ℕ) → v ≡ 7 → read_as result ≡ code_as s links.now at.0 v q) × SavedFits result }
{
    let link = links::link_at(links, at).number();
    let past = BitPlace(link / 64);
    BasicInstruction::Ready(Plain::Closure((link % 64) as u8), past)
}

// A global or a set-global!, whose code ends at a place.
fn fetch_global(file: &[u8], code: u32, at: BitPlace) -> BasicInstruction
    requires { (length file.now ≤ 65536) × (8 ≤ code) × (code ≤ 9) }
    ensures { ((L : List ℕ) (p : ℕ) → read_as result ≡ code_as file.now L p code at.0) × SavedFits result }
{
    let Some((g, next)) = fields::read_field(file, at, 8) else {
        return BasicInstruction::Bad;
    };
    if code == 8 {
        BasicInstruction::Ready(Plain::Global(g as u8), next)
    } else {
        BasicInstruction::Ready(Plain::SetGlobal(g as u8), next)
    }
}

// The instruction at a place, whose code ends at `next`.
fn fetch_code(
    file: &[u8],
    links: &[u32],
    at: BitPlace,
    code: u32,
    next: BitPlace,
) -> BasicInstruction
    requires { (length file.now ≤ 65536) × (code < 32) }
    ensures { (read_as result ≡ code_as file.now links.now at.0 code next.0) × SavedFits result }
{
    match code {
        6 => fetch_literal(file, next),
        7 => fetch_closure(links, at),
        8 => fetch_global(file, code, next),
        9 => fetch_global(file, code, next),
        _ => fetch_shaped(file, links, at, code, next),
    }
}

// The instruction at the place to which the link of a list's end leads, place 0 where execution does not go on.
fn fetch_after(file: &[u8], links: &[u32], at: BitPlace) -> BasicInstruction
    requires { length file.now ≤ 65536 }
    ensures { (read_as result ≡ end_as file.now links.now at.0) × SavedFits result }
{
    if at.is_first() {
        return BasicInstruction::Bad;
    }
    let Some((code, next)) = fields::read_field(file, at, 5) else {
        return BasicInstruction::Bad;
    };
    fetch_code(file, links, at, code, next)
}

// What stands at a place of a file's code.
fn fetch_here(file: &[u8], links: &[u32], at: BitPlace) -> BasicInstruction
    requires { length file.now ≤ 65536 }
    ensures { (read_as result ≡ here_as file.now links.now at.0 (field_read file.now at.0 5)) × SavedFits result }
{
    let Some((code, next)) = fields::read_field(file, at, 5) else {
        return BasicInstruction::Bad;
    };
    if code == 0 {
        fetch_after(file, links, links::link_at(links, at))
    } else {
        fetch_code(file, links, at, code, next)
    }
}

// What stands at a place of a template. A template that is not there would begin with a return at place 0, where template 0 alone begins.
pub fn fetch(file: &[u8], links: &[u32], template: u8, at: BitPlace) -> BasicInstruction
    requires { length file.now ≤ 65536 }
    ensures { (read_as result ≡ fetched_at file.now links.now template at.0) × SavedFits result }
{
    if template == 0 {
        return fetch_here(file, links, at);
    }
    if at.is_first() {
        return BasicInstruction::Return;
    }
    fetch_here(file, links, at)
}
