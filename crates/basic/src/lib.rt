// The basic byte code of document 003, section 1.2, as a sibling of the tree file (document 02, request 6): its definitions, in specs/, and reading it:
// refusals 1 to 5.
#![tactic(auto)]

ghost use Rattle.std.specs.Prelude.{◌≡◌, Ok, List, ℕ, suc, ◌+◌, ◌*◌, ◌≤◌, ◌<◌, length};
ghost use Rattle.files.specs.Codes.{shape_of};
ghost use Rattle.files.specs.Reading.{Got, got};
ghost use Rattle.files.specs.Entries.{then, field, constant_at};
ghost use Rattle.basic.specs.Basic.{Token as BasicToken, plain_t, carries_t, closure_t, branch_t, save_t};
ghost use Rattle.basic.specs.Reading.{literal_at, global_at, shaped_at, token_at, list_at};
ghost use Rattle.basic.specs.Told.{Told, Stepped, list_told, FileRead};

use cells::BitPlace;
use files::{Reading, Refusal};
use lists::{Class, Classes, Kind, Shape};

// A code with the place past it and what it carries but lists: the list's end; return or call; a neutral code from 10 on; literal with a tag and a number;
// global or set-global! (the code) with a number; closure, unless-false and make-cont, which lists follow.
#[derive(Clone, Copy)]
pub enum Token {
    End(BitPlace),
    Ending(BitPlace),
    Plain(BitPlace),
    Literal(u32, u64, BitPlace),
    Global(u32, u32, BitPlace),
    Closure(BitPlace),
    Branch(BitPlace),
    Save(BitPlace),
}

// What is to be known of a list: its class, and how many closures it has, in all its lists.
#[derive(Clone, Copy)]
pub struct Facts {
    pub class: Class,
    pub inside: usize,
}

// What a list begins with: its end, or an instruction, with the place past it; of an instruction its kind and how many closures it has.
#[derive(Clone, Copy)]
enum Item {
    End(BitPlace),
    More(BitPlace, Kind, usize),
}

// The constant whose tag t stands at `tag` and ends at `at`.
fn read_constant(s: &[u8], tag: BitPlace, t: u32, at: BitPlace) -> Reading<Token>
    requires { (length s.now ≤ 262144) × (at.0 ≤ 8 * length s.now) }
    ensures { Told (then (constant_at s.now tag.0 t at.0) (λ e u. got (carries_t 6 e) u)) result }
{
    if t < 4 {
        return Ok(Token::Literal(t, 0, at));
    }
    if t == 4 {
        let (x, past) = files::read_word(s, at)?;
        return Ok(Token::Literal(t, x as u64, past));
    }
    if t == 5 {
        let (x, past) = files::read_wide(s, at)?;
        return Ok(Token::Literal(t, x, past));
    }
    Err(Refusal(3, tag))
}

// The constant entry of a literal whose code ends at a place.
fn read_literal(s: &[u8], at: BitPlace) -> Reading<Token>
    requires { length s.now ≤ 262144 }
    ensures { Told (literal_at s.now at.0) result }
{
    let (kind, tag) = files::read_field(s, at, 2)?;
    if kind != 1 {
        return Err(Refusal(3, at));
    }
    let (t, value) = files::read_field(s, tag, 3)?;
    read_constant(s, tag, t, value)
}

// The number of a global or a set-global! whose code ends at a place.
fn read_global(s: &[u8], code: u32, at: BitPlace) -> Reading<Token>
    requires { length s.now ≤ 262144 }
    ensures { Told (global_at s.now code at.0) result }
{
    let (g, past) = files::read_field(s, at, 8)?;
    Ok(Token::Global(code, g, past))
}

// A code without lists, whose operands end at a place.
#[tactic(auto, using(crate::specs::Told::told_ending, crate::specs::Told::told_plain))]
fn plain_token(code: u32, past: BitPlace) -> Token
    ensures { (g : Got BasicToken) (ns : List ℕ) → g ≡ got (plain_t code ns) past.0 → Told g (Ok result) }
{
    if code < 6 {
        return Token::Ending(past);
    }
    Token::Plain(past)
}

// A code without lists that ends at a place and has so many operand bytes.
fn read_plain(s: &[u8], code: u32, at: BitPlace, operands: usize) -> Reading<Token>
    requires { (length s.now ≤ 262144) × (operands ≤ 2) }
    ensures { (l p : ℕ) → Told (shaped_at s.now l p code at.0 (1 + operands)) result }
{
    if operands == 0 {
        return Ok(plain_token(code, at));
    }
    let (_, second) = files::read_field(s, at, 8)?;
    if operands == 1 {
        return Ok(plain_token(code, second));
    }
    let (_, last) = files::read_field(s, second, 8)?;
    Ok(plain_token(code, last))
}

// The operand of a make-cont whose code ends at a place.
fn read_save(s: &[u8], at: BitPlace) -> Reading<Token>
    requires { length s.now ≤ 262144 }
    ensures { Told (then (field s.now at.0 8) (λ n z. got (save_t n) z)) result }
{
    let (_, past) = files::read_field(s, at, 8)?;
    Ok(Token::Save(past))
}

// The code at a place that is none of 6 to 9 and ends at `next`, in a list with `levels` levels left below it.
#[tactic(auto, unfolding(lists::specs::Shapes::Numbered))]
fn read_shaped(s: &[u8], at: BitPlace, code: u32, next: BitPlace, levels: usize) -> Reading<Token>
    requires { (length s.now ≤ 262144) × (code < 32) }
    ensures { Told (shaped_at s.now levels at.0 code next.0 (shape_of code)) result }
{
    match lists::shape_of(code) {
        Shape::End => Ok(Token::End(next)),
        Shape::Plain(operands) => read_plain(s, code, next, operands),
        Shape::Branch if 0 < levels => Ok(Token::Branch(next)),
        Shape::Save if 0 < levels => read_save(s, next),
        Shape::Branch | Shape::Save => Err(Refusal(4, at)),
        Shape::NoCode => Err(Refusal(3, at)),
    }
}

// The code at a place, in a list with `levels` levels left below it.
pub fn read_token(s: &[u8], at: BitPlace, levels: usize) -> Reading<Token>
    requires { length s.now ≤ 262144 }
    ensures { Told (token_at s.now levels at.0) result }
{
    let (code, next) = files::read_field(s, at, 5)?;
    match code {
        6 => read_literal(s, next),
        7 if levels == 0 => Err(Refusal(4, at)),
        7 => Ok(Token::Closure(next)),
        8 | 9 => read_global(s, code, next),
        _ => read_shaped(s, at, code, next, levels),
    }
}

// ---- lists

// A closure whose code ends at a place, with `levels` levels left below its list.
#[cycle(read_branch_read_closure_read_item_read_list_read_saved)]
fn read_closure(s: &[u8], at: BitPlace, levels: usize) -> Reading<Item>
    requires { length s.now ≤ 262144 }
    ensures { (p : ℕ) → token_at s.now (suc levels) p ≡ got closure_t at.0 → Stepped s.now (suc levels) p result }
{
    let (past, x) = read_list(s, at, levels)?;
    Ok(Item::More(past, Kind::Neutral, 1 + x.inside))
}

// An unless-false whose code ends at a place, with `levels` levels left below its arms.
#[cycle(read_branch_read_closure_read_item_read_list_read_saved)]
fn read_branch(s: &[u8], at: BitPlace, levels: usize) -> Reading<Item>
    requires { length s.now ≤ 262144 }
    ensures { (p : ℕ) → token_at s.now (suc levels) p ≡ got branch_t at.0 → Stepped s.now (suc levels) p result }
{
    let (mid, x) = read_list(s, at, levels)?;
    let (past, y) = read_list(s, mid, levels)?;
    Ok(Item::More(
        past,
        lists::conditional_kind(x.class, y.class),
        x.inside + y.inside,
    ))
}

// A make-cont whose operand ends at a place, with `levels` levels left below its saved list.
#[cycle(read_branch_read_closure_read_item_read_list_read_saved)]
fn read_saved(s: &[u8], at: BitPlace, levels: usize) -> Reading<Item>
    requires { length s.now ≤ 262144 }
    ensures { (p n : ℕ) → token_at s.now (suc levels) p ≡ got (save_t n) at.0 → Stepped s.now (suc levels) p result }
{
    let (past, x) = read_list(s, at, levels)?;
    Ok(Item::More(past, lists::save_kind(x.class), x.inside))
}

// What begins the list at a place, with `levels` levels left below it.
#[cycle(read_branch_read_closure_read_item_read_list_read_saved)]
fn read_item(s: &[u8], at: BitPlace, levels: usize) -> Reading<Item>
    requires { length s.now ≤ 262144 }
    ensures { Stepped s.now levels at.0 result }
{
    match read_token(s, at, levels)? {
        Token::End(next) => Ok(Item::End(next)),
        Token::Ending(next) => Ok(Item::More(next, Kind::Ending, 0)),
        Token::Plain(next) | Token::Literal(_, _, next) | Token::Global(_, _, next) => {
            Ok(Item::More(next, Kind::Neutral, 0))
        }
        Token::Closure(next) => read_closure(s, next, levels - 1),
        Token::Branch(next) => read_branch(s, next, levels - 1),
        Token::Save(next) => read_saved(s, next, levels - 1),
    }
}

// The list at a place, with `levels` levels left below it: the place past it and its facts.
#[cycle(read_branch_read_closure_read_item_read_list_read_saved)]
pub fn read_list(s: &[u8], at: BitPlace, levels: usize) -> Reading<(BitPlace, Facts)>
    requires { length s.now ≤ 262144 }
    ensures { result ≡ list_told (list_at s.now levels at.0) }
{
    let mut here = at;
    let mut classes = Classes {
        empty: Class::Empty,
        opened: Class::Open,
        closed: Class::Closed,
    };
    let mut inside: usize = 0;
    loop {
        match read_item(s, here, levels)? {
            Item::End(next) => {
                let facts = Facts {
                    class: classes.empty,
                    inside,
                };
                return Ok((next, facts));
            }
            Item::More(next, kind, n) => {
                here = next;
                classes = lists::classes_after(kind, classes);
                inside += n;
            }
        }
    }
}

// A file: 1, its list at level 1 of 16, zero bits to the byte, the end; the place past its list.
pub fn read_basic(s: &[u8]) -> Reading<BitPlace>
    ensures { FileRead s.now result }
{
    if 65536 < s.len() {
        return Err(Refusal(1, BitPlace(0)));
    }
    let (end, _) = read_list(s, BitPlace(0), 15)?;
    let next = files::zero_bits(s, end, end.to_byte())?;
    files::nothing_more(s, next)?;
    Ok(end)
}
