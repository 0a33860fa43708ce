// Code of a tree file written again with new indices of entries (requests 5 and 10): codes and their operand bytes one after the other, whatever
// lists they stand in, so that no list is opened and no length changes.
#![tactic(auto)]

ghost use Rattle.std.specs.Prelude.{ℕ, ◌≡◌, ◌+◌, ◌*◌, ◌≤◌, ◌<◌, ◌++◌, length};
ghost use Rattle.files.specs.Linear.{bits_of};
ghost use Rattle.bit_writer.specs.Put.{put_bits};
ghost use Rattle.tree_file.specs.File.{operands_bits};
ghost use Rattle.lists.specs.Shapes.{Numbered};
ghost use Rattle.lists.specs.Pass.{operands_at};
ghost use Rattle.rewrite.specs.Tokens.{operand_count, operands_told, index_in, new_operand, new_operands, tokens_bits, renewed, TokensAt};

use cells::BitPlace;
use lists::Shape;

// How many operand bytes follow a code of this shape.
#[tactic(auto, unfolding(crate::specs::Tokens::operands_told, crate::specs::Tokens::operand_count, lists::specs::Shapes::Numbered))]
pub fn operand_count(shape: Shape) -> usize
    ensures told { result ≡ operands_told shape }
    ensures by_number { (k : ℕ) → Numbered shape k → result ≡ operand_count k }
{
    match shape {
        Shape::Plain(operands) => operands,
        Shape::Save => 1,
        Shape::End | Shape::Branch | Shape::NoCode => 0,
    }
}

// The first operand byte of a code: of codes 6 to 9 it is an index, and the table has the new one.
fn new_operand(table: &[u8; 256], code: u32, n: u32) -> u32
    requires { n < 256 }
    ensures { (result ≡ new_operand (index_in table.now) code n) × (result < 256) }
{
    if code < 6 {
        return n;
    }
    if 9 < code {
        return n;
    }
    table[n as usize] as u32
}

// A code that stands at a place of s and its operand bytes, at a place of the output.
fn put_code(
    s: &[u8],
    here: BitPlace,
    code: u32,
    count: usize,
    table: &[u8; 256],
    out: &mut [u8],
    at: BitPlace,
) -> BitPlace
    requires s_len_bound { (length s.now ≤ 262144) × (length out.old ≤ 262144) × (code < 32) × (count ≤ 2) }
    requires count_bound { (here.0 + (5 + 8 * count) ≤ 8 * length s.now) × (at.0 + (5 + 8 * count) ≤ 8 * length out.old) }
    ensures result_value { result.0 ≡ at.0 + (5 + 8 * count) }
    ensures out_after { out.new ≡ put_bits out.old at.0
        (bits_of 5 code ++ operands_bits (new_operands (index_in table.now) code (operands_at s.now (here.0 + 5) count))) }
{
    let second = bit_writer::put_field(out, at, 5, code);
    if count == 0 {
        return second;
    }
    let first = fields::bits_at(s, here.past(5), 8);
    let third = bit_writer::put_field(out, second, 8, new_operand(table, code, first));
    if count == 1 {
        return third;
    }
    bit_writer::put_field(out, third, 8, fields::bits_at(s, here.past(13), 8))
}

// The n bits of code from a place of s on, at a place of the output, with the new indices that the table has.
pub fn rewrite(
    s: &[u8],
    from: BitPlace,
    n: usize,
    table: &[u8; 256],
    out: &mut [u8],
    at: BitPlace,
) -> BitPlace
    requires s_len_bound { (length s.now ≤ 262144) × (length out.old ≤ 262144) × (at.0 + n ≤ 8 * length out.old) }
    requires tokens_at { TokensAt s.now from.0 n }
    ensures result_value { result.0 ≡ at.0 + n }
    ensures out_after { (w : TokensAt s.now from.0 n) →
        out.new ≡ put_bits out.old at.0 (tokens_bits (renewed (index_in table.now) w.all)) }
{
    let mut here = from;
    let mut there = bit_writer::put_field(out, at, 0, 0);
    let mut left = n;
    while 0 < left {
        let code = fields::bits_at(s, here, 5);
        let count = operand_count(lists::shape_of(code));
        there = put_code(s, here, code, count, table, out, there);
        here = here.past(5 + 8 * count);
        left -= 5 + 8 * count;
    }
    there
}
