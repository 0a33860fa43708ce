// The program of document 01: a sheet's lines.
#![tactic(auto)]

ghost use Rattle.std.specs.Prelude.{◌≡◌, ◌+◌, ◌≤◌, length};
ghost use Rattle.text.specs.Put.{Put};
ghost use Rattle.text.specs.Text.{line};
ghost use Rattle.lines.specs.Lines.{answer_word, end_words, machine_line, linear_line};
ghost use Rattle.lines.specs.Lines.{tabular_run, flat_run, accepted_lines, linear_of, sheet_lines, program_lines, printed, program_output};

use cells::Value;
use files::{Outcome, Refusal};
use machines::{End, Run};

// ---- words into a buffer, from place at on; each function answers the place after them

fn put_answer(out: &mut [u8], at: usize, v: Value) -> usize
    requires { at + 21 ≤ length out.old }
    ensures put { Put out.old at out.new result (answer_word v) }
    ensures upper_bound { result ≤ at + 21 }
{
    match v {
        Value::False => text::put_bytes(out, at, b"false"),
        Value::True => text::put_bytes(out, at, b"true"),
        Value::Null => text::put_bytes(out, at, b"null"),
        Value::Unspecified => text::put_bytes(out, at, b"unspecified"),
        Value::Integer(x) => text::put_integer(out, at, x, cells::FULL),
        Value::Procedure(_) => text::put_bytes(out, at, b"procedure"),
        Value::Pair(_, _) => text::put_bytes(out, at, b"pair"),
        Value::NoValue => text::put_bytes(out, at, b"none"),
    }
}

fn put_linear(out: &mut [u8], at: usize, n: u64) -> usize
    requires { at + 28 ≤ length out.old }
    ensures put { Put out.old at out.new result (linear_line n) }
    ensures upper_bound { result ≤ at + 28 }
{
    let next = text::put_word(out, at, b"linear");
    text::put_number(out, next, n, b'\n')
}

fn put_halted(out: &mut [u8], at: usize, v: Value, steps: u64) -> usize
    requires { at + 50 ≤ length out.old }
    ensures put { Put out.old at out.new result (line (end_words (End.Halted v) steps)) }
    ensures upper_bound { result ≤ at + 50 }
{
    let first = text::put_word(out, at, b"halted");
    let second = put_answer(out, first, v);
    let third = text::put_byte(out, second, b' ');
    text::put_number(out, third, steps, b'\n')
}

fn put_end(out: &mut [u8], at: usize, end: End, steps: u64) -> usize
    requires { at + 50 ≤ length out.old }
    ensures put { Put out.old at out.new result (line (end_words end steps)) }
    ensures upper_bound { result ≤ at + 50 }
{
    match end {
        End::Halted(v) => put_halted(out, at, v, steps),
        End::Wrong(n) => text::put_numbers(out, at, b"wrong", n as u64, steps),
        End::OutOfBudget => text::put_numbers(out, at, b"wrong", 19, steps),
        End::Refused(n, p) => text::put_numbers(out, at, b"refused", n as u64, p as u64),
    }
}

// A machine's name and how its run ended.
fn put_machine(out: &mut [u8], at: usize, name: &[u8], run: Run) -> usize
    requires { at + length name.now + 51 ≤ length out.old }
    ensures put { Put out.old at out.new result (machine_line name.now run) }
    ensures upper_bound { result ≤ at + length name.now + 51 }
{
    let next = text::put_word(out, at, name);
    let end = run.end;
    put_end(out, next, end, run.steps)
}

// ---- the program

// The owner as which the program runs.
const HOUSE: u64 = 0;

fn tabular_run(sheet: &[u8]) -> Run
    ensures { result ≡ tabular_run sheet.now }
{
    let mut globals = [cells::UNDEFINED; 256];
    let mut stack = [0u64; 256];
    let mut store = [0u64; 2048];
    let mut frames = [0u64; 2048];
    tree_machine::run_tree(
        sheet,
        1_000_000,
        HOUSE,
        &mut globals,
        &mut stack,
        &mut store,
        &mut frames,
    )
}

fn flat_run(linear: &[u8]) -> Run
    ensures { result ≡ flat_run linear.now }
{
    let mut globals = [cells::UNDEFINED; 256];
    let mut stack = [0u64; 256];
    let mut store = [0u64; 2048];
    let mut frames = [0u64; 2048];
    linear_machine::run_linear(
        linear,
        2_000_000,
        HOUSE,
        &mut globals,
        &mut stack,
        &mut store,
        &mut frames,
    )
}

fn put_accepted(out: &mut [u8], sheet: &[u8], linear: &[u8]) -> usize
    requires { 256 ≤ length out.old }
    ensures put { Put out.old 0 out.new result (accepted_lines sheet.now linear.now) }
    ensures upper_bound { result ≤ 256 }
{
    let tabular = tabular_run(sheet);
    let flat = flat_run(linear);
    let second = put_linear(out, 0, linear.len() as u64);
    let third = put_machine(out, second, b"tabular", tabular);
    put_machine(out, third, b"flat", flat)
}

fn put_sheet(out: &mut [u8], sheet: &[u8]) -> usize
    requires in_bounds { 256 ≤ length out.old }
    requires sheet_len_bound { length sheet.now ≤ 4096 }
    ensures put { Put out.old 0 out.new result (sheet_lines sheet.now (linear_of sheet.now)) }
    ensures upper_bound { result ≤ 256 }
{
    let mut linear = [0u8; 16384];
    match flatten::flatten(sheet, &mut linear) {
        Ok(n) => put_accepted(out, sheet, &linear[..n]),
        Err(Refusal(n, p)) => text::put_numbers(out, 0, b"refused", n as u64, p as u64),
    }
}

fn put_lines(out: &mut [u8], sheet: &[u8]) -> usize
    requires { 256 ≤ length out.old }
    ensures put { Put out.old 0 out.new result (program_lines sheet.now) }
    ensures upper_bound { result ≤ 256 }
{
    if sheet.len() <= 4096 {
        put_sheet(out, sheet)
    } else {
        text::put_numbers(out, 0, b"refused", 1, 0)
    }
}

// The lines of a sheet, in the first bytes of out; nothing is written where they do not fit.
pub fn program(sheet: &[u8], out: &mut [u8]) -> Outcome
    ensures value { result ≡ printed (program_lines sheet.now) (length out.old) }
    ensures out_after { out.new ≡ program_output (program_lines sheet.now) out.old }
{
    let mut lines = [0u8; 256];
    let count = put_lines(&mut lines, sheet);
    if out.len() < count {
        return Err(Refusal(9, count));
    }
    Ok(text::put_bytes(out, 0, &lines[..count]))
}
