// Linear files that no flattener writes, and the rows of document 01, run on the linear machine. A line has the end, for a halt the answer's
// 48 bits where it is an integer, for a refusal the place; then the steps, and the used cells of stack, store and frames.
#![tactic(auto)]

use cells::Value;
use machines::{End, Run};
use std::io;
use std::io::Write;

fn word<W: Write>(out: &mut W, text: &[u8]) -> io::Result<()> {
    out.write_all(text)
}

fn number<W: Write>(out: &mut W, n: u64) -> io::Result<()> {
    write!(out, " {n}")
}

fn show_value<W: Write>(out: &mut W, v: Value) -> io::Result<()> {
    word(out, b"halted")?;
    match v {
        Value::Integer(x) => number(out, x),
        Value::Unspecified => word(out, b" unspecified"),
        Value::False => word(out, b" other"),
        Value::True => word(out, b" other"),
        Value::Null => word(out, b" other"),
        Value::Procedure(_) => word(out, b" other"),
        Value::Pair(_, _) => word(out, b" other"),
        Value::NoValue => word(out, b" other"),
    }
}

fn show_end<W: Write>(out: &mut W, end: End) -> io::Result<()> {
    match end {
        End::Halted(v) => show_value(out, v),
        End::Wrong(n) => {
            word(out, b"wrong")?;
            number(out, n as u64)
        }
        End::OutOfBudget => word(out, b"wrong 19"),
        End::Refused(n, place) => {
            word(out, b"refused")?;
            number(out, n as u64)?;
            number(out, place as u64)
        }
    }
}

fn show<W: Write>(out: &mut W, r: Run) -> io::Result<()> {
    let end = r.end;
    show_end(out, end)?;
    number(out, r.steps)?;
    number(out, r.stack as u64)?;
    number(out, r.store as u64)?;
    number(out, r.frames as u64)?;
    word(out, b"\n")
}

// All globals undefined but the one at `odd`, which is c; the rest of the memory is not zero.
fn row<W: Write>(
    out: &mut W,
    name: &[u8],
    file: &[u8],
    budget: u64,
    odd: u8,
    c: u64,
) -> io::Result<()> {
    let mut globals = [0x5000_0000_0000_0000u64; 256];
    let mut stack = [7u64; 256];
    let mut store = [7u64; 2048];
    let mut frames = [7u64; 2048];
    globals[odd as usize] = c;
    word(out, name)?;
    let run = linear_machine::run_linear(
        file,
        budget,
        0,
        &mut globals,
        &mut stack,
        &mut store,
        &mut frames,
    );
    show(out, run)
}

// A memory whose frames are one cell too long.
fn long_row<W: Write>(out: &mut W, file: &[u8]) -> io::Result<()> {
    let mut globals = [0x5000_0000_0000_0000u64; 256];
    let mut stack = [0u64; 256];
    let mut store = [0u64; 2048];
    let mut frames = [0u64; 2049];
    word(out, b"frames too long: ")?;
    let run = linear_machine::run_linear(
        file,
        1,
        0,
        &mut globals,
        &mut stack,
        &mut store,
        &mut frames,
    );
    show(out, run)
}

fn plain_row<W: Write>(out: &mut W, name: &[u8], file: &[u8]) -> io::Result<()> {
    row(out, name, file, 2_000_000, 0, cells::UNDEFINED)
}

fn rows_of_the_paper<W: Write>(out: &mut W) -> io::Result<()> {
    plain_row(out, b"P1: ", b"\x01\x00\x00\x00\x01\x01")?;
    plain_row(
        out,
        b"P2: ",
        b"\x01\x02\x60\x00\x00\x00\x3b\x00\x00\x00\x01\x40\x00\x00\x10\x06\x01\x0c\x03\x00\x05\x06\x02\x05\x00\x02\x06\x01\x0c\x16\x01",
    )?;
    plain_row(
        out,
        b"P3: ",
        b"\x01\x00\x00\x00\x0d\x03\x00\x08\x04\x00\x01\x00\x01\x05\x00\x01\x0f\x01",
    )?;
    plain_row(
        out,
        b"P4: ",
        b"\x01\x00\x00\x00\x10\x03\x00\x0b\x03\x00\x04\x0f\x05\x00\x01\x0f\x05\x00\x01\x0f\x01",
    )
}

fn odd_codes<W: Write>(out: &mut W) -> io::Result<()> {
    plain_row(out, b"length 0: ", b"\x01\x00\x00\x00\x00")?;
    plain_row(
        out,
        b"jump out of the code: ",
        b"\x01\x00\x00\x00\x03\x05\x00\x10",
    )?;
    plain_row(
        out,
        b"jump into an operand: ",
        b"\x01\x00\x00\x00\x06\x05\x00\x01\x06\x0f\x01",
    )?;
    plain_row(out, b"local cut: ", b"\x01\x00\x00\x00\x02\x0a\x00")?;
    plain_row(out, b"jump cut: ", b"\x01\x00\x00\x00\x03\x0f\x05\x00")?;
    plain_row(out, b"make-cont cut: ", b"\x01\x00\x00\x00\x03\x04\x00\x00")?;
    plain_row(out, b"no code 14: ", b"\x01\x00\x00\x00\x02\x0f\x0e")?;
    plain_row(out, b"no code 255: ", b"\x01\x00\x00\x00\x01\xff")?;
    plain_row(out, b"literal 0: ", b"\x01\x00\x00\x00\x02\x06\x00")?;
    plain_row(out, b"literal above E: ", b"\x01\x00\x00\x00\x02\x06\x01")?;
    plain_row(
        out,
        b"closure of a constant: ",
        b"\x01\x01\x48\x00\x00\x02\x07\x01",
    )?;
    plain_row(
        out,
        b"global undefined: ",
        b"\x01\x01\x80\x00\x00\x00\x02\x08\x01",
    )?;
    plain_row(
        out,
        b"saved place out of the code: ",
        b"\x01\x00\x00\x00\x05\x04\xff\xff\x00\x01",
    )?;
    plain_row(
        out,
        b"call of no procedure: ",
        b"\x01\x00\x00\x00\x02\x02\x00",
    )?;
    plain_row(
        out,
        b"a step and call with a count: ",
        b"\x01\x00\x00\x00\x03\x0c\x02\x00",
    )
}

fn wide_integers<W: Write>(out: &mut W) -> io::Result<()> {
    plain_row(
        out,
        b"7 with tag 5: ",
        b"\x01\x01\x68\x00\x00\x00\x00\x00\x38\x00\x00\x03\x06\x01\x01",
    )?;
    plain_row(
        out,
        b"-1 with tag 4: ",
        b"\x01\x01\x67\xff\xff\xff\xf8\x00\x00\x03\x06\x01\x01",
    )?;
    plain_row(out, b"tag 5 cut: ", b"\x01\x01\x68\x00\x00\x00\x00\x00")?;
    plain_row(out, b"tag 6: ", b"\x01\x01\x70")
}

fn starts_and_files<W: Write>(out: &mut W) -> io::Result<()> {
    row(
        out,
        b"budget 0: ",
        b"\x01\x00\x00\x00\x01\x01",
        0,
        0,
        cells::UNDEFINED,
    )?;
    row(
        out,
        b"budget 1 of 2: ",
        b"\x01\x00\x00\x00\x02\x0f\x01",
        1,
        0,
        cells::UNDEFINED,
    )?;
    row(
        out,
        b"budget 2 of 2: ",
        b"\x01\x00\x00\x00\x02\x0f\x01",
        2,
        0,
        cells::UNDEFINED,
    )?;
    row(
        out,
        b"budget 1 before a wrong step: ",
        b"\x01\x00\x00\x00\x02\x0f\xff",
        1,
        0,
        cells::UNDEFINED,
    )?;
    row(
        out,
        b"budget too large: ",
        b"\x01\x00\x00\x00\x01\x01",
        2_000_001,
        0,
        cells::UNDEFINED,
    )?;
    row(
        out,
        b"global 3 not in use: ",
        b"\x01\x00\x00\x00\x01\x01",
        1,
        3,
        0,
    )?;
    row(
        out,
        b"global 255 a pair: ",
        b"\x01\x00\x00\x00\x01\x01",
        1,
        255,
        0x8000_0000_0000_0000,
    )?;
    row(
        out,
        b"global 5 an integer with a bit set below: ",
        b"\x01\x00\x00\x00\x01\x01",
        1,
        5,
        0x6000_0000_0000_0800,
    )?;
    long_row(out, b"\x01\x00\x00\x00\x01\x01")?;
    plain_row(out, b"no templates: ", b"\x00")?;
    plain_row(out, b"a byte too many: ", b"\x01\x00\x00\x00\x01\x01\x00")?;
    plain_row(out, b"code cut: ", b"\x01\x00\x00\x00\x02\x01")
}

fn main(rt: HostRuntime) -> io::Result<()> {
    let mut out = rt.stdout();
    rows_of_the_paper(&mut out)?;
    odd_codes(&mut out)?;
    wide_integers(&mut out)?;
    starts_and_files(&mut out)
}
