// The program of document 01: a sheet on standard input, its lines on standard output. Where a read fails it writes nothing there: an error is no
// end of the input, and what was read before it is no sheet.
#![tactic(auto)]

ghost use Rattle.std.specs.Prelude.{◌≤◌, length};
ghost use Rattle.trial.specs.Input.{Within};

use std::io;
use std::io::{Read, Write};

// One read, behind the bytes that are there already: how many came, 0 at the end of the input. No contract can say what a read brings.
fn read_more<R: Read>(input: &mut R, sheet: &mut [u8], done: usize) -> io::Result<usize>
    requires { done ≤ length sheet.old }
    ensures { Within done result (length sheet.new) }
{
    input.read(&mut sheet[done..])
}

// Reads until the input ends or the buffer is full.
fn read_sheet<R: Read>(input: &mut R, sheet: &mut [u8]) -> io::Result<usize>
    ensures { Within 0 result (length sheet.new) }
{
    let mut done: usize = 0;
    while done < sheet.len() {
        let more = read_more(input, sheet, done)?;
        if more == 0 {
            return Ok(done);
        }
        done = done + more;
    }
    Ok(done)
}

fn main(rt: HostRuntime) -> io::Result<()> {
    let mut sheet = [0u8; 4097];
    let mut input = rt.stdin();
    let length = read_sheet(&mut input, &mut sheet)?;
    let mut out = [0u8; 256];
    let printed = lines::program(&sheet[..length], &mut out);
    if let Ok(count) = printed {
        if count <= 256 {
            let mut output = rt.stdout();
            output.write_all(&out[..count])?;
        }
    }
    Ok(())
}
