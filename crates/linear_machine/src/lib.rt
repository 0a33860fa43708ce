// The machine of linear code (document 01, 'Rules').
#![tactic(auto)]

ghost use Rattle.std.specs.Prelude.{◌≡◌, ◌*◌, ◌≤◌};
ghost use Rattle.files.specs.Linear.{linear_read};
ghost use Rattle.files.specs.Room.{RoomFor, ZerosFor};
ghost use Rattle.owners.specs.Owners.{owner_of};
ghost use Rattle.machines.specs.Runs.{lent, ran, start_state, on_linear, linear_run};
ghost use Rattle.machines.specs.Start.{start_refusal};
ghost use Rattle.machines.specs.Steps.{ran_from};
ghost use Rattle.linear_code.specs.Bytes.{bytes_program, AllWithin};
ghost use Rattle.linear_machine.specs.Again.{TableOf};

use files::Refusal;
use machines::Run;
use owners::Owner;

// The run of a file that is read, where the table is its table.
fn run_read(
    file: &[u8],
    table: &[u64],
    budget: u64,
    owner: Owner,
    globals: &mut [u64; 256],
    stack: &mut [u64; 256],
    store: &mut [u64; 2048],
    frames: &mut [u64; 2048],
) -> Run
    requires { AllWithin file.now table.now }
    ensures { ran result (lent globals.exit stack.exit store.exit frames.exit)
        ≡ ran_from owner (bytes_program file.now table.now) budget 0 (start_state globals.old 0) }
{
    linear_steps::run_code(file, table, budget, owner, globals, stack, store, frames)
}

// The run of a file, with a table of zeros for it to fill, which has a row for each of its templates.
fn run_file(
    file: &[u8],
    table: &mut [u64],
    budget: u64,
    owner: Owner,
    globals: &mut [u64; 256],
    stack: &mut [u64; 256],
    store: &mut [u64; 2048],
    frames: &mut [u64; 2048],
) -> Run
    requires { ZerosFor file.now table.old }
    ensures { ran result (lent globals.exit stack.exit store.exit frames.exit)
        ≡ on_linear owner budget (lent globals.entry stack.entry store.entry frames.entry) (linear_read file.now) }
{
    match linear::read_linear(file, table) {
        Ok(_) => run_read(file, table, budget, owner, globals, stack, store, frames),
        Err(Refusal(number, place)) => machines::refused(number, place.number()),
    }
}

// The same with a table of its own of CELLS numbers, where they are enough. It is not inlined: tables of several sizes would share one frame.
#[inline(never)]
fn run_sized<const CELLS: usize>(
    file: &[u8],
    budget: u64,
    owner: Owner,
    globals: &mut [u64; 256],
    stack: &mut [u64; 256],
    store: &mut [u64; 2048],
    frames: &mut [u64; 2048],
) -> Run
    requires { (CELLS ≤ 16384) × RoomFor file.now CELLS }
    ensures { ran result (lent globals.exit stack.exit store.exit frames.exit)
        ≡ on_linear owner budget (lent globals.entry stack.entry store.entry frames.entry) (linear_read file.now) }
{
    let mut table = [0u64; CELLS];
    run_file(
        file, &mut table, budget, owner, globals, stack, store, frames,
    )
}

// The run of a file, with a table of 4, 16 or 64 rows. Most files have few templates, and zeroing 64 rows would
// cost more than their runs.
fn run_rows(
    file: &[u8],
    budget: u64,
    owner: Owner,
    globals: &mut [u64; 256],
    stack: &mut [u64; 256],
    store: &mut [u64; 2048],
    frames: &mut [u64; 2048],
) -> Run
    ensures { ran result (lent globals.exit stack.exit store.exit frames.exit)
        ≡ on_linear owner budget (lent globals.entry stack.entry store.entry frames.entry) (linear_read file.now) }
{
    let count = files::count_of(file);
    if count <= 4 {
        return run_sized::<1024>(file, budget, owner, globals, stack, store, frames);
    }
    if count <= 16 {
        return run_sized::<4096>(file, budget, owner, globals, stack, store, frames);
    }
    run_sized::<16384>(file, budget, owner, globals, stack, store, frames)
}

pub fn run_linear(
    file: &[u8],
    budget: u64,
    owner: u64,
    globals: &mut [u64],
    stack: &mut [u64],
    store: &mut [u64],
    frames: &mut [u64],
) -> Run
    ensures { ran result (lent globals.exit stack.exit store.exit frames.exit)
        ≡ linear_run file.now budget owner (lent globals.entry stack.entry store.entry frames.entry) }
{
    match machines::start_refusal(globals, stack, store, frames, budget, 2_000_000, owner) {
        Ok(whose) => run_rows(
            file,
            budget,
            whose,
            globals.as_mut_array().unwrap(),
            stack.as_mut_array().unwrap(),
            store.as_mut_array().unwrap(),
            frames.as_mut_array().unwrap(),
        ),
        Err(Refusal(number, place)) => machines::refused(number, place),
    }
}

// The same run of a file that was read before (`linear::read_linear`), with the table that reading it filled, where 20, 21, 31 and 22 are not given:
// many runs of one file read it once.
pub fn run_again(
    file: &[u8],
    table: &[u64],
    budget: u64,
    owner: u64,
    globals: &mut [u64],
    stack: &mut [u64],
    store: &mut [u64],
    frames: &mut [u64],
) -> Run
    requires table_of { TableOf file.now table.now }
    requires frames_value { start_refusal 2000000 budget owner (lent globals stack store frames) ≡ Ok (owner_of owner) }
    ensures { ran result (lent globals.exit stack.exit store.exit frames.exit)
        ≡ linear_run file.now budget owner (lent globals.entry stack.entry store.entry frames.entry) }
{
    let whose = owners::owner_of(owner);
    run_read(
        file,
        table,
        budget,
        whose,
        globals.as_mut_array().unwrap(),
        stack.as_mut_array().unwrap(),
        store.as_mut_array().unwrap(),
        frames.as_mut_array().unwrap(),
    )
}
