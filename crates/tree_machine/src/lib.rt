// The machine of tree code (document 01, 'Rules').
#![tactic(auto)]

ghost use Rattle.std.specs.Prelude.{◌≡◌, ◌*◌, ◌≤◌, length};
ghost use Rattle.files.specs.Tree.{tree_read};
ghost use Rattle.files.specs.Accepted.{tree_accepted};
ghost use Rattle.files.specs.Room.{RoomFor, ZerosFor};
ghost use Rattle.links.specs.TreeSteps.{FileReady, FileMarked};
ghost use Rattle.machines.specs.Runs.{lent, ran, on_tree, tree_run};

use cells::BitPlace;
use files::Refusal;
use lists::Keep;
use machines::Run;
use owners::Owner;
use tree::Tier;

// The run of a file that is accepted, where the table is its table and has `count` templates, and the links are what reading kept of its lists.
fn run_linked(
    file: &[u8],
    table: &[u64],
    count: usize,
    links: &mut [u32],
    budget: u64,
    owner: Owner,
    globals: &mut [u64; 256],
    stack: &mut [u64; 256],
    store: &mut [u64; 2048],
    frames: &mut [u64; 2048],
) -> Run
    requires { FileReady file.now table.now count × (256 * count ≤ length table.now)
        × (tree_accepted file.now ≡ tree_read file.now) × (8 * length file.now ≤ 5 * length links.old) × FileMarked file.now links.old }
    ensures { ran result (lent globals.exit stack.exit store.exit frames.exit)
        ≡ on_tree owner budget (lent globals.entry stack.entry store.entry frames.entry) (tree_accepted file.now) }
{
    links::link_tree(file, table, count, links);
    let first = BitPlace::from_slot(machines::slot_at(table, 0, 0));
    tree_steps::run_code(
        file, links, table, first, budget, owner, globals, stack, store, frames,
    )
}

// The run of a file. The table is zeros; the links are for it to fill.
fn run_marked(
    file: &[u8],
    table: &mut [u64],
    links: &mut [u32],
    budget: u64,
    owner: Owner,
    globals: &mut [u64; 256],
    stack: &mut [u64; 256],
    store: &mut [u64; 2048],
    frames: &mut [u64; 2048],
) -> Run
    requires { ZerosFor file.now table.old
        × (length file.now ≤ 65536 → 8 * length file.now ≤ 5 * length links.old) }
    ensures { ran result (lent globals.exit stack.exit store.exit frames.exit)
        ≡ on_tree owner budget (lent globals.entry stack.entry store.entry frames.entry) (tree_accepted file.now) }
{
    match tree::read_accepted(file, table, Keep::Pasts, links) {
        Ok(sum) => run_linked(
            file,
            table,
            sum.count as usize,
            links,
            budget,
            owner,
            globals,
            stack,
            store,
            frames,
        ),
        Err(Refusal(number, place)) => machines::refused(number, place),
    }
}

// The same with a table of CELLS numbers and LINKS links of its own, one for each 5 bits, where they are enough. It is not inlined: tables of several
// sizes would share one frame.
#[inline(never)]
fn run_sized<const CELLS: usize, const LINKS: usize>(
    file: &[u8],
    budget: u64,
    owner: Owner,
    globals: &mut [u64; 256],
    stack: &mut [u64; 256],
    store: &mut [u64; 2048],
    frames: &mut [u64; 2048],
) -> Run
    requires { (CELLS ≤ 16384) × (LINKS ≤ 104858)
        × RoomFor file.now CELLS × (length file.now ≤ 65536 → 8 * length file.now ≤ 5 * LINKS) }
    ensures { ran result (lent globals.exit stack.exit store.exit frames.exit)
        ≡ on_tree owner budget (lent globals.entry stack.entry store.entry frames.entry) (tree_accepted file.now) }
{
    let mut table = [0u64; CELLS];
    let mut links = [0u32; LINKS];
    run_marked(
        file, &mut table, &mut links, budget, owner, globals, stack, store, frames,
    )
}

// The run of a file, with tables for its size.
#[tactic(auto, unfolding(tree::specs::Tiers::InTier))]
fn run_tier(
    file: &[u8],
    budget: u64,
    owner: Owner,
    globals: &mut [u64; 256],
    stack: &mut [u64; 256],
    store: &mut [u64; 2048],
    frames: &mut [u64; 2048],
) -> Run
    ensures { ran result (lent globals.exit stack.exit store.exit frames.exit)
        ≡ on_tree owner budget (lent globals.entry stack.entry store.entry frames.entry) (tree_accepted file.now) }
{
    match tree::tier_of(file) {
        Tier::Small => run_sized::<1024, 820>(file, budget, owner, globals, stack, store, frames),
        Tier::Middle => run_sized::<4096, 6554>(file, budget, owner, globals, stack, store, frames),
        Tier::Many => run_sized::<16384, 6554>(file, budget, owner, globals, stack, store, frames),
        Tier::Large => run_sized::<16384, 104858>(
            file, budget, owner, globals, stack, store, frames,
        ),
    }
}

pub fn run_tree(
    file: &[u8],
    budget: u64,
    owner: u64,
    globals: &mut [u64],
    stack: &mut [u64],
    store: &mut [u64],
    frames: &mut [u64],
) -> Run
    ensures { ran result (lent globals.exit stack.exit store.exit frames.exit)
        ≡ tree_run file.now budget owner (lent globals.entry stack.entry store.entry frames.entry) }
{
    match machines::start_refusal(globals, stack, store, frames, budget, 1_000_000, owner) {
        Ok(whose) => run_tier(
            file,
            budget,
            whose,
            globals.as_mut_array().unwrap(),
            stack.as_mut_array().unwrap(),
            store.as_mut_array().unwrap(),
            frames.as_mut_array().unwrap(),
        ),
        Err(Refusal(number, place)) => machines::refused(number, place),
    }
}
