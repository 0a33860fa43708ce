// The machine on basic byte code (document 02, request 6): the pass that makes a file's links, and the run of a
// file that is accepted.
#![tactic(auto)]

ghost use Rattle.std.specs.Prelude.{◌≡◌, ℕ, ◌+◌, ◌*◌, ◌≤◌, ◌<◌, length, set};
ghost use Rattle.files.specs.Reading.{got};
ghost use Rattle.links.specs.Links.{link};
ghost use Rattle.basic.specs.Basic.{Basic, closure_t, branch_t, save_t};
ghost use Rattle.basic.specs.Reading.{token_at};
ghost use Rattle.basic.specs.Checked.{basic_checked};
ghost use Rattle.machines.specs.Runs.{lent, ran};
ghost use Rattle.machines.specs.Start.{zeros};
ghost use Rattle.basic_program.specs.Run.{on_basic, basic_run};
ghost use Rattle.basic_machine.specs.Accepted.{AcceptedFile};
ghost use Rattle.basic_machine.specs.Links.{onward, linked, tabled};
ghost use Rattle.basic_machine.specs.Pass.{Reads, Parted, Fresh};

use basic::Token;
use cells::BitPlace;
use files::Refusal;
use machines::Run;
use owners::Owner;

// What stands at a place of a list: its end; an instruction without lists, and the place past it; a closure, its list, the place past that and how many
// closures it has; a conditional, its arms, the place past them and how many closures each has; a make-cont, its saved list as a closure's; or no instruction.
#[derive(Clone, Copy)]
enum Parts {
    End,
    Simple(BitPlace),
    Closure(BitPlace, BitPlace, usize),
    Arms(BitPlace, BitPlace, BitPlace, usize, usize),
    Saved(BitPlace, BitPlace, usize),
    Bad,
}

// A closure, whose list begins at a place.
fn closure_parts(s: &[u8], at: BitPlace) -> Parts
    requires { length s.now ≤ 65536 }
    ensures { (p : ℕ) (c : Basic) → token_at s.now 15 p ≡ got closure_t at.0 → Reads s.now p c
        → Parted s.now p c result }
{
    match basic::read_list(s, at, 15) {
        Ok((past, x)) => Parts::Closure(at, past, x.inside),
        Err(_) => Parts::Bad,
    }
}

// A conditional, whose first arm begins at a place.
fn arms_parts(s: &[u8], at: BitPlace) -> Parts
    requires { length s.now ≤ 65536 }
    ensures { (p : ℕ) (c : Basic) → token_at s.now 15 p ≡ got branch_t at.0 → Reads s.now p c
        → Parted s.now p c result }
{
    let Ok((second, x)) = basic::read_list(s, at, 15) else {
        return Parts::Bad;
    };
    let Ok((past, y)) = basic::read_list(s, second, 15) else {
        return Parts::Bad;
    };
    Parts::Arms(at, second, past, x.inside, y.inside)
}

// A make-cont, whose saved list begins at a place.
fn saved_parts(s: &[u8], at: BitPlace) -> Parts
    requires { length s.now ≤ 65536 }
    ensures { (p n : ℕ) (c : Basic) → token_at s.now 15 p ≡ got (save_t n) at.0 → Reads s.now p c
        → Parted s.now p c result }
{
    match basic::read_list(s, at, 15) {
        Ok((past, x)) => Parts::Saved(at, past, x.inside),
        Err(_) => Parts::Bad,
    }
}

// What stands at a place of a list that is read there.
fn parts_at(s: &[u8], at: BitPlace) -> Parts
    requires { length s.now ≤ 65536 }
    ensures { (c : Basic) → Reads s.now at.0 c → Parted s.now at.0 c result }
{
    let Ok(token) = basic::read_token(s, at, 15) else {
        return Parts::Bad;
    };
    match token {
        Token::End(_) => Parts::End,
        Token::Ending(next)
        | Token::Plain(next)
        | Token::Literal(_, _, next)
        | Token::Global(_, _, next) => Parts::Simple(next),
        Token::Closure(list) => closure_parts(s, list),
        Token::Branch(first) => arms_parts(s, first),
        Token::Save(list) => saved_parts(s, list),
    }
}

// ---- links and starts

fn put_link(links: &mut [u32], at: BitPlace, to: usize)
    requires { to < 0x100000000 }
    ensures { links.new ≡ link links.old at.0 to }
{
    let i = at.link_index();
    if i < links.len() {
        links[i] = to as u32;
    }
}

// Where the list of a template begins, in slot 0 of its row.
fn put_start(table: &mut [u64], number: usize, at: BitPlace)
    requires { number ≤ 64 }
    ensures { table.new ≡ set table.old (256 * number) at.0 }
{
    let i = 256 * number;
    if i < table.len() {
        table[i] = at.to_slot();
    }
}

// With which instruction execution goes on after arms: the list at a place is the rest of their conditional, and `goes` is where it goes on after that.
fn follow_of(s: &[u8], at: BitPlace, goes: BitPlace) -> BitPlace
    requires { length s.now ≤ 65536 }
    ensures { (c : Basic) → Reads s.now at.0 c → result.0 ≡ onward c goes.0 at.0 }
{
    let Some((code, _)) = fields::read_field(s, at, 5) else {
        return at;
    };
    if code == 0 { goes } else { at }
}

// The links and the starts of the list at a place, after which execution goes on at `follow`; its first template has number `first`.
fn link_list(
    s: &[u8],
    links: &mut [u32],
    table: &mut [u64],
    at: BitPlace,
    first: usize,
    follow: BitPlace,
)
    requires { (length s.now ≤ 65536) × (follow.0 ≤ 524288) × Fresh s.now at.0 first }
    ensures { (c : Basic) → Reads s.now at.0 c
        → (links.new ≡ linked links.old first follow.0 at.0 c)
        × (table.new ≡ tabled table.old first at.0 c) }
{
    let mut here = at;
    let mut number = first;
    let mut goes = follow;
    loop {
        match parts_at(s, here) {
            Parts::End => {
                put_link(links, here, goes.number());
                return;
            }
            Parts::Simple(past) => {
                here = past;
            }
            Parts::Closure(list, past, inside) => {
                put_start(table, number, list);
                put_link(links, here, 64 * past.number() + number);
                link_list(s, links, table, list, number + 1, BitPlace(0));
                number = number + 1 + inside;
                here = past;
            }
            Parts::Arms(arm, second, past, in_first, in_second) => {
                let after = follow_of(s, past, goes);
                put_link(links, here, second.number());
                link_list(s, links, table, arm, number, after);
                link_list(s, links, table, second, number + in_first, after);
                number = number + in_first + in_second;
                here = past;
            }
            Parts::Saved(list, past, inside) => {
                put_link(links, here, past.number());
                link_list(s, links, table, list, number, goes);
                number = number + inside;
                goes = BitPlace(0);
                here = past;
            }
            Parts::Bad => {
                return;
            }
        }
    }
}

// The run of a file that is accepted, with links for it to fill and a table of zeros.
pub fn run_accepted(
    file: &[u8],
    links: &mut [u32],
    table: &mut [u64],
    budget: u64,
    owner: Owner,
    globals: &mut [u64; 256],
    stack: &mut [u64; 256],
    store: &mut [u64; 2048],
    frames: &mut [u64; 2048],
) -> Run
    requires { AcceptedFile file.now × (table.old ≡ zeros 16384)
        × (8 * length file.now ≤ 5 * length links.old) }
    ensures { ran result (lent globals.exit stack.exit store.exit frames.exit)
        ≡ on_basic owner budget (lent globals.entry stack.entry store.entry frames.entry) (basic_checked file.now) }
{
    link_list(file, links, table, BitPlace(0), 1, BitPlace(0));
    let first = BitPlace::from_slot(machines::slot_at(table, 0, 0));
    basic_steps::run_code(
        file, links, table, first, budget, owner, globals, stack, store, frames,
    )
}

// The run of a file. The table is zeros; the links are for it to fill.
fn run_checked(
    file: &[u8],
    table: &mut [u64],
    links: &mut [u32],
    budget: u64,
    owner: Owner,
    globals: &mut [u64; 256],
    stack: &mut [u64; 256],
    store: &mut [u64; 2048],
    frames: &mut [u64; 2048],
) -> Run
    requires { (table.old ≡ zeros 16384)
        × (length file.now ≤ 65536 → 8 * length file.now ≤ 5 * length links.old) }
    ensures { ran result (lent globals.exit stack.exit store.exit frames.exit)
        ≡ on_basic owner budget (lent globals.entry stack.entry store.entry frames.entry) (basic_checked file.now) }
{
    let mut entries = [0u64; 256];
    match tabulate::check_basic(file, &mut entries) {
        Ok(_) => run_accepted(
            file, links, table, budget, owner, globals, stack, store, frames,
        ),
        Err(Refusal(number, at)) => machines::refused(number, at),
    }
}

// The same with LINKS links of its own, one for each 5 bits, where they are enough. It is not inlined: links of both sizes would share one frame.
#[inline(never)]
fn run_sized<const LINKS: usize>(
    file: &[u8],
    table: &mut [u64],
    budget: u64,
    owner: Owner,
    globals: &mut [u64; 256],
    stack: &mut [u64; 256],
    store: &mut [u64; 2048],
    frames: &mut [u64; 2048],
) -> Run
    requires { (table.old ≡ zeros 16384) × (LINKS ≤ 104858)
        × (length file.now ≤ 65536 → 8 * length file.now ≤ 5 * LINKS) }
    ensures { ran result (lent globals.exit stack.exit store.exit frames.exit)
        ≡ on_basic owner budget (lent globals.entry stack.entry store.entry frames.entry) (basic_checked file.now) }
{
    let mut links = [0u32; LINKS];
    run_checked(
        file, table, &mut links, budget, owner, globals, stack, store, frames,
    )
}

// The same with links for the file's size. Most files are short, and zeroing the links of the longest would cost more than their runs.
fn run_file(
    file: &[u8],
    table: &mut [u64],
    budget: u64,
    owner: Owner,
    globals: &mut [u64; 256],
    stack: &mut [u64; 256],
    store: &mut [u64; 2048],
    frames: &mut [u64; 2048],
) -> Run
    requires { table.old ≡ zeros 16384 }
    ensures { ran result (lent globals.exit stack.exit store.exit frames.exit)
        ≡ on_basic owner budget (lent globals.entry stack.entry store.entry frames.entry) (basic_checked file.now) }
{
    if file.len() <= 4096 {
        run_sized::<6554>(file, table, budget, owner, globals, stack, store, frames)
    } else {
        run_sized::<104858>(file, table, budget, owner, globals, stack, store, frames)
    }
}

pub fn run_basic(
    file: &[u8],
    budget: u64,
    owner: u64,
    globals: &mut [u64],
    stack: &mut [u64],
    store: &mut [u64],
    frames: &mut [u64],
) -> Run
    ensures { ran result (lent globals.exit stack.exit store.exit frames.exit)
        ≡ basic_run file.now budget owner (lent globals.entry stack.entry store.entry frames.entry) }
{
    match machines::start_refusal(globals, stack, store, frames, budget, 1_000_000, owner) {
        Ok(whose) => {
            let mut table = [0u64; 16384];
            run_file(
                file,
                &mut table,
                budget,
                whose,
                globals.as_mut_array().unwrap(),
                stack.as_mut_array().unwrap(),
                store.as_mut_array().unwrap(),
                frames.as_mut_array().unwrap(),
            )
        }
        Err(Refusal(number, place)) => machines::refused(number, place),
    }
}
