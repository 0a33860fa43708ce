// The pull list (document 02, Ask 9). Of the machines it knows what `linear_machine` promises, and nothing below it.
#![tactic(auto)]

ghost use Rattle.std.specs.Prelude.{◌≡◌, Ok, [], ◌∷◌, ◌++◌, ◌+◌, ◌*◌, ◌/◌, ◌≤◌, ◌<◌, length, replicate, true};
ghost use Rattle.cells.specs.Cells.{full, undefined_cell, starting_global};
ghost use Rattle.text.specs.Put.{Put};
ghost use Rattle.text.specs.Text.{integer, line};
ghost use Rattle.integers.specs.Integers.{signed, int_bits};
ghost use Rattle.linear_machine.specs.Again.{TableOf, AllFit};
ghost use Rattle.pull.specs.Pull.{clip_count, clip_at, word, word_cell, clip_globals, clip_run, verdict, source_words, halted_words, wrong_words};
ghost use Rattle.pull.specs.Pull.{end_words, found_line, pull_line, pull_list, lowest_still, speeds_checked, room_checked, clips_checked};
ghost use Rattle.pull.specs.Pull.{pulled, pulled_list, bytes_of};

use cells::BitPlace;
use files::{Outcome, Refusal};
use machines::{End, Run};

// What a clip's line tells of its run: the end, and the cells of globals 6 and 7.
#[derive(Clone, Copy)]
struct Found {
    end: End,
    six: u64,
    seven: u64,
}

// ---- clips' words as integers

fn word_bits(clip: &[i32], n: usize) -> u64
    requires { n < length clip.now }
    ensures value { result ≡ int_bits (word clip.now n) }
    ensures upper_bound { result < full }
    ensures result_value { signed result ≡ word clip.now n }
{
    let w = clip[n];
    if w < 0 {
        (w as i64 + cells::FULL as i64) as u64
    } else {
        w as u64
    }
}

fn word_cell(clip: &[i32], n: usize) -> u64
    requires { n < length clip.now }
    ensures value { result ≡ word_cell (word clip.now n) }
    ensures result_value { starting_global result ≡ true }
{
    cells::int_cell(word_bits(clip, n))
}

// ---- a clip's line, from place `at` on; each function answers the place after what it put

// The first word that fits, and a blank. in and out, the media's first and last frame, as bits.
fn put_verdict(list: &mut [u8], at: usize, i: u64, o: u64, first: u64, last: u64) -> usize
    requires i_lt_full { (i < full) × (o < full) × (first < full) × (last < full) }
    requires at_in_bounds { at + 6 ≤ length list.old }
    ensures put { Put list.old at list.new result (verdict (signed i) (signed o) (signed first) (signed last) ++ (32 ∷ [])) }
    ensures upper_bound { result ≤ at + 6 }
{
    if integers::less(o, i) {
        return text::put_word(list, at, b"order");
    }
    if integers::less(i, first) {
        return text::put_word(list, at, b"low");
    }
    if integers::less(last, o) {
        return text::put_word(list, at, b"high");
    }
    text::put_word(list, at, b"ok")
}

// in and out, each with what follows it.
fn put_source(list: &mut [u8], at: usize, i: u64, o: u64) -> usize
    requires { at + 38 ≤ length list.old }
    ensures put { Put list.old at list.new result (line (integer full i ∷ integer full o ∷ [])) }
    ensures upper_bound { result ≤ at + 34 }
{
    let blank = text::put_integer(list, at, i, cells::FULL);
    let next = text::put_byte(list, blank, b' ');
    let newline = text::put_integer(list, next, o, cells::FULL);
    text::put_byte(list, newline, b'\n')
}

// Of the integers i and o.
fn put_range(list: &mut [u8], at: usize, clip: &[i32], i: u64, o: u64) -> usize
    requires i_lt_full { (i < full) × (o < full) }
    requires in_bounds { 8 ≤ length clip.now }
    requires at_in_bounds { at + 44 ≤ length list.old }
    ensures put { Put list.old at list.new result (line (source_words clip.now i o)) }
    ensures upper_bound { result ≤ at + 40 }
{
    let first = word_bits(clip, 6);
    let last = word_bits(clip, 7);
    let next = put_verdict(list, at, i, o, first, last);
    put_source(list, next, i, o)
}

// Of a rule that halted, by the cells i and o.
fn put_halted(list: &mut [u8], at: usize, clip: &[i32], i: u64, o: u64) -> usize
    requires in_bounds { 8 ≤ length clip.now }
    requires at_in_bounds { at + 44 ≤ length list.old }
    ensures put { Put list.old at list.new result (line (halted_words clip.now i o)) }
    ensures upper_bound { result ≤ at + 40 }
{
    if cells::tag_of(i) != 6 {
        return text::put_bytes(list, at, b"none\n");
    }
    if cells::tag_of(o) != 6 {
        return text::put_bytes(list, at, b"none\n");
    }
    put_range(list, at, clip, cells::int_of(i), cells::int_of(o))
}

fn put_wrong(list: &mut [u8], at: usize, n: u8) -> usize
    requires { at + 44 ≤ length list.old }
    ensures put { Put list.old at list.new result (line (wrong_words n)) }
    ensures upper_bound { result ≤ at + 40 }
{
    let next = text::put_word(list, at, b"wrong");
    text::put_number(list, next, n as u64, b'\n')
}

fn put_end(list: &mut [u8], at: usize, clip: &[i32], found: Found) -> usize
    requires in_bounds { 8 ≤ length clip.now }
    requires at_in_bounds { at + 44 ≤ length list.old }
    ensures put { Put list.old at list.new result (line (end_words clip.now found.end found.six found.seven)) }
    ensures upper_bound { result ≤ at + 40 }
{
    let end = found.end;
    match end {
        End::Halted(_) => put_halted(list, at, clip, found.six, found.seven),
        End::Wrong(n) => put_wrong(list, at, n),
        End::OutOfBudget => put_wrong(list, at, 19),
        End::Refused(n, _) => put_wrong(list, at, n),
    }
}

fn put_line(list: &mut [u8], at: usize, k: usize, clip: &[i32], found: Found) -> usize
    requires k_bound { k < 256 }
    requires in_bounds { 8 ≤ length clip.now }
    requires at_in_bounds { at + 48 ≤ length list.old }
    ensures put { Put list.old at list.new result (found_line k clip.now found) }
    ensures upper_bound { result ≤ at + 44 }
{
    let next = text::put_number(list, at, k as u64, b' ');
    put_end(list, next, clip, found)
}

// ---- a clip's run

// All globals undefined, whatever an earlier clip's rule left in them.
fn undefine(globals: &mut [u64; 256])
    ensures { globals.new ≡ replicate 256 undefined_cell }
{
    for g in 0..256 {
        globals[g] = cells::UNDEFINED;
    }
}

// The clip's first six words, and no word that an earlier clip's rule left.
fn set_globals(clip: &[i32], globals: &mut [u64; 256])
    requires { 8 ≤ length clip.now }
    ensures globals_after { globals.new ≡ clip_globals clip.now }
    ensures all_fit { AllFit globals.new }
{
    undefine(globals);
    for n in 0..6 {
        globals[n] = word_cell(clip, n);
    }
}

// The rule is run here, as the house, and nowhere else. The file was read: `table` is its table. What the four arrays held is not seen by the run.
fn run_clip(
    clip: &[i32],
    file: &[u8],
    table: &[u64],
    budget: u64,
    globals: &mut [u64; 256],
    stack: &mut [u64; 256],
    store: &mut [u64; 2048],
    frames: &mut [u64; 2048],
) -> Found
    requires { (8 ≤ length clip.now) × TableOf file.now table.now × (budget ≤ 2000000) }
    ensures { result ≡ clip_run clip.now file.now budget }
{
    set_globals(clip, globals);
    let run = linear_machine::run_again(file, table, budget, 0, globals, stack, store, frames);
    let end = run.end;
    Found {
        end: end,
        six: globals[6],
        seven: globals[7],
    }
}

// Clip k: its run, and its line.
fn pull_clip(
    clips: &[i32],
    k: usize,
    file: &[u8],
    table: &[u64],
    budget: u64,
    globals: &mut [u64; 256],
    stack: &mut [u64; 256],
    store: &mut [u64; 2048],
    frames: &mut [u64; 2048],
    list: &mut [u8],
    at: usize,
) -> usize
    requires k_bound { (k < 256) × (8 * k + 8 ≤ length clips.now) × TableOf file.now table.now × (budget ≤ 2000000) }
    requires at_in_bounds { at + 48 ≤ length list.old }
    ensures put { Put list.old at list.new result (pull_line k (clip_at clips.now k) file.now budget) }
    ensures upper_bound { result ≤ at + 44 }
{
    let first = 8 * k;
    let clip = &clips[first..first + 8];
    let found = run_clip(clip, file, table, budget, globals, stack, store, frames);
    put_line(list, at, k, clip, found)
}

// The lines of all clips. The four arrays are used again for each clip.
fn pull_clips(
    clips: &[i32],
    file: &[u8],
    table: &[u64],
    budget: u64,
    globals: &mut [u64; 256],
    stack: &mut [u64; 256],
    store: &mut [u64; 2048],
    frames: &mut [u64; 2048],
    list: &mut [u8],
) -> usize
    requires { (length clips.now / 8 ≤ 256) × (48 * (length clips.now / 8) ≤ length list.old) × TableOf file.now table.now
        × (budget ≤ 2000000) }
    ensures put { Put list.old 0 list.new result (pull_list clips.now file.now budget) }
    ensures upper_bound { result ≤ 44 * (length clips.now / 8) }
{
    let mut at: usize = 0;
    for k in 0..clips.len() / 8 {
        at = pull_clip(
            clips, k, file, table, budget, globals, stack, store, frames, list, at,
        );
    }
    at
}

fn pull_read(clips: &[i32], file: &[u8], table: &[u64], budget: u64, list: &mut [u8]) -> usize
    requires { (length clips.now / 8 ≤ 256) × (48 * (length clips.now / 8) ≤ length list.old) × TableOf file.now table.now × (budget ≤ 2000000) }
    ensures put { Put list.old 0 list.new result (pull_list clips.now file.now budget) }
    ensures upper_bound { result ≤ 44 * (length clips.now / 8) }
{
    let mut globals = [0u64; 256];
    let mut stack = [0u64; 256];
    let mut store = [0u64; 2048];
    let mut frames = [0u64; 2048];
    pull_clips(
        clips,
        file,
        table,
        budget,
        &mut globals,
        &mut stack,
        &mut store,
        &mut frames,
        list,
    )
}

// ---- what is refused before any run

// The lowest clip whose denominator is not positive.
fn lowest_still(clips: &[i32]) -> Option<usize>
    ensures { result ≡ lowest_still clips.now 0 (clip_count clips.now) }
{
    for k in 0..clips.len() / 8 {
        if clips[8 * k + 3] < 1 {
            return Some(k);
        }
    }
    None
}

// 29 and 21.
fn check_room(count: usize, budget: u64, room: usize) -> Result<(), Refusal<usize>>
    requires { count ≤ 256 }
    ensures { result ≡ room_checked count budget room }
{
    if room < 48 * count {
        return Err(Refusal(29, 0));
    }
    if 2_000_000 < budget {
        return Err(Refusal(21, 0));
    }
    Ok(())
}

// 27, 28, 29 and 21.
fn check_clips(clips: &[i32], budget: u64, room: usize) -> Result<(), Refusal<usize>>
    ensures { result ≡ clips_checked clips.now budget room }
{
    let count = clips.len() / 8;
    if 256 < count {
        return Err(Refusal(27, 0));
    }
    if clips.len() % 8 != 0 {
        return Err(Refusal(27, 0));
    }
    if let Some(k) = lowest_still(clips) {
        return Err(Refusal(28, k));
    }
    check_room(count, budget, room)
}

// Where clips, list and budget are accepted. The file is read once, for all clips.
fn pull_file(clips: &[i32], file: &[u8], budget: u64, list: &mut [u8]) -> Outcome
    requires { clips_checked clips.now budget (length list.old) ≡ Ok tt }
    ensures value { result ≡ pulled clips.now file.now budget (length list.old) }
    ensures list_after { list.new ≡ pulled_list clips.now file.now budget list.old }
    ensures result_bound { bytes_of result ≤ 44 * (length clips.now / 8) }
{
    let mut table = [0u64; 16384];
    linear::read_linear(file, &mut table)?;
    Ok(pull_read(clips, file, &table, budget, list))
}

// The lines of the clips, in the first bytes of the list. Clips are i32 words, eight for each clip.
pub fn pull_list(clips: &[i32], file: &[u8], budget: u64, list: &mut [u8]) -> Outcome
    ensures value { result ≡ pulled clips.now file.now budget (length list.old) }
    ensures list_after { list.new ≡ pulled_list clips.now file.now budget list.old }
    ensures longest { bytes_of result ≤ 44 * (length clips.now / 8) }
{
    check_clips(clips, budget, list.len())?;
    pull_file(clips, file, budget, list)
}
