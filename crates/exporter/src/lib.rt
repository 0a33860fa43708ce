// What the exporter's library for C does (include/exporter.h). The crate exporter_c has these functions under their names for C.
#![tactic(auto)]

ghost use Rattle.std.specs.Prelude.{◌≡◌, [], ◌∷◌, ◌≤◌, length};
ghost use Rattle.std.proofs.lemmas.List.Edits.{sets};
ghost use Rattle.cells.specs.Cells.{cell_of};
ghost use Rattle.files.specs.Outcome.{answered, written};
ghost use Rattle.flatten.specs.Flatten.{flattened};
ghost use Rattle.join.specs.Join.{joined_file};
ghost use Rattle.machines.specs.Runs.{lent, tree_run, linear_run};
ghost use Rattle.pull.specs.Pull.{pulled, pulled_list};
ghost use Rattle.unflatten.specs.Back.{backed};
ghost use Rattle.exporter.specs.Exporter.{outcome_slots, outcome_result, outcome_output, end_slots, run_slots, exported, run_exported};
ghost use Rattle.basic.specs.Checked.{tabulated_file};
ghost use Rattle.basic_program.specs.Run.{basic_run};
ghost use Rattle.trim.specs.Function.{trimmed_into};
ghost use Rattle.exporter.specs.Trims.{trim_slots, trim_result, trim_output, trim_lines};
ghost use Rattle.exporter.specs.Answers.{FieldsFit, AnswerFits};

use cells::Value;
use files::{Outcome, Refusal};
use machines::{End, Run};

// The cell of an answer.
fn answer_cell(v: Value) -> u64
    requires { FieldsFit v }
    ensures { result ≡ cell_of v }
{
    match v {
        Value::False => cells::FALSE,
        Value::True => cells::TRUE,
        Value::Null => cells::NULL,
        Value::Unspecified => cells::UNSPECIFIED,
        Value::Integer(x) => cells::int_cell(x),
        Value::Procedure(c) => {
            cells::closure_cell(c.template as u8, c.env as u16, c.location as u16)
        }
        Value::Pair(a, b) => cells::pair_cell(a as u16, b as u16),
        Value::NoValue => 0,
    }
}

// ---- slots from the first on

fn put_slots(res: &mut [u64], slots: &[u64])
    requires { length slots.now ≤ length res.old }
    ensures { res.new ≡ sets res.old 0 slots.now }
{
    res[..slots.len()].copy_from_slice(slots);
}

fn put_outcome(res: &mut [u64], answer: Outcome)
    requires { 2 ≤ length res.old }
    ensures { res.new ≡ sets res.old 0 (outcome_slots answer) }
{
    match answer {
        Ok(n) => put_slots(res, &[0, n as u64]),
        Err(Refusal(n, p)) => put_slots(res, &[n as u64, p as u64]),
    }
}

fn put_end(res: &mut [u64], end: End)
    requires in_bounds { 4 ≤ length res.old }
    requires answer_fits { AnswerFits end }
    ensures { res.new ≡ sets res.old 0 (end_slots end) }
{
    match end {
        End::Halted(v) => put_slots(res, &[0, 0, 0, answer_cell(v)]),
        End::Wrong(n) => put_slots(res, &[1, n as u64, 0, 0]),
        End::OutOfBudget => put_slots(res, &[2, 19, 0, 0]),
        End::Refused(n, p) => put_slots(res, &[3, n as u64, p as u64, 0]),
    }
}

fn put_run(res: &mut [u64], run: Run)
    requires in_bounds { 8 ≤ length res.old }
    requires answer_fits { AnswerFits run.end }
    ensures { res.new ≡ sets res.old 0 (run_slots run) }
{
    let end = run.end;
    put_end(res, end);
    res[4] = run.steps;
    res[5] = run.stack as u64;
    res[6] = run.store as u64;
    res[7] = run.frames as u64;
}

// ---- the library's functions. A result that is too short: nothing at all is done.

pub fn exporter_flatten(file: &[u8], out: &mut [u8], res: &mut [u64])
    ensures out_after { out.new
        ≡ outcome_output (written out.old (flattened file.now (length out.old))) out.old res.old }
    ensures res_after { res.new ≡ outcome_result (answered (flattened file.now (length out.old))) res.old }
{
    if res.len() < 2 {
        return;
    }
    let answer = flatten::flatten(file, out);
    put_outcome(res, answer);
}

pub fn exporter_back(file: &[u8], out: &mut [u8], res: &mut [u64])
    ensures out_after { out.new
        ≡ outcome_output (written out.old (backed file.now (length out.old))) out.old res.old }
    ensures res_after { res.new ≡ outcome_result (answered (backed file.now (length out.old))) res.old }
{
    if res.len() < 2 {
        return;
    }
    let answer = unflatten::back(file, out);
    put_outcome(res, answer);
}

pub fn exporter_tabulate(file: &[u8], out: &mut [u8], res: &mut [u64])
    ensures out_after { out.new
        ≡ outcome_output (written out.old (tabulated_file file.now (length out.old)))
        out.old res.old }
    ensures res_after { res.new ≡ outcome_result (answered (tabulated_file file.now (length out.old))) res.old }
{
    if res.len() < 2 {
        return;
    }
    let answer = tabulate::tabulate(file, out);
    put_outcome(res, answer);
}

pub fn exporter_join(prologue: &[u8], file: &[u8], out: &mut [u8], res: &mut [u64])
    ensures out_after { out.new
        ≡ outcome_output (written out.old (joined_file prologue.now file.now (length out.old)))
        out.old res.old }
    ensures res_after { res.new ≡ outcome_result
        (answered (joined_file prologue.now file.now (length out.old))) res.old }
{
    if res.len() < 2 {
        return;
    }
    let answer = join::join(prologue, file, out);
    put_outcome(res, answer);
}

pub fn exporter_run_tree(
    file: &[u8],
    budget: u64,
    owner: u64,
    globals: &mut [u64],
    stack: &mut [u64],
    store: &mut [u64],
    frames: &mut [u64],
    res: &mut [u64],
)
    ensures { exported (lent globals.exit stack.exit store.exit frames.exit) res.new
        ≡ run_exported (tree_run file.now budget owner) (lent globals.entry stack.entry store.entry frames.entry) res.old }
{
    if res.len() < 8 {
        return;
    }
    let run = tree_machine::run_tree(file, budget, owner, globals, stack, store, frames);
    put_run(res, run);
}

pub fn exporter_run_basic(
    file: &[u8],
    budget: u64,
    owner: u64,
    globals: &mut [u64],
    stack: &mut [u64],
    store: &mut [u64],
    frames: &mut [u64],
    res: &mut [u64],
)
    ensures { exported (lent globals.exit stack.exit store.exit frames.exit) res.new
        ≡ run_exported (basic_run file.now budget owner) (lent globals.entry stack.entry store.entry frames.entry)
        res.old }
{
    if res.len() < 8 {
        return;
    }
    let run = basic_machine::run_basic(file, budget, owner, globals, stack, store, frames);
    put_run(res, run);
}

pub fn exporter_run_linear(
    file: &[u8],
    budget: u64,
    owner: u64,
    globals: &mut [u64],
    stack: &mut [u64],
    store: &mut [u64],
    frames: &mut [u64],
    res: &mut [u64],
)
    ensures { exported (lent globals.exit stack.exit store.exit frames.exit) res.new
        ≡ run_exported (linear_run file.now budget owner) (lent globals.entry stack.entry store.entry frames.entry)
        res.old }
{
    if res.len() < 8 {
        return;
    }
    let run = linear_machine::run_linear(file, budget, owner, globals, stack, store, frames);
    put_run(res, run);
}

pub fn exporter_pull_list(clips: &[i32], file: &[u8], budget: u64, list: &mut [u8], res: &mut [u64])
    ensures list_after { list.new
        ≡ outcome_output (pulled_list clips.now file.now budget list.old) list.old res.old }
    ensures res_after { res.new
        ≡ outcome_result (pulled clips.now file.now budget (length list.old)) res.old }
{
    if res.len() < 2 {
        return;
    }
    let answer = pull::pull_list(clips, file, budget, list);
    put_outcome(res, answer);
}

// ---- trimming

fn put_trimmed(res: &mut [u64], answer: Result<(usize, usize), Refusal<usize>>)
    requires { 3 ≤ length res.old }
    ensures { res.new ≡ sets res.old 0 (trim_slots answer) }
{
    match answer {
        Ok((n, m)) => put_slots(res, &[0, n as u64, m as u64]),
        Err(Refusal(n, p)) => put_slots(res, &[n as u64, p as u64, 0]),
    }
}

pub fn exporter_trim(file: &[u8], out: &mut [u8], list: &mut [u8], res: &mut [u64])
    ensures out_after { out.new
        ≡ trim_output (trimmed_into file.now (length out.old) (length list.old)) out.old res.old }
    ensures list_after { list.new
        ≡ trim_lines (trimmed_into file.now (length out.old) (length list.old)) list.old res.old }
    ensures res_after { res.new
        ≡ trim_result (trimmed_into file.now (length out.old) (length list.old)) res.old }
{
    if res.len() < 3 {
        return;
    }
    let answer = trim::trim(file, out, list);
    put_trimmed(res, answer);
}
