// The exporter's functions under their names for C (include/exporter.h): each is that of the library exporter, with its clauses word for word.
#![tactic(auto)]

ghost use Rattle.std.specs.Prelude.{◌≡◌, length};
ghost use Rattle.files.specs.Outcome.{answered, written};
ghost use Rattle.flatten.specs.Flatten.{flattened};
ghost use Rattle.join.specs.Join.{joined_file};
ghost use Rattle.machines.specs.Runs.{lent, tree_run, linear_run};
ghost use Rattle.pull.specs.Pull.{pulled, pulled_list};
ghost use Rattle.unflatten.specs.Back.{backed};
ghost use Rattle.exporter.specs.Exporter.{outcome_result, outcome_output, exported, run_exported};
ghost use Rattle.basic.specs.Checked.{tabulated_file};
ghost use Rattle.basic_program.specs.Run.{basic_run};
ghost use Rattle.trim.specs.Function.{trimmed_into};
ghost use Rattle.exporter.specs.Trims.{trim_result, trim_output, trim_lines};

#[unsafe(no_mangle)]
pub extern "C" fn exporter_flatten(file: &[u8], out: &mut [u8], res: &mut [u64])
    ensures out_after { out.new
        ≡ outcome_output (written out.old (flattened file.now (length out.old))) out.old res.old }
    ensures res_after { res.new ≡ outcome_result (answered (flattened file.now (length out.old))) res.old }
{
    exporter::exporter_flatten(file, out, res);
}

#[unsafe(no_mangle)]
pub extern "C" fn exporter_back(file: &[u8], out: &mut [u8], res: &mut [u64])
    ensures out_after { out.new
        ≡ outcome_output (written out.old (backed file.now (length out.old))) out.old res.old }
    ensures res_after { res.new ≡ outcome_result (answered (backed file.now (length out.old))) res.old }
{
    exporter::exporter_back(file, out, res);
}

#[unsafe(no_mangle)]
pub extern "C" fn exporter_tabulate(file: &[u8], out: &mut [u8], res: &mut [u64])
    ensures out_after { out.new
        ≡ outcome_output (written out.old (tabulated_file file.now (length out.old)))
        out.old res.old }
    ensures res_after { res.new ≡ outcome_result (answered (tabulated_file file.now (length out.old))) res.old }
{
    exporter::exporter_tabulate(file, out, res);
}

#[unsafe(no_mangle)]
pub extern "C" fn exporter_join(prologue: &[u8], file: &[u8], out: &mut [u8], res: &mut [u64])
    ensures out_after { out.new
        ≡ outcome_output (written out.old (joined_file prologue.now file.now (length out.old)))
        out.old res.old }
    ensures res_after { res.new ≡ outcome_result
        (answered (joined_file prologue.now file.now (length out.old))) res.old }
{
    exporter::exporter_join(prologue, file, out, res);
}

#[unsafe(no_mangle)]
pub extern "C" fn exporter_run_tree(
    file: &[u8],
    budget: u64,
    owner: u64,
    globals: &mut [u64],
    stack: &mut [u64],
    store: &mut [u64],
    frames: &mut [u64],
    res: &mut [u64],
)
    ensures { exported (lent globals.exit stack.exit store.exit frames.exit) res.new
        ≡ run_exported (tree_run file.now budget owner) (lent globals.entry stack.entry store.entry frames.entry) res.old }
{
    exporter::exporter_run_tree(file, budget, owner, globals, stack, store, frames, res);
}

#[unsafe(no_mangle)]
pub extern "C" fn exporter_run_basic(
    file: &[u8],
    budget: u64,
    owner: u64,
    globals: &mut [u64],
    stack: &mut [u64],
    store: &mut [u64],
    frames: &mut [u64],
    res: &mut [u64],
)
    ensures { exported (lent globals.exit stack.exit store.exit frames.exit) res.new
        ≡ run_exported (basic_run file.now budget owner) (lent globals.entry stack.entry store.entry frames.entry)
        res.old }
{
    exporter::exporter_run_basic(file, budget, owner, globals, stack, store, frames, res);
}

#[unsafe(no_mangle)]
pub extern "C" fn exporter_run_linear(
    file: &[u8],
    budget: u64,
    owner: u64,
    globals: &mut [u64],
    stack: &mut [u64],
    store: &mut [u64],
    frames: &mut [u64],
    res: &mut [u64],
)
    ensures { exported (lent globals.exit stack.exit store.exit frames.exit) res.new
        ≡ run_exported (linear_run file.now budget owner) (lent globals.entry stack.entry store.entry frames.entry)
        res.old }
{
    exporter::exporter_run_linear(file, budget, owner, globals, stack, store, frames, res);
}

#[unsafe(no_mangle)]
pub extern "C" fn exporter_pull_list(
    clips: &[i32],
    file: &[u8],
    budget: u64,
    list: &mut [u8],
    res: &mut [u64],
)
    ensures list_after { list.new
        ≡ outcome_output (pulled_list clips.now file.now budget list.old) list.old res.old }
    ensures res_after { res.new
        ≡ outcome_result (pulled clips.now file.now budget (length list.old)) res.old }
{
    exporter::exporter_pull_list(clips, file, budget, list, res);
}

#[unsafe(no_mangle)]
pub extern "C" fn exporter_trim(file: &[u8], out: &mut [u8], list: &mut [u8], res: &mut [u64])
    ensures out_after { out.new
        ≡ trim_output (trimmed_into file.now (length out.old) (length list.old)) out.old res.old }
    ensures list_after { list.new
        ≡ trim_lines (trimmed_into file.now (length out.old) (length list.old)) list.old res.old }
    ensures res_after { res.new
        ≡ trim_result (trimmed_into file.now (length out.old) (length list.old)) res.old }
{
    exporter::exporter_trim(file, out, list, res);
}
