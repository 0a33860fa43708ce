// Reading a tree file (document 01, 'Two files'; refusals 1 to 5) and a run's table of it, with what refusals 6, 7, 24 and 8 and the
// linear file's length follow from; and the one judgement of a file that was read, 6, 7 and 24.
#![tactic(auto)]

ghost use Rattle.std.specs.Prelude.{◌≡◌, ◌+◌, ◌*◌, ◌-◌, ◌/◌, ◌≤◌, ◌<◌, length};
ghost use Rattle.files.specs.Tree.{template_at, templates_at, padded_end, tree_read};
ghost use Rattle.files.specs.Accepted.{tree_checked, tree_accepted};
ghost use Rattle.files.specs.EntriesRead.{past_told};
ghost use Rattle.files.specs.RowFilled.{Unfilled};
ghost use Rattle.files.specs.Room.{ZerosFor};
ghost use Rattle.tree.specs.Summary.{lower, report_by, summary_after, template_told, templates_told, tree_told, lowest_missing, judged_told, checked_told};
ghost use Rattle.tree.specs.Marked.{template_marked, templates_marked};
ghost use Rattle.tree.specs.Tiers.{InTier};
ghost use Rattle.tree.specs.Filled.{template_filled, templates_filled, tree_filled};

use cells::BitPlace;
use files::{Reading, Refusal};
use lists::{Facts, Keep};

// What is to be known of a template: whether its list is closed, its instructions name fit indices, its offsets fit; how many bytes it
// takes in the linear file; and which templates its closures name (bit t, from the lowest, for template t).
#[derive(Clone, Copy)]
pub struct Report {
    pub closed: bool,
    pub named: bool,
    pub fits: bool,
    pub size: usize,
    pub closes: u64,
}

// T; the lowest template whose list is not closed, whose instructions name unfit indices, that has an offset too large (64: none); the
// bytes of the linear file; which templates closures name.
#[derive(Clone, Copy)]
pub struct Summary {
    pub count: u8,
    pub unclosed: u8,
    pub misnamed: u8,
    pub far: u8,
    pub size: usize,
    pub closes: u64,
}

// Four sizes of tree files: at most 4 templates and 512 bytes; 16 and 4,096; 64 and 4,096; any.
#[derive(Clone, Copy)]
pub enum Tier {
    Small,
    Middle,
    Many,
    Large,
}

// The report of a template whose entries take so many bits, and whose list has these facts.
fn report_by(facts: Facts, bits: usize) -> Report
    requires { (facts.size ≤ 1048576) × (bits ≤ 524288) }
    ensures { result ≡ report_by facts bits }
{
    Report {
        closed: facts.class.is_closed(),
        named: facts.named,
        fits: facts.fits,
        size: 1 + (bits + 7) / 8 + (3 + facts.size),
        closes: facts.closes,
    }
}

// The lowest template so far that a test refuses.
fn lower(ok: bool, own: u8, low: u8) -> u8
    ensures { result ≡ lower ok own low }
{
    if ok {
        return low;
    }
    if low < 64 {
        return low;
    }
    own
}

fn summary_after(own: u8, report: Report, sum: Summary) -> Summary
    requires { (report.size ≤ 2097152) × (sum.size ≤ 1073741824) }
    ensures { result ≡ summary_after own report sum }
{
    Summary {
        count: sum.count,
        unclosed: lower(report.closed, own, sum.unclosed),
        misnamed: lower(report.named, own, sum.misnamed),
        far: lower(report.fits, own, sum.far),
        size: sum.size + report.size,
        closes: sum.closes | report.closes,
    }
}

// Template `own` of `count`: E, the entries, the list. Entries go to row `own` of the table, and the place of the list to its slot 0. It answers
// the place past the template, and its report.
fn read_template(
    s: &[u8],
    table: &mut [u64],
    own: usize,
    count: usize,
    at: BitPlace,
    keep: Keep,
    marks: &mut [u32],
) -> Reading<(BitPlace, Report)>
    requires { (length s.now ≤ 65536) × ((own < count) × ((count ≤ 64) × Unfilled count own table.old)) }
    ensures value { result ≡ template_told (template_at s.now own count at.0) }
    ensures table_after { table.new ≡ template_filled s.now own count at.0 table.old }
    ensures template_marked { template_marked keep marks.old marks.new (template_at s.now own count at.0) }
{
    let (n, first) = files::read_field(s, at, 8)?;
    let start = files::read_entries(s, table, own, count, n as usize, first)?;
    table[256 * own] = start.to_slot();
    let (past, facts) = lists::read_list(s, table, own, start, 15, keep, marks)?;
    Ok((past, report_by(facts, start.since(first))))
}

// The `count` templates, from `at` on: the place past them and their summary.
fn read_templates(
    s: &[u8],
    table: &mut [u64],
    count: usize,
    at: BitPlace,
    keep: Keep,
    marks: &mut [u32],
) -> Reading<(BitPlace, Summary)>
    requires { (length s.now ≤ 65536) × ((count ≤ 64) × Unfilled count 0 table.old) }
    ensures value { result ≡ templates_told (templates_at s.now count 0 count at.0) }
    ensures table_after { table.new ≡ templates_filled s.now count 0 count at.0 table.old }
    ensures templates_marked { templates_marked keep marks.old marks.new (templates_at s.now count 0 count at.0) }
{
    let mut here = at;
    let mut sum = Summary {
        count: count as u8,
        unclosed: 64,
        misnamed: 64,
        far: 64,
        size: 1,
        closes: 0,
    };
    for own in 0..count {
        let (past, report) = read_template(s, table, own, count, here, keep, marks)?;
        here = past;
        sum = summary_after(own as u8, report, sum);
    }
    Ok((here, sum))
}

// The padding after the last list, and the end.
fn read_end(s: &[u8], at: BitPlace) -> Reading<BitPlace>
    requires { (length s.now ≤ 65536) × (at.0 ≤ 8 * length s.now) }
    ensures { result ≡ past_told (padded_end s.now (tt {0}) at.0) }
{
    let past = files::zero_bits(s, at, at.to_byte())?;
    files::nothing_more(s, past)
}

// Reads a tree file, fills a run's table, and marks its lists as far as there is room; its summary.
pub fn read_tree(s: &[u8], table: &mut [u64], keep: Keep, marks: &mut [u32]) -> Reading<Summary>
    requires { ZerosFor s.now table.old }
    ensures value { result ≡ tree_told (tree_read s.now) }
    ensures table_after { table.new ≡ tree_filled s.now table.old }
    ensures templates_marked { templates_marked keep marks.old marks.new (tree_read s.now) }
{
    if 65536 < s.len() {
        return Err(Refusal(1, BitPlace(0)));
    }
    let (count, first) = files::read_field(s, BitPlace(0), 8)?;
    if count < 1 {
        return Err(Refusal(3, BitPlace(0)));
    }
    if 64 < count {
        return Err(Refusal(3, BitPlace(0)));
    }
    let (past, sum) = read_templates(s, table, count as usize, first, keep, marks)?;
    read_end(s, past)?;
    Ok(sum)
}

// The lowest of the templates 1 to `count` - 1 that is not in a set (64: none). A set is of 64 templates at most.
fn lowest_missing(set: u64, count: u8) -> u8
    ensures { result ≡ lowest_missing (set / 2) 1 (count - 1) }
{
    let mut rest = set / 2;
    for own in 1..count {
        if rest % 2 != 1 {
            return own;
        }
        rest = rest / 2;
    }
    64
}

// Reads and judges a file, 1 to 7, and fills a run's table; the summary of one that passes.
pub fn read_checked(
    s: &[u8],
    table: &mut [u64],
    keep: Keep,
    marks: &mut [u32],
) -> Result<Summary, Refusal<usize>>
    requires { ZerosFor s.now table.old }
    ensures value { result ≡ judged_told (tree_checked s.now) }
    ensures table_after { table.new ≡ tree_filled s.now table.old }
    ensures templates_marked { templates_marked keep marks.old marks.new (tree_read s.now) }
{
    let sum = read_tree(s, table, keep, marks)?;
    if sum.unclosed < 64 {
        return Err(Refusal(6, sum.unclosed as usize));
    }
    if sum.misnamed < 64 {
        return Err(Refusal(7, sum.misnamed as usize));
    }
    Ok(sum)
}

// The same with 24.
pub fn read_accepted(
    s: &[u8],
    table: &mut [u64],
    keep: Keep,
    marks: &mut [u32],
) -> Result<Summary, Refusal<usize>>
    requires { ZerosFor s.now table.old }
    ensures value { result ≡ judged_told (tree_accepted s.now) }
    ensures table_after { table.new ≡ tree_filled s.now table.old }
    ensures templates_marked { templates_marked keep marks.old marks.new (tree_read s.now) }
{
    let sum = read_checked(s, table, keep, marks)?;
    let orphan = lowest_missing(sum.closes, sum.count);
    if orphan < 64 {
        return Err(Refusal(24, orphan as usize));
    }
    Ok(sum)
}

// The size of a tree file, by its bytes and its number of templates.
#[tactic(auto, unfolding(crate::specs::Tiers::InTier))]
pub fn tier_of(s: &[u8]) -> Tier
    ensures { InTier s.now result }
{
    let count = files::count_of(s);
    if 4096 < s.len() {
        return Tier::Large;
    }
    if 16 < count {
        return Tier::Many;
    }
    if 4 < count {
        return Tier::Middle;
    }
    if 512 < s.len() {
        return Tier::Middle;
    }
    Tier::Small
}

// 1 to 7 and 24: what the tree machine says of a file.
pub fn check_tree(s: &[u8]) -> Result<(), Refusal<usize>>
    ensures { result ≡ checked_told (tree_accepted s.now) }
{
    let mut table = [0u64; 16384];
    let mut no_marks = [0u32; 1];
    read_accepted(s, &mut table, Keep::Sizes, &mut no_marks)?;
    Ok(())
}
