// Links between the places of a tree file (document 01, 'Rules'): what a run of the tree machine keeps of lists, so that a step costs
// constant time.
#![tactic(auto)]

ghost use Rattle.std.specs.Prelude.{◌≡◌, ℕ, ◌+◌, ◌*◌, ◌-◌, ◌≤◌, ◌<◌, length};
ghost use Rattle.files.specs.Tree.{tree_read};
ghost use Rattle.files.specs.Reading.{head_at, deep_of, list_at};
ghost use Rattle.links.specs.Links.{link_at, link};
ghost use Rattle.links.specs.TreeSteps.{linked_from, FileReady, FileMarked};
ghost use Rattle.links.specs.Parts.{parts_of, ToLink, ArmsToLink, SavedToLink, linked_got, linked_arms, linked_saved};

use cells::BitPlace;
use lists::Shape;

// What stands at a place of a list: its end, an instruction without lists and the place past it, the place of a conditional's second arm
// and the place past both, the place past a make-cont's saved list, or no instruction.
#[derive(Clone, Copy)]
pub enum Parts {
    End,
    Simple(BitPlace),
    Arms(BitPlace, BitPlace),
    Saved(BitPlace),
    Bad,
}

// The link of a place, place 0 where there is none.
pub fn link_at(links: &[u32], at: BitPlace) -> BitPlace
    ensures { result.0 ≡ link_at links.now at.0 }
{
    BitPlace::from_link(lists::mark_at(links, at))
}

fn set_link(links: &mut [u32], at: BitPlace, to: BitPlace)
    requires { to.0 ≤ 524288 }
    ensures { links.new ≡ link links.old at.0 to.0 }
{
    let i = at.link_index();
    if i < links.len() {
        links[i] = to.to_link();
    }
}

// ---- what stands at a place

// What stands at a place of a list that was read. The links of places that are not linked yet hold what reading kept: at a list's first
// place the place past it.
#[tactic(auto, unfolding(lists::specs::Shapes::Numbered))]
fn parts_at(s: &[u8], links: &[u32], at: BitPlace) -> Parts
    requires { (length s.now ≤ 65536) × (at.0 + 5 ≤ 8 * length s.now) }
    ensures { (l : ℕ) → ToLink s.now links.now l at.0
        → result ≡ parts_of at.0 (head_at s.now (deep_of s.now l) at.0) }
{
    match lists::shape_of(fields::bits_at(s, at, 5)) {
        Shape::End => Parts::End,
        Shape::Plain(operands) => Parts::Simple(at.past(5 + 8 * operands)),
        Shape::Branch => {
            let second = link_at(links, at.past(5));
            Parts::Arms(second, link_at(links, second))
        }
        Shape::Save => Parts::Saved(link_at(links, at.past(13))),
        Shape::NoCode => Parts::Bad,
    }
}

// ---- links

// The links of the arms of the conditional at a place: its second arm, and the place past both, with `levels` levels left below them.
#[cycle(link_arms_link_list_link_saved)]
fn link_arms(
    s: &[u8],
    links: &mut [u32],
    at: BitPlace,
    second: BitPlace,
    past: BitPlace,
    levels: usize,
)
    requires { (length s.now ≤ 65536) × ArmsToLink s.now links.old levels at.0 second.0 past.0 }
    ensures { links.new
        ≡ linked_arms links.old at.0 second.0 past.0 (list_at s.now levels (at.0 + 5))
        (list_at s.now levels second.0) }
{
    set_link(links, at, second);
    link_list(s, links, at.past(5), second.back(5), past, levels);
    link_list(s, links, second, past.back(5), past, levels);
}

// The links of the saved list of the make-cont at a place: the place past it, in a list that ends at `end`.
#[cycle(link_arms_link_list_link_saved)]
fn link_saved(
    s: &[u8],
    links: &mut [u32],
    at: BitPlace,
    end: BitPlace,
    past: BitPlace,
    levels: usize,
)
    requires { (length s.now ≤ 65536) × (end.0 ≤ 524288) × SavedToLink s.now links.old levels at.0 past.0 }
    ensures { links.new ≡ linked_saved links.old at.0 end.0 past.0 (list_at s.now levels (at.0 + 13)) }
{
    set_link(links, at, past);
    link_list(s, links, at.past(13), past.back(5), end, levels);
}

// The links of the list at a place, which ends at `end` and after which execution goes on at `follow`, with `levels`
// levels left below it.
#[cycle(link_arms_link_list_link_saved)]
fn link_list(
    s: &[u8],
    links: &mut [u32],
    at: BitPlace,
    end: BitPlace,
    follow: BitPlace,
    levels: usize,
)
    requires { (length s.now ≤ 65536) × (end.0 ≤ 524288) × (follow.0 ≤ 524288) × ToLink s.now links.old levels at.0 }
    ensures { links.new ≡ linked_got links.old at.0 end.0 follow.0 (list_at s.now levels at.0) }
{
    let mut here = at;
    loop {
        match parts_at(s, links, here) {
            Parts::End => {
                set_link(links, here, follow);
                return;
            }
            Parts::Simple(past) => {
                here = past;
            }
            Parts::Arms(second, past) => {
                link_arms(s, links, here, second, past, levels - 1);
                here = past;
            }
            Parts::Saved(past) => {
                link_saved(s, links, here, end, past, levels - 1);
                here = past;
            }
            Parts::Bad => {
                return;
            }
        }
    }
}

// The links of the lists of a tree file that is read, where the table is its table and has `count` templates, and the links are what reading
// kept: the place past each list. No list is read again.
pub fn link_tree(s: &[u8], table: &[u64], count: usize, links: &mut [u32])
    requires { FileReady s.now table.now count × (256 * count ≤ length table.now) × FileMarked s.now links.old }
    ensures { links.new ≡ linked_from links.old 0 (tree_read s.now) }
{
    for own in 0..count {
        let start = BitPlace::from_slot(table[256 * own]);
        link_list(s, links, start, BitPlace(0), BitPlace(0), 15);
    }
}
