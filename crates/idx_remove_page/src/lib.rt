// What a removal does to one page: a leaf loses the entry, a page above loses the entry of a page that was emptied, which becomes free.
#![tactic(auto)]

ghost use Rattle.std.specs.Prelude.{◌≡◌, true, ◌≤◌, Some, length};
ghost use Rattle.idx_page.specs.Header.{max_key, is_page};
ghost use Rattle.idx_leaf.specs.Leaf.{items_in, stored, place_in};
ghost use Rattle.idx_remove_page.specs.Removal.{step, take_out, after_child};
ghost use Rattle.idx_remove_page.specs.Answers.{outcome_of, EmptiedPage};

use idx_entries::Room;
use idx_page::{PageOffset, RecordNumber};

// What a removal under a page leaves for the page above to do: nothing; or to free the page, which has no entry left. An answer of `None` in its place says
// that the removal met no page, or no entry.
#[derive(Clone, Copy)]
pub enum Outcome {
    Kept,
    Emptied,
}

// Takes entry `i` out of a page.
fn take_out(
    index: &mut [u8],
    k: usize,
    page: PageOffset,
    i: usize,
    room: &mut Room,
) -> Option<Outcome>
    requires { k ≤ max_key }
    ensures { take_out k index.old page.0 i ≡ step index.new (outcome_of result) }
{
    let count = idx_leaf::entry_count(index, k, page);
    if count <= i {
        return None;
    }
    let fewer = count - 1;
    room.gather_without(index, k, page, count, i);
    idx_layout::with_entries(index, page, room.entries(k, fewer));
    if fewer == 0 {
        return Some(Outcome::Emptied);
    }
    Some(Outcome::Kept)
}

// What a page does after a removal under its entry `i`, over `child`, left `below`.
pub fn after_child(
    index: &mut [u8],
    k: usize,
    page: PageOffset,
    i: usize,
    child: PageOffset,
    below: Outcome,
    room: &mut Room,
) -> Option<Outcome>
    requires { (k ≤ max_key) × (is_page (length index.old) page.0 ≡ true) × EmptiedPage (length index.old) child.0 below }
    ensures { after_child k index.old page.0 i child.0 (outcome_of (Some below)) ≡ step index.new (outcome_of result) }
{
    match below {
        Outcome::Kept => Some(Outcome::Kept),
        Outcome::Emptied => {
            idx_free::unlink_page(index, child);
            idx_free::free_page(index, child);
            take_out(index, k, page, i, room)
        }
    }
}

// Takes the entry that `key` with its record number leads to out of a leaf.
pub fn remove_in_leaf(
    index: &mut [u8],
    key: &[u8],
    number: RecordNumber,
    page: PageOffset,
    room: &mut Room,
) -> Option<Outcome>
    requires { (length key.now ≤ max_key) × (is_page (length index.old) page.0 ≡ true) }
    ensures { take_out (length key.now) index.old page.0
        (place_in index.old (stored key.now number.0) (items_in (length key.now) index.old page.0))
        ≡ step index.new (outcome_of result) }
{
    let i = idx_leaf::leaf_entry(index, key, number, page);
    take_out(index, key.len(), page, i, room)
}
