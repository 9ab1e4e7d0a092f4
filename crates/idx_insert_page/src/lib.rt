// What an insertion does to one page: a leaf takes in a pair, a page above takes in what was done under it; each holds its entries or is split.
#![tactic(auto)]

ghost use Rattle.std.specs.Prelude.{◌≡◌, true, ◌≤◌, Some, length};
ghost use Rattle.tree.specs.Pairs.{insert_pair};
ghost use Rattle.idx_page.specs.Header.{max_key, is_page, features};
ghost use Rattle.idx_page.specs.Reading.{items};
ghost use Rattle.idx_page.specs.EntryOrder.{item_order};
ghost use Rattle.idx_leaf.specs.Leaf.{items_in, stored};
ghost use Rattle.idx_layout.specs.Given.{Over};
ghost use Rattle.idx_supply.specs.Given.{Lasts};
ghost use Rattle.idx_insert_page.specs.Insertion.{split, step, take_in, after_child};
ghost use Rattle.idx_insert_page.specs.Answers.{outcome_of, NextFits};

use idx_entries::Room;
use idx_layout::Entries;
use idx_page::{Page, PageOffset, RecordNumber};
use idx_supply::Supply;

// What an insertion under a page leaves: the new page for the page above to take in, if there is one, and the supply that is left. An answer of `None` in its
// place says that the insertion met no page.
#[derive(Clone, Copy)]
pub struct Outcome {
    pub new_page: Option<PageOffset>,
    pub supply: Supply,
}

// Gives a page `entries`, or splits it, with a new page from `supply`.
fn take_in(index: &mut [u8], page: PageOffset, entries: Entries, supply: Supply) -> Option<Outcome>
    requires { Over index.old entries.k page.0 entries.count × Lasts 1 supply }
    ensures { take_in entries.entry.k index.old page.0
        (items entries.entry.k entries.entry.count entries.entry.bytes.now) supply
        ≡ step index.new (outcome_of result) }
{
    if entries.count <= Page::capacity(entries.k) {
        idx_layout::with_entries(index, page, entries);
        return Some(Outcome {
            new_page: None,
            supply,
        });
    }
    let taken = idx_supply::take_page(index, supply);
    if !idx_page::is_page(index.len(), taken.page) {
        return None;
    }
    idx_layout::split_page(index, page, entries, taken.page);
    Some(Outcome {
        new_page: Some(taken.page),
        supply: taken.rest,
    })
}

// Puts a pair into a leaf.
pub fn insert_in_leaf(
    index: &mut [u8],
    key: &[u8],
    number: RecordNumber,
    page: PageOffset,
    supply: Supply,
    room: &mut Room,
) -> Option<Outcome>
    requires { (length key.now ≤ max_key) × (is_page (length index.old) page.0 ≡ true) × Lasts 1 supply }
    ensures { take_in (length key.now) index.old page.0
        (insert_pair (item_order (features index.old)) (stored key.now number.0)
        (items_in (length key.now) index.old page.0))
        supply ≡ step index.new (outcome_of result) }
{
    let count = idx_leaf::entry_count(index, key.len(), page);
    room.gather_pair(index, key, number, page, count);
    take_in(index, page, room.entries(key.len(), count + 1), supply)
}

// Puts two entries, for `child` and `new`, in the place of entry `i`, whose child, `child`, was split.
fn take_in_two(
    index: &mut [u8],
    key: &[u8],
    page: PageOffset,
    i: usize,
    child: PageOffset,
    new: PageOffset,
    supply: Supply,
    room: &mut Room,
) -> Option<Outcome>
    requires { (length key.now ≤ max_key) × (is_page (length index.old) page.0 ≡ true) × Lasts 1 supply }
    ensures { after_child (length key.now) index.old key.now page.0 i child.0 (split new.0 supply)
        ≡ step index.new (outcome_of result) }
{
    let count = idx_leaf::entry_count(index, key.len(), page);
    if count <= i {
        return None;
    }
    room.gather_two(index, key, page, count, i, child, new);
    take_in(index, page, room.entries(key.len(), count + 1), supply)
}

// What a page does after an insertion under `child`, the child of its entry `i`, left `below`.
pub fn after_child(
    index: &mut [u8],
    key: &[u8],
    page: PageOffset,
    i: usize,
    child: PageOffset,
    below: Outcome,
    room: &mut Room,
) -> Option<Outcome>
    requires { (length key.now ≤ max_key) × (is_page (length index.old) page.0 ≡ true) × NextFits below }
    ensures { after_child (length key.now) index.old key.now page.0 i child.0 (outcome_of (Some below))
        ≡ step index.new (outcome_of result) }
{
    match below.new_page {
        None => {
            idx_entries::raise_key(index, key, page, i);
            Some(below)
        }
        Some(new) => take_in_two(index, key, page, i, child, new, below.supply, room),
    }
}
