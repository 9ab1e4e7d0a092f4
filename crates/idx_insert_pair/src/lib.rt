// Insertion of a pair into an index that has room for it: down to the leaf and page by page up again, then the root and the header.
#![tactic(auto)]

ghost use Rattle.std.specs.Prelude.{◌≡◌, true, ◌≤◌, Some, length};
ghost use Rattle.idx_page.specs.Header.{max_key, page_size, key_length, header_good};
ghost use Rattle.idx_leaf.specs.Leaf.{stored};
ghost use Rattle.idx_supply.specs.Given.{Lasts};
ghost use Rattle.idx_insert_page.specs.Insertion.{split, step, insert_under, at_root, inserted_buffer};
ghost use Rattle.idx_insert_page.specs.Answers.{outcome_of, NextFits};

use idx_entries::Room;
use idx_insert_page::Outcome;
use idx_page::{PageOffset, RecordNumber};
use idx_route::Visit;
use idx_supply::Supply;

// Insertion under a page, with `levels` levels left and new pages from `supply`. One room serves all levels: each is done with it before the next one up
// gathers.
fn insert_under(
    index: &mut [u8],
    key: &[u8],
    number: RecordNumber,
    page: PageOffset,
    levels: u32,
    supply: Supply,
    room: &mut Room,
) -> Option<Outcome>
    requires { (length key.now ≤ max_key) × Lasts levels supply }
    ensures { insert_under (length key.now) levels index.old (stored key.now number.0) page.0 supply
        ≡ step index.new (outcome_of result) }
{
    if levels == 0 {
        return None;
    }
    match idx_route::visit_page(index, key, number, page) {
        Visit::Bad => None,
        Visit::Leaf => idx_insert_page::insert_in_leaf(index, key, number, page, supply, room),
        Visit::Child(i, child) => {
            let below = insert_under(index, key, number, child, levels - 1, supply, room)?;
            idx_insert_page::after_child(index, key, page, i, child, below, room)
        }
    }
}

// Writes a new root over `old`, which was split, and `new`, on a page from `supply`; and the header's root offset and supply.
fn new_root(
    index: &mut [u8],
    key: &[u8],
    old: PageOffset,
    new: PageOffset,
    supply: Supply,
    room: &mut Room,
)
    requires { (length key.now ≤ max_key) × Lasts 1 supply }
    ensures { index.new ≡ at_root (length key.now) index.old key.now old.0 (split new.0 supply) }
{
    let taken = idx_supply::take_page(index, supply);
    let root = taken.page;
    if !idx_page::is_page(index.len(), root) {
        return;
    }
    room.gather_root(index, key, old, new);
    let none = PageOffset(idx_page::NO_PAGE);
    idx_layout::new_page(index, root, 1, none, none, room.entries(key.len(), 2));
    idx_layout::set_root(index, root);
    idx_supply::set_supply(index, taken.rest);
}

// What is done at the root after an insertion under it left `below`.
fn at_root(index: &mut [u8], key: &[u8], root: PageOffset, below: Outcome, room: &mut Room)
    requires { (length key.now ≤ max_key) × (page_size ≤ length index.old) × NextFits below }
    ensures { index.new ≡ at_root (length key.now) index.old key.now root.0 (outcome_of (Some below)) }
{
    match below.new_page {
        None => idx_supply::set_supply(index, below.supply),
        Some(new) => new_root(index, key, root, new, below.supply, room),
    }
}

// Inserts a pair into an index that has room for it.
pub fn insert_pair(index: &mut [u8], key: &[u8], number: RecordNumber)
    requires { (header_good index.old ≡ true) × (length key.now ≡ key_length index.old) }
    ensures { index.new ≡ inserted_buffer (key_length index.old) index.old key.now number.0 }
{
    let root = idx_page::root(index);
    let supply = idx_supply::supply_of(index);
    let mut room = Room::new();
    let left = insert_under(
        index,
        key,
        number,
        root,
        idx_page::MAX_LEVELS,
        supply,
        &mut room,
    );
    if let Some(below) = left {
        at_root(index, key, root, below, &mut room);
    }
}
