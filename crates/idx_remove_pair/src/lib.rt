// Removal of a pair from an index that has it: down to the leaf and page by page up again, then the root.
#![tactic(auto)]

ghost use Rattle.std.specs.Prelude.{◌≡◌, true, ◌≤◌, Some, length};
ghost use Rattle.idx_page.specs.Header.{max_key, key_length, header_good};
ghost use Rattle.idx_leaf.specs.Leaf.{stored};
ghost use Rattle.idx_remove_page.specs.Removal.{step, remove_under, at_root, removed_buffer};
ghost use Rattle.idx_remove_page.specs.Answers.{outcome_of, EmptiedPage};

use idx_entries::Room;
use idx_page::{PageOffset, RecordNumber};
use idx_remove_page::Outcome;
use idx_route::Visit;

// Removal under a page, with `levels` levels left. One room serves all levels: each is done with it before the next one up gathers.
fn remove_under(
    index: &mut [u8],
    key: &[u8],
    number: RecordNumber,
    page: PageOffset,
    levels: u32,
    room: &mut Room,
) -> Option<Outcome>
    requires { length key.now ≤ max_key }
    ensures { remove_under (length key.now) levels index.old (stored key.now number.0) page.0
        ≡ step index.new (outcome_of result) }
{
    if levels == 0 {
        return None;
    }
    match idx_route::visit_page(index, key, number, page) {
        Visit::Bad => None,
        Visit::Leaf => idx_remove_page::remove_in_leaf(index, key, number, page, room),
        Visit::Child(i, child) => {
            let below = remove_under(index, key, number, child, levels - 1, room)?;
            idx_remove_page::after_child(index, key.len(), page, i, child, below, room)
        }
    }
}

// What is done at the root after a removal under it left `below`.
fn at_root(index: &mut [u8], root: PageOffset, below: Outcome)
    requires { EmptiedPage (length index.old) root.0 below }
    ensures { index.new ≡ at_root index.old root.0 (outcome_of (Some below)) }
{
    match below {
        Outcome::Kept => {}
        Outcome::Emptied => {
            let none = PageOffset(idx_page::NO_PAGE);
            idx_free::empty_page(index, root, 3, none, none);
        }
    }
}

// Removes `key` with its record number from an index that has it.
pub fn remove_pair(index: &mut [u8], key: &[u8], number: RecordNumber)
    requires { (header_good index.old ≡ true) × (length key.now ≡ key_length index.old) }
    ensures { index.new ≡ removed_buffer (key_length index.old) index.old key.now number.0 }
{
    let root = idx_page::root(index);
    let mut room = Room::new();
    let left = remove_under(index, key, number, root, idx_page::MAX_LEVELS, &mut room);
    if let Some(below) = left {
        at_root(index, root, below);
    }
}
