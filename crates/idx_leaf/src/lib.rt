// A pair among the entries of a leaf: its place, the entry that it leads to, and whether the leaf has it.
#![tactic(auto)]

ghost use Rattle.std.specs.Prelude.{◌≡◌, true, ◌+◌, ◌≤◌, length};
ghost use Rattle.std.specs.Ordering.{is_le, is_ge};
ghost use Rattle.tree.specs.Pairs.{present};
ghost use Rattle.idx_page.specs.Header.{max_key, features, is_page};
ghost use Rattle.idx_page.specs.Within.{Within};
ghost use Rattle.idx_page.specs.EntryOrder.{item_order};
ghost use Rattle.idx_leaf.specs.Leaf.{items_in, stored, place_in};
ghost use Rattle.idx_leaf.specs.Given.{Listed};
ghost use Rattle.idx_leaf.specs.EntryLaws.{item_at, passed_count};

use idx_page::{PageOffset, RecordNumber};
use std::cmp::Ordering;

// How many entries a page has, in a file as long as the buffer.
pub fn entry_count(index: &[u8], k: usize, page: PageOffset) -> usize
    requires { k ≤ max_key }
    ensures { result ≡ length (items_in k index.now page.0) }
{
    idx_page::entry_count(index, k, index.len(), page)
}

// The order of entry `i` to `key` with its record number: by key, then record number.
pub fn compare_pair(
    index: &[u8],
    key: &[u8],
    number: RecordNumber,
    page: PageOffset,
    i: usize,
) -> Ordering
    requires { Within index.now (length key.now) page.0 (i + 1) }
    ensures above { is_ge result ≡ item_order 0 (stored key.now number.0) (item_at (length key.now) index.now page.0 i) }
    ensures up_to { is_le result ≡ item_order 0 (item_at (length key.now) index.now page.0 i) (stored key.now number.0) }
{
    let other = idx_page::record_number(index, key.len(), page, i);
    idx_page::compare_entry(index, page, i, key).then(other.cmp(&number))
}

// How many entries of a leaf are below `key` with its record number, if a key may have several records.
fn pairs_below(
    index: &[u8],
    key: &[u8],
    number: RecordNumber,
    page: PageOffset,
    count: usize,
) -> usize
    requires { Listed index.now (length key.now) page.0 count }
    ensures { result ≡ passed_count (item_order 0) (stored key.now number.0)
        (items_in (length key.now) index.now page.0) }
{
    for i in 0..count {
        if compare_pair(index, key, number, page, i).is_ge() {
            return i;
        }
    }
    count
}

// How many entries of a leaf are below `key` with its record number, before the first at or above it. If keys are distinct, by the keys alone.
pub fn place(
    index: &[u8],
    key: &[u8],
    number: RecordNumber,
    page: PageOffset,
    count: usize,
) -> usize
    requires { Listed index.now (length key.now) page.0 count }
    ensures { result ≡ passed_count (item_order (features index.now)) (stored key.now number.0)
        (items_in (length key.now) index.now page.0) }
{
    if idx_page::several(index) {
        return pairs_below(index, key, number, page, count);
    }
    idx_page::first_at_or_above(index, page, count, key)
}

// The number of the entry of a leaf that `key` with its record number leads to: the first at or above it, else the last; 0 if the leaf has no entries.
pub fn leaf_entry(index: &[u8], key: &[u8], number: RecordNumber, page: PageOffset) -> usize
    requires { (length key.now ≤ max_key) × (is_page (length index.now) page.0 ≡ true) }
    ensures { result ≡ place_in index.now (stored key.now number.0)
        (items_in (length key.now) index.now page.0) }
{
    let count = entry_count(index, key.len(), page);
    if count == 0 {
        return 0;
    }
    place(index, key, number, page, count).min(count - 1)
}

// Whether a leaf has `key`, or, if a key may have several records, `key` with its record number: the first entry at or above it is an equal one.
pub fn is_present(index: &[u8], key: &[u8], number: RecordNumber, page: PageOffset) -> bool
    requires { (length key.now ≤ max_key) × (is_page (length index.now) page.0 ≡ true) }
    ensures { result ≡ present (item_order (features index.now)) (stored key.now number.0)
        (items_in (length key.now) index.now page.0) }
{
    let count = entry_count(index, key.len(), page);
    let i = place(index, key, number, page, count);
    if i == count {
        return false;
    }
    if idx_page::several(index) {
        return compare_pair(index, key, number, page, i).is_le();
    }
    idx_page::compare_entry(index, page, i, key).is_eq()
}
