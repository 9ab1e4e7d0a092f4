// The way of a key through the pages above the leaves: what it meets at a page, the entry that it goes under, and that entry's child.
#![tactic(auto)]

ghost use Rattle.std.specs.Prelude.{◌≡◌, true, ◌+◌, ◌≤◌, ◌<◌, length};
ghost use Rattle.octets.specs.Order.{bytes_le};
ghost use Rattle.tree.specs.Position.{position};
ghost use Rattle.idx_page.specs.Header.{max_key, max_levels, is_page};
ghost use Rattle.idx_page.specs.Page.{key_at};
ghost use Rattle.idx_page.specs.Within.{Within};
ghost use Rattle.idx_leaf.specs.Leaf.{items_in, stored};
ghost use Rattle.idx_route.specs.Route.{first_up_to, chosen_at, child_of};
ghost use Rattle.idx_leaf.specs.Given.{Listed};
ghost use Rattle.idx_leaf.specs.EntryLaws.{item_at};
ghost use Rattle.idx_route.specs.Visits.{visit_of};

use idx_page::{Page, PageOffset, RecordNumber};

// What the way of a key meets at an offset: no page, a leaf, or a page above it: the number of the entry that the key goes under, and its child.
#[derive(Clone, Copy)]
pub enum Visit {
    Bad,
    Leaf,
    Child(usize, PageOffset),
}

// Whether the key of entry `i` is at or below `key`.
fn key_up_to(index: &[u8], key: &[u8], page: PageOffset, i: usize) -> bool
    requires { Within index.now (length key.now) page.0 (i + 1) }
    ensures { result ≡ bytes_le (key_at index.now (length key.now) page.0 i) key.now }
{
    idx_page::compare_entry(index, page, i, key).is_le()
}

// Whether the first leaf pair under entry `i` is at or below `key` with its record number: down by first entries.
fn first_up_to(index: &[u8], key: &[u8], number: RecordNumber, page: PageOffset, i: usize) -> bool
    requires { Within index.now (length key.now) page.0 (i + 1) }
    ensures { result ≡ first_up_to max_levels index.now (stored key.now number.0)
        (item_at (length key.now) index.now page.0 i) }
{
    let mut above = page;
    let mut at = i;
    for _ in 0..idx_page::MAX_LEVELS {
        let child = idx_page::child(index, key.len(), above, at);
        if idx_leaf::entry_count(index, key.len(), child) == 0 {
            return key_up_to(index, key, above, at);
        }
        let head = Page::at(index, child);
        if idx_page::is_leaf(head.attribute) {
            return idx_leaf::compare_pair(index, key, number, child, 0).is_le();
        }
        above = child;
        at = 0;
    }
    key_up_to(index, key, above, at)
}

// The number of the entry of a page above the leaves that a pair goes under if a key may have several records: it goes on to the next entry as long as the
// first leaf pair under that one is at or below it.
fn chosen_record(
    index: &[u8],
    key: &[u8],
    number: RecordNumber,
    page: PageOffset,
    count: usize,
) -> usize
    requires { Listed index.now (length key.now) page.0 count × (0 < count) }
    ensures { result ≡ position (λ x y. first_up_to max_levels index.now (stored key.now number.0) y)
        (items_in (length key.now) index.now page.0) }
{
    for i in 0..count - 1 {
        if !first_up_to(index, key, number, page, i + 1) {
            return i;
        }
    }
    count - 1
}

// The number of the entry of a page above the leaves that `key` with its record number goes under; 0 if the page has no entries. If keys are distinct, the
// first at or above `key`, else the last.
pub fn chosen_entry(index: &[u8], key: &[u8], number: RecordNumber, page: PageOffset) -> usize
    requires { (length key.now ≤ max_key) × (is_page (length index.now) page.0 ≡ true) }
    ensures { result ≡ chosen_at index.now (stored key.now number.0)
        (items_in (length key.now) index.now page.0) }
{
    let count = idx_leaf::entry_count(index, key.len(), page);
    if count == 0 {
        return 0;
    }
    if idx_page::several(index) {
        return chosen_record(index, key, number, page, count);
    }
    idx_page::first_at_or_above(index, page, count, key).min(count - 1)
}

// The child of entry `i`; 0, which is no page's offset, if the page has no such entry.
pub fn child_of(index: &[u8], k: usize, page: PageOffset, i: usize) -> PageOffset
    requires { k ≤ max_key }
    ensures { result.0 ≡ child_of i (items_in k index.now page.0) }
{
    if idx_leaf::entry_count(index, k, page) <= i {
        return PageOffset(0);
    }
    idx_page::child(index, k, page, i)
}

// What the way of `key` with its record number meets at an offset.
pub fn visit_page(index: &[u8], key: &[u8], number: RecordNumber, page: PageOffset) -> Visit
    requires { length key.now ≤ max_key }
    ensures { result ≡ visit_of index.now (stored key.now number.0) page.0 }
{
    if !idx_page::is_page(index.len(), page) {
        return Visit::Bad;
    }
    let head = Page::at(index, page);
    if idx_page::is_leaf(head.attribute) {
        return Visit::Leaf;
    }
    let i = chosen_entry(index, key, number, page);
    Visit::Child(i, child_of(index, key.len(), page, i))
}
