// The path of a key from the root to its leaf: whether the leaf has the key (29, 33), and whether there is room for one more (30).
#![tactic(auto)]

ghost use Rattle.std.specs.Prelude.{◌≡◌, true, ◌≤◌, length, leb};
ghost use Rattle.idx_page.specs.Header.{max_levels, max_key, key_length, header_good};
ghost use Rattle.idx_page.specs.Page.{capacity};
ghost use Rattle.idx_leaf.specs.Leaf.{items_in, stored};
ghost use Rattle.idx_path.specs.Room.{on_top, path_from, path_to, root_split, no_room};
ghost use Rattle.idx_path.specs.Presence.{there_from, is_there};

use idx_page::{Page, PageOffset, RecordNumber};
use idx_route::Visit;

// The path from a page down to the leaf that a key leads to: how many levels it has, how many full pages in an unbroken run from the leaf up, and whether the
// leaf has the key.
#[derive(Clone, Copy)]
pub struct Path {
    pub levels: u32,
    pub run: u32,
    pub present: bool,
}

// Whether a page has as many entries as it holds.
fn is_full(index: &[u8], k: usize, page: PageOffset) -> bool
    requires { k ≤ max_key }
    ensures { result ≡ leb (capacity k) (length (items_in k index.now page.0)) }
{
    Page::capacity(k) <= idx_leaf::entry_count(index, k, page)
}

// A path with one page more on top, which is full or not.
fn on_top(full: bool, path: Path) -> Path
    requires { path.levels ≤ max_levels }
    ensures { result ≡ on_top full path }
{
    let run = if full && path.run == path.levels {
        path.run + 1
    } else {
        path.run
    };
    Path {
        levels: path.levels + 1,
        run,
        ..path
    }
}

// A path without pages, to a leaf that has the key or does not.
fn empty_path(present: bool) -> Path
    ensures { result ≡ record { levels = 0; run = 0; present = present } }
{
    Path {
        levels: 0,
        run: 0,
        present,
    }
}

// The path of `key` with its record number from a page on, with `levels` levels left.
fn path_from(index: &[u8], key: &[u8], number: RecordNumber, page: PageOffset, levels: u32) -> Path
    requires { (length key.now ≤ max_key) × (levels ≤ max_levels) }
    ensures { result ≡ path_from (length key.now) levels index.now (stored key.now number.0) page.0 }
{
    if levels == 0 {
        return empty_path(false);
    }
    let full = is_full(index, key.len(), page);
    match idx_route::visit_page(index, key, number, page) {
        Visit::Bad => empty_path(false),
        Visit::Leaf => on_top(
            full,
            empty_path(idx_leaf::is_present(index, key, number, page)),
        ),
        Visit::Child(_, child) => { on_top(full, path_from(index, key, number, child, levels - 1)) }
    }
}

// The path of `key` with its record number from the root on.
pub fn path_to(index: &[u8], key: &[u8], number: RecordNumber) -> Path
    requires { (header_good index.now ≡ true) × (length key.now ≡ key_length index.now) }
    ensures { result ≡ path_to (key_length index.now) index.now key.now number.0 }
{
    path_from(
        index,
        key,
        number,
        idx_page::root(index),
        idx_page::MAX_LEVELS,
    )
}

// How many roots an insertion splits: 1 if the run of full pages has the root, else 0.
fn root_split(path: Path) -> u32
    ensures { result ≡ root_split path }
{
    u32::from(path.run == path.levels)
}

// Whether there is no room for an insertion by a path.
pub fn no_room(index: &[u8], path: Path) -> bool
    requires { (header_good index.now ≡ true) × (path.levels ≤ max_levels) × (path.run ≤ path.levels) }
    ensures { result ≡ no_room index.now path }
{
    let more = root_split(path);
    let supply = idx_supply::supply_of(index);
    let after = idx_supply::supply_after(index, supply, path.run + more);
    let size = after.end.0 as usize;
    // `|`: the law `room-told` speaks of the three tests as one value, and the goals of the branches that `||` makes stay open
    (index.len() < size)
        | ((idx_page::MAX_BYTES < size) | (idx_page::MAX_LEVELS < path.levels + more))
}

// Whether the leaf that `key` with its record number leads to from a page, with `levels` levels left, has it.
fn there_from(index: &[u8], key: &[u8], number: RecordNumber, page: PageOffset, levels: u32) -> bool
    requires { length key.now ≤ max_key }
    ensures { result ≡ there_from (length key.now) levels index.now (stored key.now number.0) page.0 }
{
    if levels == 0 {
        return false;
    }
    match idx_route::visit_page(index, key, number, page) {
        Visit::Bad => false,
        Visit::Leaf => idx_leaf::is_present(index, key, number, page),
        Visit::Child(_, child) => there_from(index, key, number, child, levels - 1),
    }
}

// Whether an index has `key` with its record number, or, if keys are distinct, `key`.
pub fn is_there(index: &[u8], key: &[u8], number: RecordNumber) -> bool
    requires { (header_good index.now ≡ true) × (length key.now ≡ key_length index.now) }
    ensures { result ≡ is_there (key_length index.now) index.now key.now number.0 }
{
    there_from(
        index,
        key,
        number,
        idx_page::root(index),
        idx_page::MAX_LEVELS,
    )
}
