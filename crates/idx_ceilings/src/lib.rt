// The audit's second pass, from the leaves up, level by level: it checks the keys above pages, once the links are known to be good and leaf keys to ascend.
// Each is checked against the last leaf key under its child, which is the child's own last key if the level below is exact, and, if it differs, against the
// first under the next child: at most 14 steps down. So each key is checked once, and the work is linear in the file's size on any bytes.
//
// A function of this pass answers `None` if a key is no ceiling, else whether each page met is exact: its own last key is the last leaf key under it.
#![tactic(auto)]

ghost use Rattle.std.specs.Prelude.{◌≡◌, true, cond, ◌+◌, ◌-◌, ◌≤◌, ◌<◌, length};
ghost use Rattle.octets.specs.Store.{window};
ghost use Rattle.idx_page.specs.Header.{max_levels, header_good};
ghost use Rattle.idx_page.specs.Reading.{entries_at};
ghost use Rattle.idx_page.specs.Reading.{entries_from};
ghost use Rattle.idx_page.specs.Children.{first_child};
ghost use Rattle.idx_sound.specs.AuditTest.{max_pages, chain};
ghost use Rattle.idx_sound.specs.AuditTest.{height_of, down, last_child, below_next, upper_entries, upper_pages, upper_levels, keys_above_good};
ghost use Rattle.idx_keys.specs.Places.{EntriesWithin};
ghost use Rattle.idx_ceilings.specs.State.{upper_key};
ghost use Rattle.idx_ceilings.specs.State.{keys_of};

use idx_keys::IndexFile;
use idx_page::{Page, PageOffset};
use std::cmp::Ordering;

// The last child of a page, or the link to no page.
fn last_child(file: &IndexFile, page: PageOffset) -> PageOffset
    ensures { result.0 ≡ last_child file.now.bytes.now file.now.key_length file.now.size page.0 }
{
    let count = file.entry_count(page);
    if count == 0 {
        return PageOffset(idx_page::NO_PAGE);
    }
    idx_page::child(file.bytes, file.key_length, page, count - 1)
}

// The page `under` levels under a page, down by first entries.
fn first_under(file: &IndexFile, under: u32, page: PageOffset) -> PageOffset
    ensures { result.0 ≡ down (first_child file.now.bytes.now file.now.key_length file.now.size) under page.0 }
{
    let mut lower = page;
    for _ in 0..under {
        lower = file.first_child(lower);
    }
    lower
}

// The page `under` levels under a page, down by last entries. One function with the step as a closure would take a longer contract than the two loops.
fn last_under(file: &IndexFile, under: u32, page: PageOffset) -> PageOffset
    ensures { result.0 ≡ down (last_child file.now.bytes.now file.now.key_length file.now.size) under page.0 }
{
    let mut lower = page;
    for _ in 0..under {
        lower = last_child(file, lower);
    }
    lower
}

// Whether the key that begins at `key` is below the first leaf key under the child of entry i, which has `under` levels under it, or equal to it if a key may
// have several records. If the page, of `count` entries, has no entry i, there is no such bound.
fn below_next(
    file: &IndexFile,
    under: u32,
    page: PageOffset,
    count: usize,
    i: usize,
    key: usize,
) -> bool
    requires within { EntriesWithin file.now.bytes.now file.now.key_length page.0 count }
    requires inside { key + file.now.key_length ≤ length file.now.bytes.now }
    ensures { result ≡ below_next file.now.bytes.now file.now.key_length file.now.size under (window file.now.bytes.now key file.now.key_length)
        (entries_from file.now.bytes.now file.now.key_length page.0 (count - i) i) }
{
    if count <= i {
        return true;
    }
    let child = idx_page::child(file.bytes, file.key_length, page, i);
    match file.first_entry(first_under(file, under, child)) {
        None => false,
        Some(first) => match idx_keys::key_order(file.bytes, file.key_length, key, first) {
            Ordering::Less => true,
            Ordering::Equal => idx_page::several(file.bytes),
            Ordering::Greater => false,
        },
    }
}

// The key of entry i, above a child that has `under` levels under it: whether it is a ceiling, at or above the last leaf key under the child, and below the
// first under the next child of the page, of `count` entries; and whether it is exact, the last leaf key itself, which is then below the next child, since leaf
// keys ascend. The last leaf key is the last key of the page that last entries lead to in `down` steps from the child.
fn upper_entry(
    file: &IndexFile,
    down: u32,
    under: u32,
    page: PageOffset,
    count: usize,
    i: usize,
) -> Option<bool>
    requires within { EntriesWithin file.now.bytes.now file.now.key_length page.0 count }
    requires some { i < count }
    ensures { keys_of result ≡ upper_key file.now.bytes.now file.now.key_length file.now.size down under page.0 count i }
{
    let child = idx_page::child(file.bytes, file.key_length, page, i);
    let last = file.last_entry(last_under(file, down, child))?;
    let key = idx_page::entry_offset(file.key_length, page, i);
    match idx_keys::key_order(file.bytes, file.key_length, last, key) {
        Ordering::Less if below_next(file, under, page, count, i + 1, key) => Some(false),
        Ordering::Equal => Some(true),
        _ => None,
    }
}

// The entries of a page above the leaves, up to the first whose key is no ceiling: the page is exact if its last entry is. Its children have `under` levels
// under them.
fn upper_entries(file: &IndexFile, down: u32, under: u32, page: PageOffset) -> Option<bool>
    ensures { keys_of result ≡ upper_entries file.now.bytes.now file.now.key_length file.now.size down under true
        (entries_at file.now.key_length file.now.size file.now.bytes.now page.0) }
{
    let count = file.entry_count(page);
    let mut exact = true;
    for i in 0..count {
        exact = upper_entry(file, down, under, page, count, i)?;
    }
    Some(exact)
}

// The pages of a level above the leaves, from its first page on along the right links: the level is exact if all are. Their children have `under` levels under
// them.
fn upper_pages(file: &IndexFile, down: u32, under: u32, first: PageOffset) -> Option<bool>
    ensures { keys_of result ≡ upper_pages file.now.bytes.now file.now.key_length file.now.size down under true
        (chain file.now.bytes.now file.now.size max_pages first.0) }
{
    let mut exact = true;
    let mut page = first;
    for _ in 0..idx_page::MAX_PAGES {
        if !file.is_page(page) {
            return Some(exact);
        }
        exact &= upper_entries(file, down, under, page)?;
        page = Page::at(file.bytes, page).right;
    }
    Some(exact)
}

// How many steps down the last leaf key under a child is looked for, which has `under` levels under it: none if its level is exact.
fn steps(exact: bool, under: u32) -> u32
    ensures { result ≡ cond exact 0 under }
{
    if exact { 0 } else { under }
}

// The keys above pages of the level whose first page is `first` and of the levels under it, of which there are `height`, from the leaves up.
fn upper_levels(file: &IndexFile, height: u32, first: PageOffset) -> Option<bool>
    ensures { keys_of result ≡ upper_levels file.now.bytes.now file.now.key_length file.now.size height first.0 }
{
    if height == 0 {
        return Some(true);
    }
    let under = height - 1;
    let exact = upper_levels(file, under, file.first_child(first))?;
    upper_pages(file, steps(exact, under), under, first)
}

// The number of levels under the root, 14 at most, which the first children show.
fn height_of(file: &IndexFile, root: PageOffset) -> u32
    ensures { result ≡ height_of file.now.bytes.now file.now.key_length file.now.size (max_levels - 1) root.0 }
{
    let mut page = root;
    for height in 0..idx_page::MAX_LEVELS - 1 {
        if file.leaf_at(page) {
            return height;
        }
        page = file.first_child(page);
    }
    idx_page::MAX_LEVELS - 1
}

// Whether the keys above pages are good in an index with a good header.
pub fn keys_above_good(index: &[u8]) -> bool
    requires { header_good index.now ≡ true }
    ensures { result ≡ keys_above_good index.now }
{
    let file = IndexFile::new(index);
    let root = file.root();
    upper_levels(&file, height_of(&file, root), root).is_some()
}
