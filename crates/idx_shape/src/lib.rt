// The audit's first pass, from the root down, level by level: it checks each page against its left neighbour. The pages of a level are the children of the
// level above, whose pages name one another by the right links that were checked there; the pages that are left after the leaves are the free list. The
// children of each page are counted before they are looked at: more pages than the file has are refused. No page can be met twice, so that every page was met
// if as many were as the file has. So nothing is copied or kept, each page is checked once, and the work is linear in the file's size on any bytes.
//
// A function of this pass answers `None` if a page is not good, or too few are left.
#![tactic(auto)]

ghost use Rattle.std.specs.Prelude.{◌≡◌, true, ◌+◌, ◌-◌, ◌≤◌, ◌<◌, length};
ghost use Rattle.idx_page.specs.Header.{min_bytes, max_levels, header_good};
ghost use Rattle.idx_page.specs.Reading.{entries_at};
ghost use Rattle.idx_page.specs.Children.{children_of};
ghost use Rattle.idx_sound.specs.AuditTest.{later_pages, entries_fit, page_fits, attribute_of, closed};
ghost use Rattle.idx_sound.specs.AuditTest.{counted, check_page, check_pages, check_rows, rows_under, root_level, next_level, levels_under};
ghost use Rattle.idx_sound.specs.AuditTest.{shape_good};
ghost use Rattle.idx_shape.specs.State.{progress_of, known, start_at};

use idx_keys::IndexFile;
use idx_page::{Page, PageOffset};

// What is known of the pages met on a level: the last page met, the page that its right link names, and how many pages of the file are left that were not met.
#[derive(Clone, Copy)]
struct Progress {
    last: PageOffset,
    next: PageOffset,
    left: usize,
}

// What is known of a level: whether its pages are leaves, its first page, and how many pages of the file are left after it.
#[derive(Clone, Copy)]
struct Level {
    leaf: bool,
    first: PageOffset,
    left: usize,
}

impl Progress {
    // The start of a level, whose first page has to be `first`, with `left` pages left.
    fn start(first: PageOffset, left: usize) -> Progress
        ensures { result ≡ start_at first left }
    {
        Progress {
            last: PageOffset(idx_page::NO_PAGE),
            next: first,
            left,
        }
    }

    // Counts n pages more, if as many are left. A page is not counted when it is met but with its neighbours: the loop over the entries of leaves has no
    // register to spare for the count.
    #[tactic(auto, unfolding(idx_sound::specs::AuditTest::counted))]
    fn counted(self, n: usize) -> Option<Progress>
        ensures { counted n (progress_of (Some self)) ≡ progress_of result }
    {
        let left = self.left.checked_sub(n)?;
        Some(Progress { left, ..self })
    }

    // A level at its end: no page is on the right of its last page.
    fn closed(self, leaf: bool, first: PageOffset) -> Option<Level>
        ensures { result ≡ known (closed leaf first.0 (progress_of (Some self))) }
    {
        if self.next.0 != idx_page::NO_PAGE {
            return None;
        }
        Some(Level {
            leaf,
            first,
            left: self.left,
        })
    }
}

// Whether the entries of a page, of which there are `count`, are good if it is a leaf, which the attribute tells, with `last` on its left.
fn entries_fit(
    file: &IndexFile,
    attribute: u32,
    last: PageOffset,
    page: PageOffset,
    count: usize,
) -> bool
    requires { count ≡ length (entries_at file.now.key_length file.now.size file.now.bytes.now page.0) }
    ensures { result ≡ entries_fit file.now.bytes.now file.now.key_length file.now.size attribute last.0 page.0 }
{
    !idx_page::is_leaf(attribute)
        || idx_leaves::leaf_entries(file, page, count, file.last_entry(last))
}

// Whether a page has the attribute, a good count, links that agree with those of the page on its left, the last that was met, and good entries.
fn page_fits(file: &IndexFile, attribute: u32, page: PageOffset, met: Progress) -> bool
    ensures { result ≡ page_fits file.now.bytes.now file.now.key_length file.now.size attribute page.0 met.last.0 met.next.0 }
{
    if !file.is_page(page) {
        return false;
    }
    let head = Page::at(file.bytes, page);

    // The tests of the head are joined without a branch.
    if !((head.attribute == attribute)
        & (idx_page::count_good(file.key_length, attribute, head.count)
            & ((head.left.0 == met.last.0) & (met.next.0 == page.0))))
    {
        return false;
    }
    entries_fit(file, attribute, met.last, page, head.count as usize)
}

// Checks one page: if it fits, it is the last page met.
fn check_page(file: &IndexFile, attribute: u32, page: PageOffset, met: Progress) -> Option<Progress>
    ensures { check_page file.now.bytes.now file.now.key_length file.now.size attribute page.0 (progress_of (Some met)) ≡ progress_of result }
{
    if !page_fits(file, attribute, page, met) {
        return None;
    }
    Some(Progress {
        last: page,
        next: Page::at(file.bytes, page).right,
        left: met.left,
    })
}

// Checks the children of a page, of which there are `count`, one after another.
fn check_children(
    file: &IndexFile,
    attribute: u32,
    parent: PageOffset,
    count: usize,
    start: Progress,
) -> Option<Progress>
    requires { count ≡ length (entries_at file.now.key_length file.now.size file.now.bytes.now parent.0) }
    ensures { check_pages file.now.bytes.now file.now.key_length file.now.size attribute
        (children_of file.now.bytes.now file.now.key_length file.now.size parent.0) (progress_of (Some start)) ≡ progress_of result }
{
    let mut met = start;
    for entry in 0..count {
        let child = idx_page::child(file.bytes, file.key_length, parent, entry);
        met = check_page(file, attribute, child, met)?;
    }
    Some(met)
}

// Checks the children of the pages of a level, from its first page on along the right links.
fn check_level(
    file: &IndexFile,
    attribute: u32,
    first: PageOffset,
    start: Progress,
) -> Option<Progress>
    ensures { check_rows file.now.bytes.now file.now.key_length file.now.size attribute
        (rows_under file.now.bytes.now file.now.key_length file.now.size first.0) (progress_of (Some start)) ≡ progress_of result }
{
    let mut met = start;
    let mut parent = first;
    for _ in 0..idx_page::MAX_PAGES {
        if !file.is_page(parent) {
            return Some(met);
        }
        let count = file.entry_count(parent);
        let counted = met.counted(count)?;
        met = check_children(file, attribute, parent, count, counted)?;
        parent = Page::at(file.bytes, parent).right;
    }
    Some(met)
}

// The attribute of the pages of a level.
fn attribute_of(root: bool, leaf: bool) -> u32
    ensures { result ≡ attribute_of root leaf }
{
    match (root, leaf) {
        (true, true) => 3,
        (true, false) => 1,
        (false, true) => 2,
        (false, false) => 0,
    }
}

// Checks the level of the root, with `left` pages left.
fn root_level(file: &IndexFile, root: PageOffset, left: usize) -> Option<Level>
    requires { 0 < left }
    ensures { result ≡ known (root_level file.now.bytes.now file.now.key_length file.now.size root.0 left) }
{
    let leaf = file.leaf_at(root);
    let start = Progress::start(root, left - 1);
    let met = check_page(file, attribute_of(true, leaf), root, start)?;
    met.closed(leaf, root)
}

// Checks the level under the level whose first page is `above`, with `left` pages left.
fn next_level(file: &IndexFile, above: PageOffset, left: usize) -> Option<Level>
    ensures { result ≡ known (next_level file.now.bytes.now file.now.key_length file.now.size above.0 left) }
{
    let first = file.first_child(above);
    let leaf = file.leaf_at(first);
    let start = Progress::start(first, left);
    let met = check_level(file, attribute_of(false, leaf), above, start)?;
    met.closed(leaf, first)
}

// Checks the levels from the root down to the leaves, or to the 15th, with `pages` pages left. The level under the root is checked ahead of the loop:
// `next_level` has two callers so, and is compiled as a function of its own, whose loop over the entries of leaves has its registers.
fn levels(file: &IndexFile, root: PageOffset, pages: usize) -> Option<Level>
    requires { 0 < pages }
    ensures { result ≡ known (levels_under file.now.bytes.now file.now.key_length file.now.size (max_levels - 1)
        (root_level file.now.bytes.now file.now.key_length file.now.size root.0 pages)) }
{
    let top = root_level(file, root, pages)?;
    if top.leaf {
        return Some(top);
    }
    let mut level = next_level(file, top.first, top.left)?;
    for _ in 0..idx_page::MAX_LEVELS - 2 {
        if level.leaf {
            return Some(level);
        }
        level = next_level(file, level.first, level.left)?;
    }
    Some(level)
}

// How many pages a file has but for the first.
fn later_pages(size: usize) -> usize
    requires { min_bytes ≤ size }
    ensures { result ≡ later_pages size }
{
    size / Page::SIZE - 1
}

// Whether all but the keys above pages is good in an index with a good header.
pub fn shape_good(index: &[u8]) -> bool
    requires { header_good index.now ≡ true }
    ensures { result ≡ shape_good index.now }
{
    let file = IndexFile::new(index);
    let Some(level) = levels(&file, file.root(), later_pages(file.size)) else {
        return false;
    };
    level.leaf && idx_free_list::free_list(&file, level.left, idx_page::free_pointer(index))
}
