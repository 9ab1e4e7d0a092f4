// A page that leaves the tree: unlinked from its neighbours and put at the head of the free list; and a page without entries.
#![tactic(auto)]

ghost use Rattle.std.specs.Prelude.{◌≡◌, [], ◌+◌, ◌≤◌, length};
ghost use Rattle.idx_page.specs.Header.{page_size};
ghost use Rattle.idx_layout.specs.Layout.{new_page, link_before, unlinked, freed};

use idx_layout::Entries;
use idx_page::{Page, PageOffset};

// Writes a whole page without entries: the numbers of its head but the count, which is 0, and zeros.
pub fn empty_page(
    index: &mut [u8],
    page: PageOffset,
    attribute: u32,
    left: PageOffset,
    right: PageOffset,
)
    requires { page.0 + page_size ≤ length index.old }
    ensures { index.new ≡ new_page index.old page.0 attribute left.0 right.0 [] }
{
    idx_layout::new_page(index, page, attribute, left, right, Entries::none());
}

// The page at `before`, if it is a page, gets the right neighbour `new`.
fn link_before(index: &mut [u8], before: PageOffset, new: PageOffset)
    ensures { index.new ≡ link_before index.old before.0 new.0 }
{
    if idx_page::is_page(index.len(), before) {
        idx_layout::link_right(index, before, new);
    }
}

// Unlinks a page from its neighbours, which become neighbours of each other.
pub fn unlink_page(index: &mut [u8], page: PageOffset)
    requires { page.0 + page_size ≤ length index.old }
    ensures { index.new ≡ unlinked index.old page.0 }
{
    let Page { left, right, .. } = Page::at(index, page);
    idx_layout::link_beyond(index, right, left);
    link_before(index, left, right);
}

// Puts a page at the head of the free list: it names the old head as the next, and the header names it.
pub fn free_page(index: &mut [u8], page: PageOffset)
    requires { page.0 + page_size ≤ length index.old }
    ensures { index.new ≡ freed index.old page.0 }
{
    let next = idx_page::free_pointer(index);
    empty_page(index, page, 0, PageOffset(0), next);
    idx_layout::set_free(index, page);
}
