// The free list: so many pages, each zero but for its right link, which names the next. The end of the audit's first pass.
#![tactic(auto)]

ghost use Rattle.std.specs.Prelude.{◌≡◌, ◌+◌, ◌-◌, ◌≤◌, ◌<◌, length};
ghost use Rattle.octets.specs.Store.{window};
ghost use Rattle.octets.specs.Order.{ordering, is_equal};
ghost use Rattle.idx_page.specs.Header.{page_size};
ghost use Rattle.idx_page.specs.Page.{entry_area};
ghost use Rattle.idx_sound.specs.Sound.{zeros};
ghost use Rattle.idx_sound.specs.AuditTest.{is_free_page, free_fits, check_free};

use idx_keys::IndexFile;
use idx_page::{Page, PageOffset};

// Whether `n` bytes of the index from `at` on are zero.
fn is_zero(index: &[u8], at: usize, n: usize) -> bool
    requires { (at + n ≤ length index.now) × (n ≤ entry_area) }
    ensures { result ≡ is_equal (ordering (window index.now at n) (zeros n)) }
{
    let blank = [0u8; Page::ENTRY_AREA];
    octets::compare(&index[at..at + n], &blank[..n]).is_eq()
}

// Whether a page is zero but for its right link.
#[tactic(auto, unfolding(idx_sound::specs::AuditTest::is_free_page))]
fn is_free_page(index: &[u8], page: PageOffset) -> bool
    requires { page.0 + page_size ≤ length index.now }
    ensures { result ≡ is_free_page index.now page.0 }
{
    let at = page.0 as usize;
    is_zero(index, at, Page::RIGHT_PLACE)
        && is_zero(index, at + Page::ENTRIES_START, Page::ENTRY_AREA)
}

// Whether a page is a free page of the file.
#[tactic(auto, unfolding(idx_sound::specs::AuditTest::free_fits))]
fn free_fits(file: &IndexFile, page: PageOffset) -> bool
    ensures { result ≡ free_fits file.now.bytes.now file.now.size page.0 }
{
    file.is_page(page) && is_free_page(file.bytes, page)
}

// Whether the free list has `count` pages from its first page on, and all are good.
pub fn free_list(file: &IndexFile, count: usize, first: PageOffset) -> bool
    ensures { result ≡ check_free file.now.bytes.now file.now.size count first.0 }
{
    let mut page = first;
    for _ in 0..count {
        if !free_fits(file, page) {
            return false;
        }
        page = Page::at(file.bytes, page).right;
    }
    page.0 == idx_page::NO_PAGE
}
