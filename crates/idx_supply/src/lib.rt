// The supply of new pages: the free list from its head on, then pages at the file's end.
#![tactic(auto)]

ghost use Rattle.std.specs.Prelude.{◌≡◌, ◌≤◌, length};
ghost use Rattle.idx_page.specs.Header.{page_size};
ghost use Rattle.idx_supply.specs.Supply.{supply_of, take_page, supply_after, with_supply};
ghost use Rattle.idx_supply.specs.Given.{Lasts};

use idx_page::{Page, PageOffset};

// The supply of new pages: the head of the free list, and the file's end, at which the next page begins if none is free.
#[derive(Clone, Copy)]
pub struct Supply {
    pub free: PageOffset,
    pub end: PageOffset,
}

// A new page, and the supply after it was taken.
#[derive(Clone, Copy)]
pub struct Taken {
    pub page: PageOffset,
    pub rest: Supply,
}

// The supply of an index.
#[tactic(auto, unfolding(crate::specs::Supply::supply_of))]
pub fn supply_of(index: &[u8]) -> Supply
    requires { page_size ≤ length index.now }
    ensures { result ≡ supply_of index.now }
{
    Supply {
        free: idx_page::free_pointer(index),
        end: idx_page::file_end(index),
    }
}

// Takes a page from a supply, before the page is written: the head of the free list, or else a page at the file's end. A head that is no page is taken for
// none.
pub fn take_page(index: &[u8], supply: Supply) -> Taken
    requires { Lasts 1 supply }
    ensures { result ≡ take_page index.now supply }
{
    if idx_page::is_page(index.len(), supply.free) {
        let next = Page::at(index, supply.free).right;
        return Taken {
            page: supply.free,
            rest: Supply {
                free: next,
                ..supply
            },
        };
    }
    let beyond = idx_page::next_page(supply.end);
    Taken {
        page: supply.end,
        rest: Supply {
            end: beyond,
            ..supply
        },
    }
}

// The supply after `count` pages were taken from it.
pub fn supply_after(index: &[u8], supply: Supply, count: u32) -> Supply
    requires { Lasts count supply }
    ensures { result ≡ supply_after count index.now supply }
{
    let mut rest = supply;
    for _ in 0..count {
        rest = take_page(index, rest).rest;
    }
    rest
}

// Stores in the header what it keeps of a supply.
pub fn set_supply(index: &mut [u8], supply: Supply)
    requires { page_size ≤ length index.old }
    ensures { index.new ≡ with_supply index.old supply }
{
    idx_layout::set_free(index, supply.free);
    idx_layout::set_file_end(index, supply.end);
}
