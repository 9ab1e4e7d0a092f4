// Writes the header and pages: their numbers, a page's entries, a new page, and a page that is split.
#![tactic(auto)]

ghost use Rattle.std.specs.Prelude.{◌≡◌, true, ◌+◌, ◌-◌, ◌*◌, ◌≤◌, length, take, drop};
ghost use Rattle.octets.specs.Store.{put};
ghost use Rattle.idx_page.specs.Within.{Within};
ghost use Rattle.idx_page.specs.Header.{max_key, max_features, page_size, expression_place, features, is_page};
ghost use Rattle.idx_page.specs.Reading.{items};
ghost use Rattle.idx_layout.specs.Layout.{with_attribute, with_count, with_left, with_right, with_root, with_free, with_size, header_bytes};
ghost use Rattle.idx_layout.specs.Layout.{with_entries, new_page, link_beyond, split_page};
ghost use Rattle.idx_layout.specs.Given.{Over};

use idx_page::{Page, PageOffset};

// Entries for a page as bytes, one after another: `count` of them, each with a key of `k` bytes.
#[derive(Clone, Copy)]
pub struct Entries<'a> {
    pub k: usize,
    pub count: usize,
    pub bytes: &'a [u8],
    pub ghost whole: { length bytes.now ≡ count * (k + 4) },
}

impl<'a> Entries<'a> {
    // No entries.
    pub fn none() -> Self
        ensures { (result.k ≡ 0) × (result.count ≡ 0) }
    {
        Entries {
            k: 0,
            count: 0,
            bytes: &[],
        }
    }

    // The first `n` entries, and the rest.
    fn split_at(self, n: usize) -> (Self, Self)
        requires { (self.k ≤ max_key) × (n ≤ self.count) }
        ensures keys { (result.0.k ≡ self.entry.k) × (result.1.k ≡ self.entry.k) }
        ensures counts { (result.0.count ≡ n) × (result.1.count ≡ self.entry.count - n) }
        ensures first { items self.entry.k n result.0.bytes.now ≡ take n (items self.entry.k self.entry.count self.entry.bytes.now) }
        ensures rest { items self.entry.k (self.entry.count - n) result.1.bytes.now ≡ drop n (items self.entry.k self.entry.count self.entry.bytes.now) }
    {
        let (first, rest) = self.bytes.split_at(n * (self.k + 4));
        (
            Entries {
                k: self.k,
                count: n,
                bytes: first,
            },
            Entries {
                k: self.k,
                count: self.count - n,
                bytes: rest,
            },
        )
    }
}

// ---- One number of a page or of the header. What these share is `octets`' store; a place and a width is all that they add.

// Gives a page the attribute `attribute`.
fn set_attribute(index: &mut [u8], page: PageOffset, attribute: u32)
    requires { page.0 + page_size ≤ length index.old }
    ensures { index.new ≡ with_attribute index.old page.0 attribute }
{
    octets::store_le16(index, page.0 as usize, attribute);
}

// Gives a page the count `count`.
fn set_count(index: &mut [u8], page: PageOffset, count: u32)
    requires { page.0 + page_size ≤ length index.old }
    ensures { index.new ≡ with_count index.old page.0 count }
{
    octets::store_le16(index, page.0 as usize + Page::COUNT_PLACE, count);
}

// Gives a page the left neighbour `left`.
fn link_left(index: &mut [u8], page: PageOffset, left: PageOffset)
    requires { page.0 + page_size ≤ length index.old }
    ensures { index.new ≡ with_left index.old page.0 left.0 }
{
    octets::store_le32(index, page.0 as usize + Page::LEFT_PLACE, left.0);
}

// Gives a page the right neighbour `right`.
pub fn link_right(index: &mut [u8], page: PageOffset, right: PageOffset)
    requires { page.0 + page_size ≤ length index.old }
    ensures { index.new ≡ with_right index.old page.0 right.0 }
{
    octets::store_le32(index, page.0 as usize + Page::RIGHT_PLACE, right.0);
}

// Gives the header the root offset `root`.
pub fn set_root(index: &mut [u8], root: PageOffset)
    requires { page_size ≤ length index.old }
    ensures { index.new ≡ with_root index.old root.0 }
{
    octets::store_le32(index, idx_page::ROOT_PLACE, root.0);
}

// Gives the header the free pointer `free`.
pub fn set_free(index: &mut [u8], free: PageOffset)
    requires { page_size ≤ length index.old }
    ensures { index.new ≡ with_free index.old free.0 }
{
    octets::store_le32(index, idx_page::FREE_PLACE, free.0);
}

// Gives the header the size of a file that ends at `end`.
pub fn set_file_end(index: &mut [u8], end: PageOffset)
    requires { page_size ≤ length index.old }
    ensures { index.new ≡ with_size index.old end.0 }
{
    octets::store_le32(index, idx_page::SIZE_PLACE, end.0);
}

// Writes the whole header, with zeros after the key expression.
pub fn new_header(
    index: &mut [u8],
    root: PageOffset,
    end: PageOffset,
    k: u32,
    features: u32,
    expression: &[u8],
)
    requires { (page_size ≤ length index.old) × (features ≤ max_features) × (expression_place + length expression.now ≤ page_size) }
    ensures { index.new ≡ put index.old 0 (header_bytes root.0 end.0 k features expression.now) }
{
    set_root(index, root);
    octets::store_le32(index, idx_page::FREE_PLACE, idx_page::NO_PAGE);
    set_file_end(index, end);
    octets::store_le16(index, idx_page::KEY_LENGTH_PLACE, k);
    octets::store_le16(index, idx_page::FEATURES_PLACE, features);
    octets::copy_in(index, idx_page::EXPRESSION_PLACE, expression);
    octets::fill(
        index,
        idx_page::EXPRESSION_PLACE + expression.len(),
        Page::SIZE,
        0,
    );
}

// Gives a page `entries`, with zeros after the last.
pub fn with_entries(index: &mut [u8], page: PageOffset, entries: Entries)
    requires { Within index.old entries.k page.0 entries.count }
    ensures { index.new ≡ with_entries index.old page.0 (items entries.entry.k entries.entry.count entries.entry.bytes.now) }
{
    let start = page.0 as usize;
    set_count(index, page, entries.count as u32);
    octets::copy_in(index, start + Page::ENTRIES_START, entries.bytes);
    let end = idx_page::entry_offset(entries.k, page, entries.count);
    octets::fill(index, end, start + Page::SIZE, 0);
}

// Writes a whole page: its attribute, its neighbours and its entries.
pub fn new_page(
    index: &mut [u8],
    page: PageOffset,
    attribute: u32,
    left: PageOffset,
    right: PageOffset,
    entries: Entries,
)
    requires { Within index.old entries.k page.0 entries.count }
    ensures { index.new ≡ new_page index.old page.0 attribute left.0 right.0 (items entries.entry.k entries.entry.count entries.entry.bytes.now) }
{
    set_attribute(index, page, attribute);
    link_left(index, page, left);
    link_right(index, page, right);
    with_entries(index, page, entries);
}

// The page at `beyond`, if it is a page, gets the left neighbour `new`.
pub fn link_beyond(index: &mut [u8], beyond: PageOffset, new: PageOffset)
    ensures { index.new ≡ link_beyond index.old beyond.0 new.0 }
{
    if idx_page::is_page(index.len(), beyond) {
        link_left(index, beyond, new);
    }
}

// Splits a page that gets `entries`: it keeps the lower half, rounded up; the rest go to a new page at `new`.
pub fn split_page(index: &mut [u8], page: PageOffset, entries: Entries, new: PageOffset)
    requires { Over index.old entries.k page.0 entries.count × (is_page (length index.old) new.0 ≡ true) }
    ensures { index.new ≡ split_page index.old page.0 (items entries.entry.k entries.entry.count entries.entry.bytes.now) new.0 }
{
    let head = Page::at(index, page);
    let attribute = head.attribute - head.attribute % 2;
    let (lower, upper) = entries.split_at((entries.count + 1) / 2);
    with_entries(index, page, lower);
    set_attribute(index, page, attribute);
    link_right(index, page, new);
    link_beyond(index, head.right, new);
    new_page(index, new, attribute, page, head.right, upper);
}
