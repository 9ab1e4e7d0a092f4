// An index file's header and pages: their numbers, the checks on them, and the search in a page.
#![tactic(auto)]

ghost use Rattle.std.specs.Prelude.{◌≡◌, Bool, ℕ, ◌+◌, ◌≤◌, length, eqb};
ghost use Rattle.octets.specs.Bytes.{be32, to_be32};
ghost use Rattle.octets.specs.Store.{put};
ghost use Rattle.octets.specs.Order.{ordering};
ghost use Rattle.idx_page.specs.Header.{max_key, max_offset, page_size, root_offset, free_pointer, file_size, key_length, features};
ghost use Rattle.idx_page.specs.Header.{is_page, size_good, key_length_good, free_good, header_good};
ghost use Rattle.idx_page.specs.Page.{attribute_at, count_at, left_at, right_at, leaf_bit, capacity, entry_offset, key_at, number_at};
ghost use Rattle.idx_page.specs.Page.{attribute_good, count_good, page_good, first_at_or_above};
ghost use Rattle.idx_page.specs.Reading.{entries_at};
ghost use Rattle.idx_page.specs.Within.{Within};
ghost use Rattle.idx_page.specs.Children.{is_leaf, first_child};

use std::cmp::Ordering;

// Where the header's numbers and its key expression stand.
pub const ROOT_PLACE: usize = 0;

pub const FREE_PLACE: usize = 4;

pub const SIZE_PLACE: usize = 8;

pub const KEY_LENGTH_PLACE: usize = 12;

pub const FEATURES_PLACE: usize = 14;

pub const EXPRESSION_PLACE: usize = 16;

// The features of an index with one record to a key, and the highest that is handled: 0 is for several records to a key.
pub const GOOD_FEATURES: u32 = 1;

pub const MAX_FEATURES: u32 = 1;

// The smallest index, in bytes: a header and one page.
pub const MIN_BYTES: usize = 1024;

// The largest index, in bytes and in pages.
pub const MAX_BYTES: usize = 16777216;

pub const MAX_PAGES: usize = MAX_BYTES / Page::SIZE;

// The most levels from the root to a leaf, both counted.
pub const MAX_LEVELS: u32 = 15;

// The longest key.
pub const MAX_KEY: usize = 100;

// The link of a page that has no neighbour, and the free pointer.
pub const NO_PAGE: u32 = 0xFFFFFFFF;

// The offset of a page in an index.
#[derive(Clone, Copy, PartialEq, Eq, PartialOrd, Ord, Debug)]
pub struct PageOffset(pub u32);

// The number of a record in a table, from 1.
#[derive(Clone, Copy, PartialEq, Eq, PartialOrd, Ord, Debug)]
pub struct RecordNumber(pub u32);

// The numbers at the head of a page.
#[derive(Clone, Copy)]
pub struct Page {
    pub attribute: u32,
    pub count: u32,
    pub left: PageOffset,
    pub right: PageOffset,
}

impl Page {
    pub const SIZE: usize = 512;

    // Where the numbers of a page's head and its entries stand; the attribute is first.
    pub const COUNT_PLACE: usize = 2;

    pub const LEFT_PLACE: usize = 4;

    pub const RIGHT_PLACE: usize = 8;

    pub const ENTRIES_START: usize = 12;

    pub const ENTRY_AREA: usize = 500;

    // How many entries with keys of k bytes a page holds.
    #[tactic(auto, unfolding(crate::specs::Page::capacity))]
    pub fn capacity(k: usize) -> usize
        requires { k ≤ max_key }
        ensures { result ≡ capacity k }
    {
        Self::ENTRY_AREA / (k + 4)
    }

    // The head of the page at an offset.
    pub fn at(index: &[u8], page: PageOffset) -> Page
        requires { page.0 + page_size ≤ length index.now }
        ensures attribute { result.attribute ≡ attribute_at index.now page.0 }
        ensures count { result.count ≡ count_at index.now page.0 }
        ensures left { result.left.0 ≡ left_at index.now page.0 }
        ensures right { result.right.0 ≡ right_at index.now page.0 }
    {
        let at = page.0 as usize;
        Page {
            attribute: octets::load_le16(index, at),
            count: octets::load_le16(index, at + Self::COUNT_PLACE),
            left: PageOffset(octets::load_le32(index, at + Self::LEFT_PLACE)),
            right: PageOffset(octets::load_le32(index, at + Self::RIGHT_PLACE)),
        }
    }
}

// The header's root offset.
pub fn root(index: &[u8]) -> PageOffset
    requires { page_size ≤ length index.now }
    ensures { result.0 ≡ root_offset index.now }
{
    PageOffset(octets::load_le32(index, ROOT_PLACE))
}

// The header's free pointer: the head of the free list, or none.
pub fn free_pointer(index: &[u8]) -> PageOffset
    requires { page_size ≤ length index.now }
    ensures { result.0 ≡ free_pointer index.now }
{
    PageOffset(octets::load_le32(index, FREE_PLACE))
}

// The header's file size, taken as an offset: the file's end, at which the next new page begins.
pub fn file_end(index: &[u8]) -> PageOffset
    requires { page_size ≤ length index.now }
    ensures { result.0 ≡ file_size index.now }
{
    PageOffset(octets::load_le32(index, SIZE_PLACE))
}

// The header's file size.
pub fn file_size(index: &[u8]) -> usize
    requires { page_size ≤ length index.now }
    ensures { result ≡ file_size index.now }
{
    file_end(index).0 as usize
}

// The header's key length.
pub fn key_length(index: &[u8]) -> usize
    requires { page_size ≤ length index.now }
    ensures { result ≡ key_length index.now }
{
    octets::load_le16(index, KEY_LENGTH_PLACE) as usize
}

// Whether a key of the index may have several records: features 0.
pub fn several(index: &[u8]) -> bool
    requires { page_size ≤ length index.now }
    ensures { result ≡ eqb (features index.now) 0 }
{
    octets::byte(index, FEATURES_PLACE) == 0
}

// Whether a page other than the first begins at an offset, in a file of `size` bytes.
#[tactic(auto, unfolding(crate::specs::Header::is_page))]
pub fn is_page(size: usize, page: PageOffset) -> bool
    ensures { result ≡ is_page size page.0 }
{
    let at = page.0 as usize;
    at % Page::SIZE == 0 && Page::SIZE <= at && at + Page::SIZE <= size
}

// The offset at which a page ends and the next one begins.
pub fn next_page(page: PageOffset) -> PageOffset
    requires { page.0 + page_size ≤ max_offset }
    ensures { result.0 ≡ page.0 + page_size }
{
    PageOffset(page.0 + Page::SIZE as u32)
}

// Whether a file's size is good in a buffer of `buffer` bytes.
#[tactic(auto, unfolding(crate::specs::Header::size_good))]
fn size_good(buffer: usize, size: usize) -> bool
    ensures { result ≡ size_good buffer size }
{
    size % Page::SIZE == 0 && (MIN_BYTES..=MAX_BYTES).contains(&size) && size <= buffer
}

// Whether a key length is good.
#[tactic(auto, unfolding(crate::specs::Header::key_length_good))]
pub fn key_length_good(k: usize) -> bool
    ensures { result ≡ key_length_good k }
{
    (1..=MAX_KEY).contains(&k)
}

// Whether a free pointer is none or names a page.
#[tactic(auto, unfolding(crate::specs::Header::free_good))]
fn free_good(size: usize, free: PageOffset) -> bool
    ensures { result ≡ free_good size free.0 }
{
    free.0 == NO_PAGE || is_page(size, free)
}

// Whether the header is good.
#[tactic(auto, unfolding(crate::specs::Header::header_good))]
pub fn header_good(index: &[u8]) -> bool
    ensures { result ≡ header_good index.now }
{
    if index.len() < Page::SIZE {
        return false;
    }
    let size = file_size(index);
    size_good(index.len(), size)
        && is_page(size, root(index))
        && key_length_good(key_length(index))
        && free_good(size, free_pointer(index))
        && octets::byte(index, FEATURES_PLACE) <= MAX_FEATURES
}

// Whether an attribute that is 0 to 3 has the leaf bit.
pub fn is_leaf(attribute: u32) -> bool
    ensures { result ≡ leaf_bit attribute }
{
    2 <= attribute
}

// Whether an attribute is good on the page that is visited first, on the last that may be visited, or on another.
#[tactic(auto, unfolding(crate::specs::Page::attribute_good))]
pub fn attribute_good(attribute: u32, first: bool, last: bool) -> bool
    ensures { result ≡ attribute_good attribute first last }
{
    attribute <= 3 && (attribute % 2 == 1) == first && (is_leaf(attribute) || !last)
}

// Whether a count is good on a page of an attribute, with keys of k bytes.
#[tactic(auto, unfolding(crate::specs::Page::count_good))]
pub fn count_good(k: usize, attribute: u32, count: u32) -> bool
    requires { k ≤ max_key }
    ensures { result ≡ count_good k attribute count }
{
    count as usize <= Page::capacity(k) && (1 <= count || attribute == 3)
}

// Whether a page that is visited is good, with keys of k bytes in a file of `size` bytes.
#[tactic(auto, unfolding(crate::specs::Page::page_good))]
pub fn page_good(
    index: &[u8],
    k: usize,
    size: usize,
    page: PageOffset,
    first: bool,
    last: bool,
) -> bool
    requires { (k ≤ max_key) × (size ≤ length index.now) }
    ensures { result ≡ page_good index.now k size page.0 first last }
{
    if !is_page(size, page) {
        return false;
    }
    let head = Page::at(index, page);
    attribute_good(head.attribute, first, last) && count_good(k, head.attribute, head.count)
}

// How many entries are read of a page: none if the offset is no page's, and never more than the capacity.
pub fn entry_count(index: &[u8], k: usize, size: usize, page: PageOffset) -> usize
    requires { (k ≤ max_key) × (size ≤ length index.now) }
    ensures { result ≡ length (entries_at k size index.now page.0) }
{
    if !is_page(size, page) {
        return 0;
    }
    let head = Page::at(index, page);
    (head.count as usize).min(Page::capacity(k))
}

// Where entry i begins, which is where i entries end.
#[tactic(auto, using(crate::specs::PageLaws::entries_fit), unfolding(crate::specs::Page::entry_offset))]
pub fn entry_offset(k: usize, page: PageOffset, i: usize) -> usize
    requires { (k ≤ max_key) × (i ≤ capacity k) }
    ensures { result ≡ entry_offset k page.0 i }
{
    page.0 as usize + Page::ENTRIES_START + i * (k + 4)
}

// The number of entry i, most significant byte first.
fn entry_number(index: &[u8], k: usize, page: PageOffset, i: usize) -> u32
    requires { Within index.now k page.0 (i + 1) }
    ensures { result ≡ number_at index.now k page.0 i }
{
    octets::load_be32(index, entry_offset(k, page, i) + k)
}

// Entry i's number, taken as the offset of a page.
pub fn child(index: &[u8], k: usize, page: PageOffset, i: usize) -> PageOffset
    requires { Within index.now k page.0 (i + 1) }
    ensures { result.0 ≡ number_at index.now k page.0 i }
{
    PageOffset(entry_number(index, k, page, i))
}

// Entry i's number, taken as the number of a record.
pub fn record_number(index: &[u8], k: usize, page: PageOffset, i: usize) -> RecordNumber
    requires { Within index.now k page.0 (i + 1) }
    ensures { result.0 ≡ number_at index.now k page.0 i }
{
    RecordNumber(entry_number(index, k, page, i))
}

// The number of the entry that begins at `at`, taken as the number of a record.
pub fn record_at(index: &[u8], k: usize, at: usize) -> RecordNumber
    requires { at + (k + 4) ≤ length index.now }
    ensures { result.0 ≡ be32 index.now (at + k) }
{
    RecordNumber(octets::load_be32(index, at + k))
}

// Whether a leaf begins at an offset, in a file of `size` bytes.
#[tactic(auto, unfolding(crate::specs::Children::is_leaf))]
pub fn leaf_at(index: &[u8], size: usize, page: PageOffset) -> bool
    requires { size ≤ length index.now }
    ensures { result ≡ is_leaf index.now size page.0 }
{
    is_page(size, page) && is_leaf(Page::at(index, page).attribute)
}

// The first child of a page, or the link to no page.
pub fn first_child(index: &[u8], k: usize, size: usize, page: PageOffset) -> PageOffset
    requires { (k ≤ max_key) × (size ≤ length index.now) }
    ensures { result.0 ≡ first_child index.now k size page.0 }
{
    if entry_count(index, k, size, page) == 0 {
        return PageOffset(NO_PAGE);
    }
    child(index, k, page, 0)
}

// Stores the offset of a page as an entry's number.
pub fn put_child(bytes: &mut [u8], at: usize, child: PageOffset)
    requires { at + 4 ≤ length bytes.old }
    ensures { bytes.new ≡ put bytes.old at (to_be32 child.0) }
{
    octets::store_be32(bytes, at, child.0);
}

// Stores the number of a record as an entry's number.
pub fn put_record_number(bytes: &mut [u8], at: usize, number: RecordNumber)
    requires { at + 4 ≤ length bytes.old }
    ensures { bytes.new ≡ put bytes.old at (to_be32 number.0) }
{
    octets::store_be32(bytes, at, number.0);
}

// The order of entry i's key to a key.
pub fn compare_entry(index: &[u8], page: PageOffset, i: usize, key: &[u8]) -> Ordering
    requires { Within index.now (length key.now) page.0 (i + 1) }
    ensures { result ≡ ordering (key_at index.now (length key.now) page.0 i) key.now }
{
    let start = entry_offset(key.len(), page, i);
    let end = start + key.len();
    octets::compare(&index[start..end], key)
}

// The first of `count` entries whose key is at or above a key, or `count` if there is none.
pub fn first_at_or_above(index: &[u8], page: PageOffset, count: usize, key: &[u8]) -> usize
    requires { Within index.now (length key.now) page.0 count }
    ensures { (result ≡ first_at_or_above (key_at index.now (length key.now) page.0) key.now count 0) × (result ≤ count) }
{
    for i in 0..count {
        if !octets::is_below(compare_entry(index, page, i, key)) {
            return i;
        }
    }
    count
}
