// An NDX index, read only: its header and pages, their numbers and the checks on them, and lookup: from the root down, level by level, by the first entry at
// or above the key, or by the extra child. Every number is low byte first.
#![tactic(auto)]

ghost use Rattle.std.specs.Prelude.{◌≡◌, Bool, true, false, ℕ, suc, ◌+◌, ◌-◌, ◌*◌, ◌≤◌, ◌<◌, eqb, length, MatchResult, Err};
ghost use Rattle.refusal.specs.Refusals.{refusal_number, numbered};
ghost use Rattle.octets.specs.Order.{ordering, is_equal};
ghost use Rattle.idx_page.specs.Page.{first_at_or_above};
ghost use Rattle.idx_lookup.specs.Answer.{Answer, and_then, follow};
ghost use Rattle.idx_lookup.specs.Lookup.{record_of, decided};
ghost use Rattle.ndx_page.specs.declared.PageNumber.{PageNumber};
ghost use Rattle.ndx_page.specs.Header.{page_size, max_key, max_levels, entry_area};
ghost use Rattle.ndx_page.specs.Header.{root_page, page_count, key_length, keys_per_page, key_type, entry_size};
ghost use Rattle.ndx_page.specs.Header.{is_page, pages_good, entry_size_of, keys_good, header_good};
ghost use Rattle.ndx_page.specs.Page.{page_start, count_at, entry_offset, key_offset, lower_at, record_at, key_at, is_leaf, count_good, page_good};
ghost use Rattle.ndx_page.specs.Within.{Within};
ghost use Rattle.ndx_page.specs.Lookup.{page_of, page_says, lookup_from, lookup_rule};
ghost use Rattle.ndx_page.specs.LookupLaws.{lookup_end};

use idx_lookup::{Descent, Outcome};
use idx_page::{MAX_LEVELS, Page, RecordNumber};
use refusal::Refusal;
use std::cmp::Ordering;
use std::ops::ControlFlow;

// Where the header's numbers stand.
pub const ROOT_PLACE: usize = 0;

pub const PAGES_PLACE: usize = 4;

pub const KEY_LENGTH_PLACE: usize = 12;

pub const KEYS_PLACE: usize = 14;

pub const KEY_TYPE_PLACE: usize = 16;

pub const ENTRY_SIZE_PLACE: usize = 18;

// The key type of every index that is handled.
pub const CHARACTER_KEYS: u32 = 0;

// Where a page's entries start, after its count, and how many bytes they may take.
pub const ENTRIES_START: usize = 4;

pub const ENTRY_AREA: usize = 504;

// Where the record number and the key stand in an entry, after the lower page.
pub const RECORD_PLACE: usize = 4;

pub const KEY_PLACE: usize = 8;

// The number of a page in an NDX index; page 0 is the header.
#[derive(Clone, Copy)]
pub struct PageNumber(pub u32);

// Whether a number is that of a page other than the first, of `pages` pages.
#[tactic(auto, unfolding(crate::specs::Header::is_page))]
pub fn is_page(pages: u32, page: PageNumber) -> bool
    ensures { result ≡ is_page pages page.0 }
{
    (1 <= page.0) & (page.0 < pages)
}

// Whether a number of pages is good in a buffer of `buffer` bytes.
#[tactic(auto, unfolding(crate::specs::Header::pages_good))]
fn pages_good(buffer: usize, pages: u32) -> bool
    ensures { result ≡ pages_good buffer pages }
{
    let bytes = pages as usize * Page::SIZE;
    (bytes <= buffer) & (bytes <= idx_page::MAX_BYTES)
}

// The size of an entry with a key of k bytes.
#[tactic(auto, unfolding(crate::specs::Header::entry_size_of))]
fn entry_size_of(k: u32) -> usize
    ensures { result ≡ entry_size_of k }
{
    (k as usize + 8 + 3) / 4 * 4
}

// Whether a number of keys per page is good, with entries of `size` bytes.
#[tactic(auto, unfolding(crate::specs::Header::keys_good))]
fn keys_good(keys: u32, size: u32) -> bool
    ensures { result ≡ keys_good keys size }
{
    (1 <= keys) & (keys as usize * size as usize <= ENTRY_AREA)
}

// Whether a count is good, with `most` keys per page, on the root or another page, a leaf or not.
#[tactic(auto, unfolding(crate::specs::Page::count_good))]
pub fn count_good(most: usize, count: usize, root: bool, leaf: bool) -> bool
    ensures { result ≡ count_good most count root leaf }
{
    (count <= most) & ((1 <= count) | (root & leaf))
}

// Where a page begins.
fn page_start(page: PageNumber) -> usize
    ensures { result ≡ page_start page.0 }
{
    page.0 as usize * Page::SIZE
}

// A file of one page at least, whose first may be an NDX header. Its numbers and those of its pages are read as they stand, whether the header is good or not.
#[derive(Clone, Copy)]
pub struct Header<'a> {
    pub bytes: &'a [u8],
    pub ghost long: { page_size ≤ length bytes.now },
}

impl<'a> Header<'a> {
    // The file that any bytes of one page at least are.
    pub fn new(bytes: &'a [u8]) -> Header<'a>
        requires { page_size ≤ length bytes.now }
        ensures { result.bytes.now ≡ bytes.now }
    {
        Header { bytes }
    }

    // The root page.
    pub fn root(&self) -> PageNumber
        ensures { result ≡ page_of (root_page self.now.bytes.now) }
    {
        PageNumber(octets::load_le32(self.bytes, ROOT_PLACE))
    }

    // The page count.
    pub fn page_count(&self) -> u32
        ensures { result ≡ page_count self.now.bytes.now }
    {
        octets::load_le32(self.bytes, PAGES_PLACE)
    }

    // The key length.
    pub fn key_length(&self) -> u32
        ensures { result ≡ key_length self.now.bytes.now }
    {
        octets::load_le16(self.bytes, KEY_LENGTH_PLACE)
    }

    // The keys per page.
    pub fn keys_per_page(&self) -> u32
        ensures { result ≡ keys_per_page self.now.bytes.now }
    {
        octets::load_le16(self.bytes, KEYS_PLACE)
    }

    // The key type.
    fn key_type(&self) -> u32
        ensures { result ≡ key_type self.now.bytes.now }
    {
        octets::load_le16(self.bytes, KEY_TYPE_PLACE)
    }

    // The entry size.
    pub fn entry_size(&self) -> u32
        ensures { result ≡ entry_size self.now.bytes.now }
    {
        octets::load_le16(self.bytes, ENTRY_SIZE_PLACE)
    }

    // Whether the header is good.
    #[tactic(auto, using(crate::specs::HeaderLaws::long_enough), unfolding(crate::specs::Header::header_good))]
    fn good(&self) -> bool
        ensures { result ≡ header_good self.now.bytes.now }
    {
        let pages = self.page_count();
        let k = self.key_length();
        let size = self.entry_size();
        (self.key_type() == CHARACTER_KEYS)
            & (pages_good(self.bytes.len(), pages)
                & (is_page(pages, self.root())
                    & (idx_page::key_length_good(k as usize)
                        & ((size as usize == entry_size_of(k))
                            & keys_good(self.keys_per_page(), size)))))
    }

    // How many keys a page has, as its count says.
    pub fn key_count(&self, page: PageNumber) -> usize
        requires { page_start page.0 + page_size ≤ length self.now.bytes.now }
        ensures { result ≡ count_at self.now.bytes.now page.0 }
    {
        octets::load_le32(self.bytes, page_start(page)) as usize
    }

    // Where entry i begins, which is where i entries end.
    #[tactic(auto, using(crate::specs::IndexLaws::entries_fit), unfolding(crate::specs::Page::entry_offset))]
    fn entry_offset(&self, page: PageNumber, i: usize) -> usize
        requires { Within self.now.bytes.now page.0 i }
        ensures { result ≡ entry_offset (entry_size self.now.bytes.now) page.0 i }
    {
        page_start(page) + ENTRIES_START + i * self.entry_size() as usize
    }

    // The lower page of entry i, or after i entries.
    #[tactic(auto, using(crate::specs::IndexLaws::within_steps), unfolding(crate::specs::Page::lower_at))]
    pub fn lower(&self, page: PageNumber, i: usize) -> PageNumber
        requires { Within self.now.bytes.now page.0 i }
        ensures { result ≡ page_of (lower_at self.now.bytes.now page.0 i) }
    {
        PageNumber(octets::load_le32(self.bytes, self.entry_offset(page, i)))
    }

    // The record number of entry i.
    #[tactic(auto, using(crate::specs::IndexLaws::within_steps), unfolding(crate::specs::Page::record_at))]
    pub fn record_number(&self, page: PageNumber, i: usize) -> RecordNumber
        requires { Within self.now.bytes.now page.0 (i + 1) }
        ensures { result ≡ record_of (record_at self.now.bytes.now page.0 i) }
    {
        RecordNumber(octets::load_le32(self.bytes, self.entry_offset(page, i) + RECORD_PLACE))
    }

    // Where the key of entry i begins.
    #[tactic(auto, using(crate::specs::IndexLaws::within_steps), unfolding(crate::specs::Page::key_offset))]
    pub fn key_offset(&self, page: PageNumber, i: usize) -> usize
        requires { Within self.now.bytes.now page.0 (i + 1) }
        ensures { result ≡ key_offset self.now.bytes.now page.0 i }
    {
        self.entry_offset(page, i) + KEY_PLACE
    }

    // Whether a page is a leaf.
    #[tactic(auto, unfolding(crate::specs::Page::is_leaf))]
    pub fn is_leaf(&self, page: PageNumber) -> bool
        requires { Within self.now.bytes.now page.0 0 }
        ensures { result ≡ is_leaf self.now.bytes.now page.0 }
    {
        self.lower(page, 0).0 == 0
    }
}

// Whether the header is good.
#[tactic(auto, using(crate::specs::HeaderLaws::too_short))]
pub fn header_good(index: &[u8]) -> bool
    ensures { result ≡ header_good index.now }
{
    if index.len() < Page::SIZE {
        return false;
    }
    Header::new(index).good()
}

// An NDX index with a good header.
#[derive(Clone, Copy)]
pub struct Index<'a> {
    pub bytes: &'a [u8],
    pub ghost good: { header_good bytes.now ≡ true },
}

impl<'a> Index<'a> {
    // Opens an index by its header.
    pub fn open(bytes: &'a [u8]) -> Result<Index<'a>, Refusal>
        ensures { MatchResult result
            (λ index. (index.bytes.now ≡ bytes.now) × (header_good bytes.now ≡ true))
            (λ refusal. (refusal_number refusal ≡ 24) × (header_good bytes.now ≡ false)) }
    {
        if header_good(bytes) {
            Ok(Index { bytes })
        } else {
            Err(Refusal::IndexHeader)
        }
    }

    #[tactic(auto, using(crate::specs::IndexLaws::header_long))]
    fn header(&self) -> Header<'a>
        ensures { result.bytes ≡ self.now.bytes }
    {
        Header { bytes: self.bytes }
    }

    // The header's root page.
    pub fn root(&self) -> PageNumber
        ensures { result ≡ page_of (root_page self.now.bytes.now) }
    {
        self.header().root()
    }

    // The header's page count.
    pub fn page_count(&self) -> u32
        ensures { result ≡ page_count self.now.bytes.now }
    {
        self.header().page_count()
    }

    // The header's key length.
    pub fn key_length(&self) -> u32
        ensures { result ≡ key_length self.now.bytes.now }
    {
        self.header().key_length()
    }

    // The header's keys per page.
    pub fn keys_per_page(&self) -> u32
        ensures { result ≡ keys_per_page self.now.bytes.now }
    {
        self.header().keys_per_page()
    }

    // The header's entry size.
    pub fn entry_size(&self) -> u32
        ensures { result ≡ entry_size self.now.bytes.now }
    {
        self.header().entry_size()
    }

    // Whether a number is that of a page other than the first.
    pub fn is_page(&self, page: PageNumber) -> bool
        ensures { result ≡ is_page (page_count self.now.bytes.now) page.0 }
    {
        is_page(self.page_count(), page)
    }

    // How many keys a page has, as its count says.
    pub fn key_count(&self, page: PageNumber) -> usize
        requires { page_start page.0 + page_size ≤ length self.now.bytes.now }
        ensures { result ≡ count_at self.now.bytes.now page.0 }
    {
        self.header().key_count(page)
    }

    // The lower page of entry i, or after i entries.
    pub fn lower(&self, page: PageNumber, i: usize) -> PageNumber
        requires { Within self.now.bytes.now page.0 i }
        ensures { result ≡ page_of (lower_at self.now.bytes.now page.0 i) }
    {
        self.header().lower(page, i)
    }

    // The record number of entry i.
    pub fn record_number(&self, page: PageNumber, i: usize) -> RecordNumber
        requires { Within self.now.bytes.now page.0 (i + 1) }
        ensures { result ≡ record_of (record_at self.now.bytes.now page.0 i) }
    {
        self.header().record_number(page, i)
    }

    // Where the key of entry i begins.
    pub fn key_offset(&self, page: PageNumber, i: usize) -> usize
        requires { Within self.now.bytes.now page.0 (i + 1) }
        ensures { result ≡ key_offset self.now.bytes.now page.0 i }
    {
        self.header().key_offset(page, i)
    }

    // The key of entry i.
    #[tactic(auto, using(crate::specs::IndexLaws::within_steps))]
    pub fn key(&self, page: PageNumber, i: usize) -> &'a [u8]
        requires { Within self.now.bytes.now page.0 (i + 1) }
        ensures { result.now ≡ key_at self.now.bytes.now page.0 i }
    {
        let start = self.key_offset(page, i);
        let end = start + self.key_length() as usize;
        &self.bytes[start..end]
    }

    // Whether a page is a leaf.
    pub fn is_leaf(&self, page: PageNumber) -> bool
        requires { Within self.now.bytes.now page.0 0 }
        ensures { result ≡ is_leaf self.now.bytes.now page.0 }
    {
        self.header().is_leaf(page)
    }

    // Whether a page that is visited is good.
    #[tactic(auto, using(crate::specs::IndexLaws::page_within), unfolding(crate::specs::Page::page_good))]
    fn page_good(&self, page: PageNumber, first: bool, last: bool) -> bool
        ensures { result ≡ page_good self.now.bytes.now page.0 first last }
    {
        if !self.is_page(page) {
            return false;
        }
        let leaf = self.is_leaf(page);
        let most = self.keys_per_page() as usize;
        count_good(most, self.key_count(page), first, leaf) & (leaf | !last)
    }
}

// Where a search in a page ends: at an entry, and whether its key is the one that is looked for.
#[derive(Clone, Copy)]
struct Reach {
    entry: usize,
    equal: bool,
}

// A lookup whose key has the length of the index's keys.
#[derive(Clone, Copy)]
struct Search<'a> {
    index: Index<'a>,
    key: &'a [u8],
    ghost fits: { length key.now ≡ key_length index.bytes.now },
}

impl<'a> Search<'a> {
    // The order of entry i's key to the key.
    #[tactic(auto, using(crate::specs::IndexLaws::within_steps), unfolding(crate::specs::Page::key_at))]
    fn compare_entry(&self, page: PageNumber, i: usize) -> Ordering
        requires { Within self.now.index.bytes.now page.0 (i + 1) }
        ensures { result ≡ ordering (key_at self.now.index.bytes.now page.0 i) self.now.key.now }
    {
        let start = self.index.key_offset(page, i);
        let end = start + self.key.len();
        octets::compare(&self.index.bytes[start..end], self.key)
    }

    // The first of `count` entries whose key is at or above the key, or `count` if there is none. A long key is compared once: the answer says whether it is
    // equal.
    #[tactic(auto, using(crate::specs::IndexLaws::search_steps))]
    fn first_at_or_above(&self, page: PageNumber, count: usize) -> Reach
        requires { Within self.now.index.bytes.now page.0 count }
        ensures first { result.entry ≡ first_at_or_above (key_at self.now.index.bytes.now page.0) self.now.key.now count 0 }
        ensures within { result.entry ≤ count }
        ensures equal { result.entry < count → result.equal ≡ is_equal (ordering (key_at self.now.index.bytes.now page.0 result.entry) self.now.key.now) }
        ensures none { result.entry ≡ count → result.equal ≡ false }
    {
        for i in 0..count {
            let order = self.compare_entry(page, i);
            if order.is_ge() {
                return Reach {
                    entry: i,
                    equal: order.is_eq(),
                };
            }
        }
        Reach {
            entry: count,
            equal: false,
        }
    }

    // What the entries of a page say of the key, after `pages` pages.
    #[tactic(auto, using(crate::specs::IndexLaws::page_steps))]
    fn search_page(&self, page: PageNumber, pages: u32) -> ControlFlow<Outcome, PageNumber>
        requires { Within self.now.index.bytes.now page.0 (count_at self.now.index.bytes.now page.0) }
        ensures { (go : PageNumber → Answer) → follow go result ≡ decided go pages (page_says self.now.index.bytes.now self.now.key.now page.0) }
    {
        let index = &self.index;
        let reach = self.first_at_or_above(page, index.key_count(page));
        if !index.is_leaf(page) {
            return ControlFlow::Continue(index.lower(page, reach.entry));
        }
        if !reach.equal {
            return ControlFlow::Break(Outcome::absent(pages));
        }
        ControlFlow::Break(Outcome::found(index.record_number(page, reach.entry), pages))
    }
}

impl<'a> Descent for Search<'a> {
    type Page = PageNumber;

    ghost start = { λ s. page_of (root_page s.index.bytes.now) };

    ghost answer = { λ s levels p. lookup_from levels s.index.bytes.now s.key.now p.0 };

    ghost ends = { λ s p. lookup_end s.index.bytes.now s.key.now p.0 };

    fn root(&self) -> PageNumber {
        self.index.root()
    }

    #[tactic(auto, using(crate::specs::IndexLaws::good_within, crate::specs::IndexLaws::visit_good, crate::specs::IndexLaws::visit_bad))]
    fn visit(
        &self,
        page: PageNumber,
        pages: u32,
    ) -> Result<ControlFlow<Outcome, PageNumber>, Refusal> {
        if !self.index.page_good(page, pages == 1, pages == MAX_LEVELS) {
            return Err(Refusal::IndexNotSound);
        }
        Ok(self.search_page(page, pages))
    }
}

// The record of a key, or absent, with the number of pages visited.
#[tactic(auto, using(crate::specs::IndexLaws::rule_header, crate::specs::IndexLaws::rule_key, crate::specs::IndexLaws::rule_steps))]
pub fn lookup(index: &[u8], key: &[u8]) -> Result<Outcome, Refusal>
    ensures { numbered result ≡ lookup_rule index.now key.now }
{
    let index = Index::open(index)?;
    if key.len() != index.key_length() as usize {
        return Err(Refusal::KeyLength);
    }
    idx_lookup::descend(&Search { index, key })
}
