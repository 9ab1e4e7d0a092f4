// An index as a file of pages, the last entry of a page, and the order of two keys. Both passes of the audit rest on it.
#![tactic(auto)]

ghost use Rattle.std.specs.Prelude.{◌≡◌, true, ◌+◌, ◌-◌, ◌≤◌, length};
ghost use Rattle.std.proofs.Math.Option.{none};
ghost use Rattle.octets.specs.Store.{window};
ghost use Rattle.octets.specs.Order.{ordering};
ghost use Rattle.idx_page.specs.Header.{page_size, file_size, key_length, root_offset, is_page, header_good};
ghost use Rattle.idx_page.specs.Reading.{entries_at};
ghost use Rattle.idx_page.specs.Children.{is_leaf, first_child};
ghost use Rattle.idx_sound.specs.AuditTest.{first_of, last_of, last_pair};
ghost use Rattle.idx_keys.specs.Places.{InFile, PlaceInside, key_from, pair_from};

use idx_page::PageOffset;
use std::cmp::Ordering;

// An index whose header is good: its bytes, and the key length and the file size that the header gives.
#[derive(Clone, Copy)]
pub struct IndexFile<'a> {
    pub bytes: &'a [u8],
    pub key_length: usize,
    pub size: usize,
    pub ghost inside: { InFile bytes.now key_length size },
}

impl<'a> IndexFile<'a> {
    // The file that is an index with a good header.
    pub fn new(index: &'a [u8]) -> IndexFile<'a>
        requires { header_good index.now ≡ true }
        ensures bytes { result.bytes.now ≡ index.now }
        ensures key_length { result.key_length ≡ key_length index.now }
        ensures size { result.size ≡ file_size index.now }
    {
        IndexFile {
            bytes: index,
            key_length: idx_page::key_length(index),
            size: idx_page::file_size(index),
        }
    }

    // The page of the root.
    pub fn root(&self) -> PageOffset
        ensures { result.0 ≡ root_offset self.now.bytes.now }
    {
        idx_page::root(self.bytes)
    }

    // Whether a page other than the first begins at an offset.
    pub fn is_page(&self, page: PageOffset) -> bool
        ensures test { result ≡ is_page self.now.size page.0 }
        ensures within { result ≡ true → page.0 + page_size ≤ length self.now.bytes.now }
    {
        idx_page::is_page(self.size, page)
    }

    // How many entries are read of a page.
    pub fn entry_count(&self, page: PageOffset) -> usize
        ensures { result ≡ length (entries_at self.now.key_length self.now.size self.now.bytes.now page.0) }
    {
        idx_page::entry_count(self.bytes, self.key_length, self.size, page)
    }

    // Whether a leaf begins at an offset.
    pub fn leaf_at(&self, page: PageOffset) -> bool
        ensures { result ≡ is_leaf self.now.bytes.now self.now.size page.0 }
    {
        idx_page::leaf_at(self.bytes, self.size, page)
    }

    // The first child of a page, or the link to no page.
    pub fn first_child(&self, page: PageOffset) -> PageOffset
        ensures { result.0 ≡ first_child self.now.bytes.now self.now.key_length self.now.size page.0 }
    {
        idx_page::first_child(self.bytes, self.key_length, self.size, page)
    }

    // Where the first entry of a page begins, if it has one.
    pub fn first_entry(&self, page: PageOffset) -> Option<usize>
        ensures key { key_from self.now.bytes.now self.now.key_length result ≡ first_of (entries_at self.now.key_length self.now.size self.now.bytes.now page.0) }
        ensures inside { PlaceInside self.now.bytes.now self.now.key_length result }
    {
        if self.entry_count(page) == 0 {
            return None;
        }
        Some(idx_page::entry_offset(self.key_length, page, 0))
    }

    // Where the last entry of a page begins, if it has one.
    pub fn last_entry(&self, page: PageOffset) -> Option<usize>
        ensures key { key_from self.now.bytes.now self.now.key_length result ≡ last_of none (entries_at self.now.key_length self.now.size self.now.bytes.now page.0) }
        ensures pair { pair_from self.now.bytes.now self.now.key_length result ≡ last_pair none (entries_at self.now.key_length self.now.size self.now.bytes.now page.0) }
        ensures inside { PlaceInside self.now.bytes.now self.now.key_length result }
    {
        let count = self.entry_count(page);
        if count == 0 {
            return None;
        }
        Some(idx_page::entry_offset(self.key_length, page, count - 1))
    }
}

// The order of the key that begins at x to the key that begins at y.
pub fn key_order(index: &[u8], k: usize, x: usize, y: usize) -> Ordering
    requires { (x + k ≤ length index.now) × (y + k ≤ length index.now) }
    ensures { result ≡ ordering (window index.now x k) (window index.now y k) }
{
    octets::compare(&index[x..x + k], &index[y..y + k])
}
