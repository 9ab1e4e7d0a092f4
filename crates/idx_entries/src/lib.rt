// A page's entries after a change, gathered to be written: with a pair more, with two for one, without one; and a key that is raised.
#![tactic(auto)]

ghost use Rattle.std.specs.Prelude.{◌≡◌, true, ◌+◌, ◌-◌, ◌*◌, ◌≤◌, ◌<◌, List, ℕ, [], ◌++◌, length, take};
ghost use Rattle.octets.specs.Bytes.{to_be32};
ghost use Rattle.octets.specs.Store.{put, window};
ghost use Rattle.tree.specs.Order.{larger};
ghost use Rattle.tree.specs.Pairs.{last_key, insert_pair};
ghost use Rattle.idx_page.specs.Header.{max_key, features, is_page};
ghost use Rattle.idx_page.specs.Page.{entry_offset, key_at};
ghost use Rattle.idx_page.specs.Within.{Within};
ghost use Rattle.idx_page.specs.KeyOrder.{bytes_order};
ghost use Rattle.idx_page.specs.EntryOrder.{item_order};
ghost use Rattle.idx_leaf.specs.Leaf.{items_in, stored};
ghost use Rattle.idx_layout.specs.Layout.{encode};
ghost use Rattle.idx_entries.specs.Entries.{replaced, raised, two_for, root_entries, without_entry};
ghost use Rattle.idx_layout.specs.Given.{room_size};
ghost use Rattle.idx_leaf.specs.Given.{Listed};

use idx_layout::Entries;
use idx_page::{Page, PageOffset, RecordNumber};
use std::marker::Model;

// Raises the key of entry `i` to `key` if it is below `key`.
pub fn raise_key(index: &mut [u8], key: &[u8], page: PageOffset, i: usize)
    requires { (length key.now ≤ max_key) × (is_page (length index.old) page.0 ≡ true) }
    ensures { index.new ≡ raised (length key.now) index.old key.now page.0 i }
{
    if idx_leaf::entry_count(index, key.len(), page) <= i {
        return;
    }
    if idx_page::compare_entry(index, page, i, key).is_lt() {
        octets::copy_in(index, idx_page::entry_offset(key.len(), page, i), key);
    }
}

// The bytes of a page's entries from entry `first` on, up to but without entry `end`.
fn entries_between(index: &[u8], k: usize, page: PageOffset, first: usize, end: usize) -> &[u8]
    requires { Within index.now k page.0 end × (first ≤ end) }
    ensures value { result.now ≡ window index.now (entry_offset k page.0 first) ((end - first) * (k + 4)) }
    ensures size { length result.now ≡ (end - first) * (k + 4) }
{
    &index[idx_page::entry_offset(k, page, first)..idx_page::entry_offset(k, page, end)]
}

// The key of entry `i`.
fn entry_key(index: &[u8], k: usize, page: PageOffset, i: usize) -> &[u8]
    requires { Within index.now k page.0 (i + 1) }
    ensures value { result.now ≡ key_at index.now k page.0 i }
    ensures size { length result.now ≡ k }
{
    let start = idx_page::entry_offset(k, page, i);
    &index[start..start + k]
}

// The four bytes of the number of entry `i`.
fn number_bytes(index: &[u8], k: usize, page: PageOffset, i: usize) -> &[u8]
    requires { Within index.now k page.0 (i + 1) }
    ensures value { result.now ≡ window index.now (entry_offset k page.0 i + k) 4 }
    ensures size { length result.now ≡ 4 }
{
    let start = idx_page::entry_offset(k, page, i) + k;
    &index[start..start + 4]
}

// The last key of a page, or `key` if the page has no entries.
fn last_key<'a>(index: &'a [u8], key: &'a [u8], page: PageOffset) -> &'a [u8]
    requires { length key.now ≤ max_key }
    ensures value { result.now ≡ last_key key.now (items_in (length key.now) index.now page.0) }
    ensures size { length result.now ≡ length key.now }
{
    let count = idx_leaf::entry_count(index, key.len(), page);
    if count == 0 {
        return key;
    }
    entry_key(index, key.len(), page, count - 1)
}

// The larger of the key of entry `i` and `key`.
fn larger_key<'a>(index: &'a [u8], key: &'a [u8], page: PageOffset, i: usize) -> &'a [u8]
    requires { Within index.now (length key.now) page.0 (i + 1) }
    ensures value { result.now ≡ larger bytes_order (key_at index.now (length key.now) page.0 i) key.now }
    ensures size { length result.now ≡ length key.now }
{
    if idx_page::compare_entry(index, page, i, key).is_lt() {
        return key;
    }
    entry_key(index, key.len(), page, i)
}

// The most that is gathered for a page: as many bytes as its entry area has, and one more entry with the longest key.
pub const ROOM: usize = Page::ENTRY_AREA + idx_page::MAX_KEY + 4;

// The bytes that are gathered for a page, one part after another. One room serves a whole insertion or removal: the library has no heap, and little stack.
#[derive(Drop)]
pub struct Room {
    bytes: [u8; ROOM],
    size: usize,
}

impl Model for Room {
    ghost Value = { List ℕ };

    ghost view = { λ room. take room.size room.bytes };

    ghost invariant = { λ room. room.size ≤ room_size };
}

impl Room {
    // A room with nothing in it.
    pub fn new() -> Self
        ensures { result ≡ [] }
    {
        Room {
            bytes: [0; ROOM],
            size: 0,
        }
    }

    // Takes out what is in the room.
    fn clear(&mut self)
        ensures value { self.new ≡ [] }
        ensures size { length self.new ≡ 0 }
    {
        self.size = 0;
    }

    // Puts `part` behind what is in the room.
    fn push(&mut self, part: &[u8])
        requires { length self.old + length part.now ≤ room_size }
        ensures value { self.new ≡ self.old ++ part.now }
        ensures size { length self.new ≡ length self.old + length part.now }
    {
        octets::copy_in(&mut self.bytes, self.size, part);
        self.size += part.len();
    }

    // Puts an entry's number behind what is in the room: that of a record, in a leaf.
    fn push_record_number(&mut self, number: RecordNumber)
        requires { length self.old + 4 ≤ room_size }
        ensures value { self.new ≡ self.old ++ to_be32 number.0 }
        ensures size { length self.new ≡ length self.old + 4 }
    {
        idx_page::put_record_number(&mut self.bytes, self.size, number);
        self.size += 4;
    }

    // Puts an entry's number behind what is in the room: the offset of a page, above the leaves.
    fn push_child(&mut self, child: PageOffset)
        requires { length self.old + 4 ≤ room_size }
        ensures value { self.new ≡ self.old ++ to_be32 child.0 }
        ensures size { length self.new ≡ length self.old + 4 }
    {
        idx_page::put_child(&mut self.bytes, self.size, child);
        self.size += 4;
    }

    // What is in the room, as `count` entries with keys of `k` bytes.
    pub fn entries(&self, k: usize, count: usize) -> Entries<'_>
        requires { length self.now ≡ count * (k + 4) }
        ensures shape { (result.k ≡ k) × (result.count ≡ count) }
        ensures bytes { result.bytes.now ≡ self.now }
    {
        Entries {
            k,
            count,
            bytes: &self.bytes[..self.size],
        }
    }

    // Gathers the entries of a leaf with one more: `key` with its record number.
    pub fn gather_pair(
        &mut self,
        index: &[u8],
        key: &[u8],
        number: RecordNumber,
        page: PageOffset,
        count: usize,
    )
        requires { Listed index.now (length key.now) page.0 count }
        ensures { self.new ≡ encode (insert_pair (item_order (features index.now)) (stored key.now number.0)
            (items_in (length key.now) index.now page.0)) }
    {
        let k = key.len();
        let i = idx_leaf::place(index, key, number, page, count);
        self.clear();
        self.push(entries_between(index, k, page, 0, i));
        self.push(key);
        self.push_record_number(number);
        self.push(entries_between(index, k, page, i, count));
    }

    // Gathers the entries of a page whose child at `child` was split: two, for `child` and for `new`, in the place of entry `i`.
    pub fn gather_two(
        &mut self,
        index: &[u8],
        key: &[u8],
        page: PageOffset,
        count: usize,
        i: usize,
        child: PageOffset,
        new: PageOffset,
    )
        requires { Listed index.now (length key.now) page.0 count × (i < count) }
        ensures { self.new ≡ encode (replaced i (two_for (length key.now) index.now key.now child.0 new.0)
            (items_in (length key.now) index.now page.0)) }
    {
        let k = key.len();
        self.clear();
        self.push(entries_between(index, k, page, 0, i));
        self.push(last_key(index, key, child));
        self.push(number_bytes(index, k, page, i));
        self.push(larger_key(index, key, page, i));
        self.push_child(new);
        self.push(entries_between(index, k, page, i + 1, count));
    }

    // Gathers the entries of a new root: one for `old` and one for `new`.
    pub fn gather_root(&mut self, index: &[u8], key: &[u8], old: PageOffset, new: PageOffset)
        requires { length key.now ≤ max_key }
        ensures { self.new ≡ encode (root_entries (length key.now) index.now key.now old.0 new.0) }
    {
        self.clear();
        self.push(last_key(index, key, old));
        self.push_child(old);
        self.push(last_key(index, key, new));
        self.push_child(new);
    }

    // Gathers the entries of a page without entry `i`.
    pub fn gather_without(
        &mut self,
        index: &[u8],
        k: usize,
        page: PageOffset,
        count: usize,
        i: usize,
    )
        requires { Listed index.now k page.0 count × (i < count) }
        ensures { self.new ≡ encode (without_entry i (items_in k index.now page.0)) }
    {
        self.clear();
        self.push(entries_between(index, k, page, 0, i));
        self.push(entries_between(index, k, page, i + 1, count));
    }
}
