// All records of a key of an index, in order. Document 02, K12: "all records of a key, in order, into a lent list, entries past them kept, answering how many,
// 0 for none; 24, 27, 25 by full audit, then 39 if the list is too short. It lists each once and none other."
//
// The leaves are gone through twice: first the records are counted, and then, if the list has room for all, they are stored.
#![tactic(auto)]

ghost use Rattle.std.specs.Prelude.{ℕ, ◌≡◌, true, ◌+◌, ◌*◌, ◌≤◌, ◌<◌, length};
ghost use Rattle.refusal.specs.Refusals.{numbered};
ghost use Rattle.idx_page.specs.Header.{key_length, header_good};
ghost use Rattle.idx_page.specs.Page.{entry_area};
ghost use Rattle.idx_page.specs.Within.{Within};
ghost use Rattle.idx_page.specs.Reading.{entries_from};
ghost use Rattle.idx_sound.specs.AuditTest.{max_pages};
ghost use Rattle.idx_keys.specs.Places.{EntriesWithin};
ghost use Rattle.idx_match.specs.MatchTest.{entry_at, entries_along, leaf_entries};
ghost use Rattle.idx_records.specs.Records.{tell, records_rule};
ghost use Rattle.idx_records.specs.Gather.{gather, kept, taken, gathered};

use idx_keys::IndexFile;
use idx_page::{Page, PageOffset};
use refusal::Refusal;

// Stores a record's number at a place of a list, if it is among the first `room`.
fn keep_number(list: &mut [u32], room: usize, at: usize, number: u32)
    requires { room ≤ length list.old }
    ensures { list.new ≡ kept room at number list.old }
{
    if at < room {
        list[at] = number;
    }
}

// Entry i of a leaf: its record is stored at `at` if its key is equal. The answer is the place of the next one.
fn take_entry(
    index: &[u8],
    key: &[u8],
    page: PageOffset,
    i: usize,
    list: &mut [u32],
    room: usize,
    at: usize,
) -> usize
    requires within { Within index.now (length key.now) page.0 (i + 1) }
    requires room { room ≤ length list.old }
    requires few { at < entry_area * max_pages }
    ensures { taken key.now room (entry_at index.now (length key.now) page.0 i) (gather at list.old)
        ≡ gather result list.new }
{
    if !idx_page::compare_entry(index, page, i, key).is_eq() {
        return at;
    }
    let number = idx_page::record_number(index, key.len(), page, i);
    keep_number(list, room, at, number.0);
    at + 1
}

// The first `count` entries of a leaf.
fn take_leaf(
    index: &[u8],
    key: &[u8],
    page: PageOffset,
    count: usize,
    list: &mut [u32],
    room: usize,
    from: usize,
) -> usize
    requires within { EntriesWithin index.now (length key.now) page.0 count }
    requires room { room ≤ length list.old }
    requires few { from + count ≤ entry_area * max_pages }
    ensures { gathered key.now room (entries_from index.now (length key.now) page.0 count 0) (gather from list.old)
        ≡ gather result list.new }
{
    let mut at = from;
    for i in 0..count {
        at = take_entry(index, key, page, i, list, room, at);
    }
    at
}

// The leaves from `first` on along the right links.
fn take_leaves(
    file: &IndexFile,
    key: &[u8],
    first: PageOffset,
    list: &mut [u32],
    room: usize,
) -> usize
    requires length { length key.now ≡ file.now.key_length }
    requires room { room ≤ length list.old }
    ensures taken { gathered key.now room (entries_along file.now.bytes.now (length key.now) file.now.size max_pages first.0) (gather 0 list.old)
        ≡ gather result list.new }
    ensures few { result ≤ entry_area * max_pages }
{
    let mut page = first;
    let mut at = 0;
    for _ in 0..idx_page::MAX_PAGES {
        if !file.is_page(page) {
            return at;
        }
        let entries = file.entry_count(page);
        at = take_leaf(file.bytes, key, page, entries, list, room, at);
        page = Page::at(file.bytes, page).right;
    }
    at
}

// All leaves: the first `room` records of the key are stored, and the answer is how many there are.
fn take_all(index: &[u8], key: &[u8], list: &mut [u32], room: usize) -> usize
    requires header { header_good index.now ≡ true }
    requires length { length key.now ≡ key_length index.now }
    requires room { room ≤ length list.old }
    ensures taken { gathered key.now room (leaf_entries index.now) (gather 0 list.old) ≡ gather result list.new }
    ensures few { result ≤ entry_area * max_pages }
{
    let file = IndexFile::new(index);
    take_leaves(&file, key, idx_match::first_leaf(&file), list, room)
}

// Writes all records of a key into a list, and answers how many they are.
pub fn records(index: &[u8], key: &[u8], list: &mut [u32]) -> Result<u32, Refusal>
    ensures { (count : ℕ) → records_rule index.now key.now list.old count ≡ tell (numbered result) list.new count }
{
    if !idx_page::header_good(index) {
        return Err(Refusal::IndexHeader);
    }
    if key.len() != idx_page::key_length(index) {
        return Err(Refusal::KeyLength);
    }
    idx_audit::audit(index)?;
    let n = take_all(index, key, list, 0);
    if list.len() < n {
        return Err(Refusal::ListTooShort);
    }
    take_all(index, key, list, n);
    Ok(n as u32)
}
