// The entries of a leaf: each has a record number above 0, and comes after the entry before it. A part of the audit's first pass.
#![tactic(auto)]

ghost use Rattle.std.specs.Prelude.{◌≡◌, true, cond, ◌+◌, ◌-◌, ◌≤◌, ◌<◌, length, eqb, Some};
ghost use Rattle.std.proofs.Math.Option.{none, some};
ghost use Rattle.idx_page.specs.Header.{max_key, page_size, features};
ghost use Rattle.idx_page.specs.Reading.{entries_from};
ghost use Rattle.idx_sound.specs.AuditTest.{leaf_entries_good};
ghost use Rattle.idx_keys.specs.Places.{EntriesWithin, PlaceInside, pair_at, pair_from};
ghost use Rattle.idx_leaves.specs.Leaf.{compared_bytes, leaf_entry};

use idx_keys::IndexFile;
use idx_page::PageOffset;

// By how many bytes more than the keys entries are compared: none, or the four of their record numbers if a key may have several records.
fn more_compared(index: &[u8]) -> usize
    requires { page_size ≤ length index.now }
    ensures { result ≡ cond (eqb (features index.now) 0) 4 0 }
{
    if idx_page::several(index) {
        return 4;
    }
    0
}

// How many bytes of two entries tell which is above the other: those of the keys, or of the whole entries if a key may have several records, since the first
// byte of a record number is its highest.
fn compared(file: &IndexFile) -> usize
    ensures { result ≡ compared_bytes (features file.now.bytes.now) file.now.key_length }
{
    file.key_length + more_compared(file.bytes)
}

// Whether the entry of a leaf that begins at `at` has a record number above 0, and comes after the entry that begins at `last`; n bytes tell it.
fn leaf_entry(index: &[u8], k: usize, n: usize, at: usize, last: usize) -> bool
    requires here { at + (k + 4) ≤ length index.now }
    requires before { last + (k + 4) ≤ length index.now }
    requires compared { n ≡ compared_bytes (features index.now) k }
    ensures { result ≡ leaf_entry index.now k at (Some last) }
{
    idx_page::record_at(index, k, at).0 != 0 && idx_keys::key_order(index, n, last, at).is_lt()
}

// Whether the entries of a leaf of `count` entries from entry `first` on are good, each after the entry before it; `last` is where the entry before them
// begins. An entry's place is carried along, since a product for each entry would cost the audit of keys of 10 bytes a seventh more instructions.
fn later_entries(
    file: &IndexFile,
    page: PageOffset,
    first: usize,
    count: usize,
    last: usize,
) -> bool
    requires within { EntriesWithin file.now.bytes.now file.now.key_length page.0 count }
    requires some { first ≤ count }
    requires before { last + (file.now.key_length + 4) ≤ length file.now.bytes.now }
    ensures { result ≡ leaf_entries_good (features file.now.bytes.now) (some (pair_at file.now.bytes.now file.now.key_length last))
        (entries_from file.now.bytes.now file.now.key_length page.0 (count - first) first) }
{
    let n = compared(file);
    let mut at = idx_page::entry_offset(file.key_length, page, first);
    let mut prior = last;
    for _ in first..count {
        if !leaf_entry(file.bytes, file.key_length, n, at, prior) {
            return false;
        }
        prior = at;
        at += file.key_length + 4;
    }
    true
}

// Whether the first `count` entries of the first leaf are good: no entry comes before them.
fn first_entries(file: &IndexFile, page: PageOffset, count: usize) -> bool
    requires { EntriesWithin file.now.bytes.now file.now.key_length page.0 count }
    ensures { result ≡ leaf_entries_good (features file.now.bytes.now) none (entries_from file.now.bytes.now file.now.key_length page.0 count 0) }
{
    if count == 0 {
        return true;
    }
    let first = idx_page::entry_offset(file.key_length, page, 0);
    idx_page::record_at(file.bytes, file.key_length, first).0 != 0
        && later_entries(file, page, 1, count, first)
}

// Whether the first `count` entries of a leaf are good, each after the entry before it; the first comes after the entry that begins at `last`, if there is one.
// The first entry of all is asked for ahead of the loop, since a test for each entry would cost a tenth more instructions.
pub fn leaf_entries(file: &IndexFile, page: PageOffset, count: usize, last: Option<usize>) -> bool
    requires within { EntriesWithin file.now.bytes.now file.now.key_length page.0 count }
    requires before { PlaceInside file.now.bytes.now file.now.key_length last }
    ensures { result ≡ leaf_entries_good (features file.now.bytes.now) (pair_from file.now.bytes.now file.now.key_length last)
        (entries_from file.now.bytes.now file.now.key_length page.0 count 0) }
{
    match last {
        Some(last) => later_entries(file, page, 0, count, last),
        None => first_entries(file, page, count),
    }
}
