// The match of an index against a field of a table. Document 01: "Match: table checks, index header, field number, field type C, field length k (27), audit,
// then 31 unless each record 1 to n, whatever its deletion byte, has exactly one entry, its key that record's field, and there are no other entries."
//
// The leaf pairs of a sound index ascend, so no two are equal. One pass along the leaves is therefore enough: if the key of each entry is the field of its
// record, no record has two entries; if there are as many entries as records, each record has one.
#![tactic(auto)]

ghost use Rattle.std.specs.Prelude.{◌≡◌, true, ◌+◌, ◌-◌};
ghost use Rattle.refusal.specs.Refusals.{numbered};
ghost use Rattle.refusal.specs.After.{change_code};
ghost use Rattle.dbf_table.specs.TableLaws.{Shaped};
ghost use Rattle.idx_page.specs.Header.{max_levels, root_offset, key_length, header_good};
ghost use Rattle.idx_page.specs.Within.{Within};
ghost use Rattle.idx_page.specs.Reading.{entries_from};
ghost use Rattle.idx_sound.specs.AuditTest.{max_pages};
ghost use Rattle.idx_keys.specs.Places.{EntriesWithin};
ghost use Rattle.idx_match.specs.Match.{match_refusal, Matched};
ghost use Rattle.idx_match.specs.MatchTest.{entry_at, entry_good, entries_good, entries_match, first_leaf, entries_along, leaf_entries, ColumnInside};

use dbf_table::{FieldType, Shape};
use idx_keys::IndexFile;
use idx_page::{Page, PageOffset};
use refusal::Refusal;

// One field of every record of a table: how many records there are, and the offset and the length that its entry has, as numbers of places.
#[derive(Clone, Copy)]
struct Column {
    records: u32,
    offset: usize,
    length: usize,
}

// Whether entry i of a leaf names a record of the table and has this record's field as its key.
fn entry_good(table: &[u8], index: &[u8], column: Column, page: PageOffset, i: usize) -> bool
    requires { ColumnInside table.now column × Within index.now column.length page.0 (i + 1) }
    ensures { result ≡ entry_good table.now column (entry_at index.now column.length page.0 i) }
{
    let number = idx_page::record_number(index, column.length, page, i).0;
    if !dbf_field::number_good(number as usize, column.records as usize) {
        return false;
    }
    let start = dbf_check::records_end(table, number - 1) + column.offset;
    let end = start + column.length;
    idx_page::compare_entry(index, page, i, &table[start..end]).is_eq()
}

// Whether the first `count` entries of a leaf all do so.
fn leaf_good(table: &[u8], index: &[u8], column: Column, page: PageOffset, count: usize) -> bool
    requires column { ColumnInside table.now column }
    requires within { EntriesWithin index.now column.length page.0 count }
    ensures { result ≡ entries_good table.now column (entries_from index.now column.length page.0 count 0) }
{
    for i in 0..count {
        if !entry_good(table, index, column, page, i) {
            return false;
        }
    }
    true
}

// Whether all entries of the leaves do so, from the leaf `first` on along the right links, and are as many as the records.
fn leaves_good(table: &[u8], file: &IndexFile, column: Column, first: PageOffset) -> bool
    requires column { ColumnInside table.now column }
    requires length { column.length ≡ file.now.key_length }
    ensures { result ≡ entries_match table.now column 0 (entries_along file.now.bytes.now column.length file.now.size max_pages first.0) }
{
    let mut page = first;
    let mut count = 0;
    for _ in 0..idx_page::MAX_PAGES {
        if !file.is_page(page) {
            break;
        }
        let entries = file.entry_count(page);
        if !leaf_good(table, file.bytes, column, page, entries) {
            return false;
        }
        count += entries;
        page = Page::at(file.bytes, page).right;
    }
    count == column.records as usize
}

// The first leaf of an index: down from the root by the first children.
pub fn first_leaf(file: &IndexFile) -> PageOffset
    ensures { result.0 ≡ first_leaf file.now.bytes.now file.now.key_length file.now.size (max_levels - 1) (root_offset file.now.bytes.now) }
{
    let mut page = file.root();
    for _ in 0..idx_page::MAX_LEVELS - 1 {
        if file.leaf_at(page) {
            return page;
        }
        page = file.first_child(page);
    }
    page
}

// Whether the entries of the leaves are one for each record, with the record's field as the key.
fn entries_match(table: &[u8], index: &[u8], column: Column) -> bool
    requires column { ColumnInside table.now column }
    requires header { header_good index.now ≡ true }
    requires length { column.length ≡ key_length index.now }
    ensures { result ≡ entries_match table.now column 0 (leaf_entries index.now) }
{
    let file = IndexFile::new(index);
    leaves_good(table, &file, column, first_leaf(&file))
}

// The checks before the audit, for a table that was checked: the index's header, the field's number, its type and its length, in this order.
fn check_field(table: &[u8], index: &[u8], shape: Shape, field: u32) -> Result<(), Refusal>
    requires { Shaped table.now shape }
    ensures { change_code (numbered result) ≡ match_refusal table.now index.now field }
{
    if !idx_page::header_good(index) {
        return Err(Refusal::IndexHeader);
    }
    if !dbf_field::number_good(field as usize, shape.fields) {
        return Err(Refusal::FieldNumber);
    }
    let entry = dbf_field::entry_at(table, (field - 1) as usize);
    if entry.kind != FieldType::Text.letter() {
        return Err(Refusal::FieldType);
    }
    if entry.length as usize != idx_page::key_length(index) {
        return Err(Refusal::KeyLength);
    }
    Ok(())
}

// The match of an index against a field of a table that was checked.
fn match_checked(table: &[u8], index: &[u8], shape: Shape, field: u32) -> Result<(), Refusal>
    requires { Shaped table.now shape }
    ensures { Matched table.now index.now field (change_code (numbered result)) }
{
    check_field(table, index, shape, field)?;
    idx_audit::audit(index)?;
    let entry = dbf_field::entry_at(table, (field - 1) as usize);
    let column = Column {
        records: shape.records,
        offset: entry.offset as usize,
        length: entry.length as usize,
    };
    if !entries_match(table, index, column) {
        return Err(Refusal::IndexAndTableDiffer);
    }
    Ok(())
}

// The match of an index against a field of a table. Fields are counted from 1.
pub fn match_index(table: &[u8], index: &[u8], field: u32) -> Result<(), Refusal>
    ensures { Matched table.now index.now field (change_code (numbered result)) }
{
    let shape = dbf_check::check_table(table)?;
    match_checked(table, index, shape, field)
}
