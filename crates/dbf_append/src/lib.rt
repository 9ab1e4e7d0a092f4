// Writing to a table: a record more at its end, another update date, and the length that a file is shortened to after a power loss.
//
// The table lies at the front of a buffer that may be longer. An append makes two stores and answers both, so that the host can make them in its
// file: the record with the end mark first, the four count bytes last.
#![tactic(auto)]

ghost use Rattle.std.specs.Prelude.{◌+◌, ◌≤◌, ◌<◌, ◌≡◌, length};
ghost use Rattle.refusal.specs.Refusals.{numbered};
ghost use Rattle.refusal.specs.After.{left, change_code};
ghost use Rattle.dbf_table.specs.Table.{field_count, record_length_of, table_refusal, check_table};
ghost use Rattle.dbf_append.specs.Append.{check_held, text_refusal, texts_refusal};
ghost use Rattle.dbf_append.specs.Append.{room_for, record_refusal, append_refusal, Appendable, stored, append_rule};
ghost use Rattle.dbf_append.specs.UpdateDate.{set_date_rule};
ghost use Rattle.dbf_append.specs.Extent.{form_refusal, extent_rule};

use dbf_table::{COUNT_AT, DATE_AT, FieldType, Shape};
use refusal::Refusal;

const COUNT_LENGTH: usize = 4;

// A store: `length` of the buffer's bytes, from offset `place` on.
#[derive(Clone, Copy, Debug, PartialEq, Eq)]
pub struct Store {
    pub place: usize,
    pub length: usize,
}

// The two stores of an append, in the order in which the file must get them.
#[derive(Clone, Copy, Debug, PartialEq, Eq)]
pub struct Appended {
    pub first: Store,
    pub second: Store,
}

// The shape of the table in the buffer's first `table_len` bytes.
fn check_held(buffer: &[u8], table_len: usize) -> Result<Shape, Refusal>
    ensures { numbered result ≡ check_held buffer.now table_len }
{
    if buffer.len() < table_len {
        return Err(Refusal::TableLength);
    }
    dbf_check::check_table(&buffer[..table_len])
}

// Whether a field with this letter and this decimal count may hold a text. A memo's number alone is looked at: there is no memo file.
fn check_text(letter: u8, decimals: u32, text: &[u8]) -> Result<(), Refusal>
    requires { 1 ≤ length text.now }
    ensures { change_code (numbered result) ≡ text_refusal letter decimals text.now }
{
    match FieldType::of_letter(letter) {
        Some(FieldType::Number) => {
            numeral_read::read_number(text, decimals)?;
        }
        Some(FieldType::Date) => {
            calendar::read_date(text)?;
        }
        Some(FieldType::Logical) => {
            dbf_cell::logical_of(octets::byte(text, 0))?;
        }
        Some(FieldType::Memo) => {
            fpt_memo::read_number(text)?;
        }
        Some(FieldType::Text) => {}
        None => {}
    }
    Ok(())
}

// Whether the fields may hold the texts of a record.
fn check_texts(table: &[u8], fields: usize, bytes: &[u8]) -> Result<(), Refusal>
    requires { (table_refusal table.now ≡ 0) × (fields ≡ field_count table.now) × (length bytes.now ≡ record_length_of table.now) }
    ensures { change_code (numbered result) ≡ texts_refusal table.now bytes.now 0 fields }
{
    let mut offset = dbf_field::FIRST_OFFSET;
    for j in 0..fields {
        let entry = dbf_field::entry_from(table, j, offset);
        let start = entry.offset as usize;
        let end = start + entry.length as usize;
        check_text(entry.kind, entry.decimals as u32, &bytes[start..end])?;
        offset = end as u16;
    }
    Ok(())
}

// Whether a table that ends there fits the buffer and the greatest length of a table.
#[tactic(auto, unfolding(crate::specs::Append::room_for))]
fn room_for(end: usize, room: usize) -> bool
    ensures { result ≡ room_for end room }
{
    end <= room && end <= dbf_table::MAX_TABLE
}

// Whether a good table in a buffer of `room` bytes takes a record.
fn check_record(table: &[u8], shape: Shape, room: usize, bytes: &[u8]) -> Result<(), Refusal>
    requires { check_table table.now ≡ Ok shape }
    ensures { change_code (numbered result) ≡ record_refusal table.now room bytes.now }
{
    if bytes.len() != shape.record_length {
        return Err(Refusal::RecordLength);
    }
    if !dbf_cell::mark_good(octets::byte(bytes, 0)) {
        return Err(Refusal::DeletionByte);
    }
    check_texts(table, shape.fields, bytes)?;
    let end = dbf_check::records_end(table, shape.records + 1) + 1;
    if !room_for(end, room) {
        return Err(Refusal::NoRoom);
    }
    Ok(())
}

// Whether a record may be appended.
fn check_append(buffer: &[u8], table_len: usize, bytes: &[u8]) -> Result<(), Refusal>
    ensures { change_code (numbered result) ≡ append_refusal buffer.now table_len bytes.now }
{
    let shape = check_held(buffer, table_len)?;
    check_record(&buffer[..table_len], shape, buffer.len(), bytes)
}

// Makes the two stores.
fn store_record(buffer: &mut [u8], bytes: &[u8]) -> Appended
    requires { Appendable buffer.old bytes.now }
    ensures { stored buffer.old bytes.now ≡ left buffer.new (Ok result) }
{
    let records = octets::load_le32(buffer, COUNT_AT);
    let place = dbf_check::records_end(buffer, records);
    octets::copy_in(buffer, place, bytes);
    buffer[place + bytes.len()] = dbf_table::FILE_END;
    octets::store_le32(buffer, COUNT_AT, records + 1);
    let length = bytes.len() + 1;
    let record_store = Store { place, length };
    let count_store = Store {
        place: COUNT_AT,
        length: COUNT_LENGTH,
    };
    Appended {
        first: record_store,
        second: count_store,
    }
}

// Appends a record, given as its bytes, to the table in the buffer's first `table_len` bytes.
pub fn append(buffer: &mut [u8], table_len: usize, bytes: &[u8]) -> Result<Appended, Refusal>
    ensures { append_rule buffer.old table_len bytes.now ≡ left buffer.new (numbered result) }
{
    check_append(buffer, table_len, bytes)?;
    Ok(store_record(buffer, bytes))
}

// Sets the update date of the table in the buffer's first `table_len` bytes.
pub fn set_date(
    buffer: &mut [u8],
    table_len: usize,
    year: u32,
    month: u32,
    day: u32,
) -> Result<(), Refusal>
    ensures { set_date_rule buffer.old table_len year month day ≡ left buffer.new (change_code (numbered result)) }
{
    check_held(buffer, table_len)?;
    if !dbf_table::storable_date(year, month, day) {
        return Err(Refusal::UpdateDate);
    }
    buffer[DATE_AT] = (year - dbf_table::FIRST_YEAR) as u8;
    buffer[DATE_AT + 1] = month as u8;
    buffer[DATE_AT + 2] = day as u8;
    Ok(())
}

// Every check of a table but that of its length.
fn check_form(table: &[u8]) -> Result<(), Refusal>
    ensures { change_code (numbered result) ≡ form_refusal table.now }
{
    match dbf_check::check_table(table) {
        Ok(_) => Ok(()),
        Err(refusal) => match refusal {
            Refusal::TableLength => Ok(()),
            _ => Err(refusal),
        },
    }
}

// The length of the table at the front of a file, without its end mark, by the file's own count: what the host shortens the file to after a power loss.
pub fn table_extent(table: &[u8]) -> Result<usize, Refusal>
    ensures { numbered result ≡ extent_rule table.now }
{
    check_form(table)?;
    let end = dbf_check::records_end(table, octets::load_le32(table, COUNT_AT));
    if table.len() < end {
        Err(Refusal::TableLength)
    } else {
        Ok(end)
    }
}
