// The C interface: what the firmware and every host program call. Each function calls the library on what it was lent, returns the number of the answer, and
// writes the answer's values to its out-parameters. An out-parameter keeps what it held whenever the answer is not 0, but for the pages of a lookup.
//
// How to read a contract: `result` is the number returned; `x.old` is what x held before the call, and `x.new` what it holds after it; `x.now` is what x holds
// that is only read. So `number_out (rule) value.old ≡ out result value.new` says: the rule's answer and the old value alone fix the result and the new value.
#![tactic(auto)]

ghost use Rattle.std.specs.Prelude.{◌≡◌};
ghost use Rattle.numeral.specs.Reading.{read_number};
ghost use Rattle.numeral.specs.Writing.{write_number};
ghost use Rattle.dbf_table.specs.Table.{table_refusal, check_table};
ghost use Rattle.dbf_cell.specs.Cell.{number_cell, date_cell, logical_cell, text_cell};
ghost use Rattle.idx_lookup.specs.Lookup.{lookup_rule};
ghost use Rattle.idx_sound.specs.Sound.{Audited};
ghost use Rattle.idx_insert.specs.Calls.{insert_rule};
ghost use Rattle.idx_insert.specs.Fresh.{fresh_rule};
ghost use Rattle.idx_remove.specs.Calls.{remove_rule};
ghost use Rattle.idx_match.specs.Match.{Matched};
ghost use Rattle.idx_records.specs.Records.{told, records_rule};
ghost use Rattle.dilution.specs.Dilution.{volumes, dilute_rule};
ghost use Rattle.ndx_page.specs.Lookup as ndx-lookup;
ghost use Rattle.ndx_sound.specs.Sound as ndx;
ghost use Rattle.refusal.specs.After.{left, coded};
ghost use Rattle.dbf_append.specs.Append.{append_rule};
ghost use Rattle.dbf_append.specs.UpdateDate.{set_date_rule};
ghost use Rattle.dbf_append.specs.Extent.{extent_rule};
ghost use Rattle.dbf_create.specs.Laying.{lay_out_rule};
ghost use Rattle.handed.specs.Out.{out};
ghost use Rattle.dbf_calls.specs.Answers.{sizes, shape_out};
ghost use Rattle.dbf_calls.specs.Lent.{listing, walked_of, live_of};
ghost use Rattle.dbf_calls.specs.Writing.{stores, written, append_out, extent_out};
ghost use Rattle.dbf_cell_calls.specs.Answers.{day_of, part, number_out, date_out, logical_out, text_out};
ghost use Rattle.index_calls.specs.Answers.{found, lookup_out};
ghost use Rattle.dilute_call.specs.Volumes.{volumes_out};
ghost use Rattle.gatherloom.specs.Interface.{interface_number};

use dbf_field::FieldEntry;
use dbf_walk::Position;
use refusal::change_code;

// The number of this interface, GL_INTERFACE in the header.
const INTERFACE: u32 = 4;

// The interface of this archive: a host compares it with GL_INTERFACE before its first call.
#[unsafe(no_mangle)]
pub extern "C" fn gl_interface() -> u32
    ensures { result ≡ interface_number }
{
    INTERFACE
}

// Whether a table is good: 0, or its refusal.
#[unsafe(no_mangle)]
pub extern "C" fn gl_table_check(table: &[u8]) -> u32
    ensures { result ≡ table_refusal table.now }
{
    dbf_calls::table_check(table)
}

// How many records and fields a table has, and how long a record is.
#[unsafe(no_mangle)]
pub extern "C" fn gl_table_shape(
    table: &[u8],
    records: &mut u32,
    fields: &mut u32,
    record_length: &mut u32,
) -> u32
    ensures { shape_out (check_table table.now) (sizes records.old fields.old record_length.old)
        ≡ out result (sizes records.new fields.new record_length.new) }
{
    dbf_calls::table_shape(table, records, fields, record_length)
}

// Writes the field list into the entries that the host lends.
#[unsafe(no_mangle)]
pub extern "C" fn gl_fields(table: &[u8], entries: &mut [FieldEntry]) -> u32
    ensures { listing table.now entries.old ≡ record { answer = result; entries = entries.new } }
{
    let plan = dbf_calls::listing_plan(table, entries.len());
    let mut last = dbf_calls::deletion_entry();
    for j in 0..plan.count {
        last = dbf_calls::next_entry(table, j, last);
        entries[j] = last;
    }
    plan.answer
}

// One step of the walk, which hands out every record with a mark: 1 if it is deleted, 0 if not. The position belongs to the host, and each call moves it on the
// spot.
#[unsafe(no_mangle)]
pub extern "C" fn gl_walk(
    table: &[u8],
    position: &mut Position,
    number: &mut u32,
    deleted: &mut u8,
) -> u32
    ensures { walked_of table.now position.old number.old deleted.old
        ≡ record { answer = result; position = position.new; number = number.new; deleted = deleted.new } }
{
    let step = dbf_calls::lent_step(table, *position, *number, *deleted);
    *position = step.position;
    *number = step.number;
    *deleted = step.deleted;
    step.answer
}

// One step of the walk that skips deleted records.
#[unsafe(no_mangle)]
pub extern "C" fn gl_walk_live(table: &[u8], position: &mut Position, number: &mut u32) -> u32
    ensures { live_of table.now position.old number.old
        ≡ record { answer = result; position = position.new; number = number.new } }
{
    let step = dbf_calls::lent_live_step(table, *position, *number);
    *position = step.position;
    *number = step.number;
    step.answer
}

// The value of an N field.
#[unsafe(no_mangle)]
pub extern "C" fn gl_read_number(table: &[u8], number: u32, field: u32, value: &mut i64) -> u32
    ensures { number_out (number_cell table.now number field) value.old ≡ out result value.new }
{
    dbf_cell_calls::read_number(table, number, field, value)
}

// The day of a D field.
#[unsafe(no_mangle)]
pub extern "C" fn gl_read_date(
    table: &[u8],
    number: u32,
    field: u32,
    year: &mut u32,
    month: &mut u32,
    day: &mut u32,
) -> u32
    ensures { date_out (date_cell table.now number field) (day_of year.old month.old day.old)
        ≡ out result (day_of year.new month.new day.new) }
{
    dbf_cell_calls::read_date(table, number, field, year, month, day)
}

// The value of an L field: 1 for true, 0 for false.
#[unsafe(no_mangle)]
pub extern "C" fn gl_read_logical(table: &[u8], number: u32, field: u32, value: &mut u8) -> u32
    ensures { logical_out (logical_cell table.now number field) value.old ≡ out result value.new }
{
    dbf_cell_calls::read_logical(table, number, field, value)
}

// Where a C field's text lies in the table, or an M field's in the memo file.
#[unsafe(no_mangle)]
pub extern "C" fn gl_text_part(
    table: &[u8],
    memo: &[u8],
    number: u32,
    field: u32,
    start: &mut u64,
    len: &mut u64,
) -> u32
    ensures { text_out (text_cell table.now memo.now number field) (part start.old len.old)
        ≡ out result (part start.new len.new) }
{
    dbf_cell_calls::text_part(table, memo, number, field, start, len)
}

// The value of a numeric text.
#[unsafe(no_mangle)]
pub extern "C" fn gl_number_read(text: &[u8], decimals: u32, value: &mut i64) -> u32
    ensures { number_out (read_number text.now decimals) value.old ≡ out result value.new }
{
    dbf_cell_calls::number_read(text, decimals, value)
}

// Writes a value as numeric text into the lent field.
#[unsafe(no_mangle)]
pub extern "C" fn gl_number_write(text: &mut [u8], decimals: u32, value: i64) -> u32
    ensures { coded (write_number text.old decimals value) ≡ left text.new result }
{
    dbf_cell_calls::number_write(text, decimals, value)
}

// Makes a fresh index, with one record to a key (features 1) or several (features 0).
#[unsafe(no_mangle)]
pub extern "C" fn gl_index_fresh(
    index: &mut [u8],
    key_length: u32,
    features: u32,
    expression: &[u8],
) -> u32
    ensures { coded (fresh_rule index.old key_length features expression.now) ≡ left index.new result }
{
    index_calls::index_fresh(index, key_length, features, expression)
}

// Audits an index: 24, 25, or 0 if it is sound.
#[unsafe(no_mangle)]
pub extern "C" fn gl_index_audit(index: &[u8]) -> u32
    ensures { Audited index.now result }
{
    change_code(idx_audit::audit(index))
}

// Looks a key up: the number of its record, and the pages visited, which are also written if the key is absent.
#[unsafe(no_mangle)]
pub extern "C" fn gl_index_lookup(
    index: &[u8],
    key: &[u8],
    number: &mut u32,
    pages: &mut u32,
) -> u32
    ensures { lookup_out (lookup_rule index.now key.now) (found number.old pages.old)
        ≡ out result (found number.new pages.new) }
{
    index_calls::index_lookup(index, key, number, pages)
}

// Inserts a key with its record's number.
#[unsafe(no_mangle)]
pub extern "C" fn gl_index_insert(index: &mut [u8], key: &[u8], number: u32) -> u32
    ensures { coded (insert_rule index.old key.now number) ≡ left index.new result }
{
    index_calls::index_insert(index, key, number)
}

// Strikes a pair off; with one record to a key the number is not looked at.
#[unsafe(no_mangle)]
pub extern "C" fn gl_index_remove(index: &mut [u8], key: &[u8], number: u32) -> u32
    ensures { coded (remove_rule index.old key.now number) ≡ left index.new result }
{
    index_calls::index_remove(index, key, number)
}

// All records of a key, in order, into a list, and how many they are; entries of the list past them stay.
#[unsafe(no_mangle)]
pub extern "C" fn gl_index_records(
    index: &[u8],
    key: &[u8],
    list: &mut [u32],
    count: &mut u32,
) -> u32
    ensures { records_rule index.now key.now list.old count.old ≡ told result list.new count.new }
{
    match idx_records::records(index, key, list) {
        Ok(n) => {
            *count = n;
            0
        }
        Err(refusal) => refusal.number(),
    }
}

// Matches an index against a field of a table: 0 if each record has exactly one entry, its key that record's field, and there are no others.
#[unsafe(no_mangle)]
pub extern "C" fn gl_match(table: &[u8], index: &[u8], field: u32) -> u32
    ensures { Matched table.now index.now field result }
{
    change_code(idx_match::match_index(table, index, field))
}

// The dilution of one barcode: the volumes of sample and diluent, in tenths of a microlitre.
#[unsafe(no_mangle)]
pub extern "C" fn gl_dilute(
    table: &[u8],
    index: &[u8],
    barcode_field: u32,
    concentration_field: u32,
    barcode: &[u8],
    target: u64,
    final_volume: u64,
    sample: &mut u32,
    diluent: &mut u32,
) -> u32
    ensures { volumes_out
        (dilute_rule table.now index.now barcode_field concentration_field barcode.now target final_volume)
        (volumes sample.old diluent.old)
        ≡ out result (volumes sample.new diluent.new) }
{
    dilute_call::dilute(
        table,
        index,
        barcode_field,
        concentration_field,
        barcode,
        target,
        final_volume,
        sample,
        diluent,
    )
}

// Appends a record to the table in the buffer's first `table_len` bytes. The two stores are set in the order in which the file must get them.
#[unsafe(no_mangle)]
pub extern "C" fn gl_table_append(
    buffer: &mut [u8],
    table_len: usize,
    bytes: &[u8],
    record_place: &mut u64,
    record_length: &mut u64,
    count_place: &mut u64,
    count_length: &mut u64,
) -> u32
    ensures { append_out (append_rule buffer.old table_len bytes.now)
        (stores record_place.old record_length.old count_place.old count_length.old)
        ≡ out result (written buffer.new
        (stores record_place.new record_length.new count_place.new count_length.new)) }
{
    dbf_calls::table_append(
        buffer,
        table_len,
        bytes,
        record_place,
        record_length,
        count_place,
        count_length,
    )
}

// Sets the update date of the table in the buffer's first `table_len` bytes.
#[unsafe(no_mangle)]
pub extern "C" fn gl_table_set_date(
    buffer: &mut [u8],
    table_len: usize,
    year: u32,
    month: u32,
    day: u32,
) -> u32
    ensures { set_date_rule buffer.old table_len year month day ≡ left buffer.new result }
{
    change_code(dbf_append::set_date(buffer, table_len, year, month, day))
}

// The length that the host shortens a table's file to after a power loss.
#[unsafe(no_mangle)]
pub extern "C" fn gl_table_extent(table: &[u8], length: &mut u64) -> u32
    ensures { extent_out (extent_rule table.now) length.old ≡ out result length.new }
{
    dbf_calls::table_extent(table, length)
}

// Lays out an empty table with the fields that the host lists: 0, or the number of the refusal, which changes nothing.
#[unsafe(no_mangle)]
pub extern "C" fn gl_table_lay_out(
    buffer: &mut [u8],
    entries: &[FieldEntry],
    year: u32,
    month: u32,
    day: u32,
) -> u32
    ensures { lay_out_rule buffer.old entries.now year month day ≡ left buffer.new result }
{
    let given = entries.len();
    let count = dbf_create::listed_count(given);
    let mut room = dbf_create::no_fields();
    for j in 0..count {
        dbf_create::write_field(&mut room, j, entries[j]);
    }
    change_code(dbf_create::lay_out(buffer, &mut room, given, year, month, day))
}

// Audits an NDX index: 24, 25, or 0 if it is sound.
#[unsafe(no_mangle)]
pub extern "C" fn gl_ndx_audit(index: &[u8]) -> u32
    ensures { ndx.Audited index.now result }
{
    index_calls::audit_ndx(index)
}

// Looks a key up in an NDX index: the number of its record, and the pages visited, which are also written if the key is absent.
#[unsafe(no_mangle)]
pub extern "C" fn gl_ndx_lookup(index: &[u8], key: &[u8], number: &mut u32, pages: &mut u32) -> u32
    ensures { lookup_out (ndx-lookup.lookup_rule index.now key.now) (found number.old pages.old)
        ≡ out result (found number.new pages.new) }
{
    index_calls::ndx_lookup(index, key, number, pages)
}
