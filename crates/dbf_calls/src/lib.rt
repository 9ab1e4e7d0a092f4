// What the calls on a whole table hand to C: the answer's number, and its values in out-parameters; and, by value, those of the calls over lent structs.
#![tactic(auto)]

ghost use Rattle.std.specs.Prelude.{◌<◌, ◌≡◌};
ghost use Rattle.refusal.specs.Refusals.{numbered};
ghost use Rattle.dbf_table.specs.Table.{field_count, table_refusal, check_table};
ghost use Rattle.dbf_field.specs.Field.{entry_of};
ghost use Rattle.dbf_append.specs.Append.{append_rule};
ghost use Rattle.dbf_append.specs.Extent.{extent_rule};
ghost use Rattle.handed.specs.Out.{out};
ghost use Rattle.dbf_calls.specs.Answers.{sizes, shape_out};
ghost use Rattle.dbf_calls.specs.Lent.{plan_of, lent_of, walked_of, live_of};
ghost use Rattle.dbf_calls.specs.LentLaws.{deletion_entry, last_entry};
ghost use Rattle.dbf_calls.specs.Writing.{stores, written, append_out, extent_out};

use dbf_field::FieldEntry;
use dbf_walk::{Position, Record};
use refusal::{DONE, Refusal};

// Whether a table is good: 0, or its refusal.
pub fn table_check(table: &[u8]) -> u32
    ensures { result ≡ table_refusal table.now }
{
    match dbf_check::check_table(table) {
        Ok(_) => 0,
        Err(refusal) => refusal.number(),
    }
}

// How many records and fields a table has, and how long a record is.
#[tactic(auto, unfolding(crate::specs::Answers::shape_out))]
pub fn table_shape(
    table: &[u8],
    records: &mut u32,
    fields: &mut u32,
    record_length: &mut u32,
) -> u32
    ensures { shape_out (check_table table.now) (sizes records.old fields.old record_length.old)
        ≡ out result (sizes records.new fields.new record_length.new) }
{
    match dbf_check::check_table(table) {
        Ok(shape) => {
            *records = shape.records;
            *fields = shape.fields as u32;
            *record_length = shape.record_length as u32;
            0
        }
        Err(refusal) => refusal.number(),
    }
}

// What the field list answers, as the number that C gets, and how many entries it writes: none if it refuses.
#[derive(Clone, Copy)]
pub struct Plan {
    pub answer: u32,
    pub count: usize,
}

// The plan for a table and `room` lent entries.
pub fn listing_plan(table: &[u8], room: usize) -> Plan
    ensures { result ≡ plan_of table.now room }
{
    match dbf_check::check_table(table) {
        Err(refusal) => Plan {
            answer: refusal.number(),
            count: 0,
        },
        Ok(shape) => {
            if room < shape.fields {
                return Plan {
                    answer: Refusal::FieldListTooShort.number(),
                    count: 0,
                };
            }
            Plan {
                answer: 0,
                count: shape.fields,
            }
        }
    }
}

// The deletion byte as an entry: what stands before the first field's.
#[tactic(auto, unfolding(crate::specs::LentLaws::deletion_entry))]
pub fn deletion_entry() -> FieldEntry
    ensures { result ≡ deletion_entry }
{
    FieldEntry {
        name: [0; 11],
        kind: 0,
        length: 1,
        decimals: 0,
        offset: 0,
    }
}

// The entry of field j, from 0, of a good table, after the one before it: it starts where that one ends, so that no offset is added up again.
pub fn next_entry(table: &[u8], j: usize, last: FieldEntry) -> FieldEntry
    requires { (table_refusal table.now ≡ 0) × (j < field_count table.now) × (last ≡ last_entry table.now j) }
    ensures { result ≡ entry_of table.now j }
{
    dbf_field::entry_from(table, j, last.offset + last.length as u16)
}

// A step of the walk as it is handed to C: the answer, the position after the step, the record's number, and its mark, 1 if it is deleted and 0 if not. Number
// and mark stay as they were if the answer is not 0.
#[derive(Clone, Copy)]
pub struct LentStep {
    pub answer: u32,
    pub position: Position,
    pub number: u32,
    pub deleted: u8,
}

// The same without a mark, for the walk that skips deleted records.
#[derive(Clone, Copy)]
pub struct LentLiveStep {
    pub answer: u32,
    pub position: Position,
    pub number: u32,
}

// What a step hands to C, with the number and the mark that are held there.
#[tactic(auto, unfolding(crate::specs::Lent::lent_of))]
fn lent(
    answer: Result<Option<Record>, Refusal>,
    position: Position,
    held: u32,
    mark: u8,
) -> LentStep
    ensures { result ≡ lent_of (record { answer = numbered answer; position = position }) held mark }
{
    match answer {
        Ok(Some(record)) => LentStep {
            answer: 0,
            position,
            number: record.number,
            deleted: record.deleted as u8,
        },
        Ok(None) => LentStep {
            answer: DONE,
            position,
            number: held,
            deleted: mark,
        },
        Err(refusal) => LentStep {
            answer: refusal.number(),
            position,
            number: held,
            deleted: mark,
        },
    }
}

// A step of the walk by value, from a position.
#[tactic(auto, unfolding(crate::specs::Lent::walked_of))]
pub fn lent_step(table: &[u8], mut position: Position, number: u32, deleted: u8) -> LentStep
    ensures { result ≡ walked_of table.now position number deleted }
{
    let answer = dbf_walk::walk_step(table, &mut position);
    lent(answer, position, number, deleted)
}

// A step of the walk that skips deleted records.
#[tactic(auto, unfolding(crate::specs::Lent::live_of, crate::specs::Lent::lent_of))]
pub fn lent_live_step(table: &[u8], mut position: Position, number: u32) -> LentLiveStep
    ensures { result ≡ live_of table.now position number }
{
    let answer = dbf_walk::live_step(table, &mut position);
    let step = lent(answer, position, number, 0);
    LentLiveStep {
        answer: step.answer,
        position: step.position,
        number: step.number,
    }
}

// Appends a record to the table in the buffer's first `table_len` bytes. The two stores are set in the order in which the file must get them.
#[tactic(auto, unfolding(crate::specs::Writing::append_out))]
pub fn table_append(
    buffer: &mut [u8],
    table_len: usize,
    bytes: &[u8],
    record_place: &mut u64,
    record_length: &mut u64,
    count_place: &mut u64,
    count_length: &mut u64,
) -> u32
    ensures { append_out (append_rule buffer.old table_len bytes.now)
        (stores record_place.old record_length.old count_place.old count_length.old)
        ≡ out result (written buffer.new
        (stores record_place.new record_length.new count_place.new count_length.new)) }
{
    match dbf_append::append(buffer, table_len, bytes) {
        Ok(appended) => {
            *record_place = appended.first.place as u64;
            *record_length = appended.first.length as u64;
            *count_place = appended.second.place as u64;
            *count_length = appended.second.length as u64;
            0
        }
        Err(refusal) => refusal.number(),
    }
}

// The length that the host shortens a table's file to after a power loss.
#[tactic(auto, unfolding(crate::specs::Writing::extent_out))]
pub fn table_extent(table: &[u8], length: &mut u64) -> u32
    ensures { extent_out (extent_rule table.now) length.old ≡ out result length.new }
{
    match dbf_append::table_extent(table) {
        Ok(end) => {
            *length = end as u64;
            0
        }
        Err(refusal) => refusal.number(),
    }
}
