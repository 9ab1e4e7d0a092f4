// What the program `inspect` prints of a table and its memo file: a line for the check, the shape, each field, each record and each value; and the line of
// an index's answer. The library decides; this module only spells its answers out.
//
// It reads records by the calls for a table that was checked. A function that prints lines answers how many of them have a refusal.
ghost use Rattle.std.specs.Prelude.{◌*◌, ◌≤◌, ◌≡◌};
ghost use Rattle.dbf_table.specs.Table.{max_fields, table_refusal, record_count, field_count};
ghost use Rattle.dbf_field.specs.Field.{PlaceGood, PlaceInside};

use crate::line::Output;
use crate::shown::{Day, Decimal, Quoted, Refused, Shown, is_plain};
use dbf_field::{FieldEntry, Place};
use dbf_table::{DELETED, FieldType, KEPT};
use refusal::Refusal;
use std::fmt::Display;
use std::str;

// A line of a word and an answer: 0, or a refusal.
pub fn answer_line<P: Print>(out: &Output<'_, P>, word: &str, answer: Result<(), Refusal>) -> u64
    ensures { result ≤ 1 }
{
    match answer {
        Ok(()) => out.print_line(format_args!("{word} 0")),
        Err(refusal) => out.print_line(format_args!("{word} {}", Refused(refusal))),
    }
    u64::from(answer.is_err())
}

// A table that was checked, its memo file if there is one, and what prints their lines.
#[derive(Drop)]
struct Report<'a, 'b, P> {
    out: &'a Output<'b, P>,
    table: &'a [u8],
    memo: Option<&'a [u8]>,
}

impl<P: Print> Report<'_, '_, P> {
    // The line of field j of a record: the value, or that it has none.
    fn cell_line<T: Display + Drop>(
        &self,
        number: u32,
        j: u32,
        cell: Result<Option<T>, Refusal>,
    ) -> u64
        ensures { result ≤ 1 }
    {
        let problems = u64::from(cell.is_err());
        self.out
            .print_line(format_args!("value {number} {j} {}", Shown(cell)));
        problems
    }

    // The line of field j of a record, read by the call for the field's type. An M field is read only if there is a memo file.
    fn value_line(&self, number: u32, j: u32) -> u64
        requires { PlaceGood self.now.table.now number j }
        ensures { result ≤ 1 }
    {
        let place = dbf_field::place_at(self.table, number, j);
        match FieldType::of_letter(place.kind) {
            Some(FieldType::Number) => self.cell_line(number, j, self.number(place)),
            Some(FieldType::Date) => {
                let date = dbf_cell::date_at(self.table, place);
                self.cell_line(number, j, date.map(|date| date.map(Day)))
            }
            Some(FieldType::Logical) => {
                let logical = dbf_cell::logical_at(self.table, place);
                self.cell_line(number, j, logical.map(|value| value.map(letter)))
            }
            Some(FieldType::Memo) if self.memo.is_none() => {
                self.out
                    .print_line(format_args!("value {number} {j} unread"));
                0
            }
            _ => self.cell_line(number, j, self.text(place)),
        }
    }

    fn number(&self, place: Place) -> Result<Option<Decimal>, Refusal>
        requires { PlaceInside self.now.table.now place }
    {
        let decimals = u32::from(place.decimals);
        let number = dbf_cell::number_at(self.table, place)?;
        Ok(number.map(|value| Decimal { value, decimals }))
    }

    fn text(&self, place: Place) -> Result<Option<Quoted<'_>>, Refusal>
        requires { PlaceInside self.now.table.now place }
    {
        let memo = self.memo.unwrap_or(b"");
        let found = dbf_cell::text_at(self.table, memo, place);
        let text = dbf_cell::text_part(self.table, memo, found);
        Ok(found?.map(|_| Quoted(text)))
    }

    // The lines of the fields of a record, from 1 to `last`.
    fn value_lines(&self, number: u32, last: u32) -> u64
        requires { PlaceGood self.now.table.now number last }
        ensures { result ≤ last }
    {
        let mut problems = 0;
        for j in 0..last {
            problems += self.value_line(number, j + 1);
        }
        problems
    }

    // The line of a record and, if its deletion byte is good, the lines of its fields from 1 to `last`. The byte comes with the place of field 1, which every
    // table has.
    fn record_lines(&self, number: u32, last: u32) -> u64
        requires { PlaceGood self.now.table.now number last }
        ensures { result ≤ last }
    {
        let place = dbf_field::place_at(self.table, number, 1);
        match mark_word(place.mark) {
            Ok(mark) => self.out.print_line(format_args!("record {number} {mark}")),
            Err(refusal) => {
                self.out
                    .print_line(format_args!("record {number} {}", Refused(refusal)));
                return 1;
            }
        }
        self.value_lines(number, last)
    }

    // The lines of all records and their fields.
    fn all_records(&self, records: u32, fields: u32) -> u64
        requires { (table_refusal self.now.table.now ≡ 0) × (records ≡ record_count self.now.table.now)
            × (fields ≡ field_count self.now.table.now) }
        ensures { result ≤ max_fields * records }
    {
        let mut problems = 0;
        for number in 0..records {
            problems += self.record_lines(number + 1, fields);
        }
        problems
    }

    // The line of field j, from 1. A checked table has an entry for each of its fields.
    fn field_line(&self, j: u32) {
        let Ok(entry) = dbf_field::field_entry(self.table, j) else {
            return;
        };
        let FieldEntry {
            name,
            kind,
            length,
            decimals,
            ..
        } = entry;
        let kind = char::from(kind);
        self.out.print_line(format_args!(
            "field {j} {} {kind} {length} {decimals}",
            field_name(&name)
        ));
    }
}

fn letter(value: bool) -> char {
    if value { 'T' } else { 'F' }
}

// What a deletion byte says of its record.
fn mark_word(mark: u32) -> Result<&'static str, Refusal> {
    match mark {
        KEPT => Ok("live"),
        DELETED => Ok("deleted"),
        _ => Err(Refusal::DeletionByte),
    }
}

// A field's name: its characters are plain, and the zeros behind them are not.
fn field_name(name: &[u8]) -> &str {
    let end = name
        .iter()
        .position(|byte| !is_plain(*byte))
        .unwrap_or(name.len());
    str::from_utf8(&name[..end]).unwrap_or("")
}

// All lines of a table and its memo file. A refused table has one line, its refusal.
pub fn table_report<P: Print>(out: &Output<'_, P>, table: &[u8], memo: Option<&[u8]>) -> u64
    ensures { result ≤ max_fields * 4294967295 }
{
    let shape = match dbf_check::check_table(table) {
        Ok(shape) => shape,
        Err(refusal) => return answer_line(out, "table", Err(refusal)),
    };
    let records = shape.records;
    let fields = shape.fields as u32;
    let record_length = shape.record_length;
    out.print_line(format_args!("table 0"));
    out.print_line(format_args!("shape {records} {fields} {record_length}"));
    let report = Report { out, table, memo };
    for j in 0..fields {
        report.field_line(j + 1);
    }
    report.all_records(records, fields)
}
