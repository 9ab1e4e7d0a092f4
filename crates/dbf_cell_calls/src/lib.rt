// What the calls that read a field, and those on numeric text, hand to C: the answer's number, and its values in out-parameters.
#![tactic(auto)]

ghost use Rattle.std.specs.Prelude.{◌≡◌};
ghost use Rattle.refusal.specs.Refusals.{numbered};
ghost use Rattle.refusal.specs.After.{left, coded};
ghost use Rattle.numeral.specs.Reading.{read_number};
ghost use Rattle.numeral.specs.Writing.{write_number};
ghost use Rattle.dbf_cell.specs.Cell.{number_cell, date_cell, logical_cell, text_cell};
ghost use Rattle.handed.specs.Out.{out};
ghost use Rattle.dbf_cell_calls.specs.Answers.{day_of, part, number_out, date_out, logical_out, text_out};

use dbf_cell::TextPlace;
use refusal::{EMPTY, Refusal, change_code};

// The number of an answer that may be a number, which goes to `value`.
#[tactic(auto, unfolding(crate::specs::Answers::number_out, dbf_cell::specs::Codes::number_code))]
fn hand_number(answer: Result<Option<i64>, Refusal>, value: &mut i64) -> u32
    ensures { number_out (numbered answer) value.old ≡ out result value.new }
{
    match answer {
        Ok(Some(read)) => {
            *value = read;
            0
        }
        Ok(None) => EMPTY,
        Err(refusal) => refusal.number(),
    }
}

// The value of an N field.
pub fn read_number(table: &[u8], number: u32, field: u32, value: &mut i64) -> u32
    ensures { number_out (number_cell table.now number field) value.old ≡ out result value.new }
{
    hand_number(dbf_cell::read_number(table, number, field), value)
}

// The day of a D field.
#[tactic(auto, unfolding(crate::specs::Answers::date_out, dbf_cell::specs::Codes::date_code))]
pub fn read_date(
    table: &[u8],
    number: u32,
    field: u32,
    year: &mut u32,
    month: &mut u32,
    day: &mut u32,
) -> u32
    ensures { date_out (date_cell table.now number field) (day_of year.old month.old day.old)
        ≡ out result (day_of year.new month.new day.new) }
{
    match dbf_cell::read_date(table, number, field) {
        Ok(Some(date)) => {
            *year = date.year;
            *month = date.month;
            *day = date.day;
            0
        }
        Ok(None) => EMPTY,
        Err(refusal) => refusal.number(),
    }
}

// The value of an L field: 1 for true, 0 for false.
#[tactic(auto, unfolding(crate::specs::Answers::logical_out, dbf_cell::specs::Codes::logical_code))]
pub fn read_logical(table: &[u8], number: u32, field: u32, value: &mut u8) -> u32
    ensures { logical_out (logical_cell table.now number field) value.old ≡ out result value.new }
{
    match dbf_cell::read_logical(table, number, field) {
        Ok(Some(read)) => {
            *value = u8::from(read);
            0
        }
        Ok(None) => EMPTY,
        Err(refusal) => refusal.number(),
    }
}

// Where a C field's text lies in the table, or an M field's in the memo file.
#[tactic(auto, unfolding(crate::specs::Answers::text_out, dbf_cell::specs::Codes::text_code))]
pub fn text_part(
    table: &[u8],
    memo: &[u8],
    number: u32,
    field: u32,
    start: &mut u64,
    len: &mut u64,
) -> u32
    ensures { text_out (text_cell table.now memo.now number field) (part start.old len.old)
        ≡ out result (part start.new len.new) }
{
    match dbf_cell::text_place(table, memo, number, field) {
        Ok(Some(TextPlace::Table(span) | TextPlace::Memo(span))) => {
            *start = span.start as u64;
            *len = span.len as u64;
            0
        }
        Ok(None) => EMPTY,
        Err(refusal) => refusal.number(),
    }
}

// The value of a numeric text.
pub fn number_read(text: &[u8], decimals: u32, value: &mut i64) -> u32
    ensures { number_out (read_number text.now decimals) value.old ≡ out result value.new }
{
    hand_number(numeral_read::read_number(text, decimals), value)
}

// Writes a value as numeric text into the lent field.
pub fn number_write(text: &mut [u8], decimals: u32, value: i64) -> u32
    ensures { coded (write_number text.old decimals value) ≡ left text.new result }
{
    change_code(numeral_write::write_number(text, decimals, value))
}
