// The dilution sheet: what the program `dilute` prints of a table, its index and the four numbers of its standard input. Table and index are checked once, and
// then each record is diluted by what was checked. A text that does not fit the lent buffer is cut off at the buffer's end.
#![tactic(auto)]

pub mod input;
pub mod tally;

ghost use Rattle.std.specs.Prelude.{◌≤◌, ◌≡◌, length};
ghost use Rattle.refusal.specs.Refusals.{refusal_number, numbered};
ghost use Rattle.refusal.specs.Checks.{first_refusal};
ghost use Rattle.dbf_table.specs.Table.{record_count};
ghost use Rattle.octets.specs.Text.{decimal};
ghost use Rattle.dilution.specs.Dilution.{sheet_checks};
ghost use Rattle.dilute_sheet.specs.Output.{wrote, output, Counts};
ghost use Rattle.dilute_sheet.specs.Sheet.{number_text, answer_text, record_line, lines_after, alone_text, request_text, sheet_text};

use dilution::Volumes;
use input::Request;
use refusal::Refusal;

// Writes a text into the buffer from `at` on, as far as there is room, and answers where it ends.
fn put(out: &mut [u8], at: usize, text: &[u8]) -> usize
    ensures { wrote out.old at text.now ≡ output out.new result }
{
    let room = out.len();
    if room <= at {
        return room;
    }
    if text.len() <= room - at {
        octets::copy_in(out, at, text);
        return at + text.len();
    }
    octets::copy_in(out, at, &text[..room - at]);
    room
}

// A number in decimal, not by `write!`: the library's numbers are written by its own writer, whose text is proved.
fn put_decimal(out: &mut [u8], at: usize, number: u32) -> usize
    ensures { wrote out.old at (decimal number) ≡ output out.new result }
{
    let mut text = [b' '; 10];
    let _ = numeral_write::write_number(&mut text, 0, number as i64);
    let from = octets::padding(&text);
    put(out, at, &text[from..])
}

// A blank and a number.
fn put_number(out: &mut [u8], at: usize, number: u32) -> usize
    ensures { wrote out.old at (number_text number) ≡ output out.new result }
{
    let end = put(out, at, b" ");
    put_decimal(out, end, number)
}

// The rest of a line behind its barcode.
fn put_answer(out: &mut [u8], at: usize, answer: Result<Volumes, Refusal>) -> usize
    ensures { wrote out.old at (answer_text (numbered answer)) ≡ output out.new result }
{
    match answer {
        Ok(Volumes { sample, diluent }) => {
            let first = put_number(out, at, sample);
            let second = put_number(out, first, diluent);
            put(out, second, b"\n")
        }
        Err(refusal) => {
            let end = put_number(out, at, refusal.number());
            put(out, end, b"\n")
        }
    }
}

// A refusal as the only line.
fn put_alone(out: &mut [u8], refusal: Refusal) -> usize
    ensures { wrote out.old 0 (alone_text (refusal_number refusal)) ≡ output out.new result }
{
    let end = put_decimal(out, 0, refusal.number());
    put(out, end, b"\n")
}

// The line of record `number`, from 1; nothing for a record that is marked deleted.
fn put_record(
    table: &[u8],
    index: &[u8],
    request: Request,
    number: u32,
    out: &mut [u8],
    at: usize,
) -> usize
    requires { (first_refusal (sheet_checks table.now index.now request.barcode_field request.field) ≡ 0)
        × (1 ≤ number) × (number ≤ record_count table.now) × (at ≤ length out.old) }
    ensures { wrote out.old at (record_line table.now index.now request number) ≡ output out.new result }
{
    let place = dbf_field::place_at(table, number, request.barcode_field);
    if place.mark == dbf_table::DELETED {
        return at;
    }
    let start = place.start;
    let stop = start + place.length as usize;
    let end = put(out, at, &table[start..stop]);
    let answer = dilution::record_dilution(
        table,
        number,
        request.field,
        request.target,
        request.final_volume,
    );
    put_answer(out, end, answer)
}

// The lines of all records of a sheet that is not refused.
fn put_records(table: &[u8], index: &[u8], request: Request, out: &mut [u8]) -> usize
    requires { first_refusal (sheet_checks table.now index.now request.barcode_field request.field) ≡ 0 }
    ensures { wrote out.old 0 (lines_after table.now index.now request 0 (record_count table.now))
        ≡ output out.new result }
{
    let records = dbf_table::record_count(table);
    let mut end = 0;
    for number in 0..records {
        end = put_record(table, index, request, number + 1, out, end);
    }
    end
}

// The sheet of a request: a refusal alone, or the lines of all records.
fn put_request(table: &[u8], index: &[u8], request: Request, out: &mut [u8]) -> usize
    ensures { wrote out.old 0 (request_text table.now index.now request) ≡ output out.new result }
{
    match dilution::check_sheet(table, index, request.barcode_field, request.field) {
        Ok(()) => put_records(table, index, request, out),
        Err(refusal) => put_alone(out, refusal),
    }
}

// Writes the sheet into the lent buffer, and answers how many bytes it has there.
// The buffer is lent, not a `Vec`: no heap in what is proved to fit, and by the theorem `wrote_then` what is written in parts is the whole (DECISIONS).
pub fn sheet(table: &[u8], index: &[u8], input: &[u8], out: &mut [u8]) -> usize
    ensures input_value { wrote out.old 0 (sheet_text table.now index.now input.now) ≡ output out.new result }
    ensures counts { Counts result out.new }
{
    match input::read_input(input) {
        Ok(request) => put_request(table, index, request, out),
        Err(_) => put_alone(out, Refusal::ArgumentsOrFiles),
    }
}
