// The verdict on a sheet: how many lines it has and how many of them are refusals, or the number that refuses the whole sheet.
ghost use Rattle.std.specs.Prelude.{◌≤◌, ◌≡◌};
ghost use Rattle.refusal.specs.Refusals.{numbered};
ghost use Rattle.refusal.specs.Checks.{first_refusal};
ghost use Rattle.dbf_table.specs.Table.{record_count};
ghost use Rattle.dilution.specs.Dilution.{sheet_checks};
ghost use Rattle.dilute_sheet.specs.Tally.{refusals, tally, lines_at, refused_at, tally_of, request_verdict, verdict_of};

use crate::input::Request;
use dilution::Volumes;
use refusal::Refusal;

// How many lines there are, and how many of them are refusals.
#[derive(Clone, Copy, Debug, PartialEq, Eq)]
pub struct Tally {
    pub lines: u32,
    pub refused: u32,
}

// 1 for a refusal, 0 for volumes.
#[tactic(auto, unfolding(crate::specs::Tally::refusals))]
fn count_refusal(answer: Result<Volumes, Refusal>) -> u32
    ensures { result ≡ refusals (numbered answer) }
{
    match answer {
        Ok(_) => 0,
        Err(_) => 1,
    }
}

// Record `number`, from 1: one line, or none if it is marked deleted.
fn tally_record(table: &[u8], index: &[u8], request: Request, number: u32) -> Tally
    requires { (first_refusal (sheet_checks table.now index.now request.barcode_field request.field) ≡ 0)
        × (1 ≤ number) × (number ≤ record_count table.now) }
    ensures { result ≡ tally (lines_at table.now number) (refused_at table.now index.now request number) }
{
    let place = dbf_field::place_at(table, number, request.barcode_field);
    if place.mark == dbf_table::DELETED {
        return Tally {
            lines: 0,
            refused: 0,
        };
    }
    let answer = dilution::record_dilution(
        table,
        number,
        request.field,
        request.target,
        request.final_volume,
    );
    Tally {
        lines: 1,
        refused: count_refusal(answer),
    }
}

// All records of a sheet that is not refused.
fn tally_records(table: &[u8], index: &[u8], request: Request) -> Tally
    requires { first_refusal (sheet_checks table.now index.now request.barcode_field request.field) ≡ 0 }
    ensures { result ≡ tally_of table.now index.now request }
{
    let records = dbf_table::record_count(table);
    let mut lines = 0;
    let mut refused = 0;
    for number in 0..records {
        let one = tally_record(table, index, request, number + 1);
        lines += one.lines;
        refused += one.refused;
    }
    Tally { lines, refused }
}

fn request_verdict(table: &[u8], index: &[u8], request: Request) -> Result<Tally, Refusal>
    ensures { numbered result ≡ request_verdict table.now index.now request }
{
    dilution::check_sheet(table, index, request.barcode_field, request.field)?;
    Ok(tally_records(table, index, request))
}

// The verdict on the sheet that `sheet` writes of the same table, index and input: its lines, or what refuses the whole sheet and is its only line.
pub fn sheet_verdict(table: &[u8], index: &[u8], input: &[u8]) -> Result<Tally, Refusal>
    ensures { numbered result ≡ verdict_of table.now index.now input.now }
{
    let request = crate::input::read_input(input)?;
    request_verdict(table, index, request)
}
