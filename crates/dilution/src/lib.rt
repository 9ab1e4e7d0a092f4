// The dilution of one sample, document 02, K11: the volumes of sample and diluent that give a target concentration in a final volume. Volumes are in tenths
// of a microlitre, concentrations in thousandths of nM.
//
// `dilute` makes all checks for one barcode. A sheet of many records is checked once by `sheet_refusal`, and then each record is diluted by
// `record_dilution`, which gives the very answer of `dilute` for the record's barcode.
#![tactic(auto)]

ghost use Rattle.std.specs.Prelude.{◌≡◌, ◌&&◌, eqb, true, ◌≤◌, ◌<◌, length};
ghost use Rattle.refusal.specs.Checks.{first_refusal};
ghost use Rattle.refusal.specs.Refusals.{numbered};
ghost use Rattle.refusal.specs.After.{change_code};
ghost use Rattle.idx_page.specs.Header.{key_length, header_good};
ghost use Rattle.dbf_table.specs.Table.{type_n, table_refusal};
ghost use Rattle.dilution.specs.Dilution.{concentration_decimals, max_target, max_final, sample_of, volumes_of, in_range, concentration_of, amount_of};
ghost use Rattle.dilution.specs.Dilution.{distinct_index, header_checks, field_checks, sheet_checks, record_with};
ghost use Rattle.dilution.specs.Dilution.{dilution_of, record_dilution, dilute_rule, Dilutable};

use dbf_table::FieldType;
use refusal::Refusal;

// The decimals of a concentration's field.
const DECIMALS: u8 = 3;

const MAX_TARGET: u64 = 1000000000;

const MAX_FINAL: u64 = 10000;

// The volumes of sample and diluent.
#[derive(Clone, Copy, Debug, PartialEq, Eq)]
pub struct Volumes {
    pub sample: u32,
    pub diluent: u32,
}

// Whether a field with this type and this decimal count may be a concentration's.
fn is_concentration(kind: u8, decimals: u8) -> bool
    ensures { result ≡ eqb kind type_n && eqb decimals concentration_decimals }
{
    kind == FieldType::Number.letter() && decimals == DECIMALS
}

// The check of the concentration's field in a table that was checked: 12, 13.
fn check_field(table: &[u8], field: u32) -> Result<(), Refusal>
    requires { table_refusal table.now ≡ 0 }
    ensures { change_code (numbered result) ≡ first_refusal (field_checks table.now field) }
{
    let entry = dbf_field::field_entry(table, field)?;
    if is_concentration(entry.kind, entry.decimals) {
        Ok(())
    } else {
        Err(Refusal::FieldType)
    }
}

// Whether an index has a good header that says one record to a key.
fn is_distinct(index: &[u8]) -> bool
    ensures { result ≡ distinct_index index.now }
{
    idx_page::header_good(index) && !idx_page::several(index)
}

// The checks of a table and of an index's header: 1 to 10, 24.
fn check_headers(table: &[u8], index: &[u8]) -> Result<(), Refusal>
    ensures { change_code (numbered result) ≡ first_refusal (header_checks table.now index.now) }
{
    dbf_check::check_table(table)?;
    if is_distinct(index) {
        Ok(())
    } else {
        Err(Refusal::IndexHeader)
    }
}

// The checks of a whole sheet: the match's, 24 for several records to a key, 12, 13.
pub fn check_sheet(
    table: &[u8],
    index: &[u8],
    barcode_field: u32,
    field: u32,
) -> Result<(), Refusal>
    ensures { change_code (numbered result) ≡ first_refusal (sheet_checks table.now index.now barcode_field field) }
{
    check_headers(table, index)?;
    idx_match::match_index(table, index, barcode_field)?;
    check_field(table, field)
}

// Whether target and final volume are in their ranges.
#[tactic(auto, unfolding(crate::specs::Dilution::in_range))]
fn in_range(target: u64, final_volume: u64) -> bool
    ensures { result ≡ in_range target final_volume }
{
    1 <= target && target <= MAX_TARGET && 1 <= final_volume && final_volume <= MAX_FINAL
}

// The sample's volume: target × final ÷ concentration to the nearest tenth, halves up. Nothing overflows, whatever the concentration: target × final is at most
// 10¹³.
fn sample_of(concentration: u64, target: u64, final_volume: u64) -> u64
    requires { (0 < concentration) × (target ≤ max_target) × (final_volume ≤ max_final) }
    ensures { result ≡ sample_of concentration target final_volume }
{
    let amount = target * final_volume;
    let whole = amount / concentration;
    let rest = amount % concentration;
    if concentration <= 2 * rest {
        return whole + 1;
    }
    whole
}

// The volumes of sample and diluent.
fn volumes_of(concentration: u64, target: u64, final_volume: u64) -> Volumes
    requires { (0 < concentration) × (target ≤ concentration) × (target ≤ max_target) × (final_volume ≤ max_final) }
    ensures { result ≡ volumes_of concentration target final_volume }
{
    let volume = sample_of(concentration, target, final_volume);
    let sample = volume as u32;
    let diluent = (final_volume - volume) as u32;
    Volumes { sample, diluent }
}

// The dilution of a sample of this concentration, 0 for none: 36, 37, 38, or the volumes.
fn dilution_of(concentration: u64, target: u64, final_volume: u64) -> Result<Volumes, Refusal>
    ensures { numbered result ≡ dilution_of concentration target final_volume }
{
    let ranged = in_range(target, final_volume);
    if concentration == 0 {
        return Err(Refusal::NoConcentration);
    }
    if !ranged {
        return Err(Refusal::TargetOrVolume);
    }
    if concentration < target {
        return Err(Refusal::TargetAboveConcentration);
    }
    Ok(volumes_of(concentration, target, final_volume))
}

// A value as a concentration: a negative value is none, 0.
fn amount_of(value: i64) -> u64
    ensures { result ≡ amount_of value }
{
    if value < 0 { 0 } else { value as u64 }
}

// The concentration that a text says, 0 for none.
#[tactic(auto, unfolding(crate::specs::Dilution::concentration_of))]
fn concentration_of(text: Option<i64>) -> u64
    ensures { result ≡ concentration_of (Ok text) }
{
    match text {
        Some(value) => amount_of(value),
        None => 0,
    }
}

// The dilution of record `number`, from 1, of a table that was checked: 15, 35, 16 to 18, 36, 37, 38, or the volumes.
pub fn record_dilution(
    table: &[u8],
    number: u32,
    field: u32,
    target: u64,
    final_volume: u64,
) -> Result<Volumes, Refusal>
    requires { Dilutable table.now number field }
    ensures { numbered result ≡ record_dilution table.now number field target final_volume }
{
    let place = dbf_field::place_at(table, number, field);
    if !dbf_cell::mark_good(place.mark) {
        return Err(Refusal::DeletionByte);
    }
    if place.mark == dbf_table::DELETED {
        return Err(Refusal::BarcodeAbsent);
    }
    let text = dbf_cell::number_at(table, place)?;
    dilution_of(concentration_of(text), target, final_volume)
}

// The number of the record that has the barcode, 0 if there is none.
fn record_with(index: &[u8], barcode: &[u8]) -> u32
    requires { (header_good index.now ≡ true) × (length barcode.now ≡ key_length index.now) }
    ensures { result ≡ record_with index.now barcode.now }
{
    match idx_lookup::lookup_from_root(index, barcode) {
        Ok(outcome) => match outcome.found {
            Some(number) => number.0,
            None => 0,
        },
        Err(_) => 0,
    }
}

// The dilution of one barcode. Fields are counted from 1.
pub fn dilute(
    table: &[u8],
    index: &[u8],
    barcode_field: u32,
    field: u32,
    barcode: &[u8],
    target: u64,
    final_volume: u64,
) -> Result<Volumes, Refusal>
    ensures { numbered result ≡ dilute_rule table.now index.now barcode_field field barcode.now target final_volume }
{
    check_sheet(table, index, barcode_field, field)?;
    if barcode.len() != idx_page::key_length(index) {
        return Err(Refusal::KeyLength);
    }
    let number = record_with(index, barcode);
    if number == 0 {
        return Err(Refusal::BarcodeAbsent);
    }
    record_dilution(table, number, field, target, final_volume)
}
