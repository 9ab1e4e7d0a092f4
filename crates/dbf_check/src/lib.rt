// The check of a whole table: refusals 1 to 10.
#![tactic(auto)]

ghost use Rattle.std.specs.Prelude.{◌+◌, ◌*◌, ◌^◌, ◌≤◌, ◌<◌, ◌≡◌, length};
ghost use Rattle.refusal.specs.Refusals.{numbered};
ghost use Rattle.refusal.specs.After.{change_code};
ghost use Rattle.dbf_table.specs.Table.{min_table, records_end};
ghost use Rattle.dbf_table.specs.Table.{record_length_good, length_good};
ghost use Rattle.dbf_table.specs.Table.{table_refusal, shape_of, check_table};
ghost use Rattle.dbf_table.specs.TableLaws.{HeaderFits};

use dbf_table::Shape;
use refusal::Refusal;

#[tactic(auto, unfolding(dbf_table::specs::Table::record_length_good))]
fn record_length_good(table: &[u8]) -> bool
    requires { HeaderFits table.now }
    ensures { result ≡ record_length_good table.now }
{
    let length = dbf_table::record_length(table);
    length == dbf_fields::field_offset(table, dbf_table::field_count(table))
        && length <= dbf_table::MAX_RECORD
}

// Where the first `count` records end. Nothing overflows, whatever the header says.
#[tactic(auto, unfolding(dbf_table::specs::Table::records_end))]
pub fn records_end(table: &[u8], count: u32) -> usize
    requires { min_table ≤ length table.now }
    ensures { (result ≡ records_end table.now count) × (result < 2 ^ 49) }
{
    dbf_table::header_length(table) + count as usize * dbf_table::record_length(table)
}

#[tactic(auto, unfolding(dbf_table::specs::Table::length_good))]
fn length_good(table: &[u8]) -> bool
    requires { min_table ≤ length table.now }
    ensures { result ≡ length_good table.now }
{
    let end = records_end(table, dbf_table::record_count(table));
    table.len() == end || table.len() == end + 1 && table[end] == dbf_table::FILE_END
}

// The first refusal, if there is one.
#[tactic(auto, unfolding(dbf_table::specs::Table::table_refusal, dbf_table::specs::Table::table_checks, refusal::specs::Checks::first_refusal))]
fn check_rules(table: &[u8]) -> Result<(), Refusal>
    ensures { change_code (numbered result) ≡ table_refusal table.now }
{
    if !dbf_table::size_good(table) {
        return Err(Refusal::TableSize);
    }
    if !dbf_table::kind_good(table) {
        return Err(Refusal::TableKind);
    }
    if !dbf_table::date_good(table) {
        return Err(Refusal::UpdateDate);
    }
    if !dbf_table::header_good(table) {
        return Err(Refusal::HeaderLength);
    }
    if !dbf_table::end_mark_good(table) {
        return Err(Refusal::HeaderEndMark);
    }
    if !dbf_fields::fields_good(table) {
        return Err(Refusal::FieldDescriptor);
    }
    if !dbf_fields::names_differ(table) {
        return Err(Refusal::FieldNameTwice);
    }
    if !dbf_fields::memo_kind_good(table) {
        return Err(Refusal::MemoFieldAndKind);
    }
    if !record_length_good(table) {
        return Err(Refusal::RecordLength);
    }
    if !length_good(table) {
        return Err(Refusal::TableLength);
    }
    Ok(())
}

#[tactic(auto, unfolding(dbf_table::specs::Table::shape_of))]
fn shape_of(table: &[u8]) -> Shape
    requires { min_table ≤ length table.now }
    ensures { result ≡ shape_of table.now }
{
    Shape {
        kind: table[dbf_table::KIND_AT],
        records: dbf_table::record_count(table),
        header_length: dbf_table::header_length(table),
        record_length: dbf_table::record_length(table),
        fields: dbf_table::field_count(table),
    }
}

// The table's shape, or why it is refused.
pub fn check_table(table: &[u8]) -> Result<Shape, Refusal>
    ensures { numbered result ≡ check_table table.now }
{
    check_rules(table)?;
    Ok(shape_of(table))
}
