// One field of a table: its entry, and where it lies in a record. Document 01, "The table": refusals 1 to 10, 11 and 12.
#![tactic(auto)]

ghost use Rattle.std.specs.Prelude.{◌+◌, ◌≤◌, ◌<◌, ◌≡◌, length};
ghost use Rattle.refusal.specs.Refusals.{numbered};
ghost use Rattle.dbf_table.specs.Table.{max_fields, descriptor, field_offset};
ghost use Rattle.dbf_field.specs.Field.{number_good, entry_of, field_answer};
ghost use Rattle.dbf_field.specs.Field.{PlaceGood, place_at, PlaceInside, PlaceAnswer};

use refusal::Refusal;

// Where the first field starts in a record: behind the deletion byte.
pub const FIRST_OFFSET: u16 = 1;

// A field as the host lists it; `offset` counts from the record's start, where the deletion byte is, so the first field has 1.
#[repr(C)]
#[derive(Clone, Copy, Debug, PartialEq, Eq)]
pub struct FieldEntry {
    pub name: [u8; 11],
    pub kind: u8,
    pub length: u8,
    pub decimals: u8,
    pub offset: u16,
}

// A field of a record: the record's deletion byte, where the field starts in the table, and its entry but for the name and the offset: the start has the
// offset in it.
#[derive(Clone, Copy)]
pub struct Place {
    pub mark: u32,
    pub start: usize,
    pub kind: u8,
    pub length: u8,
    pub decimals: u8,
}

// The entry of field j, from 0, that starts at this offset in a record: who goes from field to field knows where one ends, and does not add up again.
#[tactic(auto, unfolding(crate::specs::Field::entry_of, crate::specs::Field::field_name, octets::specs::Store::window))]
pub fn entry_from(table: &[u8], j: usize, offset: u16) -> FieldEntry
    requires { (descriptor j + 32 ≤ length table.now) × (offset ≡ field_offset table.now j) }
    ensures { result ≡ entry_of table.now j }
{
    let at = dbf_table::DESCRIPTORS + dbf_table::DESCRIPTOR_LENGTH * j;
    let mut name = [0; dbf_table::NAME_LENGTH];
    name.copy_from_slice(&table[at..at + dbf_table::NAME_LENGTH]);
    FieldEntry {
        name,
        kind: table[at + dbf_table::TYPE_AT],
        length: table[at + dbf_table::LENGTH_AT],
        decimals: table[at + dbf_table::DECIMALS_AT],
        offset,
    }
}

// The entry of field j, from 0.
pub fn entry_at(table: &[u8], j: usize) -> FieldEntry
    requires { (j < max_fields) × (descriptor j + 32 ≤ length table.now) }
    ensures { result ≡ entry_of table.now j }
{
    entry_from(table, j, dbf_fields::field_offset(table, j) as u16)
}

// Whether the number of a record or a field is from 1 to the count.
#[tactic(auto, unfolding(crate::specs::Field::number_good))]
pub fn number_good(number: usize, count: usize) -> bool
    ensures { result ≡ number_good number count }
{
    1 <= number && number <= count
}

// The entry of a field by its number, from 1.
pub fn field_entry(table: &[u8], field: u32) -> Result<FieldEntry, Refusal>
    ensures { numbered result ≡ field_answer table.now field }
{
    let shape = dbf_check::check_table(table)?;
    if number_good(field as usize, shape.fields) {
        Ok(entry_at(table, field as usize - 1))
    } else {
        Err(Refusal::FieldNumber)
    }
}

// Where field `field` of record `number` lies, both from 1, in a table that was checked and has both.
pub fn place_at(table: &[u8], number: u32, field: u32) -> Place
    requires { PlaceGood table.now number field }
    ensures { (result ≡ place_at table.now number field) × PlaceInside table.now result }
{
    let start = dbf_check::records_end(table, number - 1);
    let entry = entry_at(table, (field - 1) as usize);
    Place {
        mark: octets::byte(table, start),
        start: start + entry.offset as usize,
        kind: entry.kind,
        length: entry.length,
        decimals: entry.decimals,
    }
}

// Where field `field` of record `number` lies, both from 1.
pub fn field_place(table: &[u8], number: u32, field: u32) -> Result<Place, Refusal>
    ensures { PlaceAnswer table.now number field (numbered result) }
{
    let shape = dbf_check::check_table(table)?;
    if !number_good(number as usize, shape.records as usize) {
        return Err(Refusal::RecordNumber);
    }
    if !number_good(field as usize, shape.fields) {
        return Err(Refusal::FieldNumber);
    }
    Ok(place_at(table, number, field))
}
