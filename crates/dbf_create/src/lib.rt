// An empty table, laid out from a list of fields. The table is made in a room of its own and passes the table's checks there, before the buffer is touched.
#![tactic(auto)]

ghost use Rattle.std.specs.Prelude.{◌+◌, ◌*◌, ◌<◌, ◌≡◌, length};
ghost use Rattle.refusal.specs.Refusals.{numbered};
ghost use Rattle.refusal.specs.After.{left, change_code};
ghost use Rattle.octets.specs.Store.{window};
ghost use Rattle.dbf_table.specs.Table.{max_fields, header_length_of, has_memo};
ghost use Rattle.dbf_table.specs.TableLaws.{HeaderFits};
ghost use Rattle.dbf_create.specs.Laying.{room_length, no_fields, with_field, listed_count, count_good, kind_for, lay_out, lay_table};
ghost use Rattle.dbf_create.specs.LayingLaws.{Layable, Written};

use dbf_field::FieldEntry;
use refusal::Refusal;

// Where the header says no more.
const UNREAD_AT: usize = 12;

// The longest table that is laid out: its header of 128 fields and its end mark.
const ROOM: usize = 4130;

// A room for the longest table, with no field in it. The table is made in this one room, from its fields to its end mark: the stack has no other copy of it.
#[tactic(auto, unfolding(crate::specs::Laying::no_fields))]
pub fn no_fields() -> [u8; 4130]
    ensures { result ≡ no_fields }
{
    [0; ROOM]
}

// Writes field j, from 0, at its place in the room. The bytes of a descriptor that nothing reads are zero.
pub fn write_field(room: &mut [u8], j: usize, entry: FieldEntry)
    requires { (j < max_fields) × (length room.old ≡ room_length) }
    ensures written { room.new ≡ with_field room.old j entry }
    ensures named { length entry.name ≡ 11 }
{
    let at = dbf_table::DESCRIPTORS + dbf_table::DESCRIPTOR_LENGTH * j;
    let name = entry.name;
    octets::copy_in(room, at, &name);
    let end = at + dbf_table::DESCRIPTOR_LENGTH;
    octets::fill(room, at + dbf_table::NAME_LENGTH, end, 0);
    room[at + dbf_table::TYPE_AT] = entry.kind;
    room[at + dbf_table::LENGTH_AT] = entry.length;
    room[at + dbf_table::DECIMALS_AT] = entry.decimals;
}

// How many fields of a list of `given` are taken: no table has more than 128.
#[tactic(auto, unfolding(crate::specs::Laying::listed_count))]
pub fn listed_count(given: usize) -> usize
    ensures { result ≡ listed_count given }
{
    given.min(dbf_table::MAX_FIELDS)
}

#[tactic(auto, unfolding(crate::specs::Laying::count_good))]
fn count_good(count: usize) -> bool
    ensures { result ≡ count_good count }
{
    (1..=dbf_table::MAX_FIELDS).contains(&count)
}

// The kind of a table whose header says its length and whose descriptors are there.
#[tactic(auto, unfolding(crate::specs::Laying::kind_for))]
fn kind_of(table: &[u8]) -> u8
    requires { HeaderFits table.now }
    ensures { result ≡ kind_for (has_memo table.now) }
{
    if dbf_fields::has_memo(table) {
        dbf_table::MEMO_KIND
    } else {
        dbf_table::PLAIN_KIND
    }
}

// Writes the rest of a table around the descriptors of `count` fields in a room: the header before them, and the end marks behind them.
fn write_table(room: &mut [u8], count: usize, year: u32, month: u32, day: u32)
    requires { Layable (length room.old) count year month day }
    ensures { Written room.old room.new count year month day }
{
    let end = dbf_table::DESCRIPTORS + dbf_table::DESCRIPTOR_LENGTH * count;
    octets::store_le16(room, dbf_table::HEADER_LENGTH_AT, (end + 1) as u32);
    let kind = kind_of(room);
    let length = dbf_fields::field_offset(room, count);
    octets::store_le16(room, dbf_table::RECORD_LENGTH_AT, length as u32);
    let first = [
        kind,
        (year - dbf_table::FIRST_YEAR) as u8,
        month as u8,
        day as u8,
        0,
        0,
        0,
        0,
    ];
    octets::copy_in(room, 0, &first);
    octets::fill(room, UNREAD_AT, dbf_table::DESCRIPTORS, 0);
    room[end] = dbf_table::END_MARK;
    room[end + 1] = dbf_table::FILE_END;
}

// Writes a table to the front of the buffer, if it passes its own checks and fits.
fn lay_table(buffer: &mut [u8], table: &[u8]) -> Result<(), Refusal>
    requires { length table.now ≡ header_length_of table.now + 1 }
    ensures { lay_table buffer.old table.now ≡ left buffer.new (change_code (numbered result)) }
{
    let shape = dbf_check::check_table(table)?;
    if buffer.len() < shape.header_length + 1 {
        return Err(Refusal::NoRoom);
    }
    octets::copy_in(buffer, 0, table);
    Ok(())
}

// Lays out an empty table with the first `count` fields of a room. A refusal changes no byte of the buffer.
#[tactic(auto, unfolding(crate::specs::Laying::count_good))]
pub fn lay_out(
    buffer: &mut [u8],
    room: &mut [u8],
    count: usize,
    year: u32,
    month: u32,
    day: u32,
) -> Result<(), Refusal>
    requires { length room.old ≡ room_length }
    ensures { lay_out buffer.old (window room.old 32 (32 * count)) count year month day ≡ left buffer.new (change_code (numbered result)) }
{
    if !dbf_table::storable_date(year, month, day) {
        return Err(Refusal::UpdateDate);
    }
    if !count_good(count) {
        return Err(Refusal::HeaderLength);
    }
    write_table(room, count, year, month, day);
    lay_table(
        buffer,
        &room[..dbf_table::DESCRIPTORS + dbf_table::DESCRIPTOR_LENGTH * count + 2],
    )
}
