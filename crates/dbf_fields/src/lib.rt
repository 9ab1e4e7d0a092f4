// A table's field descriptors: names, types and lengths.
#![tactic(auto)]

ghost use Rattle.std.specs.Prelude.{◌+◌, ◌*◌, ◌≤◌, ◌<◌, ◌≡◌, length};
ghost use Rattle.dbf_table.specs.Range.{all_below};
ghost use Rattle.dbf_table.specs.Table.{max_fields, descriptor, field_type, field_offset};
ghost use Rattle.dbf_table.specs.Table.{is_letter, is_name_byte, may_follow, name_goes_on, name_good, form_good};
ghost use Rattle.dbf_table.specs.Table.{descriptor_good, fields_good, same_name, names_differ, has_memo, memo_kind_good};
ghost use Rattle.dbf_table.specs.TableLaws.{HeaderFits};

use dbf_table::FieldType;

#[tactic(auto, unfolding(dbf_table::specs::Table::is_letter))]
fn is_letter(byte: u8) -> bool
    ensures { result ≡ is_letter byte }
{
    byte.is_ascii_uppercase()
}

#[tactic(auto, unfolding(dbf_table::specs::Table::is_name_byte))]
fn is_name_byte(byte: u8) -> bool
    ensures { result ≡ is_name_byte byte }
{
    is_letter(byte) || octets::is_digit(byte) || byte == b'_'
}

// Whether `byte` may stand after the byte `before` in a name: only a zero may stand after a zero. Most bytes are zeros or letters, which one test tells.
#[tactic(auto, unfolding(dbf_table::specs::Table::may_follow))]
fn may_follow(before: u8, byte: u8) -> bool
    ensures { result ≡ may_follow before byte }
{
    byte == 0 || is_name_byte(byte) && before != 0
}

// Whether each byte of a name but the first may stand after the one before it.
fn name_goes_on(table: &[u8], at: usize) -> bool
    requires { at + 11 ≤ length table.now }
    ensures { result ≡ all_below (name_goes_on table.now at) 10 }
{
    (0..dbf_table::NAME_LAST).all(|k| may_follow(table[at + k], table[at + k + 1]))
}

#[tactic(auto, unfolding(dbf_table::specs::Table::name_good))]
fn name_good(table: &[u8], at: usize) -> bool
    requires { at + 11 ≤ length table.now }
    ensures { result ≡ name_good table.now at }
{
    is_letter(table[at]) && name_goes_on(table, at) && table[at + dbf_table::NAME_LAST] == 0
}

// Whether a field of the type with this letter may have this length and this decimal count.
#[tactic(auto, unfolding(dbf_table::specs::Table::form_good))]
fn form_good(letter: u8, length: u32, decimals: u32) -> bool
    ensures { result ≡ form_good letter length decimals }
{
    match FieldType::of_letter(letter) {
        Some(FieldType::Number) => numeral::format_good(length as usize, decimals),
        Some(FieldType::Text) => decimals == 0 && 1 <= length && length <= dbf_table::MAX_TEXT,
        Some(FieldType::Date) => decimals == 0 && length == 8,
        Some(FieldType::Logical) => decimals == 0 && length == 1,
        Some(FieldType::Memo) => decimals == 0 && length == 10,
        None => false,
    }
}

#[tactic(auto, unfolding(dbf_table::specs::Table::descriptor_good))]
fn descriptor_good(table: &[u8], j: usize) -> bool
    requires { descriptor j + 32 ≤ length table.now }
    ensures { result ≡ descriptor_good table.now j }
{
    let at = dbf_table::DESCRIPTORS + dbf_table::DESCRIPTOR_LENGTH * j;
    name_good(table, at)
        && form_good(
            table[at + dbf_table::TYPE_AT],
            octets::byte(table, at + dbf_table::LENGTH_AT),
            octets::byte(table, at + dbf_table::DECIMALS_AT),
        )
}

#[tactic(auto, unfolding(dbf_table::specs::Table::fields_good))]
pub fn fields_good(table: &[u8]) -> bool
    requires { HeaderFits table.now }
    ensures { result ≡ fields_good table.now }
{
    (0..dbf_table::field_count(table)).all(|j| descriptor_good(table, j))
}

// Whether fields i and j, from 0, have the same name, byte by byte. All bytes are looked at, since a loop without a way out costs less than one that stops.
#[tactic(auto, unfolding(dbf_table::specs::Table::same_name, dbf_table::specs::Table::same_byte, dbf_table::specs::Range::all_below))]
fn same_name(table: &[u8], i: usize, j: usize) -> bool
    requires { (descriptor i + 32 ≤ length table.now) × (descriptor j + 32 ≤ length table.now) }
    ensures { result ≡ same_name table.now i j }
{
    let a = dbf_table::DESCRIPTORS + dbf_table::DESCRIPTOR_LENGTH * i;
    let b = dbf_table::DESCRIPTORS + dbf_table::DESCRIPTOR_LENGTH * j;
    let mut same = true;
    for k in 0..dbf_table::NAME_LENGTH {
        same &= table[a + k] == table[b + k];
    }
    same
}

// Whether all names differ: each name, from the last back, is compared with all before it, and a pair of equal names ends both loops.
#[tactic(auto, unfolding(dbf_table::specs::Table::names_differ))]
pub fn names_differ(table: &[u8]) -> bool
    requires { HeaderFits table.now }
    ensures { result ≡ names_differ table.now }
{
    let mut differ = true;
    'fields: for later in (1..dbf_table::field_count(table)).rev() {
        for earlier in 0..later {
            if same_name(table, later, earlier) {
                differ = false;
                break 'fields;
            }
        }
    }
    differ
}

// The letter of field j's type, j from 0.
fn type_letter(table: &[u8], j: usize) -> u8
    requires { descriptor j + 32 ≤ length table.now }
    ensures { result ≡ field_type table.now j }
{
    table[dbf_table::DESCRIPTORS + dbf_table::DESCRIPTOR_LENGTH * j + dbf_table::TYPE_AT]
}

#[tactic(auto, unfolding(dbf_table::specs::Table::has_memo))]
pub fn has_memo(table: &[u8]) -> bool
    requires { HeaderFits table.now }
    ensures { result ≡ has_memo table.now }
{
    (0..dbf_table::field_count(table)).any(|j| type_letter(table, j) == FieldType::Memo.letter())
}

#[tactic(auto, unfolding(dbf_table::specs::Table::memo_kind_good))]
pub fn memo_kind_good(table: &[u8]) -> bool
    requires { HeaderFits table.now }
    ensures { result ≡ memo_kind_good table.now }
{
    let kind = table[dbf_table::KIND_AT];
    let memo = has_memo(table);
    !(kind == dbf_table::PLAIN_KIND && memo || kind == dbf_table::MEMO_KIND && !memo)
}

// Where field j, from 0, starts in a record: after the deletion byte and the fields before it.
#[tactic(auto, using(dbf_table::specs::RangeLaws::sum_more), unfolding(dbf_table::specs::Table::field_offset, dbf_table::specs::Range::sum_below))]
pub fn field_offset(table: &[u8], j: usize) -> usize
    requires { (j ≤ max_fields) × (descriptor j ≤ length table.now) }
    ensures { (result ≡ field_offset table.now j) × (result ≤ 1 + 255 * j) }
{
    let mut offset = 1;
    for i in 0..j {
        let at = dbf_table::DESCRIPTORS + dbf_table::DESCRIPTOR_LENGTH * i;
        offset += octets::byte(table, at + dbf_table::LENGTH_AT) as usize;
    }
    offset
}
