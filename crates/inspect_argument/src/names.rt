// A field by its name, and the match of an index against it.
ghost use Rattle.std.specs.Prelude.{◌+◌, ◌≤◌, ◌<◌, ◌≡◌, length, None, IfSome};
ghost use Rattle.refusal.specs.Refusals.{numbered};
ghost use Rattle.refusal.specs.After.{change_code};
ghost use Rattle.octets.specs.Bytes.{byte_at};
ghost use Rattle.dbf_table.specs.Table.{descriptor, table_refusal, field_count};
ghost use Rattle.inspect_argument.specs.Names.{name_byte, has_name, named_field, NameMatched};

use refusal::Refusal;

// Byte k of a text, 0 past its end.
fn byte_or_zero(text: &[u8], k: usize) -> u8
    ensures { result ≡ byte_at text.now k }
{
    text.get(k).copied().unwrap_or(0)
}

// Whether byte k of the name of field j, from 0, is byte k of the name.
#[tactic(auto, unfolding(crate::specs::Names::name_byte))]
fn name_byte(table: &[u8], name: &[u8], j: usize, k: usize) -> bool
    requires { (descriptor j + 32 ≤ length table.now) × (k < 11) }
    ensures { result ≡ name_byte table.now name.now j k }
{
    let at = dbf_table::DESCRIPTORS + dbf_table::DESCRIPTOR_LENGTH * j;
    table[at + k] == byte_or_zero(name, k)
}

// Whether field j, from 0, has the name: its 11 bytes are the name's, and zeros behind them.
fn has_name(table: &[u8], name: &[u8], j: usize) -> bool
    requires { descriptor j + 32 ≤ length table.now }
    ensures { result ≡ has_name table.now name.now j }
{
    (0..dbf_table::NAME_LENGTH).all(|k| name_byte(table, name, j, k))
}

// The number of the field that has the name.
fn named_field(table: &[u8], name: &[u8], fields: usize) -> Option<u32>
    requires { (table_refusal table.now ≡ 0) × (fields ≡ field_count table.now) }
    ensures some { IfSome result (λ field. (1 ≤ field) × (field ≡ named_field table.now name.now)) }
    ensures none { result ≡ None → named_field table.now name.now ≡ 0 }
{
    for j in 0..fields {
        if has_name(table, name, j) {
            return Some(j as u32 + 1);
        }
    }
    None
}

// The match of an index against the field that has the name. A refused table has no names that are known, so its refusal is the answer.
pub fn match_by_name<'a>(table: &'a [u8], index: &'a [u8], name: &'a [u8]) -> Result<(), Refusal>
    ensures { NameMatched table.now index.now name.now (change_code (numbered result)) }
{
    let shape = dbf_check::check_table(table)?;
    match named_field(table, name, shape.fields) {
        Some(field) => idx_match::match_index(table, index, field),
        None => Err(Refusal::FieldNumber),
    }
}
