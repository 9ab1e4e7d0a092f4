// A table's header: its numbers and its limits.
#![tactic(auto)]

ghost use Rattle.std.specs.Prelude.{◌+◌, ◌*◌, ◌≤◌, ◌<◌, ◌≡◌, length};
ghost use Rattle.dbf_table.specs.Table.{min_table, record_count, header_length_of, record_length_of, field_count};
ghost use Rattle.dbf_table.specs.Table.{size_good, kind_good, date_good, header_good, end_mark_good};
ghost use Rattle.dbf_table.specs.Table.{storable_date};
ghost use Rattle.dbf_table.specs.FieldTypes.{letter_of, type_of};
ghost use Rattle.dbf_table.specs.TableLaws.{HeaderFits};

const MIN_TABLE: usize = 32;

// Where the header has the kind, the update date's year, month and day, the record count, its own length and the record length.
pub const KIND_AT: usize = 0;

pub const DATE_AT: usize = 1;

const MONTH_AT: usize = 2;

const DAY_AT: usize = 3;

pub const COUNT_AT: usize = 4;

pub const HEADER_LENGTH_AT: usize = 8;

pub const RECORD_LENGTH_AT: usize = 10;

pub const MAX_TABLE: usize = 16777216;

// The year of the update date whose byte is 0, and the last year that a byte holds.
pub const FIRST_YEAR: u32 = 1900;

const LAST_YEAR: u32 = 2155;

pub const MAX_FIELDS: usize = 128;

pub const MAX_RECORD: usize = 4000;

pub const MAX_TEXT: u32 = 254;

// The kind of a table, which says whether it has memo fields. A kind stays the byte of the file: code compares it and stores it, and branches on it nowhere.
pub const PLAIN_KIND: u8 = 0x03;

pub const MEMO_KIND: u8 = 0xF5;

pub const END_MARK: u8 = 0x0D;

pub const FILE_END: u8 = 0x1A;

// The deletion byte of a record that is kept, and of a deleted record. It stays a byte: a record of a good table may hold any other, which its reader refuses.
pub const KEPT: u32 = 0x20;

pub const DELETED: u32 = 0x2A;

// The types of fields, each by the letter that a descriptor has for it.
#[derive(Clone, Copy, Debug, PartialEq, Eq)]
pub enum FieldType {
    Text,
    Number,
    Date,
    Logical,
    Memo,
}

impl FieldType {
    // The type that a letter stands for, if it stands for one.
    pub fn of_letter(letter: u8) -> Option<FieldType>
        ensures { result ≡ type_of letter }
    {
        match letter {
            b'C' => Some(FieldType::Text),
            b'N' => Some(FieldType::Number),
            b'D' => Some(FieldType::Date),
            b'L' => Some(FieldType::Logical),
            b'M' => Some(FieldType::Memo),
            _ => None,
        }
    }

    // The type's letter.
    pub fn letter(self) -> u8
        ensures { result ≡ letter_of self }
    {
        match self {
            FieldType::Text => b'C',
            FieldType::Number => b'N',
            FieldType::Date => b'D',
            FieldType::Logical => b'L',
            FieldType::Memo => b'M',
        }
    }
}

// Where the descriptors begin, how long each is, and where its type, length and decimals stand.
pub const DESCRIPTORS: usize = 32;

pub const DESCRIPTOR_LENGTH: usize = 32;

pub const TYPE_AT: usize = 11;

pub const LENGTH_AT: usize = 16;

pub const DECIMALS_AT: usize = 17;

// A name has 11 bytes, and byte 10, the last, is zero.
pub const NAME_LENGTH: usize = 11;

pub const NAME_LAST: usize = 10;

// What the header of a good table says.
#[derive(Clone, Copy)]
pub struct Shape {
    pub kind: u8,
    pub records: u32,
    pub header_length: usize,
    pub record_length: usize,
    pub fields: usize,
}

#[tactic(auto, unfolding(crate::specs::Table::size_good))]
pub fn size_good(table: &[u8]) -> bool
    ensures { result ≡ size_good table.now }
{
    MIN_TABLE <= table.len() && table.len() <= MAX_TABLE
}

#[tactic(auto, unfolding(crate::specs::Table::kind_good))]
pub fn kind_good(table: &[u8]) -> bool
    requires { min_table ≤ length table.now }
    ensures { result ≡ kind_good table.now }
{
    let kind = table[KIND_AT];
    kind == PLAIN_KIND || kind == MEMO_KIND
}

#[tactic(auto, unfolding(crate::specs::Table::date_good))]
pub fn date_good(table: &[u8]) -> bool
    requires { min_table ≤ length table.now }
    ensures { result ≡ date_good table.now }
{
    let year = FIRST_YEAR + octets::byte(table, DATE_AT);
    calendar::is_date(
        year,
        octets::byte(table, MONTH_AT),
        octets::byte(table, DAY_AT),
    )
}

// Whether the header can hold a date: a calendar date whose year less 1900 is a byte.
#[tactic(auto, unfolding(crate::specs::Table::storable_date))]
pub fn storable_date(year: u32, month: u32, day: u32) -> bool
    ensures { result ≡ storable_date year month day }
{
    FIRST_YEAR <= year && year <= LAST_YEAR && calendar::is_date(year, month, day)
}

#[tactic(auto, unfolding(crate::specs::Table::header_length_of))]
pub fn header_length(table: &[u8]) -> usize
    requires { min_table ≤ length table.now }
    ensures { (result ≡ header_length_of table.now) × (result < 65536) }
{
    octets::load_le16(table, HEADER_LENGTH_AT) as usize
}

#[tactic(auto, unfolding(crate::specs::Table::record_length_of))]
pub fn record_length(table: &[u8]) -> usize
    requires { min_table ≤ length table.now }
    ensures { (result ≡ record_length_of table.now) × (result < 65536) }
{
    octets::load_le16(table, RECORD_LENGTH_AT) as usize
}

#[tactic(auto, unfolding(crate::specs::Table::record_count))]
pub fn record_count(table: &[u8]) -> u32
    requires { min_table ≤ length table.now }
    ensures { result ≡ record_count table.now }
{
    octets::load_le32(table, COUNT_AT)
}

#[tactic(auto, unfolding(crate::specs::Table::field_count))]
pub fn field_count(table: &[u8]) -> usize
    requires { min_table ≤ length table.now }
    ensures { (result ≡ field_count table.now) × (result < 2048) }
{
    let length = header_length(table);
    if length < 33 {
        return 0;
    }
    (length - 33) / 32
}

#[tactic(auto, unfolding(crate::specs::Table::header_good))]
pub fn header_good(table: &[u8]) -> bool
    requires { min_table ≤ length table.now }
    ensures { result ≡ header_good table.now }
{
    let length = header_length(table);
    let fields = field_count(table);
    length == 33 + 32 * fields && 1 <= fields && fields <= MAX_FIELDS && length <= table.len()
}

#[tactic(auto, unfolding(crate::specs::Table::end_mark_good))]
pub fn end_mark_good(table: &[u8]) -> bool
    requires { HeaderFits table.now }
    ensures { result ≡ end_mark_good table.now }
{
    let last = header_length(table) - 1;
    table[last] == END_MARK
}
