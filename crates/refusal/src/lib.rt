// What calls answer: the refusals of documents 01 and 02, each named once, and the C interface's answers that are no refusals. Code gives the names; the rules
// in `specs/` give the numbers, to be held beside the papers.
#![tactic(auto)]

ghost use Rattle.std.specs.Prelude.{◌≡◌};
ghost use Rattle.refusal.specs.Refusals.{refusal_number, numbered};
ghost use Rattle.refusal.specs.After.{change_code};

use std::error::Error;
use std::fmt;

// Why a call is refused. A refusal's number is the one that the papers give it. No refusal has the number 26.
#[derive(Clone, Copy, Debug, PartialEq, Eq)]
pub enum Refusal {
    // ---- The table.

    // The table is below 32 or above 16,777,216 bytes.
    TableSize = 1,

    // Byte 0 is neither 0x03 nor 0xF5.
    TableKind = 2,

    // The update date is no calendar date.
    UpdateDate = 3,

    // The header length is not 33 + 32f with f from 1 to 128, or is above the table's length.
    HeaderLength = 4,

    // The header's last byte is not 0x0D.
    HeaderEndMark = 5,

    // A field descriptor breaks its rules. For numeric text: the width or the decimal count is bad.
    FieldDescriptor = 6,

    // Two fields have one name.
    FieldNameTwice = 7,

    // An M field in a table of kind 0x03, or none in one of kind 0xF5.
    MemoFieldAndKind = 8,

    // The record length is not 1 + the field lengths, or is above 4,000.
    RecordLength = 9,

    // The table's length fits neither of its two forms.
    TableLength = 10,

    // ---- One field of one record.

    // The record number is 0 or above the count.
    RecordNumber = 11,

    // The field number is 0 or above the field count.
    FieldNumber = 12,

    // The call reads another type than the field's.
    FieldType = 13,

    // The lent field list is shorter than the field count.
    FieldListTooShort = 14,

    // The deletion byte is neither 0x20 nor 0x2A.
    DeletionByte = 15,

    // ---- The text of a field, and the memo file.

    // A comma in numeric text.
    Comma = 16,

    // Other bad numeric text.
    NotANumber = 17,

    // More than 18 digits, or a value beyond 18 digits.
    TooManyDigits = 18,

    // The value's text is longer than the field.
    DoesNotFit = 19,

    // Bad date or logical text.
    DateOrLogical = 20,

    // A bad memo number, or a bad place in the memo file.
    MemoNumberOrPlace = 21,

    // A bad memo header.
    MemoHeader = 22,

    // The memo's block is not text.
    MemoNotText = 23,

    // ---- The index.

    // A bad index header or key expression.
    IndexHeader = 24,

    // The index is not sound.
    IndexNotSound = 25,

    // The key has another length than the index's keys; for a fresh index: the key length is not 1 to 100.
    KeyLength = 27,

    // Record number 0 is offered to the index.
    RecordNumberZero = 28,

    // The key is present.
    KeyPresent = 29,

    // There is no room.
    NoRoom = 30,

    // The index and the table do not match.
    IndexAndTableDiffer = 31,

    // The key that is offered to the index has a control byte, one below 0x20.
    ControlByte = 32,

    // The key to strike off is absent.
    KeyAbsent = 33,

    // An empty numeric field, which has no key.
    NoKey = 34,

    // ---- The dilution of a sample.

    // The barcode is absent from the index, or its record is deleted.
    BarcodeAbsent = 35,

    // The concentration is empty, zero or negative.
    NoConcentration = 36,

    // The target or the final volume is out of its range.
    TargetOrVolume = 37,

    // The target is above the concentration.
    TargetAboveConcentration = 38,

    // ---- All records of a key.

    // The lent list is shorter than the records of the key.
    ListTooShort = 39,

    // ---- A program's arguments.

    // Other arguments or input, or a file that can't be read or is too long.
    ArgumentsOrFiles = 40,
}

impl Refusal {
    // The number that the papers give the refusal.
    pub fn number(self) -> u32
        ensures { result ≡ refusal_number self }
    {
        self as u32
    }
}

// A refusal's words, as the page of the program `inspect` has them.
impl fmt::Display for Refusal {
    fn fmt<W: fmt::Write>(&self, f: &mut fmt::Formatter<W>) -> fmt::Result {
        f.write_str(match self {
            Refusal::TableSize => "size of the table",
            Refusal::TableKind => "kind of table",
            Refusal::UpdateDate => "update date",
            Refusal::HeaderLength => "header length",
            Refusal::HeaderEndMark => "header end mark",
            Refusal::FieldDescriptor => "field descriptor",
            Refusal::FieldNameTwice => "field name twice",
            Refusal::MemoFieldAndKind => "memo field and kind of table",
            Refusal::RecordLength => "record length",
            Refusal::TableLength => "table length",
            Refusal::RecordNumber => "record number",
            Refusal::FieldNumber => "field number",
            Refusal::FieldType => "field type",
            Refusal::FieldListTooShort => "field list too short",
            Refusal::DeletionByte => "deletion byte",
            Refusal::Comma => "comma in a number",
            Refusal::NotANumber => "not a number",
            Refusal::TooManyDigits => "more than 18 digits",
            Refusal::DoesNotFit => "does not fit the field",
            Refusal::DateOrLogical => "not a date or logical value",
            Refusal::MemoNumberOrPlace => "memo number or place",
            Refusal::MemoHeader => "memo header",
            Refusal::MemoNotText => "memo is not text",
            Refusal::IndexHeader => "index header",
            Refusal::IndexNotSound => "index not sound",
            Refusal::KeyLength => "key length",
            Refusal::RecordNumberZero => "record number 0",
            Refusal::KeyPresent => "key present",
            Refusal::NoRoom => "no room",
            Refusal::IndexAndTableDiffer => "index and table differ",
            Refusal::ControlByte => "control byte in the key",
            Refusal::KeyAbsent => "key absent",
            Refusal::NoKey => "no number to index",
            Refusal::BarcodeAbsent => "barcode absent or deleted",
            Refusal::NoConcentration => "no concentration",
            Refusal::TargetOrVolume => "target or volume out of range",
            Refusal::TargetAboveConcentration => "target above concentration",
            Refusal::ListTooShort => "list too short",
            Refusal::ArgumentsOrFiles => "arguments or files",
        })
    }
}

impl Error for Refusal {}

// The number of an answer without a value: 0 if the call is accepted, or the refusal's.
pub fn change_code(answer: Result<(), Refusal>) -> u32
    ensures { result ≡ change_code (numbered answer) }
{
    match answer {
        Ok(()) => 0,
        Err(refusal) => refusal.number(),
    }
}

// ---- Answers that are no refusals. 0 is an accepted call's.

// The field or the numeric text holds blanks.
pub const EMPTY: u32 = 256;

// The key is not in the index.
pub const ABSENT: u32 = 257;

// The walk has no record left.
pub const DONE: u32 = 258;
