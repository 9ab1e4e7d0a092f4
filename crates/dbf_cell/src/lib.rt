// Reading one field of one record. Document 01, "Field text": refusals 1 to 13 and 15, then what concerns the text or the memo.
//
// A call that takes a record number and a field number makes all checks. A call that takes a place is for a table that was checked.
#![tactic(auto)]

ghost use Rattle.std.specs.Prelude.{◌+◌, ◌≤◌, ◌≡◌, length};
ghost use Rattle.refusal.specs.Refusals.{numbered};
ghost use Rattle.octets.specs.Bytes.{byte_at};
ghost use Rattle.octets.specs.Store.{window};
ghost use Rattle.calendar.specs.DateText.{date_of};
ghost use Rattle.numeral.specs.Reading.{read_number};
ghost use Rattle.dbf_field.specs.Field.{PlaceInside};
ghost use Rattle.dbf_cell.specs.Cell.{reads_type, mark_good, cell_place, number_cell, date_cell, logical_of, logical_cell};
ghost use Rattle.dbf_cell.specs.Cell.{text_at, text_cell, TextWithin, text_part};

use calendar::Date;
use dbf_field::Place;
use dbf_table::{DELETED, FieldType, KEPT};
use fpt_memo::Span;
use refusal::Refusal;

// The fields that a call reads, by their type.
#[derive(Clone, Copy, Debug, PartialEq, Eq)]
pub enum Reads {
    Numbers,
    Dates,
    Logicals,
    Texts,
}

// Where a text lies: a C field's in the table, an M field's in the memo file.
#[derive(Clone, Copy, Debug, PartialEq, Eq)]
pub enum TextPlace {
    Table(Span),
    Memo(Span),
}

// The bytes of a slice in a span.
fn part(s: &[u8], span: Span) -> &[u8]
    requires { span.start + span.len ≤ length s.now }
    ensures { result.now ≡ window s.now span.start span.len }
{
    &s[span.start..span.start + span.len]
}

// The bytes of the field at a place.
fn field_bytes(table: &[u8], place: Place) -> &[u8]
    requires { PlaceInside table.now place }
    ensures { result.now ≡ window table.now place.start place.length }
{
    let len = usize::from(place.length);
    part(
        table,
        Span {
            start: place.start,
            len,
        },
    )
}

// Whether the call reads fields of the type with this letter.
#[tactic(auto, unfolding(crate::specs::Cell::reads_type))]
fn reads_type(reads: Reads, letter: u8) -> bool
    ensures { result ≡ reads_type reads letter }
{
    match reads {
        Reads::Numbers => letter == FieldType::Number.letter(),
        Reads::Dates => letter == FieldType::Date.letter(),
        Reads::Logicals => letter == FieldType::Logical.letter(),
        Reads::Texts => letter == FieldType::Text.letter() || letter == FieldType::Memo.letter(),
    }
}

// Whether a deletion byte marks a record as kept or as deleted.
pub fn mark_good(mark: u32) -> bool
    ensures { result ≡ mark_good mark }
{
    mark == KEPT || mark == DELETED
}

// Where the field of the record lies, if the call may read it.
fn cell_place(table: &[u8], reads: Reads, number: u32, field: u32) -> Result<Place, Refusal>
    ensures { numbered result ≡ cell_place reads table.now number field }
{
    let place = dbf_field::field_place(table, number, field)?;
    if !reads_type(reads, place.kind) {
        return Err(Refusal::FieldType);
    }
    if !mark_good(place.mark) {
        return Err(Refusal::DeletionByte);
    }
    Ok(place)
}

// The value of the N field at a place, in units of 10^-d, with the field's decimal count as d.
pub fn number_at(table: &[u8], place: Place) -> Result<Option<i64>, Refusal>
    requires { PlaceInside table.now place }
    ensures { numbered result ≡ read_number (window table.now place.start place.length) place.decimals }
{
    let text = field_bytes(table, place);
    numeral_read::read_number(text, u32::from(place.decimals))
}

// The value of an N field.
pub fn read_number(table: &[u8], number: u32, field: u32) -> Result<Option<i64>, Refusal>
    ensures { numbered result ≡ number_cell table.now number field }
{
    let place = cell_place(table, Reads::Numbers, number, field)?;
    number_at(table, place)
}

// The date of the D field at a place.
pub fn date_at(table: &[u8], place: Place) -> Result<Option<Date>, Refusal>
    requires { PlaceInside table.now place }
    ensures { numbered result ≡ date_of (window table.now place.start place.length) }
{
    calendar::read_date(field_bytes(table, place))
}

// The date of a D field.
pub fn read_date(table: &[u8], number: u32, field: u32) -> Result<Option<Date>, Refusal>
    ensures { numbered result ≡ date_cell table.now number field }
{
    let place = cell_place(table, Reads::Dates, number, field)?;
    date_at(table, place)
}

// What the one character of an L field says.
#[tactic(auto, unfolding(crate::specs::Cell::logical_of))]
pub fn logical_of(letter: u32) -> Result<Option<bool>, Refusal>
    ensures { numbered result ≡ logical_of letter }
{
    match u8::try_from(letter) {
        Ok(b'T') => Ok(Some(true)),
        Ok(b'F') => Ok(Some(false)),
        Ok(b' ') => Ok(None),
        _ => Err(Refusal::DateOrLogical),
    }
}

// The value of the L field at a place.
pub fn logical_at(table: &[u8], place: Place) -> Result<Option<bool>, Refusal>
    requires { PlaceInside table.now place }
    ensures { numbered result ≡ logical_of (byte_at table.now place.start) }
{
    logical_of(octets::byte(table, place.start))
}

// The value of an L field.
pub fn read_logical(table: &[u8], number: u32, field: u32) -> Result<Option<bool>, Refusal>
    ensures { numbered result ≡ logical_cell table.now number field }
{
    let place = cell_place(table, Reads::Logicals, number, field)?;
    logical_at(table, place)
}

// Where the text of the C or M field at a place lies. The memo file is not read for a C field.
pub fn text_at(table: &[u8], memo: &[u8], place: Place) -> Result<Option<TextPlace>, Refusal>
    requires { PlaceInside table.now place }
    ensures { numbered result ≡ text_at table.now memo.now place.kind place.start place.length }
{
    if place.kind == FieldType::Text.letter() {
        return Ok(Some(TextPlace::Table(Span {
            start: place.start,
            len: usize::from(place.length),
        })));
    }
    let text = fpt_memo::memo_place(field_bytes(table, place), memo)?;
    Ok(text.map(TextPlace::Memo))
}

// Where the text of a C or M field lies.
pub fn text_place(
    table: &[u8],
    memo: &[u8],
    number: u32,
    field: u32,
) -> Result<Option<TextPlace>, Refusal>
    ensures { numbered result ≡ text_cell table.now memo.now number field }
{
    let place = cell_place(table, Reads::Texts, number, field)?;
    text_at(table, memo, place)
}

// The text at its place: a part of the table or of the memo file, of no bytes if there is no text.
#[tactic(auto, unfolding(crate::specs::Cell::TextWithin, crate::specs::Cell::text_part))]
pub fn text_part<'a>(
    table: &'a [u8],
    memo: &'a [u8],
    place: Result<Option<TextPlace>, Refusal>,
) -> &'a [u8]
    requires { TextWithin table.now memo.now (numbered place) }
    ensures { result.now ≡ text_part table.now memo.now (numbered place) }
{
    match place {
        Ok(Some(TextPlace::Table(span))) => part(table, span),
        Ok(Some(TextPlace::Memo(span))) => part(memo, span),
        Ok(None) => &table[..0],
        Err(_) => &table[..0],
    }
}

// The text of a C or M field: of no bytes if the field is empty or the call is refused.
pub fn text<'a>(table: &'a [u8], memo: &'a [u8], number: u32, field: u32) -> &'a [u8]
    ensures { result.now ≡ text_part table.now memo.now (text_cell table.now memo.now number field) }
{
    text_part(table, memo, text_place(table, memo, number, field))
}
