// Runs `inspect` on tables that other programs made, with their memo files and indexes, and on arguments that it refuses: for each run it prints a line with
// the arguments, and then what `inspect` prints. Then it prints the texts of a table as `dbf_cell::text` hands them back, and the words of each refusal.
// README.md beside src/ says where the files and the expected lines came from.
#![tactic(auto)]

use refusal::Refusal;
use std::fmt::{Display, InlineText};
use std::rt::Files;
use test_lines::{ROOM, print, print_number};

const TABLES: [&[&[u8]]; 8] = [
    &[b"shp_point.dbf"],
    &[b"shp_comma.dbf"],
    &[b"xbase_plain.dbf"],
    &[b"fpc_l3.dbf"],
    &[b"gdal.dbf"],
    &[b"pydbf_db3.dbf"],
    &[b"pydbf_fp.dbf"],
    &[b"xbase_83.dbf"],
];

const MEMOS: [&[&[u8]]; 3] = [
    &[b"xbase_f5.dbf", b"xbase_f5.fpt"],
    &[b"fpc_fox.dbf", b"fpc_fox.fpt"],
    &[b"xbase_f5.dbf", b"-"],
];

const INDEXES: [&[&[u8]]; 4] = [
    &[b"xbase_s20.dbf", b"-", b"xbase_s20.idx", b"1"],
    &[b"xbase_s20.dbf", b"-", b"xbase_s20_unique.idx", b"1"],
    &[b"pydbf_fp.dbf", b"-", b"xbase_s20_unique.idx"],
    &[b"pydbf_fp.dbf", b"-", b"xbase_s20_unique.idx", b"1"],
];

// No such field, a number for 33 bits, a field of another type, and records that have no entry.
const FIELDS: [&[&[u8]]; 4] = [
    &[b"shp_point.dbf", b"-", b"xbase_s20_unique.idx", b"0"],
    &[
        b"shp_point.dbf",
        b"-",
        b"xbase_s20_unique.idx",
        b"4294967297",
    ],
    &[b"shp_point.dbf", b"-", b"xbase_s20_unique.idx", b"2"],
    &[
        b"shp_point.dbf",
        b"-",
        b"xbase_s20_unique.idx",
        b"0000000001",
    ],
];

const REFUSED_FILES: [&[&[u8]]; 5] = [
    &[],
    &[b"none.dbf"],
    &[b"."],
    &[b"shp_point.dbf", b"none.fpt"],
    &[b"shp_point.dbf", b"-", b"none.idx", b"1"],
];

// The last is no refusal: without an index there is nothing to match.
const REFUSED_FIELDS: [&[&[u8]]; 4] = [
    &[b"shp_comma.dbf", b"-", b"-", b"00000000001"],
    &[b"shp_comma.dbf", b"-", b"-", b"1a"],
    &[b"shp_comma.dbf", b"-", b"-", b"BARCODES_11"],
    &[b"shp_comma.dbf", b"-", b"-", b"1"],
];

// Fields by their names: one that matches, one of another type, the beginning of a name, a name and more, and bytes that are no field's name. The last run is
// on a refused table: no name of it is known, so the match's answer is the table's refusal.
const NAMES: [&[&[u8]]; 6] = [
    &[b"xbase_s20.dbf", b"-", b"xbase_s20_unique.idx", b"BARCODE"],
    &[b"shp_point.dbf", b"-", b"xbase_s20_unique.idx", b"OK"],
    &[b"shp_point.dbf", b"-", b"xbase_s20_unique.idx", b"BARCOD"],
    &[
        b"shp_point.dbf",
        b"-",
        b"xbase_s20_unique.idx",
        b"BARCODE_10",
    ],
    &[b"shp_point.dbf", b"-", b"xbase_s20.idx", b"-"],
    &[b"pydbf_fp.dbf", b"-", b"xbase_s20_unique.idx", b"BARCODE"],
];

const REFUSALS: [Refusal; 39] = [
    Refusal::TableSize,
    Refusal::TableKind,
    Refusal::UpdateDate,
    Refusal::HeaderLength,
    Refusal::HeaderEndMark,
    Refusal::FieldDescriptor,
    Refusal::FieldNameTwice,
    Refusal::MemoFieldAndKind,
    Refusal::RecordLength,
    Refusal::TableLength,
    Refusal::RecordNumber,
    Refusal::FieldNumber,
    Refusal::FieldType,
    Refusal::FieldListTooShort,
    Refusal::DeletionByte,
    Refusal::Comma,
    Refusal::NotANumber,
    Refusal::TooManyDigits,
    Refusal::DoesNotFit,
    Refusal::DateOrLogical,
    Refusal::MemoNumberOrPlace,
    Refusal::MemoHeader,
    Refusal::MemoNotText,
    Refusal::IndexHeader,
    Refusal::IndexNotSound,
    Refusal::KeyLength,
    Refusal::RecordNumberZero,
    Refusal::KeyPresent,
    Refusal::NoRoom,
    Refusal::IndexAndTableDiffer,
    Refusal::ControlByte,
    Refusal::KeyAbsent,
    Refusal::NoKey,
    Refusal::BarcodeAbsent,
    Refusal::NoConcentration,
    Refusal::TargetOrVolume,
    Refusal::TargetAboveConcentration,
    Refusal::ListTooShort,
    Refusal::ArgumentsOrFiles,
];

// Runs `inspect` with these words behind its own name.
fn run(rt: &(impl Files + Print), err: &impl Print, words: &[&[u8]]) {
    print(rt, b"==");
    for word in words {
        print(rt, b" ");
        print(rt, word);
    }
    print(rt, b"\n");
    inspect_report::inspect(rt, err, words);
}

fn run_all(rt: &(impl Files + Print), err: &impl Print, calls: &[&[&[u8]]]) {
    for words in calls {
        run(rt, err, words);
    }
}

// Prints the text of a C or an M field as `inspect` prints a text of plain bytes, and nothing for a field without text.
fn print_text(out: &impl Print, table: &[u8], memo: &[u8], number: u32, j: u32) {
    let text = dbf_cell::text(table, memo, number, j);
    if text.is_empty() {
        return;
    }
    print(out, b"value ");
    print_number(out, number);
    print(out, b" ");
    print_number(out, j);
    print(out, b" 0 \"");
    print(out, text);
    print(out, b"\"\n");
}

// The two fields of `xbase_f5` that have texts, of all its records. Not inlined, so that its rooms are not on the stack while `inspect` runs.
#[inline(never)]
fn print_texts(rt: &(impl Files + Print), err: &impl Print) {
    let mut table = [0u8; ROOM];
    let mut memo = [0u8; ROOM];
    let n = test_lines::load(rt, err, b"xbase_f5.dbf", &mut table);
    let m = test_lines::load(rt, err, b"xbase_f5.fpt", &mut memo);
    print(rt, b"-- texts xbase_f5.dbf xbase_f5.fpt\n");
    for number in 1..=5 {
        print_text(rt, &table[..n], &memo[..m], number, 1);
        print_text(rt, &table[..n], &memo[..m], number, 5);
    }
}

// Prints a line by one write, as `inspect` does.
fn print_line(out: &impl Print, line: impl Display + Drop) {
    print(out, InlineText::<64>::of(line).as_str().as_bytes());
}

// The words of the refusals 1 to 40. 26 is no refusal and has none.
fn print_words(out: &impl Print) {
    print(out, b"-- words\n");
    for number in 1..=40 {
        match REFUSALS.iter().find(|refusal| refusal.number() == number) {
            Some(refusal) => print_line(out, format_args!("{number} {refusal}\n")),
            None => print_line(out, format_args!("{number} \n")),
        }
    }
}

fn main(rt: HostRuntime) {
    let err = rt.stderr();
    run_all(&rt, &err, &TABLES);
    run_all(&rt, &err, &MEMOS);
    run_all(&rt, &err, &INDEXES);
    run_all(&rt, &err, &FIELDS);
    run_all(&rt, &err, &REFUSED_FILES);
    run_all(&rt, &err, &REFUSED_FIELDS);
    run_all(&rt, &err, &NAMES);
    print_texts(&rt, &err);
    print_words(&rt);
}
