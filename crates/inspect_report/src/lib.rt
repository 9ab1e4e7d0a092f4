// What the program `inspect` does with its arguments: it prints what the library makes of a table, of its memo file and of its index, each refusal by
// its number and its words, and how many refusals there are.
//
//     inspect TABLE [MEMO|- [INDEX|- [FIELD]]]
//
// An INDEX whose name ends in `.ndx`, in any letters, is audited as an NDX index. For other arguments, for a FIELD beside such an INDEX, which has no match,
// and for a file that can't be read or has more than 1,048,576 bytes, it prints the one line `40`, and says on standard error what was wrong. It reads all
// files before it prints the first line, so that `40` stands alone. Without an index it does not use a FIELD.
//
// `rt` opens files and prints, as the runtime that `main` is given; `err` prints on standard error.
#![tactic(auto)]

mod line;
mod report;
mod shown;

ghost use Rattle.std.specs.Prelude.{◌≤◌, IfSome};
ghost use Rattle.files.specs.Counts.{IsPrefixLen};

use inspect_argument::{Field, names};
use line::Output;
use refusal::Refusal;
use std::fmt::Display;
use std::rt::Files;

// Says on standard error how the program ends. What can't be said there is lost.
fn say_unwritten(err: &impl Print) {
    let _ = println!(err; "inspect: the output could not be written");
}

// Prints the line 40, and then says on standard error what was wrong.
fn refuse(out: &impl Print, err: &impl Print, reason: impl Display + Drop) {
    if println!(out; "40").is_err() {
        say_unwritten(err);
        return;
    }
    let _ = println!(err; "inspect: 40: {reason}");
}

fn refuse_use(out: &impl Print, err: &impl Print) {
    let _ = println!(err;
        "use: inspect TABLE [MEMO|- [INDEX|- [FIELD]]], where FIELD is a field's number of 1 to 10 digits or its name"
    );
    refuse(out, err, "these are other arguments");
}

// The arguments: the names of the files, none for one that is not asked for, and what FIELD says, beside its word.
#[derive(Clone, Copy)]
struct Arguments<'a> {
    table: &'a [u8],
    memo: Option<&'a [u8]>,
    index: Option<&'a [u8]>,
    field: Option<(Field, &'a [u8])>,
}

// Argument i, if there is one and it isn't `-`.
fn given<'a>(words: &[&'a [u8]], i: usize) -> Option<&'a [u8]> {
    words
        .get(i)
        .copied()
        .filter(|word| *word != b"-".as_slice())
}

// What the arguments say, if they are those of the program.
fn arguments_of<'a>(words: &[&'a [u8]]) -> Option<Arguments<'a>> {
    let table = words.first()?;
    if 4 < words.len() {
        return None;
    }
    let field = match words.get(3) {
        Some(word) => Some((inspect_argument::field_argument(word).ok()?, *word)),
        None => None,
    };
    Some(Arguments {
        table,
        memo: given(words, 1),
        index: given(words, 2),
        field,
    })
}

// The bytes of the files that were asked for.
#[derive(Clone, Copy)]
struct Loaded<'a> {
    table: &'a [u8],
    memo: Option<&'a [u8]>,
    index: Option<&'a [u8]>,
}

// Reads a file to the start of its room, and answers its length. For one that can't be read, or is too long, it prints the line 40.
fn load(
    rt: &(impl Files + Print),
    err: &impl Print,
    path: &[u8],
    what: &str,
    room: &mut [u8],
) -> Option<usize>
    ensures { IfSome result (λ n. IsPrefixLen n room.new) }
{
    let loaded = files::load(rt, err, path, room).ok();
    if loaded.is_none() {
        refuse(
            rt,
            err,
            format_args!("{what} can't be read, or is too long"),
        );
    }
    loaded
}

// The audit's answer, of an NDX index if the name of its file says so.
fn audit(path: &[u8], index: &[u8]) -> Result<(), Refusal> {
    if inspect_argument::is_ndx(path) {
        ndx_audit::audit(index)
    } else {
        idx_audit::audit(index)
    }
}

fn match_field(table: &[u8], index: &[u8], field: Field, word: &[u8]) -> Result<(), Refusal> {
    match field {
        Field::Number(number) => idx_match::match_index(table, index, number),
        Field::Name => names::match_by_name(table, index, word),
    }
}

// The line of an index and, if a FIELD was given, the line of the match.
fn index_report<P: Print>(
    out: &Output<'_, P>,
    table: &[u8],
    index: &[u8],
    path: &[u8],
    field: Option<(Field, &[u8])>,
) -> u64
    ensures { result ≤ 2 }
{
    let of_index = report::answer_line(out, "index", audit(path, index));
    let of_match = match field {
        Some((field, word)) => {
            report::answer_line(out, "match", match_field(table, index, field, word))
        }
        None => 0,
    };
    of_index + of_match
}

// Prints all lines. The last one says how many of the lines before it have a refusal, which is the answer too.
fn print_report<P: Print>(
    out: &Output<'_, P>,
    loaded: Loaded<'_>,
    arguments: Arguments<'_>,
) -> u64 {
    let of_table = report::table_report(out, loaded.table, loaded.memo);
    let of_index = match (loaded.index, arguments.index) {
        (Some(index), Some(path)) => {
            index_report(out, loaded.table, index, path, arguments.field)
        }
        _ => 0,
    };
    let problems = of_table + of_index;
    out.print_line(format_args!("problems {problems}"));
    problems
}

// Prints the report, and then the verdict on standard error, once every line is written.
fn with_files(rt: &impl Print, err: &impl Print, arguments: Arguments<'_>, loaded: Loaded<'_>) {
    let out = Output::new(rt);
    let problems = print_report(&out, loaded, arguments);
    if out.is_written() {
        let _ = println!(err; "inspect: problems {problems}");
    } else {
        say_unwritten(err);
    }
}

// Reads the index, and goes on with all files. A file's room is on the stack, which can't be refused. The functions that have one are not inlined, so that it
// takes stack only where its file is read.
#[inline(never)]
fn read_index<'a>(
    rt: &(impl Files + Print),
    err: &impl Print,
    arguments: Arguments<'_>,
    path: &[u8],
    table: &'a [u8],
    memo: Option<&'a [u8]>,
) {
    let mut room = files::space();
    if let Some(n) = load(rt, err, path, "the index", &mut room) {
        let index = Some(&room[..n]);
        with_files(rt, err, arguments, Loaded { table, memo, index });
    }
}

// Goes on with the index, if one was given.
fn with_memo<'a>(
    rt: &(impl Files + Print),
    err: &impl Print,
    arguments: Arguments<'_>,
    table: &'a [u8],
    memo: Option<&'a [u8]>,
) {
    match arguments.index {
        Some(path) => read_index(rt, err, arguments, path, table, memo),
        None => with_files(
            rt,
            err,
            arguments,
            Loaded {
                table,
                memo,
                index: None,
            },
        ),
    }
}

// Reads the memo file, and goes on.
#[inline(never)]
fn read_memo(
    rt: &(impl Files + Print),
    err: &impl Print,
    arguments: Arguments<'_>,
    path: &[u8],
    table: &[u8],
) {
    let mut room = files::space();
    if let Some(n) = load(rt, err, path, "the memo file", &mut room) {
        with_memo(rt, err, arguments, table, Some(&room[..n]));
    }
}

// Goes on with the memo file, if one was given.
fn with_table(rt: &(impl Files + Print), err: &impl Print, arguments: Arguments<'_>, table: &[u8]) {
    match arguments.memo {
        Some(path) => read_memo(rt, err, arguments, path, table),
        None => with_memo(rt, err, arguments, table, None),
    }
}

// Reads the table, and goes on.
#[inline(never)]
fn read_table(rt: &(impl Files + Print), err: &impl Print, arguments: Arguments<'_>) {
    let mut room = files::space();
    if let Some(n) = load(rt, err, arguments.table, "the table", &mut room) {
        with_table(rt, err, arguments, &room[..n]);
    }
}

// The program, called with these words behind its own name. It reads all files, prints, and ends with a verdict on standard error.
pub fn inspect(rt: &(impl Files + Print), err: &impl Print, words: &[&[u8]]) {
    let Some(arguments) = arguments_of(words) else {
        refuse_use(rt, err);
        return;
    };
    if arguments.field.is_some() && arguments.index.is_some_and(inspect_argument::is_ndx) {
        refuse(rt, err, "an NDX index has no match: leave the FIELD out");
        return;
    }
    read_table(rt, err, arguments);
}
