// The program that prints a lab's dilution sheet. It takes the arguments and reads the files and standard input; `dilute_sheet` decides every line.
//
//     dilute TABLE INDEX < NUMBERS
//
// Other arguments, and a file or an input that can't be read or is too long, print the one line `40`. All is read before the first line is printed.
//
// The last line on standard error is the program's verdict, written once the output is: what was printed, by the proved count, or what was wrong. Without it
// the program did not come to its end.
#![tactic(auto)]

use dilute_sheet::input::{Fault, Wrong, input_fault};
use dilute_sheet::tally::{Tally, sheet_verdict};
use files::Partial;
use refusal::Refusal;
use std::fmt;
use std::fmt::{Display, Formatter};
use std::io::Input;
use std::rt::Files;

// The greatest table and index.
const MOST: usize = 65536;

// Four lines of ten digits have 44 bytes. Of an input of more than 64 bytes the first 64 have the first fault, since four good lines have fewer.
const INPUT_ROOM: usize = 64;

// What is wrong with the numbers that are on standard input.
#[derive(Clone, Copy)]
struct Numbers<'a>(&'a [u8]);

impl Display for Numbers<'_> {
    fn fmt<W: fmt::Write>(&self, f: &mut Formatter<W>) -> fmt::Result {
        if self.0.is_empty() {
            return f.write_str("there is nothing on standard input");
        }
        let Fault { line, wrong } = input_fault(self.0);
        let words = match wrong {
            Wrong::Missing => "is missing: four lines are asked for",
            Wrong::TooLong => "has more than 10 digits",
            Wrong::Unended => "has no line feed at its end",
            Wrong::CarriageReturn => "has a carriage return: it is to end with a line feed alone",
            Wrong::OtherByte =>
                "has a byte that is no digit: no point, comma, sign or blank is taken",
            Wrong::Empty => "is empty",
            Wrong::More => {
                return f.write_str("there is something after the four lines of the numbers");
            }
            Wrong::Nothing => return f.write_str("the numbers can't be taken"),
        };
        write!(f, "line {line} of the numbers {words}")
    }
}

// Says the verdict. What can't be said is lost.
fn say(err: &impl Print, verdict: impl Display + Drop) {
    let _ = println!(err; "dilute: {verdict}");
}

// Prints the whole output, and answers whether all of it was written. If not, that is the verdict.
fn show(out: &impl Print, err: &impl Print, text: &[u8]) -> bool {
    let written = out.write_all(text).is_ok();
    if !written {
        say(err, "the output could not be written");
    }
    written
}

// Prints the line 40, and then the verdict.
fn refuse_by(out: &impl Print, err: &impl Print, reason: &str) {
    if show(out, err, b"40\n") {
        say(err, format_args!("40: {reason}"));
    }
}

// The verdict on a sheet that was shown.
fn say_verdict(err: &impl Print, verdict: Result<Tally, Refusal>, input: &[u8], bytes: usize) {
    match verdict {
        Ok(Tally { lines, refused }) => {
            say(
                err,
                format_args!("{lines} lines, {refused} refused; {bytes} bytes"),
            )
        }
        Err(Refusal::ArgumentsOrFiles) => say(err, format_args!("40: {}", Numbers(input))),
        Err(refusal) => {
            let number = refusal.number();
            say(err, format_args!("the whole sheet is refused by {number}"))
        }
    }
}

// Prints the sheet, and then the verdict. Its room is enough for the sheet of any table of 65,536 bytes.
fn print_sheet(out: &impl Print, err: &impl Print, table: &[u8], index: &[u8], input: &[u8]) {
    let mut sheet = files::space();
    let bytes = dilute_sheet::sheet(table, index, input, &mut sheet);
    if show(out, err, &sheet[..bytes]) {
        say_verdict(err, sheet_verdict(table, index, input), input, bytes);
    }
}

// Reads standard input, and prints the sheet. An input that is too long, or can't be read to its end, has its fault among its first 64 bytes if it has so many.
fn with_files(rt: &(impl Input + Print), err: &impl Print, table: &[u8], index: &[u8]) {
    let mut input = [0u8; INPUT_ROOM];
    match files::load_input(rt, err, &mut input) {
        Ok(len) => print_sheet(rt, err, table, index, &input[..len]),
        Err(Partial { len: INPUT_ROOM }) => print_sheet(rt, err, table, index, &input),
        Err(_) => refuse_by(rt, err, "standard input can't be read"),
    }
}

// Reads the files, and goes on with them. Their room, as that of the sheet and of the words, is on the stack, which can't be refused.
fn dilute(
    rt: &(impl Files + Input + Print),
    err: &impl Print,
    table_path: &[u8],
    index_path: &[u8],
) {
    let mut table = [0u8; MOST];
    let Ok(table_len) = files::load(rt, err, table_path, &mut table) else {
        refuse_by(rt, err, "the table can't be read, or is too long");
        return;
    };
    let mut index = [0u8; MOST];
    let Ok(index_len) = files::load(rt, err, index_path, &mut index) else {
        refuse_by(rt, err, "the index can't be read, or is too long");
        return;
    };
    with_files(rt, err, &table[..table_len], &index[..index_len]);
}

fn main(rt: HostRuntime) {
    let err = rt.stderr();
    if files::word_count(&rt) != 3 {
        let _ = println!(err;
            "use: dilute TABLE INDEX, with barcode field, concentration field, target and final volume on four lines of standard input"
        );
        refuse_by(
            &rt,
            &err,
            "two arguments are asked for, the table and the index",
        );
        return;
    }
    let paths = files::words::<2>(&rt, 1);
    dilute(&rt, &err, paths.get(0), paths.get(1));
}
