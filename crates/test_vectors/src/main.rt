// Reads lines from standard input and prints what the library answers, a line each. A line is
//   n DECIMALS TEXT           read a numeric text
//   d TEXT                    read a date's text
//   w WIDTH DECIMALS VALUE    write a value
// TEXT is the rest of the line behind one space, blanks and all. A write that fails changes nothing.
#![tactic(auto)]

use calendar::Date;
use refusal::Refusal;
use std::fmt::{Display, Formatter};
use std::{fmt, io};
use test_lines::{after_word, first_number};

// The first bytes of standard input, which are read.
const MOST: usize = 65536;

// Wider than any field.
const WIDEST: usize = 24;

// A date with its numbers as they are, no zeros before them.
#[derive(Clone, Copy)]
struct Plain(Date);

impl Display for Plain {
    fn fmt<W: fmt::Write>(&self, f: &mut Formatter<W>) -> fmt::Result {
        let Plain(Date { year, month, day }) = *self;
        write!(f, "{year}-{month}-{day}")
    }
}

// Prints a value, that there is none, or the number of the refusal.
fn print_answer<T: Display + Drop>(
    out: &impl Print,
    answer: Result<Option<T>, Refusal>,
) -> io::Result<()> {
    match answer {
        Ok(Some(value)) => print!(out; "{value}"),
        Ok(None) => print!(out; "empty"),
        Err(refusal) => print!(out; "refused {}", refusal.number()),
    }
}

// `DECIMALS TEXT`
fn read_number(out: &impl Print, rest: &[u8]) -> io::Result<()> {
    let answer = numeral_read::read_number(after_word(rest), first_number(rest));
    print_answer(out, answer)
}

fn read_date(out: &impl Print, text: &[u8]) -> io::Result<()> {
    let answer = calendar::read_date(text);
    print_answer(out, answer.map(|date| date.map(Plain)))
}

// `WIDTH DECIMALS VALUE`: the answer, and what the field holds then.
fn write_number(out: &impl Print, rest: &[u8]) -> io::Result<()> {
    let decimals = after_word(rest);
    let Ok(Some(value)) = numeral_read::read_number(after_word(decimals), 0) else {
        return print!(out; "?");
    };
    let width = (first_number(rest) as usize).min(WIDEST);
    let mut field = [b'#'; WIDEST];
    let field = &mut field[..width];
    let answer = numeral_write::write_number(field, first_number(decimals), value);
    print_answer(out, answer.map(|()| Some("written")))?;
    print!(out; " [")?;
    out.write_all(field)?;
    print!(out; "]")
}

// An empty line has no answer.
fn answer_line(out: &impl Print, line: &[u8]) -> io::Result<()> {
    let rest = after_word(line);
    match line.first() {
        None => return Ok(()),
        Some(b'n') => read_number(out, rest)?,
        Some(b'd') => read_date(out, rest)?,
        Some(_) => write_number(out, rest)?,
    }
    println!(out;)
}

fn main(rt: HostRuntime) {
    let mut input = [0u8; MOST];
    let n = files::read_full(&mut rt.stdin(), &mut input);
    for line in input[..n].split(|byte| *byte == b'\n') {
        let _ = answer_line(&rt, line);
    }
}
