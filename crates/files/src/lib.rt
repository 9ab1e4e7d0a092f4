// Whole files, standard input, and the words that a program is called with. Each is read to room that the caller lends or that lies on the stack, so that no
// call is refused memory. What can't be taken is refused with a message on standard error that says why. `err` is what prints there, as the standard error of
// the runtime that `main` is given. A message that can't be printed changes nothing.
#![tactic(auto)]

ghost use Rattle.std.specs.Prelude.{◌≡◌, ◌≤◌, All, IfErr, IfOk, length};
ghost use Rattle.files.specs.Counts.{IsPrefixLen};

use std::env::FillError;
use std::fmt::{Display, InlineText};
use std::io::{Error, ErrorKind, Input, Read};
use std::rt::{Env, Files};
use std::{fs, io, str};

// Room for 1,048,576 bytes. The `ensures` gives only the length: it is all that lending the array as a slice needs.
pub fn space() -> [u8; 1048576]
    ensures { 1048576 ≡ length result }
{
    [0; 1048576]
}

// The system's words for an error, without its number, which std prints behind them.
fn without_number(text: &str) -> &str {
    match text.split_once(" (os error ") {
        Some((words, _)) => words,
        None => text,
    }
}

// Says what is wrong with a file.
fn say(err: &impl Print, path: &[u8], wrong: impl Display + Drop) -> io::Result<()> {
    err.write_all(path)?;
    println!(err; ": {wrong}")
}

// Says why a file can't be read. A word that is longer than any file's name comes as an empty path.
fn say_unread(err: &impl Print, path: &[u8], error: Error) -> io::Result<()> {
    if path.is_empty() {
        return println!(err; "a file's name is empty or longer than 4095 bytes");
    }
    let text = InlineText::<96>::of(error);
    say(err, path, without_number(text.as_str()))
}

// Reads until the buffer is full, the input ends or a read fails, and answers how many bytes stand at the start of the buffer.
pub fn read_full(input: &mut impl Read, buffer: &mut [u8]) -> usize
    ensures { IsPrefixLen result buffer.new }
{
    let mut done = 0;
    while done < buffer.len() {
        let n = input.read(&mut buffer[done..]).unwrap_or(0);
        if n == 0 {
            break;
        }
        done += n;
    }
    done
}

// That a file is not read to its end: so many of its bytes stand at the start of the buffer.
#[derive(Clone, Copy, Debug)]
pub struct Partial {
    pub len: usize,
}

// Whether the file ends where reading it into the buffer stopped. Reading also stops if the buffer is full, and if the file can't be read.
fn is_at_end(input: &mut impl Read, err: &impl Print, name: &[u8], room: usize) -> bool {
    let mut more = [0u8; 1];
    match input.read(&mut more) {
        Ok(0) => return true,
        Ok(_) => {
            let _ = say(err, name, format_args!("longer than {room} bytes"));
        }
        Err(error) => {
            let _ = say_unread(err, name, error);
        }
    }
    false
}

// Reads what was opened under this name to the start of a buffer, and answers how many bytes stand there.
fn fill(
    input: &mut impl Read,
    err: &impl Print,
    name: &[u8],
    buffer: &mut [u8],
) -> Result<usize, Partial>
    ensures whole { IfOk result (λ len. IsPrefixLen len buffer.new) }
    ensures part { IfErr result (λ partial. IsPrefixLen partial.len buffer.new) }
{
    let len = read_full(input, buffer);
    if is_at_end(input, err, name, buffer.len()) {
        Ok(len)
    } else {
        Err(Partial { len })
    }
}

// Opens a file for reading. The name of a file is text in UTF-8.
fn open<R: Files>(rt: &R, path: &[u8]) -> io::Result<R::File> {
    match str::from_utf8(path) {
        Ok(name) => fs::open(rt, name),
        Err(_) => Err(Error::new(ErrorKind::InvalidInput, "the file's name is not UTF-8")),
    }
}

// Reads a file of at most as many bytes as the buffer has, and answers how many it has.
pub fn load(
    rt: &impl Files,
    err: &impl Print,
    path: &[u8],
    buffer: &mut [u8],
) -> Result<usize, Partial>
    ensures whole { IfOk result (λ len. IsPrefixLen len buffer.new) }
    ensures part { IfErr result (λ partial. IsPrefixLen partial.len buffer.new) }
{
    match open(rt, path) {
        Ok(mut file) => fill(&mut file, err, path, buffer),
        Err(error) => {
            let _ = say_unread(err, path, error);
            Err(Partial { len: 0 })
        }
    }
}

// Reads standard input of at most as many bytes as the buffer has, and answers how many it has.
pub fn load_input(rt: &impl Input, err: &impl Print, buffer: &mut [u8]) -> Result<usize, Partial>
    ensures whole { IfOk result (λ len. IsPrefixLen len buffer.new) }
    ensures part { IfErr result (λ partial. IsPrefixLen partial.len buffer.new) }
{
    fill(&mut rt.reader(), err, b"standard input", buffer)
}

// How many words the program was called with, its own name first.
pub fn word_count(rt: &impl Env) -> usize {
    let mut none = [0u8; 1];
    for i in 0..usize::MAX {
        match rt.arg(i, &mut none) {
            Err(FillError::NotPresent) => return i,
            Ok(_) | Err(FillError::TooLong) => {}
        }
    }
    usize::MAX
}

// Reads word i to the start of a buffer, and answers how many bytes it has. A word that is missing, or does not fit the buffer, is empty. It need not be text.
pub fn word(rt: &impl Env, i: usize, buffer: &mut [u8]) -> usize
    ensures { IsPrefixLen result buffer.new }
{
    rt.arg(i, buffer).unwrap_or(0)
}

// N of the words that a program was called with, as far as they are there, each in room for the longest name of a file and the zero behind it.
#[derive(Clone, Copy)]
pub struct CommandLine<const N: usize> {
    pub count: usize,
    pub lengths: [usize; N],
    pub rooms: [[u8; 4096]; N],
}

// The N words from word `first` on that the program was called with; word 0 is its own name. No file's name has more than 4,095 bytes: a word that does not fit
// comes empty. Not inlined, so that the room in which a word is read is free again when the program goes on.
#[inline(never)]
pub fn words<const N: usize>(rt: &impl Env, first: usize) -> CommandLine<N>
    ensures count { result.count ≤ N }
    ensures lengths { All (λ n. n ≤ 4096) result.lengths }
{
    let mut line = CommandLine {
        count: word_count(rt).saturating_sub(first).min(N),
        lengths: [0; N],
        rooms: [[0; 4096]; N],
    };
    for i in 0..N {
        let mut room = [0; 4096];
        line.lengths[i] = word(rt, first.saturating_add(i), &mut room);
        line.rooms[i] = room;
    }
    line
}

impl<const N: usize> CommandLine<N> {
    // Word i of them, an empty one where there is none.
    pub fn get(&self, i: usize) -> &[u8]
        ensures { length result.now ≤ 4096 }
    {
        match (self.rooms.get(i), self.lengths.get(i)) {
            (Some(room), Some(n)) => room.get(..*n).unwrap_or(&[]),
            _ => &[],
        }
    }
}
