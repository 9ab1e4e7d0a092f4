// Lines of words, as the test programs read them: words with one blank between, decimal numbers, and bytes in hexadecimal. A line is taken loosely: a word that
// is missing is empty, and any byte is a digit. The test programs share what they do with the bytes of files too.
//
// Beside that stands a strict reading of text: `words`, `parse`, `number` and `calls::Call` take a line as its list has it, or answer `bad_line`.
#![tactic(auto)]

ghost use Rattle.std.specs.Str.Iter.{split_text, split_has_more, split_pattern, split_started};
ghost use Rattle.std.specs.Prelude.{◌≡◌, ◌<◌, ◌≤◌, ℕ, IfErr, IfOk, IsErr, IsTrue, List, MatchOption, None, Option, Some};
ghost use Rattle.std.specs.Prelude.{codes, cond, false, length, slice_set};
ghost use Rattle.std.specs.Borrow.{Bor};
ghost use Rattle.std.specs.IoError.{error_kind};
ghost use Rattle.files.specs.Counts.{IsPrefixLen};
ghost use Rattle.test_lines.specs.Words.{IsReadIn, TakesWord};

pub mod calls;

use std::io;
use std::io::ErrorKind;
use std::rt::Files;
use std::str::{FromStr, Split};

pub fn print_number(out: &impl Print, n: u32) {
    let _ = out.print(n);
}

// Prints a text. What can't be printed is lost.
pub fn print(out: &impl Print, text: &[u8]) {
    let _ = out.write_all(text);
}

// The first line of a list, and the lines behind it. The last line may have no line feed.
pub fn first_line(list: &[u8]) -> (&[u8], &[u8])
    requires { 0 < length list.now }
    ensures { length result.1.now < length list.now }
{
    let end = find(list, 0, b'\n');
    match list.get(end + 1..) {
        Some(behind) => (&list[..end], behind),
        None => (&list[..end], &[]),
    }
}

// Reads what fits of a test's file to the start of a room, and answers how many bytes stand there. Standard error says why a file is not whole.
pub fn load(rt: &impl Files, err: &impl Print, path: &[u8], room: &mut [u8]) -> usize
    ensures { IsPrefixLen result room.new }
{
    match files::load(rt, err, path, room) {
        Ok(len) => len,
        Err(partial) => partial.len,
    }
}

// The first index from `from` on where the byte stands, or the length.
pub fn find(s: &[u8], from: usize, byte: u8) -> usize
    requires { from ≤ length s.now }
    ensures { (from ≤ result) × (result ≤ length s.now) }
{
    match s[from..].iter().position(|at| *at == byte) {
        Some(i) => from + i,
        None => s.len(),
    }
}

// The first word.
pub fn word(s: &[u8]) -> &[u8] {
    let end = find(s, 0, b' ');
    &s[..end]
}

// The text behind the first word and one space.
pub fn after_word(s: &[u8]) -> &[u8] {
    let end = find(s, 0, b' ');
    if end < s.len() { &s[end + 1..] } else { &[] }
}

// The number that the first word says, in at most nine digits.
pub fn first_number(s: &[u8]) -> u32 {
    let mut n = 0;
    for digit in word(s) {
        n = n % 100000000 * 10 + u32::from(digit % 16);
    }
    n
}

// The room for a test's file.
pub const ROOM: usize = 65536;

// That a line is none of its list: what the strict reading answers. The test programs read loosely, and go on with the next line.
pub fn bad_line() -> io::Error
    ensures { error_kind result ≡ ErrorKind.InvalidData }
{
    io::Error::new(ErrorKind::InvalidData, "a test's line has other words")
}

// The words of a line. Between two blanks stands an empty word.
pub fn words(line: &str) -> Split<'_, char>
    ensures text { split_text result ≡ line.now }
    ensures blank { split_pattern result ≡ 32 }
    ensures first { (split_started result ≡ false) × IsTrue (split_has_more result) }
{
    line.split(' ')
}

// What a word says, as a number.
pub fn parse<T: FromStr>(word: &str) -> io::Result<T>
where
    T::Err: Drop,
    ensures value { IsReadIn T.from_str_gives word.now result }
    ensures other { IfErr result (λ error. error_kind error ≡ ErrorKind.InvalidData) }
{
    word.parse().map_err(|_| bad_line())
}

// The next word.
fn next_word<'a>(words: &mut Split<'a, char>) -> io::Result<&'a str>
    ensures word { IfOk result (λ word. TakesWord words.old (Some word) words.new) }
    ensures none { IfErr result (λ error. TakesWord words.old None words.new × (error_kind error ≡ ErrorKind.InvalidData)) }
{
    words.next().ok_or_else(bad_line)
}

// What the next word says, as a number.
pub fn number<T: FromStr>(words: &mut Split<'_, char>) -> io::Result<T>
where
    T::Err: Drop,
    ensures word { (w : Option (Bor (List ℕ))) × TakesWord words.old w words.new × MatchOption w (IsErr result) (λ x. IsReadIn T.from_str_gives x.now result) }
    ensures other { IfErr result (λ error. error_kind error ≡ ErrorKind.InvalidData) }
{
    parse(next_word(words)?)
}

// The value of a hexadecimal digit, in small letters or capitals.
fn hex_value(digit: u8) -> u8
    ensures { result ≤ 15 }
{
    if digit <= b'9' {
        digit % 16
    } else {
        (digit % 16 + 9) % 16
    }
}

// Writes the bytes that a word in hexadecimal says, as many as there is room for, and answers how many there are. `-` says none.
pub fn hex_bytes(word: &[u8], out: &mut [u8]) -> usize
    ensures { result ≤ length out.new }
{
    let count = (word.len() / 2).min(out.len());
    for i in 0..count {
        out[i] = hex_value(word[2 * i]) * 16 + hex_value(word[2 * i + 1]);
    }
    count
}

// Sets the byte at an offset, if there are so many.
pub fn set_byte(bytes: &mut [u8], at: usize, value: u8)
    ensures set { at < length bytes.old → bytes.new ≡ slice_set bytes.old at value }
    ensures same { length bytes.old ≤ at → bytes.new ≡ bytes.old }
{
    if at < bytes.len() {
        bytes[at] = value;
    }
}

// Whether a buffer begins with the bytes of an index file.
pub fn begins_with(buffer: &[u8], file: &[u8]) -> bool
    ensures { IsTrue result → (1024 ≤ length file.now) × (length file.now ≤ length buffer.now) }
{
    1024 <= file.len() && buffer.starts_with(file)
}

// The word for whether bytes are those of a file.
fn same_word(same: bool) -> &'static str
    ensures { result.now ≡ cond same (codes "same") (codes "differs") }
{
    if same { "same" } else { "differs" }
}

// Prints whether bytes are those of a file.
pub fn print_same(out: &impl Print, name: &str, same: bool) -> io::Result<()> {
    println!(out; "{name} {}", same_word(same))
}

#[cfg(test)]
mod tests;
