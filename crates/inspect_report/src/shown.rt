// How the lines of `inspect` show values and refusals.
ghost use Rattle.std.specs.Prelude.{◌≡◌, ◌+◌, ◌≤◌, length};

use calendar::Date;
use refusal::Refusal;
use std::fmt::{Display, Formatter, Write};
use std::{fmt, str};

// A refusal: its number, and its words in parentheses.
#[derive(Clone, Copy)]
pub struct Refused(pub Refusal);

impl Display for Refused {
    fn fmt<W: Write>(&self, f: &mut Formatter<W>) -> fmt::Result {
        let refusal = self.0;
        let number = refusal.number();
        write!(f, "{number} ({refusal})")
    }
}

// A value behind 0, that there is none, or a refusal.
#[derive(Drop)]
pub struct Shown<T>(pub Result<Option<T>, Refusal>);

impl<T: Display> Display for Shown<T> {
    fn fmt<W: Write>(&self, f: &mut Formatter<W>) -> fmt::Result {
        match &self.0 {
            Ok(Some(value)) => write!(f, "0 {value}"),
            Ok(None) => f.write_str("empty"),
            Err(refusal) => Refused(*refusal).fmt(f),
        }
    }
}

// A number with its point, by the library's own writer, so with the zero before the point: 20 characters hold every value that the reader gives.
#[derive(Clone, Copy)]
pub struct Decimal {
    pub value: i64,
    pub decimals: u32,
}

impl Display for Decimal {
    fn fmt<W: Write>(&self, f: &mut Formatter<W>) -> fmt::Result {
        let mut text = [b' '; 20];
        numeral_write::write_number(&mut text, self.decimals, self.value).map_err(|_| fmt::Error)?;
        f.write_str(str::from_utf8(text.trim_ascii_start()).map_err(|_| fmt::Error)?)
    }
}

// The last digit of a number.
fn last_digit(number: u32) -> u8 {
    b'0' + (number % 10) as u8
}

// YYYYMMDD.
#[derive(Clone, Copy)]
pub struct Day(pub Date);

impl Display for Day {
    fn fmt<W: Write>(&self, f: &mut Formatter<W>) -> fmt::Result {
        let Date { year, month, day } = self.0;
        let text = [
            last_digit(year / 1000),
            last_digit(year / 100),
            last_digit(year / 10),
            last_digit(year),
            last_digit(month / 10),
            last_digit(month),
            last_digit(day / 10),
            last_digit(day),
        ];
        f.write_str(str::from_utf8(&text).map_err(|_| fmt::Error)?)
    }
}

// Whether a byte is printed as it is between quotes.
pub fn is_plain(byte: u8) -> bool {
    matches!(byte, b' '..=b'~') && byte != b'"' && byte != b'\\'
}

// The digits of a number in hexadecimal.
const DIGITS: [u8; 16] = *b"0123456789ABCDEF";

// Puts a byte at an offset as it is shown between quotes, and answers the offset behind it.
fn put_byte(shown: &mut [u8], at: usize, byte: u8) -> usize
    requires { at + 4 ≤ length shown.old }
    ensures len { length shown.new ≡ length shown.old }
    ensures end { result ≤ at + 4 }
{
    if is_plain(byte) {
        shown[at] = byte;
        return at + 1;
    }
    shown[at] = b'\\';
    shown[at + 1] = b'x';
    shown[at + 2] = DIGITS[usize::from(byte / 16)];
    shown[at + 3] = DIGITS[usize::from(byte % 16)];
    at + 4
}

// The bytes of a text that are shown at once.
const PART: usize = 64;

// Writes a part of a text. Text by text takes less time than byte by byte, and most parts are plain.
fn write_part<W: Write>(f: &mut Formatter<W>, part: &[u8]) -> fmt::Result
    requires { length part.now ≤ 64 }
{
    if part.iter().all(|byte| is_plain(*byte)) {
        return f.write_str(str::from_utf8(part).map_err(|_| fmt::Error)?);
    }
    let mut shown = [0u8; 4 * PART];
    let mut end = 0;
    for i in 0..part.len() {
        end = put_byte(&mut shown, end, part[i]);
    }
    f.write_str(str::from_utf8(&shown[..end]).map_err(|_| fmt::Error)?)
}

// A text between quotes: plain bytes as they are, and each other byte as \xHH.
#[derive(Clone, Copy)]
pub struct Quoted<'a>(pub &'a [u8]);

impl Display for Quoted<'_> {
    fn fmt<W: Write>(&self, f: &mut Formatter<W>) -> fmt::Result {
        f.write_char('"')?;
        for part in self.0.chunks(PART) {
            write_part(f, part)?;
        }
        f.write_char('"')
    }
}
