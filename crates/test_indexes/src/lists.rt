// Lists of calls: lines of text are turned into bytes and run by `idx_batch`, and the answers are printed as the lines have them. A line is taken loosely: a
// word that is missing is empty, and a line that says no call is passed over.
ghost use Rattle.std.specs.Prelude.{◌≤◌, length};

use idx_batch::ANSWER_SIZE;
use refusal::{Refusal, change_code};
use std::iter::Take;
use std::slice::Iter;
use test_lines::{
    ROOM, after_word, first_line, first_number, hex_bytes, print, print_number, word,
};

// The kinds of calls in the bytes of a list.
#[derive(Clone, Copy)]
enum Kind {
    LookUp = 0,
    Insertion = 1,
    Removal = 2,
}

// What the written answers do not have: how many calls were made, or why there is no fresh index; and the audit of the buffer after the last call.
#[derive(Clone, Copy)]
struct Outcome {
    made: Result<usize, Refusal>,
    audit: Result<(), Refusal>,
}

// The answers of the calls that were made, as they are written.
type Replies<'a> = Take<Iter<'a, [u8; ANSWER_SIZE]>>;

impl Kind {
    // The kind of a line's call, by its first letter.
    fn of(line: &[u8]) -> Option<Kind> {
        match line.first() {
            Some(b'l') => Some(Kind::LookUp),
            Some(b'i') => Some(Kind::Insertion),
            Some(b'r') => Some(Kind::Removal),
            _ => None,
        }
    }
}

// Appends a call to the first `at` bytes of a list, and answers where the list ends then. A call that does not fit is left out.
fn append_call(list: &mut [u8], at: usize, key: &[u8], kind: Kind, number: u32) -> usize
    requires { (at ≤ length list.old) × (length key.now ≤ 256) }
    ensures { result ≤ length list.new }
{
    let end = at + 3 + key.len();
    if list.len() < end + 4 {
        return at;
    }
    list[at] = kind as u8;
    octets::store_le16(list, at + 1, key.len() as u32);
    octets::copy_in(list, at + 3, key);
    match kind {
        Kind::LookUp => end,
        Kind::Insertion | Kind::Removal => {
            octets::store_le32(list, end, number);
            end + 4
        }
    }
}

// Appends the call of a line, `i KEY RECORD ..`, `l KEY ..` or `r KEY ..`. The number behind a removal's key is the line's answer: with one record to a key it
// isn't looked at.
fn append_line(list: &mut [u8], at: usize, line: &[u8]) -> usize
    requires { at ≤ length list.old }
    ensures { result ≤ length list.new }
{
    let Some(kind) = Kind::of(line) else {
        return at;
    };
    let rest = after_word(line);
    let number = first_number(after_word(rest));
    let mut key = [0; 256];
    let n = hex_bytes(word(rest), &mut key);
    append_call(list, at, &key[..n], kind, number)
}

// Writes the calls of all lines as bytes, and answers how many bytes there are.
fn append_all(list: &mut [u8], text: &[u8]) -> usize
    ensures { result ≤ length list.new }
{
    let mut at = 0;
    let mut rest = text;
    while !rest.is_empty() {
        let (line, behind) = first_line(rest);
        at = append_line(list, at, line);
        rest = behind;
    }
    at
}

fn print_part(out: &impl Print, n: u32) {
    print(out, b" ");
    print_number(out, n);
}

// Prints the answer of a lookup, an insertion or a removal.
fn print_reply(out: &impl Print, letter: u8, reply: Option<&[u8; ANSWER_SIZE]>) {
    let Some(reply) = reply else {
        return print(out, b" not made");
    };
    print_part(out, octets::load_le32(reply, 0));
    if letter == b'l' {
        print_part(out, octets::load_le32(reply, 4));
        print_part(out, octets::load_le32(reply, 8));
    }
}

// Prints the answer of a line. `replies` are the answers of the calls from this line on. A line of another letter takes the next call's answer too.
fn print_line(out: &impl Print, line: &[u8], replies: &mut Replies<'_>, outcome: Outcome) {
    let Some(letter) = line.first() else {
        return;
    };
    print(out, word(line));
    match *letter {
        b'f' => print_part(out, change_code(outcome.made.map(|_| ()))),
        b'a' => print_part(out, change_code(outcome.audit)),
        letter => print_reply(out, letter, replies.next()),
    }
    print(out, b"\n");
}

fn print_answers(out: &impl Print, text: &[u8], answers: &[u8], outcome: Outcome) {
    let (replies, _) = answers.as_chunks::<ANSWER_SIZE>();
    let mut replies = replies.iter().take(outcome.made.unwrap_or(0));
    let mut rest = text;
    while !rest.is_empty() {
        let (line, behind) = first_line(rest);
        print_line(out, line, &mut replies, outcome);
        rest = behind;
    }
}

// Prints whether a buffer begins with the bytes of an index file.
fn print_same(out: &impl Print, name: &str, same: bool) {
    print(out, name.as_bytes());
    print(out, if same { b" same\n" } else { b" differs\n" });
}

// Makes a fresh index of distinct keys in a buffer, by the words `f K EXPRESSION` at the list's start, and then the calls of the list, and writes the answers.
// The three words end at blanks alone, whatever line they are in.
fn run_list(text: &[u8], index: &mut [u8], answers: &mut [u8]) -> Outcome {
    let head = after_word(text);
    let key_length = first_number(head);
    let mut expression = [0; 256];
    let e = hex_bytes(word(after_word(head)), &mut expression);
    let mut list = [0; ROOM];
    let n = append_all(&mut list, text);
    let made = idx_batch::run_batch(index, key_length, 1, &expression[..e], &list[..n], answers);
    let audit = idx_audit::audit(index);
    Outcome { made, audit }
}

// Makes the calls of a list on the index that a buffer holds, and writes the answers.
fn make_calls(text: &[u8], index: &mut [u8], answers: &mut [u8]) -> Outcome {
    let mut list = [0; ROOM];
    let n = append_all(&mut list, text);
    let made = Ok(idx_batch::run_calls(index, &list[..n], answers));
    let audit = idx_audit::audit(index);
    Outcome { made, audit }
}

// Runs a list without `f` on an index, and prints the answers and whether the buffer begins with an index file's bytes.
pub fn run_on_index(out: &impl Print, name: &str, text: &[u8], file: &[u8], index: &mut [u8]) {
    let mut answers = [0; ROOM];
    let outcome = make_calls(text, index, &mut answers);
    print_answers(out, text, &answers, outcome);
    print_same(out, name, test_lines::begins_with(index, file));
}

// Runs a list on a buffer of zeros, and prints the answers and whether the buffer begins with an index file's bytes.
pub fn run_on_zeros(out: &impl Print, name: &str, text: &[u8], file: &[u8], zeros: &mut [u8]) {
    let mut answers = [0; ROOM];
    let outcome = run_list(text, zeros, &mut answers);
    print_answers(out, text, &answers, outcome);
    print_same(out, name, test_lines::begins_with(zeros, file));
}
