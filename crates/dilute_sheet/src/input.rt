// The four numbers of the program's standard input: barcode field, concentration field, target, final.
ghost use Rattle.std.specs.Prelude.{◌+◌, ◌≡◌, length, ok_or};
ghost use Rattle.refusal.specs.Refusals.{numbered};
ghost use Rattle.dilute_sheet.specs.Input.{digits_at, told, line_at, input_of, InputAnswer};
ghost use Rattle.dilute_sheet.specs.Fault.{wrong_at, wrong_after, input_fault};

use inspect_argument::at_most_32_bits;
use refusal::Refusal;

const MAX_DIGITS: usize = 10;

// A line of 1 to 10 digits: where it ends, and its number.
#[derive(Clone, Copy, Debug, PartialEq, Eq)]
pub struct NumberLine {
    pub end: usize,
    pub number: u64,
}

// What the four numbers ask for.
#[derive(Clone, Copy, Debug, PartialEq, Eq)]
pub struct Request {
    pub barcode_field: u32,
    pub field: u32,
    pub target: u64,
    pub final_volume: u64,
}

// What is wrong with a line of the input; `More` is what stands after the four lines. The law that an input that is 40 has a fault speaks of `Nothing`.
#[derive(Clone, Copy, Debug, PartialEq, Eq)]
pub enum Wrong {
    Nothing,
    Missing,
    TooLong,
    Unended,
    CarriageReturn,
    OtherByte,
    Empty,
    More,
}

// The first line that is wrong, from 1; line 5 is what stands after the four.
#[derive(Clone, Copy, Debug, PartialEq, Eq)]
pub struct Fault {
    pub line: u32,
    pub wrong: Wrong,
}

// Where the digits that stand from `from` on end.
fn digits_end(input: &[u8], from: usize) -> usize
    ensures { result ≡ from + length (digits_at input.now from) }
{
    for end in from..input.len() {
        if !octets::is_digit(input[end]) {
            return end;
        }
    }
    from.max(input.len())
}

// The line of 1 to 10 digits and a line feed that stands from `from` on, if one does.
fn line_at(input: &[u8], from: usize) -> Option<NumberLine>
    ensures { told result ≡ line_at input.now from }
{
    let end = digits_end(input, from);
    if input.len() <= end || end == from || MAX_DIGITS < end - from || input[end] != b'\n' {
        return None;
    }
    let number = octets::read_digits(&input[from..end])?;
    Some(NumberLine {
        end: end + 1,
        number,
    })
}

// What four lines ask for, if nothing stands after them.
fn asked(input: &[u8]) -> Option<Request>
    ensures { ok_or result 40 ≡ input_of input.now }
{
    let first = line_at(input, 0)?;
    let second = line_at(input, first.end)?;
    let third = line_at(input, second.end)?;
    let fourth = line_at(input, third.end)?;
    if fourth.end != input.len() {
        return None;
    }
    Some(Request {
        barcode_field: at_most_32_bits(first.number),
        field: at_most_32_bits(second.number),
        target: third.number,
        final_volume: fourth.number,
    })
}

// What the input asks for: four lines, and nothing after.
pub fn read_input(input: &[u8]) -> Result<Request, Refusal>
    ensures { InputAnswer input.now (numbered result) }
{
    asked(input).ok_or(Refusal::ArgumentsOrFiles)
}

// What is wrong with the line that stands from `from` on.
// A chain of tests: a `match` on `input.get(end)` was tried, and its goals stayed open.
fn wrong_at(input: &[u8], from: usize) -> Wrong
    ensures { result ≡ wrong_at input.now from }
{
    let end = digits_end(input, from);
    if input.len() <= from {
        return Wrong::Missing;
    }
    if MAX_DIGITS < end - from {
        return Wrong::TooLong;
    }
    if input.len() <= end {
        return Wrong::Unended;
    }
    if input[end] == b'\r' {
        return Wrong::CarriageReturn;
    }
    if input[end] != b'\n' {
        return Wrong::OtherByte;
    }
    if end == from {
        return Wrong::Empty;
    }
    Wrong::Nothing
}

// What is wrong with an input whose four lines end at `at`.
#[tactic(auto, unfolding(crate::specs::Fault::wrong_after))]
fn wrong_after(input: &[u8], at: usize) -> Wrong
    ensures { result ≡ wrong_after input.now at }
{
    if at == input.len() {
        Wrong::Nothing
    } else {
        Wrong::More
    }
}

// What is wrong with an input that asks for nothing, for a message: the first line that is none of the four.
pub fn input_fault(input: &[u8]) -> Fault
    ensures { result ≡ input_fault input.now }
{
    let mut from = 0;
    for line in 1..5 {
        match line_at(input, from) {
            Some(found) => from = found.end,
            None => {
                let wrong = wrong_at(input, from);
                return Fault { line, wrong };
            }
        }
    }
    Fault {
        line: 5,
        wrong: wrong_after(input, from),
    }
}
