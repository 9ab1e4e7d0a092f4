// Gregorian days, and the text of a D field. Document 01: "real days by the Gregorian rule, the month lengths held as two rows,
// common years and leap years"; "D: YYYYMMDD, year 1 to 9999, or eight blanks".
#![tactic(auto)]

ghost use Rattle.std.specs.Prelude.{◌≤◌, ◌≡◌, IfOk, length};
ghost use Rattle.refusal.specs.Refusals.{numbered};
ghost use Rattle.octets.specs.Text.{digits_of};
ghost use Rattle.calendar.specs.Calendar.{is_leap, days_in_month, is_date};
ghost use Rattle.calendar.specs.DateText.{max_year, date_of, date_of_numbers};
ghost use Rattle.calendar.specs.DateLaws.{part_of};

use refusal::Refusal;

// January to December: common years, then leap years.
const MONTH_LENGTHS: [[u8; 12]; 2] = [
    [31, 28, 31, 30, 31, 30, 31, 31, 30, 31, 30, 31],
    [31, 29, 31, 30, 31, 30, 31, 31, 30, 31, 30, 31],
];

#[tactic(auto, unfolding(crate::specs::Calendar::is_leap))]
fn is_leap(year: u32) -> bool
    ensures { result ≡ is_leap year }
{
    year % 4 == 0 && (year % 100 != 0 || year % 400 == 0)
}

fn days_in_month(year: u32, month: u32) -> u32
    requires { (1 ≤ month) × (month ≤ 12) }
    ensures { result ≡ days_in_month year month }
{
    let row = usize::from(is_leap(year));
    u32::from(MONTH_LENGTHS[row][month as usize - 1])
}

// Whether the calendar has this day. The caller says which years it allows: this call takes any.
#[tactic(auto, unfolding(crate::specs::Calendar::is_date))]
pub fn is_date(year: u32, month: u32, day: u32) -> bool
    ensures { result ≡ is_date year month day }
{
    (1..=12).contains(&month) && (1..=days_in_month(year, month)).contains(&day)
}

#[derive(Clone, Copy, Debug, PartialEq, Eq)]
pub struct Date {
    pub year: u32,
    pub month: u32,
    pub day: u32,
}

// The date of a year, a month and a day. A year of four digits is at most 9999, so no test says that.
#[tactic(auto, unfolding(crate::specs::DateText::is_field_date, crate::specs::DateText::date_of_numbers))]
fn date_of_numbers(year: u32, month: u32, day: u32) -> Result<Option<Date>, Refusal>
    requires { year ≤ max_year }
    ensures { numbered result ≡ date_of_numbers year month day }
{
    if year < 1 || !is_date(year, month, day) {
        return Err(Refusal::DateOrLogical);
    }
    Ok(Some(Date { year, month, day }))
}

// The number that the digits of a year, a month or a day say.
fn part_number(digits: &[u8]) -> Result<u32, Refusal>
    requires { length digits.now ≤ 4 }
    ensures said { numbered result ≡ part_of (digits_of digits.now) }
    ensures small { IfOk result (λ number. number ≤ max_year) }
{
    let number = octets::read_digits(digits).ok_or(Refusal::DateOrLogical)?;
    Ok(number as u32)
}

// Reads the text of a D field: eight blanks are empty; eight digits YYYYMMDD of a date, year 1 to 9999, are that date; any other text is refused.
pub fn read_date(text: &[u8]) -> Result<Option<Date>, Refusal>
    ensures { numbered result ≡ date_of text.now }
{
    if text.len() != 8 {
        return Err(Refusal::DateOrLogical);
    }
    if octets::padding(text) == 8 {
        return Ok(None);
    }
    let year = part_number(&text[0..4])?;
    let month = part_number(&text[4..6])?;
    let day = part_number(&text[6..8])?;
    date_of_numbers(year, month, day)
}
