// Writes numeric text.
#![tactic(auto)]

ghost use Rattle.std.specs.Prelude.{◌≡◌, ℕ, ◌+◌, ◌≤◌, ◌<◌, ◌/◌, ◌^◌, length};
ghost use Rattle.refusal.specs.After.{left};
ghost use Rattle.refusal.specs.Refusals.{numbered};
ghost use Rattle.octets.specs.Store.{put};
ghost use Rattle.octets.specs.Text.{last_digits, decimal};
ghost use Rattle.numeral.specs.Format.{max_width, max_decimals, max_digits};
ghost use Rattle.numeral.specs.Writing.{fraction_text, sign_text, write_number};

use refusal::Refusal;

// The length of the sign of v.
#[tactic(auto, using(numeral::specs::WritingLaws::sign_below, numeral::specs::WritingLaws::sign_above))]
fn sign_length(v: i64) -> usize
    ensures { (result ≡ length (sign_text v)) × (result ≤ 1) }
{
    usize::from(v < 0)
}

// The number of digits before the point: all but `places` of the digits of n, and one at least.
fn whole_length(n: u64, places: usize) -> usize
    requires { n < 10 ^ max_digits }
    ensures { (result ≡ length (decimal (n / 10 ^ places))) × (result ≤ max_digits) }
{
    let count = n.max(1).ilog10() as usize + 1;
    count.saturating_sub(places).max(1)
}

// The length of the point and the digits behind it.
#[tactic(auto, unfolding(numeral::specs::Writing::fraction_text))]
fn fraction_length(places: usize) -> usize
    requires { places ≤ max_decimals }
    ensures { ((n : ℕ) → result ≡ length (fraction_text places n)) × (result ≤ max_width) }
{
    if places == 0 { 0 } else { places + 1 }
}

// Writes the last `count` digits of n at `at`, from the right, and answers n without them. It is not inlined, so that `gl_number_write` keeps to the stack that
// the header says.
#[inline(never)]
fn put_digits(text: &mut [u8], at: usize, count: usize, n: u64) -> u64
    requires { at + count ≤ length text.old }
    ensures { (result ≡ n / 10 ^ count) × (text.new ≡ put text.old at (last_digits count n)) }
{
    let mut rest = n;
    for i in (at..at + count).rev() {
        text[i] = b'0' + (rest % 10) as u8;
        rest /= 10;
    }
    rest
}

// Writes the point and the digits behind it at `at`, and answers the number before the point.
fn put_fraction(text: &mut [u8], at: usize, places: usize, n: u64) -> u64
    requires { at + length (fraction_text places n) ≤ length text.old }
    ensures { (result ≡ n / 10 ^ places) × (text.new ≡ put text.old at (fraction_text places n)) }
{
    if places == 0 {
        return n;
    }
    let whole = put_digits(text, at + 1, places, n);
    text[at] = b'.';
    whole
}

// Writes the one written text of a value, blanks on the left: the zero before the point is never dropped. The buffer's length is the field's width. A
// refusal leaves the buffer as it was.
pub fn write_number(text: &mut [u8], decimals: u32, value: i64) -> Result<(), Refusal>
    ensures { write_number text.old decimals value ≡ left text.new (numbered result) }
{
    if !numeral::format_good(text.len(), decimals) {
        return Err(Refusal::FieldDescriptor);
    }
    let n = value.unsigned_abs();
    if numeral::PAST_DIGITS <= n {
        return Err(Refusal::TooManyDigits);
    }
    let places = decimals as usize;
    let sign = sign_length(value);
    let count = whole_length(n, places);
    let size = sign + count + fraction_length(places);
    let width = text.len();
    if width < size {
        return Err(Refusal::DoesNotFit);
    }
    // the parts from the right; the sign is a run of minuses, one or none
    let at = width - size;
    let whole = put_fraction(text, at + sign + count, places, n);
    put_digits(text, at + sign, count, whole);
    octets::fill(text, at, at + sign, b'-');
    octets::fill(text, 0, at, b' ');
    Ok(())
}
