// The reader of numeric text, one character at a time.
#![tactic(auto)]

ghost use Rattle.std.specs.Prelude.{◌≡◌, true, ◌<◌, ◌≤◌, ◌^◌, if◌then◌else◌, length, drop};
ghost use Rattle.refusal.specs.Refusals.{numbered};
ghost use Rattle.octets.specs.Text.{is_digit};
ghost use Rattle.numeral.specs.Format.{max_digits};
ghost use Rattle.numeral.specs.Reading.{signed};
ghost use Rattle.numeral_scan.specs.Scan.{initial, refused_at, first_digit, is_point, whole_end};
ghost use Rattle.numeral_scan.specs.Scan.{next_value, in_phase, with_digit};
ghost use Rattle.numeral_scan.specs.Scan.{after_sign, after_blanks, after_whole, after_point, after_dropped, step, scan, settled, meaning};

use numeral::PAST_DIGITS;
use octets::is_digit;
use refusal::Refusal;

// Where the reader stands in a text: among the blanks, after the minus, after a zero that begins the whole part, among a whole part that begins
// with another digit, behind the point with the number of digits to come; behind a point without a whole part, with zeros alone so far and the number
// of digits to come; or in a text that is refused, for a comma or otherwise. The digits to come are a u64: the compiler packs a u32 into one word with
// the phase, which is slower.
#[derive(Clone, Copy)]
pub enum Phase {
    Blank,
    Minus,
    Zero,
    Whole,
    Fraction(u64),
    Dropped(u64),
    Comma,
    Bad,
}

// The reader's running state. `value` is the number of the digits so far; once they are more than 18, it is some number of more than 18 digits.
#[derive(Clone, Copy)]
pub struct Reader {
    pub decimals: u32,
    pub phase: Phase,
    pub negative: bool,
    pub value: u64,
}

// The phase after the character c, which makes the text refused.
fn refused_at(c: u8) -> Phase
    ensures { result ≡ refused_at c }
{
    if c == b',' { Phase::Comma } else { Phase::Bad }
}

// The phase after the first digit c of the whole part.
fn first_digit(c: u8) -> Phase
    ensures { result ≡ first_digit c }
{
    if c == b'0' { Phase::Zero } else { Phase::Whole }
}

// Whether the character c is the point of a text with this many decimals: one without decimals has none.
fn is_point(decimals: u32, c: u8) -> bool
    ensures { result ≡ is_point decimals c }
{
    c == b'.' && 1 <= decimals
}

// The phase after the character c, no digit, where the point may stand; the point leads to the phase `behind`.
fn at_point(decimals: u32, c: u8, behind: Phase) -> Phase
    ensures { result ≡ (if is_point decimals c then behind else refused_at c) }
{
    if is_point(decimals, c) {
        behind
    } else {
        refused_at(c)
    }
}

// The number of the digits so far with the digit c behind them; a number of more than 18 digits stays as it is.
#[tactic(auto, using(octets::specs::TextLaws::digit_range), unfolding(crate::specs::Scan::next_value))]
fn next_value(n: u64, c: u8) -> u64
    requires { is_digit c ≡ true }
    ensures { result ≡ next_value n c }
{
    if n < PAST_DIGITS {
        10 * n + u64::from(c - b'0')
    } else {
        n
    }
}

impl Reader {
    pub fn new(decimals: u32) -> Reader
        ensures { result ≡ initial decimals }
    {
        Reader {
            decimals,
            phase: Phase::Blank,
            negative: false,
            value: 0,
        }
    }

    // The state in the phase p. A state that stays is made anew by this too: a copy of the whole struct takes along the bytes between its fields,
    // which is slower.
    pub fn in_phase(self, p: Phase) -> Reader
        ensures { result ≡ in_phase self p }
    {
        Reader { phase: p, ..self }
    }

    // The state in the phase p, with the digit c behind the others.
    pub fn with_digit(self, p: Phase, c: u8) -> Reader
        requires { is_digit c ≡ true }
        ensures { result ≡ with_digit self p c }
    {
        let value = next_value(self.value, c);
        Reader {
            phase: p,
            value,
            ..self
        }
    }

    // The state after the character c, if the sign was taken before it, or there is none.
    pub fn after_sign(self, c: u8) -> Reader
        ensures { result ≡ after_sign self c }
    {
        if is_digit(c) {
            self.with_digit(first_digit(c), c)
        } else {
            let behind = Phase::Dropped(u64::from(self.decimals));
            self.in_phase(at_point(self.decimals, c, behind))
        }
    }

    // The state after the character c, if only blanks were taken before it.
    pub fn after_blanks(self, c: u8) -> Reader
        ensures { result ≡ after_blanks self c }
    {
        match c {
            b' ' => self.in_phase(Phase::Blank),
            b'-' => Reader {
                phase: Phase::Minus,
                negative: true,
                ..self
            },
            _ => self.after_sign(c),
        }
    }

    // The state after the character c, no digit, if the whole part was taken before it.
    fn after_digits(self, c: u8) -> Reader
        ensures { result ≡ in_phase self (whole_end self.decimals c) }
    {
        let behind = Phase::Fraction(u64::from(self.decimals));
        self.in_phase(at_point(self.decimals, c, behind))
    }

    // The state after the character c, if digits of the whole part were taken before it, the first no zero.
    pub fn after_whole(self, c: u8) -> Reader
        ensures { result ≡ after_whole self c }
    {
        if is_digit(c) {
            self.with_digit(Phase::Whole, c)
        } else {
            self.after_digits(c)
        }
    }

    // The state after the character c, if the point was taken before it and `left` digits are to come.
    pub fn after_point(self, left: u64, c: u8) -> Reader
        ensures { result ≡ after_point self left c }
    {
        if is_digit(c) {
            let phase = left.checked_sub(1).map_or(Phase::Bad, Phase::Fraction);
            self.with_digit(phase, c)
        } else {
            self.in_phase(refused_at(c))
        }
    }

    // The state after the character c, if the whole part is missing, zeros alone were taken behind the point and `left` digits are to come.
    pub fn after_dropped(self, left: u64, c: u8) -> Reader
        ensures { result ≡ after_dropped self left c }
    {
        if c == b'0' {
            let phase = left.checked_sub(1).map_or(Phase::Bad, Phase::Dropped);
            self.in_phase(phase)
        } else {
            self.after_point(left, c)
        }
    }

    // The state after the character c. Each phase tests first what is likely there.
    #[tactic(auto, unfolding(crate::specs::Scan::step))]
    pub fn take(self, c: u8) -> Reader
        ensures { result ≡ step self c }
    {
        match self.phase {
            Phase::Blank => self.after_blanks(c),
            Phase::Minus => self.after_sign(c),
            Phase::Zero => self.after_digits(c),
            Phase::Whole => self.after_whole(c),
            Phase::Fraction(left) => self.after_point(left, c),
            Phase::Dropped(left) => self.after_dropped(left, c),
            Phase::Comma => self.in_phase(Phase::Comma),
            Phase::Bad => self.in_phase(refused_at(c)),
        }
    }

    // The state after the digits at the start of a text, if digits of the whole part were taken before them, and the text behind them.
    #[tactic(auto, using(crate::specs::ScanLaws::whole_digit, crate::specs::ScanLaws::scan_next, crate::specs::ScanLaws::scan_end))]
    fn take_whole(self, text: &[u8]) -> (Reader, &[u8])
        requires { self.phase ≡ Phase.Whole }
        ensures rest { length result.1.now ≤ length text.now }
        ensures state { scan self text.now ≡ scan result.0 result.1.now }
    {
        let mut reader = self;
        for (i, &c) in text.iter().enumerate() {
            if !is_digit(c) {
                return (reader, &text[i..]);
            }
            reader = reader.with_digit(Phase::Whole, c);
        }
        (reader, &[])
    }

    // The same behind the point, where `left` digits are to come.
    #[tactic(auto, using(crate::specs::ScanLaws::fraction_digit, crate::specs::ScanLaws::scan_next, crate::specs::ScanLaws::scan_end))]
    fn take_fraction(self, mut left: u64, text: &[u8]) -> (Reader, &[u8])
        requires { self.phase ≡ Phase.Fraction left }
        ensures rest { length result.1.now ≤ length text.now }
        ensures state { scan self text.now ≡ scan result.0 result.1.now }
    {
        let mut reader = self;
        for (i, &c) in text.iter().enumerate() {
            if left == 0 || !is_digit(c) {
                return (reader, &text[i..]);
            }
            left -= 1;
            reader = reader.with_digit(Phase::Fraction(left), c);
        }
        (reader, &[])
    }

    // The state after the digits at the start of a text, in a phase in which most characters are digits, and the text behind them. These digits have loops of
    // their own: with one loop for all characters, which chooses by the phase for each, long numbers take nearly twice as long.
    fn take_digits(self, text: &[u8]) -> (Reader, &[u8])
        ensures rest { length result.1.now ≤ length text.now }
        ensures state { scan self text.now ≡ scan result.0 result.1.now }
    {
        match self.phase {
            Phase::Whole => self.take_whole(text),
            Phase::Fraction(left) => self.take_fraction(left, text),
            _ => (self, text),
        }
    }

    // The state after the characters of a text.
    #[tactic(auto, unfolding(crate::specs::Scan::scan))]
    pub fn take_all(self, text: &[u8]) -> Reader
        ensures { result ≡ scan self text.now }
    {
        let mut reader = self;
        let mut rest = text;
        while let [c, behind @ ..] = rest {
            (reader, rest) = reader.take(*c).take_digits(behind);
        }
        reader
    }

    // What the text means if it ends in this state: a value in units of 10 to the -decimals, or nothing.
    #[tactic(auto, unfolding(crate::specs::Scan::meaning))]
    pub fn finish(self) -> Result<Option<i64>, Refusal>
        ensures { numbered result ≡ meaning self }
    {
        match self.phase {
            Phase::Blank => Ok(None),
            Phase::Zero | Phase::Whole => settle(self.decimals == 0, self.negative, self.value),
            Phase::Fraction(left) => settle(left == 0, self.negative, self.value),
            Phase::Comma => Err(Refusal::Comma),
            Phase::Minus | Phase::Dropped(_) | Phase::Bad => Err(Refusal::NotANumber),
        }
    }
}

// The number n with its sign.
#[tactic(auto, unfolding(numeral::specs::Reading::signed))]
fn signed_value(negative: bool, n: u64) -> i64
    requires { n < 10 ^ max_digits }
    ensures { result ≡ signed negative n }
{
    let value = n as i64;
    if negative { -value } else { value }
}

// What a text with the number n means. It is refused if it is not complete, is minus zero, or has more than 18 digits.
#[tactic(auto, unfolding(crate::specs::Scan::settled))]
fn settle(complete: bool, negative: bool, n: u64) -> Result<Option<i64>, Refusal>
    ensures { numbered result ≡ settled complete negative n }
{
    if !complete || negative && n == 0 {
        return Err(Refusal::NotANumber);
    }
    if PAST_DIGITS <= n {
        return Err(Refusal::TooManyDigits);
    }
    Ok(Some(signed_value(negative, n)))
}
