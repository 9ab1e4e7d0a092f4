// What the arguments of `inspect` say: FIELD, a field's number or its name, and whether INDEX names an NDX index; and the match of an index against the field
// that has a name.
#![tactic(auto)]

pub mod names;

ghost use Rattle.std.specs.Prelude.{min, ◌≡◌};
ghost use Rattle.refusal.specs.Refusals.{numbered};
ghost use Rattle.inspect_argument.specs.Arguments.{max_number, FieldArgument, is_ndx};

use refusal::Refusal;

// What is said of a field: its number, or that the word is its name.
#[derive(Clone, Copy, Debug, PartialEq, Eq)]
pub enum Field {
    Number(u32),
    Name,
}

// A number too big for 32 bits becomes 2³² − 1, which no table has as a field either.
pub fn at_most_32_bits(n: u64) -> u32
    ensures { result ≡ min n max_number }
{
    u32::try_from(n).unwrap_or(u32::MAX)
}

// What the argument FIELD says.
pub fn field_argument(text: &[u8]) -> Result<Field, Refusal>
    ensures { FieldArgument text.now (numbered result) }
{
    if text.len() < 1 || 10 < text.len() {
        return Err(Refusal::ArgumentsOrFiles);
    }
    if !octets::is_digit(text[0]) {
        return Ok(Field::Name);
    }
    match octets::read_digits(text) {
        Some(number) => Ok(Field::Number(at_most_32_bits(number))),
        None => Err(Refusal::ArgumentsOrFiles),
    }
}

// Whether the argument INDEX names an NDX index.
#[tactic(auto, unfolding(crate::specs::Arguments::is_ndx, crate::specs::Arguments::ndx_at, crate::specs::Arguments::is_letter))]
pub fn is_ndx(name: &[u8]) -> bool
    ensures { result ≡ is_ndx name.now }
{
    matches!(name, [.., b'.', b'n' | b'N', b'd' | b'D', b'x' | b'X'])
}
