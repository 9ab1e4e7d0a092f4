// Reads numeric text.
#![tactic(auto)]

ghost use Rattle.std.specs.Prelude.{◌≡◌};
ghost use Rattle.refusal.specs.Refusals.{numbered};
ghost use Rattle.numeral.specs.Reading.{read_number};

use numeral_scan::Reader;
use refusal::Refusal;

// Reads a numeric text: its value in units of 10 to the -decimals, or nothing. Its length is the field's width. The blanks on the left, which leave the reader's
// state as it is, are passed first: most texts begin with blanks, and one loop for all characters takes twice as long over blanks.
#[tactic(auto, using(numeral::specs::ReadingLaws::refused_6))]
pub fn read_number(text: &[u8], decimals: u32) -> Result<Option<i64>, Refusal>
    ensures { numbered result ≡ read_number text.now decimals }
{
    if !numeral::format_good(text.len(), decimals) {
        return Err(Refusal::FieldDescriptor);
    }
    let shown = &text[octets::padding(text)..];
    Reader::new(decimals).take_all(shown).finish()
}
