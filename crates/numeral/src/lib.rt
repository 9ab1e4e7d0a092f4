// The text of an N field: its format.
#![tactic(auto)]

ghost use Rattle.std.specs.Prelude.{◌≡◌};
ghost use Rattle.numeral.specs.Format.{format_good};

// The widest field, and the most decimals.
const MAX_WIDTH: usize = 20;

const MAX_DECIMALS: u32 = 15;

// The least number of 19 digits.
pub const PAST_DIGITS: u64 = 1000000000000000000;

// Whether an N field may have this width and this many decimals.
#[tactic(auto, unfolding(crate::specs::Format::format_good))]
pub fn format_good(width: usize, decimals: u32) -> bool
    ensures { result ≡ format_good width decimals }
{
    (1..=MAX_WIDTH).contains(&width)
        && (decimals == 0
            || (1..=MAX_DECIMALS).contains(&decimals) && decimals as usize + 2 <= width)
}
