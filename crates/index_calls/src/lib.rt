// What the calls on an index hand to C: the answer's number, and its values in out-parameters.
#![tactic(auto)]

ghost use Rattle.std.specs.Prelude.{◌≡◌};
ghost use Rattle.refusal.specs.Refusals.{numbered};
ghost use Rattle.refusal.specs.After.{left, coded};
ghost use Rattle.idx_lookup.specs.Lookup.{lookup_rule};
ghost use Rattle.ndx_page.specs.Lookup as ndx-lookup;
ghost use Rattle.ndx_sound.specs.Sound as ndx-sound;
ghost use Rattle.idx_insert.specs.Calls.{insert_rule};
ghost use Rattle.idx_insert.specs.Fresh.{fresh_rule};
ghost use Rattle.idx_remove.specs.Calls.{remove_rule};
ghost use Rattle.handed.specs.Out.{out};
ghost use Rattle.index_calls.specs.Answers.{found, lookup_out};

use idx_lookup::Outcome;
use idx_page::RecordNumber;
use refusal::{ABSENT, Refusal, change_code};

// Makes a fresh index, with one record to a key (features 1) or several (features 0).
pub fn index_fresh(index: &mut [u8], key_length: u32, features: u32, expression: &[u8]) -> u32
    ensures { coded (fresh_rule index.old key_length features expression.now) ≡ left index.new result }
{
    change_code(idx_insert::fresh(index, key_length, features, expression))
}

// Writes what a lookup in an index of either format answers, and returns its number.
#[tactic(auto, unfolding(crate::specs::Answers::lookup_out))]
pub fn tell(answer: Result<Outcome, Refusal>, number: &mut u32, pages: &mut u32) -> u32
    ensures { lookup_out (numbered answer) (found number.old pages.old) ≡ out result (found number.new pages.new) }
{
    match answer {
        Ok(outcome) => {
            *pages = outcome.pages;
            match outcome.found {
                Some(at) => {
                    *number = at.0;
                    0
                }
                None => ABSENT,
            }
        }
        Err(refusal) => refusal.number(),
    }
}

// Looks a key up: the number of its record, and the pages visited, which are also written if the key is absent.
pub fn index_lookup(index: &[u8], key: &[u8], number: &mut u32, pages: &mut u32) -> u32
    ensures { lookup_out (lookup_rule index.now key.now) (found number.old pages.old)
        ≡ out result (found number.new pages.new) }
{
    tell(idx_lookup::lookup(index, key), number, pages)
}

// Audits an NDX index.
pub fn audit_ndx(index: &[u8]) -> u32
    ensures { ndx-sound.Audited index.now result }
{
    change_code(ndx_audit::audit(index))
}

// Looks a key up in an NDX index, with the same values.
pub fn ndx_lookup(index: &[u8], key: &[u8], number: &mut u32, pages: &mut u32) -> u32
    ensures { lookup_out (ndx-lookup.lookup_rule index.now key.now) (found number.old pages.old)
        ≡ out result (found number.new pages.new) }
{
    tell(ndx_page::lookup(index, key), number, pages)
}

// Inserts a key with its record's number.
pub fn index_insert(index: &mut [u8], key: &[u8], number: u32) -> u32
    ensures { coded (insert_rule index.old key.now number) ≡ left index.new result }
{
    change_code(idx_insert::insert(index, key, RecordNumber(number)))
}

// Strikes a pair off; with one record to a key the number is not looked at.
pub fn index_remove(index: &mut [u8], key: &[u8], number: u32) -> u32
    ensures { coded (remove_rule index.old key.now number) ≡ left index.new result }
{
    change_code(idx_remove::remove(index, key, RecordNumber(number)))
}
