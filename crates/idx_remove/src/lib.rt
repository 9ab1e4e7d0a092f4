// Removal of a pair, or of a key.
#![tactic(auto)]

ghost use Rattle.std.specs.Prelude.{◌≡◌};
ghost use Rattle.refusal.specs.Refusals.{numbered};
ghost use Rattle.refusal.specs.After.{left};
ghost use Rattle.idx_remove.specs.Calls.{remove_rule};

use idx_page::RecordNumber;
use idx_path::is_there;
use idx_remove_pair::remove_pair;
use refusal::Refusal;

// Removes `key` with its record number, `number`; if keys are distinct, the number is not looked at.
pub fn remove(index: &mut [u8], key: &[u8], number: RecordNumber) -> Result<(), Refusal>
    ensures { remove_rule index.old key.now number.0 ≡ left index.new (numbered result) }
{
    if !idx_page::header_good(index) {
        return Err(Refusal::IndexHeader);
    }
    if key.len() != idx_page::key_length(index) {
        return Err(Refusal::KeyLength);
    }
    idx_audit::audit(index)?;
    if !is_there(index, key, number) {
        return Err(Refusal::KeyAbsent);
    }
    remove_pair(index, key, number);
    Ok(())
}
