// The audit of an index, in two passes, each level by level: `idx_shape` checks the pages, from the root down, and the free list, `idx_ceilings` the keys above
// pages, from the leaves up.
#![tactic(auto)]

ghost use Rattle.std.specs.Prelude.{◌≡◌, true, ◌-◌};
ghost use Rattle.refusal.specs.Refusals.{numbered};
ghost use Rattle.refusal.specs.After.{change_code};
ghost use Rattle.idx_page.specs.Header.{header_good};
ghost use Rattle.idx_sound.specs.Sound.{Audited};
ghost use Rattle.idx_sound.specs.AuditTest.{pages_good};

use refusal::Refusal;

// Whether an index with a good header is sound.
#[tactic(auto, unfolding(idx_sound::specs::AuditTest::pages_good))]
fn pages_good(index: &[u8]) -> bool
    requires { header_good index.now ≡ true }
    ensures { result ≡ pages_good index.now }
{
    idx_shape::shape_good(index) && idx_ceilings::keys_above_good(index)
}

// The audit: whether the header is good, and then whether the index is sound.
pub fn audit(index: &[u8]) -> Result<(), Refusal>
    ensures { Audited index.now (change_code (numbered result)) }
{
    if !idx_page::header_good(index) {
        return Err(Refusal::IndexHeader);
    }
    if !pages_good(index) {
        return Err(Refusal::IndexNotSound);
    }
    Ok(())
}
