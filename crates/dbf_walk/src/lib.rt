// The walk over a table's records, a step at a time: every record with a mark or, by choice, the undeleted ones alone. Document 01, "The table", and document
// 02, K8.
#![tactic(auto)]

ghost use Rattle.std.specs.Prelude.{◌+◌, ◌-◌, ◌<◌, ◌≡◌};
ghost use Rattle.refusal.specs.Refusals.{numbered};
ghost use Rattle.dbf_table.specs.Table.{record_count, deletion_byte, table_refusal};
ghost use Rattle.dbf_walk.specs.Walk.{step_at, step_from, step_by, walk_step, live_step};

use dbf_table::{DELETED, KEPT};
use refusal::Refusal;

// The host's place in a walk: the number of records passed, 0 at first.
#[repr(C)]
#[derive(Clone, Copy, Debug, PartialEq, Eq)]
pub struct Position {
    pub passed: u32,
}

// A record that a walk hands out: its number, and whether it is deleted.
#[derive(Clone, Copy, Debug, PartialEq, Eq)]
pub struct Record {
    pub number: u32,
    pub deleted: bool,
}

// The answer at a record with this deletion byte.
#[tactic(auto, unfolding(crate::specs::Walk::step_at))]
fn step_at(number: u32, mark: u32) -> Result<Option<Record>, Refusal>
    ensures { numbered result ≡ step_at (number, mark) }
{
    let deleted = match mark {
        KEPT => false,
        DELETED => true,
        _ => return Err(Refusal::DeletionByte),
    };
    Ok(Some(Record { number, deleted }))
}

// The deletion byte of the record after those passed in a good table.
fn mark_after(table: &[u8], passed: u32) -> u32
    requires { (table_refusal table.now ≡ 0) × (passed < record_count table.now) }
    ensures { result ≡ deletion_byte table.now (passed + 1) }
{
    octets::byte(table, dbf_check::records_end(table, passed))
}

// The step from a position in a good table of n records. A walk that skips passes over deleted records.
fn step_from(
    table: &[u8],
    n: u32,
    position: &mut Position,
    skips: bool,
) -> Result<Option<Record>, Refusal>
    requires { (table_refusal table.now ≡ 0) × (n ≡ record_count table.now) }
    ensures { step_from skips table.now position.old.passed position.old.passed (n - position.old.passed)
        ≡ record { answer = numbered result; position = position.new } }
{
    for passed in position.passed..n {
        let mark = mark_after(table, passed);
        if !(skips && mark == DELETED) {
            position.passed = passed + 1;
            return step_at(passed + 1, mark);
        }
    }
    Ok(None)
}

// The next record after those passed. A record with a bad deletion byte is refused and passed. If no record is left, there is none and the position stays.
fn step_by(table: &[u8], position: &mut Position, skips: bool) -> Result<Option<Record>, Refusal>
    ensures { step_by skips table.now position.old ≡ record { answer = numbered result; position = position.new } }
{
    let shape = dbf_check::check_table(table)?;
    step_from(table, shape.records, position, skips)
}

// A step of the walk that hands out every record.
pub fn walk_step(table: &[u8], position: &mut Position) -> Result<Option<Record>, Refusal>
    ensures { walk_step table.now position.old ≡ record { answer = numbered result; position = position.new } }
{
    step_by(table, position, false)
}

// A step of the walk that skips deleted records. It has none too if only those are left.
pub fn live_step(table: &[u8], position: &mut Position) -> Result<Option<Record>, Refusal>
    ensures { live_step table.now position.old ≡ record { answer = numbered result; position = position.new } }
{
    step_by(table, position, true)
}
