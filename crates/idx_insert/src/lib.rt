// A fresh index, and insertion.
#![tactic(auto)]

ghost use Rattle.std.specs.Prelude.{◌≡◌, ◌&&◌, ◌≤◌, length, leb, ltb};
ghost use Rattle.std.specs.List.{list_any, list_all};
ghost use Rattle.refusal.specs.Refusals.{numbered};
ghost use Rattle.refusal.specs.After.{left};
ghost use Rattle.idx_page.specs.Header.{min_bytes, max_key, max_features, features};
ghost use Rattle.idx_insert.specs.Calls.{insert_rule};
ghost use Rattle.idx_insert.specs.Fresh.{max_expression, expression_good, features_good, fresh_buffer, fresh_rule};

use idx_insert_pair::insert_pair;
use idx_layout::Entries;
use idx_page::{Page, PageOffset, RecordNumber};
use idx_path::{no_room, path_to};
use refusal::Refusal;

// The longest key expression.
const MAX_EXPRESSION: usize = 220;

// Whether a key has a control byte.
fn has_control(key: &[u8]) -> bool
    ensures { result ≡ list_any (λ byte. ltb byte 0x20) key.now }
{
    key.iter().any(|&byte| byte < 0x20)
}

// Inserts `key` with its record number, `number`.
pub fn insert(index: &mut [u8], key: &[u8], number: RecordNumber) -> Result<(), Refusal>
    ensures { insert_rule index.old key.now number.0 ≡ left index.new (numbered result) }
{
    if !idx_page::header_good(index) {
        return Err(Refusal::IndexHeader);
    }
    let control = has_control(key);
    let zero = number.0 == 0;
    if key.len() != idx_page::key_length(index) {
        return Err(Refusal::KeyLength);
    }
    if control {
        return Err(Refusal::ControlByte);
    }
    if zero {
        return Err(Refusal::RecordNumberZero);
    }
    idx_audit::audit(index)?;
    let path = path_to(index, key, number);
    if path.present {
        return Err(Refusal::KeyPresent);
    }
    if no_room(index, path) {
        return Err(Refusal::NoRoom);
    }
    insert_pair(index, key, number);
    Ok(())
}

// Whether all bytes are printable.
fn all_printable(s: &[u8]) -> bool
    ensures { result ≡ list_all (λ byte. leb 0x20 byte && leb byte 0x7E) s.now }
{
    s.iter().all(|&byte| (0x20 <= byte) & (byte <= 0x7E))
}

// Whether a key expression is good. The bytes of one that is too long are not looked at.
#[tactic(auto, using(crate::specs::CallLaws::printable_all), unfolding(crate::specs::Fresh::expression_good))]
fn expression_good(expression: &[u8]) -> bool
    ensures { result ≡ expression_good expression.now }
{
    1 <= expression.len() && expression.len() <= MAX_EXPRESSION && all_printable(expression)
}

// Whether a key expression and the features of a fresh index are good.
fn header_told_good(features: u32, expression: &[u8]) -> bool
    ensures { result ≡ (expression_good expression.now && features_good features) }
{
    expression_good(expression) && features <= idx_page::MAX_FEATURES
}

// Writes the header and the root of a fresh index.
fn write_fresh(index: &mut [u8], k: u32, features: u32, expression: &[u8])
    requires { (min_bytes ≤ length index.old) × (k ≤ max_key) × (features ≤ max_features) × (length expression.now ≤ max_expression) }
    ensures { index.new ≡ fresh_buffer k features expression.now index.old }
{
    let root = PageOffset(Page::SIZE as u32);
    idx_layout::new_header(
        index,
        root,
        idx_page::next_page(root),
        k,
        features,
        expression,
    );
    let none = PageOffset(idx_page::NO_PAGE);
    idx_layout::new_page(index, root, 3, none, none, Entries::none());
}

// Writes a fresh index with keys of `k` bytes: with features 1 a key has one record, with features 0 it may have several.
pub fn fresh(index: &mut [u8], k: u32, features: u32, expression: &[u8]) -> Result<(), Refusal>
    ensures { fresh_rule index.old k features expression.now ≡ left index.new (numbered result) }
{
    let good_key = idx_page::key_length_good(k as usize);
    let good_header = header_told_good(features, expression);
    if !good_key {
        return Err(Refusal::KeyLength);
    }
    if !good_header {
        return Err(Refusal::IndexHeader);
    }
    if index.len() < idx_page::MIN_BYTES {
        return Err(Refusal::NoRoom);
    }
    write_fresh(index, k, features, expression);
    Ok(())
}
