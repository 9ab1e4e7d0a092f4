// The audit of an NDX index: one walk in the order of the keys. A page is entered, checked and counted; then its children are walked, each with the key above
// it after it, and the extra child last. So leaf keys and keys above are met in their order, and each is compared with the one met before it alone. No page is
// met twice if keys ascend, so it is enough to count pages: nothing is marked or copied, no more pages are entered than there are, and the work is linear in
// the file's size on any bytes. The walk calls itself on a page's children, 15 levels at most.
#![tactic(auto)]

ghost use Rattle.std.specs.Prelude.{◌≡◌, Bool, true, false, not, ◌&&◌, ℕ, ◌+◌, ◌-◌, ◌≤◌, OnOk, MatchResult};
ghost use Rattle.std.proofs.Math.Option.{some};
ghost use Rattle.refusal.specs.Refusals.{refusal_number, numbered};
ghost use Rattle.refusal.specs.After.{change_code};
ghost use Rattle.ndx_page.specs.Header.{max_levels, page_count, is_page};
ghost use Rattle.ndx_page.specs.Page.{count_at, lower_at, record_at, key_at, is_leaf};
ghost use Rattle.ndx_page.specs.Within.{Within};
ghost use Rattle.ndx_sound.specs.Reading.{entries_at};
ghost use Rattle.ndx_sound.specs.Sound.{Audited};
ghost use Rattle.ndx_sound.specs.Walk.{is_after, at_most, item, passed, enter, walk};
ghost use Rattle.ndx_sound.specs.AuditTest.{zeros, page_fits, height_from, tree_good};
ghost use Rattle.ndx_sound.specs.TreeLaws.{by_top};
ghost use Rattle.ndx_audit.specs.State.{met, state, Ends};
ghost use Rattle.ndx_audit.specs.Steps.{pair_step, pairs_step, pass_step, entering, walking};

use idx_page::MAX_LEVELS;
use ndx_page::{Index, PageNumber};
use refusal::Refusal;

// Whether the first `count` entries of a page have lower page 0.
#[tactic(auto, using(crate::specs::LoopLaws::lower_steps))]
fn no_lower(index: &Index, page: PageNumber, count: usize) -> bool
    requires { Within index.now.bytes.now page.0 count }
    ensures { result ≡ zeros (lower_at index.now.bytes.now page.0) count 0 }
{
    for i in 0..count {
        if index.lower(page, i).0 != 0 {
            return false;
        }
    }
    true
}

// Whether a page fits, `height` levels above the leaves: its number, whether it is a leaf, its count, and that a leaf has no lower pages.
#[tactic(auto, using(crate::specs::PageLaws::fit_steps))]
fn page_fits(index: &Index, page: PageNumber, height: u32, lone: bool) -> bool
    ensures { result ≡ page_fits index.now.bytes.now lone height page.0 }
{
    if !index.is_page(page) {
        return false;
    }
    let leaf = index.is_leaf(page);
    let count = index.key_count(page);
    let most = index.keys_per_page() as usize;
    if !((leaf == (height == 0)) & ndx_page::count_good(most, count, lone, leaf)) {
        return false;
    }
    if !leaf {
        return true;
    }
    no_lower(index, page, count)
}

// A walk under way: how many pages it entered, and the last key that it met.
#[derive(Clone, Copy)]
struct Walk<'a> {
    entered: u32,
    last: Option<&'a [u8]>,
}

impl<'a> Walk<'a> {
    // Whether a key is above the last one met.
    #[tactic(auto, using(idx_page::specs::KeyOrderLaws::below_not_le))]
    fn is_after(&self, key: &[u8]) -> bool
        ensures { result ≡ is_after by_top (met self.now.last) (some key.now) }
    {
        match self.last {
            Some(last) => octets::compare(last, key).is_lt(),
            None => true,
        }
    }

    // Whether the last key met is at or below a key.
    #[tactic(auto, using(idx_page::specs::KeyOrderLaws::below_not_le))]
    fn at_most(&self, key: &[u8]) -> bool
        ensures { result ≡ at_most by_top (met self.now.last) (some key.now) }
    {
        match self.last {
            Some(last) => !octets::compare(key, last).is_lt(),
            None => true,
        }
    }

    // A pair of a leaf, entry i: its record number is above 0, and its key is above the last one met.
    fn pair(&mut self, index: &Index<'a>, page: PageNumber, i: usize) -> Result<(), Refusal>
        requires { Within index.now.bytes.now page.0 (i + 1) }
        ensures { Ends (pair_step index.now.bytes.now page.0 i (state self.old)) result (state self.new) }
    {
        let key = index.key(page, i);
        if index.record_number(page, i).0 == 0 {
            return Err(Refusal::IndexNotSound);
        }
        if !self.is_after(key) {
            return Err(Refusal::IndexNotSound);
        }
        self.last = Some(key);
        Ok(())
    }

    // The pairs of a leaf, one after another. The walk is held in a local meanwhile: behind `self` the last key would be stored and read again for each pair, which
    // takes a third more time.
    #[tactic(auto, using(crate::specs::LoopLaws::pair_steps))]
    fn pairs(&mut self, index: &Index<'a>, page: PageNumber, count: usize) -> Result<(), Refusal>
        requires { Within index.now.bytes.now page.0 count }
        ensures { Ends (pairs_step index.now.bytes.now page.0 count (state self.old)) result (state self.new) }
    {
        let mut walk = *self;
        for i in 0..count {
            walk.pair(index, page, i)?;
        }
        *self = walk;
        Ok(())
    }

    // The key above child i, after the child: it is at or above the last key met.
    fn pass(&mut self, index: &Index<'a>, page: PageNumber, i: usize) -> Result<(), Refusal>
        requires { Within index.now.bytes.now page.0 (i + 1) }
        ensures { Ends (pass_step index.now.bytes.now page.0 i (state self.old)) result (state self.new) }
    {
        let key = index.key(page, i);
        if !self.at_most(key) {
            return Err(Refusal::IndexNotSound);
        }
        self.last = Some(key);
        Ok(())
    }

    // Counts a page, if it fits and fewer pages were entered than there are.
    #[tactic(auto, using(crate::specs::PageLaws::fits_within))]
    fn enter(
        &mut self,
        index: &Index<'a>,
        page: PageNumber,
        height: u32,
        lone: bool,
    ) -> Result<(), Refusal>
        ensures ends { Ends (entering index.now.bytes.now lone height page.0 (state self.old)) result (state self.new) }
        ensures fits { OnOk result (Within index.now.bytes.now page.0 (count_at index.now.bytes.now page.0)) }
    {
        if !page_fits(index, page, height, lone) {
            return Err(Refusal::IndexNotSound);
        }
        if index.page_count() <= self.entered {
            return Err(Refusal::IndexNotSound);
        }
        self.entered += 1;
        Ok(())
    }

    // Walks a page, `height` levels above the leaves, and all that is under it.
    #[tactic(auto, using(crate::specs::PageLaws::page_steps))]
    fn page(
        &mut self,
        index: &Index<'a>,
        page: PageNumber,
        height: u32,
        lone: bool,
    ) -> Result<(), Refusal>
        ensures { Ends (walking index.now.bytes.now lone height page.0 (state self.old)) result (state self.new) }
    {
        self.enter(index, page, height, lone)?;
        let count = index.key_count(page);
        if height == 0 {
            return self.pairs(index, page, count);
        }
        let under = height - 1;
        for i in 0..count {
            self.page(index, index.lower(page, i), under, false)?;
            self.pass(index, page, i)?;
        }
        self.page(index, index.lower(page, count), under, false)
    }
}

// Whether a number is that of a page which is not a leaf.
#[tactic(auto, using(ndx_page::specs::IndexLaws::page_within))]
fn is_branch(index: &Index, page: PageNumber) -> bool
    ensures { result ≡ (is_page (page_count index.now.bytes.now) page.0 && not (is_leaf index.now.bytes.now page.0)) }
{
    if !index.is_page(page) {
        return false;
    }
    !index.is_leaf(page)
}

// The number of levels under the root, 14 at most, which the first lower pages show.
#[tactic(auto, using(crate::specs::LoopLaws::height_steps))]
fn height_of(index: &Index, root: PageNumber) -> u32
    ensures { result ≡ height_from index.now.bytes.now (max_levels - 1) root.0 }
{
    let mut page = root;
    for height in 0..MAX_LEVELS - 1 {
        if !is_branch(index, page) {
            return height;
        }
        page = index.lower(page, 0);
    }
    MAX_LEVELS - 1
}

// Walks an index from its root, and tells whether it is sound: each page but the header was entered.
#[tactic(auto, using(ndx_page::specs::IndexLaws::some_pages, crate::specs::PageLaws::tree_bad, crate::specs::PageLaws::tree_is))]
fn walk_all(index: &Index) -> Result<(), Refusal>
    ensures { MatchResult result
        (λ sound. tree_good index.now.bytes.now ≡ true)
        (λ refusal. (tree_good index.now.bytes.now ≡ false) × (refusal_number refusal ≡ 25)) }
{
    let root = index.root();
    let height = height_of(index, root);
    let mut walk = Walk {
        entered: 0,
        last: None,
    };
    walk.page(index, root, height, true)?;
    if walk.entered != index.page_count() - 1 {
        return Err(Refusal::IndexNotSound);
    }
    Ok(())
}

// The audit: whether the header is good, and then whether the index is sound.
#[tactic(auto, using(crate::specs::PageLaws::audit_steps))]
pub fn audit(index: &[u8]) -> Result<(), Refusal>
    ensures { Audited index.now (change_code (numbered result)) }
{
    walk_all(&Index::open(index)?)
}
