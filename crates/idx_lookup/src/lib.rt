// Lookup: from the root down, level by level, by the first entry at or above the key.
#![tactic(auto)]

ghost use Rattle.std.specs.Prelude.{◌≡◌, Bool, true, false, ℕ, suc, ◌+◌, ◌-◌, ◌≤◌, eqb, length, Result, Ok, Err};
ghost use Rattle.refusal.specs.Refusals.{numbered};
ghost use Rattle.octets.specs.Order.{ordering, is_equal};
ghost use Rattle.idx_page.specs.declared.PageOffset.{PageOffset};
ghost use Rattle.idx_page.specs.Header.{max_levels, root_offset, file_size, key_length, header_good};
ghost use Rattle.idx_page.specs.Page.{count_at, key_at, number_at, page_good};
ghost use Rattle.idx_page.specs.Within.{Within};
ghost use Rattle.idx_lookup.specs.Answer.{Answer, found, absent, and_then, follow};
ghost use Rattle.idx_lookup.specs.FirstRecord.{offset_of, record_of, entry_decides, neighbour_decides, first_from};
ghost use Rattle.idx_lookup.specs.Ways.{search_way, way_decides};
ghost use Rattle.idx_lookup.specs.WayLaws.{first_end};
ghost use Rattle.idx_lookup.specs.Lookup.{page_says, decided, lookup_from, lookup_rule};
ghost use Rattle.idx_lookup.specs.LookupLaws.{lookup_end};

use idx_page::{MAX_LEVELS, Page, PageOffset, RecordNumber};
use refusal::Refusal;
use std::ops::ControlFlow;

// What a lookup that is not refused says: the key's record, none if the key is absent, and the number of pages visited.
#[derive(Clone, Copy)]
pub struct Outcome {
    pub found: Option<RecordNumber>,
    pub pages: u32,
}

impl Outcome {
    // The key has a record.
    pub fn found(number: RecordNumber, pages: u32) -> Outcome
        ensures { Ok result ≡ found number pages }
    {
        Outcome {
            found: Some(number),
            pages,
        }
    }

    // The key is absent.
    pub fn absent(pages: u32) -> Outcome
        ensures { Ok result ≡ absent pages }
    {
        Outcome { found: None, pages }
    }
}

// A lookup from the root down, in an index of some format.
pub trait Descent {
    // What names a page in the format.
    type Page: Copy;

    // Where the lookup starts, and what it answers from a page on, with a number of levels left.
    ghost start: { Self → Self.Page };

    ghost answer: { Self → ℕ → Self.Page → Answer };

    // With no level left the index is not sound.
    ghost ends: { (s : Self) (p : Self.Page) → answer s 0 p ≡ Err 25 };

    fn root(&self) -> Self::Page
        ensures { result ≡ start self.now };

    // What a page says, the `pages`th that is visited: the lookup ends, or goes on from a child.
    fn visit(
        &self,
        page: Self::Page,
        pages: u32,
    ) -> Result<ControlFlow<Outcome, Self::Page>, Refusal>
        requires { (1 ≤ pages) × (pages ≤ max_levels) }
        ensures { and_then (numbered result) (follow (answer self.now (max_levels - pages))) ≡ answer self.now (suc (max_levels - pages)) page };
}

// Looks a key up from a page on, with `levels` levels left: it calls itself on the child, with one level less.
fn descend_from<D: Descent>(search: &D, page: D::Page, levels: u32) -> Result<Outcome, Refusal>
    requires { levels ≤ max_levels }
    ensures { numbered result ≡ D.answer search.now levels page }
{
    if levels == 0 {
        return Err(Refusal::IndexNotSound);
    }
    let left = levels - 1;
    match search.visit(page, MAX_LEVELS - left)? {
        ControlFlow::Break(outcome) => Ok(outcome),
        ControlFlow::Continue(child) => descend_from(search, child, left),
    }
}

// Looks a key up, level by level.
pub fn descend<D: Descent>(search: &D) -> Result<Outcome, Refusal>
    ensures { numbered result ≡ D.answer search.now max_levels (D.start search.now) }
{
    descend_from(search, search.root(), MAX_LEVELS)
}

// A lookup whose index has a good header, and whose key has the length of its keys.
#[derive(Clone, Copy)]
struct Search<'a> {
    index: &'a [u8],
    key: &'a [u8],
    ghost header: { header_good index.now ≡ true },
    ghost fits: { length key.now ≡ key_length index.now },
}

impl<'a> Search<'a> {
    // Whether a page passes its checks. `first` and `last` say whether it is the first page visited, and the last that may be.
    #[tactic(auto, using(crate::specs::SearchLaws::header_long, crate::specs::SearchLaws::header_within, crate::specs::SearchLaws::key_short))]
    fn page_good(&self, page: PageOffset, first: bool, last: bool) -> bool
        ensures { result ≡ page_good self.now.index.now (length self.now.key.now) (file_size self.now.index.now) page.0 first last }
    {
        let size = idx_page::file_size(self.index);
        idx_page::page_good(self.index, self.key.len(), size, page, first, last)
    }

    // Whether the `pages`th page that is visited passes its checks.
    fn passes(&self, page: PageOffset, pages: u32) -> bool
        ensures { result ≡ page_good self.now.index.now (length self.now.key.now) (file_size self.now.index.now) page.0 (eqb pages 1) (eqb pages max_levels) }
    {
        self.page_good(page, pages == 1, pages == MAX_LEVELS)
    }

    // Whether entry `i` of a page has the key.
    fn has_key(&self, page: PageOffset, i: usize) -> bool
        requires { Within self.now.index.now (length self.now.key.now) page.0 (i + 1) }
        ensures { result ≡ is_equal (ordering (key_at self.now.index.now (length self.now.key.now) page.0 i) self.now.key.now) }
    {
        idx_page::compare_entry(self.index, page, i, self.key).is_eq()
    }

    // The record number of entry `i` of a leaf.
    fn record_number(&self, page: PageOffset, i: usize) -> RecordNumber
        requires { Within self.now.index.now (length self.now.key.now) page.0 (i + 1) }
        ensures { result ≡ record_of (number_at self.now.index.now (length self.now.key.now) page.0 i) }
    {
        idx_page::record_number(self.index, self.key.len(), page, i)
    }

    // The child of entry `i` of a branch.
    fn child(&self, page: PageOffset, i: usize) -> PageOffset
        requires { Within self.now.index.now (length self.now.key.now) page.0 (i + 1) }
        ensures { result ≡ offset_of (number_at self.now.index.now (length self.now.key.now) page.0 i) }
    {
        idx_page::child(self.index, self.key.len(), page, i)
    }

    // Entry `i` of a leaf decides, after `pages` pages.
    #[tactic(auto, unfolding(crate::specs::FirstRecord::entry_decides))]
    fn entry_decides(&self, page: PageOffset, i: usize, pages: u32) -> Outcome
        requires { Within self.now.index.now (length self.now.key.now) page.0 (i + 1) }
        ensures { Ok result ≡ entry_decides self.now.index.now self.now.key.now pages page.0 i }
    {
        if self.has_key(page, i) {
            return Outcome::found(self.record_number(page, i), pages);
        }
        Outcome::absent(pages)
    }
}

// Lookup in an index in which a key has one record.
#[derive(Clone, Copy)]
struct Only<'a>(Search<'a>);

impl<'a> Only<'a> {
    // What the entries of a page say of the key, after `pages` pages.
    #[tactic(auto, unfolding(crate::specs::Lookup::page_says, crate::specs::Lookup::entry_says, crate::specs::FirstRecord::entry_decides))]
    fn search_page(&self, page: PageOffset, pages: u32) -> ControlFlow<Outcome, PageOffset>
        requires { Within self.now.0.index.now (length self.now.0.key.now) page.0 (count_at self.now.0.index.now page.0) }
        ensures { (go : PageOffset → Answer) → follow go result ≡ decided go pages (page_says self.now.0.index.now self.now.0.key.now page.0) }
    {
        let search = &self.0;
        let head = Page::at(search.index, page);
        let count = head.count as usize;
        let i = idx_page::first_at_or_above(search.index, page, count, search.key);
        if i == count {
            return ControlFlow::Break(Outcome::absent(pages));
        }
        if idx_page::is_leaf(head.attribute) {
            return ControlFlow::Break(search.entry_decides(page, i, pages));
        }
        ControlFlow::Continue(search.child(page, i))
    }
}

impl<'a> Descent for Only<'a> {
    type Page = PageOffset;

    ghost start = { λ s. offset_of (root_offset s.0.index.now) };

    ghost answer = { λ s levels p. lookup_from levels s.0.index.now s.0.key.now p.0 };

    ghost ends = { λ s p. lookup_end s.0.index.now s.0.key.now p.0 };

    #[tactic(auto, using(crate::specs::SearchLaws::header_long))]
    fn root(&self) -> PageOffset {
        idx_page::root(self.0.index)
    }

    #[tactic(auto, using(crate::specs::SearchLaws::visit_steps))]
    fn visit(
        &self,
        page: PageOffset,
        pages: u32,
    ) -> Result<ControlFlow<Outcome, PageOffset>, Refusal> {
        if !self.0.passes(page, pages) {
            return Err(Refusal::IndexNotSound);
        }
        Ok(self.search_page(page, pages))
    }
}

// Lookup of a key's first record, in an index in which a key may have several.
#[derive(Clone, Copy)]
struct First<'a>(Search<'a>);

impl<'a> First<'a> {
    // The right neighbour of a leaf decides, after `pages` pages.
    #[tactic(auto, using(crate::specs::SearchLaws::neighbour_steps))]
    fn neighbour_decides(&self, right: PageOffset, pages: u32) -> Result<Outcome, Refusal>
        requires { pages ≤ max_levels }
        ensures { numbered result ≡ neighbour_decides self.now.0.index.now self.now.0.key.now pages right.0 }
    {
        if right.0 == idx_page::NO_PAGE {
            return Ok(Outcome::absent(pages));
        }
        if !self.0.page_good(right, false, true) {
            return Err(Refusal::IndexNotSound);
        }
        Ok(self.0.entry_decides(right, 0, pages + 1))
    }

    // What the entries of a page say of the key, after `pages` pages.
    #[tactic(auto, unfolding(crate::specs::Ways::search_way, crate::specs::Ways::entry_way))]
    fn search_page(
        &self,
        page: PageOffset,
        pages: u32,
    ) -> Result<ControlFlow<Outcome, PageOffset>, Refusal>
        requires inside { Within self.now.0.index.now (length self.now.0.key.now) page.0 (count_at self.now.0.index.now page.0) }
        requires filled { eqb pages 1 ≡ false → 1 ≤ count_at self.now.0.index.now page.0 }
        requires few { pages ≤ max_levels }
        ensures { (go : ℕ → Answer) → and_then (numbered result) (follow (λ c. go c.0))
            ≡ way_decides go self.now.0.index.now self.now.0.key.now pages page.0 (search_way self.now.0.index.now self.now.0.key.now page.0 (eqb pages 1)) }
    {
        let search = &self.0;
        let head = Page::at(search.index, page);
        let count = head.count as usize;
        let i = idx_page::first_at_or_above(search.index, page, count, search.key);
        let leaf = idx_page::is_leaf(head.attribute);
        if i != count {
            if leaf {
                return Ok(ControlFlow::Break(search.entry_decides(page, i, pages)));
            }
            return Ok(ControlFlow::Continue(search.child(page, i)));
        }
        if pages == 1 {
            return Ok(ControlFlow::Break(Outcome::absent(pages)));
        }
        if leaf {
            return Ok(ControlFlow::Break(self.neighbour_decides(head.right, pages)?));
        }
        Ok(ControlFlow::Continue(search.child(page, count - 1)))
    }
}

impl<'a> Descent for First<'a> {
    type Page = PageOffset;

    ghost start = { λ s. offset_of (root_offset s.0.index.now) };

    ghost answer = { λ s levels p. first_from levels s.0.index.now s.0.key.now p.0 };

    ghost ends = { λ s p. first_end s.0.index.now s.0.key.now p.0 };

    #[tactic(auto, using(crate::specs::SearchLaws::header_long))]
    fn root(&self) -> PageOffset {
        idx_page::root(self.0.index)
    }

    #[tactic(auto, using(crate::specs::SearchLaws::way_steps))]
    fn visit(
        &self,
        page: PageOffset,
        pages: u32,
    ) -> Result<ControlFlow<Outcome, PageOffset>, Refusal> {
        if !self.0.passes(page, pages) {
            return Err(Refusal::IndexNotSound);
        }
        self.search_page(page, pages)
    }
}

// Lookup from the root on, for a caller that has tested the header and the key's length. `lookup` is left with one caller in the archive, so that the compiler
// takes it in there.
#[tactic(auto, using(crate::specs::SearchLaws::header_long, crate::specs::SearchLaws::rule_first, crate::specs::SearchLaws::rule_only))]
pub fn lookup_from_root(index: &[u8], key: &[u8]) -> Result<Outcome, Refusal>
    requires { (header_good index.now ≡ true) × (length key.now ≡ key_length index.now) }
    ensures { numbered result ≡ lookup_rule index.now key.now }
{
    let search = Search { index, key };
    if idx_page::several(index) {
        descend(&First(search))
    } else {
        descend(&Only(search))
    }
}

// The record of a key, the first if it has several, or absent, with the number of pages visited.
#[tactic(auto, using(crate::specs::SearchLaws::header_long, crate::specs::SearchLaws::rule_header, crate::specs::SearchLaws::rule_key))]
pub fn lookup(index: &[u8], key: &[u8]) -> Result<Outcome, Refusal>
    ensures { numbered result ≡ lookup_rule index.now key.now }
{
    if !idx_page::header_good(index) {
        return Err(Refusal::IndexHeader);
    }
    if key.len() != idx_page::key_length(index) {
        return Err(Refusal::KeyLength);
    }
    lookup_from_root(index, key)
}
