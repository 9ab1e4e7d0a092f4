// The FPT memo file: where the memo that an M field names has its text in the file. Document 01, "Field text", paragraph M.
#![tactic(auto)]

ghost use Rattle.std.specs.Prelude.{◌≡◌, ◌+◌, ◌^◌, ◌≤◌, ◌<◌, length, MatchOption};
ghost use Rattle.refusal.specs.Refusals.{numbered};
ghost use Rattle.fpt_memo.specs.Memo.{memo_header_bytes, NumberAnswer, block_size, memo_header_good, head_fits, end_fits};
ghost use Rattle.fpt_memo.specs.Memo.{block_text, numbered_text, MemoAnswer};

use octets::{load_be16, load_be32};
use refusal::Refusal;

// The header's length: the least length of a memo file, and the first place where a block can start.
const HEADER_BYTES: usize = 512;

// The greatest length of a memo file.
const MAX_MEMO_BYTES: usize = 16777216;

// Where a text stands in its file.
#[derive(Clone, Copy, Debug, PartialEq, Eq)]
pub struct Span {
    pub start: usize,
    pub len: usize,
}

// Reads an M field's text: blanks, then digits without a leading zero. Blanks alone name no memo.
pub fn read_number(text: &[u8]) -> Result<Option<u64>, Refusal>
    ensures { NumberAnswer text.now (numbered result) }
{
    if text.len() != 10 {
        return Err(Refusal::MemoNumberOrPlace);
    }
    let from = octets::padding(text);
    if from == 10 {
        return Ok(None);
    }
    if text[from] <= b'0' {
        return Err(Refusal::MemoNumberOrPlace);
    }
    let number = octets::read_digits(&text[from..]).ok_or(Refusal::MemoNumberOrPlace)?;
    Ok(Some(number))
}

// A memo file that is as long as a header at least.
#[derive(Clone, Copy)]
struct MemoFile<'a> {
    bytes: &'a [u8],
    ghost header: { memo_header_bytes ≤ length bytes.now },
}

impl<'a> MemoFile<'a> {
    // The file of these bytes, if they are enough for a header.
    fn new(bytes: &'a [u8]) -> Option<MemoFile<'a>>
        ensures { MatchOption result (length bytes.now < memo_header_bytes) (λ file. file.bytes.now ≡ bytes.now) }
    {
        if bytes.len() < HEADER_BYTES {
            return None;
        }
        Some(MemoFile { bytes })
    }

    // The block size that the header gives.
    fn block_size(self) -> u64
        ensures { (result ≡ block_size self.entry.bytes.now) × (result < 65536) }
    {
        u64::from(load_be16(self.bytes, 6))
    }

    // Whether the file's length and block size are good.
    #[tactic(auto, unfolding(crate::specs::Memo::memo_header_good))]
    fn header_good(self) -> bool
        ensures { result ≡ memo_header_good self.entry.bytes.now }
    {
        let size = self.block_size();
        self.bytes.len() <= MAX_MEMO_BYTES && size % 2 == 0 && (32..=16384).contains(&size)
    }

    // Whether the first 8 bytes of a block at `start` stand after the header and in the file.
    fn head_fits(self, start: u64) -> bool
        requires { start + 8 < 2 ^ 64 }
        ensures { result ≡ head_fits self.entry.bytes.now start }
    {
        HEADER_BYTES as u64 <= start && start + 8 <= self.bytes.len() as u64
    }

    // Whether a text that ends at `end` stands in the file and in the blocks in use.
    #[tactic(auto, using(crate::specs::MemoLaws::bytes_fit))]
    fn end_fits(self, end: u64) -> bool
        ensures { result ≡ end_fits self.entry.bytes.now end }
    {
        let next = u64::from(load_be32(self.bytes, 0));
        end <= self.bytes.len() as u64 && end <= next * self.block_size()
    }

    // The text of the block at `start`.
    fn block_text(self, start: u64) -> Result<Option<Span>, Refusal>
        requires { start + 8 < 2 ^ 64 }
        ensures { numbered result ≡ block_text self.entry.bytes.now start }
    {
        if !self.head_fits(start) {
            return Err(Refusal::MemoNumberOrPlace);
        }
        let at = start as usize;
        let len = load_be32(self.bytes, at + 4) as usize;
        if !self.end_fits(start + 8 + len as u64) {
            return Err(Refusal::MemoNumberOrPlace);
        }
        if load_be32(self.bytes, at) != 1 {
            return Err(Refusal::MemoNotText);
        }
        Ok(Some(Span { start: at + 8, len }))
    }
}

// The text of the memo with this number, which has at most ten digits.
fn numbered_text(bytes: &[u8], number: u64) -> Result<Option<Span>, Refusal>
    requires { number < 10 ^ 10 }
    ensures { numbered result ≡ numbered_text bytes.now number }
{
    let Some(file) = MemoFile::new(bytes) else {
        return Err(Refusal::MemoHeader);
    };
    if !file.header_good() {
        return Err(Refusal::MemoHeader);
    }
    file.block_text(number * file.block_size())
}

// Where the memo file has the text of the memo that an M field's text names. A blank field names none, and the file is not looked at.
pub fn memo_place(text: &[u8], file: &[u8]) -> Result<Option<Span>, Refusal>
    ensures { MemoAnswer text.now file.now (numbered result) }
{
    match read_number(text)? {
        Some(number) => numbered_text(file, number),
        None => Ok(None),
    }
}
