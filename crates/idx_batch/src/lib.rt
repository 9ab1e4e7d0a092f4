// A list of calls run by code: fresh, and then insertions, lookups and removals, each lent the buffer as the last call left it.
#![tactic(auto)]

ghost use Rattle.std.specs.Prelude.{◌≡◌, true, ◌&&◌, ◌+◌, ◌≤◌, length, leb, IfOk};
ghost use Rattle.refusal.specs.Refusals.{numbered};
ghost use Rattle.octets.specs.Store.{put};
ghost use Rattle.idx_book.specs.Book.{change_answer, lookup_answer, buffer_after};
ghost use Rattle.idx_lookup.specs.Lookup.{answer_pages};
ghost use Rattle.idx_batch.specs.Encoding.{is_call, call_end, call_at};
ghost use Rattle.idx_batch.specs.Run.{answer_size, reply_of, reply_bytes, reply_to, leaves, run_rule, SoundRunKept, started, batch_rule, BatchKept};

use idx_lookup::Outcome;
use idx_page::RecordNumber;
use refusal::Refusal;

// The bytes of one answer.
pub const ANSWER_SIZE: usize = 12;

// The code of a lookup whose key is absent.
const ABSENT: u32 = 257;

// What a call answers, as it is written: its code, 0, the refusal's number or `ABSENT`; the number of the record that was found; and how many pages a lookup
// visited. The list of answers is bytes that a host reads, so refusals are numbers in it.
#[derive(Clone, Copy)]
pub struct Reply {
    pub code: u32,
    pub number: u32,
    pub pages: u32,
}

// The offset past the call at an offset.
fn call_end(calls: &[u8], at: usize) -> usize
    requires { at + 3 ≤ length calls.now }
    ensures { result ≡ call_end calls.now at }
{
    let key = octets::load_le16(calls, at + 1) as usize;
    let kind = octets::byte(calls, at) as usize;
    at + 3 + key + 4 * ((kind + 1) / 2)
}

// Whether a whole call stands at an offset.
fn is_call(calls: &[u8], at: usize) -> bool
    requires { at ≤ length calls.now }
    ensures { result ≡ is_call calls.now at }
{
    if calls.len() - at < 3 {
        return false;
    }
    (octets::byte(calls, at) <= 2) & (call_end(calls, at) <= calls.len())
}

// Whether a whole call stands at an offset, and there is room for its answer.
fn goes_on(calls: &[u8], at: usize, room: usize) -> bool
    requires { at ≤ length calls.now }
    ensures { result ≡ is_call calls.now at && leb answer_size room }
{
    is_call(calls, at) & (ANSWER_SIZE <= room)
}

// The answer of an insertion or a removal.
fn changed(answer: Result<(), Refusal>) -> Reply
    ensures { result ≡ reply_of (change_answer (numbered answer)) 0 }
{
    match answer {
        Ok(()) => Reply {
            code: 0,
            number: 0,
            pages: 0,
        },
        Err(refusal) => Reply {
            code: refusal.number(),
            number: 0,
            pages: 0,
        },
    }
}

// A lookup's answer.
fn looked_up(answer: Result<Outcome, Refusal>) -> Reply
    ensures { result ≡ reply_of (lookup_answer (numbered answer)) (answer_pages (numbered answer) 0) }
{
    match answer {
        Ok(
            Outcome {
                found: Some(number),
                pages,
            },
        ) => Reply {
            code: 0,
            number: number.0,
            pages,
        },
        Ok(Outcome { found: None, pages }) => Reply {
            code: ABSENT,
            number: 0,
            pages,
        },
        Err(refusal) => Reply {
            code: refusal.number(),
            number: 0,
            pages: 0,
        },
    }
}

// Makes the call at an offset.
fn make_call(index: &mut [u8], calls: &[u8], at: usize) -> Reply
    requires { is_call calls.now at ≡ true }
    ensures { (index.new ≡ buffer_after (call_at calls.now at) index.old)
        × (result ≡ reply_to (call_at calls.now at) index.old) }
{
    let from = at + 3;
    let end = from + octets::load_le16(calls, at + 1) as usize;
    // The kind is a byte of the list, which hosts write: it is read here alone, so an enum of kinds would be no plainer.
    let kind = octets::byte(calls, at);
    if kind == 0 {
        return looked_up(idx_lookup::lookup(index, &calls[from..end]));
    }
    let number = RecordNumber(octets::load_le32(calls, end));
    if kind == 2 {
        return changed(idx_remove::remove(index, &calls[from..end], number));
    }
    changed(idx_insert::insert(index, &calls[from..end], number))
}

// Writes an answer at an offset.
fn write_reply(answers: &mut [u8], at: usize, reply: Reply)
    requires { at + answer_size ≤ length answers.old }
    ensures { answers.new ≡ put answers.old at (reply_bytes reply) }
{
    octets::store_le32(answers, at, reply.code);
    octets::store_le32(answers, at + 4, reply.number);
    octets::store_le32(answers, at + 8, reply.pages);
}

// Makes the calls of a list one after another on a buffer, as many as there is room for their answers, and answers how many.
pub fn run_calls(index: &mut [u8], calls: &[u8], answers: &mut [u8]) -> usize
    ensures answers_value { run_rule index.old calls.now answers.old ≡ leaves index.new answers.new result }
    ensures sound_run_kept { SoundRunKept index.old calls.now answers.old index.new answers.new result }
{
    let mut at = 0;
    let mut made = 0;
    // A call says its own length, so the loop goes from place to place, and no iterator over the bytes serves.
    while goes_on(calls, at, answers.len() - ANSWER_SIZE * made) {
        let reply = make_call(index, calls, at);
        write_reply(answers, ANSWER_SIZE * made, reply);
        at = call_end(calls, at);
        made += 1;
    }
    made
}

// Makes a fresh index of the features told, and then the calls of a list if fresh is accepted; answers how many.
pub fn run_batch(
    index: &mut [u8],
    k: u32,
    features: u32,
    expression: &[u8],
    calls: &[u8],
    answers: &mut [u8],
) -> Result<usize, Refusal>
    ensures answers_value { batch_rule index.old k features expression.now calls.now answers.old
        ≡ started index.new answers.new (numbered result) }
    ensures batch_kept { IfOk result (λ made. BatchKept index.old k features expression.now calls.now answers.old
        index.new answers.new made) }
{
    match idx_insert::fresh(index, k, features, expression) {
        Ok(()) => Ok(run_calls(index, calls, answers)),
        Err(refusal) => Err(refusal),
    }
}
