// One line of a list of calls: the call is made on a buffer, and its answer is printed as the line has it.
use test_lines::{after_word, first_number, hex_bytes, print, print_number, word};

pub fn print_part(out: &impl Print, n: u32) {
    print(out, b" ");
    print_number(out, n);
}

// The number that the first word says, in at most ten digits: some records' numbers have as many.
fn long_number(s: &[u8]) -> u32 {
    let digits = word(s);
    match digits.split_last() {
        Some((last, high)) if 9 <= high.len() => {
            let n = u64::from(first_number(high)) * 10 + u64::from(*last % 16);
            (n % 4294967296) as u32
        }
        _ => first_number(digits),
    }
}

// `f K EXPRESSION FEATURES ..`, from K on: a fresh index.
fn make_fresh(out: &impl Print, index: &mut [u8], call: &[u8]) {
    let rest = after_word(call);
    let features = first_number(after_word(rest));
    let mut expression = [0u8; 256];
    let n = hex_bytes(word(rest), &mut expression);
    print_part(
        out,
        index_calls::index_fresh(index, first_number(call), features, &expression[..n]),
    );
}

// A lookup: its answer, the record and the pages visited, 0 for what an answer does not have.
fn look_up(out: &impl Print, index: &[u8], key: &[u8]) {
    let mut number = 0;
    let mut pages = 0;
    let answer = index_calls::index_lookup(index, key, &mut number, &mut pages);
    print_part(out, answer);
    print_part(out, number);
    print_part(out, pages);
}

// The numbers of a list, with commas between them, or `-` for none.
fn print_list(out: &impl Print, list: &[u32]) {
    print(out, b" ");
    let Some((first, rest)) = list.split_first() else {
        print(out, b"-");
        return;
    };
    print_number(out, *first);
    for number in rest {
        print(out, b",");
        print_number(out, *number);
    }
}

// All records of a key, into a list that is as long as the call's room. A refused call has none.
fn print_records(out: &impl Print, index: &[u8], key: &[u8], list: &mut [u32]) {
    let (answer, count) = match idx_records::records(index, key, list) {
        Ok(count) => (0, count as usize),
        Err(refusal) => (refusal.number(), 0),
    };
    print_part(out, answer);
    if let Some(found) = list.get(..count) {
        print_list(out, found);
    }
}

// All records of a key, with room for at most 500. A call with more room gets no answer.
fn list_records(out: &impl Print, index: &[u8], key: &[u8], room: usize) {
    let mut most = [0u32; 500];
    if let Some(list) = most.get_mut(..room) {
        print_records(out, index, key, list);
    }
}

// `i KEY RECORD ..`, `r KEY RECORD ..`, `l KEY ..` or `s KEY ROOM ..`, by the first letter; `rest` is what stands behind the key.
fn run_call(out: &impl Print, index: &mut [u8], letter: u8, key: &[u8], rest: &[u8]) {
    match letter {
        b'i' => print_part(
            out,
            index_calls::index_insert(index, key, long_number(rest)),
        ),
        b'r' => print_part(
            out,
            index_calls::index_remove(index, key, long_number(rest)),
        ),
        b'l' => look_up(out, index, key),
        _ => list_records(out, index, key, first_number(rest) as usize),
    }
}

// A call with a key.
pub fn run_keyed(out: &impl Print, index: &mut [u8], letter: u8, call: &[u8]) {
    let mut key = [0u8; 256];
    let n = hex_bytes(word(call), &mut key);
    run_call(out, index, letter, &key[..n], after_word(call));
}

// An audit, a fresh index, or a call with a key, by the line's first letter.
fn make_call(out: &impl Print, index: &mut [u8], letter: u8, call: &[u8]) {
    match letter {
        b'a' => print_part(out, refusal::change_code(idx_audit::audit(index))),
        b'f' => make_fresh(out, index, call),
        _ => run_keyed(out, index, letter, call),
    }
}

// Makes the call of a line on a buffer, and prints its answer behind the line's first word.
pub fn run_line(out: &impl Print, index: &mut [u8], line: &[u8]) {
    let Some(letter) = line.first() else {
        return;
    };
    print(out, word(line));
    make_call(out, index, *letter, after_word(line));
    print(out, b"\n");
}
