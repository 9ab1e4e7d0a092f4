// Audits indexes that an independent implementation made, and looks keys up in them: each accepted insertion of a list of calls must be found in the index
// file after the list, with its record, unless its key was struck off since. Then the program runs each list as bytes on a buffer of zeros, prints the answers,
// and compares the buffer with the index file. Other lists run on an index of an earlier release, whose keys have control bytes, and on indexes whose keys
// above pages are ceilings or break that rule. At last the program audits damaged copies of one index. README.md beside src/ says where the files came from.
#![tactic(auto)]

mod lists;

use std::fmt::InlineText;
use test_lines::{
    ROOM, after_word, first_line, first_number, hex_bytes, print, print_number, word,
};

// The lists that run on zeros, and the bytes of their buffers. Keys have the length that a name says; the lists k6 have removals, and in k6_k10_to_nothing all
// keys go; the last two are written from document 01.
const LISTS: [(&str, usize); 17] = [
    ("k1_bytes", 8192),
    ("k10_ascending", 32768),
    ("k10_descending", 32768),
    ("k10_random", 32768),
    ("k5_control", 16384),
    ("k6_k10_mixed", 32768),
    ("k6_k10_to_nothing", 16384),
    ("k6_k1_bytes", 8192),
    ("k6_k100_deep", 65536),
    ("k6_k100_full", 4096),
    ("k46_mixed", 32768),
    ("k100_deep", 65536),
    ("k100_full", 4096),
    ("k100_deep_raised", 65536),
    ("k100_full_raised", 4096),
    ("paper_five", 2048),
    ("paper_full", 1024),
];

// The indexes that lists run on and change: one of an earlier release, with control bytes in its keys, and three whose keys above pages are ceilings.
const CHANGED: [&str; 4] = [
    "earlier",
    "ceilings_k10_struck",
    "ceilings_k100_struck",
    "ceilings_k100_inner_last_high",
];

// Indexes in which one key above a page breaks the rule by one: no call changes them.
const BROKEN: [&str; 4] = [
    "ceilings_k10_too_low",
    "ceilings_k10_meets_next",
    "ceilings_k100_too_low",
    "ceilings_k100_meets_next",
];

// What is damaged in a copy of an index: the byte at an offset gets another value.
const DAMAGES: [(&str, usize, u8); 9] = [
    ("features 0", 14, 0),
    ("features 2", 14, 2),
    ("key length 101", 12, 101),
    ("a file size that is no multiple of 512", 8, 1),
    ("a root bit on another page", 512, 3),
    ("a count of 65,314", 515, 255),
    ("a left link to no neighbour", 517, 2),
    ("a first key of 255", 524, 255),
    ("another record number", 534, 1),
];

// How many insertions of a list were accepted, and how many of their pairs are found.
#[derive(Clone, Copy)]
struct Tally {
    accepted: u32,
    found: u32,
}

impl Tally {
    fn add(self, is_found: bool) -> Tally {
        Tally {
            accepted: self.accepted.wrapping_add(1),
            found: self.found.wrapping_add(u32::from(is_found)),
        }
    }
}

// Whether a line is an insertion that was accepted, `i KEY RECORD 0`.
fn is_accepted(line: &[u8]) -> bool {
    let answer = after_word(after_word(after_word(line)));
    line.starts_with(b"i") && answer == b"0".as_slice()
}

// Whether the index has the key of such a line, with the line's record.
fn is_found(index: &[u8], line: &[u8]) -> bool {
    let rest = after_word(line);
    let wanted = first_number(after_word(rest));
    let mut key = [0; 100];
    let k = hex_bytes(word(rest), &mut key);
    match idx_lookup::lookup(index, &key[..k]) {
        Ok(outcome) => outcome.found.is_some_and(|found| found.0 == wanted),
        Err(_) => false,
    }
}

fn count_found(index: &[u8], calls: &[u8]) -> Tally {
    let mut tally = Tally {
        accepted: 0,
        found: 0,
    };
    let mut rest = calls;
    while !rest.is_empty() {
        let (line, behind) = first_line(rest);
        if is_accepted(line) {
            tally = tally.add(is_found(index, line));
        }
        rest = behind;
    }
    tally
}

fn print_tally(out: &impl Print, tally: Tally) {
    print(out, b" accepted ");
    print_number(out, tally.accepted);
    print(out, b" found ");
    print_number(out, tally.found);
    print(out, b"\n");
}

fn audit(index: &[u8]) -> u32 {
    refusal::change_code(idx_audit::audit(index))
}

fn print_audit(out: &impl Print, name: &str, index: &[u8]) {
    print(out, name.as_bytes());
    print(out, b" ");
    print_number(out, audit(index));
    print(out, b"\n");
}

// Prints the audit of an index file, and how many accepted keys of its list it has.
fn print_index(out: &impl Print, name: &str, index: &[u8], calls: &[u8]) {
    print(out, name.as_bytes());
    print(out, b" audit ");
    print_number(out, audit(index));
    print_tally(out, count_found(index, calls));
}

// Reads what fits of a file to the start of a room, and lends those bytes.
fn load<'a>(rt: &HostRuntime, name: &str, ending: &str, room: &'a mut [u8]) -> &'a mut [u8] {
    let path = InlineText::<64>::of(format_args!("{name}{ending}"));
    let n = test_lines::load(rt, &rt.stderr(), path.as_str().as_bytes(), room);
    &mut room[..n]
}

// Reads an index file and its list of calls, and prints all lines of the two. The list runs on a buffer of `size` zeros, at most 65,536. Not inlined, as the
// other functions with rooms that `main` calls, so that their rooms lie in the same place of the stack.
#[inline(never)]
fn run_on_zeros(rt: &HostRuntime, name: &str, size: usize) {
    let mut index = [0; ROOM];
    let mut calls = files::space();
    let index = load(rt, name, ".idx", &mut index);
    let calls = load(rt, name, ".calls", &mut calls);
    print_index(rt, name, index, calls);
    let mut zeros = [0; ROOM];
    if let Some(zeros) = zeros.get_mut(..size) {
        lists::run_on_zeros(rt, name, calls, index, zeros);
    }
}

// Audits an index file, zeros behind it, and makes the calls of a list on it. `ending` is the end of the name of the index file after the list.
#[inline(never)]
fn run_on_file(rt: &HostRuntime, name: &str, ending: &str) {
    let mut index = [0; ROOM];
    let mut calls = [0; ROOM];
    let mut after = [0; ROOM];
    load(rt, name, ".idx", &mut index);
    let calls = load(rt, name, ".calls", &mut calls);
    let after = load(rt, name, ending, &mut after);
    print_audit(rt, name, &index);
    lists::run_on_index(rt, name, calls, after, &mut index);
}

// Audits a copy of an index in which the byte at an offset has another value.
#[inline(never)]
fn damaged(rt: &HostRuntime, name: &str, at: usize, value: u8) {
    let mut index = [0; ROOM];
    let whole = load(rt, "k10_random", ".idx", &mut index);
    test_lines::set_byte(whole, at, value);
    print_audit(rt, name, whole);
}

fn main(rt: HostRuntime) {
    for (name, size) in LISTS {
        run_on_zeros(&rt, name, size);
    }
    for name in CHANGED {
        run_on_file(&rt, name, "_after.idx");
    }
    for name in BROKEN {
        run_on_file(&rt, name, ".idx");
    }
    for (name, at, value) in DAMAGES {
        damaged(&rt, name, at, value);
    }
}
