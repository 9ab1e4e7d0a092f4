// Runs lists of calls on indexes with equal keys, line by line: each call is made on a buffer that was all zero at first, and its answer is printed; after the
// last line the program says whether the buffer begins with the bytes of an index file. Then it makes fresh indexes of each kind, and audits and searches
// copies of an index with one byte set. README.md beside src/ says where the files and the answers came from.
#![tactic(auto)]

mod calls;

use calls::print_part;
use std::rt::Files;
use test_lines::{ROOM, after_word, first_line, first_number, print, word};

// The lists, with the files of their calls and of their indexes, and the bytes of their buffers.
const LISTS: [(&str, &str, &str, usize); 6] = [
    ("k12_few", "k12_few.calls", "k12_few.idx", 16384),
    ("k12_dates", "k12_dates.calls", "k12_dates.idx", 32768),
    ("k12_one_key", "k12_one_key.calls", "k12_one_key.idx", 16384),
    ("k12_unique", "k12_unique.calls", "k12_unique.idx", 16384),
    ("k12_deep", "k12_deep.calls", "k12_deep.idx", 65536),
    (
        "k12_deep_falling",
        "k12_deep_falling.calls",
        "k12_deep_falling.idx",
        65536,
    ),
];

fn print_same(out: &impl Print, name: &str, same: bool) {
    print(out, name.as_bytes());
    if same {
        print(out, b" same\n");
    } else {
        print(out, b" differs\n");
    }
}

// Makes the calls of a list on a buffer.
fn run_lines(out: &impl Print, index: &mut [u8], list: &[u8]) {
    let mut rest = list;
    while !rest.is_empty() {
        let (line, behind) = first_line(rest);
        calls::run_line(out, index, line);
        rest = behind;
    }
}

// Runs a list on a buffer, and compares it with an index file.
fn run_list(
    rt: &(impl Files + Print),
    err: &impl Print,
    index: &mut [u8],
    name: &str,
    list: &[u8],
    file_path: &str,
) {
    let mut file = [0u8; ROOM];
    let n = test_lines::load(rt, err, file_path.as_bytes(), &mut file);
    run_lines(rt, index, list);
    print_same(rt, name, test_lines::begins_with(index, &file[..n]));
}

// Runs the list of a file on a buffer of `size` zeros, at most 65,536. Not inlined, so that its rooms are free again when the program goes on.
#[inline(never)]
fn run(
    rt: &(impl Files + Print),
    err: &impl Print,
    name: &str,
    list_path: &str,
    file_path: &str,
    size: usize,
) {
    let mut buffer = [0u8; ROOM];
    let mut list = files::space();
    let n = test_lines::load(rt, err, list_path.as_bytes(), &mut list);
    if let Some(index) = buffer.get_mut(..size) {
        run_list(rt, err, index, name, &list[..n], file_path);
    }
}

// `AT BYTE a ANSWER l KEY ..`: an audit and a lookup after the byte at an offset was set. The answers of the line are not read.
fn run_damaged(out: &impl Print, index: &mut [u8], line: &[u8]) {
    let value = after_word(line);
    let key = after_word(after_word(after_word(after_word(value))));
    test_lines::set_byte(
        index,
        first_number(line) as usize,
        (first_number(value) % 256) as u8,
    );
    print(out, word(line));
    print(out, b" ");
    print(out, word(value));
    print(out, b" a");
    print_part(out, refusal::change_code(idx_audit::audit(index)));
    print(out, b" l ");
    print(out, word(key));
    calls::run_keyed(out, index, b'l', key);
    print(out, b"\n");
}

// The same on a copy of an index file.
fn run_on_copy(rt: &(impl Files + Print), err: &impl Print, line: &[u8]) {
    let mut index = [0u8; ROOM];
    let n = test_lines::load(rt, err, b"k12_dates.idx", &mut index);
    run_damaged(rt, &mut index[..n], line);
}

// A line with a buffer of its own: a fresh index, or a damaged copy.
fn run_alone(rt: &(impl Files + Print), err: &impl Print, line: &[u8]) {
    let Some(letter) = line.first() else {
        return;
    };
    if *letter == b'f' {
        calls::run_line(rt, &mut [0u8; 2048], line);
    } else {
        run_on_copy(rt, err, line);
    }
}

// Lines with buffers of their own.
fn run_each(rt: &(impl Files + Print), err: &impl Print, list: &[u8]) {
    let mut rest = list;
    while !rest.is_empty() {
        let (line, behind) = first_line(rest);
        run_alone(rt, err, line);
        rest = behind;
    }
}

// Runs the list of a file, each line with a buffer of its own. Not inlined, so that its room doesn't stand beside those of `run`.
#[inline(never)]
fn run_apart(rt: &(impl Files + Print), err: &impl Print, list_path: &[u8]) {
    let mut list = [0u8; ROOM];
    let n = test_lines::load(rt, err, list_path, &mut list);
    run_each(rt, err, &list[..n]);
}

fn main(rt: HostRuntime) {
    let err = rt.stderr();
    for (name, list_path, file_path, size) in LISTS {
        run(&rt, &err, name, list_path, file_path, size);
    }
    run_apart(&rt, &err, b"k12_fresh.calls");
    run_apart(&rt, &err, b"k12_damaged.expected");
}
