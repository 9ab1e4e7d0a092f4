// Makes a list of calls on NDX files that another program wrote, whole and with one byte set, and prints each line of the list with its answers. README.md
// beside src/ says where the files and the answers came from.
#![tactic(auto)]

use idx_lookup::Outcome;
use std::rt::Files;
use test_lines::{ROOM, after_word, first_number, print, print_number, word};

fn print_part(out: &impl Print, n: u32) {
    print(out, b" ");
    print_number(out, n);
}

// The answer of a lookup, its record and the pages visited, 0 for what an answer does not have.
fn print_lookup(out: &impl Print, code: u32, number: u32, pages: u32) {
    print_part(out, code);
    print_part(out, number);
    print_part(out, pages);
}

// A lookup, by its key in hexadecimal.
fn look_up(out: &impl Print, index: &[u8], hex: &[u8]) {
    let mut key = [0u8; 256];
    let n = test_lines::hex_bytes(hex, &mut key);
    print(out, b" l ");
    print(out, hex);
    match ndx_page::lookup(index, &key[..n]) {
        Ok(
            Outcome {
                found: Some(number),
                pages,
            },
        ) => print_lookup(out, 0, number.0, pages),
        Ok(Outcome { found: None, pages }) => print_lookup(out, refusal::ABSENT, 0, pages),
        Err(refusal) => print_lookup(out, refusal.number(), 0, 0),
    }
}

fn audit(out: &impl Print, index: &[u8]) {
    print(out, b" a");
    print_part(out, refusal::change_code(ndx_audit::audit(index)));
}

// `set AT BYTE l KEY`: an audit and a lookup after one byte was set, if the file has so many.
fn run_damaged(out: &impl Print, index: &mut [u8], call: &[u8]) {
    let place = after_word(call);
    let value = after_word(place);
    test_lines::set_byte(
        index,
        first_number(place) as usize,
        (first_number(value) % 256) as u8,
    );
    print(out, b" set ");
    print(out, word(place));
    print(out, b" ");
    print(out, word(value));
    audit(out, index);
    look_up(out, index, word(after_word(after_word(value))));
}

// `FILE a`, `FILE l KEY` or `FILE set AT BYTE l KEY`. A line without a call has only its file printed.
fn run_line(rt: &(impl Files + Print), err: &impl Print, line: &[u8]) {
    let mut index = [0u8; ROOM];
    let n = test_lines::load(rt, err, word(line), &mut index);
    let call = after_word(line);
    print(rt, word(line));
    let Some(letter) = call.first() else {
        return;
    };
    match *letter {
        b'a' => audit(rt, &index[..n]),
        b'l' => look_up(rt, &index[..n], word(after_word(call))),
        _ => run_damaged(rt, &mut index[..n], call),
    }
    print(rt, b"\n");
}

fn run_lines(rt: &(impl Files + Print), err: &impl Print, list: &[u8]) {
    let mut rest = list;
    while !rest.is_empty() {
        let (line, behind) = test_lines::first_line(rest);
        run_line(rt, err, line);
        rest = behind;
    }
}

fn main(rt: HostRuntime) {
    let err = rt.stderr();
    let mut list = [0u8; ROOM];
    let n = test_lines::load(&rt, &err, b"k13.calls", &mut list);
    run_lines(&rt, &err, &list[..n]);
}
