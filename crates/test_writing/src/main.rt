// The list of calls that write tables, made by an independent implementation: each line's call is made and its answer printed, and the tables are compared
// with the files that the list ends with. README.md beside src/ says what the lines are.
#![tactic(auto)]

ghost use Rattle.std.specs.Prelude.{◌≡◌, ◌≤◌, ◌<◌, IfSome, length};
ghost use Rattle.dbf_create.specs.Laying.{room_length};

use dbf_append::{Appended, Store};
use dbf_field::FieldEntry;
use std::rt::Files;
use test_lines::{after_word, find, first_line, first_number, hex_bytes, print, word};

// The greatest buffer of the list.
const ROOM: usize = 4096;

// The length of the table at the front of a buffer, its end mark counted.
fn table_len(buffer: &[u8]) -> usize {
    dbf_append::table_extent(buffer)
        .unwrap_or(0)
        .saturating_add(1)
}

fn print_part(out: &impl Print, n: usize) {
    print(out, b" ");
    let _ = out.print(n);
}

fn print_store(out: &impl Print, store: Store) {
    print_part(out, store.place);
    print_part(out, store.length);
}

// `RECORD ..`, with the table's length.
fn append(out: &impl Print, buffer: &mut [u8], len: usize, call: &[u8]) {
    let mut record = [0u8; 256];
    let n = hex_bytes(word(call), &mut record);
    match dbf_append::append(buffer, len, &record[..n]) {
        Ok(Appended { first, second }) => {
            print_part(out, 0);
            print_store(out, first);
            print_store(out, second);
        }
        Err(refusal) => print_part(out, refusal.number() as usize),
    }
    print(out, b"\n");
}

// `YEAR MONTH DAY ..`
fn set_date(out: &impl Print, buffer: &mut [u8], call: &[u8]) {
    let month = after_word(call);
    let day = after_word(month);
    let answer = dbf_append::set_date(
        buffer,
        table_len(buffer),
        first_number(call),
        first_number(month),
        first_number(day),
    );
    print_part(out, refusal::change_code(answer) as usize);
    print(out, b"\n");
}

// `FILE LENGTH`: whether the table is the file. Not inlined, so that the file's room is on the stack in this call alone.
#[inline(never)]
fn compare(rt: &(impl Files + Print), err: &impl Print, buffer: &[u8], call: &[u8]) {
    let mut file = [0u8; test_lines::ROOM];
    let n = test_lines::load(rt, err, word(call), &mut file);
    if n == table_len(buffer) && buffer.starts_with(&file[..n]) {
        print(rt, b" same\n");
    } else {
        print(rt, b" differs\n");
    }
}

// A line on the buffer as the last accepted one left it. The length of its first word says which call it is.
fn write_line(rt: &(impl Files + Print), err: &impl Print, buffer: &mut [u8], line: &[u8]) {
    let name = word(line);
    let call = after_word(line);
    print(rt, name);
    match name.len() {
        // `date`
        4 => set_date(rt, buffer, call),
        // `image`
        5 => compare(rt, err, buffer, call),
        // `append`
        6 => append(rt, buffer, table_len(buffer), call),
        // `append_longer`
        _ => append(rt, buffer, buffer.len().saturating_add(1), call),
    }
}

// A field's name with zeros behind it. A word above eleven bytes is no name.
fn name_of(word: &[u8]) -> [u8; 11] {
    let mut name = [0u8; 11];
    if let Some(front) = name.get_mut(..word.len()) {
        front.copy_from_slice(word);
    }
    name
}

// The first byte of a text, and 0 for none.
fn first_byte(text: &[u8]) -> u8 {
    text.first().copied().unwrap_or(0)
}

// The number of a word, in a byte: what is too great for one comes around.
fn first_number_in_byte(text: &[u8]) -> u8 {
    (first_number(text) % 256) as u8
}

// `NAME TYPE LENGTH DECIMALS ..`. The offset is not read: any will do.
fn entry_of(field: &[u8]) -> FieldEntry {
    let kind = after_word(field);
    let length = after_word(kind);
    let decimals = after_word(length);
    FieldEntry {
        name: name_of(word(field)),
        kind: first_byte(kind),
        length: first_number_in_byte(length),
        decimals: first_number_in_byte(decimals),
        offset: 65535,
    }
}

// Writes field j into the room, if it is one of the first 128.
fn list_field(room: &mut [u8], j: usize, field: &[u8])
    requires { length room.old ≡ room_length }
    ensures { length room.new ≡ room_length }
{
    if j < dbf_table::MAX_FIELDS {
        dbf_create::write_field(room, j, entry_of(field));
    }
}

// The first field of a list, and the fields behind it. The last field may have no comma.
fn first_field(list: &[u8]) -> (&[u8], &[u8])
    requires { 0 < length list.now }
    ensures { length result.1.now < length list.now }
{
    let end = find(list, 0, b',');
    match list.get(end + 1..) {
        Some(behind) => (&list[..end], behind),
        None => (&list[..end], &[]),
    }
}

// The fields of a `lay_out` line, `FIELD,FIELD,.. ANSWER`, or `- ANSWER` for none: a room for the first 128, and how many there are.
fn fields_of(list: &[u8]) -> ([u8; 4130], usize)
    ensures { length result.0 ≡ room_length }
{
    let mut room = dbf_create::no_fields();
    let mut count = 0;
    if first_byte(list) == b'-' {
        return (room, count);
    }
    let mut rest = list;
    while !rest.is_empty() {
        let (field, behind) = first_field(rest);
        list_field(&mut room, count, field);
        count += 1;
        rest = behind;
    }
    (room, count)
}

// `YEAR MONTH DAY ROOM FIELDS ..`, on a buffer of ROOM bytes.
fn lay_out(buffer: &mut [u8], call: &[u8]) -> u32 {
    let month = after_word(call);
    let day = after_word(month);
    let (mut room, count) = fields_of(after_word(after_word(day)));
    refusal::change_code(dbf_create::lay_out(
        buffer,
        &mut room,
        count,
        first_number(call),
        first_number(month),
        first_number(day),
    ))
}

// The ROOM of a `lay_out` line, if the list's buffer has so much.
fn wanted_room(call: &[u8]) -> Option<usize>
    ensures { IfSome result (λ n. n ≤ 4096) }
{
    let day = after_word(after_word(call));
    let wanted = first_number(after_word(day)) as usize;
    if wanted <= ROOM { Some(wanted) } else { None }
}

// Lays the line's table out in a buffer of its own, prints the answer, and answers whether the call was accepted.
fn print_laid_out(out: &impl Print, own: &mut [u8], call: &[u8]) -> bool {
    let code = lay_out(own, call);
    print(out, b"lay_out");
    print_part(out, code as usize);
    print(out, b"\n");
    code == 0
}

// `YEAR MONTH DAY ROOM ..`, on a buffer of ROOM bytes 0xEE, which becomes the list's if the answer is 0. A ROOM above the list's buffer prints nothing. Answers
// how many bytes of the list's buffer are lent from now on. Not inlined, so that its rooms are on the stack in this call alone.
#[inline(never)]
fn lay_out_line(out: &impl Print, buffer: &mut [u8; ROOM], room: usize, call: &[u8]) -> usize
    requires { room ≤ 4096 }
    ensures { result ≤ 4096 }
{
    let Some(wanted) = wanted_room(call) else {
        return room;
    };
    let mut own = [0xEEu8; ROOM];
    if !print_laid_out(out, &mut own[..wanted], call) {
        return room;
    }
    *buffer = own;
    wanted
}

// A line, and how many bytes of the buffer are lent after it. A line that begins with an `l` is a `lay_out`.
fn make_call(
    rt: &(impl Files + Print),
    err: &impl Print,
    buffer: &mut [u8; ROOM],
    room: usize,
    line: &[u8],
) -> usize
    requires { room ≤ 4096 }
    ensures { result ≤ 4096 }
{
    match line.first() {
        None => room,
        Some(b'l') => lay_out_line(rt, buffer, room, after_word(line)),
        Some(_) => {
            write_line(rt, err, &mut buffer[..room], line);
            room
        }
    }
}

// Makes the calls of the list, from no lent buffer on.
fn make_calls(rt: &(impl Files + Print), err: &impl Print, list: &[u8]) {
    let mut buffer = [0u8; ROOM];
    let mut room = 0;
    let mut rest = list;
    while !rest.is_empty() {
        let (line, behind) = first_line(rest);
        room = make_call(rt, err, &mut buffer, room, line);
        rest = behind;
    }
}

// Colons become blanks, so that the parts of a field are words.
fn blank_colons(list: &mut [u8]) {
    for byte in list.iter_mut() {
        if *byte == b':' {
            *byte = b' ';
        }
    }
}

fn main(rt: HostRuntime) {
    let err = rt.stderr();
    let mut list = [0u8; test_lines::ROOM];
    let n = test_lines::load(&rt, &err, b"k3_writing.calls", &mut list);
    blank_colons(&mut list[..n]);
    make_calls(&rt, &err, &list[..n]);
}
