// Runs the dilution sheet on the samples of the program `dilute`: each of 21 inputs on a table and its index, one input on an index that is not sound, and on
// the incident's table. For each run it prints a line with a file's name, and then the sheet. README.md beside src/ says where the files and lines came from.
#![tactic(auto)]

use std::rt::Files;
use test_lines::{ROOM, load, print};

// As much of standard input as `dilute` reads.
const INPUT_ROOM: usize = 64;

const INPUTS: [&str; 21] = [
    "k11_01.in",
    "k11_02.in",
    "k11_03.in",
    "k11_04.in",
    "k11_05.in",
    "k11_06.in",
    "k11_07.in",
    "k11_08.in",
    "k11_09.in",
    "k11_10.in",
    "k11_11.in",
    "k11_12.in",
    "k11_13.in",
    "k11_14.in",
    "k11_15.in",
    "k11_16.in",
    "k11_17.in",
    "k11_18.in",
    "k11_19.in",
    "k11_20.in",
    "k11_21.in",
];

// Prints the sheet of the input in a file, under a title.
fn run(
    rt: &(impl Files + Print),
    err: &impl Print,
    title: &str,
    table: &[u8],
    index: &[u8],
    input_path: &str,
) {
    print(rt, b"== ");
    print(rt, title.as_bytes());
    print(rt, b"\n");
    let mut input = [0u8; INPUT_ROOM];
    let n = load(rt, err, input_path.as_bytes(), &mut input);
    let mut sheet = files::space();
    let end = dilute_sheet::sheet(table, index, &input[..n], &mut sheet);
    print(rt, &sheet[..end]);
}

// All inputs on a table and its index, and one of them on an index that is not sound.
fn samples(rt: &(impl Files + Print), err: &impl Print) {
    let mut table = [0u8; ROOM];
    let mut index = [0u8; ROOM];
    let mut wrong = [0u8; ROOM];
    let a = load(rt, err, b"k11.dbf", &mut table);
    let b = load(rt, err, b"k11.idx", &mut index);
    let c = load(rt, err, b"k11_wrong.idx", &mut wrong);
    for input in INPUTS {
        run(rt, err, input, &table[..a], &index[..b], input);
    }
    run(
        rt,
        err,
        "k11_wrong.idx",
        &table[..a],
        &wrong[..c],
        INPUTS[0],
    );
}

// The incident's table, and the same table written with points, with one index on their barcodes.
fn incident(rt: &(impl Files + Print), err: &impl Print) {
    let mut comma = [0u8; ROOM];
    let mut point = [0u8; ROOM];
    let mut index = [0u8; ROOM];
    let a = load(rt, err, b"shp_comma.dbf", &mut comma);
    let b = load(rt, err, b"shp_point.dbf", &mut point);
    let c = load(rt, err, b"shp_comma.idx", &mut index);
    run(
        rt,
        err,
        "shp_comma.dbf",
        &comma[..a],
        &index[..c],
        INPUTS[0],
    );
    run(
        rt,
        err,
        "shp_point.dbf",
        &point[..b],
        &index[..c],
        INPUTS[0],
    );
}

fn main(rt: HostRuntime) {
    let err = rt.stderr();
    samples(&rt, &err);
    incident(&rt, &err);
}
