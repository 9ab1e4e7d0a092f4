// The program that the service desk runs on a lab's files. It takes the arguments; `inspect_report` does the work.
#![tactic(auto)]

// A FIELD has at most 10 bytes.
const FIELD_ROOM: usize = 16;

// A word that does not fit its room comes empty, which names no file and is no FIELD. The fifth word stands for all that are too many.
fn main(rt: HostRuntime) {
    let files = files::words::<3>(&rt, 1);
    let mut room = [0u8; FIELD_ROOM];
    let n = files::word(&rt, 4, &mut room);
    let words = [
        files.get(0),
        files.get(1),
        files.get(2),
        &room[..n],
        b"".as_slice(),
    ];
    let count = files::word_count(&rt).saturating_sub(1).min(words.len());
    inspect_report::inspect(&rt, &rt.stderr(), &words[..count]);
}
