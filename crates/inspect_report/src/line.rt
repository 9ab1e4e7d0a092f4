// How a line of `inspect` is printed: it is put together in 1,024 bytes and printed by one write, or in pieces of as many bytes if it is longer. The library's
// own printing takes one byte after another, which a long text makes dear.
ghost use Rattle.std.specs.Prelude.{◌≡◌, ◌<◌, ◌≤◌};

use std::cell::Cell;
use std::fmt;
use std::fmt::{Display, Write};

const ROOM: usize = 1024;

// Where a report goes. A write that fails does not end the report; that one failed is told at its end.
#[derive(Drop)]
pub struct Output<'a, P> {
    out: &'a P,
    failed: Cell<bool>,
}

impl<'a, P: Print> Output<'a, P> {
    pub fn new(out: &'a P) -> Output<'a, P> {
        Output {
            out,
            failed: Cell::new(false),
        }
    }

    // Whether every write was made.
    pub fn is_written(&self) -> bool {
        !self.failed.get()
    }

    // Prints a line and its end.
    pub fn print_line(&self, line: impl Display + Drop) {
        let mut room = Line {
            output: self,
            bytes: [0; ROOM],
            len: 0,
        };
        if writeln!(room, "{line}").is_err() {
            self.failed.set(true);
        }
        room.print();
    }
}

// The bytes of a line that aren't printed yet.
#[derive(Drop)]
struct Line<'a, 'b, P> {
    output: &'a Output<'b, P>,
    bytes: [u8; ROOM],
    len: usize,
    ghost in_room: { len ≤ 1024 },
}

impl<P: Print> Line<'_, '_, P> {
    // Prints a full line, so that there is room for more.
    fn make_room(&mut self)
        ensures { self.new.len < 1024 }
    {
        if self.len >= ROOM {
            self.print();
        }
    }

    // Prints what is there. Nothing is there then.
    fn print(&mut self)
        ensures { self.new.len ≡ 0 }
    {
        let len = self.len;
        self.len = 0;
        if self.output.out.write_all(&self.bytes[..len]).is_err() {
            self.output.failed.set(true);
        }
    }
}

impl<P: Print> Write for Line<'_, '_, P> {
    // A full line is printed only when there is more to come.
    fn write_str(&mut self, text: &str) -> fmt::Result {
        let mut rest = text.as_bytes();
        while !rest.is_empty() {
            self.make_room();
            let n = rest.len().min(ROOM - self.len);
            octets::copy_in(&mut self.bytes, self.len, &rest[..n]);
            self.len += n;
            rest = &rest[n..];
        }
        Ok(())
    }
}
