// The strict reading and what is printed, by values that no clause says. The good lines are of the list k12_few.calls.
use crate::calls::Call;
use crate::{bad_line, number, parse, print_same, words};
use std::cell::Cell;
use std::fmt::{Display, InlineText};
use std::io;
use std::io::ErrorKind;
use std::test::Fail;

// Keeps what is printed, as far as there is room, and fails at a text that does not fit.
#[derive(Drop)]
struct Sheet {
    room: usize,
    bytes: Cell<[u8; 64]>,
    len: Cell<usize>,
}

impl Sheet {
    fn new(room: usize) -> Sheet {
        Sheet {
            room,
            bytes: Cell::new([0; 64]),
            len: Cell::new(0),
        }
    }

    fn holds(&self, text: &[u8]) -> bool {
        self.bytes.get().get(..self.len.get()) == Some(text)
    }
}

impl Print for Sheet {
    fn print<D: Display + Drop>(&self, value: D) -> io::Result<()> {
        self.write_all(InlineText::<64>::of(value).as_str().as_bytes())
    }

    fn println<D: Display + Drop>(&self, value: D) -> io::Result<()> {
        self.print(value)?;
        self.write_all(b"\n")
    }

    fn write_all(&self, bytes: &[u8]) -> io::Result<()> {
        let mut kept = self.bytes.get();
        let mut len = self.len.get();
        for byte in bytes {
            if self.room <= len || kept.len() <= len {
                return Err(io::Error::from(ErrorKind::StorageFull));
            }
            kept[len] = *byte;
            len += 1;
        }
        self.bytes.set(kept);
        self.len.set(len);
        Ok(())
    }
}

#[test]
fn a_word_is_taken_whole(rt: HostRuntime) -> Result<(), Fail> {
    let mut line = words("s 3230323430313032 500 0");
    assert_eq!(rt; line.next(), Some("s"));
    assert_eq!(rt; line.next(), Some("3230323430313032"));
    assert_eq!(rt; number::<u32>(&mut line)?, 500);
    assert_eq!(rt; number::<usize>(&mut line)?, 0);
    assert_eq!(rt; line.next(), None);
    assert!(rt; number::<u32>(&mut line).is_err());
    assert_eq!(rt; parse::<u32>("341400633")?, 341400633);
    for word in ["", "-", "4294967296", "50 0", "5x"] {
        assert!(rt;
            parse::<u32>(word).is_err_and(|error| error.kind() == bad_line().kind()),
            "{word}"
        );
    }
    Ok(())
}

#[test]
fn calls_are_read(rt: HostRuntime) -> Result<(), Fail> {
    let alloc = rt.alloc();
    let fresh = Call::read(alloc, "f 8 52554e5f44415445 0 0")?;
    assert!(rt;
        matches!(&fresh, Call::Fresh { key_length: 8, expression, features: 0 } if expression.as_slice() == b"RUN_DATE".as_slice())
    );
    let insertion = Call::read(alloc, "i 3230323430313032 341400633 0")?;
    assert!(rt;
        matches!(&insertion, Call::Insert { key, number: 341400633 } if key.as_slice() == b"20240102".as_slice())
    );
    let removal = Call::read(alloc, "r 3230323430313032 425938100 0")?;
    assert!(rt;
        matches!(&removal, Call::Remove { key, number: 425938100 } if key.as_slice() == b"20240102".as_slice())
    );
    let lookup = Call::read(alloc, "l 3230323430313032 0 341400633 1")?;
    assert!(rt;
        matches!(&lookup, Call::LookUp { key } if key.as_slice() == b"20240102".as_slice())
    );
    let records = Call::read(alloc, "s 3230323430313032 500 0 341400633,425938100")?;
    assert!(rt;
        matches!(&records, Call::Records { key, room: 500 } if key.as_slice() == b"20240102".as_slice())
    );
    assert!(rt; matches!(&Call::read(alloc, "a 0")?, Call::Audit));
    for line in ["", "x", "i", "i 41", "i 41 -1", "i 4g 1", " a"] {
        assert!(rt;
            Call::read(alloc, line).is_err_and(|error| error.kind() == bad_line().kind()),
            "{line}"
        );
    }
    Ok(())
}

#[test]
fn a_list_is_told_the_same_or_not(rt: HostRuntime) -> Result<(), Fail> {
    let sheet = Sheet::new(64);
    print_same(&sheet, "k12_few", true)?;
    print_same(&sheet, "k12_deep", false)?;
    assert!(rt; sheet.holds(b"k12_few same\nk12_deep differs\n"));
    assert!(rt; print_same(&Sheet::new(3), "k12_few", true).is_err());
    Ok(())
}
