// Calls on an index, as the lines of a list have them. Behind a call stands its answer, which is not read. Keys and the expression are in hexadecimal.
ghost use Rattle.std.specs.Prelude.{◌≡◌, IfOk, get_or};
ghost use Rattle.test_lines.specs.Words.{letter};

use crate::{bad_line, next_word, number, words};
use std::alloc::Global;
use std::str::Split;
use std::{io, str};

#[derive(Debug, Drop)]
pub enum Call {
    // `f K EXPRESSION FEATURES ..`: a fresh index with keys of K bytes.
    Fresh {
        key_length: u32,
        expression: Vec<u8>,
        features: u32,
    },

    // `i KEY RECORD ..`
    Insert {
        key: Vec<u8>,
        number: u32,
    },

    // `r KEY RECORD ..`
    Remove {
        key: Vec<u8>,
        number: u32,
    },

    // `l KEY ..`
    LookUp {
        key: Vec<u8>,
    },

    // `s KEY ROOM ..`: all records of a key, into a list with room for ROOM.
    Records {
        key: Vec<u8>,
        room: usize,
    },

    // `a ..`
    Audit,
}

// The byte that two hexadecimal digits say.
fn hex_byte(digits: &[u8]) -> io::Result<u8> {
    let digits = str::from_utf8(digits).map_err(|_| bad_line())?;
    u8::from_str_radix(digits, 16).map_err(|_| bad_line())
}

// The bytes that the next word says in hexadecimal. `-` says none.
fn next_bytes(alloc: Global, words: &mut Split<'_, char>) -> io::Result<Vec<u8>> {
    next_word(words)?
        .as_bytes()
        .chunks_exact(2)
        .map(hex_byte)
        .try_collect(alloc)
}

impl Call {
    // The call of a line.
    pub fn read(alloc: Global, line: &str) -> io::Result<Call>
        ensures { IfOk result (λ call. get_or line.now 0 0 ≡ letter call) }
    {
        let mut words = words(line);
        match next_word(&mut words)? {
            "f" => Ok(Call::Fresh {
                key_length: number(&mut words)?,
                expression: next_bytes(alloc, &mut words)?,
                features: number(&mut words)?,
            }),
            "i" => Ok(Call::Insert {
                key: next_bytes(alloc, &mut words)?,
                number: number(&mut words)?,
            }),
            "r" => Ok(Call::Remove {
                key: next_bytes(alloc, &mut words)?,
                number: number(&mut words)?,
            }),
            "l" => Ok(Call::LookUp {
                key: next_bytes(alloc, &mut words)?,
            }),
            "s" => Ok(Call::Records {
                key: next_bytes(alloc, &mut words)?,
                room: number(&mut words)?,
            }),
            "a" => Ok(Call::Audit),
            _ => Err(bad_line()),
        }
    }
}
