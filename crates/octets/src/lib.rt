// Numbers in bytes, stores into a buffer, the order of byte strings, and the blanks and digits of a text. All code that reads or writes the files' bytes rests
// on this crate.
#![tactic(auto)]

ghost use Rattle.std.specs.Prelude.{◌≡◌, ◌+◌, ◌-◌, ◌≤◌, ◌<◌, length, min, replicate, drop};
ghost use Rattle.octets.specs.Bytes.{byte_at, le16, le32, be16, be32, to_le16, to_le32, to_be32};
ghost use Rattle.octets.specs.Store.{put, window};
ghost use Rattle.octets.specs.Order.{ordering, is_below, is_equal};
ghost use Rattle.octets.specs.Words.{bytes_number};
ghost use Rattle.octets.specs.Text.{unpadded, is_digit, digits_of};

use std::cmp::Ordering;

// The byte at an offset.
pub fn byte(s: &[u8], at: usize) -> u32
    requires { at < length s.now }
    ensures { (result ≡ byte_at s.now at) × (result < 256) }
{
    u32::from(s[at])
}

// The N bytes at an offset.
#[tactic(auto, unfolding(crate::specs::Store::window))]
fn bytes_at<const N: usize>(s: &[u8], at: usize) -> [u8; N]
    requires { at + N ≤ length s.now }
    ensures { result ≡ window s.now at N }
{
    let mut bytes = [0; N];
    bytes.copy_from_slice(&s[at..at + N]);
    bytes
}

// The two bytes at an offset, least significant first.
#[tactic(auto, using(crate::proofs::Words::from_le_2))]
pub fn load_le16(s: &[u8], at: usize) -> u32
    requires { at + 2 ≤ length s.now }
    ensures { (result ≡ le16 s.now at) × (result < 65536) }
{
    u32::from(u16::from_le_bytes(bytes_at(s, at)))
}

// The two bytes at an offset, most significant first.
#[tactic(auto, using(crate::proofs::Words::from_be_2))]
pub fn load_be16(s: &[u8], at: usize) -> u32
    requires { at + 2 ≤ length s.now }
    ensures { (result ≡ be16 s.now at) × (result < 65536) }
{
    u32::from(u16::from_be_bytes(bytes_at(s, at)))
}

// The four bytes at an offset, least significant first.
#[tactic(auto, using(crate::proofs::Words::from_le_4))]
pub fn load_le32(s: &[u8], at: usize) -> u32
    requires { at + 4 ≤ length s.now }
    ensures { result ≡ le32 s.now at }
{
    u32::from_le_bytes(bytes_at(s, at))
}

// The four bytes at an offset, most significant first.
#[tactic(auto, using(crate::proofs::Words::from_be_4))]
pub fn load_be32(s: &[u8], at: usize) -> u32
    requires { at + 4 ≤ length s.now }
    ensures { result ≡ be32 s.now at }
{
    u32::from_be_bytes(bytes_at(s, at))
}

// The eight bytes at an offset as one number, the first byte highest.
#[tactic(auto, using(crate::proofs::Words::from_be_8))]
fn load_be64(s: &[u8], at: usize) -> u64
    requires { at + 8 ≤ length s.now }
    ensures { result ≡ bytes_number s.now at 8 }
{
    u64::from_be_bytes(bytes_at(s, at))
}

// Copies a byte string into a buffer. std's `copy_from_slice` would call memmove; the archive asks its host for memcpy and memset alone.
pub fn copy_in(buf: &mut [u8], at: usize, src: &[u8])
    requires { at + length src.now ≤ length buf.old }
    ensures { buf.new ≡ put buf.old at src.now }
{
    for j in 0..src.len() {
        buf[at + j] = src[j];
    }
}

// Stores a number in two bytes, least significant first.
#[tactic(auto, using(crate::proofs::Words::to_le_2))]
pub fn store_le16(buf: &mut [u8], at: usize, value: u32)
    requires { at + 2 ≤ length buf.old }
    ensures { buf.new ≡ put buf.old at (to_le16 value) }
{
    copy_in(buf, at, &value.to_le_bytes()[..2]);
}

// Stores a number in four bytes, least significant first.
#[tactic(auto, using(crate::proofs::Words::to_le_4))]
pub fn store_le32(buf: &mut [u8], at: usize, value: u32)
    requires { at + 4 ≤ length buf.old }
    ensures { buf.new ≡ put buf.old at (to_le32 value) }
{
    copy_in(buf, at, &value.to_le_bytes());
}

// Stores a number in four bytes, most significant first.
#[tactic(auto, using(crate::proofs::Words::to_be_4))]
pub fn store_be32(buf: &mut [u8], at: usize, value: u32)
    requires { at + 4 ≤ length buf.old }
    ensures { buf.new ≡ put buf.old at (to_be32 value) }
{
    copy_in(buf, at, &value.to_be_bytes());
}

// Sets the bytes from offset `from` up to, but not at, offset `to` to one value.
pub fn fill(buf: &mut [u8], from: usize, to: usize, value: u8)
    requires { (from ≤ to) × (to ≤ length buf.old) }
    ensures { buf.new ≡ put buf.old from (replicate (to - from) value) }
{
    for byte in &mut buf[from..to] {
        *byte = value;
    }
}

// The order of two strings from an offset on: the first byte that differs decides, or the length if none does; n is the shorter length.
fn compare_rest(a: &[u8], b: &[u8], from: usize, n: usize) -> Ordering
    requires { (from ≤ n) × (n ≡ min (length a.now) (length b.now)) }
    ensures { result ≡ ordering (drop from a.now) (drop from b.now) }
{
    for i in from..n {
        if a[i] != b[i] {
            return a[i].cmp(&b[i]);
        }
    }
    a.len().cmp(&b.len())
}

// The order of two short strings; n is the shorter length. The loop goes from the last byte back, so the first byte that differs is the last to set x and y. No
// branch depends on a byte: the processor cannot foresee where two keys differ, and a wrong guess costs more than a few bytes.
fn compare_short(a: &[u8], b: &[u8], n: usize) -> Ordering
    requires { n ≡ min (length a.now) (length b.now) }
    ensures { result ≡ ordering a.now b.now }
{
    let mut x = a.len();
    let mut y = b.len();
    for i in (0..n).rev() {
        if a[i] != b[i] {
            x = usize::from(a[i]);
            y = usize::from(b[i]);
        }
    }
    x.cmp(&y)
}

// The order of two byte strings of any lengths: eight bytes at a time, as numbers with the first byte highest, and the rest singly. A search in a page takes up to
// four times as long by std's order of slices.
pub fn compare(a: &[u8], b: &[u8]) -> Ordering
    ensures { result ≡ ordering a.now b.now }
{
    let n = a.len().min(b.len());
    if n < 8 {
        return compare_short(a, b, n);
    }
    for i in 0..n / 8 {
        let first = load_be64(a, 8 * i);
        let second = load_be64(b, 8 * i);
        if first != second {
            return first.cmp(&second);
        }
    }
    compare_rest(a, b, n / 8 * 8, n)
}

pub fn is_below(o: Ordering) -> bool
    ensures { result ≡ is_below o }
{
    o.is_lt()
}

pub fn is_equal(o: Ordering) -> bool
    ensures { result ≡ is_equal o }
{
    o.is_eq()
}

// The count of blanks that a text begins with.
pub fn padding(text: &[u8]) -> usize
    ensures { (result ≤ length text.now) × (drop result text.now ≡ unpadded text.now) }
{
    text.iter().position(|c| *c != b' ').unwrap_or(text.len())
}

// Whether a character is a digit.
pub fn is_digit(c: u8) -> bool
    ensures { result ≡ is_digit c }
{
    c.is_ascii_digit()
}

// The number that a text of digits stands for, none if it has another character. It has nineteen characters at most, so that the number fits 64 bits.
pub fn read_digits(text: &[u8]) -> Option<u64>
    requires { length text.now ≤ 19 }
    ensures { result ≡ digits_of text.now }
{
    let mut number = 0;
    for &c in text {
        if !is_digit(c) {
            return None;
        }
        number = 10 * number + u64::from(c - b'0');
    }
    Some(number)
}
