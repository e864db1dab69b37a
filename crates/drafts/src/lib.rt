// Files for the programs that run edges, record by record, and the lines that they print.
#![tactic(auto)]

use std::fmt::Display;
use std::io;

// A country list, of the payments' country alone.
pub const LIST: [u8; 2] = *b"US";

// The number of every file here.
pub const NUMBER: u64 = 1224022907;

// What lent room is filled with, so that it shows where a call wrote.
pub const PATTERN: u8 = 170;

pub const NOTE_PATTERN: u32 = 4022250974;

pub fn say(rt: &impl Print, text: &[u8]) -> io::Result<()> {
    rt.write_all(text)
}

pub fn say_number(rt: &impl Print, name: &[u8], n: u64) -> io::Result<()> {
    say(rt, name)?;
    rt.print(n)
}

pub fn say_answer(rt: &impl Print, edge: &[u8], number: usize, rec: usize) -> io::Result<()> {
    say(rt, edge)?;
    print!(rt; ": {number} at {rec}")
}

// A line: the edge, its number and record. The edge is any bytes, and the line of an empty text goes on behind them.
pub fn tell(rt: &impl Print, edge: &[u8], number: usize, rec: usize) -> io::Result<()> {
    say(rt, edge)?;
    tell_text(rt, "", number, rec)
}

pub fn tell_whether(rt: &impl Print, edge: &[u8], holds: bool) -> io::Result<()> {
    say(rt, edge)?;
    tell_text_whether(rt, "", holds)
}

// The same of an edge that is text.
pub fn tell_text(
    rt: &impl Print,
    edge: impl Display + Drop,
    number: usize,
    rec: usize,
) -> io::Result<()> {
    println!(rt; "{edge}: {number} at {rec}")
}

pub fn tell_text_whether(rt: &impl Print, edge: &str, holds: bool) -> io::Result<()> {
    let answer = if holds { "yes" } else { "no" };
    println!(rt; "{edge}: {answer}")
}

// Whether nothing was written to room that came with the pattern.
pub fn untouched(room: &[u8]) -> bool {
    room.iter().all(|&b| b == PATTERN)
}

pub fn notes_untouched(notes: &[u32]) -> bool {
    notes.iter().all(|&note| note == NOTE_PATTERN)
}

// Writes a text from a place on, as far as there is room; answers the place behind it.
pub fn put(room: &mut [u8], at: usize, text: &[u8]) -> usize {
    let Some(rest) = room.get_mut(at..) else {
        return at;
    };
    let n = rest.len().min(text.len());
    rest[..n].copy_from_slice(&text[..n]);
    at + n
}

// Writes a number in decimal, with leading zeros, from a place up to below another, as far as there is room.
pub fn put_number(room: &mut [u8], start: usize, end: usize, n: u64) {
    let mut left = n;
    for place in (start..end).rev() {
        put(room, place, &[b'0' + (left % 10) as u8]);
        left /= 10;
    }
}

// Writes records one behind the other, as far as there is room.
pub fn put_records(room: &mut [u8], records: &[&[u8]]) {
    let mut at = 0;
    for rec in records {
        at = put(room, at, rec);
    }
}

// A file with a text written over it.
pub fn with<const N: usize>(file: &[u8; N], at: usize, text: &[u8]) -> [u8; N] {
    let mut changed = *file;
    put(&mut changed, at, text);
    changed
}

// A number in decimal, with leading zeros: its last digits, as many as are asked for.
fn digits<const N: usize>(n: u64) -> [u8; N] {
    let mut digits = [b'0'; N];
    let mut left = n;
    for digit in digits.iter_mut().rev() {
        *digit = b'0' + (left % 10) as u8;
        left /= 10;
    }
    digits
}

// A sound Q. Q4, Q6 and Q7 make its file number.
pub fn q() -> [u8; 256] {
    let mut q = [b' '; 256];
    put(&mut q, 0, b"0256Q504000420000000012");
    put(&mut q, 23, b"STADTKASSE MUSTERSTADT");
    put(&mut q, 163, b"24022907240229N0000000000");
    q
}

// A sound transfer.
pub fn payment(payee: &[u8], euros: u64, cents: u64) -> [u8; 768] {
    let mut t = [b' '; 768];
    put(
        &mut t,
        0,
        b"0768T50400042EUR001234567800000000000000   0000000000",
    );
    put(&mut t, 53, b"ABCDDEFF");
    put(&mut t, 207, b"US");
    put(&mut t, 210, payee);
    put(&mut t, 420, b"/1234567");
    put(&mut t, 455, b"EUR");
    put(&mut t, 458, &digits::<14>(euros));
    put(&mut t, 472, &digits::<2>(cents));
    put(&mut t, 474, b"0");
    put(&mut t, 615, b"00000000");
    put(&mut t, 648, b"0000");
    put(&mut t, 714, b"0");
    put(&mut t, 766, b"00");
    t
}

pub fn z(euros: u64, payments: u64) -> [u8; 256] {
    let mut z = [b' '; 256];
    put(&mut z, 0, b"0256Z");
    put(&mut z, 5, &digits::<15>(euros));
    put(&mut z, 20, &digits::<15>(payments));
    z
}

// Document 01's example: 120,50 and 79,75, Z3 199.
pub fn example(first: &[u8], second: &[u8]) -> [u8; 2048] {
    let mut file = [b' '; 2048];
    put_records(
        &mut file,
        &[
            &q(),
            &payment(first, 120, 50),
            &payment(second, 79, 75),
            &z(199, 2),
        ],
    );
    file
}

// The same with a cheque as its first payment: no bank, no account, but an address.
pub fn with_a_cheque() -> [u8; 2048] {
    let mut file = example(b"ANNA BEISPIEL", b"M&M STUDIO");
    put(&mut file, 309, b"        ");
    put(&mut file, 536, b"HAUPTSTRASSE 1");
    put(&mut file, 571, b"10115 MUSTERSTADT");
    put(&mut file, 676, b"        ");
    put(&mut file, 906, b"20");
    file
}

// Some payments of one amount and one of another, with the Z3 and Z4 that are given.
pub fn many(room: &mut [u8], n: usize, each: u64, last: u64, z3: u64, z4: u64) {
    let payment_of_each = payment(b"MARIA EXAMPLE", each, 0);
    let mut at = put(room, 0, &q());
    for _ in 0..n {
        at = put(room, at, &payment_of_each);
    }
    at = put(room, at, &payment(b"MARIA EXAMPLE", last, 0));
    put(room, at, &z(z3, z4));
}
