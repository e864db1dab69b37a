// The M8 records of the payments that come back (document 02, A6): what stands in them by table 15 of source document
// 000, the table of codes and the room for them, and what refuses the call before either.

use crate::draft::*;
use crate::tell_output;
use drafts::{LIST, PATTERN, put, tell_text_whether, untouched, with};
use std::fmt::Display;
use std::io;

// Each code names its rule, so no two are the same.
const CODES: [u8; 96] =
    *b"CODE20CODE21CODE22CODE23CODE24CODE25CODE26CODE27CODE28CODE29CODE30CODE31CODE32CODE33CODE34CODE35";

// Three sound payments, each with a purpose of its own.
fn sound() -> [u8; 2816] {
    let mut file = three();
    put(&mut file, FIRST + T15, b"STIPEND MAY");
    put(&mut file, SECOND + T15, b"RENT MAY");
    put(&mut file, THIRD + T15, b"PENSION MAY");
    file
}

// The second breaks rule 32.
fn one_broken() -> [u8; 2816] {
    with(&sound(), SECOND + T13, b"USD")
}

// The same with an amount that fills T14a, and a T15 that goes on behind its first line.
fn one_full() -> [u8; 2816] {
    let mut file = one_broken();
    put(&mut file, SECOND + T14A, b"12345678901234560");
    put(
        &mut file,
        SECOND + T15,
        b"ABCDEFGHIJKLMNOPQRSTUVWXYZ123456789SECOND LINE",
    );
    put(&mut file, Z + Z3, b"012345678901337");
    file
}

// The first breaks the last rule, 35, and the third the first one, 20.
fn two_broken() -> [u8; 2816] {
    let file = with(&sound(), FIRST + T26, b"X");
    with(&file, THIRD + T4A, b"USD")
}

// A line: the answer to a call with this output.
fn records(
    rt: &impl Print,
    page: u32,
    edge: impl Display + Drop,
    file: &[u8],
    codes: &[u8],
    out: &mut [u8],
) -> io::Result<()> {
    let f = m8::records(page, file, &LIST, &LIST, codes, out);
    println!(rt; "{edge}: {} at {}, M8 records {}", f.number, f.rec, f.count)
}

// In quotes, so that its spaces show.
fn tell_record(rt: &impl Print, rec: &[u8]) -> io::Result<()> {
    println!(rt; "  '{}'", rec.escape_ascii())
}

fn tell_field(rt: &impl Print, number: usize, field: &[u8]) -> io::Result<()> {
    println!(rt; "  DM8-{number} '{}'", field.escape_ascii())
}

// With room for two records and one byte more; answers what that holds then.
fn filed(
    rt: &impl Print,
    page: u32,
    edge: impl Display + Drop,
    file: &[u8],
) -> io::Result<[u8; 249]> {
    let mut out = [PATTERN; 249];
    records(rt, page, edge, file, &CODES, &mut out)?;
    Ok(out)
}

// The same, and a line for the record.
fn one_filed(rt: &impl Print, edge: &str, file: &[u8]) -> io::Result<[u8; 249]> {
    let out = filed(rt, 0, edge, file)?;
    // 0.. here and below: at ..124 the prover does not see that it ends within the array
    tell_record(rt, &out[0..124])?;
    tell_text_whether(rt, "  untouched behind", untouched(&out[124..]))?;
    Ok(out)
}

fn two_filed(rt: &impl Print, edge: &str, file: &[u8]) -> io::Result<[u8; 249]> {
    let out = filed(rt, 0, edge, file)?;
    tell_record(rt, &out[0..124])?;
    tell_record(rt, &out[124..248])?;
    tell_text_whether(rt, "  untouched behind", untouched(&out[248..]))?;
    Ok(out)
}

// The first record by the fields of table 15, each as wide as it says.
fn tell_fields(rt: &impl Print, out: &[u8; 249]) -> io::Result<()> {
    tell_field(rt, 1, &out[0..1])?;
    tell_field(rt, 2, &out[1..3])?;
    tell_field(rt, 3, &out[3..9])?;
    tell_field(rt, 4, &out[9..14])?;
    tell_field(rt, 5, &out[14..21])?;
    tell_field(rt, 6, &out[21..37])?;
    tell_field(rt, 7, &out[37..38])?;
    tell_field(rt, 8, &out[38..56])?;
    tell_field(rt, 9, &out[56..62])?;
    tell_reference(rt, out)
}

fn tell_reference(rt: &impl Print, out: &[u8; 249]) -> io::Result<()> {
    tell_field(rt, 10, &out[62..97])?;
    tell_field(rt, 11, &out[97..124])
}

// They break rule 33. The third digit of T14b is in no record.
fn amounts(rt: &impl Print) -> io::Result<()> {
    let mut file = sound();
    put(&mut file, SECOND + T14B, b"255");
    one_filed(rt, "the second T14b 255", &file)?;
    put(&mut file, SECOND + T14A, b"00000000000000000");
    put(&mut file, Z + Z3, b"000000000000103");
    one_filed(rt, "the second amount zero", &file)?;
    Ok(())
}

// T15 with three characters from its byte 34 on, counted from 1. The last of them is in its second line.
fn reference(rt: &impl Print, characters: [u8; 3]) -> io::Result<()> {
    let mut file = one_broken();
    let at = put(
        &mut file,
        SECOND + T15,
        b"ABCDEFGHIJKLMNOPQRSTUVWXYZ1234567",
    );
    put(&mut file, at, &characters);
    let [a, b, c] = characters;
    for page in 0..2 {
        let edge = format_args!("hex {a:02X}, {b:02X}, {c:02X} from byte 34 of T15, page {page}");
        tell_reference(rt, &filed(rt, page, edge, &file)?)?;
    }
    Ok(())
}

// Hex 26 becomes a plus sign on both pages, 5B becomes A on page 0 alone, C4 on page 1 alone, and else a space.
fn references(rt: &impl Print) -> io::Result<()> {
    reference(rt, [0x5B, 0xC4, 0x26])?;
    reference(rt, [0x26, 0x5B, 0xC4])?;
    reference(rt, [0xC4, 0x26, 0x5B])
}

// With so many bytes of a table, which are codes with zeros behind them, and of an output. The bytes behind that output
// are looked at too.
fn lent(
    rt: &impl Print,
    page: u32,
    edge: &str,
    file: &[u8],
    table: usize,
    room: usize,
    due: Option<&[u8]>,
) -> io::Result<()> {
    let (table, room) = (table.min(108), room.min(249));
    let mut codes = [b'0'; 108];
    put(&mut codes, 0, &CODES);
    let mut out = [PATTERN; 249];
    let edge = format_args!("{edge}, table {table}, output {room}");
    records(rt, page, edge, file, &codes[..table], &mut out[..room])?;
    tell_output(rt, &out, due)
}

// Both sides of 62.
fn tables(rt: &impl Print, file: &[u8], due: &[u8]) -> io::Result<()> {
    let edge = "one record";
    lent(rt, 0, edge, file, 95, 124, None)?;
    lent(rt, 0, edge, file, 96, 124, Some(due))?;
    lent(rt, 0, edge, file, 97, 124, None)?;
    lent(rt, 0, edge, file, 108, 124, None)?;
    lent(rt, 0, edge, file, 0, 124, None)
}

// Both sides of 60, and 62 before it.
fn room_for_one(rt: &impl Print, file: &[u8], due: &[u8]) -> io::Result<()> {
    let edge = "one record";
    lent(rt, 0, edge, file, 96, 123, None)?;
    lent(rt, 0, edge, file, 96, 125, Some(due))?;
    lent(rt, 0, edge, file, 96, 0, None)?;
    lent(rt, 0, edge, file, 95, 123, None)
}

fn room_for_two(rt: &impl Print, file: &[u8], due: &[u8]) -> io::Result<()> {
    let edge = "two records";
    lent(rt, 0, edge, file, 96, 247, None)?;
    lent(rt, 0, edge, file, 96, 248, Some(due))?;
    lent(rt, 0, edge, file, 96, 249, Some(due))?;
    lent(rt, 0, edge, file, 96, 124, None)
}

// With table and output one byte short, where two records are due.
fn cramped(rt: &impl Print, page: u32, edge: &str, file: &[u8]) -> io::Result<()> {
    lent(rt, page, edge, file, 95, 247, None)
}

fn cramped_with(rt: &impl Print, edge: &str, at: usize, text: &[u8]) -> io::Result<()> {
    cramped(rt, 0, edge, &with(&two_broken(), at, text))
}

// Each kind of refusal of the default way up to 43 comes before 62.
fn before_62(rt: &impl Print) -> io::Result<()> {
    let file = two_broken();
    cramped(rt, 2, "on page 2", &file)?;
    cramped(rt, 0, "a byte cut off", &file[0..2815])?;
    cramped_with(rt, "Q9 broken", Q9, b"X")?;
    cramped_with(rt, "a letter in the third T14a", THIRD + T14A, b"X")?;
    cramped_with(rt, "a letter in the third T14b", THIRD + T14B, b"00X")?;
    cramped_with(rt, "Z5 broken", Z + Z5, b"X")?;
    cramped_with(rt, "Z4 2", Z + Z4, b"000000000000002")?;
    cramped_with(rt, "Z3 124", Z + Z3, b"000000000000124")?;
    cramped_with(rt, "every payment broken", SECOND + T13, b"USD")?;
    cramped(rt, 0, "two records", &file)
}

// 62 is asked all the same, and any output has room.
fn nothing_comes_back(rt: &impl Print) -> io::Result<()> {
    let edge = "no record";
    let file = sound();
    lent(rt, 0, edge, &file, 96, 124, None)?;
    lent(rt, 0, edge, &file, 96, 0, None)?;
    lent(rt, 0, edge, &file, 95, 124, None)?;
    lent(rt, 0, edge, &file, 0, 0, None)
}

fn of_one(rt: &impl Print) -> io::Result<()> {
    let file = one_full();
    let due = one_filed(rt, "a whole record", &file)?;
    tell_fields(rt, &due)?;
    tables(rt, &file, &due)?;
    room_for_one(rt, &file, &due)
}

fn of_two(rt: &impl Print) -> io::Result<()> {
    let file = two_broken();
    let due = two_filed(rt, "the first breaks 35, the third 20", &file)?;
    room_for_two(rt, &file, &due)
}

pub fn edges(rt: &impl Print) -> io::Result<()> {
    of_one(rt)?;
    of_two(rt)?;
    amounts(rt)?;
    references(rt)?;
    before_62(rt)?;
    nothing_comes_back(rt)
}
