// Both sides of each edge of document 01, where each rule points (document 02, A1), and the code pages (A2), run: a line
// for each. Where no page is told it is page 0, and page 1 in the program. Files in cuts (A3) are in the crate cuts, and
// payments that come back (A5, A6) in the crate returns.
#![tactic(auto)]

use drafts::{
    LIST, NOTE_PATTERN, NUMBER, PATTERN, notes_untouched, put, tell_text, tell_text_whether,
    untouched,
};
use std::fmt::Display;
use std::io;

mod pages;
mod places;

// The note of document 01's example. The byte 5 higher is the plus sign, which the table keeps.
const NOTE: u32 = 316198;

const BLANK_LINE: [u8; 35] = [b' '; 35];

// A line: the edge, its number and record, and the place in the record, which the judge tells.
fn tell_place(
    rt: &impl Print,
    edge: impl Display + Drop,
    number: usize,
    rec: usize,
    at: usize,
) -> io::Result<()> {
    println!(rt; "{edge}: {number} at {rec}, place {at}")
}

fn judge_on(
    rt: &impl Print,
    page: u32,
    edge: impl Display + Drop,
    file: &[u8],
    taken: &[u64],
) -> io::Result<()> {
    let v = judge::judge(page, file, &LIST, &LIST, taken);
    tell_place(rt, edge, v.number, v.rec, v.at)
}

fn judge(rt: &impl Print, edge: impl Display + Drop, file: &[u8], taken: &[u64]) -> io::Result<()> {
    judge_on(rt, 0, edge, file, taken)
}

fn bytes_after_z(rt: &impl Print) -> io::Result<()> {
    let file = drafts::example(b"ANNA BEISPIEL", b"M&M STUDIO");
    let mut longer = [b' '; 2049];
    put(&mut longer, 0, &file);
    // 0..: at ..2048 the prover does not see that it ends within the array
    judge(rt, "no byte after Z", &longer[0..2048], &[])?;
    judge(rt, "one byte after Z", &longer, &[])
}

// What the program prints of a file.
fn in_the_program(rt: &impl Print, edge: &str, file: &[u8]) -> io::Result<()> {
    let r = report::tell(report::read_on(report::start(), file));
    tell_place(rt, edge, r.verdict, r.rec, r.at)
}

// Files of 84 and of 85 payments of 1,00.
fn longer_than_a_read(rt: &impl Print) -> io::Result<()> {
    let mut most = [b' '; 65024];
    drafts::many(&mut most, 83, 1, 1, 84, 84);
    in_the_program(rt, "84 T records in the program", &most)?;
    let mut more = [b' '; 65792];
    drafts::many(&mut more, 84, 1, 1, 85, 85);
    in_the_program(rt, "85 T records in the program", &more)
}

fn taken_numbers(rt: &impl Print) -> io::Result<()> {
    let file = drafts::example(b"ANNA BEISPIEL", b"M&M STUDIO");
    judge(rt, "number not taken", &file, &[NUMBER - 1, NUMBER + 1])?;
    judge(
        rt,
        "number twice in the taken list",
        &file,
        &[NUMBER, NUMBER],
    )
}

// Eleven payments, ten of 99,999,999,999,999.
fn sum(rt: &impl Print, edge: &str, last: u64, z3: u64) -> io::Result<()> {
    let mut file = [b' '; 8960];
    drafts::many(&mut file, 10, 99999999999999, last, z3, 11);
    judge(rt, edge, &file, &[])
}

// A call that is refused. Output and note places come with their pattern.
fn refused(
    rt: &impl Print,
    page: u32,
    edge: impl Display + Drop,
    file: &[u8],
    out: &mut [u8],
    notes: &mut [u32],
) -> io::Result<()> {
    let p = prepare::strict(page, file, &LIST, &LIST, out, notes);
    tell_text(rt, edge, p.number, p.rec)?;
    tell_text_whether(rt, "  output untouched", untouched(out))?;
    tell_text_whether(rt, "  note places untouched", notes_untouched(notes))
}

fn ample(rt: &impl Print, file: &[u8]) -> io::Result<()> {
    let mut out = [PATTERN; 2050];
    let mut notes = [NOTE_PATTERN; 3];
    let p = prepare::strict(0, file, &LIST, &LIST, &mut out, &mut notes);
    tell_text(rt, "ample room", p.number, p.rec)?;
    tell_text_whether(rt, "  output behind untouched", untouched(&out[2048..]))?;
    tell_text_whether(
        rt,
        "  note places behind untouched",
        notes_untouched(&notes[2..]),
    )
}

fn exact(rt: &impl Print, file: &[u8]) -> io::Result<()> {
    let mut out = [PATTERN; 2048];
    let mut notes = [NOTE_PATTERN; 2];
    let p = prepare::strict(0, file, &LIST, &LIST, &mut out, &mut notes);
    tell_text(rt, "exact room", p.number, p.rec)?;
    restore(rt, "two notes, rising places", &out, &notes, file)?;
    notes.reverse();
    restore(rt, "two notes, falling places", &out, &notes, file)
}

// A file of 2048 bytes with two changes, and one that is not sound.
fn short(rt: &impl Print, file: &[u8], blank: &[u8]) -> io::Result<()> {
    refused(
        rt,
        0,
        "output room one short",
        file,
        &mut [PATTERN; 2047],
        &mut [NOTE_PATTERN; 2],
    )?;
    refused(
        rt,
        0,
        "note room one short",
        file,
        &mut [PATTERN; 2048],
        &mut [NOTE_PATTERN; 1],
    )?;
    refused(
        rt,
        0,
        "payee of 35 equals signs",
        blank,
        &mut [PATTERN; 2048],
        &mut [NOTE_PATTERN; 2],
    )
}

// Document 01's example with a change in each payment.
fn prepare_edges(rt: &impl Print) -> io::Result<()> {
    let file = drafts::example(b"M&M STUDIO", b"M&M STUDIO");
    let blank = drafts::example(b"===================================", b"M&M STUDIO");
    short(rt, &file, &blank)?;
    ample(rt, &file)?;
    exact(rt, &file)
}

// Restored into patterned room: whether the very file came back, or nothing was written.
fn restore(
    rt: &impl Print,
    edge: &str,
    forwarded: &[u8],
    notes: &[u32],
    file: &[u8],
) -> io::Result<()> {
    let mut out = [PATTERN; 2048];
    let r = restore::restore(0, forwarded, notes, &LIST, &LIST, &mut out);
    tell_text(rt, edge, r.number, r.rec)?;
    if r.number == 0 {
        return tell_text_whether(rt, "  the very file is back", out.as_slice() == file);
    }
    tell_text_whether(rt, "  output untouched", untouched(&out))
}

// Document 01's example: what the judge and prepare answer of it.
fn example(rt: &impl Print, file: &[u8], out: &mut [u8]) -> io::Result<()> {
    let v = judge::judge(0, file, &LIST, &LIST, &[]);
    tell_place(rt, "120,50 and 79,75", v.number, v.rec, v.at)?;
    let mut notes = [NOTE_PATTERN; 2];
    let p = prepare::strict(0, file, &LIST, &LIST, out, &mut notes);
    println!(rt;
        "  payments {}, euros {}, cents {}, notes {}",
        v.payments, v.euros, v.cents, p.notes
    )?;
    tell_text_whether(rt, "  its note is 316198", notes[0] == NOTE)
}

fn restore_edges(rt: &impl Print) -> io::Result<()> {
    let file = drafts::example(b"ANNA BEISPIEL", b"M&M STUDIO");
    let mut out = [PATTERN; 2048];
    example(rt, &file, &mut out)?;
    tell_text_whether(rt, "  forwarded with a plus sign there", out[1235] == b'+')?;
    restore(rt, "its note", &out, &[NOTE], &file)?;
    restore(
        rt,
        "a note of an unreplaced character",
        &out,
        &[NOTE + 5],
        &file,
    )?;
    restore(rt, "two notes at one place", &out, &[NOTE, NOTE], &file)?;
    restore(rt, "no notes", &out, &[], &out)
}

fn main(rt: HostRuntime) -> io::Result<()> {
    bytes_after_z(&rt)?;
    longer_than_a_read(&rt)?;
    taken_numbers(&rt)?;
    sum(&rt, "T14a sum 999999999999999", 9, 999999999999999)?;
    sum(
        &rt,
        "T14a sum 1000000000000000, Z3 all nines",
        10,
        999999999999999,
    )?;
    sum(&rt, "T14a sum 1000000000000000, Z3 all zeros", 10, 0)?;
    prepare_edges(&rt)?;
    restore_edges(&rt)?;
    places::edges(&rt)?;
    pages::edges(&rt)
}
