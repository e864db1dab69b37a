// The code pages (document 02, A2): what the German characters become on each, files that one page alone finds sound, and
// numbers that are no page's.
use crate::BLANK_LINE;
use drafts::{LIST, NOTE_PATTERN, NUMBER, PATTERN, tell_text, tell_text_whether, untouched, with};
use std::io;

// The second byte of the second payee, a place of text.
const PLACE: usize = 1235;

// What a byte in the place of text is forwarded as on a page, if its note is the one that is due and the file comes back.
fn forwarded(page: u32, byte: u8) -> Option<char> {
    let file = with(
        &drafts::example(b"ANNA BEISPIEL", b"M STUDIO"),
        PLACE,
        &[byte],
    );
    let mut out = [PATTERN; 2048];
    let mut notes = [NOTE_PATTERN; 1];
    let p = prepare::strict(page, &file, &LIST, &LIST, &mut out, &mut notes);
    let mut back = [PATTERN; 2048];
    let r = restore::restore(page, &out, &notes, &LIST, &LIST, &mut back);
    let is_noted = p.notes == 1 && notes[0] == PLACE as u32 * 256 + u32::from(byte);
    let is_back = r.number == 0 && back == file;
    (is_noted && is_back).then_some(char::from(out[PLACE]))
}

// A line: what the byte becomes on both pages.
fn becomes(rt: &impl Print, byte: u8, name: &str) -> io::Result<()> {
    let (Some(on_0), Some(on_1)) = (forwarded(0, byte), forwarded(1, byte)) else {
        return println!(rt; "hex {byte:02X}, {name}: not as due");
    };
    println!(rt; "hex {byte:02X}, {name}: page 0 '{on_0}', page 1 '{on_1}'")
}

fn german_characters(rt: &impl Print) -> io::Result<()> {
    becomes(rt, 0x5B, "A umlaut on page 0")?;
    becomes(rt, 0x5C, "O umlaut on page 0")?;
    becomes(rt, 0x5D, "U umlaut on page 0")?;
    becomes(rt, 0x7E, "sharp s on page 0")?;
    becomes(rt, 0xC4, "A umlaut on page 1")?;
    becomes(rt, 0xD6, "O umlaut on page 1")?;
    becomes(rt, 0xDC, "U umlaut on page 1")?;
    becomes(rt, 0xDF, "sharp s on page 1")?;
    becomes(rt, 0x7B, "a umlaut on page 0")?;
    becomes(rt, 0x7C, "o umlaut on page 0")?;
    becomes(rt, 0x7D, "u umlaut on page 0")?;
    becomes(rt, 0xE4, "a umlaut on page 1")?;
    becomes(rt, 0xF6, "o umlaut on page 1")?;
    becomes(rt, 0xFC, "u umlaut on page 1")
}

// Two lines: the judge on both pages.
fn on_both(rt: &impl Print, rule: usize, byte: u8, file: &[u8]) -> io::Result<()> {
    for page in 0..2 {
        let edge = format_args!("rule {rule}, hex {byte:02X}, page {page}");
        crate::judge_on(rt, page, edge, file, &[])?;
    }
    Ok(())
}

// The same of the file with a text written over it, and then the byte at a place.
fn on_both_with(
    rt: &impl Print,
    rule: usize,
    byte: u8,
    file: &[u8; 2048],
    at: usize,
    text: &[u8],
    place: usize,
) -> io::Result<()> {
    on_both(rt, rule, byte, &with(&with(file, at, text), place, &[byte]))
}

// A byte that is a letter on one page and a space on the other. It is all that the ordering party's name has, a letter of
// the BIC, all of the bank's name, all of the payee's, the first character of the account; and all of a cheque's T8.
fn one_page_alone(
    rt: &impl Print,
    byte: u8,
    file: &[u8; 2048],
    cheque: &[u8; 2048],
) -> io::Result<()> {
    on_both_with(rt, 12, byte, file, 23, &BLANK_LINE, 23)?;
    on_both_with(rt, 26, byte, file, 309, b"ABCDDEFF", 316)?;
    on_both_with(rt, 27, byte, file, 309, b"           US ", 323)?;
    on_both_with(rt, 29, byte, file, 466, &BLANK_LINE, 466)?;
    on_both_with(rt, 31, byte, file, 676, b"/1234567", 677)?;
    on_both_with(rt, 25, byte, cheque, 309, b"        ", 309)
}

fn judge_on(rt: &impl Print, page: u32, edge: &str, file: &[u8], taken: &[u64]) -> io::Result<()> {
    crate::judge_on(rt, page, format_args!("page {page}, {edge}"), file, taken)
}

fn prepare_on(
    rt: &impl Print,
    page: u32,
    edge: &str,
    file: &[u8],
    out: &mut [u8],
) -> io::Result<()> {
    let edge = format_args!("page {page}, prepare, {edge}");
    crate::refused(rt, page, edge, file, out, &mut [NOTE_PATTERN; 1])
}

// Restore, with a note about a place of Z, which no file yields.
fn restore_on(
    rt: &impl Print,
    page: u32,
    edge: &str,
    file: &[u8],
    out: &mut [u8],
) -> io::Result<()> {
    let r = restore::restore(page, file, &[460838], &LIST, &LIST, out);
    tell_text(
        rt,
        format_args!("page {page}, restore, {edge}"),
        r.number,
        r.rec,
    )?;
    tell_text_whether(rt, "  output untouched", untouched(out))
}

// A page that does not exist: 7, before 50 and 2, before 60 and before 70.
fn no_such_page(rt: &impl Print, page: u32, file: &[u8]) -> io::Result<()> {
    judge_on(rt, page, "a sound file", file, &[])?;
    judge_on(rt, page, "a taken number", file, &[NUMBER])?;
    judge_on(rt, page, "an empty file", &[], &[])?;
    prepare_on(rt, page, "room one short", file, &mut [PATTERN; 2047])?;
    prepare_on(rt, page, "exact room", file, &mut [PATTERN; 2048])?;
    restore_on(rt, page, "room one short", file, &mut [PATTERN; 2047])?;
    restore_on(rt, page, "no such pair", file, &mut [PATTERN; 2048])
}

// A byte more than 9,999 payments have: 1, but 7 comes before it. The file comes as an array, whose length the prover knows
// by its type, and becomes a slice one call further down.
fn too_long(rt: &impl Print, file: &[u8; 7679745]) -> io::Result<()> {
    judge_on(rt, 1, "one byte too long", file, &[])?;
    judge_on(rt, 2, "one byte too long", file, &[])
}

pub fn edges(rt: &impl Print) -> io::Result<()> {
    let file = drafts::example(b"ANNA BEISPIEL", b"M&M STUDIO");
    let cheque = drafts::with_a_cheque();
    german_characters(rt)?;
    one_page_alone(rt, 0x5B, &file, &cheque)?;
    one_page_alone(rt, 0xC4, &file, &cheque)?;
    no_such_page(rt, 2, &file)?;
    no_such_page(rt, 255, &file)?;
    no_such_page(rt, 4294967295, &file)?;
    too_long(rt, &[b'0'; 7679745])
}
