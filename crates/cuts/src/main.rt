// The reader (document 02, A3): the places where a file may be cut, lists by the cut that completes a record, what is told
// first, the longest file, and what comes after the end.
#![tactic(auto)]

use drafts::{LIST, NUMBER};
use reader::Reader;
use std::fmt::Display;
use std::io;

// A list in which the payments' country is not.
const OTHER: [u8; 2] = *b"GB";

fn fed(r: Reader, cut: &[u8]) -> Reader {
    r.feed(cut, &LIST, &LIST)
}

// A line: what the end answers. The reader is given back.
fn ends(
    rt: &impl Print,
    edge: impl Display + Drop,
    r: Reader,
    taken: &[u64],
) -> io::Result<Reader> {
    let read = r.end(taken);
    let answer = read.answer;
    let v = answer.verdict;
    println!(rt;
        "{edge}: {} at {}, place {}, changes {}",
        v.number, v.rec, v.at, answer.changes
    )?;
    Ok(read.reader)
}

// A file in two cuts, the second one with a list of its own.
fn cut_in_two(
    rt: &impl Print,
    edge: &str,
    first: &[u8],
    second: &[u8],
    list: &[u8],
) -> io::Result<()> {
    let r = fed(Reader::new(0), first).feed(second, list, list);
    ends(rt, format_args!("{edge}, cut at {}", first.len()), r, &[])?;
    Ok(())
}

// Before the last byte of a record, behind it, and behind the first byte of the next, which Z has none.
fn one_list(rt: &impl Print, file: &[u8; 2048]) -> io::Result<()> {
    for at in [
        255, 256, 257, 1023, 1024, 1025, 1791, 1792, 1793, 2047, 2048,
    ] {
        cut_in_two(rt, "one list", &file[..at], &file[at..], &LIST)?;
    }
    Ok(())
}

fn another_list(rt: &impl Print, file: &[u8; 2048]) -> io::Result<()> {
    for at in [1023, 1024, 1791, 1792] {
        cut_in_two(
            rt,
            "another list in the second",
            &file[..at],
            &file[at..],
            &OTHER,
        )?;
    }
    Ok(())
}

fn one_byte_at_a_time(rt: &impl Print, file: &[u8]) -> io::Result<()> {
    let mut r = Reader::new(0);
    for cut in file.chunks(1) {
        r = fed(r, cut);
    }
    ends(rt, "one byte at a time", r, &[])?;
    Ok(())
}

fn places_of_a_cut(rt: &impl Print, file: &[u8; 2048]) -> io::Result<()> {
    ends(rt, "no cut at all", Reader::new(0), &[])?;
    ends(rt, "an empty cut", fed(Reader::new(0), &[]), &[])?;
    one_list(rt, file)?;
    one_byte_at_a_time(rt, file)?;
    another_list(rt, file)
}

// A file whose first payee is blank, whole and then without its last byte.
fn told_first(rt: &impl Print, file: &[u8; 2048]) -> io::Result<()> {
    ends(rt, "a blank payee", fed(Reader::new(0), file), &[])?;
    ends(
        rt,
        "a blank payee, and Z one short",
        fed(Reader::new(0), &file[..2047]),
        &[],
    )?;
    Ok(())
}

// Q, so many payments of 1,00, each a cut, and the rest.
fn many(page: u32, q: &[u8], n: usize, rest: &[u8]) -> Reader {
    let payment = drafts::payment(b"MARIA EXAMPLE", 1, 0);
    let mut r = fed(Reader::new(page), q);
    for _ in 0..n {
        r = fed(r, &payment);
    }
    fed(r, rest)
}

// 9,999 payments, and what makes the file too long.
fn longest_file(rt: &impl Print) -> io::Result<()> {
    let q = drafts::q();
    let z = drafts::z(9999, 9999);
    let mut longer = [b' '; 257];
    drafts::put(&mut longer, 0, &z);
    ends(rt, "9999 payments", many(0, &q, 9999, &z), &[])?;
    ends(
        rt,
        "9999 payments and one byte",
        many(0, &q, 9999, &longer),
        &[],
    )?;
    ends(rt, "10000 payments", many(0, &q, 10000, &z), &[])?;
    let no_q = many(0, &[b' '; 256], 9999, &longer);
    ends(rt, "no Q, 9999 payments and one byte", no_q, &[])?;
    ends(
        rt,
        "page 2, 9999 payments and one byte",
        many(2, &q, 9999, &longer),
        &[],
    )?;
    Ok(())
}

// The first end decides, whatever numbers are lent to a later one.
fn asked_again(rt: &impl Print, file: &[u8]) -> io::Result<()> {
    let r = ends(rt, "a taken number", fed(Reader::new(0), file), &[NUMBER])?;
    ends(rt, "  asked again, not taken", r, &[])?;
    let r = ends(rt, "no taken number", fed(Reader::new(0), file), &[])?;
    ends(rt, "  asked again, taken", r, &[NUMBER])?;
    Ok(())
}

// And what comes after it changes nothing.
fn after_the_end(rt: &impl Print, file: &[u8; 2048]) -> io::Result<()> {
    let r = ends(
        rt,
        "one byte short",
        fed(Reader::new(0), &file[..2047]),
        &[],
    )?;
    ends(rt, "  that byte after the end", fed(r, &file[2047..]), &[])?;
    Ok(())
}

fn main(rt: HostRuntime) -> io::Result<()> {
    let file = drafts::example(b"ANNA BEISPIEL", b"M&M STUDIO");
    let blank = drafts::example(b"===================================", b"M&M STUDIO");
    places_of_a_cut(&rt, &file)?;
    told_first(&rt, &blank)?;
    longest_file(&rt)?;
    asked_again(&rt, &file)?;
    after_the_end(&rt, &file)
}
