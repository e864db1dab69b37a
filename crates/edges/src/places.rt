// Where the judge's answer points (document 02, A1): each field of each rule broken alone, and with all of the rule's
// fields behind it. Q begins at byte 0 of the example, the payments at 256 and 1024, Z at 1792.
use crate::BLANK_LINE;
use drafts::{put, with};
use std::io;

// Judges the file with a text written over it at one place.
fn alone(rt: &impl Print, rule: &str, file: &[u8; 2048], at: usize, text: &[u8]) -> io::Result<()> {
    crate::judge(
        rt,
        format_args!("{rule}, byte {at}"),
        &with(file, at, text),
        &[],
    )
}

// The same at each of some places, and then with the text at those behind it too.
fn each(
    rt: &impl Print,
    rule: &str,
    file: &[u8; 2048],
    places: &[usize],
    text: &[u8],
) -> io::Result<()> {
    let mut wrong = *file;
    for at in places.iter().rev() {
        alone(rt, rule, file, *at, text)?;
        put(&mut wrong, *at, text);
        // behind the last there is none
        if Some(at) != places.last() {
            crate::judge(rt, format_args!("{rule}, from byte {at}"), &wrong, &[])?;
        }
    }
    Ok(())
}

// Rules 3 and 4 point to no field.
fn of_structure(rt: &impl Print, file: &[u8; 2048]) -> io::Result<()> {
    alone(rt, "rule 3", file, 256, b"X")?;
    alone(rt, "rule 4", file, 260, b"X")
}

fn of_q(rt: &impl Print, file: &[u8; 2048]) -> io::Result<()> {
    alone(rt, "rule 10", file, 5, b"X")?;
    alone(rt, "rule 11", file, 13, b"X")?;
    alone(rt, "rule 12", file, 23, &BLANK_LINE)?;
    alone(rt, "rule 13", file, 163, b"X")?;
    each(rt, "rule 14", file, &[169, 171, 178, 180], b"X")?;
    alone(rt, "rule 15", file, 177, b"X")?;
    alone(rt, "rule 16", file, 188, b"X")
}

fn of_t(rt: &impl Print, file: &[u8; 2048]) -> io::Result<()> {
    each(rt, "rule 20", file, &[261, 269, 272], b"X")?;
    each(rt, "rule 21", file, &[1029, 1040], b"9")?;
    each(rt, "rule 22", file, &[282, 288, 296, 299], b"X")?;
    alone(rt, "rule 23", file, 906, b"X")?;
    alone(rt, "rule 24", file, 904, b"X")?;
    alone(rt, "rule 26", file, 320, b"X")?;
    alone(rt, "rule 26, no BIC", file, 309, b"SC123456")?;
    alone(rt, "rule 27", file, 309, b"           US ")?;
    alone(rt, "rule 28", file, 463, b"X")?;
    alone(rt, "rule 29", file, 466, &BLANK_LINE)?;
    alone(rt, "rule 30", file, 606, b"X")?;
    alone(rt, "rule 31", file, 676, b"X")?;
    alone(rt, "rule 32", file, 711, b"X")?;
    each(rt, "rule 34", file, &[871, 873, 875, 877, 970, 1022], b"X")?;
    alone(rt, "rule 35", file, 971, b"X")
}

// A file whose first payment has this T14a and T14b.
fn amount(rt: &impl Print, file: &[u8; 2048], t14a: &str, t14b: &str) -> io::Result<()> {
    let at = 714;
    let mut wrong = *file;
    let end = put(&mut wrong, at, t14a.as_bytes());
    put(&mut wrong, end, t14b.as_bytes());
    crate::judge(
        rt,
        format_args!("T14 {t14a} {t14b}, byte {at}"),
        &wrong,
        &[],
    )
}

// Rule 33: a non-digit in T14a, in T14b, in both; a last digit that is not 0; amounts of zero, and next to it. One cent
// passes, and Z3 is then wrong.
fn of_the_amount(rt: &impl Print, file: &[u8; 2048]) -> io::Result<()> {
    amount(rt, file, "0000000000012X", "500")?;
    amount(rt, file, "00000000000120", "50X")?;
    amount(rt, file, "0000000000012X", "50X")?;
    amount(rt, file, "00000000000120", "505")?;
    amount(rt, file, "00000000000000", "000")?;
    amount(rt, file, "00000000000000", "005")?;
    amount(rt, file, "00000000000000", "00X")?;
    amount(rt, file, "00000000000000", "015")?;
    amount(rt, file, "00000000000000", "010")
}

fn of_a_cheque(rt: &impl Print, file: &[u8; 2048]) -> io::Result<()> {
    crate::judge(rt, "a cheque", file, &[])?;
    alone(rt, "cheque, rule 24", file, 905, b"1")?;
    each(rt, "cheque, rule 25", file, &[309, 320, 323], b"X")?;
    alone(rt, "cheque, rule 28", file, 463, b"X")?;
    alone(rt, "cheque, rule 29, line 1", file, 466, &BLANK_LINE)?;
    alone(rt, "cheque, rule 29, line 3", file, 536, &BLANK_LINE)?;
    alone(rt, "cheque, rule 29, line 4", file, 571, &BLANK_LINE)?;
    alone(rt, "cheque, rule 31", file, 676, b"X")
}

fn of_z(rt: &impl Print, file: &[u8; 2048]) -> io::Result<()> {
    each(rt, "rule 40", file, &[1797, 1812, 1827], b"X")?;
    each(rt, "rules 42 and 41", file, &[1797, 1812], b"9")
}

pub fn edges(rt: &impl Print) -> io::Result<()> {
    let file = drafts::example(b"ANNA BEISPIEL", b"M&M STUDIO");
    // 0..: at ..2047 the prover does not see that it ends within the array
    crate::judge(rt, "rule 2", &file[0..2047], &[])?;
    of_structure(rt, &file)?;
    of_q(rt, &file)?;
    of_t(rt, &file)?;
    of_the_amount(rt, &file)?;
    of_z(rt, &file)?;
    of_a_cheque(rt, &drafts::with_a_cheque())
}
