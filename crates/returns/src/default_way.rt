// The default way of prepare (document 02, A5): what goes on, what comes back, what refuses the file, and in which turn.
use crate::draft::*;
use crate::tell_output;
use drafts::{
    LIST, NOTE_PATTERN, PATTERN, notes_untouched, payment, put, put_records, tell_text,
    tell_text_whether, with,
};
use std::{fmt, io};

// Room as it has to be left: a file of one payment or two, and the pattern behind it.
fn left(first: &[u8], second: &[u8], euros: u64, payments: u64) -> [u8; 2816] {
    let mut room = [PATTERN; 2816];
    put_records(
        &mut room,
        &[&drafts::q(), first, second, &drafts::z(euros, payments)],
    );
    room
}

// The same of the first payment and the third, with this payee.
fn first_and_third(payee: &[u8]) -> [u8; 2816] {
    left(&payment(payee, 100, 50), &payment(payee, 3, 0), 103, 2)
}

// The numbers in lent places, and a dash for each that kept its pattern.
#[derive(Clone, Copy)]
struct Places<'a>(&'a [u32]);

impl fmt::Display for Places<'_> {
    fn fmt<W: fmt::Write>(&self, f: &mut fmt::Formatter<W>) -> fmt::Result {
        for &number in self.0 {
            if number == NOTE_PATTERN {
                write!(f, " -")?;
            } else {
                write!(f, " {number}")?;
            }
        }
        Ok(())
    }
}

// What is lent to a call: so many bytes of output, places of notes and places of the list, each with its pattern.
#[derive(Drop)]
struct Lent<const OUTPUT: usize, const NOTES: usize, const LISTED: usize> {
    out: [u8; OUTPUT],
    notes: [u32; NOTES],
    list: [u32; LISTED],
}

impl<const OUTPUT: usize, const NOTES: usize, const LISTED: usize> Lent<OUTPUT, NOTES, LISTED> {
    fn new() -> Self {
        Lent {
            out: [PATTERN; OUTPUT],
            notes: [NOTE_PATTERN; NOTES],
            list: [NOTE_PATTERN; LISTED],
        }
    }

    // Three lines: the answer, what note places and list hold then, and whether the output is as due. Where nothing is
    // due, nothing is to be written to it.
    fn prepare(
        &mut self,
        rt: &impl Print,
        page: u32,
        edge: &str,
        file: &[u8],
        due: Option<&[u8]>,
    ) -> io::Result<()> {
        let p = prepare::prepare(
            page,
            file,
            &LIST,
            &LIST,
            &mut self.out,
            &mut self.notes,
            &mut self.list,
        );
        let (payments, euros) = (p.payments, p.euros);
        println!(rt;
            "{edge}: {} at {}, kept {} with {} euros, returned {} with {}, notes {}",
            p.number, p.rec, payments.kept, euros.kept, payments.returned, euros.returned, p.notes
        )?;
        println!(rt;
            "  noted{}, listed{}",
            Places(&self.notes),
            Places(&self.list)
        )?;
        tell_output(rt, &self.out, due)
    }
}

// With ample room.
fn sent(rt: &impl Print, edge: &str, file: &[u8], due: &[u8]) -> io::Result<()> {
    Lent::<2816, 4, 3>::new().prepare(rt, 0, edge, file, Some(due))
}

fn refused(rt: &impl Print, edge: &str, file: &[u8]) -> io::Result<()> {
    Lent::<2816, 4, 3>::new().prepare(rt, 0, edge, file, None)
}

// The same of a file with a text written over it.
fn refused_with(
    rt: &impl Print,
    edge: &str,
    file: &[u8; 2816],
    at: usize,
    text: &[u8],
) -> io::Result<()> {
    refused(rt, edge, &with(file, at, text))
}

fn tell_field(rt: &impl Print, name: &str, field: &[u8]) -> io::Result<()> {
    println!(rt; "  {name} {}", field.escape_ascii())
}

// The strict way, which refuses the whole file.
fn strict(rt: &impl Print, file: &[u8]) -> io::Result<()> {
    let mut out = [PATTERN; 2816];
    let mut notes = [NOTE_PATTERN; 4];
    let p = prepare::strict(0, file, &LIST, &LIST, &mut out, &mut notes);
    tell_text(rt, "the second of three broken, strict", p.number, p.rec)?;
    tell_output(rt, &out, None)?;
    tell_text_whether(rt, "  note places untouched", notes_untouched(&notes))
}

// What is kept, from its forwarded file.
fn restored(rt: &impl Print, forwarded: &[u8], notes: &[u32]) -> io::Result<()> {
    let kept = first_and_third(b"M&M STUDIO");
    let mut out = [PATTERN; 2048];
    let r = restore::restore(0, forwarded, notes, &LIST, &LIST, &mut out);
    tell_text(rt, "what is kept, restored", r.number, r.rec)?;
    // 0.. here and below: at ..2048 the prover does not see that it ends within the array
    tell_text_whether(
        rt,
        "  the very file is back",
        out.as_slice() == &kept[0..2048],
    )
}

// The default way puts Z in the third payment's place.
fn one_comes_back(rt: &impl Print, file: &[u8]) -> io::Result<()> {
    let due = first_and_third(b"M+M STUDIO");
    let mut lent = Lent::<2816, 4, 3>::new();
    lent.prepare(rt, 0, "the second of three broken", file, Some(&due))?;
    tell_field(rt, "Z3", &lent.out[THIRD + Z3..THIRD + Z4])?;
    tell_field(rt, "Z4", &lent.out[THIRD + Z4..THIRD + Z5])?;
    restored(rt, &lent.out[0..2048], &lent.notes[0..2])
}

// Ten payments, whose sum has 15 digits, and one of 9,00 that comes back. Z goes to its place.
fn long_sum(rt: &impl Print) -> io::Result<()> {
    let most = 99999999999999;
    let last = 7936;
    let mut file = [b' '; 8960];
    drafts::many(&mut file, 10, most, 9, 999999999999999, 11);
    put(&mut file, last + T13, b"USD");
    let mut due = [PATTERN; 8960];
    drafts::many(&mut due, 9, most, most, 999999999999990, 10);
    let mut lent = Lent::<8960, 0, 2>::new();
    lent.prepare(rt, 0, "the last of eleven broken", &file, Some(&due))?;
    tell_field(rt, "Z3", &lent.out[last + Z3..last + Z4])?;
    tell_field(rt, "Z4", &lent.out[last + Z4..last + Z5])
}

fn a_single_payment(rt: &impl Print) -> io::Result<()> {
    let mut file = [b' '; 1280];
    drafts::many(&mut file, 0, 0, 1, 1, 1);
    let due = left(&payment(b"MARIA EXAMPLE", 1, 0), &[], 1, 1);
    sent(rt, "a single payment, sound", &file, &due)?;
    put(&mut file, FIRST + T13, b"USD");
    refused(rt, "a single payment, broken", &file)
}

// Rule 21 compares with record 1.
fn first_account(rt: &impl Print) -> io::Result<()> {
    let file = three();
    refused_with(rt, "a letter in the first T3", &file, FIRST + T3, b"X")?;
    refused_with(rt, "a letter in the first T4b", &file, FIRST + T4B, b"X")?;
    let kept = with(&payment(b"M+M STUDIO", 100, 50), T3, b"6");
    let due = left(&kept, &[], 100, 1);
    sent(
        rt,
        "the first T3 mistyped",
        &with(&file, FIRST + T3, b"6"),
        &due,
    )
}

// The same where record 1 comes back, by T4a, which rule 21 does not read.
fn first_comes_back(rt: &impl Print) -> io::Result<()> {
    let file = with(&three(), FIRST + T4A, b"USD");
    refused_with(
        rt,
        "the first T4a broken, its T3 mistyped",
        &file,
        FIRST + T3,
        b"6",
    )?;
    let second = payment(b"A+B+C", 20, 25);
    let third = payment(b"M+M STUDIO", 3, 0);
    sent(
        rt,
        "the first T4a broken",
        &file,
        &left(&second, &third, 23, 2),
    )?;
    let mistyped = with(&file, SECOND + T3, b"6");
    sent(
        rt,
        "the first T4a broken, the second T3 mistyped",
        &mistyped,
        &left(&third, &[], 3, 1),
    )
}

// Beside a broken payment: amounts that are no numbers, and a Z that is not the submitted payments'.
fn letters_in_amounts(rt: &impl Print, file: &[u8; 2816]) -> io::Result<()> {
    let spoiled = with(file, THIRD + T14A, b"X");
    refused(
        rt,
        "the second broken, a letter in the third T14a",
        &spoiled,
    )?;
    refused_with(
        rt,
        "the second broken, a letter in its T14a too",
        &spoiled,
        SECOND + T14A,
        b"X",
    )?;
    refused_with(
        rt,
        "the second broken, a letter in the third T14b",
        file,
        THIRD + T14B,
        b"00X",
    )
}

fn other_totals(rt: &impl Print, file: &[u8; 2816]) -> io::Result<()> {
    refused_with(
        rt,
        "the second broken, Z3 124",
        file,
        Z + Z3,
        b"000000000000124",
    )?;
    refused_with(
        rt,
        "the second broken, Z3 103",
        file,
        Z + Z3,
        b"000000000000103",
    )?;
    refused_with(
        rt,
        "the second broken, Z4 2",
        file,
        Z + Z4,
        b"000000000000002",
    )
}

// In digits, an amount that breaks rule 33 is its payment's fault alone.
fn amounts(rt: &impl Print) -> io::Result<()> {
    let due = first_and_third(b"M+M STUDIO");
    let mut file = three();
    put(&mut file, SECOND + T14B, b"255");
    sent(rt, "the second T14b 255", &file, &due)?;
    put(&mut file, SECOND + T14A, b"00000000000000000");
    put(&mut file, Z + Z3, b"000000000000103");
    sent(rt, "the second amount zero", &file, &due)
}

// The output is due as the strict way leaves it.
fn nothing_comes_back(rt: &impl Print) -> io::Result<()> {
    let file = three();
    let mut due = [PATTERN; 2817];
    let mut notes = [NOTE_PATTERN; 5];
    let p = prepare::strict(0, &file, &LIST, &LIST, &mut due, &mut notes);
    tell_text(rt, "three sound payments, strict", p.number, p.rec)?;
    println!(rt; "  noted{}", Places(&notes))?;
    Lent::<2817, 5, 1>::new().prepare(rt, 0, "three sound payments", &file, Some(&due))?;
    Lent::<2817, 5, 0>::new().prepare(rt, 0, "three sound payments, no list", &file, Some(&due))
}

// With room that is one short of each, where the second of three payments is kept.
fn cramped(rt: &impl Print, page: u32, edge: &str, file: &[u8]) -> io::Result<()> {
    Lent::<1279, 1, 1>::new().prepare(rt, page, edge, file, None)
}

// The same after a text was written over the file.
fn mended(
    rt: &impl Print,
    edge: &str,
    file: &mut [u8; 2816],
    at: usize,
    text: &[u8],
) -> io::Result<()> {
    put(file, at, text);
    cramped(rt, 0, edge, file)
}

// With exact output, then note places and list become exact too.
fn roomier(rt: &impl Print, file: &[u8]) -> io::Result<()> {
    Lent::<1280, 1, 1>::new().prepare(rt, 0, "then with exact output", file, None)?;
    Lent::<1280, 2, 1>::new().prepare(rt, 0, "then with exact note places", file, None)?;
    let due = left(&payment(b"A+B+C", 20, 25), &[], 20, 1);
    Lent::<1280, 2, 2>::new().prepare(rt, 0, "then with an exact list", file, Some(&due[0..1280]))
}

// The third payment breaks several rules.
fn break_payments(file: &mut [u8; 2816]) {
    put(file, FIRST + T13, b"USD");
    put(file, SECOND + T13, b"USD");
    put(file, THIRD + T11, b"X");
    put(file, THIRD + T14A, b"X");
    put(file, THIRD + T26, b"X");
}

fn break_z(file: &mut [u8; 2816]) {
    put(file, Z + Z3, b"9");
    put(file, Z + Z4, b"9");
    put(file, Z + Z5, b"X");
}

fn all_broken() -> [u8; 2816] {
    let mut file = with(&three(), Q9, b"X");
    break_payments(&mut file);
    break_z(&mut file);
    file
}

fn mend(rt: &impl Print, file: &mut [u8; 2816]) -> io::Result<()> {
    mended(rt, "then with Q9 mended", file, Q9, b"N")?;
    mended(rt, "then with T14a mended", file, THIRD + T14A, b"0")?;
    mended(rt, "then with Z5 mended", file, Z + Z5, b" ")?;
    mended(rt, "then with Z4 mended", file, Z + Z4, b"0")?;
    mended(
        rt,
        "then with Z3 mended, all payments broken",
        file,
        Z + Z3,
        b"0",
    )?;
    mended(
        rt,
        "then with the second payment mended",
        file,
        SECOND + T13,
        b"EUR",
    )
}

// The refusals in their turn: each comes once those before it are mended.
fn in_turn(rt: &impl Print) -> io::Result<()> {
    let mut file = all_broken();
    cramped(rt, 2, "all broken, on page 2", &file[0..2815])?;
    cramped(rt, 0, "then on page 0, a byte cut off", &file[0..2815])?;
    cramped(rt, 0, "then whole", &file)?;
    mend(rt, &mut file)?;
    roomier(rt, &file)
}

pub fn edges(rt: &impl Print) -> io::Result<()> {
    let file = with(&three(), SECOND + T13, b"USD");
    strict(rt, &file)?;
    one_comes_back(rt, &file)?;
    long_sum(rt)?;
    a_single_payment(rt)?;
    first_account(rt)?;
    first_comes_back(rt)?;
    letters_in_amounts(rt, &file)?;
    other_totals(rt, &file)?;
    amounts(rt)?;
    nothing_comes_back(rt)?;
    in_turn(rt)
}
