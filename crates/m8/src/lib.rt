// M8 records: one for each payment that comes back, field by field in the order of the receiver's table 15.
#![tactic(auto)]

ghost use Rattle.std.specs.Prelude.{◌≡◌, ℕ, ◌+◌, ◌*◌, ◌≤◌, ◌<◌, length};
ghost use Rattle.structure.specs.Walk.{structure_of};
ghost use Rattle.structure.specs.Shape.{Fits};
ghost use Rattle.forwarding.specs.Noted.{Noted};
ghost use Rattle.m8.specs.Record.{amount_of, reference_of, m8_of, code_of};
ghost use Rattle.m8.specs.Filed.{records_of, FiledAs};
ghost use Rattle.m8.specs.Answer.{filed_in};
ghost use Rattle.m8.specs.Writing.{Left, heading_of};
ghost use Rattle.m8.specs.Course.{Room};

use judge::Refusal;
use payments::Terms;
use records::{Field, QField, TField};

// The bytes of a record, and of the table of codes.
pub const LENGTH: usize = 124;

pub const CODES: usize = 96;

// The bytes of a code, the rule whose code is the first, and the bytes of a line.
const CODE: usize = 6;

const FIRST: usize = 20;

const LINE: usize = 35;

// How many records there are; or the number of a refusal, its record, and 0. A number in place of a Refusal is C's
// layout.
#[repr(C)]
#[derive(Clone, Copy, PartialEq, Eq)]
pub struct Filed {
    pub number: usize,
    pub rec: usize,
    pub count: usize,
}

impl From<Result<usize, Refusal>> for Filed {
    ghost from_gives = { λ answer f. f ≡ filed_in answer };

    fn from(answer: Result<usize, Refusal>) -> Filed {
        match answer {
            Ok(count) => Filed {
                number: 0,
                rec: 0,
                count,
            },
            Err(why) => Filed {
                number: why.number(),
                rec: why.rec(),
                count: 0,
            },
        }
    }
}

// Bytes behind those that are written; where the next ones go. Room and place stay two, as `Noted` speaks of them; the room is
// lent by C, and nothing is built in between.
fn append(piece: &[u8], out: &mut [u8], at: usize) -> usize
    requires { Left (length piece.now) at out.old }
    ensures { Noted piece.now at out.old out.new result }
{
    let end = at + piece.len();
    out[at..end].copy_from_slice(piece);
    end
}

// DM8-1 to DM8-7: the file.
fn heading(q: &[u8; 256], out: &mut [u8], at: usize) -> usize
    requires { Left 38 at out.old }
    ensures { Noted (heading_of q.now) at out.old out.new result }
{
    let mut end = append(b"DM8", out, at);
    end = append(records::bytes(q, QField::Q6), out, end);
    end = append(b"000", out, end);
    end = append(records::bytes(q, QField::Q7), out, end);
    append(b"0000000                 ", out, end)
}

// DM8-8: the amount in cents.
fn amount(t: &[u8; 768], out: &mut [u8], at: usize) -> usize
    requires { Left 18 at out.old }
    ensures { Noted (amount_of t.now) at out.old out.new result }
{
    let mut end = append(b"00", out, at);
    end = append(records::bytes(t, TField::T14a), out, end);
    append(&records::bytes(t, TField::T14b)[0..2], out, end)
}

// DM8-10: the first line of T15, replaced within its stretch of the output.
fn reference(page: u32, t: &[u8; 768], stretch: &mut [u8])
    requires { length stretch.old ≡ 35 }
    ensures { stretch.new ≡ reference_of page t.now }
{
    let line = records::line(TField::T15.place(), 1);
    stretch.copy_from_slice(records::part(t, line));
    charset::replace(page, stretch);
}

// The record of a payment, with the code of the rule that it breaks.
fn one_record(
    page: u32,
    q: &[u8; 256],
    t: &[u8; 768],
    code: &[u8; CODE],
    out: &mut [u8],
    at: usize,
) -> usize
    requires { Left 124 at out.old }
    ensures { Noted (m8_of page q.now code.now t.now) at out.old out.new result }
{
    let mut end = heading(q, out, at);
    end = amount(t, out, end);
    end = append(code, out, end);
    let behind = end + LINE;
    reference(page, t, &mut out[end..behind]);
    append(b"                           ", out, behind)
}

// The record of a payment that breaks this rule first.
fn payment(
    page: u32,
    q: &[u8; 256],
    t: &[u8; 768],
    rule: usize,
    codes: &[u8; CODES],
    out: &mut [u8],
    at: usize,
) -> usize
    requires { (20 ≤ rule) × (rule < 36) × Left 124 at out.old }
    ensures { Noted (m8_of page q.now (code_of codes.now rule) t.now) at out.old out.new result }
{
    let from = CODE * (rule - FIRST);
    let code = codes[from..from + CODE].as_array().unwrap();
    one_record(page, q, t, code, out, at)
}

// The records of the returned ones of a file's payments.
fn payments(terms: &Terms<'_>, file: &[u8], codes: &[u8; CODES], out: &mut [u8]) -> usize
    requires { ((n : ℕ) × (structure_of file.now ≡ Fits n)) × Room terms.now.page file.now terms.now.transfer.now terms.now.cheque.now codes.now out.old }
    ensures { Noted (records_of terms.now.page file.now terms.now.transfer.now terms.now.cheque.now codes.now) 0 out.old out.new result }
{
    let q = structure::whole(file, 0);
    let key = payments::key(structure::whole(file, 1));
    let mut at = 0;
    for t in count::t_records(file) {
        if let Some(rule) = sorting::first_rule(terms, key, t) {
            at = payment(terms.page, q, t, rule, codes, out, at);
        }
    }
    at
}

// Sorting's refusals, then 62 and 60; then a record for each returned payment.
fn file_returned(
    terms: &Terms<'_>,
    file: &[u8],
    codes: &[u8],
    out: &mut [u8],
) -> Result<usize, Refusal>
    ensures { FiledAs terms.now.page file.now terms.now.transfer.now terms.now.cheque.now codes.now out.old (filed_in result) out.new }
{
    let count = sorting::sort(terms, file)?.payments.returned as usize;
    let Some(codes) = codes.as_array::<CODES>() else {
        return Err(Refusal::Codes);
    };
    if out.len() < LENGTH * count {
        return Err(Refusal::OutputRoom);
    }
    // where nothing comes back, the payments are not gone over again
    if count != 0 {
        payments(terms, file, codes, out);
    }
    Ok(count)
}

// The same, as C has the answer.
pub fn records(
    page: u32,
    file: &[u8],
    transfer: &[u8],
    cheque: &[u8],
    codes: &[u8],
    out: &mut [u8],
) -> Filed
    ensures { FiledAs page file.now transfer.now cheque.now codes.now out.old result out.new }
{
    let terms = Terms {
        page,
        transfer,
        cheque,
    };
    Filed::from(file_returned(&terms, file, codes, out))
}
