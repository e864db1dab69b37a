// The kept payments into the output, each at its new place, with their notes; the returned ones into the list; and Z with
// fresh figures. Nothing is built in between.
#![tactic(auto)]

ghost use Rattle.std.specs.Prelude.{◌≡◌, ℕ, ◌+◌, ◌*◌, ◌<◌, length};
ghost use Rattle.laws.specs.Found.{nonzero, or_zero};
ghost use Rattle.sorting.specs.Kept.{digits, fresh_z};
ghost use Rattle.structure.specs.Walk.{structure_of};
ghost use Rattle.structure.specs.Shape.{Fits};
ghost use Rattle.sending.specs.Turns.{Paid, RoomFor};
ghost use Rattle.sending.specs.Sending.{RoomsIn, Sent};
ghost use Rattle.sending.specs.Whole.{CanSend, FileSent};

use payments::Terms;
use records::{Field, Q, T, Z, ZField};
use sorting::Going;

// A number in digits, as many as there is room for.
fn digits(n: u64, out: &mut [u8])
    ensures { out.new ≡ digits (length out.old) n }
{
    let mut rest = n;
    for i in (0..out.len()).rev() {
        out[i] = b'0' + ((rest % 10) as u8);
        rest /= 10;
    }
}

// Z into its part of the output, with fresh Z3 and Z4.
fn fresh_z(z: &[u8; 256], payments: u64, euros: u64, part: &mut [u8])
    requires { length part.old ≡ 256 }
    ensures { part.new ≡ fresh_z z.now payments euros }
{
    part.copy_from_slice(z);
    let z3 = ZField::Z3.place();
    digits(euros, &mut part[z3.start..z3.end]);
    let z4 = ZField::Z4.place();
    digits(payments, &mut part[z4.start..z4.end]);
}

// Where the next kept payment, the next note and the next name go.
#[derive(Clone, Copy, PartialEq, Eq)]
pub struct Next {
    pub at: usize,
    pub notes: usize,
    pub names: usize,
}

// T record k: named with its first broken rule where it breaks one, else placed and noted.
fn payment(
    page: u32,
    rec: &[u8; 768],
    k: usize,
    rule: Option<usize>,
    next: Next,
    out: &mut [u8],
    notes: &mut [u32],
    list: &mut [u32],
) -> Next
    requires { (rule ≡ nonzero (or_zero rule)) × RoomFor rec.now k (or_zero rule) next out.old notes.old list.old }
    ensures { Paid page rec.now k (or_zero rule) next out.old notes.old list.old result out.new notes.new list.new }
{
    if let Some(rule) = rule {
        list[next.names] = (k * 100 + rule) as u32;
        return Next {
            names: next.names + 1,
            ..next
        };
    }
    let end = next.at + T::LENGTH;
    let have = place::t_record(
        page,
        rec,
        &mut out[next.at..end],
        next.at,
        notes,
        next.notes,
    );
    Next {
        at: end,
        notes: have,
        ..next
    }
}

// The T records of a file that fits: the kept ones from Q's end on, their notes behind Q's, of which there are `have`.
fn t_records(
    terms: &Terms<'_>,
    file: &[u8],
    have: usize,
    out: &mut [u8],
    notes: &mut [u32],
    list: &mut [u32],
) -> Next
    requires { ((n : ℕ) × (structure_of file.now ≡ Fits n)) × RoomsIn terms.now.page file.now terms.now.transfer.now terms.now.cheque.now have out.old notes.old list.old }
    ensures { Sent terms.now.page file.now terms.now.transfer.now terms.now.cheque.now have out.old notes.old list.old result out.new notes.new list.new }
{
    let key = payments::key(structure::whole(file, 1));
    let mut next = Next {
        at: Q::LENGTH,
        notes: have,
        names: 0,
    };
    for (i, t) in count::t_records(file).iter().enumerate() {
        let rule = sorting::first_rule(terms, key, t);
        next = payment(terms.page, t, i + 1, rule, next, out, notes, list);
    }
    next
}

// The kept file into the output, its notes, and the names of what comes back, by the figures that sorting found.
pub fn file(
    terms: &Terms<'_>,
    file: &[u8],
    going: Going,
    out: &mut [u8],
    notes: &mut [u32],
    list: &mut [u32],
)
    requires { CanSend terms.now.page file.now (going.payments.kept + going.payments.returned) terms.now.transfer.now terms.now.cheque.now going.payments.kept going.euros.kept out.old notes.old list.old }
    ensures { FileSent terms.now.page file.now terms.now.transfer.now terms.now.cheque.now out.old notes.old list.old out.new notes.new list.new }
{
    let n = (going.payments.kept + going.payments.returned) as usize;
    let q = structure::whole(file, 0);
    let have = place::q_record(terms.page, q, &mut out[0..Q::LENGTH], notes);
    let next = t_records(terms, file, have, out, notes, list);
    let z = structure::whole(file, n + 1);
    let end = next.at + Z::LENGTH;
    fresh_z(
        z,
        going.payments.kept,
        going.euros.kept,
        &mut out[next.at..end],
    );
}
