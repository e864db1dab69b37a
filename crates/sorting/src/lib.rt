// Sorting a file's payments: those that break a rule come back, and the others go on.
#![tactic(auto)]

ghost use Rattle.std.specs.Prelude.{◌≡◌, ℕ, ◌+◌, ◌*◌, ◌≤◌, ◌<◌, Ok, IfErr, is_ok, length};
ghost use Rattle.laws.specs.Found.{nonzero};
ghost use Rattle.records.specs.Places.{t_place};
ghost use Rattle.rules.specs.Told.{offset};
ghost use Rattle.sorting.specs.Kept.{first_of};
ghost use Rattle.judge.specs.Found.{unbroken};
ghost use Rattle.judge.specs.Refusal.{number_of};
ghost use Rattle.judge.specs.Sums.{euro_sum};
ghost use Rattle.sorting.specs.Sorted.{in_digits, behind_q, sort_by, SortedAs};
ghost use Rattle.sorting.specs.Answer.{sorted_of, digits_place, amounts_of, z_breach};
ghost use Rattle.structure.specs.Walk.{structure_of};
ghost use Rattle.structure.specs.Shape.{Fits};
ghost use Rattle.sorting.specs.Counting.{figures_are, with_one, Small, figures_of, going_on};

use fields::Class;
use judge::{Breach, Refusal};
use payments::Terms;
use records::{Field, Q, TField};

// What is kept, and what is returned.
#[repr(C)]
#[derive(Clone, Copy, PartialEq, Eq)]
pub struct Shares {
    pub kept: u64,
    pub returned: u64,
}

// Number 0, record 0, how many notes there are of what goes on, and the payments and whole euros; or the number of a
// refusal, its record, and zeros. A number in place of a Refusal is C's layout.
#[repr(C)]
#[derive(Clone, Copy, PartialEq, Eq)]
pub struct Sorted {
    pub number: usize,
    pub rec: usize,
    pub notes: usize,
    pub payments: Shares,
    pub euros: Shares,
}

// How many notes there are of what goes on, and the payments and whole euros.
#[derive(Clone, Copy, PartialEq, Eq)]
pub struct Going {
    pub notes: usize,
    pub payments: Shares,
    pub euros: Shares,
}

impl From<Result<Going, Refusal>> for Sorted {
    ghost from_gives = { λ answer s. s ≡ sorted_of answer };

    fn from(answer: Result<Going, Refusal>) -> Sorted {
        let none = Shares {
            kept: 0,
            returned: 0,
        };
        match answer {
            Ok(going) => Sorted {
                number: 0,
                rec: 0,
                notes: going.notes,
                payments: going.payments,
                euros: going.euros,
            },
            Err(why) => Sorted {
                number: why.number(),
                rec: why.rec(),
                notes: 0,
                payments: none,
                euros: none,
            },
        }
    }
}

// The first of the rules 20 to 35 that a T record breaks. The key is record 1's. The judge's own loop asks them, so that
// they are compiled into one place; as of record 1 of one, for no T rule asks for a record's number.
pub fn first_rule(terms: &Terms<'_>, key: &[u8; 21], t: &[u8; 768]) -> Option<usize>
    ensures { result ≡ nonzero (first_of terms.now.page terms.now.transfer.now terms.now.cheque.now key.now t.now) }
{
    let found = judge::run(terms, key, 1, 0, t, Q::LENGTH, 1, 2)?;
    Some(found.number)
}

// T14a and T14b are all digits.
fn in_digits(t: &[u8; 768]) -> Result<(), TField>
    ensures right { is_ok result ≡ in_digits t.now }
    ensures place { offset t_place result ≡ digits_place t.now }
{
    rules::wholly(Class::Digit, t, TField::T14a)?;
    rules::wholly(Class::Digit, t, TField::T14b)
}

// The amounts of n payments are all digits: else rule 33 is broken, at the first that has a non-digit.
fn amounts(file: &[u8], n: usize) -> Result<(), Breach>
    requires { (length file.now ≡ 512 + 768 * n) × (n ≤ 9999) }
    ensures { result ≡ amounts_of file.now n }
{
    for k in 1..n + 1 {
        if let Err(field) = in_digits(structure::whole(file, k)) {
            return Err(Breach {
                number: 33,
                rec: k,
                at: field.place().start,
            });
        }
    }
    Ok(())
}

// What the kept payments come to so far, with Q's changes among theirs.
#[derive(Clone, Copy)]
pub struct Figures {
    pub payments: u64,
    pub euros: u64,
    pub changes: usize,
}

// One payment more that is kept.
#[tactic(auto, using(judge::specs::Sums::euros_lt, forwarding::specs::Fields::t_few))]
fn with_one(had: Figures, t: &[u8; 768]) -> Figures
    requires { Small had }
    ensures { result ≡ with_one had 0 t.now }
{
    Figures {
        payments: had.payments + 1,
        euros: had.euros + judge::euros_of(t),
        changes: had.changes + count::t_record(t),
    }
}

// What the kept payments of a file that fits come to.
fn count_kept(terms: &Terms<'_>, file: &[u8]) -> Figures
    requires { (n : ℕ) × (structure_of file.now ≡ Fits n) }
    ensures { result ≡ figures_of terms.now.page file.now terms.now.transfer.now terms.now.cheque.now }
{
    let key = payments::key(structure::whole(file, 1));
    let mut sum = Figures {
        payments: 0,
        euros: 0,
        changes: count::q_record(structure::whole(file, 0)),
    };
    for t in count::t_records(file) {
        if first_rule(terms, key, t).is_none() {
            sum = with_one(sum, t);
        }
    }
    sum
}

// Where payments go on: of n payments with so many euros, those that are kept.
fn going_on(kept: Figures, n: usize, euros: u64) -> Going
    requires { (kept.payments ≤ n) × (kept.euros ≤ euros) }
    ensures { sorted_of (Ok result) ≡ going_on kept n euros }
{
    Going {
        notes: kept.changes,
        payments: Shares {
            kept: kept.payments,
            returned: (n as u64) - kept.payments,
        },
        euros: Shares {
            kept: kept.euros,
            returned: euros - kept.euros,
        },
    }
}

// Where all of n payments go on, with so many euros and changes.
pub fn whole(n: usize, euros: u64, changes: usize) -> Going
    ensures { sorted_of (Ok result) ≡ going_on (figures_are n euros changes) n euros }
{
    let all = Figures {
        payments: n as u64,
        euros,
        changes,
    };
    going_on(all, n, euros)
}

// The rules of Z: with n T records, whose T14a sum up to euros. No rule of Z reads the key.
fn z_rules(terms: &Terms<'_>, file: &[u8], n: usize, euros: u64) -> Result<(), Breach>
    requires { (structure_of file.now ≡ Fits n) × (euros ≡ euro_sum file.now n) }
    ensures { result ≡ unbroken (z_breach terms.now.page file.now n terms.now.transfer.now terms.now.cheque.now) }
{
    let key = payments::key(structure::whole(file, 1));
    match judge::run(terms, key, n, euros, file, 0, n + 1, n + 2) {
        Some(breach) => Err(breach),
        None => Ok(()),
    }
}

// Behind Q, which breaks no rule: amounts, then Z, and then the payments one by one.
#[tactic(auto, using(crate::proofs::Answers::told_43, crate::proofs::Answers::told_going))]
fn behind_q(terms: &Terms<'_>, file: &[u8], n: usize, euros: u64) -> Result<Going, Refusal>
    requires { (structure_of file.now ≡ Fits n) × (euros ≡ euro_sum file.now n) }
    ensures { sorted_of result ≡ behind_q terms.now.page file.now n terms.now.transfer.now terms.now.cheque.now }
{
    amounts(file, n)?;
    z_rules(terms, file, n, euros)?;
    let kept = count_kept(terms, file);
    if kept.payments == 0 {
        return Err(Refusal::NothingKept);
    }
    Ok(going_on(kept, n, euros))
}

// A file with n T records. Where it breaks no rule it goes on whole, and a number below 20 is a rule of Q.
fn by_records(terms: &Terms<'_>, file: &[u8], n: usize) -> Result<Going, Refusal>
    requires { structure_of file.now ≡ Fits n }
    ensures { sorted_of result ≡ sort_by (Fits n) terms.now.page file.now terms.now.transfer.now terms.now.cheque.now }
{
    let euros = judge::sum(file, n).euros;
    match judge::content(terms, file, n, euros) {
        Ok(()) => Ok(whole(n, euros, count::file(file))),
        Err(broken) if broken.number < 20 => Err(Refusal::Broken(broken)),
        Err(_) => behind_q(terms, file, n, euros),
    }
}

// A page that does not exist is 7, before anything is read; then structure, and then the records.
pub fn sort(terms: &Terms<'_>, file: &[u8]) -> Result<Going, Refusal>
    ensures answer { SortedAs terms.now.page file.now terms.now.transfer.now terms.now.cheque.now (sorted_of result) }
    ensures real { IfErr result (λ why. number_of why ≡ 0 → ⊥) }
{
    if !charset::is_page(terms.page) {
        return Err(Refusal::NoSuchPage);
    }
    let n = structure::walk(file)?;
    by_records(terms, file, n)
}
