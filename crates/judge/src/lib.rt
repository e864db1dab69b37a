// The judge: the code page, structure over the whole file, then content record by record, then the taken numbers.
#![tactic(auto)]

ghost use Rattle.std.specs.Prelude.{◌≡◌, ◌+◌, ◌*◌, ◌-◌, ◌≤◌, ◌<◌, length, IfErr};
ghost use Rattle.laws.specs.Found.{nonzero};
ghost use Rattle.records.specs.Places.{record_at};
ghost use Rattle.judge.specs.Found.{broken, unbroken};
ghost use Rattle.judge.specs.Refusal.{number_of, rec_of, at_of, verdict_in};
ghost use Rattle.judge.specs.Content.{rule_from, rule_end, content_of};
ghost use Rattle.judge.specs.Run.{length_at, slot_fault, slot_in, run_fault, Lies, first_in};
ghost use Rattle.judge.specs.Sums.{euros, cents, euro_sum, cent_sum, file_number};
ghost use Rattle.judge.specs.Verdict.{refused, verdict_of, judge_of, JudgedAs};
ghost use Rattle.judge.specs.declared.Refusal.TheVariants.{Structure, Broken};

use payments::Terms;
use records::{QField, TField};
use std::ops::Range;
use structure::Misfit;

// The first broken rule, its record, and the place there of the field that breaks it; zeros where none is broken. It is part of a
// reader, so its layout is C's.
#[repr(C)]
#[derive(Clone, Copy, PartialEq, Eq)]
pub struct Breach {
    pub number: usize,
    pub rec: usize,
    pub at: usize,
}

// The judge's answer. Number 0: sound, with the payments and both sums. Else the broken rule, its record, the place there
// of the field that breaks it (0 for rules 1 to 5, for 7 and for 50, which no field breaks), and zeros.
// A number in place of a Refusal is C's layout.
#[repr(C)]
#[derive(Clone, Copy)]
pub struct Verdict {
    pub number: usize,
    pub rec: usize,
    pub at: usize,
    pub payments: usize,
    pub euros: u64,
    pub cents: u64,
}

impl Verdict {
    pub fn refused(number: usize, rec: usize, at: usize) -> Self
        ensures { result ≡ refused number rec at }
    {
        Self {
            number,
            rec,
            at,
            payments: 0,
            euros: 0,
            cents: 0,
        }
    }
}

// What a sound file adds up to.
#[derive(Clone, Copy, PartialEq, Eq)]
pub struct Totals {
    pub payments: usize,
    pub euros: u64,
    pub cents: u64,
}

// Why a file is refused, by this crate or by one above it.
#[derive(Clone, Copy, PartialEq, Eq)]
pub enum Refusal {
    // 1 to 5.
    Structure(Misfit),
    // 7.
    NoSuchPage,
    // A rule of the content, 10 to 42.
    Broken(Breach),
    // 43.
    NothingKept,
    // 50.
    Taken,
    // 60.
    OutputRoom,
    // 61.
    NoteRoom,
    // 62.
    Codes,
    // 63.
    ListRoom,
    // 70.
    NoSuchPair,
}

impl Refusal {
    pub fn number(self) -> usize
        ensures { result ≡ number_of self }
    {
        match self {
            Refusal::Structure(misfit) => misfit.fault.number(),
            Refusal::NoSuchPage => 7,
            Refusal::Broken(breach) => breach.number,
            Refusal::NothingKept => 43,
            Refusal::Taken => 50,
            Refusal::OutputRoom => 60,
            Refusal::NoteRoom => 61,
            Refusal::Codes => 62,
            Refusal::ListRoom => 63,
            Refusal::NoSuchPair => 70,
        }
    }

    // The record that is named, or 0.
    pub fn rec(self) -> usize
        ensures { result ≡ rec_of self }
    {
        match self {
            Refusal::Structure(misfit) => misfit.rec,
            Refusal::Broken(breach) => breach.rec,
            _ => 0,
        }
    }

    // The place in that record of the field that breaks the rule, or 0.
    pub fn at(self) -> usize
        ensures { result ≡ at_of self }
    {
        match self {
            Refusal::Broken(breach) => breach.at,
            _ => 0,
        }
    }
}

impl From<Misfit> for Refusal {
    ghost from_gives = { λ m r. r ≡ Structure m };

    fn from(misfit: Misfit) -> Self {
        Self::Structure(misfit)
    }
}

impl From<Breach> for Refusal {
    ghost from_gives = { λ b r. r ≡ Broken b };

    fn from(breach: Breach) -> Self {
        Self::Broken(breach)
    }
}

impl From<Result<Totals, Refusal>> for Verdict {
    ghost from_gives = { λ found v. v ≡ verdict_in found };

    fn from(found: Result<Totals, Refusal>) -> Self {
        match found {
            Ok(totals) => Self {
                number: 0,
                rec: 0,
                at: 0,
                payments: totals.payments,
                euros: totals.euros,
                cents: totals.cents,
            },
            Err(why) => Self::refused(why.number(), why.rec(), why.at()),
        }
    }
}

// What a rule says of record k, whose bytes are the slot's, in a file with so many payments.
#[tactic(auto, unfolding(crate::specs::Run::slot_fault))]
fn fault(
    terms: &Terms<'_>,
    key: &[u8; 21],
    payments: usize,
    euros: u64,
    slot: &[u8],
    k: usize,
    rule: usize,
) -> Option<usize>
    requires { length slot.now ≡ length_at payments k }
    ensures { result ≡ nonzero (slot_fault terms.now.page terms.now.transfer.now terms.now.cheque.now key.now payments euros slot.now k rule) }
{
    if k == 0 {
        return rules::q::fault(terms.page, slot.as_array::<256>().unwrap(), rule);
    }
    if k <= payments {
        let t = slot.as_array::<768>().unwrap();
        return payments::fault(terms, key, t, rule);
    }
    let z = slot.as_array::<256>().unwrap();
    rules::z::fault(payments as u64, euros, z, rule)
}

// The rules of record k: from its first up to below its end.
pub fn rules_of(n: usize, k: usize) -> Range<usize>
    ensures { (result.start ≡ rule_from n k) × (result.end ≡ rule_end n k) }
{
    if k == 0 {
        return 10..17;
    }
    if k <= n {
        return 20..36;
    }
    40..43
}

// The slot of record k in bytes that stand from place skip of a file on.
#[tactic(auto, unfolding(crate::specs::Run::slot_in))]
fn slot_in(bytes: &[u8], skip: usize, k: usize) -> &[u8]
    requires { (k ≤ 10000) × (skip ≤ record_at k) × (record_at k - skip ≤ length bytes.now) }
    ensures { result.now ≡ slot_in bytes.now skip k }
{
    structure::up_to(bytes, records::record_at(k) - skip, structure::width_at(k))
}

// The first broken rule of a run of records ends the judgement there.
pub fn run(
    terms: &Terms<'_>,
    key: &[u8; 21],
    payments: usize,
    euros: u64,
    bytes: &[u8],
    skip: usize,
    from: usize,
    to: usize,
) -> Option<Breach>
    requires { Lies bytes.now skip payments from to }
    ensures { result ≡ broken (first_in (run_fault terms.now.page terms.now.transfer.now terms.now.cheque.now key.now payments euros bytes.now skip) (rule_from payments) (rule_end payments) from to) }
{
    let mut found = None;
    'records: for k in from..to {
        let slot = slot_in(bytes, skip, k);
        // by its ends: over the range itself the loop would carry what it has yielded in place of a number
        let rules = rules_of(payments, k);
        for rule in rules.start..rules.end {
            if let Some(at) = fault(terms, key, payments, euros, slot, k, rule) {
                found = Some(Breach {
                    number: rule,
                    rec: k,
                    at,
                });
                break 'records;
            }
        }
    }
    found
}

// All records of a file with n T records.
#[tactic(auto, using(crate::specs::Run::content_in_file, crate::specs::Found::failed, crate::specs::Found::passed))]
pub fn content(terms: &Terms<'_>, file: &[u8], n: usize, euros: u64) -> Result<(), Breach>
    requires { (length file.now ≡ 512 + 768 * n) × ((1 ≤ n) × (n ≤ 9999)) }
    ensures { result ≡ unbroken (content_of terms.now.page file.now n euros terms.now.transfer.now terms.now.cheque.now) }
{
    let key = payments::key(structure::whole(file, 1));
    match run(terms, key, n, euros, file, 0, 0, n + 2) {
        Some(breach) => Err(breach),
        None => Ok(()),
    }
}

// What a payment adds to the sums: whole euros, and cents.
pub fn euros_of(rec: &[u8; 768]) -> u64
    ensures { result ≡ euros rec.now }
{
    fields::value(records::bytes(rec, TField::T14a))
}

#[tactic(auto, unfolding(records::specs::Places::part))]
pub fn cents_of(rec: &[u8; 768]) -> u64
    ensures { result ≡ cents rec.now }
{
    let t14b = records::bytes(rec, TField::T14b);
    fields::value(&t14b[0..2])
}

// The sums over the T records, by their numbers, of which euro_sum and cent_sum speak. Cents are never carried.
#[tactic(auto, using(crate::specs::Sums::summing), unfolding(crate::specs::Sums::euro_sum, crate::specs::Sums::cent_sum))]
pub fn sum(file: &[u8], n: usize) -> Totals
    requires { (length file.now ≡ 512 + 768 * n) × (n ≤ 9999) }
    ensures { (result.euros ≡ euro_sum file.now n) × (result.cents ≡ cent_sum file.now n) × (result.payments ≡ n) }
{
    let mut euros: u64 = 0;
    let mut cents: u64 = 0;
    for k in 0..n {
        let rec = structure::whole(file, k + 1);
        euros += euros_of(rec);
        cents += cents_of(rec);
    }
    Totals {
        payments: n,
        euros,
        cents,
    }
}

// The 18 digits of Q4, Q6 and Q7 as one whole number.
#[tactic(auto, using(fields::specs::Laws::dec_lt, crate::specs::Sums::number_is), unfolding(crate::specs::Sums::file_number))]
pub fn number_of(q: &[u8; 256]) -> u64
    ensures { result ≡ file_number q.now }
{
    let q4 = fields::value(records::bytes(q, QField::Q4));
    let q6 = fields::value(records::bytes(q, QField::Q6));
    let q7 = fields::value(records::bytes(q, QField::Q7));
    q4 * 100000000 + q6 * 100 + q7
}

// Structure, then content.
#[tactic(auto, unfolding(crate::specs::Verdict::verdict_of))]
pub fn examine(terms: &Terms<'_>, file: &[u8]) -> Result<Totals, Refusal>
    ensures answer { verdict_in result ≡ verdict_of terms.now.page file.now terms.now.transfer.now terms.now.cheque.now }
    ensures real { IfErr result (λ r. number_of r ≡ 0 → ⊥) }
{
    let n = structure::walk(file)?;
    let totals = sum(file, n);
    content(terms, file, n, totals.euros)?;
    Ok(totals)
}

// A page that does not exist is 7, before anything is read; then the verdict, and then the taken numbers.
#[tactic(auto, unfolding(crate::specs::Verdict::judge_of))]
fn with_taken(terms: &Terms<'_>, file: &[u8], taken: &[u64]) -> Result<Totals, Refusal>
    ensures { verdict_in result ≡ judge_of terms.now.page file.now terms.now.transfer.now terms.now.cheque.now taken.now }
{
    if !charset::is_page(terms.page) {
        return Err(Refusal::NoSuchPage);
    }
    let totals = examine(terms, file)?;
    if fields::taken(taken, number_of(structure::whole(file, 0))) {
        return Err(Refusal::Taken);
    }
    Ok(totals)
}

// The same in one struct for hosts.
pub fn judge(page: u32, file: &[u8], transfer: &[u8], cheque: &[u8], taken: &[u64]) -> Verdict
    ensures { JudgedAs page file.now transfer.now cheque.now taken.now result }
{
    let terms = Terms {
        page,
        transfer,
        cheque,
    };
    Verdict::from(with_taken(&terms, file, taken))
}
