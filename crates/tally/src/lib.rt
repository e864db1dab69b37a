// The judge record by record: what the whole records of a file have shown so far, and what they tell at its end.
#![tactic(auto)]

ghost use Rattle.std.specs.Prelude.{◌≡◌, [], ◌-◌, ◌≤◌, ◌<◌, length, IfErr};
ghost use Rattle.structure.specs.Slots.{width_at};
ghost use Rattle.structure.specs.Found.{found};
ghost use Rattle.judge.specs.Found.{broken, unbroken};
ghost use Rattle.judge.specs.Refusal.{number_of, verdict_in};
ghost use Rattle.judge.specs.Run.{length_at};
ghost use Rattle.tally.specs.Record.{breach_in, or_next};
ghost use Rattle.tally.specs.Settle.{fresh, key_at, stop_at, with_q, with_t, settle_of, is_steady, Steady};
ghost use Rattle.tally.specs.Conclude.{at_z, conclude_of};

use judge::{Breach, Refusal, Totals};
use payments::Terms;
use structure::{Fault, Misfit};

// No broken rule, in C's layout.
const NONE: Breach = Breach {
    number: 0,
    rec: 0,
    at: 0,
};

#[repr(C)]
#[derive(Clone, Copy)]
pub struct Tally {
    // How many records were whole: the number of the one that comes next.
    pub next: usize,
    // What the walk refuses there; 0 as none is C's layout.
    pub stop: usize,
    // The first broken rule of the whole records; zeros as none are C's layout.
    pub broken: Breach,
    // Of Q, the file's number.
    pub number: u64,
    pub euros: u64,
    pub cents: u64,
    pub changes: usize,
    // Of record 1, its bytes from T3 to T4b.
    pub key: [u8; 21],
}

// The first broken rule of record k, whose bytes are the slot's, or none.
fn breach(
    terms: &Terms<'_>,
    key: &[u8; 21],
    payments: usize,
    euros: u64,
    slot: &[u8],
    k: usize,
) -> Option<Breach>
    requires { (length slot.now ≡ length_at payments k) × (length slot.now ≤ width_at k) × (k ≤ 10000) }
    ensures { result ≡ broken (breach_in terms.now.page terms.now.transfer.now terms.now.cheque.now key.now payments euros slot.now k) }
{
    judge::run(
        terms,
        key,
        payments,
        euros,
        slot,
        records::record_at(k),
        k,
        k + 1,
    )
}

// The first fault: that so far, or else record k's, which is Q or a T record.
fn or_next(terms: &Terms<'_>, broken: Breach, key: &[u8; 21], slot: &[u8], k: usize) -> Breach
    requires { (length slot.now ≡ width_at k) × (k ≤ 10000) }
    ensures { result ≡ or_next broken (breach_in terms.now.page terms.now.transfer.now terms.now.cheque.now key.now k 0 slot.now k) }
{
    if broken.number != 0 {
        return broken;
    }
    breach(terms, key, k, 0, slot, k).unwrap_or(NONE)
}

// The same at Z, which is record k. No rule of Z reads a list.
fn or_z(
    broken: Breach,
    page: u32,
    key: &[u8; 21],
    euros: u64,
    z: &[u8; 256],
    k: usize,
) -> Result<(), Breach>
    requires { (1 ≤ k) × (k ≤ 10000) }
    ensures { result ≡ unbroken (or_next broken (breach_in page [] [] key.now (k - 1) euros z.now k)) }
{
    if broken.number != 0 {
        return Err(broken);
    }
    let terms = Terms {
        page,
        transfer: &[],
        cheque: &[],
    };
    match breach(&terms, key, k - 1, euros, z, k) {
        Some(breach) => Err(breach),
        None => Ok(()),
    }
}

// The key at record k: record 1 brings it.
fn key_at(k: usize, key: [u8; 21], slot: &[u8; 768]) -> [u8; 21]
    ensures { result ≡ key_at k key slot.now }
{
    if k == 1 {
        return *payments::key(slot);
    }
    key
}

// What the walk refuses at a slot that is full. A file in which record 10,000 fills its slot is too long.
fn stop_at(k: usize, slot: &[u8]) -> Result<(), Fault>
    ensures { found result ≡ stop_at k slot.now }
{
    if k == 10000 {
        return Err(Fault::TooLong);
    }
    structure::fault_in(k, slot)
}

impl Tally {
    pub fn new() -> Self
        ensures { result ≡ fresh }
    {
        Self {
            next: 0,
            stop: 0,
            broken: NONE,
            number: 0,
            euros: 0,
            cents: 0,
            changes: 0,
            key: [0; 21],
        }
    }

    // The sums are of `next` records at most, so that one more can be added.
    pub fn is_steady(self) -> bool
        ensures { result ≡ is_steady self }
    {
        if 10000 < self.next {
            return false;
        }
        let most = self.next as u64;
        (self.euros <= most * 100000000000000)
            & (self.cents <= most * 100)
            & (self.changes <= self.next * 768)
    }

    #[tactic(auto, using(forwarding::specs::Fields::q_few))]
    fn with_q(mut self, terms: &Terms<'_>, q: &[u8; 256]) -> Self
        requires { Steady self }
        ensures { result ≡ with_q terms.now.page terms.now.transfer.now terms.now.cheque.now self q.now }
    {
        self.broken = or_next(terms, self.broken, &self.key, q, 0);
        self.number = judge::number_of(q);
        self.changes += count::q_record(q);
        self.next = 1;
        self
    }

    #[tactic(auto, using(judge::specs::Sums::euros_lt, judge::specs::Sums::cents_lt, forwarding::specs::Fields::t_few))]
    fn with_t(mut self, terms: &Terms<'_>, t: &[u8; 768]) -> Self
        requires { Steady self × (1 ≤ self.next) × (self.next < 10000) }
        ensures { result ≡ with_t terms.now.page terms.now.transfer.now terms.now.cheque.now self t.now }
    {
        let k = self.next;
        self.key = key_at(k, self.key, t);
        self.broken = or_next(terms, self.broken, &self.key, t, k);
        self.euros += judge::euros_of(t);
        self.cents += judge::cents_of(t);
        self.changes += count::t_record(t);
        self.next = k + 1;
        self
    }

    // The next record fills its slot.
    #[tactic(auto, unfolding(crate::specs::Settle::settle_of))]
    pub fn settle(mut self, terms: &Terms<'_>, slot: &[u8]) -> Self
        requires { (length slot.now ≡ width_at self.next) × Steady self }
        ensures { result ≡ settle_of terms.now.page terms.now.transfer.now terms.now.cheque.now self slot.now }
    {
        if let Err(fault) = stop_at(self.next, slot) {
            self.stop = fault.number();
            return self;
        }
        if self.next == 0 {
            return self.with_q(terms, slot.as_array().unwrap());
        }
        self.with_t(terms, slot.as_array().unwrap())
    }

    // The answer where the file ends in a whole Z.
    fn at_z(self, page: u32, z: &[u8; 256]) -> Result<Totals, Refusal>
        requires { (1 ≤ self.next) × (self.next ≤ 10000) }
        ensures answer { verdict_in result ≡ at_z page self z.now }
        ensures real { IfErr result (λ r. number_of r ≡ 0 → ⊥) }
    {
        or_z(self.broken, page, &self.key, self.euros, z, self.next)?;
        Ok(Totals {
            payments: self.next - 1,
            euros: self.euros,
            cents: self.cents,
        })
    }

    // The answer where the file ends, after so many bytes, with what is left in the slot.
    #[tactic(auto, unfolding(crate::specs::Conclude::conclude_of))]
    pub fn conclude(self, page: u32, bytes: usize, left: &[u8]) -> Result<Totals, Refusal>
        requires { (length left.now < width_at self.next) × Steady self }
        ensures answer { verdict_in result ≡ conclude_of page self bytes left.now }
        ensures real { IfErr result (λ r. number_of r ≡ 0 → ⊥) }
    {
        if 7679744 < bytes {
            return Err(Refusal::from(Misfit {
                fault: Fault::TooLong,
                rec: 0,
            }));
        }
        // What stopped the walk is told by its number: in a state that C hands in it may be any.
        if self.stop != 0 {
            return Err(Refusal::from(Breach {
                number: self.stop,
                rec: self.next,
                at: 0,
            }));
        }
        let rec = self.next;
        structure::fault_in(rec, left).map_err(|fault| Misfit { fault, rec })?;
        self.at_z(page, left.as_array().unwrap())
    }
}
