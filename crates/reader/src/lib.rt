// The judge of a file that arrives in cuts. A reader is a value: each cut is handed in with it, and it comes back changed.
#![tactic(auto)]

ghost use Rattle.std.specs.Prelude.{◌≡◌, [], ◌++◌, ◌+◌, ◌-◌, ◌≤◌, ◌<◌, length, take, IfErr};
ghost use Rattle.laws.specs.Found.{nonzero};
ghost use Rattle.structure.specs.Slots.{width_at};
ghost use Rattle.forwarding.specs.Put.{put};
ghost use Rattle.tally.specs.Settle.{settle_of, Steady};
ghost use Rattle.judge.specs.Refusal.{number_of, verdict_in};
ghost use Rattle.reader.specs.State.{answer_in, counted_of, in_order, mid, view, eat, packed, judged_of, found_of, NewAs, FedAs, EndedAs};
ghost use Rattle.reader.specs.Eats.{ready_of, Ate};

use judge::{Refusal, Totals, Verdict};
use payments::Terms;
use structure::{Fault, Misfit};
use tally::Tally;

// The judge's answer, and how many characters the table changes in a sound file.
#[repr(C)]
#[derive(Clone, Copy)]
pub struct Answer {
    pub verdict: Verdict,
    pub changes: usize,
}

#[repr(C)]
#[derive(Clone, Copy)]
pub struct Reader {
    pub page: u32,
    // 0 while cuts may come; from the first end on, another number.
    pub ended: u32,
    // The bytes so far, up to one more than a file may have.
    pub bytes: usize,
    // What the whole records have shown.
    pub tally: Tally,
    // From the first end on, its answer. A number beside it, in place of an Option, is C's layout.
    pub answer: Answer,
    // The unfinished record: the first `have` of the bytes held. A length beside its bytes is C's layout.
    pub have: usize,
    pub held: [u8; 768],
}

// What an end answers, and the reader that was asked.
#[repr(C)]
#[derive(Drop)]
pub struct Read {
    pub reader: Reader,
    pub answer: Answer,
}

// The bytes so far, up to one more than a file may have: what comes after them changes nothing.
fn counted(bytes: usize, more: usize) -> usize
    ensures { result ≡ counted_of bytes more }
{
    bytes.saturating_add(more).min(7679745)
}

// The width of the next slot, where the bytes left fill it.
fn ready(stop: usize, next: usize, left: usize) -> Option<usize>
    ensures { result ≡ nonzero (ready_of stop next left) }
{
    if stop != 0 {
        return None;
    }
    let width = structure::width_at(next);
    if left < width {
        return None;
    }
    Some(width)
}

// More bytes of the unfinished record.
fn hold(mut held: [u8; 768], have: usize, more: &[u8]) -> [u8; 768]
    requires { have + length more.now ≤ 768 }
    ensures { result ≡ put have more.now held }
{
    held[have..have + more.len()].copy_from_slice(more);
    held
}

// A record across cuts: what was held of it, and the head of this cut.
fn across(terms: &Terms<'_>, tally: Tally, held: [u8; 768], have: usize, head: &[u8]) -> Tally
    requires { Steady tally × (have + length head.now ≡ width_at tally.next) }
    ensures { result ≡ settle_of terms.now.page terms.now.transfer.now terms.now.cheque.now tally (take have held ++ head.now) }
{
    if have == 0 {
        return tally.settle(terms, head);
    }
    let whole = hold(held, have, head);
    tally.settle(terms, &whole[..have + head.len()])
}

// What the records that lie whole in a cut have shown, and where the last of them ends.
#[derive(Drop)]
struct Along {
    tally: Tally,
    at: usize,
}

// From the start of a record on: each record that lies whole in the cut is judged where it lies.
fn whole_records(terms: &Terms<'_>, mut tally: Tally, cut: &[u8]) -> Along
    requires { Steady tally }
    ensures { Ate terms.now.page terms.now.transfer.now terms.now.cheque.now tally cut.now result.tally result.at }
{
    let mut at = 0;
    while let Some(width) = ready(tally.stop, tally.next, cut.len() - at) {
        let end = at + width;
        tally = tally.settle(terms, &cut[at..end]);
        at = end;
    }
    Along { tally, at }
}

// What every reading keeps; a state that lacks it comes from no call.
fn in_order(tally: Tally, have: usize) -> bool
    ensures { result ≡ in_order tally have }
{
    tally.is_steady() & (have < structure::width_at(tally.next))
}

// The changes are those of a sound file.
fn told(found: Result<Totals, Refusal>, changes: usize) -> Answer
    ensures { result ≡ answer_in changes found }
{
    Answer {
        verdict: Verdict::from(found),
        changes: if found.is_ok() { changes } else { 0 },
    }
}

impl Reader {
    #[tactic(auto, unfolding(crate::specs::State::new_of))]
    pub fn new(page: u32) -> Self
        ensures { NewAs page result }
    {
        Self {
            page,
            ended: 0,
            bytes: 0,
            tally: Tally::new(),
            answer: Answer {
                verdict: Verdict::refused(0, 0, 0),
                changes: 0,
            },
            have: 0,
            held: [0; 768],
        }
    }

    // The rest of a cut, from the start of a record on: what lies whole in it is settled, and what is left is held.
    fn rest(mut self, terms: &Terms<'_>, first: Tally, cut: &[u8]) -> Self
        requires { Steady first }
        ensures { result ≡ packed self (eat terms.now.page terms.now.transfer.now terms.now.cheque.now (mid first []) cut.now) }
    {
        let done = whole_records(terms, first, cut);
        self.tally = done.tally;
        if self.tally.stop != 0 {
            self.have = 0;
            return self;
        }
        let left = &cut[done.at..];
        self.held = hold(self.held, 0, left);
        self.have = left.len();
        self
    }

    fn eat(mut self, terms: &Terms<'_>, cut: &[u8]) -> Self
        requires { Steady self.tally × (self.have < width_at self.tally.next) }
        ensures { result ≡ packed self (eat terms.now.page terms.now.transfer.now terms.now.cheque.now (view self) cut.now) }
    {
        if self.tally.stop != 0 {
            return self;
        }
        let need = structure::width_at(self.tally.next) - self.have;
        let Some((head, rest)) = cut.split_at_checked(need) else {
            self.held = hold(self.held, self.have, cut);
            self.have += cut.len();
            return self;
        };
        let first = across(terms, self.tally, self.held, self.have, head);
        self.rest(terms, first, rest)
    }

    // A cut, with the lists by which the records that it completes are judged.
    #[tactic(auto, unfolding(crate::specs::State::fed_of))]
    pub fn feed(mut self, cut: &[u8], transfer: &[u8], cheque: &[u8]) -> Self
        ensures { FedAs self cut.now transfer.now cheque.now result }
    {
        if self.ended != 0 {
            return self;
        }
        if !in_order(self.tally, self.have) {
            return self;
        }
        self.bytes = counted(self.bytes, cut.len());
        let terms = Terms {
            page: self.page,
            transfer,
            cheque,
        };
        self.eat(&terms, cut)
    }

    #[tactic(auto, unfolding(crate::specs::State::judged_of))]
    fn judged(self) -> Result<Totals, Refusal>
        ensures answer { verdict_in result ≡ judged_of self }
        ensures real { IfErr result (λ r. number_of r ≡ 0 → ⊥) }
    {
        if !charset::is_page(self.page) {
            return Err(Refusal::NoSuchPage);
        }
        if !in_order(self.tally, self.have) {
            return Err(Refusal::from(Misfit {
                fault: Fault::CutShort,
                rec: 0,
            }));
        }
        self.tally
            .conclude(self.page, self.bytes, &self.held[..self.have])
    }

    #[tactic(auto, unfolding(crate::specs::State::found_of))]
    fn found(self, taken: &[u64]) -> Result<Totals, Refusal>
        ensures { answer_in self.tally.changes result ≡ found_of self taken.now }
    {
        let totals = self.judged()?;
        if fields::taken(taken, self.tally.number) {
            return Err(Refusal::Taken);
        }
        Ok(totals)
    }

    // The first end answers by its own list; every later one answers the same.
    #[tactic(auto, unfolding(crate::specs::State::end_of))]
    pub fn end(mut self, taken: &[u64]) -> Read
        ensures { EndedAs self taken.now result }
    {
        if self.ended == 0 {
            self.answer = told(self.found(taken), self.tally.changes);
            self.ended = 1;
        }
        Read {
            reader: self,
            answer: self.answer,
        }
    }
}
