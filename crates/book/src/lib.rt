// The book of taken files. A book is a value: it is handed in with each take, and comes back with the answer.
#![tactic(auto)]

ghost use Rattle.std.specs.Prelude.{◌≡◌, ◌<◌, ◌==◌, []};
ghost use Rattle.book.specs.Model.{model, is_forgotten, is_too_large, holds};
ghost use Rattle.book.specs.Kept.{entry_of, held_in, book_of, taken_of, NewBookAs, TakenAs, TotalsAs};
ghost use Rattle.book.specs.Laws.{on_day, with_entry};
ghost use Rattle.book.specs.Told.{number_of, told};

const PLACES: usize = 200;

const MOST_PAYMENTS: u64 = 9999;

const MOST_EUROS: u64 = 999999999999999;

// A file's number, the business day on which it was taken, and the file's payments and whole euros.
#[repr(C)]
#[derive(Clone, Copy)]
pub struct Entry {
    pub number: u64,
    pub day: u32,
    pub payments: u64,
    pub euros: u64,
}

// A count beside its places, in place of a Vec, is C's layout, and a book takes no memory but its own.
#[repr(C)]
#[derive(Clone, Copy)]
pub struct Book {
    // The day of the last take that was not refused; of a new book, 0.
    pub day: u32,
    // How many numbers are held: the first so many places.
    pub held: usize,
    // The totals over what is held.
    pub payments: u64,
    pub euros: u64,
    pub places: [Entry; PLACES],
}

// What a take answers, 0 or the number of a refusal, and the book after it. The number in place of a Refusal is C's layout.
#[repr(C)]
#[derive(Drop)]
pub struct Taken {
    pub book: Book,
    pub number: usize,
}

// Why a take is refused.
#[derive(Clone, Copy, PartialEq, Eq)]
enum Refusal {
    Held,
    Full,
    TooEarly,
    TooLarge,
}

// What a book says of itself: how many files are held, and the totals over them.
#[repr(C)]
#[derive(Drop)]
pub struct Totals {
    pub files: usize,
    pub payments: u64,
    pub euros: u64,
}

fn is_too_large(entry: Entry) -> bool
    ensures { result ≡ is_too_large entry }
{
    (MOST_PAYMENTS < entry.payments) | (MOST_EUROS < entry.euros)
}

// The days are subtracted: a sum could exceed the last day.
fn is_forgotten(entry: Entry, day: u32) -> bool
    ensures { result ≡ is_forgotten day entry }
{
    5 <= day.saturating_sub(entry.day)
}

impl Refusal {
    fn number(self) -> usize
        ensures { result ≡ number_of self }
    {
        match self {
            Self::Held => 50,
            Self::Full => 51,
            Self::TooEarly => 52,
            Self::TooLarge => 53,
        }
    }
}

impl Book {
    // The book of a day on which nothing is held.
    fn empty(day: u32) -> Self
        ensures { result ≡ book_of (model day []) }
    {
        let none = Entry {
            number: 0,
            day: 0,
            payments: 0,
            euros: 0,
        };
        Self {
            day,
            held: 0,
            payments: 0,
            euros: 0,
            places: [none; PLACES],
        }
    }

    #[tactic(auto, unfolding(crate::specs::Kept::new_of))]
    pub fn new() -> Self
        ensures { NewBookAs result }
    {
        Self::empty(0)
    }

    // One more entry, in the place behind those that are held. The sums wrap, as the totals do of a book with figures that no
    // take passes.
    fn put(&mut self, entry: Entry)
        requires { self.old.held < 200 }
        ensures { self.new ≡ with_entry self.old entry }
    {
        self.places[self.held] = entry;
        self.held += 1;
        self.payments = self.payments.wrapping_add(entry.payments);
        self.euros = self.euros.wrapping_add(entry.euros);
    }

    // The places that are read: as many as the book says, and at most all.
    fn filled(&self) -> &[Entry]
        ensures { result.now ≡ held_in self.now }
    {
        &self.places[..self.held.min(PLACES)]
    }

    // The book on a day, without what is forgotten by then.
    fn on(self, day: u32) -> Self
        ensures { result ≡ on_day self day }
    {
        let mut kept = Self::empty(day);
        for entry in self.filled() {
            if !is_forgotten(*entry, day) {
                kept.put(*entry);
            }
        }
        kept
    }

    fn holds(&self, number: u64) -> bool
        ensures { result ≡ holds number (held_in self.now) }
    {
        self.filled().iter().any(|entry| entry.number == number)
    }

    fn is_full(&self) -> bool
        ensures { result ≡ (self.now.held == 200) }
    {
        self.held == PLACES
    }

    // The book after a take.
    #[tactic(auto, using(crate::proofs::Taking::too_large, crate::proofs::Taking::too_early))]
    fn after(self, entry: Entry) -> Result<Self, Refusal>
        ensures { told self result ≡ taken_of self entry }
    {
        if is_too_large(entry) {
            return Err(Refusal::TooLarge);
        }
        if entry.day < self.day {
            return Err(Refusal::TooEarly);
        }
        let mut kept = self.on(entry.day);
        if kept.holds(entry.number) {
            return Err(Refusal::Held);
        }
        if kept.is_full() {
            return Err(Refusal::Full);
        }
        kept.put(entry);
        Ok(kept)
    }

    pub fn take(self, number: u64, day: u32, payments: u64, euros: u64) -> Taken
        ensures { TakenAs self (entry_of number day payments euros) result }
    {
        let entry = Entry {
            number,
            day,
            payments,
            euros,
        };
        match self.after(entry) {
            Ok(book) => Taken { book, number: 0 },
            Err(refusal) => Taken {
                book: self,
                number: refusal.number(),
            },
        }
    }

    // As they are stored: nothing is added up.
    #[tactic(auto, unfolding(crate::specs::Kept::totals_of))]
    pub fn totals(self) -> Totals
        ensures { TotalsAs self result }
    {
        Totals {
            files: self.held,
            payments: self.payments,
            euros: self.euros,
        }
    }
}
