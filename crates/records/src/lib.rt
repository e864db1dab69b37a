// The record kinds, and where their fields stand.
#![tactic(auto)]

ghost use Rattle.std.specs.Prelude.{◌≡◌, ◌≤◌, ◌<◌, length};
ghost use Rattle.records.specs.declared.Span.{Span};
ghost use Rattle.records.specs.Inside.{Held, Inside, q_inside, t_inside, z_inside, q_behind, t_behind, z_behind};
ghost use Rattle.records.specs.Places.{◌to◌, record_at, line_of, PartOf, q_place, t_place, z_place, q_text, t_text};

// A place in a record: the first offset, and the one after the last.
#[derive(Clone, Copy, PartialEq, Eq)]
pub struct Span {
    pub start: usize,
    pub end: usize,
}

// A place as document 01 writes it: its first and its last offset.
fn to(first: usize, last: usize) -> Span
    requires { last < 768 }
    ensures { result ≡ first to last }
{
    Span {
        start: first,
        end: last + 1,
    }
}

// The bytes at a place, where the caller has them.
#[tactic(auto, unfolding(crate::specs::Places::part))]
pub fn part(rec: &[u8], at: Span) -> &[u8]
    requires { (at.start ≤ at.end) × (at.end ≤ length rec.now) }
    ensures { PartOf at rec.entry.ref_ptr rec.now result.ref_ptr result.now }
{
    &rec[at.start..at.end]
}

// Line 1, 2, 3 or 4 of a field of four lines of 35.
pub fn line(field: Span, k: usize) -> Span
    requires { (field.start ≤ 768) × ((1 ≤ k) × (k ≤ 4)) }
    ensures { result ≡ line_of field k }
{
    Span {
        start: field.start + 35 * (k - 1),
        end: field.start + 35 * k,
    }
}

// The fields of a kind of record of N bytes: where each stands, and that it lies in the record, behind its head.
pub trait Field<const N: usize> {
    ghost place: { Self → Span };

    fn place(self) -> Span
        ensures { result ≡ place self };

    ghost inside: { (f : Self) → Inside N (place f) };

    ghost behind: { (f : Self) → 5 ≤ (place f).start };
}

// The bytes of a field.
pub fn bytes<const N: usize, F: Field<N> + Copy>(rec: &[u8; N], f: F) -> &[u8]
    ensures { Held (F.place f) rec.now result.now }
{
    part(rec, f.place())
}

// Where record k stands in a file.
pub fn record_at(k: usize) -> usize
    requires { k ≤ 10000 }
    ensures { result ≡ record_at k }
{
    if k == 0 {
        return 0;
    }
    Q::LENGTH + T::LENGTH * (k - 1)
}

// Record 0: the office that sends the file.
#[derive(Drop)]
pub struct Q {}

#[derive(Clone, Copy, PartialEq, Eq)]
pub enum QField {
    Q3,
    Q4,
    Q5,
    Q6,
    Q7,
    Q8,
    Q9,
    Q10,
    Q11,
    Q12,
}

impl Field<256> for QField {
    ghost place = { q_place };

    ghost inside = { q_inside };

    ghost behind = { q_behind };

    fn place(self) -> Span {
        match self {
            QField::Q3 => to(5, 12),
            QField::Q4 => to(13, 22),
            QField::Q5 => to(23, 162),
            QField::Q6 => to(163, 168),
            QField::Q7 => to(169, 170),
            QField::Q8 => to(171, 176),
            QField::Q9 => to(177, 177),
            QField::Q10 => to(178, 179),
            QField::Q11 => to(180, 187),
            QField::Q12 => to(188, 255),
        }
    }
}

impl Q {
    pub const LETTER: u8 = b'Q';

    pub const LENGTH: usize = 256;

    // The place of text field k; an empty place where a Q record has none of that number, as q_text has it, on which the laws of
    // texts rest.
    pub fn text(k: usize) -> Span
        ensures { result ≡ q_text k }
    {
        match k {
            1 => QField::Q5.place(),
            _ => Span { start: 0, end: 0 },
        }
    }
}

// Records 1 and up: one payment each.
#[derive(Drop)]
pub struct T {}

#[derive(Clone, Copy, PartialEq, Eq)]
pub enum TField {
    T3,
    T4a,
    T4b,
    T5,
    T6,
    T7a,
    T7b,
    T8,
    T9a,
    T9b,
    T10a,
    T10b,
    T11,
    T12,
    T13,
    T14a,
    T14b,
    T15,
    T16,
    T17,
    T18,
    T19,
    T20,
    T21,
    T22,
    T23,
    T24,
    T25,
    T26,
    T27,
}

impl Field<768> for TField {
    ghost place = { t_place };

    ghost inside = { t_inside };

    ghost behind = { t_behind };

    fn place(self) -> Span {
        match self {
            TField::T3 => to(5, 12),
            TField::T4a => to(13, 15),
            TField::T4b => to(16, 25),
            TField::T5 => to(26, 31),
            TField::T6 => to(32, 39),
            TField::T7a => to(40, 42),
            TField::T7b => to(43, 52),
            TField::T8 => to(53, 63),
            TField::T9a => to(64, 66),
            TField::T9b => to(67, 206),
            TField::T10a => to(207, 209),
            TField::T10b => to(210, 349),
            TField::T11 => to(350, 419),
            TField::T12 => to(420, 454),
            TField::T13 => to(455, 457),
            TField::T14a => to(458, 471),
            TField::T14b => to(472, 474),
            TField::T15 => to(475, 614),
            TField::T16 => to(615, 616),
            TField::T17 => to(617, 618),
            TField::T18 => to(619, 620),
            TField::T19 => to(621, 622),
            TField::T20 => to(623, 647),
            TField::T21 => to(648, 649),
            TField::T22 => to(650, 651),
            TField::T23 => to(652, 678),
            TField::T24 => to(679, 713),
            TField::T25 => to(714, 714),
            TField::T26 => to(715, 765),
            TField::T27 => to(766, 767),
        }
    }
}

impl T {
    pub const LETTER: u8 = b'T';

    pub const LENGTH: usize = 768;

    // The place of text field k; an empty place where a T record has none of that number, as t_text has it.
    pub fn text(k: usize) -> Span
        ensures { result ≡ t_text k }
    {
        match k {
            2 => TField::T8.place(),
            3 => TField::T9b.place(),
            4 => TField::T10b.place(),
            5 => TField::T12.place(),
            6 => TField::T15.place(),
            7 => TField::T20.place(),
            8 => TField::T23.place(),
            9 => TField::T24.place(),
            _ => Span { start: 0, end: 0 },
        }
    }
}

// The last record: the control totals.
#[derive(Drop)]
pub struct Z {}

#[derive(Clone, Copy, PartialEq, Eq)]
pub enum ZField {
    Z3,
    Z4,
    Z5,
}

impl Field<256> for ZField {
    ghost place = { z_place };

    ghost inside = { z_inside };

    ghost behind = { z_behind };

    fn place(self) -> Span {
        match self {
            ZField::Z3 => to(5, 19),
            ZField::Z4 => to(20, 34),
            ZField::Z5 => to(35, 255),
        }
    }
}

impl Z {
    pub const LETTER: u8 = b'Z';

    pub const LENGTH: usize = 256;
}
