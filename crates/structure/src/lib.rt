// The walk over a file's records.
#![tactic(auto)]

ghost use Rattle.std.specs.Prelude.{◌≡◌, ◌+◌, ◌-◌, ◌≤◌, ◌<◌, length, take, drop};
ghost use Rattle.fields.specs.Class.{same};
ghost use Rattle.records.specs.Places.{record_at};
ghost use Rattle.structure.specs.Slots.{width_at, slot_at};
ghost use Rattle.structure.specs.Walk.{allowed, length_for, digits_of, digits_for, fault_in, structure_of};
ghost use Rattle.structure.specs.Whole.{whole_t};
ghost use Rattle.structure.specs.Found.{fault_number, found, shape_of};

use records::{Q, T, Z};

// What breaks at a record, or the whole file where it is too long.
#[derive(Clone, Copy, PartialEq, Eq)]
pub enum Fault {
    TooLong,
    CutShort,
    WrongLength,
    WrongLetter,
    BehindZ,
}

impl Fault {
    // The number of the rule that says so (RULES 7).
    pub fn number(self) -> usize
        ensures { result ≡ fault_number self }
    {
        match self {
            Fault::TooLong => 1,
            Fault::CutShort => 2,
            Fault::WrongLength => 3,
            Fault::WrongLetter => 4,
            Fault::BehindZ => 5,
        }
    }
}

// What breaks, and the record that it breaks at.
#[derive(Clone, Copy, PartialEq, Eq)]
pub struct Misfit {
    pub fault: Fault,
    pub rec: usize,
}

pub fn width_at(k: usize) -> usize
    ensures { result ≡ width_at k }
{
    if k == 0 {
        return Q::LENGTH;
    }
    T::LENGTH
}

// The bytes from a place on, up to so many.
pub fn up_to(bytes: &[u8], at: usize, width: usize) -> &[u8]
    requires { at ≤ length bytes.now }
    ensures { result.now ≡ take width (drop at bytes.now) }
{
    let rest = &bytes[at..];
    &rest[..rest.len().min(width)]
}

// The slot of record k.
#[tactic(auto, unfolding(crate::specs::Slots::slot_at))]
pub fn slot(file: &[u8], k: usize) -> &[u8]
    requires { (k ≤ 10000) × (record_at k ≤ length file.now) }
    ensures { result.now ≡ slot_at file.now k }
{
    up_to(file, records::record_at(k), width_at(k))
}

// Record k, where its slot has N bytes.
pub fn whole<const N: usize>(file: &[u8], k: usize) -> &[u8; N]
    requires { (k ≤ 10000) × (record_at k ≤ length file.now) × (length (slot_at file.now k) ≡ N) }
    ensures { result.now ≡ slot_at file.now k }
{
    slot(file, k).as_array::<N>().unwrap()
}

// Only Q at record 0, only T at record 1, T or Z later.
fn is_allowed(k: usize, letter: u8) -> bool
    ensures { result ≡ allowed k letter }
{
    if k == 0 {
        return letter == Q::LETTER;
    }
    (letter == T::LETTER) | ((letter == Z::LETTER) & (2 <= k))
}

fn length_for(letter: u8) -> usize
    ensures { result ≡ length_for letter }
{
    if letter == T::LETTER {
        return T::LENGTH;
    }
    Z::LENGTH
}

// The length digits are those of the letter.
fn digits_right(slot: &[u8], letter: u8) -> bool
    requires { 5 ≤ length slot.now }
    ensures { result ≡ same (digits_of slot.now) (digits_for letter) }
{
    if letter == T::LETTER {
        return fields::same(&slot[0..4], b"0768");
    }
    fields::same(&slot[0..4], b"0256")
}

// What breaks at record k, by its slot.
#[tactic(auto, unfolding(crate::specs::Walk::fault_in))]
pub fn fault_in(k: usize, slot: &[u8]) -> Result<(), Fault>
    ensures { found result ≡ fault_in k slot.now }
{
    let left = slot.len();
    if left < 5 {
        return Err(Fault::CutShort);
    }
    let letter = slot[4];
    if !is_allowed(k, letter) {
        return Err(Fault::WrongLetter);
    }
    if !digits_right(slot, letter) {
        return Err(Fault::WrongLength);
    }
    if left < length_for(letter) {
        return Err(Fault::CutShort);
    }
    if (letter == Z::LETTER) & (Z::LENGTH < left) {
        return Err(Fault::BehindZ);
    }
    Ok(())
}

// A whole T record behind Q: most records are one, and are asked for nothing more.
fn whole_t(k: usize, slot: &[u8]) -> bool
    ensures { result ≡ whole_t k slot.now }
{
    if (k == 0) | (slot.len() < T::LENGTH) {
        return false;
    }
    fields::same(&slot[0..5], b"0768T")
}

// The walk over the whole file: its number of T records. Records 0 to 10,000 are all that 7,679,744 bytes can hold.
#[tactic(auto, unfolding(crate::specs::Walk::structure_of))]
pub fn walk(file: &[u8]) -> Result<usize, Misfit>
    ensures { shape_of result ≡ structure_of file.now }
{
    if 7679744 < file.len() {
        return Err(Misfit {
            fault: Fault::TooLong,
            rec: 0,
        });
    }
    for k in 0..10001 {
        let rec = slot(file, k);
        if whole_t(k, rec) {
            continue;
        }
        if let Err(fault) = fault_in(k, rec) {
            return Err(Misfit { fault, rec: k });
        }
        if rec[4] == Z::LETTER {
            return Ok(k - 1);
        }
    }
    unreachable!()
}
