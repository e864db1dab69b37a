// How many characters the table changes, field by field: as many as there are notes, whatever the page. And whether it
// changes any.
#![tactic(auto)]

ghost use Rattle.std.specs.Prelude.{◌≡◌, ℕ, ◌≤◌, eqb, length};
ghost use Rattle.forwarding.specs.Text.{q_texts, t_texts};
ghost use Rattle.forwarding.specs.Forwarded.{notes_of};
ghost use Rattle.forwarding.specs.Changes.{changed, changes};
ghost use Rattle.forwarding.specs.Fields.{field_changes};
ghost use Rattle.forwarding.specs.Sized.{Sized};
ghost use Rattle.forwarding.specs.Turns.{turns};

use records::{Q, QField, T, Z};

// 1 for a character that is changed. A number, since it is added up, and moves the place of the next note, without jumps.
pub fn changed(b: u8) -> u8
    ensures { result ≡ changed b }
{
    if charset::unchanged(b) { 0 } else { 1 }
}

// Of a text field. No field has more than 140 characters, so a byte holds the count, and a step counts many.
pub fn field(s: &[u8]) -> usize
    requires { length s.now ≤ 140 }
    ensures { result ≡ changes s.now }
{
    let mut n: u8 = 0;
    for b in s {
        n += changed(*b);
    }
    usize::from(n)
}

// Whether a text has none. The fold ends with the text and no sooner, so that it is compiled to many bytes a step.
pub fn none(s: &[u8]) -> bool
    ensures { result ≡ eqb (changes s.now) 0 }
{
    s.iter().fold(true, |ok, b| ok & charset::unchanged(*b))
}

pub fn q_record(rec: &[u8; 256]) -> usize
    ensures { result ≡ field_changes q_texts rec.now }
{
    field(records::bytes(rec, QField::Q5))
}

// By the numbers of the fields, as the laws go: a list of fields would be no plainer.
pub fn t_record(rec: &[u8; 768]) -> usize
    ensures { result ≡ field_changes t_texts rec.now }
{
    let mut n = 0;
    for k in 2..10 {
        n += field(records::part(rec, T::text(k)));
    }
    n
}

// The T records of a file.
pub fn t_records(file: &[u8]) -> &[[u8; 768]]
    requires { Sized file.now }
    ensures { result.now ≡ turns file.now }
{
    file[Q::LENGTH..file.len() - Z::LENGTH].as_chunks().0
}

// Of a file: Q and each T record; Z has no text.
pub fn file(file: &[u8]) -> usize
    requires { Sized file.now }
    ensures { (page : ℕ) → result ≡ length (notes_of page file.now) }
{
    let mut n = q_record(file.first_chunk().unwrap());
    for t in t_records(file) {
        n += t_record(t);
    }
    n
}

// Whether a T record has none. From T8 on to eleven bytes behind T24, nothing but text would change in a sound record, if the
// lists from which T9a and T10a are hold letters: so mostly one look at these 672 bytes, 21 steps of 32, is enough.
fn t_none(rec: &[u8; 768]) -> bool
    ensures { result ≡ eqb (field_changes t_texts rec.now) 0 }
{
    none(&rec[53..725]) || t_record(rec) == 0
}

// Whether a file has none.
pub fn nothing(file: &[u8]) -> bool
    requires { Sized file.now }
    ensures { (page : ℕ) → result ≡ eqb (length (notes_of page file.now)) 0 }
{
    if q_record(file.first_chunk().unwrap()) != 0 {
        return false;
    }
    let all = t_records(file);
    for t in all {
        if !t_none(t) {
            return false;
        }
    }
    true
}
