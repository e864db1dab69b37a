// The forwarded file into the output, with its notes, record by record. A record's bytes are copied to their place. Where none of
// several text fields changes, they are looked at together; else each is noted, and where it has a note, replaced within its own
// stretch of the output.
#![tactic(auto)]

ghost use Rattle.std.specs.Prelude.{◌≡◌, List, [], ◌∷◌, ◌++◌, ◌+◌, ◌-◌, ◌≤◌, length};
ghost use Rattle.charset.specs.Table.{rep};
ghost use Rattle.records.specs.declared.Span.{Span};
ghost use Rattle.forwarding.specs.Text.{lies, q_texts, t_texts};
ghost use Rattle.forwarding.specs.Forwarded.{fwd, forwarded, notes_of};
ghost use Rattle.forwarding.specs.Put.{put};
ghost use Rattle.forwarding.specs.Fields.{field_notes};
ghost use Rattle.forwarding.specs.Numbered.{texts_from};
ghost use Rattle.forwarding.specs.Noted.{Noted};
ghost use Rattle.forwarding.specs.Pieces.{sent_in, noted_in};
ghost use Rattle.forwarding.specs.Sized.{Sized, z_at};
ghost use Rattle.place.specs.Placing.{TheseLie};

use records::{Field, Q, QField, Span, T, Z};
use std::ops::Range;

// A text field of a record that stands at a place of the file, in its stretch of the part; whichever fields were replaced there
// before. Few have a note.
fn field(
    page: u32,
    rec: &[u8],
    text: Span,
    part: &mut [u8],
    at: usize,
    notes: &mut [u32],
    have: usize,
) -> usize
    requires { (text.start ≤ text.end) × (text.end + 15 ≤ length rec.now) × (length part.old ≡ length rec.now) × (at + length rec.now ≤ 7679744) × (have + length (field_notes (text ∷ []) at rec.now) ≤ length notes.old) }
    ensures output { (ss : List Span) → part.old ≡ fwd (rep page) (lies ss) 0 rec.now → part.new ≡ fwd (rep page) (lies (ss ++ (text ∷ []))) 0 rec.now }
    ensures noted { Noted (field_notes (text ∷ []) at rec.now) have notes.old notes.new result }
{
    let n = note::field(
        &rec[text.start..],
        text.end - text.start,
        at + text.start,
        notes,
        have,
    );
    if n != have {
        charset::replace(page, &mut part[text.start..text.end]);
    }
    n
}

// A record into its part of the output, and its notes. The part stays a slice, here and below: as an array it would take an
// `as_mut_array().unwrap()` at each place that cuts it from the output, to save its length in three clauses.
pub fn q_record(page: u32, rec: &[u8; 256], part: &mut [u8], notes: &mut [u32]) -> usize
    requires { (length part.old ≡ 256) × (length (field_notes q_texts 0 rec.now) ≤ length notes.old) }
    ensures output { part.new ≡ fwd (rep page) (lies q_texts) 0 rec.now }
    ensures noted { Noted (field_notes q_texts 0 rec.now) 0 notes.old notes.new result }
{
    part.copy_from_slice(rec);
    field(page, rec, QField::Q5.place(), part, 0, notes, 0)
}

// The text fields of these numbers, which lie in the 320 bytes from a place of the record on. Where none of these changes, no
// field has to be asked by itself.
fn some_fields(
    page: u32,
    rec: &[u8; 768],
    from: usize,
    numbers: Range<usize>,
    part: &mut [u8],
    at: usize,
    notes: &mut [u32],
    have: usize,
) -> usize
    requires { (length part.old ≡ 768) × (at + 768 ≤ 7679744) × TheseLie from numbers.start numbers.end × (have + length (field_notes (texts_from numbers.start numbers.end) at rec.now) ≤ length notes.old) }
    ensures output { (ss : List Span) → part.old ≡ fwd (rep page) (lies ss) 0 rec.now → part.new ≡ fwd (rep page) (lies (ss ++ texts_from numbers.start numbers.end)) 0 rec.now }
    ensures noted { Noted (field_notes (texts_from numbers.start numbers.end) at rec.now) have notes.old notes.new result }
{
    if count::none(&rec[from..from + 320]) {
        return have;
    }
    let mut n = have;
    for k in numbers.start..numbers.end {
        n = field(page, rec, T::text(k), part, at, notes, n);
    }
    n
}

// The text fields of a T record whose bytes the part has: T8 to T10b, from place 53 on, and T12 to T24, from place 420 on.
fn t_fields(
    page: u32,
    rec: &[u8; 768],
    part: &mut [u8],
    at: usize,
    notes: &mut [u32],
    have: usize,
) -> usize
    requires { (part.old ≡ rec.now) × (at + 768 ≤ 7679744) × (have + length (field_notes t_texts at rec.now) ≤ length notes.old) }
    ensures output { part.new ≡ fwd (rep page) (lies t_texts) 0 rec.now }
    ensures noted { Noted (field_notes t_texts at rec.now) have notes.old notes.new result }
{
    let n = some_fields(page, rec, 53, 2..5, part, at, notes, have);
    some_fields(page, rec, 420, 5..10, part, at, notes, n)
}

// The same of a T record that stands at a place of the file, with its notes behind those that there are.
pub fn t_record(
    page: u32,
    rec: &[u8; 768],
    part: &mut [u8],
    at: usize,
    notes: &mut [u32],
    have: usize,
) -> usize
    requires { (length part.old ≡ 768) × (at + 768 ≤ 7679744) × (have + length (field_notes t_texts at rec.now) ≤ length notes.old) }
    ensures output { part.new ≡ fwd (rep page) (lies t_texts) 0 rec.now }
    ensures noted { Noted (field_notes t_texts at rec.now) have notes.old notes.new result }
{
    part.copy_from_slice(rec);
    t_fields(page, rec, part, at, notes, have)
}

// The T records, each at its own place, with their notes behind those that the places have. The output goes by offsets: of chunks
// of it that are written, as_chunks_mut does not say what the whole ends as.
fn payments(page: u32, file: &[u8], out: &mut [u8], notes: &mut [u32], have: usize) -> usize
    requires { Sized file.now × (length file.now ≤ length out.old) × (have + length (noted_in 0 256 (z_at file.now) file.now) ≤ length notes.old) }
    ensures output { out.new ≡ put 256 (sent_in page 256 (z_at file.now) file.now) out.old }
    ensures noted { Noted (noted_in 0 256 (z_at file.now) file.now) have notes.old notes.new result }
{
    let mut n = have;
    for (k, t) in count::t_records(file).iter().enumerate() {
        let at = Q::LENGTH + T::LENGTH * k;
        n = t_record(page, t, &mut out[at..at + T::LENGTH], at, notes, n);
    }
    n
}

// A file for which there is room, and how many notes there are.
pub fn file(page: u32, file: &[u8], out: &mut [u8], notes: &mut [u32]) -> usize
    requires { Sized file.now × (length file.now ≤ length out.old) × (length (notes_of page file.now) ≤ length notes.old) }
    ensures output { out.new ≡ put 0 (forwarded page file.now) out.old }
    ensures noted { Noted (notes_of page file.now) 0 notes.old notes.new result }
{
    let q = file.first_chunk().unwrap();
    let have = q_record(page, q, &mut out[0..Q::LENGTH], notes);
    let n = payments(page, file, out, notes, have);
    let all = file.len();
    let end = all - Z::LENGTH;
    out[end..all].copy_from_slice(&file[end..]);
    n
}
