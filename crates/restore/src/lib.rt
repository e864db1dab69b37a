// Restore: the original of a forwarded file and its notes.
#![tactic(auto)]

ghost use Rattle.std.specs.Prelude.{◌≡◌, true, ◌≤◌, ◌<◌, ◌&&◌, leb, ltb, length};
ghost use Rattle.charset.specs.Table.{rep};
ghost use Rattle.forwarding.specs.Text.{t_texts, lies, text_at};
ghost use Rattle.forwarding.specs.Put.{put};
ghost use Rattle.restore.specs.ByNotes.{fits, note_of, notes_fit, in_file, put_notes};
ghost use Rattle.restore.specs.Answer.{restored_in};
ghost use Rattle.restore.specs.Restored.{is_yielded, RestoredAs};

use judge::Refusal;
use payments::Terms;
use records::{Q, Span, T, Z};

// Number 0: restored. Else 7, 60 or 70. The record is always 0. A number in place of a Refusal is C's layout.
#[repr(C)]
#[derive(Drop)]
pub struct Restored {
    pub number: usize,
    pub rec: usize,
}

impl From<Result<(), Refusal>> for Restored {
    ghost from_gives = { λ given r. r ≡ restored_in given };

    fn from(given: Result<(), Refusal>) -> Self {
        match given {
            Ok(()) => Self { number: 0, rec: 0 },
            Err(why) => Self {
                number: why.number(),
                rec: why.rec(),
            },
        }
    }
}

// A note: a place of the file, and the byte that stood there.
#[derive(Clone, Copy)]
struct Note {
    place: usize,
    byte: u8,
}

impl From<u32> for Note {
    ghost from_gives = { λ v n. n ≡ note_of v };

    fn from(note: u32) -> Note {
        Note {
            place: (note / 256) as usize,
            byte: (note % 256) as u8,
        }
    }
}

// Whether a place of a record begins at i or before it, and ends after it.
fn holds(at: Span, i: usize) -> bool
    ensures { result ≡ leb at.start i && ltb i at.end }
{
    (at.start <= i) & (i < at.end)
}

// Whether an offset of a T record lies in one of its text fields.
fn in_text(offset: usize) -> bool
    ensures { result ≡ lies t_texts offset }
{
    (2..10).any(|k| holds(T::text(k), offset))
}

// Whether a place of a file of n bytes is text.
#[tactic(auto, using(crate::specs::Found::text_past, crate::specs::Found::text_in_q, crate::specs::Found::text_in_t))]
fn is_text(n: usize, i: usize) -> bool
    ensures { result ≡ text_at n i }
{
    if n.saturating_sub(Z::LENGTH) <= i {
        return false;
    }
    if i < Q::LENGTH {
        return holds(Q::text(1), i);
    }
    in_text((i - Q::LENGTH) % T::LENGTH)
}

// A note about place `from` or a later one: its byte is changed there, and becomes the byte that the file has.
#[tactic(auto, using(crate::specs::Found::text_below, crate::specs::Found::note_on))]
fn note_fits(page: u32, file: &[u8], from: usize, note: Note) -> bool
    ensures { result ≡ fits (rep page) (text_at (length file.now)) file.now from note }
{
    if note.place < from || !is_text(file.len(), note.place) {
        return false;
    }
    let b = charset::replaced(page, note.byte);
    (b != note.byte) & (b == file[note.place])
}

// Every note fits, by rising place.
fn notes_fit(page: u32, file: &[u8], notes: &[u32]) -> bool
    ensures { result ≡ notes_fit (rep page) (text_at (length file.now)) file.now 0 notes.now }
{
    let mut from = 0;
    for &code in notes {
        let note = Note::from(code);
        if !note_fits(page, file, from, note) {
            return false;
        }
        from = note.place + 1;
    }
    true
}

// Each note's byte is put at its place.
fn put_back(notes: &[u32], out: &mut [u8])
    requires { in_file (length out.old) notes.now ≡ true }
    ensures { out.new ≡ put_notes out.old notes.now }
{
    for &note in notes {
        let Note { place, byte } = Note::from(note);
        out[place] = byte;
    }
}

// Some sound file yields the pair: the forwarded file is sound, nothing is left to replace in it, and every note fits.
#[tactic(auto, using(crate::specs::Told::sound_is, crate::specs::Told::yielded_is))]
fn is_yielded(terms: &Terms<'_>, forwarded: &[u8], notes: &[u32]) -> bool
    ensures { result ≡ is_yielded terms.now.page forwarded.now notes.now terms.now.transfer.now terms.now.cheque.now }
{
    judge::examine(terms, forwarded).is_ok()
        && count::nothing(forwarded)
        && notes_fit(terms.page, forwarded, notes)
}

// The forwarded file is copied to the front of the output, and the notes are put back there.
fn write(forwarded: &[u8], notes: &[u32], out: &mut [u8])
    requires { (length forwarded.now ≤ length out.old) × (in_file (length forwarded.now) notes.now ≡ true) }
    ensures { out.new ≡ put 0 (put_notes forwarded.now notes.now) out.old }
{
    out[..forwarded.len()].copy_from_slice(forwarded);
    put_back(notes, out);
}

// A page that does not exist is 7, before anything is read; then 60, then 70. Nothing is written before everything is
// checked.
fn give_back(
    terms: &Terms<'_>,
    forwarded: &[u8],
    notes: &[u32],
    out: &mut [u8],
) -> Result<(), Refusal>
    ensures { RestoredAs terms.now.page forwarded.now notes.now terms.now.transfer.now terms.now.cheque.now out.old (restored_in result) out.new }
{
    if !charset::is_page(terms.page) {
        return Err(Refusal::NoSuchPage);
    }
    if out.len() < forwarded.len() {
        return Err(Refusal::OutputRoom);
    }
    if is_yielded(terms, forwarded, notes) {
        write(forwarded, notes, out);
        return Ok(());
    }
    Err(Refusal::NoSuchPair)
}

pub fn restore(
    page: u32,
    forwarded: &[u8],
    notes: &[u32],
    transfer: &[u8],
    cheque: &[u8],
    out: &mut [u8],
) -> Restored
    ensures { RestoredAs page forwarded.now notes.now transfer.now cheque.now out.old result out.new }
{
    let terms = Terms {
        page,
        transfer,
        cheque,
    };
    Restored::from(give_back(&terms, forwarded, notes, out))
}
