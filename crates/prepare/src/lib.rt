// Prepare a file for forwarding: the forwarded file into the output, and a note of each changed character. The strict way
// takes a sound file whole; the default way sends the payments that break no rule, and names the others.
#![tactic(auto)]

ghost use Rattle.std.specs.Prelude.{◌≡◌, ◌-◌, ◌/◌, ◌≤◌, ◌<◌, length, Ok, IfErr, MatchResult};
ghost use Rattle.forwarding.specs.Forwarded.{forwarded, notes_of};
ghost use Rattle.forwarding.specs.Put.{put};
ghost use Rattle.forwarding.specs.Most.{text_length};
ghost use Rattle.forwarding.specs.Noted.{Noted};
ghost use Rattle.forwarding.specs.Sized.{Sized};
ghost use Rattle.judge.specs.Refusal.{number_of};
ghost use Rattle.sorting.specs.Answer.{sorted_of};
ghost use Rattle.prepare.specs.Answer.{prepared_in, Short};
ghost use Rattle.prepare.specs.Prepared.{SentAs, PreparedAs};
ghost use Rattle.prepare.specs.Default.{DefaultAs};
ghost use Rattle.prepare.specs.DefaultOutcome.{room_missing};

use judge::Refusal;
use payments::Terms;
use sorting::{Going, Sorted};

// Number 0, record 0 and how many notes there are; or the number of a refusal, its record, and 0. A number in
// place of a Refusal is C's layout.
#[repr(C)]
#[derive(Drop)]
pub struct Prepared {
    pub number: usize,
    pub rec: usize,
    pub notes: usize,
}

impl From<Result<usize, Refusal>> for Prepared {
    ghost from_gives = { λ sent p. p ≡ prepared_in sent };

    fn from(sent: Result<usize, Refusal>) -> Self {
        match sent {
            Ok(notes) => Self {
                number: 0,
                rec: 0,
                notes,
            },
            Err(why) => Self {
                number: why.number(),
                rec: why.rec(),
                notes: 0,
            },
        }
    }
}

// Output and notes of a file with so many changes, for which there is room, and how many notes there are. Where there are none,
// it goes on as it is.
#[tactic(auto, using(crate::specs::Outcome::same_output, crate::specs::Outcome::same_notes))]
fn write(page: u32, file: &[u8], changes: usize, out: &mut [u8], notes: &mut [u32]) -> usize
    requires { Sized file.now × (length file.now ≤ length out.old) × (changes ≡ length (notes_of page file.now)) × (changes ≤ length notes.old) }
    ensures output { out.new ≡ put 0 (forwarded page file.now) out.old }
    ensures noted { Noted (notes_of page file.now) 0 notes.old notes.new result }
{
    if changes == 0 {
        out[..file.len()].copy_from_slice(file);
        return 0;
    }
    place::file(page, file, out, notes)
}

// The note places that suffice for any file of so many bytes: one for each character of text, 140 in Q and 553 in a T record.
fn enough(bytes: usize) -> usize
    requires { (512 ≤ bytes) × (bytes ≤ 7679744) }
    ensures { result ≡ text_length ((bytes - 512) / 768) }
{
    140 + 553 * ((bytes - 512) / 768)
}

// What needs so much room finds it, or is refused.
fn room(needed: usize, lent: usize, missing: Refusal) -> Result<(), Refusal>
    ensures { MatchResult result (λ _. needed ≤ lent) (λ why. (why ≡ missing) × (lent < needed)) }
{
    if lent < needed {
        return Err(missing);
    }
    Ok(())
}

// The file to send, by its room: nothing is written before both are known. Where there are places enough for every character of
// text, 61 cannot come, and the changes need not be counted first.
fn send(page: u32, file: &[u8], out: &mut [u8], notes: &mut [u32]) -> Result<usize, Refusal>
    requires { Sized file.now }
    ensures answer { SentAs page file.now out.old notes.old (prepared_in result) out.new notes.new }
    ensures real { IfErr result (λ why. number_of why ≡ 0 → ⊥) }
{
    room(file.len(), out.len(), Refusal::OutputRoom)?;
    if enough(file.len()) <= notes.len() {
        return Ok(place::file(page, file, out, notes));
    }
    let changes = count::file(file);
    room(changes, notes.len(), Refusal::NoteRoom)?;
    Ok(write(page, file, changes, out, notes))
}

// A page that does not exist is 7, before anything is read; then soundness, then 60, then 61. The output and the notes only
// where all is well.
fn strictly(
    terms: &Terms<'_>,
    file: &[u8],
    out: &mut [u8],
    notes: &mut [u32],
) -> Result<usize, Refusal>
    ensures { PreparedAs terms.now.page file.now terms.now.transfer.now terms.now.cheque.now out.old notes.old (prepared_in result) out.new notes.new }
{
    if !charset::is_page(terms.page) {
        return Err(Refusal::NoSuchPage);
    }
    judge::examine(terms, file)?;
    send(terms.page, file, out, notes)
}

// The strict way.
pub fn strict(
    page: u32,
    file: &[u8],
    transfer: &[u8],
    cheque: &[u8],
    out: &mut [u8],
    notes: &mut [u32],
) -> Prepared
    ensures { PreparedAs page file.now transfer.now cheque.now out.old notes.old result out.new notes.new }
{
    let terms = Terms {
        page,
        transfer,
        cheque,
    };
    Prepared::from(strictly(&terms, file, out, notes))
}

// What room the kept file lacks: 60, then 61, then 63.
fn room_missing(going: Going, bytes: usize, places: usize, names: usize) -> Result<(), Refusal>
    requires { going.payments.kept ≤ 9999 }
    ensures { let missing = room_missing (sorted_of (Ok going)) bytes places names in MatchResult result (λ _. missing ≡ 0) (λ why. Short why missing) }
{
    let length = 512 + 768 * (going.payments.kept as usize);
    room(length, bytes, Refusal::OutputRoom)?;
    room(going.notes, places, Refusal::NoteRoom)?;
    room(going.payments.returned as usize, names, Refusal::ListRoom)
}

// Sorting's refusals, then 60, 61 and 63; then the payments that are kept go on, and the others are named.
fn sort_and_send(
    terms: &Terms<'_>,
    file: &[u8],
    out: &mut [u8],
    notes: &mut [u32],
    list: &mut [u32],
) -> Result<Going, Refusal>
    ensures { DefaultAs terms.now.page file.now terms.now.transfer.now terms.now.cheque.now out.old notes.old list.old (sorted_of result) out.new notes.new list.new }
{
    let going = sorting::sort(terms, file)?;
    room_missing(going, out.len(), notes.len(), list.len())?;
    sending::file(terms, file, going, out, notes, list);
    Ok(going)
}

// A sound file has nothing to return and goes on whole, as the strict way sends it; any other is sorted.
fn by_default(
    terms: &Terms<'_>,
    file: &[u8],
    out: &mut [u8],
    notes: &mut [u32],
    list: &mut [u32],
) -> Result<Going, Refusal>
    ensures { DefaultAs terms.now.page file.now terms.now.transfer.now terms.now.cheque.now out.old notes.old list.old (sorted_of result) out.new notes.new list.new }
{
    if !charset::is_page(terms.page) {
        return Err(Refusal::NoSuchPage);
    }
    match judge::examine(terms, file) {
        Ok(sound) => {
            let changes = send(terms.page, file, out, notes)?;
            Ok(sorting::whole(sound.payments, sound.euros, changes))
        }
        Err(_) => sort_and_send(terms, file, out, notes, list),
    }
}

// The default way.
pub fn prepare(
    page: u32,
    file: &[u8],
    transfer: &[u8],
    cheque: &[u8],
    out: &mut [u8],
    notes: &mut [u32],
    list: &mut [u32],
) -> Sorted
    ensures { DefaultAs page file.now transfer.now cheque.now out.old notes.old list.old result out.new notes.new list.new }
{
    let terms = Terms {
        page,
        transfer,
        cheque,
    };
    Sorted::from(by_default(&terms, file, out, notes, list))
}
