// The notes of a text field's changed characters, by rising place. They go into places that the caller lends; how many are there
// is handed in and comes back, and is no field beside them: `Noted`, which every caller's contract cites, speaks of each by itself.
#![tactic(auto)]

ghost use Rattle.std.specs.Prelude.{◌≡◌, [], ◌∷◌, ◌+◌, ◌*◌, ◌≤◌, ◌<◌, length};
ghost use Rattle.forwarding.specs.Changes.{text_notes};
ghost use Rattle.forwarding.specs.Noted.{Noted, first_notes};

// "A note is a 32-bit number, place in the file × 256 + original byte."
fn note_of(place: usize, b: u8) -> u32
    requires { place < 7679744 }
    ensures { result ≡ place * 256 + b }
{
    (place as u32) * 256 + u32::from(b)
}

// Of a character at a place: none where it is unchanged. That it is changed is used as a number too, and before it is asked, so
// that the compiler works it out without jumps, of which no processor would foresee the way.
fn character(b: u8, place: usize, notes: &mut [u32], have: usize) -> usize
    requires { (place < 7679744) × (have + length (text_notes place (b ∷ [])) ≤ length notes.old) }
    ensures { Noted (text_notes place (b ∷ [])) have notes.old notes.new result }
{
    let changed = count::changed(b);
    let next = have + usize::from(changed);
    if changed == 1 {
        notes[have] = note_of(place, b);
    }
    next
}

// By a call of its own, so that the turns of a field, of which few note anything, stay short.
#[inline(never)]
fn characters(s: &[u8], place: usize, notes: &mut [u32], have: usize) -> usize
    requires { (place + length s.now ≤ 7679744) × (have + length (text_notes place s.now) ≤ length notes.old) }
    ensures { Noted (text_notes place s.now) have notes.old notes.new result }
{
    let mut n = have;
    for (i, b) in s.iter().enumerate() {
        n = character(*b, place + i, notes, n);
    }
    n
}

// Of the first n of sixteen characters. Most sixteens have no change, and are looked at in one step.
fn block(s: &[u8; 16], n: usize, place: usize, notes: &mut [u32], have: usize) -> usize
    requires { (n ≤ 16) × (place + n ≤ 7679744) × (have + length (first_notes place n s.now) ≤ length notes.old) }
    ensures { Noted (first_notes place n s.now) have notes.old notes.new result }
{
    if count::none(s) {
        return have;
    }
    characters(&s[..n], place, notes, have)
}

// Of a text field, the first n of these characters, sixteen a turn. The last turn looks beyond the field, at up to fifteen
// characters more, and notes none of them.
pub fn field(s: &[u8], n: usize, place: usize, notes: &mut [u32], have: usize) -> usize
    requires { (n + 15 ≤ length s.now) × (place + n ≤ 7679744) × (have + length (first_notes place n s.now) ≤ length notes.old) }
    ensures { Noted (first_notes place n s.now) have notes.old notes.new result }
{
    let mut m = have;
    for (k, sixteen) in s[..n + 15].as_chunks().0.iter().enumerate() {
        let i = 16 * k;
        m = block(sixteen, (n - i).min(16), place + i, notes, m);
    }
    m
}
