// Show a field: the very part of the lent file.
#![tactic(auto)]

ghost use Rattle.std.specs.Prelude.{◌≡◌, ◌≤◌};
ghost use Rattle.show.specs.Shown.{moved, shown_at, ShownAs};
ghost use Rattle.show.specs.Somewhere.{somewhere};

use records::{Q, Span, T};

// A place in a record that starts at an offset of the file, where the record has such a place.
fn moved(at: usize, s: Span) -> Option<Span>
    requires { (at ≤ 7679744) × (s.end ≤ 768) × (s.start ≤ s.end) }
    ensures { result ≡ somewhere (moved at s) }
{
    if s.end == 0 {
        return None;
    }
    Some(Span {
        start: at + s.start,
        end: at + s.end,
    })
}

// Where text field `field` of record `rec` stands in the file.
#[tactic(auto, unfolding(crate::specs::Shown::shown_at))]
pub fn place(file: &[u8], rec: usize, field: usize) -> Option<Span>
    ensures { result ≡ somewhere (shown_at file.now rec field) }
{
    let Ok(n) = structure::walk(file) else {
        return None;
    };
    if rec == 0 {
        return moved(0, Q::text(field));
    }
    if n < rec {
        return None;
    }
    moved(records::record_at(rec), T::text(field))
}

// That field, where the caller has it; else nothing of the file.
pub fn show(file: &[u8], rec: usize, field: usize) -> &[u8]
    ensures { ShownAs file.entry.ref_ptr file.now rec field result.ref_ptr result.now }
{
    match place(file, rec, field) {
        Some(s) => records::part(file, s),
        None => &file[..0],
    }
}
