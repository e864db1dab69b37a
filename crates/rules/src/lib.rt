// Rules of the Q record, 10 to 16, and of the Z record, 40 to 42: the field that breaks a rule. And what the rules of every kind
// of record ask of a field.
#![tactic(auto)]

ghost use Rattle.std.specs.Prelude.{◌≡◌, ◌+◌, ◌≤◌, length};
ghost use Rattle.fields.specs.Class.{all_of, blank, same};
ghost use Rattle.laws.specs.Found.{nonzero};
ghost use Rattle.records.specs.Places.{part};
ghost use Rattle.rules.specs.Told.{Told, offset};
ghost use Rattle.rules.specs.Wrong.{line_blank};

use fields::Class;
use records::{Field, Span};

pub mod q;
pub mod z;

// A field that is not right breaks the rule.
pub fn check<F: Copy>(right: bool, f: F) -> Result<(), F>
    ensures { Told f right result }
{
    if right { Ok(()) } else { Err(f) }
}

// The whole field is of a class.
pub fn wholly<const N: usize, F: Field<N> + Copy>(c: Class, rec: &[u8; N], f: F) -> Result<(), F>
    ensures { Told f (all_of c (part (F.place f) rec.now)) result }
{
    check(fields::all(c, records::bytes(rec, f)), f)
}

// The field is these bytes.
pub fn is<const N: usize, F: Field<N> + Copy>(rec: &[u8; N], f: F, want: &[u8]) -> Result<(), F>
    ensures { Told f (same (part (F.place f) rec.now) want.now) result }
{
    check(fields::same(records::bytes(rec, f), want), f)
}

// The field is left blank.
pub fn left_blank<const N: usize, F: Field<N> + Copy>(
    page: u32,
    rec: &[u8; N],
    f: F,
) -> Result<(), F>
    ensures { Told f (blank page (part (F.place f) rec.now)) result }
{
    check(fields::left_blank(page, records::bytes(rec, f)), f)
}

// Line k of a field is blank.
#[inline]
#[tactic(auto, unfolding(crate::specs::Wrong::line_blank))]
pub fn line_blank(page: u32, rec: &[u8], field: Span, k: usize) -> bool
    requires { (field.start + 140 ≤ length rec.now) × ((length rec.now ≤ 768) × ((1 ≤ k) × (k ≤ 4))) }
    ensures { result ≡ line_blank page rec.now field k }
{
    fields::blank(page, records::part(rec, records::line(field, k)))
}

// The same of a field of the record's kind.
pub fn blank_line<const N: usize, F: Field<N> + Copy>(
    page: u32,
    rec: &[u8; N],
    f: F,
    k: usize,
) -> bool
    requires { ((F.place f).start + 140 ≤ N) × ((N ≤ 768) × ((1 ≤ k) × (k ≤ 4))) }
    ensures { result ≡ line_blank page rec.now (F.place f) k }
{
    line_blank(page, rec, f.place(), k)
}

// The offset of the field that breaks a rule.
pub fn offset<const N: usize, F: Field<N> + Copy>(kept: Result<(), F>) -> Option<usize>
    ensures { result ≡ nonzero (offset F.place kept) }
{
    match kept {
        Ok(()) => None,
        Err(f) => Some(f.place().start),
    }
}
