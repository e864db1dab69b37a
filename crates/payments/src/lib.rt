// Rules 20 to 35: a T record. A rule function answers with the field that breaks the rule.
#![tactic(auto)]

ghost use Rattle.std.specs.Prelude.{◌≡◌, length};
ghost use Rattle.laws.specs.Found.{nonzero};
ghost use Rattle.records.specs.Places.{◌to◌, t_place};
ghost use Rattle.records.specs.Inside.{Held};
ghost use Rattle.rules.specs.Told.{offset};
ghost use Rattle.payments.specs.Rules.{is_transfer, is_cheque, is_country, is_two_capitals, has_bic};
ghost use Rattle.payments.specs.Rules.{rule20, rule21, rule22, rule23, rule24, rule25, rule26, rule27, rule28};
ghost use Rattle.payments.specs.Rules.{rule29, rule30, rule31, rule32, rule33, rule34, rule35};
ghost use Rattle.payments.specs.Faults.{t_fault};

use fields::Class;
use records::TField;
use rules::{blank_line, check, is, left_blank, wholly};

// What a file is judged by: the code page that its text is read on, and the countries for transfers and for cheques.
#[derive(Clone, Copy)]
pub struct Terms<'a> {
    pub page: u32,
    pub transfer: &'a [u8],
    pub cheque: &'a [u8],
}

// 20: a non-digit in T3 or T4b, or T4a not EUR.
#[tactic(auto, unfolding(crate::specs::Rules::rule20))]
fn rule20(rec: &[u8; 768]) -> Result<(), TField>
    ensures { offset t_place result ≡ rule20 rec.now }
{
    wholly(Class::Digit, rec, TField::T3)?;
    is(rec, TField::T4a, b"EUR")?;
    wholly(Class::Digit, rec, TField::T4b)
}

// The key that rule 21 compares with: record 1 from T3 to T4b.
pub fn key(first: &[u8; 768]) -> &[u8; 21]
    ensures { Held (5 to 25) first.now result.now }
{
    first[5..26].as_array().unwrap()
}

// 21: T3 or T4b differs from record 1, whose bytes from T3 to T4b are the key.
#[tactic(auto, unfolding(crate::specs::Rules::rule21, records::specs::Places::part))]
fn rule21(key: &[u8; 21], rec: &[u8; 768]) -> Result<(), TField>
    ensures { offset t_place result ≡ rule21 key.now rec.now }
{
    is(rec, TField::T3, &key[0..8])?;
    is(rec, TField::T4b, &key[11..21])
}

// 22: T5, T6 or T7b not all zeros, or T7a not spaces.
#[tactic(auto, unfolding(crate::specs::Rules::rule22))]
fn rule22(rec: &[u8; 768]) -> Result<(), TField>
    ensures { offset t_place result ≡ rule22 rec.now }
{
    wholly(Class::Zero, rec, TField::T5)?;
    wholly(Class::Zero, rec, TField::T6)?;
    wholly(Class::Space, rec, TField::T7a)?;
    wholly(Class::Zero, rec, TField::T7b)
}

// T22 is 00.
#[tactic(auto, unfolding(crate::specs::Rules::is_transfer))]
fn is_transfer(rec: &[u8; 768]) -> bool
    ensures { result ≡ is_transfer rec.now }
{
    fields::same(records::bytes(rec, TField::T22), b"00")
}

// T22 is 20 or 22.
#[tactic(auto, unfolding(crate::specs::Rules::is_cheque))]
fn is_cheque(rec: &[u8; 768]) -> bool
    ensures { result ≡ is_cheque rec.now }
{
    let t22 = records::bytes(rec, TField::T22);
    fields::same(t22, b"20") | fields::same(t22, b"22")
}

// 23: T22 is not 00 (transfer), 20 or 22 (cheques).
#[tactic(auto, unfolding(crate::specs::Rules::rule23))]
fn rule23(rec: &[u8; 768]) -> Result<(), TField>
    ensures { offset t_place result ≡ rule23 rec.now }
{
    check(is_transfer(rec) | is_cheque(rec), TField::T22)
}

// 24: T21 not 00, 01 or 02; for a cheque, not 00.
#[tactic(auto, unfolding(crate::specs::Rules::rule24))]
fn rule24(rec: &[u8; 768]) -> Result<(), TField>
    ensures { offset t_place result ≡ rule24 rec.now }
{
    let t21 = records::bytes(rec, TField::T21);
    let one_or_two = fields::same(t21, b"01") | fields::same(t21, b"02");
    check(
        fields::same(t21, b"00") | (!is_cheque(rec) & one_or_two),
        TField::T21,
    )
}

// 25: cheque: T8 or T9b not blank, or T9a not spaces.
#[tactic(auto, unfolding(crate::specs::Rules::rule25))]
fn rule25(page: u32, rec: &[u8; 768]) -> Result<(), TField>
    ensures { offset t_place result ≡ rule25 page rec.now }
{
    if !is_cheque(rec) {
        return Ok(());
    }
    left_blank(page, rec, TField::T8)?;
    wholly(Class::Space, rec, TField::T9a)?;
    left_blank(page, rec, TField::T9b)
}

// A country of the list and a space.
#[tactic(auto, unfolding(crate::specs::Rules::is_country))]
fn is_country(list: &[u8], s: &[u8]) -> bool
    requires { length s.now ≡ 3 }
    ensures { result ≡ is_country list.now s.now }
{
    fields::listed(list, s[0], s[1]) & (s[2] == b' ')
}

// Two capitals and a space.
#[tactic(auto, unfolding(crate::specs::Rules::is_two_capitals, records::specs::Places::part))]
fn is_two_capitals(s: &[u8]) -> bool
    requires { length s.now ≡ 3 }
    ensures { result ≡ is_two_capitals s.now }
{
    fields::all(Class::Capital, &s[0..2]) & fields::all(Class::Space, &s[2..3])
}

// T8 has BIC shape.
#[tactic(auto, unfolding(crate::specs::Rules::has_bic))]
fn has_bic(page: u32, rec: &[u8; 768]) -> bool
    ensures { result ≡ has_bic page rec.now }
{
    fields::bic_shaped(page, records::bytes(rec, TField::T8))
}

// 26: transfer: T9a wrong.
#[tactic(auto, unfolding(crate::specs::Rules::rule26))]
fn rule26(page: u32, transfer: &[u8], rec: &[u8; 768]) -> Result<(), TField>
    ensures { offset t_place result ≡ rule26 page transfer.now rec.now }
{
    if !is_transfer(rec) {
        return Ok(());
    }
    let t9a = records::bytes(rec, TField::T9a);
    let right = if has_bic(page, rec) {
        fields::all(Class::Space, t9a) | is_two_capitals(t9a)
    } else {
        is_country(transfer, t9a)
    };
    check(right, TField::T9a)
}

// 27: transfer: T8 has no BIC shape and T9b is blank.
#[tactic(auto, unfolding(crate::specs::Rules::rule27))]
fn rule27(page: u32, rec: &[u8; 768]) -> Result<(), TField>
    ensures { offset t_place result ≡ rule27 page rec.now }
{
    if !is_transfer(rec) {
        return Ok(());
    }
    let right = has_bic(page, rec) || !fields::blank(page, records::bytes(rec, TField::T9b));
    check(right, TField::T9b)
}

// 28: T10a not a listed country (transfer list or cheque list, by T22) and a space.
#[tactic(auto, unfolding(crate::specs::Rules::rule28))]
fn rule28(transfer: &[u8], cheque: &[u8], rec: &[u8; 768]) -> Result<(), TField>
    ensures { offset t_place result ≡ rule28 transfer.now cheque.now rec.now }
{
    let t10a = records::bytes(rec, TField::T10a);
    if is_transfer(rec) {
        return check(is_country(transfer, t10a), TField::T10a);
    }
    if is_cheque(rec) {
        return check(is_country(cheque, t10a), TField::T10a);
    }
    Ok(())
}

// 29: first line of T10b blank; for a cheque, also line 3 or line 4 blank.
#[tactic(auto, unfolding(crate::specs::Rules::rule29))]
fn rule29(page: u32, rec: &[u8; 768]) -> Result<(), TField>
    ensures { offset t_place result ≡ rule29 page rec.now }
{
    check(!blank_line(page, rec, TField::T10b, 1), TField::T10b)?;
    if !is_cheque(rec) {
        return Ok(());
    }
    let address = blank_line(page, rec, TField::T10b, 3) | blank_line(page, rec, TField::T10b, 4);
    check(!address, TField::T10b)
}

// 30: T11 not all spaces.
#[tactic(auto, unfolding(crate::specs::Rules::rule30))]
fn rule30(rec: &[u8; 768]) -> Result<(), TField>
    ensures { offset t_place result ≡ rule30 rec.now }
{
    wholly(Class::Space, rec, TField::T11)
}

// 31: transfer: T12 does not begin with / and a non-space; cheque: T12 not blank. Only / becomes /, so the first is
// compared as it stands.
#[tactic(auto, unfolding(crate::specs::Rules::rule31))]
fn rule31(page: u32, rec: &[u8; 768]) -> Result<(), TField>
    ensures { offset t_place result ≡ rule31 page rec.now }
{
    let t12 = records::bytes(rec, TField::T12);
    if is_transfer(rec) {
        let slash = t12[0] == b'/';
        let more = !fields::blank(page, &t12[1..2]);
        return check(slash & more, TField::T12);
    }
    if is_cheque(rec) {
        return left_blank(page, rec, TField::T12);
    }
    Ok(())
}

// 32: T13 not EUR.
#[tactic(auto, unfolding(crate::specs::Rules::rule32))]
fn rule32(rec: &[u8; 768]) -> Result<(), TField>
    ensures { offset t_place result ≡ rule32 rec.now }
{
    is(rec, TField::T13, b"EUR")
}

// 33: a non-digit in T14a or T14b, last digit of T14b not 0, or amount zero.
#[tactic(auto, unfolding(crate::specs::Rules::rule33, records::specs::Places::part))]
fn rule33(rec: &[u8; 768]) -> Result<(), TField>
    ensures { offset t_place result ≡ rule33 rec.now }
{
    wholly(Class::Digit, rec, TField::T14a)?;
    wholly(Class::Digit, rec, TField::T14b)?;
    let t14b = records::bytes(rec, TField::T14b);
    let euros = fields::all(Class::Zero, records::bytes(rec, TField::T14a));
    let zero = euros & fields::all(Class::Zero, &t14b[0..2]);
    check(!zero, TField::T14a)?;
    check(t14b[2] == b'0', TField::T14b)
}

// 34: a non-digit in T16 to T19 or T25, or T27 not 00.
#[tactic(auto, unfolding(crate::specs::Rules::rule34))]
fn rule34(rec: &[u8; 768]) -> Result<(), TField>
    ensures { offset t_place result ≡ rule34 rec.now }
{
    wholly(Class::Digit, rec, TField::T16)?;
    wholly(Class::Digit, rec, TField::T17)?;
    wholly(Class::Digit, rec, TField::T18)?;
    wholly(Class::Digit, rec, TField::T19)?;
    wholly(Class::Digit, rec, TField::T25)?;
    is(rec, TField::T27, b"00")
}

// 35: T26 not all spaces.
#[tactic(auto, unfolding(crate::specs::Rules::rule35))]
fn rule35(rec: &[u8; 768]) -> Result<(), TField>
    ensures { offset t_place result ≡ rule35 rec.now }
{
    wholly(Class::Space, rec, TField::T26)
}

// A rule by its number. The numbers stay: document 01 names the form, a loop over field rules inside a walk over records.
#[tactic(auto, unfolding(crate::specs::Faults::t_fault))]
fn by_number(terms: &Terms<'_>, key: &[u8; 21], rec: &[u8; 768], rule: usize) -> Result<(), TField>
    ensures { offset t_place result ≡ t_fault terms.now.page terms.now.transfer.now terms.now.cheque.now key.now rec.now rule }
{
    match rule {
        20 => rule20(rec),
        21 => rule21(key, rec),
        22 => rule22(rec),
        23 => rule23(rec),
        24 => rule24(rec),
        25 => rule25(terms.page, rec),
        26 => rule26(terms.page, terms.transfer, rec),
        27 => rule27(terms.page, rec),
        28 => rule28(terms.transfer, terms.cheque, rec),
        29 => rule29(terms.page, rec),
        30 => rule30(rec),
        31 => rule31(terms.page, rec),
        32 => rule32(rec),
        33 => rule33(rec),
        34 => rule34(rec),
        35 => rule35(rec),
        _ => Ok(()),
    }
}

// What a rule says of a T record, with record 1's bytes from T3 to T4b as the key: the offset of the field that breaks it.
pub fn fault(terms: &Terms<'_>, key: &[u8; 21], rec: &[u8; 768], rule: usize) -> Option<usize>
    ensures { result ≡ nonzero (t_fault terms.now.page terms.now.transfer.now terms.now.cheque.now key.now rec.now rule) }
{
    rules::offset(by_number(terms, key, rec, rule))
}
