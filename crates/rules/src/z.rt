// Rules 40 to 42: the Z record.
ghost use Rattle.std.specs.Prelude.{◌≡◌};
ghost use Rattle.laws.specs.Found.{nonzero};
ghost use Rattle.records.specs.Places.{z_place};
ghost use Rattle.rules.specs.Told.{offset};
ghost use Rattle.rules.specs.Z.{rule40, rule41, rule42};
ghost use Rattle.rules.specs.Faults.{z_fault};

use crate::{check, wholly};
use fields::Class;
use records::ZField;

// 40: a non-digit in Z3 or Z4, or Z5 not all spaces.
#[tactic(auto, unfolding(crate::specs::Z::rule40))]
fn rule40(rec: &[u8; 256]) -> Result<(), ZField>
    ensures { offset z_place result ≡ rule40 rec.now }
{
    wholly(Class::Digit, rec, ZField::Z3)?;
    wholly(Class::Digit, rec, ZField::Z4)?;
    wholly(Class::Space, rec, ZField::Z5)
}

// 41: Z4 is not the number of T records.
#[tactic(auto, unfolding(crate::specs::Z::rule41))]
fn rule41(payments: u64, rec: &[u8; 256]) -> Result<(), ZField>
    ensures { offset z_place result ≡ rule41 payments rec.now }
{
    let told = fields::value(records::bytes(rec, ZField::Z4));
    check(told == payments, ZField::Z4)
}

// 42: Z3 is not the sum of all T14a (whole euros, no cents).
#[tactic(auto, unfolding(crate::specs::Z::rule42))]
fn rule42(euros: u64, rec: &[u8; 256]) -> Result<(), ZField>
    ensures { offset z_place result ≡ rule42 euros rec.now }
{
    let told = fields::value(records::bytes(rec, ZField::Z3));
    check(told == euros, ZField::Z3)
}

// A rule by its number, with the number of T records and the sum of their T14a. The numbers stay, as in `q`.
#[tactic(auto, unfolding(crate::specs::Faults::z_fault))]
fn by_number(payments: u64, euros: u64, rec: &[u8; 256], rule: usize) -> Result<(), ZField>
    ensures { offset z_place result ≡ z_fault payments euros rec.now rule }
{
    match rule {
        40 => rule40(rec),
        41 => rule41(payments, rec),
        42 => rule42(euros, rec),
        _ => Ok(()),
    }
}

// What a rule says of a Z record: the offset of the field that breaks it.
pub fn fault(payments: u64, euros: u64, rec: &[u8; 256], rule: usize) -> Option<usize>
    ensures { result ≡ nonzero (z_fault payments euros rec.now rule) }
{
    crate::offset(by_number(payments, euros, rec, rule))
}
