// Rules 10 to 16: the Q record.
ghost use Rattle.std.specs.Prelude.{◌≡◌};
ghost use Rattle.laws.specs.Found.{nonzero};
ghost use Rattle.records.specs.Places.{q_place};
ghost use Rattle.rules.specs.Told.{offset};
ghost use Rattle.rules.specs.Q.{rule10, rule11, rule12, rule13, rule14, rule15, rule16};
ghost use Rattle.rules.specs.Faults.{q_fault};

use crate::{blank_line, check, is, wholly};
use fields::Class;
use records::QField;

// 10: Q3 is not 50400042.
#[tactic(auto, unfolding(crate::specs::Q::rule10))]
fn rule10(rec: &[u8; 256]) -> Result<(), QField>
    ensures { offset q_place result ≡ rule10 rec.now }
{
    is(rec, QField::Q3, b"50400042")
}

// 11: Q4 is not eight zeros and two digits.
#[tactic(auto, unfolding(crate::specs::Q::rule11, records::specs::Places::part))]
fn rule11(rec: &[u8; 256]) -> Result<(), QField>
    ensures { offset q_place result ≡ rule11 rec.now }
{
    let q4 = records::bytes(rec, QField::Q4);
    let right = fields::all(Class::Zero, &q4[0..8]) & fields::all(Class::Digit, &q4[8..10]);
    check(right, QField::Q4)
}

// 12: first line of Q5 blank.
#[tactic(auto, unfolding(crate::specs::Q::rule12))]
fn rule12(page: u32, rec: &[u8; 256]) -> Result<(), QField>
    ensures { offset q_place result ≡ rule12 page rec.now }
{
    check(!blank_line(page, rec, QField::Q5, 1), QField::Q5)
}

// 13: Q6 is no date YYMMDD (years 2000 to 2099).
#[tactic(auto, unfolding(crate::specs::Q::rule13))]
fn rule13(rec: &[u8; 256]) -> Result<(), QField>
    ensures { offset q_place result ≡ rule13 rec.now }
{
    check(fields::is_date(records::bytes(rec, QField::Q6)), QField::Q6)
}

// 14: a non-digit in Q7, Q8, Q10 or Q11.
#[tactic(auto, unfolding(crate::specs::Q::rule14))]
fn rule14(rec: &[u8; 256]) -> Result<(), QField>
    ensures { offset q_place result ≡ rule14 rec.now }
{
    wholly(Class::Digit, rec, QField::Q7)?;
    wholly(Class::Digit, rec, QField::Q8)?;
    wholly(Class::Digit, rec, QField::Q10)?;
    wholly(Class::Digit, rec, QField::Q11)
}

// 15: Q9 is not N.
#[tactic(auto, unfolding(crate::specs::Q::rule15))]
fn rule15(rec: &[u8; 256]) -> Result<(), QField>
    ensures { offset q_place result ≡ rule15 rec.now }
{
    is(rec, QField::Q9, b"N")
}

// 16: Q12 not all spaces.
#[tactic(auto, unfolding(crate::specs::Q::rule16))]
fn rule16(rec: &[u8; 256]) -> Result<(), QField>
    ensures { offset q_place result ≡ rule16 rec.now }
{
    wholly(Class::Space, rec, QField::Q12)
}

// A rule by its number. The numbers stay: document 01 names the form, a loop over field rules inside a walk over records.
#[tactic(auto, unfolding(crate::specs::Faults::q_fault))]
fn by_number(page: u32, rec: &[u8; 256], rule: usize) -> Result<(), QField>
    ensures { offset q_place result ≡ q_fault page rec.now rule }
{
    match rule {
        10 => rule10(rec),
        11 => rule11(rec),
        12 => rule12(page, rec),
        13 => rule13(rec),
        14 => rule14(rec),
        15 => rule15(rec),
        16 => rule16(rec),
        _ => Ok(()),
    }
}

// What a rule says of a Q record: the offset of the field that breaks it.
pub fn fault(page: u32, rec: &[u8; 256], rule: usize) -> Option<usize>
    ensures { result ≡ nonzero (q_fault page rec.now rule) }
{
    crate::offset(by_number(page, rec, rule))
}
