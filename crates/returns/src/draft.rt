// A file of three payments, of 100,50, 20,25 and 3,00, with one, two and one characters that the table changes.
use drafts::{payment, put_records};

// Where its records begin.
pub const FIRST: usize = 256;

pub const SECOND: usize = 1024;

pub const THIRD: usize = 1792;

pub const Z: usize = 2560;

// Where fields begin in their record.
pub const Q9: usize = 177;

pub const T3: usize = 5;

pub const T4A: usize = 13;

pub const T4B: usize = 16;

pub const T11: usize = 350;

pub const T13: usize = 455;

pub const T14A: usize = 458;

pub const T14B: usize = 472;

pub const T15: usize = 475;

pub const T26: usize = 715;

pub const Z3: usize = 5;

pub const Z4: usize = 20;

pub const Z5: usize = 35;

pub fn three() -> [u8; 2816] {
    let mut file = [b' '; 2816];
    put_records(
        &mut file,
        &[
            &drafts::q(),
            &payment(b"M&M STUDIO", 100, 50),
            &payment(b"A&B&C", 20, 25),
            &payment(b"M&M STUDIO", 3, 0),
            &drafts::z(123, 3),
        ],
    );
    file
}
