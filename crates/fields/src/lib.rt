// What a field may hold: classes of bytes, numbers, dates, BIC shape, and what stands in a lent list.
#![tactic(auto)]

ghost use Rattle.std.specs.Prelude.{◌≡◌, ◌&&◌, ◌≤◌, eqb, length};
ghost use Rattle.charset.specs.Table.{rep, text};
ghost use Rattle.fields.specs.Class.{member, all_of, blank, same};
ghost use Rattle.fields.specs.Number.{digit_of, dec, days_of, is_date};
ghost use Rattle.fields.specs.Bic.{bic_shape};
ghost use Rattle.fields.specs.Shape.{shape_of};
ghost use Rattle.fields.specs.Lists.{is_listed, is_taken};

#[derive(Clone, Copy)]
pub enum Class {
    Digit,
    Zero,
    Space,
    Capital,
    CapitalOrDigit,
}

pub fn belongs(c: Class, b: u8) -> bool
    ensures { result ≡ member c b }
{
    match c {
        Class::Digit => b.is_ascii_digit(),
        Class::Zero => b == b'0',
        Class::Space => b == b' ',
        Class::Capital => b.is_ascii_uppercase(),
        Class::CapitalOrDigit => b.is_ascii_uppercase() | b.is_ascii_digit(),
    }
}

// Every byte is of the class. The loop decides at the end only, so that it is compiled to many bytes a step.
#[tactic(auto, using(crate::specs::Laws::every_is), unfolding(crate::specs::Class::all_of))]
pub fn all(c: Class, s: &[u8]) -> bool
    ensures { result ≡ all_of c s.now }
{
    let mut ok = true;
    for b in s {
        ok &= belongs(c, *b);
    }
    ok
}

// The same, but no byte is read behind the first that is not of the class.
#[tactic(auto, using(crate::specs::Laws::every_is), unfolding(crate::specs::Class::all_of))]
fn each(c: Class, s: &[u8]) -> bool
    ensures { result ≡ all_of c s.now }
{
    s.iter().all(|b| belongs(c, *b))
}

// A replaced character is of the class. One that is so as it stands is unchanged, and any other that is unchanged is not of
// it, so the table is asked for the few that change.
#[tactic(auto, using(crate::specs::Laws::member_rep, crate::specs::Laws::member_kept))]
fn text_belongs(page: u32, c: Class, was: u8) -> bool
    ensures { result ≡ member c (rep page was) }
{
    if belongs(c, was) {
        return true;
    }
    if charset::unchanged(was) {
        return false;
    }
    let b = charset::replaced(page, was);
    belongs(c, b)
}

// Every replaced character is of the class. A text that is no blank mostly says so at its first character.
#[tactic(auto, using(crate::specs::Laws::every_is), unfolding(crate::specs::Class::all_of))]
pub fn all_text(page: u32, c: Class, s: &[u8]) -> bool
    ensures { result ≡ all_of c (text page s.now) }
{
    s.iter().all(|b| text_belongs(page, c, *b))
}

#[tactic(auto, unfolding(crate::specs::Class::blank))]
pub fn blank(page: u32, s: &[u8]) -> bool
    ensures { result ≡ blank page s.now }
{
    all_text(page, Class::Space, s)
}

// The same, for a field that is blank as a rule. Spaces as they stand are told many a step, and only a field that holds
// something else is read character by character.
#[tactic(auto, using(crate::specs::Laws::all_rep), unfolding(crate::specs::Class::blank))]
pub fn left_blank(page: u32, s: &[u8]) -> bool
    ensures { result ≡ blank page s.now }
{
    all(Class::Space, s) || blank(page, s)
}

// The bytes are those of want. `s == want` takes twice as long for the four bytes of a record's length.
#[tactic(auto, using(crate::specs::Laws::same_more, crate::specs::Laws::unlike), unfolding(crate::specs::Class::same))]
pub fn same(s: &[u8], want: &[u8]) -> bool
    ensures { result ≡ same s.now want.now }
{
    if s.len() != want.len() {
        return false;
    }
    let mut ok = true;
    for i in 0..s.len() {
        ok &= s[i] == want[i];
    }
    ok
}

// The value of a digit; 0 of any other byte.
pub fn digit(b: u8) -> u64
    ensures { result ≡ digit_of b }
{
    if b.is_ascii_digit() {
        u64::from(b - b'0')
    } else {
        0
    }
}

// The number that the digits write.
#[tactic(auto, using(crate::specs::Laws::dec_more, crate::specs::Laws::dec_room, crate::specs::Laws::digit_lt), unfolding(crate::specs::Number::dec))]
pub fn value(s: &[u8]) -> u64
    requires { length s.now ≤ 18 }
    ensures { result ≡ dec s.now }
{
    let mut v: u64 = 0;
    for b in s {
        v = v * 10 + digit(*b);
    }
    v
}

// The days of a month of a year from 2000 to 2099.
pub fn days(year: u64, month: u64) -> u64
    ensures { result ≡ days_of year month }
{
    match month {
        2 if year % 4 == 0 => 29,
        2 => 28,
        4 | 6 | 9 | 11 => 30,
        _ => 31,
    }
}

// A date YYMMDD of the years 2000 to 2099.
#[tactic(auto, unfolding(crate::specs::Number::is_date))]
pub fn is_date(s: &[u8]) -> bool
    requires { length s.now ≡ 6 }
    ensures { result ≡ is_date s.now }
{
    let year = value(&s[0..2]);
    let month = value(&s[2..4]);
    let day = value(&s[4..6]);
    all(Class::Digit, s) & (1 <= month) & (month <= 12) & (1 <= day) & (day <= days(year, month))
}

// The bytes of T8 have the shape of a BIC as they stand. The shape is written out twice: over a closure that tests a part, its
// contract would be longer than both.
fn bic_as_it_stands(t8: &[u8]) -> bool
    requires { length t8.now ≡ 11 }
    ensures { result ≡ shape_of t8.now }
{
    each(Class::Capital, &t8[0..4])
        && each(Class::Capital, &t8[4..6])
        && each(Class::CapitalOrDigit, &t8[6..8])
        && (each(Class::Space, &t8[8..11]) || each(Class::CapitalOrDigit, &t8[8..11]))
}

// The replaced characters of T8 have the shape of a BIC. Mostly the bytes themselves have, and then these are the replaced ones;
// only else the table is asked.
#[tactic(auto, unfolding(crate::specs::Bic::bic_shape))]
pub fn bic_shaped(page: u32, t8: &[u8]) -> bool
    requires { length t8.now ≡ 11 }
    ensures { result ≡ bic_shape page t8.now }
{
    if bic_as_it_stands(t8) {
        return true;
    }
    all_text(page, Class::Capital, &t8[0..4])
        && all_text(page, Class::Capital, &t8[4..6])
        && all_text(page, Class::CapitalOrDigit, &t8[6..8])
        && (all_text(page, Class::Space, &t8[8..11])
            || all_text(page, Class::CapitalOrDigit, &t8[8..11]))
}

// Whether x y are a b. Each pair is one number, the first byte lowest: as the two lie in a list, so that they are read at
// once and compared in one step.
fn same_pair(x: u8, y: u8, a: u8, b: u8) -> bool
    ensures { result ≡ eqb x a && eqb y b }
{
    u16::from_le_bytes([x, y]) == u16::from_le_bytes([a, b])
}

// Whether a b is one of four countries.
#[tactic(auto, using(crate::specs::Laws::in_pairs))]
fn one_of_four(four: &[u8; 8], a: u8, b: u8) -> bool
    ensures { result ≡ is_listed four.now a b }
{
    let mut found = false;
    for [x, y] in four.as_chunks::<2>().0 {
        found |= same_pair(*x, *y, a, b);
    }
    found
}

// Whether a b is a country of the list, one country a turn.
#[tactic(auto, using(crate::specs::Laws::in_pairs))]
fn one_by_one(list: &[u8], a: u8, b: u8) -> bool
    ensures { result ≡ is_listed list.now a b }
{
    let pairs = list.as_chunks::<2>().0;
    pairs.iter().any(|[x, y]| (*x == a) & (*y == b))
}

// Whether a b is a country of the list: four countries a turn, then the rest one by one.
#[tactic(auto, using(crate::specs::Laws::in_fours))]
pub fn listed(list: &[u8], a: u8, b: u8) -> bool
    ensures { result ≡ is_listed list.now a b }
{
    let (fours, rest) = list.as_chunks::<8>();
    for four in fours {
        if one_of_four(four, a, b) {
            return true;
        }
    }
    one_by_one(rest, a, b)
}

// Whether n is one of the taken numbers. `contains` takes half as long again for a hundred numbers that are not n.
#[tactic(auto, using(crate::specs::Laws::some_is), unfolding(crate::specs::Lists::is_taken))]
pub fn taken(list: &[u64], n: u64) -> bool
    ensures { result ≡ is_taken list.now n }
{
    let mut found = false;
    for x in list {
        found |= *x == n;
    }
    found
}
