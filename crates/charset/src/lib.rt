// The character table by code page: one character, and a stretch of text in place.
#![tactic(auto)]

ghost use Rattle.std.specs.Prelude.{◌≡◌, [], ◌∷◌};
ghost use Rattle.charset.specs.Table.{is_page, unchanged, german, look, rep, text};

// Whether there is such a page: 0 is DIN 66003, 1 is ISO 8859-1.
pub fn is_page(page: u32) -> bool
    ensures { result ≡ is_page page }
{
    (page == 0) | (page == 1)
}

// Whether a character stays as it is, on every page. Tests with no branch: a loop over them is compiled to many bytes a step.
pub fn unchanged(b: u8) -> bool
    ensures { result ≡ unchanged b }
{
    b.is_ascii_alphanumeric() | ((b'+' <= b) & (b <= b'/')) | (b == b' ') | (b == b'%')
}

// The German characters by their four codes on a page, and a space for anything else.
fn german<const A: u8, const O: u8, const U: u8, const S: u8>(b: u8) -> u8
    ensures { result ≡ look ((A, 65) ∷ (O, 79) ∷ (U, 85) ∷ (S, 83) ∷ []) b }
{
    if b == A {
        b'A'
    } else if b == O {
        b'O'
    } else if b == U {
        b'U'
    } else if b == S {
        b'S'
    } else {
        b' '
    }
}

// What a character becomes. Page 0 is DIN 66003, every other ISO 8859-1; no answer depends on any number but 0 and 1. It stands
// in the loop that uses it, with nothing returned early: only so that is compiled to sixteen bytes a step.
#[inline(always)]
#[tactic(auto, using(crate::specs::Rows::stays, crate::specs::Rows::ampersand, crate::specs::Rows::dollar, crate::specs::Rows::page_0, crate::specs::Rows::page_1))]
fn straight(page: u32, b: u8) -> u8
    ensures { result ≡ rep page b }
{
    if unchanged(b) {
        b
    } else if b == b'&' {
        b'+'
    } else if b == b'$' {
        b'S'
    } else if page == 0 {
        german::<0x5B, 0x5C, 0x5D, 0x7E>(b)
    } else {
        german::<0xC4, 0xD6, 0xDC, 0xDF>(b)
    }
}

// The same as a call, for one character, returned as soon as it is known: a reader of many that mostly does without gets slower
// where all this stands in it.
#[tactic(auto, using(crate::specs::Rows::stays, crate::specs::Rows::ampersand, crate::specs::Rows::dollar, crate::specs::Rows::page_0, crate::specs::Rows::page_1))]
pub fn replaced(page: u32, b: u8) -> u8
    ensures { result ≡ rep page b }
{
    if unchanged(b) {
        return b;
    }
    if b == b'&' {
        return b'+';
    }
    if b == b'$' {
        return b'S';
    }
    if page == 0 {
        return german::<0x5B, 0x5C, 0x5D, 0x7E>(b);
    }
    german::<0xC4, 0xD6, 0xDC, 0xDF>(b)
}

// A stretch of text is replaced where it stands.
pub fn replace(page: u32, part: &mut [u8])
    ensures { part.new ≡ text page part.old }
{
    for i in 0..part.len() {
        part[i] = straight(page, part[i]);
    }
}
