// The book (document 02, A7 and A8): both sides of each edge. Five days, the first and the last day, 200 places, the order of
// the refusals, what a refused take leaves; the largest figures, and the totals.
#![tactic(auto)]

use book::{Book, Taken};
use std::io;
use std::ops::Range;

// What the take answers, and the day of the book after it and how many it holds. The book is given back.
fn tells(rt: &impl Print, edge: &str, taken: Taken) -> io::Result<Book> {
    let after = taken.book;
    print!(rt;
        "{edge}: {}, day {}, held {}",
        taken.number, after.day, after.held
    )?;
    Ok(after)
}

// A line of a take in which figures do not matter.
fn takes(rt: &impl Print, edge: &str, book: Book, number: u64, day: u32) -> io::Result<Book> {
    let after = tells(rt, edge, book.take(number, day, 0, 0))?;
    println!(rt)?;
    Ok(after)
}

// A line of any take, with the totals of the book after it.
fn totals(
    rt: &impl Print,
    edge: &str,
    book: Book,
    number: u64,
    day: u32,
    payments: u64,
    euros: u64,
) -> io::Result<Book> {
    let after = tells(rt, edge, book.take(number, day, payments, euros))?;
    let totals = after.totals();
    println!(rt;
        ", files {}, payments {}, euros {}",
        totals.files, totals.payments, totals.euros
    )?;
    Ok(after)
}

// With all of these numbers taken on one day and without a line.
fn with_files(book: Book, numbers: Range<u64>, day: u32, payments: u64, euros: u64) -> Book {
    let mut after = book;
    for number in numbers {
        after = after.take(number, day, payments, euros).book;
    }
    after
}

fn with_many(book: Book, numbers: Range<u64>, day: u32) -> Book {
    with_files(book, numbers, day, 0, 0)
}

fn five_days(rt: &impl Print) -> io::Result<()> {
    let book = takes(rt, "1 on day 7, new book", Book::new(), 1, 7)?;
    takes(rt, "  1 on day 6", book, 1, 6)?;
    takes(rt, "  1 on day 7", book, 1, 7)?;
    takes(rt, "  1 on day 11", book, 1, 11)?;
    takes(rt, "  1 on day 12", book, 1, 12)?;
    takes(rt, "  2 on day 6", book, 2, 6)?;
    takes(rt, "  2 on day 7", book, 2, 7)?;
    takes(rt, "  2 on day 11", book, 2, 11)?;
    takes(rt, "  2 on day 12", book, 2, 12)?;
    Ok(())
}

fn first_and_last_day(rt: &impl Print) -> io::Result<()> {
    takes(rt, "1 on day 0, new book", Book::new(), 1, 0)?;
    let last = takes(rt, "1 on the last day, new book", Book::new(), 1, u32::MAX)?;
    takes(rt, "  1 on the last day", last, 1, u32::MAX)?;
    takes(rt, "  2 on the last day", last, 2, u32::MAX)?;
    takes(rt, "  2 on the day before it", last, 2, u32::MAX - 1)?;
    let held = takes(
        rt,
        "1 four days before it, new book",
        Book::new(),
        1,
        u32::MAX - 4,
    )?;
    takes(rt, "  1 on the last day", held, 1, u32::MAX)?;
    let forgotten = takes(
        rt,
        "1 five days before it, new book",
        Book::new(),
        1,
        u32::MAX - 5,
    )?;
    takes(rt, "  1 on the last day", forgotten, 1, u32::MAX)?;
    Ok(())
}

fn numbers(rt: &impl Print) -> io::Result<()> {
    let least = takes(rt, "number 0, new book", Book::new(), 0, 1)?;
    takes(rt, "  number 0", least, 0, 1)?;
    let both = takes(rt, "  number 18446744073709551615", least, u64::MAX, 1)?;
    takes(rt, "    number 18446744073709551615", both, u64::MAX, 1)?;
    takes(rt, "    number 4294967295", both, 4294967295, 1)?;
    Ok(())
}

fn places(rt: &impl Print) -> io::Result<()> {
    let few = with_many(Book::new(), 1..200, 1);
    let full = takes(rt, "200 with 199 held", few, 200, 1)?;
    takes(rt, "  201 with 200 held", full, 201, 1)?;
    takes(rt, "  200 with 200 held", full, 200, 1)?;
    takes(rt, "  1 with 200 held, on an earlier day", full, 1, 0)?;
    takes(rt, "  201 on day 5", full, 201, 5)?;
    takes(rt, "  201 on day 6", full, 201, 6)?;
    let mixed = with_many(with_many(Book::new(), 1..101, 1), 101..201, 3);
    takes(
        rt,
        "201 on day 5, 100 held since day 1 and 100 since day 3",
        mixed,
        201,
        5,
    )?;
    let again = takes(rt, "  201 on day 6", mixed, 201, 6)?;
    let refilled = with_many(again, 202..301, 6);
    takes(rt, "    300 with 200 held again", refilled, 300, 6)?;
    takes(rt, "    301 with 200 held again", refilled, 301, 6)?;
    takes(rt, "  201 on day 8", mixed, 201, 8)?;
    Ok(())
}

fn refused(rt: &impl Print) -> io::Result<()> {
    let book = takes(rt, "1 on day 3, new book", Book::new(), 1, 3)?;
    let held = takes(rt, "  1 on day 7", book, 1, 7)?;
    takes(rt, "    2 on day 3", held, 2, 3)?;
    takes(rt, "    2 on day 2", held, 2, 2)?;
    let many = with_many(Book::new(), 1..201, 3);
    let full = takes(rt, "201 on day 7, 200 held since day 3", many, 201, 7)?;
    takes(rt, "  1 on day 3", full, 1, 3)?;
    takes(rt, "  201 on day 2", full, 201, 2)?;
    takes(rt, "  201 on day 8", full, 201, 8)?;
    Ok(())
}

// The first file's figures, in a new book.
fn figure(rt: &impl Print, edge: &str, payments: u64, euros: u64) -> io::Result<()> {
    totals(rt, edge, Book::new(), 1, 7, payments, euros)?;
    Ok(())
}

fn figures(rt: &impl Print) -> io::Result<()> {
    figure(rt, "1 on day 7, no payments and no euros, new book", 0, 0)?;
    figure(rt, "1 on day 7, 9999 payments", 9999, 1)?;
    figure(rt, "1 on day 7, 10000 payments", 10000, 1)?;
    figure(rt, "1 on day 7, 4294967296 payments", 4294967296, 1)?;
    figure(rt, "1 on day 7, 18446744073709551615 payments", u64::MAX, 1)?;
    figure(rt, "1 on day 7, 999999999999999 euros", 1, 999999999999999)?;
    figure(
        rt,
        "1 on day 7, 1000000000000000 euros",
        1,
        1000000000000000,
    )?;
    figure(rt, "1 on day 7, 18446744073709551615 euros", 1, u64::MAX)?;
    figure(rt, "1 on day 7, 1 payment and 10000 euros", 1, 10000)
}

fn figures_first(rt: &impl Print) -> io::Result<()> {
    let book = totals(
        rt,
        "1 on day 7, 3 payments and 50 euros",
        Book::new(),
        1,
        7,
        3,
        50,
    )?;
    totals(rt, "  2 on day 6, 9999 payments", book, 2, 6, 9999, 50)?;
    totals(rt, "  2 on day 6, 10000 payments", book, 2, 6, 10000, 50)?;
    totals(rt, "  1 on day 7, 9999 payments", book, 1, 7, 9999, 50)?;
    totals(rt, "  1 on day 7, 10000 payments", book, 1, 7, 10000, 50)?;
    totals(rt, "  1 on day 12, 10000 payments", book, 1, 12, 10000, 50)?;
    let full = with_files(Book::new(), 1..201, 7, 9999, 999999999999999);
    totals(rt, "201 with 200 of the largest held", full, 201, 7, 1, 1)?;
    totals(rt, "  201 with 10000 payments", full, 201, 7, 10000, 1)?;
    totals(rt, "  201 on day 11", full, 201, 11, 1, 1)?;
    totals(rt, "  201 on day 12", full, 201, 12, 1, 1)?;
    Ok(())
}

// One more file, of 160 payments and 16000 euros.
fn one_more(rt: &impl Print, edge: &str, book: Book, number: u64, day: u32) -> io::Result<()> {
    totals(rt, edge, book, number, day, 160, 16000)?;
    Ok(())
}

fn sums(rt: &impl Print) -> io::Result<()> {
    let edge = "1 on day 1, 10 payments and 1000 euros";
    let one = totals(rt, edge, Book::new(), 1, 1, 10, 1000)?;
    let two = totals(rt, "  2 on day 1, 20 and 2000", one, 2, 1, 20, 2000)?;
    let three = totals(rt, "  3 on day 2, 40 and 4000", two, 3, 2, 40, 4000)?;
    let four = totals(rt, "  4 on day 5, 80 and 8000", three, 4, 5, 80, 8000)?;
    one_more(rt, "    5 on day 4", four, 5, 4)?;
    one_more(rt, "    4 on day 9", four, 4, 9)?;
    one_more(rt, "    5 on day 6, two forgotten", four, 5, 6)?;
    one_more(rt, "    5 on day 7, three forgotten", four, 5, 7)?;
    one_more(rt, "    5 on day 9, three forgotten", four, 5, 9)?;
    one_more(rt, "    5 on day 10, all forgotten", four, 5, 10)
}

fn main(rt: HostRuntime) -> io::Result<()> {
    five_days(&rt)?;
    first_and_last_day(&rt)?;
    numbers(&rt)?;
    places(&rt)?;
    refused(&rt)?;
    figures(&rt)?;
    figures_first(&rt)?;
    sums(&rt)
}
