// The calls for hosts. The crate host_c hands them to C.
#![tactic(auto)]

ghost use Rattle.judge.specs.Verdict.{JudgedAs};
ghost use Rattle.reader.specs.State.{NewAs, FedAs, EndedAs};
ghost use Rattle.prepare.specs.Prepared.{PreparedAs};
ghost use Rattle.prepare.specs.Default.{DefaultAs};
ghost use Rattle.restore.specs.Restored.{RestoredAs};
ghost use Rattle.m8.specs.Filed.{FiledAs};
ghost use Rattle.book.specs.Kept.{entry_of, NewBookAs, TakenAs, TotalsAs};
ghost use Rattle.host.specs.Answers.{CodedAs, PlacedAs};

use book::{Book, Taken, Totals};
use judge::Verdict;
use m8::Filed;
use prepare::Prepared;
use reader::{Read, Reader};
use restore::Restored;
use sorting::Sorted;

// The judge of document 01 for payroll hosts: page 0, no taken numbers, record × 100 + number.
pub fn desk_judge(file: &[u8], transfer: &[u8], cheque: &[u8]) -> usize
    ensures { CodedAs file.now transfer.now cheque.now result }
{
    let found = judge::judge(0, file, transfer, cheque, &[]);
    found.rec * 100 + found.number
}

pub fn desk_judge_full(
    page: u32,
    file: &[u8],
    transfer: &[u8],
    cheque: &[u8],
    taken: &[u64],
) -> Verdict
    ensures { JudgedAs page file.now transfer.now cheque.now taken.now result }
{
    judge::judge(page, file, transfer, cheque, taken)
}

// A reader is a value: it is handed in, and comes back changed.
pub fn desk_reader_new(page: u32) -> Reader
    ensures { NewAs page result }
{
    Reader::new(page)
}

pub fn desk_reader_feed(reader: Reader, cut: &[u8], transfer: &[u8], cheque: &[u8]) -> Reader
    ensures { FedAs reader cut.now transfer.now cheque.now result }
{
    reader.feed(cut, transfer, cheque)
}

pub fn desk_reader_end(reader: Reader, taken: &[u64]) -> Read
    ensures { EndedAs reader taken.now result }
{
    reader.end(taken)
}

pub fn desk_prepare(
    page: u32,
    file: &[u8],
    transfer: &[u8],
    cheque: &[u8],
    out: &mut [u8],
    notes: &mut [u32],
    returned: &mut [u32],
) -> Sorted
    ensures { DefaultAs page file.now transfer.now cheque.now out.old notes.old returned.old result out.new notes.new returned.new }
{
    prepare::prepare(page, file, transfer, cheque, out, notes, returned)
}

pub fn desk_prepare_strict(
    page: u32,
    file: &[u8],
    transfer: &[u8],
    cheque: &[u8],
    out: &mut [u8],
    notes: &mut [u32],
) -> Prepared
    ensures { PreparedAs page file.now transfer.now cheque.now out.old notes.old result out.new notes.new }
{
    prepare::strict(page, file, transfer, cheque, out, notes)
}

pub fn desk_m8(
    page: u32,
    file: &[u8],
    transfer: &[u8],
    cheque: &[u8],
    codes: &[u8],
    out: &mut [u8],
) -> Filed
    ensures { FiledAs page file.now transfer.now cheque.now codes.now out.old result out.new }
{
    m8::records(page, file, transfer, cheque, codes, out)
}

pub fn desk_restore(
    page: u32,
    forwarded: &[u8],
    notes: &[u32],
    transfer: &[u8],
    cheque: &[u8],
    out: &mut [u8],
) -> Restored
    ensures { RestoredAs page forwarded.now notes.now transfer.now cheque.now out.old result out.new }
{
    restore::restore(page, forwarded, notes, transfer, cheque, out)
}

// Where a shown field stands in the file. Length 0, which in place of an Option is C's layout: no such field.
#[repr(C)]
#[derive(Drop)]
pub struct Part {
    pub start: usize,
    pub length: usize,
}

pub fn desk_show(file: &[u8], rec: usize, field: usize) -> Part
    ensures { PlacedAs file.now rec field result }
{
    match show::place(file, rec, field) {
        Some(s) => Part {
            start: s.start,
            length: s.end - s.start,
        },
        None => Part {
            start: 0,
            length: 0,
        },
    }
}

// A book is a value too.
pub fn desk_book_new() -> Book
    ensures { NewBookAs result }
{
    Book::new()
}

pub fn desk_book_take(book: Book, number: u64, day: u32, payments: u64, euros: u64) -> Taken
    ensures { TakenAs book (entry_of number day payments euros) result }
{
    book.take(number, day, payments, euros)
}

pub fn desk_book_totals(book: Book) -> Totals
    ensures { TotalsAs book result }
{
    book.totals()
}
