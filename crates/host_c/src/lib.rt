// The calls of the crate host for C, one by one, each with that one's contract. A lent slice passes as a pointer and a count.
#![tactic(auto)]

ghost use Rattle.judge.specs.Verdict.{JudgedAs};
ghost use Rattle.reader.specs.State.{NewAs, FedAs, EndedAs};
ghost use Rattle.prepare.specs.Prepared.{PreparedAs};
ghost use Rattle.prepare.specs.Default.{DefaultAs};
ghost use Rattle.restore.specs.Restored.{RestoredAs};
ghost use Rattle.m8.specs.Filed.{FiledAs};
ghost use Rattle.book.specs.Kept.{entry_of, NewBookAs, TakenAs, TotalsAs};
ghost use Rattle.host.specs.Answers.{CodedAs, PlacedAs};

use book::{Book, Taken, Totals};
use host::Part;
use judge::Verdict;
use m8::Filed;
use prepare::Prepared;
use reader::{Read, Reader};
use restore::Restored;
use sorting::Sorted;

#[unsafe(no_mangle)]
pub extern "C" fn desk_judge(file: &[u8], transfer: &[u8], cheque: &[u8]) -> usize
    ensures { CodedAs file.now transfer.now cheque.now result }
{
    host::desk_judge(file, transfer, cheque)
}

#[unsafe(no_mangle)]
pub extern "C" fn desk_judge_full(
    page: u32,
    file: &[u8],
    transfer: &[u8],
    cheque: &[u8],
    taken: &[u64],
) -> Verdict
    ensures { JudgedAs page file.now transfer.now cheque.now taken.now result }
{
    host::desk_judge_full(page, file, transfer, cheque, taken)
}

#[unsafe(no_mangle)]
pub extern "C" fn desk_reader_new(page: u32) -> Reader
    ensures { NewAs page result }
{
    host::desk_reader_new(page)
}

#[unsafe(no_mangle)]
pub extern "C" fn desk_reader_feed(
    reader: Reader,
    cut: &[u8],
    transfer: &[u8],
    cheque: &[u8],
) -> Reader
    ensures { FedAs reader cut.now transfer.now cheque.now result }
{
    host::desk_reader_feed(reader, cut, transfer, cheque)
}

#[unsafe(no_mangle)]
pub extern "C" fn desk_reader_end(reader: Reader, taken: &[u64]) -> Read
    ensures { EndedAs reader taken.now result }
{
    host::desk_reader_end(reader, taken)
}

#[unsafe(no_mangle)]
pub extern "C" fn desk_prepare(
    page: u32,
    file: &[u8],
    transfer: &[u8],
    cheque: &[u8],
    out: &mut [u8],
    notes: &mut [u32],
    returned: &mut [u32],
) -> Sorted
    ensures { DefaultAs page file.now transfer.now cheque.now out.old notes.old returned.old result out.new notes.new returned.new }
{
    host::desk_prepare(page, file, transfer, cheque, out, notes, returned)
}

#[unsafe(no_mangle)]
pub extern "C" fn desk_prepare_strict(
    page: u32,
    file: &[u8],
    transfer: &[u8],
    cheque: &[u8],
    out: &mut [u8],
    notes: &mut [u32],
) -> Prepared
    ensures { PreparedAs page file.now transfer.now cheque.now out.old notes.old result out.new notes.new }
{
    host::desk_prepare_strict(page, file, transfer, cheque, out, notes)
}

#[unsafe(no_mangle)]
pub extern "C" fn desk_m8(
    page: u32,
    file: &[u8],
    transfer: &[u8],
    cheque: &[u8],
    codes: &[u8],
    out: &mut [u8],
) -> Filed
    ensures { FiledAs page file.now transfer.now cheque.now codes.now out.old result out.new }
{
    host::desk_m8(page, file, transfer, cheque, codes, out)
}

#[unsafe(no_mangle)]
pub extern "C" fn desk_restore(
    page: u32,
    forwarded: &[u8],
    notes: &[u32],
    transfer: &[u8],
    cheque: &[u8],
    out: &mut [u8],
) -> Restored
    ensures { RestoredAs page forwarded.now notes.now transfer.now cheque.now out.old result out.new }
{
    host::desk_restore(page, forwarded, notes, transfer, cheque, out)
}

#[unsafe(no_mangle)]
pub extern "C" fn desk_show(file: &[u8], rec: usize, field: usize) -> Part
    ensures { PlacedAs file.now rec field result }
{
    host::desk_show(file, rec, field)
}

#[unsafe(no_mangle)]
pub extern "C" fn desk_book_new() -> Book
    ensures { NewBookAs result }
{
    host::desk_book_new()
}

#[unsafe(no_mangle)]
pub extern "C" fn desk_book_take(
    book: Book,
    number: u64,
    day: u32,
    payments: u64,
    euros: u64,
) -> Taken
    ensures { TakenAs book (entry_of number day payments euros) result }
{
    host::desk_book_take(book, number, day, payments, euros)
}

#[unsafe(no_mangle)]
pub extern "C" fn desk_book_totals(book: Book) -> Totals
    ensures { TotalsAs book result }
{
    host::desk_book_totals(book)
}
