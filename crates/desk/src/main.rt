// The desk: reads a file of any length on standard input and prints what it finds of it, in seven lines.
#![tactic(auto)]

ghost use Rattle.std.specs.Prelude.{take};
ghost use Rattle.report.specs.Report.{ReadOnAs};
ghost use Rattle.desk.specs.Input.{Reads};

use reader::Reader;
use report::Report;
use std::io;
use std::io::Read;
use std::process::ExitCode;

// A reader after a read, how many bytes that brought, and the error that it answered, if any.
#[derive(Drop)]
struct Piece {
    reader: Reader,
    count: usize,
    error: Option<io::Error>,
}

// A reader after all of the input, or after what came before a read answered an error.
#[derive(Drop)]
struct Input {
    reader: Reader,
    error: Option<io::Error>,
}

// One read, by way of the room.
fn read_piece(input: &mut impl Read, reader: Reader, room: &mut [u8]) -> Piece
    ensures { ReadOnAs reader (take result.count room.new) result.reader }
{
    let got = input.read(room);
    let count = got.unwrap_or(0);
    let next = report::read_on(reader, &room[..count]);
    Piece {
        reader: next,
        count,
        error: got.err(),
    }
}

// Reads until the input ends, a read fails, or one byte more has come than a file may have, after which no byte changes
// the answer.
fn read_input(input: &mut impl Read, room: &mut [u8]) -> Input
    ensures { Reads result.reader }
{
    let mut reader = report::start();
    // how many bytes may still come before the file is too long
    let mut left: usize = 7679745;
    while 0 < left {
        let piece = read_piece(input, reader, room);
        reader = piece.reader;
        if piece.error.is_some() || piece.count == 0 {
            return Input {
                reader,
                error: piece.error,
            };
        }
        left = left.saturating_sub(piece.count);
    }
    Input {
        reader,
        error: None,
    }
}

fn print_report(rt: &impl Print, r: Report) -> io::Result<()> {
    println!(rt; "verdict={}", r.verdict)?;
    println!(rt; "record={}", r.rec)?;
    println!(rt; "at={}", r.at)?;
    println!(rt; "payments={}", r.payments)?;
    println!(rt; "euros={}", r.euros)?;
    println!(rt; "cents={}", r.cents)?;
    println!(rt; "changes={}", r.changes)
}

fn main(rt: HostRuntime) -> io::Result<ExitCode> {
    let mut room = [0u8; 65536];
    let input = read_input(&mut rt.stdin(), &mut room);
    if let Some(e) = input.error {
        // std puts the error's number behind its words
        let told = format!(in rt.alloc(); "{e}")?;
        let why = told.split(" (os error ").next().unwrap_or("");
        eprintln!(rt; "desk: standard input cannot be read: {why}")?;
        return Ok(ExitCode::FAILURE);
    }
    print_report(&rt, report::tell(input.reader))?;
    Ok(ExitCode::SUCCESS)
}
