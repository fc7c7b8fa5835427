// The program vectors: answers requests on standard input, a line each, by the public calls; its answers are
// executed, and compared with a second implementation. A request is a call and its arguments: bytes in
// lowercase hexadecimal, `-` for none, and decimal numbers; the answer has the numbers that the call returns,
// and then the lent bytes, if any:
//
//     check REC                     REFUSAL EVENT
//     relations REC EVENT           REFUSAL EVENT HELD LOCKS MATCHING WRITER PREDECESSOR
//     load REC LOCK                 REFUSAL EVENT PERCENT
//     close REC SET                 REFUSAL EVENT ADDED SETBYTES
//     list REC SIZE OUT             REFUSAL EVENT PATTERNS BYTES OUTBYTES
//     verdict REC PATTERN           REFUSAL EVENT DEADLOCK
//     witness REC PATTERN OUT       REFUSAL EVENT DEADLOCK BYTES OUTBYTES
//     schedule REC PATTERN SCHED    REFUSAL EVENT VALID
//     clist REC SIZE OUT            NUMBER OUTBYTES
//     cverdict REC PATTERN          NUMBER
//
// Any other line is answered "bad request", and so is one of 180,000 bytes or more, whose rest is skipped.
// In the crate's folder, stdin has requests for the rows of 01, for each question and the edges of each
// argument, and lines that are none; stdout has their answers.
#![tactic(auto)]

mod answers;
mod calls;
mod lines;
mod spelling;
mod text;

ghost use Rattle.std.specs.Prelude.{◌≤◌, ◌≡◌, [], length, OnOk, string_bytes};

use crate::lines::Ending;
use std::alloc::{AllocError, Global};
use std::io;
use std::io::{BufRead, BufReader, Write};

// The input is read in pieces of so many bytes.
const PIECE: usize = 65536;

// A text of more bytes is written out.
const FULL: usize = 219850;

// Writes the text out, and empties it; a write that fails is passed over.
fn write_out(writer: &mut impl Write, text: &mut String)
    ensures { string_bytes text.new ≡ [] }
{
    let _ = writer.write_all(text.as_bytes());
    text.clear();
}

// Writes the text out where another answer may not fit behind it into 400,000 bytes: none has more than
// 180,150.
fn spill(writer: &mut impl Write, text: &mut String)
    ensures { length (string_bytes text.new) ≤ 219850 }
{
    if FULL < text.len() {
        write_out(writer, text);
    }
}

// Reads the next line, and puts its answer: what ended the reading.
fn put_line(
    alloc: Global,
    reader: &mut impl BufRead,
    line: &mut Vec<u8>,
    text: &mut String,
) -> Result<Ending, AllocError> {
    let ending = lines::read_line(reader, line);
    if ending == Ending::TooLong {
        text::put_bad(text)?;
        return Ok(lines::skip_line(reader, line));
    }
    if ending == Ending::LineFeed || !line.is_empty() {
        answers::answer(alloc, line, text)?;
    }
    Ok(ending)
}

// Reads the next line, puts its answer, and keeps room for another answer behind it: what ended the reading.
fn answer_line(
    alloc: Global,
    reader: &mut impl BufRead,
    writer: &mut impl Write,
    line: &mut Vec<u8>,
    text: &mut String,
) -> Result<Ending, AllocError>
    ensures { OnOk result (length (string_bytes text.new) ≤ 219850) }
{
    let ending = put_line(alloc, reader, line, text)?;
    spill(writer, text);
    Ok(ending)
}

// Answers line after line, and writes the answers out. Nothing says that an input ends, so lines are counted,
// up to a number that no run comes to.
fn answer_lines(
    alloc: Global,
    reader: &mut impl BufRead,
    writer: &mut impl Write,
) -> Result<(), AllocError> {
    let mut line = Vec::with_capacity(alloc, lines::TOO_LONG)?;
    let mut text = String::new(alloc);
    for _ in 0..u64::MAX {
        if answer_line(alloc, reader, writer, &mut line, &mut text)? == Ending::Input {
            break;
        }
    }
    write_out(writer, &mut text);
    Ok(())
}

// Answers the lines of standard input.
fn main(rt: HostRuntime) -> io::Result<()> {
    let mut reader = BufReader::with_capacity(rt.alloc(), PIECE, rt.stdin())?;
    answer_lines(rt.alloc(), &mut reader, &mut rt.stdout())?;
    Ok(())
}
