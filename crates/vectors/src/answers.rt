// The answers to lines: a line's first word names the call, and the others are its arguments. Lent bytes take
// as many digits as the word that spells them, so an answer has at most 150 bytes more than its line.
ghost use Rattle.std.specs.Prelude.{ℕ, All, ◌+◌, ◌≤◌, ◌≡◌, length, OnOk, IfOk, Err, string_bytes};
ghost use Rattle.vectors.specs.declared.spelling.Fault.TheVariants.{BadRequest};

use crate::spelling::{Fault, decode_bytes, decode_number};
use crate::{calls, text};
use std::alloc::{AllocError, Global};

// The words of a line: none is longer than the line. No call takes more than three arguments, so what is
// behind the fourth word stays in one piece.
fn words_of(alloc: Global, line: &str) -> Result<Vec<&str>, AllocError>
    ensures { IfOk result (λ words. All (λ w. length w.now ≤ length line.now) words.items) }
{
    line.splitn(5, ' ').collect(alloc)
}

// Makes the call of that name, and puts its answer: at most 150 bytes more than the longest of the other
// words has. Where they are no request, nothing is put.
fn make_call(
    alloc: Global,
    call: &str,
    recording: &[u8],
    others: &[&str],
    text: &mut String,
) -> Result<(), Fault>
    ensures answered { OnOk result ((n : ℕ) → All (λ w. length w.now ≤ n) others.now
        → length (string_bytes text.new) ≤ length (string_bytes text.old) + 150 + n) }
    ensures refused { result ≡ Err BadRequest → string_bytes text.new ≡ string_bytes text.old }
{
    match (call, others) {
        ("check", []) => calls::tell_check(recording, text)?,
        ("relations", [event]) => calls::tell_relations(recording, decode_number(event)?, text)?,
        ("load", [lock]) => calls::tell_load(recording, decode_number(lock)?, text)?,
        ("close", [set]) => calls::tell_close(recording, &mut decode_bytes(alloc, set)?, text)?,
        ("list", [size, out]) => {
            let size = decode_number(size)?;
            calls::tell_list(recording, size, &mut decode_bytes(alloc, out)?, text)?;
        }
        ("verdict", [pattern]) => {
            calls::tell_verdict(recording, &decode_bytes(alloc, pattern)?, text)?;
        }
        ("witness", [pattern, out]) => {
            let pattern = &decode_bytes(alloc, pattern)?;
            calls::tell_witness(recording, pattern, &mut decode_bytes(alloc, out)?, text)?;
        }
        ("schedule", [pattern, schedule]) => {
            let pattern = &decode_bytes(alloc, pattern)?;
            calls::tell_schedule(recording, pattern, &decode_bytes(alloc, schedule)?, text)?;
        }
        ("clist", [size, out]) => {
            let size = decode_number(size)?;
            calls::tell_clist(recording, size, &mut decode_bytes(alloc, out)?, text)?;
        }
        ("cverdict", [pattern]) => {
            calls::tell_cverdict(recording, &decode_bytes(alloc, pattern)?, text)?;
        }
        _ => return Err(Fault::BadRequest),
    }
    Ok(())
}

// Makes the call that a line asks for, and puts its answer; where the line is no request, nothing is put.
fn answer_call(alloc: Global, line: &[u8], text: &mut String) -> Result<(), Fault>
    ensures answered { OnOk result (length (string_bytes text.new)
        ≤ length (string_bytes text.old) + 150 + length line.now) }
    ensures refused { result ≡ Err BadRequest → string_bytes text.new ≡ string_bytes text.old }
{
    let line = str::from_utf8(line)?;
    let words = words_of(alloc, line)?;
    let [call, recording, others @ ..] = words.as_slice() else {
        return Err(Fault::BadRequest);
    };
    let recording = &decode_bytes(alloc, recording)?;
    make_call(alloc, call, recording, others, text)
}

// Puts the answer to a line, also to one that is no request: at most 150 bytes more than the line has.
pub fn answer(alloc: Global, line: &[u8], text: &mut String) -> Result<(), AllocError>
    ensures { OnOk result (length (string_bytes text.new)
        ≤ length (string_bytes text.old) + 150 + length line.now) }
{
    match answer_call(alloc, line, text) {
        Ok(()) => Ok(()),
        Err(Fault::BadRequest) => text::put_bad(text),
        Err(Fault::OutOfMemory(error)) => Err(error),
    }
}
