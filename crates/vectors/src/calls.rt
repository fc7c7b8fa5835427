// The public calls: each is made on bytes and numbers, and its answer put as a line behind the text so far. A
// refusal is told by its number, its event and zeros. An answer takes at most 150 bytes and two for each lent
// byte: seven numbers take 147 with what follows them.
ghost use Rattle.std.specs.Prelude.{◌+◌, ◌*◌, ◌≤◌, length, OnOk, string_bytes};

use crate::text;
use model::{Refusal, Verdict};
use std::alloc::AllocError;

// The fields of a refused answer.
fn refused<const FIELDS: usize>(refusal: Refusal) -> [u64; FIELDS]
    requires { 2 ≤ FIELDS }
{
    let mut fields = [0; FIELDS];
    fields[0] = refusal.question.number();
    fields[1] = refusal.event;
    fields
}

// Checks a recording.
pub fn tell_check(recording: &[u8], text: &mut String) -> Result<(), AllocError>
    ensures { OnOk result (length (string_bytes text.new) ≤ length (string_bytes text.old) + 150) }
{
    let fields = match recording::check(recording) {
        Ok(()) => [0, 0],
        Err(refusal) => refused(refusal),
    };
    text::put_answer(text, &fields)
}

// Tells the relations of an event.
pub fn tell_relations(recording: &[u8], event: u64, text: &mut String) -> Result<(), AllocError>
    ensures { OnOk result (length (string_bytes text.new) ≤ length (string_bytes text.old) + 150) }
{
    let fields = match relations::relations(recording, event) {
        Ok(found) => [
            0,
            0,
            found.held,
            found.locks,
            found.matching,
            found.writer,
            found.predecessor,
        ],
        Err(refusal) => refused(refusal),
    };
    text::put_answer(text, &fields)
}

// Tells the load of a lock.
pub fn tell_load(recording: &[u8], lock: u64, text: &mut String) -> Result<(), AllocError>
    ensures { OnOk result (length (string_bytes text.new) ≤ length (string_bytes text.old) + 150) }
{
    let fields = match load::load(recording, lock) {
        Ok(percent) => [0, 0, percent],
        Err(refusal) => refused(refusal),
    };
    text::put_answer(text, &fields)
}

// Closes an event set.
pub fn tell_close(recording: &[u8], set: &mut [u8], text: &mut String) -> Result<(), AllocError>
    ensures { OnOk result (length (string_bytes text.new)
        ≤ length (string_bytes text.old) + 150 + 2 * length set.old) }
{
    let fields = match closure::close(recording, set) {
        Ok(added) => [0, 0, added],
        Err(refusal) => refused(refusal),
    };
    text::put_lending(text, &fields, set)
}

// Lists the deadlocks of at most `size` events, 0 for 16.
pub fn tell_list(
    recording: &[u8],
    size: u64,
    out: &mut [u8],
    text: &mut String,
) -> Result<(), AllocError>
    ensures { OnOk result (length (string_bytes text.new)
        ≤ length (string_bytes text.old) + 150 + 2 * length out.old) }
{
    let fields = match listing::list(recording, size, out) {
        Ok(listed) => [0, 0, listed.patterns, listed.bytes],
        Err(refusal) => refused(refusal),
    };
    text::put_lending(text, &fields, out)
}

// Tells the verdict of a pattern: 1 for deadlock.
pub fn tell_verdict(recording: &[u8], pattern: &[u8], text: &mut String) -> Result<(), AllocError>
    ensures { OnOk result (length (string_bytes text.new) ≤ length (string_bytes text.old) + 150) }
{
    let fields = match deadlock::verdict(recording, pattern) {
        Ok(Verdict::Not) => [0, 0, 0],
        Ok(Verdict::Deadlock) => [0, 0, 1],
        Err(refusal) => refused(refusal),
    };
    text::put_answer(text, &fields)
}

// Writes the witness of a pattern: 1 for deadlock, and the bytes of schedule.
pub fn tell_witness(
    recording: &[u8],
    pattern: &[u8],
    out: &mut [u8],
    text: &mut String,
) -> Result<(), AllocError>
    ensures { OnOk result (length (string_bytes text.new)
        ≤ length (string_bytes text.old) + 150 + 2 * length out.old) }
{
    let fields = match deadlock::witness(recording, pattern, out) {
        Ok(None) => [0, 0, 0, 0],
        Ok(Some(bytes)) => [0, 0, 1, bytes],
        Err(refusal) => refused(refusal),
    };
    text::put_lending(text, &fields, out)
}

// Checks a schedule for a pattern: 1 for a valid one.
pub fn tell_schedule(
    recording: &[u8],
    pattern: &[u8],
    schedule: &[u8],
    text: &mut String,
) -> Result<(), AllocError>
    ensures { OnOk result (length (string_bytes text.new) ≤ length (string_bytes text.old) + 150) }
{
    let fields = match schedule::check_schedule(recording, pattern, schedule) {
        Ok(valid) => [0, 0, valid as u64],
        Err(refusal) => refused(refusal),
    };
    text::put_answer(text, &fields)
}

// Lists as a C program does.
pub fn tell_clist(
    recording: &[u8],
    size: u64,
    out: &mut [u8],
    text: &mut String,
) -> Result<(), AllocError>
    ensures { OnOk result (length (string_bytes text.new)
        ≤ length (string_bytes text.old) + 150 + 2 * length out.old) }
{
    let number = hidzvoma::hidzvoma_list(recording, size, out);
    text::put_lending(text, &[number], out)
}

// Tells a verdict as a C program gets it.
pub fn tell_cverdict(recording: &[u8], pattern: &[u8], text: &mut String) -> Result<(), AllocError>
    ensures { OnOk result (length (string_bytes text.new) ≤ length (string_bytes text.old) + 150) }
{
    let number = hidzvoma::hidzvoma_verdict(recording, pattern);
    text::put_answer(text, &[number])
}
