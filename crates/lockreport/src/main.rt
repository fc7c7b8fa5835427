// The program lockreport: lists the deadlocks of two events of the recording on standard input, and prints
// them as text.
// The text is made as a whole before it is written; its lines are executed and compared. A read that fails
// ends the input, and a write that fails is passed over.
#![tactic(auto)]

ghost use Rattle.std.specs.Prelude.{◌+◌, ◌*◌, ◌≤◌, ◌<◌, ◌≡◌, ◌++◌, length};
ghost use Rattle.std.specs.Prelude.{OnOk, IfOk, string_bytes, codes, decimal};
ghost use Rattle.model.specs.Refused.{number};
ghost use Rattle.model.specs.Answers.{listed_of};
ghost use Rattle.model.specs.Calls.List.{list, list_out};
ghost use Rattle.lockreport.specs.Text.{Entries, text_length};

use model::Refusal;
use std::alloc::{AllocError, Global};
use std::io::{Read, Write};

// One byte more than a recording can have, so that more than 8,192 bytes have a length that no count fits.
const INPUT: usize = 8193;

// Puts a space and an event number, which has at most five digits.
fn put_event(text: &mut String, event: u16) -> Result<(), AllocError>
    ensures { OnOk result (length (string_bytes text.new) ≤ length (string_bytes text.old) + 6) }
{
    printing::push_spaced(text, event as u64)
}

// Puts the event numbers of a pattern, each from two bytes.
fn put_events(text: &mut String, events: &[u8]) -> Result<(), AllocError>
    ensures { OnOk result (length (string_bytes text.new)
        ≤ length (string_bytes text.old) + 3 * length events.now) }
{
    let (numbers, _) = events.as_chunks::<2>();
    for number in numbers {
        put_event(text, u16::from_be_bytes(*number))?;
    }
    Ok(())
}

// Puts the line of a pattern: "deadlock" and its event numbers.
fn put_pattern(text: &mut String, events: &[u8]) -> Result<(), AllocError>
    ensures { OnOk result (length (string_bytes text.new)
        ≤ length (string_bytes text.old) + 3 * length events.now + 9) }
{
    printing::push(text, "deadlock")?;
    put_events(text, events)?;
    printing::push(text, "\n")
}

// Parts entries into the event numbers of the first, behind its size, and the other entries.
#[tactic(auto, using(crate::proofs::Laws::first_entry))]
fn split_entry(entries: &[u8]) -> (&[u8], &[u8])
    requires some { 0 < length entries.now }
    requires entries { Entries entries.now }
    ensures entries { Entries result.1.now }
    ensures parts { length result.0.now + length result.1.now + 2 ≡ length entries.now }
    ensures fewer { length result.1.now < length entries.now }
{
    let size = recording::number(entries, 0) as usize;
    let (entry, others) = entries.split_at(2 * size + 2);
    (&entry[2..], others)
}

// Puts the lines of a listing's entries: one of k events, of 2 * k + 2 bytes, takes at most 6 * k + 9.
fn put_patterns(text: &mut String, entries: &[u8]) -> Result<(), AllocError>
    requires { Entries entries.now }
    ensures { OnOk result (length (string_bytes text.new)
        ≤ length (string_bytes text.old) + 5 * length entries.now) }
{
    let mut left = entries;
    while !left.is_empty() {
        let (events, others) = split_entry(left);
        put_pattern(text, events)?;
        left = others;
    }
    Ok(())
}

// Puts the last line of a listing: "listed" and the number of patterns.
fn put_total(text: &mut String, patterns: u64) -> Result<(), AllocError>
    ensures { OnOk result (string_bytes text.new
        ≡ string_bytes text.old ++ codes "listed " ++ decimal patterns ++ codes "\n") }
{
    writeln!(text, "listed {patterns}")
}

// Puts the lines of a listing's entries, and then the last.
fn put_listing(text: &mut String, entries: &[u8], patterns: u64) -> Result<(), AllocError>
    requires { Entries entries.now }
    ensures { OnOk result (length (string_bytes text.new)
        ≤ length (string_bytes text.old) + text_length (length entries.now)) }
{
    put_patterns(text, entries)?;
    put_total(text, patterns)
}

// Puts the line of a refusal: "refused", its number, "at" and the event.
fn put_refusal(text: &mut String, refusal: Refusal) -> Result<(), AllocError>
    ensures { OnOk result (string_bytes text.new ≡ string_bytes text.old
        ++ codes "refused " ++ decimal (number refusal.question)
        ++ codes " at " ++ decimal refusal.event ++ codes "\n") }
{
    writeln!(
        text,
        "refused {} at {}",
        refusal.question.number(),
        refusal.event
    )
}

// The listing that the lines show: pairs alone, which readers of lockreport like.
fn list_pairs(recording: &[u8], out: &mut [u8]) -> Result<model::Entries, Refusal>
    ensures answer { listed_of result ≡ list recording.now 2 (length out.old) }
    ensures output { out.new ≡ list_out recording.now 2 out.old }
{
    listing::list(recording, 2, out)
}

// The lines for a recording, whose listing gets an output of 65,536 bytes.
fn report(alloc: Global, recording: &[u8]) -> Result<String, AllocError>
    ensures { IfOk result (λ text. length (string_bytes text) ≤ text_length 65536) }
{
    let mut out = [0u8; 65536];
    let mut text = String::new(alloc);
    match list_pairs(recording, &mut out) {
        Ok(listed) => {
            let bytes = listed.bytes as usize;
            put_listing(&mut text, &out[..bytes], listed.patterns)?;
        }
        Err(refusal) => put_refusal(&mut text, refusal)?,
    }
    Ok(text)
}

// Reads standard input to its end, or to the first byte too many, and prints the lines for it. There is room
// for what is read before it is read, so only a read can fail.
fn main(rt: HostRuntime) -> Result<(), AllocError> {
    let mut recording = Vec::with_capacity(rt.alloc(), INPUT)?;
    let _ = rt.stdin().take(INPUT as u64).read_to_end(&mut recording);
    let text = report(rt.alloc(), recording.as_slice())?;
    let _ = rt.stdout().write_all(text.as_bytes());
    Ok(())
}
