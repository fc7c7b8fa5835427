// The entries for C: the listing and the verdict on numbers and byte slices, each returning one number. What
// they promise a C program is told in include/hidzvoma.h.
#![tactic(auto)]

ghost use Rattle.std.specs.Prelude.{◌+◌, ◌*◌, ◌<◌, ◌≡◌, length};
ghost use Rattle.model.specs.Refused.{number};
ghost use Rattle.model.specs.Calls.List.{list_out};
ghost use Rattle.model.specs.Calls.Entries.{list_entry, verdict_entry};

use model::{Refusal, Verdict};

// A refusal's number and event as one odd number.
fn refused(refusal: Refusal) -> u64
    requires { refusal.event < 65536 }
    ensures { result ≡ 2 * (65536 * number refusal.question + refusal.event) + 1 }
{
    2 * (65536 * refusal.question.number() + refusal.event) + 1
}

// The listing, with the size as it is given: the bytes written, which are even in number, or a refusal.
#[unsafe(no_mangle)]
pub extern "C" fn hidzvoma_list(recording: &[u8], largest: u64, out: &mut [u8]) -> u64
    ensures number { result ≡ list_entry recording.now largest (length out.old) }
    ensures output { out.new ≡ list_out recording.now largest out.old }
{
    match listing::list(recording, largest, out) {
        Ok(listed) => listed.bytes,
        Err(refusal) => refused(refusal),
    }
}

// The verdict of a lent pattern: 2 for deadlock, 0 for not, or a refusal.
#[unsafe(no_mangle)]
pub extern "C" fn hidzvoma_verdict(recording: &[u8], pattern: &[u8]) -> u64
    ensures { result ≡ verdict_entry recording.now pattern.now }
{
    match deadlock::verdict(recording, pattern) {
        Ok(Verdict::Deadlock) => 2,
        Ok(Verdict::Not) => 0,
        Err(refusal) => refused(refusal),
    }
}
