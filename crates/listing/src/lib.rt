// The listing of a recording: the call that writes the deadlocks that are found.
#![tactic(auto)]

mod search;
mod size;

ghost use Rattle.std.specs.Prelude.{◌+◌, ◌<◌, ◌≤◌, ◌≡◌, length, take};
ghost use Rattle.std.proofs.lemmas.List.Edits.{sets};
ghost use Rattle.model.specs.Answers.{listed_of};
ghost use Rattle.model.specs.Recording.{decode_all};
ghost use Rattle.model.specs.Listing.{deadlocks};
ghost use Rattle.model.specs.Calls.List.{list, list_out};
ghost use Rattle.listing.specs.Delivered.{Delivered};

use entries::{Found, Full};
use model::{Entries, Question, Refusal};
use pruning::Links;
use recording::Records;
use relations::{Tables, Trace};
use size::Size;

// Lists the deadlocks of at most this size into the output, where all their entries fit it; else it writes
// nothing. Only a listing of more than 65,536 bytes is searched for twice.
fn deliver(links: &Links, size: Size, out: &mut [u8]) -> Result<Found, Full>
    ensures { Delivered (deadlocks (decode_all links.now.trace.now.records.bytes.now) size.events) out.old
        out.new result }
{
    let mut buffer = [0u8; 65536];
    let found = search::search_all(links, size, &mut buffer, out.len())?;
    let bytes = found.bytes;
    if 65536 < bytes {
        return search::search_all(links, size, out, out.len());
    }
    out[..bytes].copy_from_slice(&buffer[..bytes]);
    Ok(found)
}

// The listing of a recording's deadlocks of at most `largest` events, 0 for 16: question 8, then 13.
pub fn list(recording: &[u8], largest: u64, out: &mut [u8]) -> Result<Entries, Refusal>
    ensures answer { listed_of result ≡ list recording.now largest (length out.old) }
    ensures output { out.new ≡ list_out recording.now largest out.old }
{
    let records = Records::read(recording)?;
    let size = Size::try_from(largest)?;
    let mut tables = Tables::blank();
    let trace = Trace::new(&records, &mut tables);
    match deliver(&Links::new(&trace), size, out) {
        Ok(found) => Ok(found.into()),
        Err(Full) => Err(Question::OutputLength.into()),
    }
}
