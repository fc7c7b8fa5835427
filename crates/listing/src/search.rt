// The search for deadlocks: depth first over acquires that hold locks, in the listing's order. What it finds
// is taken as entries.
ghost use Rattle.std.specs.Prelude.{suc, ◌+◌, ◌*◌, ◌-◌, ◌<◌, ◌≤◌, ◌≡◌, T, length};
ghost use Rattle.model.specs.Trace.{is_acquire};
ghost use Rattle.model.specs.Recording.{decode_all};
ghost use Rattle.model.specs.Listing.{deadlocks};
ghost use Rattle.laws.specs.Chain.{signature, start};
ghost use Rattle.laws.specs.Walk.{extensions, beginning};
ghost use Rattle.laws.specs.Returning.{all_acquires, Leading, Returning};
ghost use Rattle.entries.specs.Taken.{Taken, Adds};
ghost use Rattle.chain.specs.Attempted.{chain_of};
ghost use Rattle.listing.specs.Open.{Open, completions};

use crate::size::Size;
use chain::{Grown, Path, Trial};
use entries::{Found, Full};
use frontier::Frontier;
use pruning::{Candidates, Links};

// A search for the deadlocks of at most some size that begin with one event: the links of the recording's
// events, the first one, and the locks that lead back to it.
#[derive(Drop)]
struct Search<'a> {
    links: &'a Links<'a>,
    first: usize,
    size: Size,
    back: [u64; 16],
    ghost returning: { Returning (decode_all links.now.trace.now.records.bytes.now) first size.events back },
}

impl<'a> Search<'a> {
    // Takes what begins with a path that is a deadlock so far: it alone where it is complete, and otherwise
    // what extends it by at most k events.
    #[cycle(descend_extend)]
    fn descend(
        &self,
        path: &Path,
        k: usize,
        frontier: &Frontier,
        out: &mut [u8],
        found: Found,
    ) -> Result<Found, Full>
        requires { Open (decode_all self.now.links.now.trace.now.records.bytes.now) self.now.first
            self.now.size.events path.now k frontier.now }
        ensures { Adds (completions (decode_all self.now.links.now.trace.now.records.bytes.now) k
            (chain_of path.now)) out.old out.new found result }
    {
        if path.chain.closes(self.links.trace) {
            return entries::take_pattern(out, path.events(), found);
        }
        if k == 0 {
            return Ok(found);
        }
        self.extend(path, k, frontier, out, found)
    }

    // Extends a path by at most `left` later events, in the listing's order, and takes each pattern that it
    // finds, until these exceed the room.
    #[cycle(descend_extend)]
    fn extend(
        &self,
        path: &Path,
        left: usize,
        frontier: &Frontier,
        out: &mut [u8],
        found: Found,
    ) -> Result<Found, Full>
        requires { Open (decode_all self.now.links.now.trace.now.records.bytes.now) self.now.first
            self.now.size.events path.now left frontier.now
            × (1 ≤ left) }
        ensures { Adds (extensions (decode_all self.now.links.now.trace.now.records.bytes.now) left
            (chain_of path.now)) out.old out.new found result }
    {
        let trace = self.links.trace;
        let events = path.events();
        let mut grown = Grown::new();
        let mut chain = path.chain;
        let mut taken = found;
        let mut at = chain.first;
        while let Some(e) = self.links.following(&chain, at) {
            let met = grown.attempt(trace, &self.back, events, left - 1, frontier, e);
            chain = chain::exclude(trace.records.bytes, &chain, met, e);
            at = e;
            match met {
                Trial::Success(reached) => {
                    taken = self.descend(&path.with(trace, e), left - 1, &reached, out, taken)?;
                }
                _ => {}
            }
        }
        Ok(taken)
    }

    // Extends the path of the first event alone.
    fn begin(&self, out: &mut [u8], found: Found) -> Result<Found, Full>
        requires { (1 ≤ self.now.first)
            × (2 * self.now.first ≤ length self.now.links.now.trace.now.records.bytes.now)
            × T (is_acquire (decode_all self.now.links.now.trace.now.records.bytes.now) self.now.first) }
        ensures { Adds
            (extensions (decode_all self.now.links.now.trace.now.records.bytes.now) (self.now.size.events - 1)
            (start (signature (decode_all self.now.links.now.trace.now.records.bytes.now)) self.now.first))
            out.old out.new found result }
    {
        let trace = self.links.trace;
        let mut frontier = Frontier::empty();
        frontier.extend(trace, self.first);
        let path = Path::start(trace, self.first);
        self.extend(&path, self.size.events - 1, &frontier, out, found)
    }
}

// Takes the patterns that begin with the acquire a, unless its lock cannot lead back to its held locks: by
// the held locks of all acquires, which are given, and then by those that may stand beside a.
fn search_first(
    links: &Links,
    lead: &[u64; 64],
    a: usize,
    size: Size,
    out: &mut [u8],
    found: Found,
) -> Result<Found, Full>
    requires { Leading (decode_all links.now.trace.now.records.bytes.now) all_acquires lead.now
        × (1 ≤ a) × (2 * a ≤ length links.now.trace.now.records.bytes.now)
        × T (is_acquire (decode_all links.now.trace.now.records.bytes.now) a) }
    ensures { Adds (beginning (decode_all links.now.trace.now.records.bytes.now) (size.events - 1) a)
        out.old out.new found result }
{
    let trace = links.trace;
    if pruning::ways_back(trace, lead, a, size.events).is_none() {
        return Ok(found);
    }
    let beside = links.leads(&Candidates::beside(trace, a));
    match pruning::ways_back(trace, &beside, a, size.events) {
        None => Ok(found),
        Some(back) => {
            let search = Search {
                links,
                first: a,
                size,
                back,
            };
            search.begin(out, found)
        }
    }
}

// Takes the deadlocks of at most this size, in the listing's order, until their entries exceed the room; they
// are written where they fit the output.
pub fn search_all(links: &Links, size: Size, out: &mut [u8], room: usize) -> Result<Found, Full>
    ensures { Taken room (deadlocks (decode_all links.now.trace.now.records.bytes.now) size.events)
        out.old out.new result }
{
    let lead = links.leads(&Candidates::all());
    let mut found = Found::none(room);
    let mut at = 0;
    while let Some(a) = links.link(at) {
        found = search_first(links, &lead, a, size, out, found)?;
        at = a;
    }
    Ok(found)
}
