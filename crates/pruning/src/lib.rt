// What the search for deadlocks passes over: events that are no outer acquire at which a lock is held, by
// links to the next one that is, blocks of events in which none holds the last lock, and chains that cannot
// lead back to the first event.
#![tactic(auto)]

mod candidates;

ghost use Rattle.std.specs.Prelude.{ℕ, ◌+◌, ◌-◌, ◌*◌, ◌<◌, ◌≤◌, ◌≡◌, [], cond, T, length, get_or};
ghost use Rattle.model.specs.Lists.{has_bit};
ghost use Rattle.model.specs.Trace.{locks, object, is_acquire};
ghost use Rattle.model.specs.Recording.{decode_all};
ghost use Rattle.model.specs.Pattern.{largest_pattern};
ghost use Rattle.laws.specs.Sizes.{table_length};
ghost use Rattle.laws.specs.Chain.{signature, fits};
ghost use Rattle.laws.specs.Returning.{Covers, beside, Leading, Spread};
ghost use Rattle.deadlock.specs.Judged.{of_events};
ghost use Rattle.pruning.specs.Linked.{is_nested, event_of, Linked, Marked, is_near, Earliest};
ghost use Rattle.pruning.specs.Linked.{WaysBack};
ghost use Rattle.pruning.specs.Candidates.{candidates_of};

pub use candidates::Candidates;
use deadlock::Chain;
use relations::Trace;

// An accepted recording with the links of its events: of each event, and of number 0, the first nested
// acquire after it, or 0, and for each 64 events in turn the locks that are held at their acquires.
#[derive(Drop)]
pub struct Links<'a> {
    pub trace: &'a Trace<'a>,
    next: [u16; 4096],
    blocks: [u64; 64],
    ghost linked: { Linked (decode_all trace.now.records.bytes.now) next },
    ghost marked: { Marked (decode_all trace.now.records.bytes.now) blocks },
}

// Event e where it is a nested acquire, and otherwise `later`.
fn nested_or(trace: &Trace, e: usize, later: u16) -> u16
    requires { (1 ≤ e) × (2 * e ≤ length trace.now.records.bytes.now) }
    ensures { result ≡ cond (is_nested (decode_all trace.now.records.bytes.now) e) e later }
{
    let held = trace.held(e);
    if held == 0 {
        return later;
    }
    if !deadlock::is_acquire(trace.records.bytes, held, e) {
        return later;
    }
    e as u16
}

// Links each event, and number 0, to the first nested acquire after it, from the last event down.
fn link_nested(trace: &Trace) -> [u16; 4096]
    ensures { Linked (decode_all trace.now.records.bytes.now) result }
{
    let mut next = [0; 4096];
    let mut top = 0;
    for e in (1..trace.len() + 1).rev() {
        next[e] = top;
        top = nested_or(trace, e, top);
    }
    next[0] = top;
    next
}

// The event to which the table links event e, or number 0, if any.
fn linked(next: &[u16; 4096], e: usize) -> Option<usize>
    requires { e < table_length }
    ensures { result ≡ event_of (get_or next.now e 0) }
{
    match next[e] {
        0 => None,
        x => Some(x as usize),
    }
}

// Marks for each 64 events in turn the locks that are held at their acquires.
fn mark_blocks(trace: &Trace, next: &[u16; 4096]) -> [u64; 64]
    requires { Linked (decode_all trace.now.records.bytes.now) next.now }
    ensures { Marked (decode_all trace.now.records.bytes.now) result }
{
    let mut blocks = [0; 64];
    let mut at = 0;
    while let Some(e) = linked(next, at) {
        blocks[e / 64] |= trace.held(e);
        at = e;
    }
    blocks
}

impl<'a> Links<'a> {
    // The links of a recording's events.
    pub fn new(trace: &'a Trace<'a>) -> Links<'a>
        ensures { result.trace.now ≡ trace.now }
    {
        let next = link_nested(trace);
        let blocks = mark_blocks(trace, &next);
        Links {
            trace,
            next,
            blocks,
        }
    }

    // The first nested acquire after event e, or number 0, if any.
    pub fn link(&self, e: usize) -> Option<usize>
        requires { 2 * e ≤ length self.now.trace.now.records.bytes.now }
        ensures { Earliest (is_nested (decode_all self.now.trace.now.records.bytes.now))
            (length (decode_all self.now.trace.now.records.bytes.now)) e result }
    {
        linked(&self.next, e)
    }

    // The first nested acquire after e in a block where some acquire holds lock l, if any: other blocks are
    // passed over.
    fn hop(&self, l: u64, e: usize) -> Option<usize>
        requires { (l < locks) × (2 * e ≤ length self.now.trace.now.records.bytes.now) }
        ensures { Earliest (is_near (decode_all self.now.trace.now.records.bytes.now) self.now.blocks l)
            (length (decode_all self.now.trace.now.records.bytes.now)) e result }
    {
        let mut at = e;
        while let Some(x) = self.link(at) {
            if recording::in_mask(self.blocks[x / 64], l) {
                return Some(x);
            }
            at = x / 64 * 64 + 63;
            if self.trace.len() <= at {
                return None;
            }
        }
        None
    }

    // The first event after e that may follow a chain, if any.
    pub fn following(&self, chain: &Chain, e: usize) -> Option<usize>
        requires { (1 ≤ chain.now.last) × (2 * chain.now.last ≤ length self.now.trace.now.records.bytes.now)
            × (2 * e ≤ length self.now.trace.now.records.bytes.now)
            × T (is_acquire (decode_all self.now.trace.now.records.bytes.now) chain.now.last) }
        ensures { Earliest (fits (signature (decode_all self.now.trace.now.records.bytes.now))
            (of_events [] chain.now))
            (length (decode_all self.now.trace.now.records.bytes.now)) e result }
    {
        let l = self.trace.object(chain.last) as u64;
        let mut at = e;
        while let Some(x) = self.hop(l, at) {
            if chain.follows(self.trace, x) {
                return Some(x);
            }
            at = x;
        }
        None
    }

    // For each lock, the locks that are held at those of its acquires that are candidates.
    #[inline]
    pub fn leads(&self, candidates: &Candidates) -> [u64; 64]
        requires { 2 * candidates.now.after ≤ length self.now.trace.now.records.bytes.now }
        ensures { Leading (decode_all self.now.trace.now.records.bytes.now) (candidates_of candidates.now)
            result }
    {
        let mut lead = [0; 64];
        let mut at = candidates.after;
        while let Some(e) = self.link(at) {
            candidates.note(self.trace, e, &mut lead);
            at = e;
        }
        lead
    }
}

// The mask, and where it has lock m also the locks that lead there.
fn widen_by(lead: &[u64; 64], mask: u64, m: usize, wide: u64) -> u64
    requires { m < locks }
    ensures { Covers wide result × (T (has_bit mask m) → Covers (get_or lead.now m 0) result) }
{
    if recording::in_mask(mask, m as u64) {
        return wide | lead[m];
    }
    wide
}

// The mask with the locks that lead to its own.
fn widen(lead: &[u64; 64], mask: u64) -> u64
    ensures { Covers mask result × ((m : ℕ) → m < locks → T (has_bit mask m)
        → Covers (get_or lead.now m 0) result) }
{
    let mut wide = mask;
    for m in 0..64 {
        wide = widen_by(lead, mask, m, wide);
    }
    wide
}

// The locks from which a chain may return to the held locks of its first event by at most 0, 1 and so on to
// count - 1 more events.
fn fill_back(lead: &[u64; 64], held: u64, count: usize) -> [u64; 16]
    requires { (1 ≤ count) × (count ≤ largest_pattern) }
    ensures { Spread lead.now count result × (get_or result 0 0 ≡ held) }
{
    let mut back = [0; 16];
    back[0] = held;
    for i in 1..count {
        back[i] = widen(lead, back[i - 1]);
    }
    back
}

// The locks that lead back to the acquire a after each number of events more, unless no chain of at most
// `count` events that begins with it may return to it.
pub fn ways_back(trace: &Trace, lead: &[u64; 64], a: usize, count: usize) -> Option<[u64; 16]>
    requires { (1 ≤ a) × (2 * a ≤ length trace.now.records.bytes.now)
        × T (is_acquire (decode_all trace.now.records.bytes.now) a)
        × Leading (decode_all trace.now.records.bytes.now) (beside (decode_all trace.now.records.bytes.now) a)
        lead.now
        × (1 ≤ count) × (count ≤ largest_pattern) }
    ensures { WaysBack (decode_all trace.now.records.bytes.now) a count result }
{
    let back = fill_back(lead, trace.held(a), count);
    if !deadlock::lock_in_mask(trace.records.bytes, back[count - 1], a) {
        return None;
    }
    Some(back)
}
