// Paths of the search for deadlocks: chains of acquires, with all their events.
ghost use Rattle.std.specs.Prelude.{◌+◌, ◌*◌, ◌<◌, ◌≤◌, ◌≡◌, [], ◌∷◌, length, take};
ghost use Rattle.model.specs.Recording.{decode_all};
ghost use Rattle.model.specs.Pattern.{largest_pattern};
ghost use Rattle.laws.specs.Chain.{signature, start, add};
ghost use Rattle.deadlock.specs.Judged.{of_events};

use deadlock::Chain;
use relations::Trace;

// A path of the search: the events of a chain, at most 16, and the chain.
#[derive(Clone, Copy, Debug, PartialEq, Eq)]
pub struct Path {
    events: [u16; 16],
    len: usize,
    pub chain: Chain,
    ghost sized: { (1 ≤ len) × (len ≤ largest_pattern) },
}

impl Path {
    // The path of the acquire a alone.
    pub fn start(trace: &Trace, a: usize) -> Path
        requires { (1 ≤ a) × (2 * a ≤ length trace.now.records.bytes.now) }
        ensures len { result.len ≡ 1 }
        ensures chain { of_events (take result.len result.events) result.chain
            ≡ start (signature (decode_all trace.now.records.bytes.now)) a }
    {
        let mut events = [0; 16];
        events[0] = a as u16;
        Path {
            events,
            len: 1,
            chain: Chain::start(trace, a),
        }
    }

    // The path and event e more.
    pub fn with(&self, trace: &Trace, e: usize) -> Path
        requires { (self.now.len < largest_pattern) × (1 ≤ e) × (2 * e ≤ length trace.now.records.bytes.now) }
        ensures len { result.len ≡ self.now.len + 1 }
        ensures chain { of_events (take result.len result.events) result.chain
            ≡ add (signature (decode_all trace.now.records.bytes.now))
            (of_events (take self.now.len self.now.events) self.now.chain) e }
    {
        let mut events = self.events;
        events[self.len] = e as u16;
        Path {
            events,
            len: self.len + 1,
            chain: self.chain.add(trace, e),
        }
    }

    // The events of the path.
    pub fn events(&self) -> &[u16]
        ensures { (result.now ≡ take self.now.len self.now.events) × (length result.now ≡ self.now.len) }
    {
        &self.events[..self.len]
    }
}
