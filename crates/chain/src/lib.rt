// One event more on a path of the search for deadlocks: whether it may lead back to the first event, and the
// closure of the predecessors with it.
#![tactic(auto)]

mod path;

ghost use Rattle.std.specs.Prelude.{suc, ◌*◌, ◌<◌, ◌≤◌, ◌≡◌, T, length, None};
ghost use Rattle.model.specs.Lists.{all};
ghost use Rattle.model.specs.Trace.{is_event, is_acquire};
ghost use Rattle.model.specs.Recording.{decode_all};
ghost use Rattle.model.specs.Pattern.{largest_pattern};
ghost use Rattle.laws.specs.Frontier.{Before};
ghost use Rattle.laws.specs.Returning.{Returning};
ghost use Rattle.deadlock.specs.declared.Chain.{Chain};
ghost use Rattle.deadlock.specs.Judged.{of_events};
ghost use Rattle.chain.specs.Attempted.{Reusable, kept_of, judged, Attempted, excluded_after};

use deadlock::Chain;
use frontier::Frontier;
pub use path::Path;
use relations::Trace;

// What is found of an acquire after the events of a path: with them it is a deadlock so far, and their
// predecessors have a closure of this frontier; it leads nowhere; nor do the later events of its task; or it
// leads nowhere, and the closure was not asked for.
#[derive(Clone, Copy, Debug, PartialEq, Eq, Hash)]
pub enum Trial {
    Success(Frontier),
    Failure,
    TaskFailure,
    Skipped,
}

// The last attempt at one event more of a path that asked for a closure, if there was one: the task of this
// event, and the frontier.
#[derive(Clone, Copy, Debug, PartialEq, Eq, Hash)]
pub struct Grown {
    last: Option<(u8, Frontier)>,
}

impl Grown {
    // No frontier is kept before the first attempt.
    pub fn new() -> Grown
        ensures { result.last ≡ None }
    {
        Grown { last: None }
    }

    // Keeps the last attempt only where it was at an event of task t.
    fn keep(&mut self, t: u8)
        ensures { self.new.last ≡ kept_of t self.old.last }
    {
        match self.last {
            Some((u, _)) if u == t => {}
            _ => self.last = None,
        }
    }

    // Attempts the acquire e after these events, with at most k more after it: for any chain of these events
    // to whose first one the locks lead back. It is then the last attempt, unless e is skipped.
    pub fn attempt(
        &mut self,
        trace: &Trace,
        back: &[u64; 16],
        events: &[u16],
        k: usize,
        frontier: &Frontier,
        e: usize,
    ) -> Trial
        requires { T (all (is_event (decode_all trace.now.records.bytes.now)) events.now)
            × (k < largest_pattern)
            × Before (decode_all trace.now.records.bytes.now) events.now frontier.now.front
            frontier.now.latest
            × Reusable (decode_all trace.now.records.bytes.now) events.now e self.old
            × (1 ≤ e) × (2 * e ≤ length trace.now.records.bytes.now)
            × T (is_acquire (decode_all trace.now.records.bytes.now) e) }
        ensures { (c : Chain) → Returning (decode_all trace.now.records.bytes.now) c.first (suc k) back.now
            → Attempted (decode_all trace.now.records.bytes.now) k (of_events events.now c) e result self.old
            self.new }
    {
        if !deadlock::lock_in_mask(trace.records.bytes, back[k], e) {
            return Trial::Skipped;
        }
        let own = trace.task(e);
        self.keep(own);
        let (_, grown) = self.last.get_or_insert_with(|| (own, *frontier));
        grown.extend(trace, e);
        judge(trace, events, grown, e)
    }
}

// What is found of event e after these events, by the frontier of the closure of their predecessors.
fn judge(trace: &Trace, events: &[u16], grown: &Frontier, e: usize) -> Trial
    requires { T (all (is_event (decode_all trace.now.records.bytes.now)) events.now)
        × (1 ≤ e) × (2 * e ≤ length trace.now.records.bytes.now) }
    ensures { result ≡ judged (decode_all trace.now.records.bytes.now) events.now grown.now e }
{
    if !deadlock::avoids(trace, events.len(), |i| events[i], grown) {
        return Trial::TaskFailure;
    }
    if grown.contains(trace.records.bytes, e) {
        return Trial::Failure;
    }
    Trial::Success(*grown)
}

// The chain whose later events are sought after event e was attempted: where the task of e fails, with this
// task among its own.
pub fn exclude(records: &[u8], chain: &Chain, met: Trial, e: usize) -> Chain
    requires { (1 ≤ e) × (2 * e ≤ length records.now) }
    ensures { result ≡ excluded_after (decode_all records.now) chain.now met e }
{
    match met {
        Trial::TaskFailure => Chain {
            tasks: deadlock::with_task(records, chain.tasks, e),
            ..*chain
        },
        _ => *chain,
    }
}
