// The sync-preserving closure of an event set. A set that has the predecessors of its events is kept as its
// frontier, the latest event that it has of each task; an event is visited once, when the frontier passes it.
#![tactic(auto)]

ghost use Rattle.std.specs.Prelude.{◌*◌, ◌<◌, ◌≤◌, ◌≡◌, cond, length, get_or, eqb, leb, replicate};
ghost use Rattle.model.specs.Trace.{tasks, locks, task, object};
ghost use Rattle.model.specs.Relations.{predecessor};
ghost use Rattle.laws.specs.EventKinds.{marked};
ghost use Rattle.model.specs.Recording.{decode_all};
ghost use Rattle.laws.specs.Order.{start_in};
ghost use Rattle.laws.specs.Frontier.{Settled, wanted, Advanced, Turned};
ghost use Rattle.frontier.specs.Visit.{Underway, after_raise, after_want, after_acquire, after_visit};
ghost use Rattle.frontier.specs.Visit.{Unreached};

use recording::Op;
use relations::Trace;

// A closed set, by the latest event that it has of each task, and of each lock its latest outer acquire
// there.
#[derive(Clone, Copy, Debug, PartialEq, Eq, Hash)]
pub struct Frontier {
    pub front: [u16; 16],
    pub latest: [u16; 64],
}

// A frontier on its way to that of a closed set, and of each task the event that it is to reach.
#[derive(Drop)]
struct Advance {
    front: [u16; 16],
    latest: [u16; 64],
    want: [u16; 16],
}

impl Advance {
    // Wants event e of task t, where it is later than the one that is wanted.
    fn raise(&mut self, t: usize, e: u16)
        requires { t < tasks }
        ensures { self.new ≡ after_raise self.old t e }
    {
        if self.want[t] < e {
            self.want[t] = e;
        }
    }

    // Wants the match of event e, or of one that does not count its own number.
    fn want_match(&mut self, trace: &Trace, e: u16)
        requires { (1 ≤ e) × (2 * e ≤ length trace.now.records.bytes.now) }
        ensures { self.new ≡ after_raise self.old (task (decode_all trace.now.records.bytes.now) e)
            (marked (decode_all trace.now.records.bytes.now) e) }
    {
        let at = e as usize;
        self.raise(trace.task(at) as usize, trace.matching(at));
    }

    // Wants event x of whatever task, unless it is 0.
    fn want_event(&mut self, trace: &Trace, x: u16)
        requires { 2 * x ≤ length trace.now.records.bytes.now }
        ensures { self.new ≡ after_want (decode_all trace.now.records.bytes.now) self.old x }
    {
        if x == 0 {
            return;
        }
        self.raise(trace.task(x as usize) as usize, x);
    }

    // Visits the outer acquire f: notes it where it is later than the latest one of its lock that was visited
    // before, and wants the match of the earlier of the two, where there are two.
    fn visit_acquire(&mut self, trace: &Trace, f: u16)
        requires { (1 ≤ f) × (2 * f ≤ length trace.now.records.bytes.now)
            × (object (decode_all trace.now.records.bytes.now) f < locks) }
        ensures { self.new ≡ after_acquire (decode_all trace.now.records.bytes.now) self.old f }
    {
        let l = trace.object(f as usize) as usize;
        let top = self.latest[l];
        if f <= top {
            self.want_match(trace, f);
            return;
        }
        self.latest[l] = f;
        if top == 0 {
            return;
        }
        self.want_match(trace, top);
    }

    // Visits event f, which wants what it awaits, or is visited as an outer acquire. A start or an inner
    // acquire, which is marked by its own number, changes nothing.
    fn visit(&mut self, trace: &Trace, f: u16)
        requires { (1 ≤ f) × (2 * f ≤ length trace.now.records.bytes.now) }
        ensures { self.new ≡ after_visit (decode_all trace.now.records.bytes.now) self.old f }
    {
        match trace.operation(f as usize) {
            Op::Acquire => {
                if trace.matching(f as usize) != f {
                    self.visit_acquire(trace, f);
                }
            }
            _ => self.want_event(trace, trace.awaited(f as usize)),
        }
    }

    // Where the walk of task t ends: at the frontier, or for a task without events in the set at its start,
    // which is then wanted.
    fn begin(&mut self, trace: &Trace, t: usize) -> u16
        requires { t < tasks }
        ensures end { result ≡ cond (eqb (get_or self.old.front t 0) 0)
            (start_in (decode_all trace.now.records.bytes.now) t) (get_or self.old.front t 0) }
        ensures wanted { self.new ≡ after_want (decode_all trace.now.records.bytes.now) self.old
            (cond (eqb (get_or self.old.front t 0) 0)
            (start_in (decode_all trace.now.records.bytes.now) t) 0) }
    {
        let at = self.front[t];
        if at != 0 {
            return at;
        }
        let start = trace.start(t);
        self.want_event(trace, start);
        start
    }

    // A turn of task t: the frontier moves to its wanted event, and each event of the task that it passes is
    // visited.
    fn turn(&mut self, trace: &Trace, t: usize)
        requires { Underway (decode_all trace.now.records.bytes.now) self.old × (t < tasks)
            × (get_or self.old.front t 0 < get_or self.old.want t 0) }
        ensures { Turned (decode_all trace.now.records.bytes.now) self.old.front self.old.want t
            self.new.front self.new.want self.new.latest }
    {
        let mut f = self.want[t];
        let end = self.begin(trace, t);
        self.front[t] = f;
        while end < f {
            self.visit(trace, f);
            f = trace.predecessor(f as usize);
        }
    }

    // The first task whose wanted event the frontier has not reached, if any.
    fn unreached(&self) -> Option<usize>
        ensures { Unreached self.now.front self.now.want result }
    {
        self.front
            .iter()
            .zip(self.want.iter())
            .position(|(at, wanted)| at < wanted)
    }

    // Advances the frontier to that of the smallest closed set with the wanted events, task by task, until
    // none has more to reach. It is compiled once for all who advance one.
    #[inline(never)]
    fn run(&mut self, trace: &Trace)
        requires { Underway (decode_all trace.now.records.bytes.now) self.old }
        ensures { Advanced (decode_all trace.now.records.bytes.now) self.old.want self.new.front
            self.new.latest × (self.new.want ≡ self.new.front) }
    {
        while let Some(t) = self.unreached() {
            self.turn(trace, t);
        }
    }
}

impl Frontier {
    // That of the set without events.
    pub fn empty() -> Frontier
        ensures { result ≡ record { front = replicate tasks 0; latest = replicate locks 0 } }
    {
        Frontier {
            front: [0; 16],
            latest: [0; 64],
        }
    }

    // Advances the frontier to that of the smallest closed set with the wanted events. A closed set is
    // extended the same way: with further events wanted.
    pub fn advance(&mut self, trace: &Trace, want: &mut [u16; 16])
        requires { Settled (decode_all trace.now.records.bytes.now) self.old.front want.old self.old.latest }
        ensures { Advanced (decode_all trace.now.records.bytes.now) want.old self.new.front self.new.latest
            × (want.new ≡ self.new.front) }
    {
        let mut advance = Advance {
            front: self.front,
            latest: self.latest,
            want: *want,
        };
        advance.run(trace);
        self.front = advance.front;
        self.latest = advance.latest;
        *want = advance.want;
    }

    // Extends the closed set by the predecessor of event e.
    pub fn extend(&mut self, trace: &Trace, e: usize)
        requires { Settled (decode_all trace.now.records.bytes.now) self.old.front self.old.front
            self.old.latest
            × (1 ≤ e) × (2 * e ≤ length trace.now.records.bytes.now) }
        ensures { Advanced (decode_all trace.now.records.bytes.now)
            (wanted (decode_all trace.now.records.bytes.now) self.old.front
            (predecessor (decode_all trace.now.records.bytes.now) e)) self.new.front self.new.latest }
    {
        let mut advance = Advance {
            front: self.front,
            latest: self.latest,
            want: self.front,
        };
        advance.want_event(trace, trace.predecessor(e));
        advance.run(trace);
        self.front = advance.front;
        self.latest = advance.latest;
    }

    // Event e is in the set.
    pub fn contains(&self, records: &[u8], e: usize) -> bool
        requires { (1 ≤ e) × (2 * e ≤ length records.now) }
        ensures { result ≡ leb e (get_or self.now.front (task (decode_all records.now) e) 0) }
    {
        e <= self.front[recording::task(records, e) as usize] as usize
    }
}
