// The order of events: an event's predecessor and what it awaits, off what is kept of the earlier ones, and
// what is kept once the event is noted.
#![tactic(auto)]

ghost use Rattle.std.specs.Prelude.{ℕ, ◌+◌, ◌*◌, ◌<◌, ◌≤◌, ◌≡◌, length};
ghost use Rattle.model.specs.Trace.{Trace, tasks, at};
ghost use Rattle.model.specs.Recording.{decode_all};
ghost use Rattle.model.specs.Relations.{last_of, predecessor, joined};
ghost use Rattle.model.specs.Calls.Check.{check_events};
ghost use Rattle.laws.specs.Sizes.{table_length};
ghost use Rattle.laws.specs.Order.{awaited};
ghost use Rattle.order.specs.Kept.{LatestBefore};

use recording::Op;

// Of a task its latest event and its start, or 0.
#[derive(Clone, Copy)]
pub struct TaskEvents {
    pub event: u16,
    pub start: u16,
}

// What the order of an event asks for of the earlier ones: the events of each task, and the latest write of
// each variable, or 0.
#[derive(Drop)]
pub struct Latest {
    pub tasks: [TaskEvents; 16],
    pub writes: [u16; 1024],
}

impl TaskEvents {
    // Those of a task that has none.
    pub const NONE: TaskEvents = TaskEvents { event: 0, start: 0 };
}

impl Latest {
    // Before event 1 there are none.
    pub fn new() -> Latest
        ensures { (σ : Trace) → LatestBefore σ 1 result }
    {
        Latest {
            tasks: [TaskEvents::NONE; 16],
            writes: [0; 1024],
        }
    }

    // The last event of task t, or where it has none its start, or 0.
    fn last_of(&self, t: usize) -> u16
        requires { t < tasks }
        ensures { (σ : Trace) (e : ℕ) → LatestBefore σ e self.now → result ≡ last_of σ e t }
    {
        if self.tasks[t].event == 0 {
            return self.tasks[t].start;
        }
        self.tasks[t].event
    }

    // The predecessor of event e: the last event of its task, or its start.
    pub fn predecessor_of(&self, records: &[u8], e: usize) -> u16
        requires { (1 ≤ e) × (2 * e ≤ length records.now)
            × LatestBefore (decode_all records.now) e self.now }
        ensures { result ≡ predecessor (decode_all records.now) e }
    {
        self.last_of(recording::task(records, e) as usize)
    }

    // What the release record of event e waits for: a join for the last event of the joined task, or its
    // start, and a release of a lock for nothing.
    fn joined_of(&self, records: &[u8], e: usize) -> u16
        requires { (1 ≤ e) × (2 * e ≤ length records.now)
            × ((check_events (decode_all records.now)).refusal ≡ 0)
            × ((at (decode_all records.now) e).op ≡ 3)
            × LatestBefore (decode_all records.now) e self.now }
        ensures { result ≡ joined (decode_all records.now) e }
    {
        let o = recording::object(records, e) as usize;
        if o < 64 {
            return 0;
        }
        self.last_of(o - 64)
    }

    // What event e awaits: a read the latest write of its variable, a join what it waits for.
    pub fn awaited_by(&self, records: &[u8], e: usize) -> u16
        requires { (1 ≤ e) × (2 * e ≤ length records.now)
            × ((check_events (decode_all records.now)).refusal ≡ 0)
            × LatestBefore (decode_all records.now) e self.now }
        ensures { result ≡ awaited (decode_all records.now) e }
    {
        match recording::operation(records, e) {
            Op::Read => self.writes[recording::object(records, e) as usize],
            Op::Release => self.joined_of(records, e),
            _ => 0,
        }
    }

    // Notes event e, which is then the latest of its task, and where it is a write or a start also of these.
    pub fn note(&mut self, records: &[u8], e: usize)
        requires { (1 ≤ e) × (2 * e ≤ length records.now) × (e < table_length)
            × ((check_events (decode_all records.now)).refusal ≡ 0)
            × LatestBefore (decode_all records.now) e self.old }
        ensures { LatestBefore (decode_all records.now) (e + 1) self.new }
    {
        let o = recording::object(records, e) as usize;
        let op = recording::operation(records, e);
        self.tasks[recording::task(records, e) as usize].event = e as u16;
        match op {
            Op::Write => self.writes[o] = e as u16,
            other => {
                if 64 <= o {
                    if let Op::Acquire = other {
                        self.tasks[o - 64].start = e as u16;
                    }
                }
            }
        }
    }
}
