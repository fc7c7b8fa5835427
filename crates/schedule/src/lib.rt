// The schedule checker: whether a proposed schedule, from any producer, is order-keeping and leaves the
// events of a pattern next. It walks through the schedule once, with three tables of what is listed.
#![tactic(auto)]

ghost use Rattle.std.specs.Prelude.{ℕ, ◌*◌, ◌<◌, ◌≤◌, ◌≡◌, ◌&&◌, true, List, [], ◌∷◌, T, length, get_or};
ghost use Rattle.model.specs.Lists.{all};
ghost use Rattle.model.specs.Trace.{locks, object};
ghost use Rattle.model.specs.Recording.{decode_all};
ghost use Rattle.model.specs.Bytes.{numbers, is_whole};
ghost use Rattle.model.specs.Schedule.{may_follow, sync_preserving, witnesses};
ghost use Rattle.model.specs.Calls.CheckSchedule.{check_schedule};
ghost use Rattle.model.specs.Answers.{checked_of};
ghost use Rattle.schedule.specs.Listed.{Kept, Listed};
ghost use Rattle.schedule.specs.Next.{is_listed, is_ready, is_next, is_unlocked};

use deadlock::Pattern;
use model::Refusal;
use recording::{Op, Records};
use relations::{Tables, Trace};

// What is listed: of each task the latest listed event, of each lock the latest listed outer acquire, and of
// each variable the write that was listed last, or 0.
#[derive(Drop)]
struct Progress {
    last: [u16; 16],
    acquires: [u16; 64],
    writes: [u16; 1024],
}

impl Progress {
    // Whether event e is listed: not 0, and no later than the latest listed event of its task.
    fn is_listed(&self, trace: &Trace, e: u16) -> bool
        requires { 2 * e ≤ length trace.now.records.bytes.now }
        ensures { result ≡ is_listed (decode_all trace.now.records.bytes.now) self.now.last e }
    {
        e != 0 && e <= self.last[trace.task(e as usize) as usize]
    }

    // Whether what an event awaits is there: it is 0, or listed.
    fn is_ready(&self, trace: &Trace, x: u16) -> bool
        requires { 2 * x ≤ length trace.now.records.bytes.now }
        ensures { result ≡ is_ready (decode_all trace.now.records.bytes.now) self.now.last x }
    {
        x == 0 || self.is_listed(trace, x)
    }

    // Whether event e comes next in its task: its predecessor is the latest listed event there, or where none
    // is, the task's start, which is listed.
    fn is_next(&self, trace: &Trace, e: u16) -> bool
        requires { (1 ≤ e) × (2 * e ≤ length trace.now.records.bytes.now) }
        ensures { result ≡ is_next (decode_all trace.now.records.bytes.now) self.now.last e }
    {
        let before = trace.predecessor(e as usize);
        let own = self.last[trace.task(e as usize) as usize];
        if before == own {
            return true;
        }
        if own != 0 {
            return false;
        }
        self.is_listed(trace, before)
    }

    // Whether the outer acquire e finds its lock free and keeps lock order: no outer acquire of it is listed,
    // or the latest one is earlier and its match is listed.
    fn is_unlocked(&self, trace: &Trace, e: u16) -> bool
        requires { (1 ≤ e) × (2 * e ≤ length trace.now.records.bytes.now)
            × (object (decode_all trace.now.records.bytes.now) e < locks)
            × (get_or self.now.acquires (object (decode_all trace.now.records.bytes.now) e) 0
            ≤ length (decode_all trace.now.records.bytes.now)) }
        ensures { result ≡ is_unlocked (decode_all trace.now.records.bytes.now) self.now.last
            self.now.acquires e }
    {
        let latest = self.acquires[trace.object(e as usize) as usize];
        if latest == 0 {
            return true;
        }
        if e <= latest {
            return false;
        }
        self.is_listed(trace, trace.matching(latest as usize))
    }

    // Whether number e may be listed next: it is an event and comes next in its task; a read's last listed
    // write of its variable is its writer, an outer acquire finds its lock free and keeps lock order, and
    // what a join waits for is listed.
    fn follows(&self, trace: &Trace, e: u16) -> bool
        requires { (l : ℕ) → l < locks
            → get_or self.now.acquires l 0 ≤ length (decode_all trace.now.records.bytes.now) }
        ensures { (before : List ℕ) → Listed (decode_all trace.now.records.bytes.now) before self.now
            → result ≡ may_follow (decode_all trace.now.records.bytes.now) before e }
    {
        if e == 0 {
            return false;
        }
        let at = e as usize;
        if trace.len() < at {
            return false;
        }
        if !self.is_next(trace, e) {
            return false;
        }
        match trace.operation(at) {
            Op::Read => self.writes[trace.object(at) as usize] == trace.awaited(at),
            Op::Acquire => trace.matching(at) == e || self.is_unlocked(trace, e),
            _ => self.is_ready(trace, trace.awaited(at)),
        }
    }

    // Notes that event e is listed: as the latest of its task, of its lock where it is an outer acquire, and
    // of its variable where it is a write.
    fn note(&mut self, trace: &Trace, e: u16)
        requires { (1 ≤ e) × (2 * e ≤ length trace.now.records.bytes.now) }
        ensures { (before : List ℕ) → Listed (decode_all trace.now.records.bytes.now) before self.old
            → T (may_follow (decode_all trace.now.records.bytes.now) before e)
            → Listed (decode_all trace.now.records.bytes.now) (e ∷ before) self.new }
    {
        let at = e as usize;
        self.last[trace.task(at) as usize] = e;
        let object = trace.object(at) as usize;
        match trace.operation(at) {
            Op::Write => self.writes[object] = e,
            Op::Acquire => {
                if trace.matching(at) != e {
                    self.acquires[object] = e;
                }
            }
            _ => {}
        }
    }

    // Whether every event of the pattern comes next in its task after what is listed.
    fn leaves_next(&self, pattern: &Pattern) -> bool
        ensures { result ≡ all (is_next (decode_all pattern.now.trace.now.records.bytes.now) self.now.last)
            (numbers pattern.now.bytes.now) }
    {
        for i in 0..pattern.len() {
            if !self.is_next(pattern.trace, pattern.event(i)) {
                return false;
            }
        }
        true
    }

    // Lists the schedule, where nothing is listed yet: whether it is order-keeping, so that each number may
    // follow those before it.
    fn keeps_order(&mut self, trace: &Trace, schedule: &[u8]) -> bool
        requires { Listed (decode_all trace.now.records.bytes.now) [] self.old }
        ensures answer { result
            ≡ sync_preserving (decode_all trace.now.records.bytes.now) (numbers schedule.now) }
        ensures kept { result ≡ true
            → Kept (decode_all trace.now.records.bytes.now) (numbers schedule.now) self.new }
    {
        for i in 0..schedule.len() / 2 {
            let e = recording::number(schedule, i);
            if !self.follows(trace, e) {
                return false;
            }
            self.note(trace, e);
        }
        true
    }
}

// Whether the schedule witnesses the pattern: its length is even, it is order-keeping, and it leaves every
// event of the pattern next.
pub fn witnessed(pattern: &Pattern, schedule: &[u8]) -> bool
    ensures { result ≡ (is_whole schedule.now
        && witnesses (decode_all pattern.now.trace.now.records.bytes.now) (numbers schedule.now)
        (numbers pattern.now.bytes.now)) }
{
    if schedule.len() % 2 != 0 {
        return false;
    }
    let mut progress = Progress {
        last: [0; 16],
        acquires: [0; 64],
        writes: [0; 1024],
    };
    if !progress.keeps_order(pattern.trace, schedule) {
        return false;
    }
    progress.leaves_next(pattern)
}

// Checks a proposed schedule for a lent pattern: question 10, then whether the schedule is order-keeping and
// leaves every event of the pattern next.
pub fn check_schedule(recording: &[u8], pattern: &[u8], schedule: &[u8]) -> Result<bool, Refusal>
    ensures { checked_of result ≡ check_schedule recording.now pattern.now schedule.now }
{
    let records = Records::read(recording)?;
    let mut tables = Tables::blank();
    let trace = Trace::new(&records, &mut tables);
    let pattern = Pattern::read(&trace, pattern)?;
    Ok(witnessed(&pattern, schedule))
}
