// Recordings: the events of one, unpacked from its records, and the check of questions 1 to 7, 15 and 16.
// `records` is the part of a recording after its header of two bytes, wherever it stands.
#![tactic(auto)]

ghost use Rattle.std.specs.Prelude.{◌+◌, ◌*◌, ◌<◌, ◌≤◌, ◌≡◌, cond, ◌&&◌, T, eqb, length, get_or};
ghost use Rattle.std.specs.Prelude.{MatchOption, OnOk, IfOk};
ghost use Rattle.std.proofs.lemmas.List.Edits.{sets};
ghost use Rattle.model.specs.Refused.{refusal};
ghost use Rattle.model.specs.Answers.{fault_of, outcome_of};
ghost use Rattle.model.specs.Lists.{has_bit};
ghost use Rattle.model.specs.Bytes.{numbers, two_bytes};
ghost use Rattle.model.specs.Trace.{Trace, tasks, locks, sync_objects, variables, at, task, object};
ghost use Rattle.model.specs.Trace.{enters, leaves};
ghost use Rattle.model.specs.Tasks.{is_start, is_join};
ghost use Rattle.model.specs.Recording.{decode_all, event_count, trace};
ghost use Rattle.model.specs.Relations.{holds};
ghost use Rattle.model.specs.WellFormed.{is_free, fault};
ghost use Rattle.model.specs.Calls.Check.{check_events, check};
ghost use Rattle.laws.specs.Sizes.{records_length, table_length};
ghost use Rattle.laws.specs.Walked.{Holders};
ghost use Rattle.recording.specs.Asked.{code, Done, IsTarget, IsLockless, Lives, AllDone, Answered, Plainly};
ghost use Rattle.recording.specs.Asked.{Unforked, PlainTo, Asking};

use model::{Question, Refusal};

// What an event's record says that it does: to a variable, or to a lock. An acquire starts, and a release
// joins, where its object stands for a task.
#[derive(Clone, Copy, Debug, PartialEq, Eq, Hash)]
pub enum Op {
    Read = 0,
    Write = 1,
    Acquire = 2,
    Release = 3,
}

// An accepted recording's records.
#[derive(Clone, Copy)]
pub struct Records<'a> {
    pub bytes: &'a [u8],
    ghost short: { length bytes.now ≤ records_length },
    ghost accepted: { (check_events (decode_all bytes.now)).refusal ≡ 0 },
}

// The records of a recording, as many as its header says, before they are asked about.
#[derive(Clone, Copy)]
struct Unasked<'a> {
    bytes: &'a [u8],
    ghost short: { length bytes.now ≤ records_length },
}

// Who holds each lock: the task plus 1, or 0, and how deep it is in it, or 1 without a holder.
#[derive(Drop)]
struct Locks {
    holders: [u8; 64],
    depths: [u16; 64],
}

// What earlier accesses and records of locks have done: to the locks, and of each variable the latest write.
#[derive(Drop)]
struct Past {
    locks: Locks,
    writes: [u16; 1024],
}

// What earlier events have done to a task: its start, the latest join of it and its latest event, or 0.
#[derive(Clone, Copy)]
struct Life {
    start: u16,
    join: u16,
    latest: u16,
}

// What earlier events have done, and from the first start or join on what they have done to each task.
#[derive(Drop)]
struct Forked {
    lives: [Life; 16],
    past: Past,
}

// What an event that no question refuses is found to be: it is asked no more, or its record, an acquire's or
// a release's, names no lock.
#[derive(Clone, Copy)]
enum Asked {
    Passed,
    Lockless,
}

// The number at place i of bytes that are numbers of two bytes, the high byte first.
pub fn number(bytes: &[u8], i: usize) -> u16
    requires { 2 * i + 2 ≤ length bytes.now }
    ensures { result ≡ get_or (numbers bytes.now) i 0 }
{
    u16::from_be_bytes([bytes[2 * i], bytes[2 * i + 1]])
}

// Writes the number n in two bytes at a position, the high byte first.
pub fn put_number(bytes: &mut [u8], at: usize, n: u16)
    requires { at + 2 ≤ length bytes.old }
    ensures { bytes.new ≡ sets bytes.old at (two_bytes n) }
{
    bytes[at..at + 2].copy_from_slice(&n.to_be_bytes());
}

// The operation of event e: the top 2 bits of its record.
pub fn operation(records: &[u8], e: usize) -> Op
    requires { (1 ≤ e) × (2 * e ≤ length records.now) }
    ensures { code result ≡ (at (decode_all records.now) e).op }
{
    match records[2 * (e - 1)] {
        0..=63 => Op::Read,
        64..=127 => Op::Write,
        128..=191 => Op::Acquire,
        _ => Op::Release,
    }
}

// The task of event e: the next 4 bits.
pub fn task(records: &[u8], e: usize) -> u8
    requires { (1 ≤ e) × (2 * e ≤ length records.now) }
    ensures { (result < tasks) × (result ≡ task (decode_all records.now) e) }
{
    (records[2 * (e - 1)] >> 2) & 15
}

// The lock or variable of event e, or what stands for the task that it starts or joins: the low 10 bits.
pub fn object(records: &[u8], e: usize) -> u16
    requires { (1 ≤ e) × (2 * e ≤ length records.now) }
    ensures { (result < variables) × (result ≡ object (decode_all records.now) e) }
{
    let at = 2 * (e - 1);
    (((records[at] & 3) as u16) << 8) | (records[at + 1] as u16)
}

// The task that event e starts or joins: what its object stands for, if it does.
fn target(records: &[u8], e: usize) -> Option<usize>
    requires { (1 ≤ e) × (2 * e ≤ length records.now) × (locks ≤ object (decode_all records.now) e) }
    ensures { MatchOption result (sync_objects ≤ object (decode_all records.now) e)
        (IsTarget (decode_all records.now) e) }
{
    let o = object(records, e) as usize;
    if 80 <= o {
        return None;
    }
    Some(o - 64)
}

// Lock l is in the mask.
pub fn in_mask(mask: u64, l: u64) -> bool
    requires { l < locks }
    ensures { result ≡ has_bit mask l }
{
    (mask >> l) & 1 == 1
}

impl Locks {
    // Puts question 5 to acquire e: its task is then the holder of its lock, one deeper. A depth is at most
    // e, so it fits.
    fn enter(&mut self, records: &Unasked, e: usize, l: usize) -> Result<(), Question>
        requires { (1 ≤ e) × (2 * e ≤ length records.now.bytes.now)
            × T (enters (decode_all records.now.bytes.now) e)
            × (l < locks) × (l ≡ object (decode_all records.now.bytes.now) e)
            × Holders (decode_all records.now.bytes.now) e self.old.holders self.old.depths }
        ensures fault { fault_of result ≡ cond (is_free (decode_all records.now.bytes.now) e) 0 5 }
        ensures held { OnOk result
            (Holders (decode_all records.now.bytes.now) (e + 1) self.new.holders self.new.depths) }
    {
        let own = task(records.bytes, e) + 1;
        if self.holders[l] == 0 {
            self.holders[l] = own;
            return Ok(());
        }
        if self.holders[l] != own {
            return Err(Question::LockFree);
        }
        self.depths[l] += 1;
        Ok(())
    }

    // Puts question 6 to release e: its task is then one less deep in its lock, and at depth 0 the holder no
    // more.
    fn leave(&mut self, records: &Unasked, e: usize, l: usize) -> Result<(), Question>
        requires { (1 ≤ e) × (2 * e ≤ length records.now.bytes.now)
            × T (leaves (decode_all records.now.bytes.now) e)
            × (l < locks) × (l ≡ object (decode_all records.now.bytes.now) e)
            × Holders (decode_all records.now.bytes.now) e self.old.holders self.old.depths }
        ensures fault { fault_of result ≡ cond (holds (decode_all records.now.bytes.now) e
            (task (decode_all records.now.bytes.now) e) (object (decode_all records.now.bytes.now) e)) 0 6 }
        ensures held { OnOk result
            (Holders (decode_all records.now.bytes.now) (e + 1) self.new.holders self.new.depths) }
    {
        if self.holders[l] != task(records.bytes, e) + 1 {
            return Err(Question::LockHeld);
        }
        if self.depths[l] == 1 {
            self.holders[l] = 0;
            return Ok(());
        }
        self.depths[l] -= 1;
        Ok(())
    }
}

impl Past {
    // Puts questions 4 to 7 to event e where it is an access or names a lock; what it does is then done as
    // well. Otherwise it is found lockless, and nothing is done.
    fn ask(&mut self, records: &Unasked, e: usize) -> Result<Asked, Question>
        requires { (1 ≤ e) × (2 * e ≤ length records.now.bytes.now)
            × Done (decode_all records.now.bytes.now) e self.old }
        ensures { Plainly (decode_all records.now.bytes.now) e result self.new }
    {
        let at = object(records.bytes, e) as usize;
        match operation(records.bytes, e) {
            Op::Read => {
                if self.writes[at] == 0 {
                    return Err(Question::Written);
                }
            }
            Op::Write => self.writes[at] = e as u16,
            op => {
                if 64 <= at {
                    return Ok(Asked::Lockless);
                }
                match op {
                    Op::Acquire => self.locks.enter(records, e, at)?,
                    _ => self.locks.leave(records, e, at)?,
                }
            }
        }
        Ok(Asked::Passed)
    }

    // Puts the questions to the events before the first start or join, of which no task is over: the first
    // event that is a start or a join or has no object, if any, before which this then stands.
    fn check(&mut self, records: &Unasked) -> Result<Option<usize>, Refusal>
        requires { Done (decode_all records.now.bytes.now) 1 self.old }
        ensures { PlainTo records.now.bytes.now result self.new }
    {
        for e in 1..records.bytes.len() / 2 + 1 {
            match self.ask(records, e) {
                Ok(Asked::Passed) => {}
                Ok(Asked::Lockless) => return Ok(Some(e)),
                Err(question) => return Err(caused(question, e)),
            }
        }
        Ok(None)
    }
}

impl Life {
    // Nothing is noted of the task.
    fn is_blank(&self) -> bool
        ensures { result ≡ (eqb self.now.start 0 && eqb self.now.join 0 && eqb self.now.latest 0) }
    {
        (self.start == 0) & (self.join == 0) & (self.latest == 0)
    }
}

impl Forked {
    // Notes of the events before event e, none of them a start or a join, the latest one of each task.
    fn note_before(&mut self, records: &Unasked, e: usize)
        requires { (1 ≤ e) × (2 * e ≤ length records.now.bytes.now)
            × Unforked (decode_all records.now.bytes.now) e
            × Lives (decode_all records.now.bytes.now) 1 1 self.old.lives }
        ensures { (self.new.past ≡ self.old.past)
            × Lives (decode_all records.now.bytes.now) e e self.new.lives }
    {
        for f in 1..e {
            self.lives[task(records.bytes, f) as usize].latest = f as u16;
        }
    }

    // Puts question 15 to start e of task u, which is new where it is not the start's own and nothing is
    // noted of it: e is then its start.
    fn start(&mut self, records: &Unasked, e: usize, u: usize) -> Result<(), Question>
        requires { (1 ≤ e) × (2 * e ≤ length records.now.bytes.now)
            × T (is_start (decode_all records.now.bytes.now) e)
            × IsTarget (decode_all records.now.bytes.now) e u
            × AllDone (decode_all records.now.bytes.now) e e self.old }
        ensures { Answered (decode_all records.now.bytes.now) e result self.new }
    {
        let t = task(records.bytes, e) as usize;
        let blank = self.lives[u].is_blank();
        if u == t || !blank {
            return Err(Question::TaskNew);
        }
        self.lives[u].start = e as u16;
        Ok(())
    }

    // Puts the first part of question 16 to join e of task u, whether it joins its own task: e is then the
    // latest join of u.
    fn join(&mut self, records: &Unasked, e: usize, u: usize) -> Result<(), Question>
        requires { (1 ≤ e) × (2 * e ≤ length records.now.bytes.now)
            × T (is_join (decode_all records.now.bytes.now) e)
            × IsTarget (decode_all records.now.bytes.now) e u
            × AllDone (decode_all records.now.bytes.now) e e self.old }
        ensures { Answered (decode_all records.now.bytes.now) e result self.new }
    {
        let t = task(records.bytes, e) as usize;
        if u == t {
            return Err(Question::TaskOpen);
        }
        self.lives[u].join = e as u16;
        Ok(())
    }

    // Puts questions 4 and 15, and of 16 whether a task joins itself, to event e, whose record names no lock:
    // what it does is then done as well.
    fn ask_task(&mut self, records: &Unasked, e: usize) -> Result<(), Question>
        requires { (1 ≤ e) × (2 * e ≤ length records.now.bytes.now)
            × IsLockless (decode_all records.now.bytes.now) e
            × AllDone (decode_all records.now.bytes.now) e e self.old }
        ensures { Answered (decode_all records.now.bytes.now) e result self.new }
    {
        let op = operation(records.bytes, e);
        match target(records.bytes, e) {
            None => Err(Question::Object),
            Some(u) => match op {
                Op::Acquire => self.start(records, e, u),
                _ => self.join(records, e, u),
            },
        }
    }

    // Puts questions 4 to 7 and 15, and of 16 whether a task joins itself, to event e: what it does is then
    // done as well.
    fn ask_object(&mut self, records: &Unasked, e: usize) -> Result<(), Question>
        requires { (1 ≤ e) × (2 * e ≤ length records.now.bytes.now)
            × AllDone (decode_all records.now.bytes.now) e e self.old }
        ensures { Answered (decode_all records.now.bytes.now) e result self.new }
    {
        match self.past.ask(records, e)? {
            Asked::Passed => Ok(()),
            Asked::Lockless => self.ask_task(records, e),
        }
    }

    // Puts questions 4 to 7, 15 and 16 to event e: what it does is then done as well. That its task is over
    // is asked last.
    fn ask(&mut self, records: &Unasked, e: usize) -> Result<(), Question>
        requires { (1 ≤ e) × (2 * e ≤ length records.now.bytes.now)
            × Asking (decode_all records.now.bytes.now) e self.old }
        ensures fault { fault_of result ≡ fault (decode_all records.now.bytes.now) e }
        ensures next { OnOk result (Asking (decode_all records.now.bytes.now) (e + 1) self.new) }
    {
        let t = task(records.bytes, e) as usize;
        let over = self.lives[t].join;
        self.ask_object(records, e)?;
        if over != 0 {
            return Err(Question::TaskOpen);
        }
        self.lives[t].latest = e as u16;
        Ok(())
    }

    // Puts the questions to the events from event `from` on: the earliest event with a "no" decides.
    fn check(&mut self, records: &Unasked, from: usize) -> Result<(), Refusal>
        requires { (1 ≤ from) × (2 * from ≤ length records.now.bytes.now)
            × Asking (decode_all records.now.bytes.now) from self.old }
        ensures { outcome_of result ≡ check_events (decode_all records.now.bytes.now) }
    {
        for e in from..records.bytes.len() / 2 + 1 {
            if let Err(question) = self.ask(records, e) {
                return Err(caused(question, e));
            }
        }
        Ok(())
    }
}

// A refusal that event e causes.
fn caused(question: Question, e: usize) -> Refusal
    ensures { result ≡ refusal question e }
{
    Refusal {
        question,
        event: e as u64,
    }
}

// Puts questions 4 to 7, 15 and 16 event by event: the earliest event with a "no" decides.
fn check_events(records: &Unasked) -> Result<(), Refusal>
    ensures { outcome_of result ≡ check_events (decode_all records.now.bytes.now) }
{
    let mut forked = Forked {
        past: Past {
            locks: Locks {
                holders: [0; 64],
                depths: [1; 64],
            },
            writes: [0; 1024],
        },
        lives: [Life {
            start: 0,
            join: 0,
            latest: 0,
        }; 16],
    };
    match forked.past.check(records)? {
        None => Ok(()),
        Some(from) => {
            forked.note_before(records, from);
            forked.check(records, from)
        }
    }
}

// The event count that the header gives, in the low 12 bits.
pub fn event_count(recording: &[u8]) -> usize
    requires { 2 ≤ length recording.now }
    ensures { (result < table_length) × (result ≡ event_count recording.now) }
{
    u16::from_be_bytes([recording[0] & 15, recording[1]]) as usize
}

// Checks a recording: questions 1 to 3 on its bytes, and 4 to 7, 15 and 16 on the part after its header.
pub fn check(recording: &[u8]) -> Result<(), Refusal>
    ensures { outcome_of result ≡ check recording.now }
{
    if recording.len() < 2 {
        return Err(Question::TwoBytes.into());
    }
    if recording[0] >> 4 != 1 {
        return Err(Question::Format.into());
    }
    if recording.len() != 2 + 2 * event_count(recording) {
        return Err(Question::Length.into());
    }
    check_events(&Unasked {
        bytes: &recording[2..],
    })
}

impl<'a> Records<'a> {
    // Reads a recording: its records, if it is accepted.
    pub fn read(recording: &'a [u8]) -> Result<Records<'a>, Refusal>
        ensures outcome { outcome_of result ≡ check recording.now }
        ensures events { IfOk result (λ r. decode_all r.bytes.now ≡ trace recording.now) }
    {
        check(recording)?;
        Ok(Records {
            bytes: &recording[2..],
        })
    }

    // How many events there are.
    pub fn len(&self) -> usize
        ensures { (result < table_length) × (result ≡ length (decode_all self.now.bytes.now))
            × (2 * result ≤ length self.now.bytes.now) }
    {
        self.bytes.len() / 2
    }
}
