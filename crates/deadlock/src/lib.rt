// Deadlock patterns: the chains that they complete, the verdict on a lent one by the closure of its
// predecessors, and the schedule that witnesses it.
#![tactic(auto)]

mod pattern;

ghost use Rattle.std.specs.Prelude.{ℕ, ◌+◌, ◌*◌, ◌^◌, ◌<◌, ◌≤◌, ◌≡◌, not, List, [], ◌∷◌, ◌++◌, T, leb};
ghost use Rattle.std.specs.Prelude.{length, get_or};
ghost use Rattle.std.specs.Int.Bits.{bit_or};
ghost use Rattle.std.proofs.lemmas.List.Edits.{sets};
ghost use Rattle.model.specs.Lists.{all, has_bit};
ghost use Rattle.model.specs.Bytes.{encode};
ghost use Rattle.model.specs.Trace.{task, object, is_acquire};
ghost use Rattle.model.specs.Recording.{decode_all};
ghost use Rattle.model.specs.Relations.{held};
ghost use Rattle.model.specs.Calls.Check.{check_events};
ghost use Rattle.model.specs.Calls.Verdict.{verdict};
ghost use Rattle.model.specs.Calls.Witness.{witness, witness_out};
ghost use Rattle.model.specs.Answers.{verdict_of, witness_of};
ghost use Rattle.laws.specs.Sizes.{table_length};
ghost use Rattle.laws.specs.Chain.{signature, start, add, fits, closes};
ghost use Rattle.deadlock.specs.Judged.{of_events, joins, Decided, Gives, behind_at, behind};
ghost use Rattle.deadlock.specs.Delivered.{delivered, delivered_out, witness_from, witness_out_from};

use frontier::Frontier;
use model::{Question, Refusal, Verdict};
pub use pattern::Pattern;
use recording::{Op, Records};
use relations::{Tables, Trace};

// A chain of outer acquires, by what decides which event may follow: its first and its last one, and the
// masks of its events' tasks and of their held locks.
#[derive(Clone, Copy, Debug, PartialEq, Eq)]
pub struct Chain {
    pub first: usize,
    pub last: usize,
    pub tasks: u64,
    pub guards: u64,
}

// The lock of the acquire e is in the mask.
pub fn lock_in_mask(records: &[u8], mask: u64, e: usize) -> bool
    requires { (1 ≤ e) × (2 * e ≤ length records.now) × T (is_acquire (decode_all records.now) e) }
    ensures { result ≡ has_bit mask (object (decode_all records.now) e) }
{
    recording::in_mask(mask, recording::object(records, e) as u64)
}

// The mask of tasks with that of event e.
pub fn with_task(records: &[u8], tasks: u64, e: usize) -> u64
    requires { (1 ≤ e) × (2 * e ≤ length records.now) }
    ensures { result ≡ bit_or tasks (2 ^ (task (decode_all records.now) e)) }
{
    tasks | (1 << (recording::task(records, e) as u64))
}

// Event e, at which its task holds the locks of the mask, is an outer acquire: it is one of a lock, which is
// not among them.
pub fn is_acquire(records: &[u8], mask: u64, e: usize) -> bool
    requires { (1 ≤ e) × (2 * e ≤ length records.now)
        × ((check_events (decode_all records.now)).refusal ≡ 0) × (mask ≡ held (decode_all records.now) e) }
    ensures { result ≡ is_acquire (decode_all records.now) e }
{
    match recording::operation(records, e) {
        Op::Acquire => {
            let l = recording::object(records, e) as u64;
            l < 64 && !recording::in_mask(mask, l)
        }
        _ => false,
    }
}

impl Chain {
    // The chain of the acquire a.
    pub fn start(trace: &Trace, a: usize) -> Chain
        requires { (1 ≤ a) × (2 * a ≤ length trace.now.records.bytes.now) }
        ensures { of_events (a ∷ []) result ≡ start (signature (decode_all trace.now.records.bytes.now)) a }
    {
        Chain {
            first: a,
            last: a,
            tasks: with_task(trace.records.bytes, 0, a),
            guards: trace.held(a),
        }
    }

    // The chain and event e more.
    pub fn add(&self, trace: &Trace, e: usize) -> Chain
        requires { (1 ≤ e) × (2 * e ≤ length trace.now.records.bytes.now) }
        ensures { (p : List ℕ) → of_events (p ++ e ∷ []) result
            ≡ add (signature (decode_all trace.now.records.bytes.now)) (of_events p self.now) e }
    {
        Chain {
            first: self.first,
            last: e,
            tasks: with_task(trace.records.bytes, self.tasks, e),
            guards: self.guards | trace.held(e),
        }
    }

    // Event e may follow the chain: it is an acquire, its task is new, and its held locks have the last
    // event's lock and none of the chain's.
    pub fn follows(&self, trace: &Trace, e: usize) -> bool
        requires { (1 ≤ self.now.last) × (2 * self.now.last ≤ length trace.now.records.bytes.now)
            × T (is_acquire (decode_all trace.now.records.bytes.now) self.now.last)
            × (1 ≤ e) × (2 * e ≤ length trace.now.records.bytes.now) }
        ensures { result
            ≡ fits (signature (decode_all trace.now.records.bytes.now)) (of_events [] self.now) e }
    {
        let held = trace.held(e);
        if !lock_in_mask(trace.records.bytes, held, self.last) {
            return false;
        }
        if recording::in_mask(self.tasks, trace.task(e) as u64) {
            return false;
        }
        if self.guards & held != 0 {
            return false;
        }
        is_acquire(trace.records.bytes, held, e)
    }

    // The number e may come next in a pattern that begins as the chain does: it is that of an event later
    // than the first one, which may follow.
    fn joins(&self, trace: &Trace, e: usize) -> bool
        requires { (1 ≤ self.now.last) × (2 * self.now.last ≤ length trace.now.records.bytes.now)
            × T (is_acquire (decode_all trace.now.records.bytes.now) self.now.last) }
        ensures { result ≡ joins (decode_all trace.now.records.bytes.now) (of_events [] self.now) e }
    {
        if e <= self.first {
            return false;
        }
        if trace.len() < e {
            return false;
        }
        self.follows(trace, e)
    }

    // The chain is complete: the last event's lock is held at the first.
    pub fn closes(&self, trace: &Trace) -> bool
        requires { (1 ≤ self.now.first) × (2 * self.now.first ≤ length trace.now.records.bytes.now)
            × (1 ≤ self.now.last) × (2 * self.now.last ≤ length trace.now.records.bytes.now)
            × T (is_acquire (decode_all trace.now.records.bytes.now) self.now.last) }
        ensures { result
            ≡ closes (signature (decode_all trace.now.records.bytes.now)) (of_events [] self.now) }
    {
        lock_in_mask(trace.records.bytes, trace.held(self.first), self.last)
    }
}

// None of `count` events, which the closure gives by their places from 0 on, is in the set of the frontier.
pub fn avoids<F: Fn(usize) -> u16>(
    trace: &Trace,
    count: usize,
    event: F,
    frontier: &Frontier,
) -> bool
    requires callable { (i : ℕ) → i < count → F.pre event i }
    requires events { (i : ℕ) (e : ℕ) → i < count → F.post event i e
        → (1 ≤ e) × (2 * e ≤ length trace.now.records.bytes.now) }
    ensures { (ns : List ℕ) → Gives (F.post event) count ns
        → result ≡ all (λ e. not (leb e
        (get_or frontier.now.front (task (decode_all trace.now.records.bytes.now) e) 0))) ns }
{
    for i in 0..count {
        if frontier.contains(trace.records.bytes, event(i) as usize) {
            return false;
        }
    }
    true
}

// Decides the lent bytes: question 10, and then the verdict. Of a deadlock the lent frontier becomes that of
// the closure of its events' predecessors.
pub fn decide(trace: &Trace, bytes: &[u8], frontier: &mut Frontier) -> Result<Verdict, Question>
    ensures { Decided (decode_all trace.now.records.bytes.now) bytes.now result frontier.new }
{
    let pattern = Pattern::read(trace, bytes)?;
    pattern.reach(frontier);
    if avoids(pattern.trace, pattern.len(), |i| pattern.event(i), frontier) {
        return Ok(Verdict::Deadlock);
    }
    Ok(Verdict::Not)
}

// The verdict of a lent pattern: the recording's questions, question 10, then whether the closure of its
// predecessors has none of its events.
pub fn verdict(recording: &[u8], pattern: &[u8]) -> Result<Verdict, Refusal>
    ensures { verdict_of result ≡ verdict recording.now pattern.now }
{
    let records = Records::read(recording)?;
    let mut tables = Tables::blank();
    let trace = Trace::new(&records, &mut tables);
    Ok(decide(&trace, pattern, &mut Frontier::empty())?)
}

// How many events are in the set of the frontier.
fn count_behind(trace: &Trace, frontier: &Frontier) -> u64
    ensures { (result < table_length)
        × (result ≡ length (behind (decode_all trace.now.records.bytes.now) frontier.now.front)) }
{
    let mut count = 0;
    for e in 1..trace.len() + 1 {
        if frontier.contains(trace.records.bytes, e) {
            count += 1;
        }
    }
    count
}

// Writes event e at a position of the output, where it is in the set of the frontier: the position after it.
fn write_one(trace: &Trace, frontier: &Frontier, out: &mut [u8], at: usize, e: usize) -> usize
    requires { (1 ≤ e) × (2 * e ≤ length trace.now.records.bytes.now) × (e < table_length)
        × (at + length (encode (behind_at (decode_all trace.now.records.bytes.now) frontier.now.front e))
        ≤ length out.old) }
    ensures { (result ≡ at
        + length (encode (behind_at (decode_all trace.now.records.bytes.now) frontier.now.front e)))
        × (out.new ≡ sets out.old at
        (encode (behind_at (decode_all trace.now.records.bytes.now) frontier.now.front e))) }
{
    if !frontier.contains(trace.records.bytes, e) {
        return at;
    }
    recording::put_number(out, at, e as u16);
    at + 2
}

// Writes the events in the set of the frontier at the output's front, in recording order and two bytes each.
fn write_behind(trace: &Trace, frontier: &Frontier, out: &mut [u8])
    requires { (2 * length (behind (decode_all trace.now.records.bytes.now) frontier.now.front)
        ≤ length out.old) }
    ensures { out.new ≡ sets out.old 0
        (encode (behind (decode_all trace.now.records.bytes.now) frontier.now.front)) }
{
    let mut at = 0;
    for e in 1..trace.len() + 1 {
        at = write_one(trace, frontier, out, at, e);
    }
}

// Delivers the schedule of a deadlock, the events in the set of the frontier: question 13, and where they fit
// the output they are written at its front, in so many bytes.
fn deliver(trace: &Trace, frontier: &Frontier, out: &mut [u8]) -> Result<u64, Question>
    ensures answer { result ≡ delivered
        (encode (behind (decode_all trace.now.records.bytes.now) frontier.now.front))
        (length out.old) }
    ensures output { out.new ≡ delivered_out
        (encode (behind (decode_all trace.now.records.bytes.now) frontier.now.front)) out.old }
{
    let bytes = 2 * count_behind(trace, frontier);
    if (out.len() as u64) < bytes {
        return Err(Question::OutputLength);
    }
    write_behind(trace, frontier, out);
    Ok(bytes)
}

// The witness call from question 10 on: what is decided of the lent bytes, and where that is deadlock the
// schedule of the frontier.
fn witness_trace(trace: &Trace, pattern: &[u8], out: &mut [u8]) -> Result<Option<u64>, Refusal>
    ensures answer { witness_of result ≡ witness_from (decode_all trace.now.records.bytes.now) pattern.now
        (length out.old) }
    ensures output { out.new ≡ witness_out_from (decode_all trace.now.records.bytes.now) pattern.now out.old }
{
    let mut frontier = Frontier::empty();
    match decide(trace, pattern, &mut frontier)? {
        Verdict::Not => Ok(None),
        Verdict::Deadlock => Ok(Some(deliver(trace, &frontier, out)?)),
    }
}

// The schedule that witnesses a lent pattern, the closure of its predecessors in recording order: questions 1
// to 7, 15 and 16, then question 10, the verdict, and where that is deadlock question 13. It answers how many
// bytes of schedule are written, or none where the verdict is "not".
pub fn witness(recording: &[u8], pattern: &[u8], out: &mut [u8]) -> Result<Option<u64>, Refusal>
    ensures answer { witness_of result ≡ witness recording.now pattern.now (length out.old) }
    ensures output { out.new ≡ witness_out recording.now pattern.now out.old }
{
    let records = Records::read(recording)?;
    let mut tables = Tables::blank();
    witness_trace(&Trace::new(&records, &mut tables), pattern, out)
}
