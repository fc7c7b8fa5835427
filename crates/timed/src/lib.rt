// Entries for measuring: the check alone, the check with the tables of every event filled after it, the
// decision on one pattern many times over, and a number of each other call's answer but for the listing's and
// the verdict's, whose entries for C are measured.
#![tactic(auto)]

ghost use Rattle.std.specs.Prelude.{◌<◌, ◌≤◌, ◌≡◌, cond, length};
ghost use Rattle.model.specs.Recording.{decode_all};
ghost use Rattle.model.specs.Calls.Questions.{is_accepted};
ghost use Rattle.model.specs.Calls.Check.{check};
ghost use Rattle.model.specs.Calls.Relations.{relations};
ghost use Rattle.model.specs.Calls.Load.{load};
ghost use Rattle.model.specs.Calls.Close.{close, close_out};
ghost use Rattle.model.specs.Calls.Witness.{witness, witness_out};
ghost use Rattle.model.specs.Calls.CheckSchedule.{check_schedule};

use frontier::Frontier;
use model::{Question, Verdict};
use recording::Records;
use relations::{Tables, Trace};

// Checks a recording: its refusal.
#[unsafe(no_mangle)]
pub extern "C" fn timed_check(recording: &[u8]) -> u64
    ensures { result ≡ (check recording.now).refusal }
{
    match recording::check(recording) {
        Ok(()) => 0,
        Err(refusal) => refusal.question.number(),
    }
}

// Compares what the last event's row and record have: a number to 4 that depends on every field, so that the
// compiler leaves none out. With no event every table has 0, so the first two that are compared are equal.
fn compare_entries(trace: &Trace) -> u64
    ensures small { result ≤ 4 }
    ensures empty { length (decode_all trace.now.records.bytes.now) ≡ 0 → result ≡ 1 }
{
    let n = trace.len();
    if n == 0 {
        return 1;
    }
    if trace.operation(n) as u8 == trace.task(n) {
        return 1;
    }
    if trace.object(n) == trace.matching(n) {
        return 2;
    }
    if trace.predecessor(n) == trace.awaited(n) {
        return 3;
    }
    if trace.held(n) == 0 {
        return 4;
    }
    0
}

// Checks a recording, and fills the tables of one that is accepted: its refusal, or else that number.
#[unsafe(no_mangle)]
pub extern "C" fn timed_tables(recording: &[u8]) -> u64
    ensures { cond (is_accepted (check recording.now)) 0 result
        ≡ (check recording.now).refusal }
{
    match Records::read(recording) {
        Ok(records) => {
            let mut tables = Tables::blank();
            compare_entries(&Trace::new(&records, &mut tables))
        }
        Err(refusal) => refusal.question.number(),
    }
}

// Decides the pattern again and again: what was decided last.
fn decide_often(trace: &Trace, pattern: &[u8], rounds: u64) -> Result<Verdict, Question> {
    let mut decided = Err(Question::Pattern);
    for _ in 0..rounds {
        decided = deadlock::decide(trace, pattern, &mut Frontier::empty());
    }
    decided
}

// Decides the lent pattern so many times, with the recording checked and its tables filled once: 0 for no
// pattern or no accepted recording, 1 for "not", 2 for deadlock.
#[unsafe(no_mangle)]
pub extern "C" fn timed_verdicts(recording: &[u8], pattern: &[u8], rounds: u64) -> u64 {
    let decided = match Records::read(recording) {
        Ok(records) => {
            let mut tables = Tables::blank();
            decide_often(&Trace::new(&records, &mut tables), pattern, rounds)
        }
        Err(refusal) => Err(refusal.question),
    };
    match decided {
        Err(_) => 0,
        Ok(Verdict::Not) => 1,
        Ok(Verdict::Deadlock) => 2,
    }
}

// The held locks of an event.
#[unsafe(no_mangle)]
pub extern "C" fn timed_relations(recording: &[u8], event: u64) -> u64
    ensures { result ≡ (relations recording.now event).held }
{
    match relations::relations(recording, event) {
        Ok(related) => related.held,
        Err(_) => 0,
    }
}

// A lock's load.
#[unsafe(no_mangle)]
pub extern "C" fn timed_load(recording: &[u8], lock: u64) -> u64
    ensures { result ≡ (load recording.now lock).percent }
{
    load::load(recording, lock).unwrap_or(0)
}

// How many events a closure adds.
#[unsafe(no_mangle)]
pub extern "C" fn timed_close(recording: &[u8], set: &mut [u8]) -> u64
    ensures added { result ≡ (close recording.now set.old).added }
    ensures closed { set.new ≡ close_out recording.now set.old }
{
    closure::close(recording, set).unwrap_or(0)
}

// How many bytes of schedule are written.
#[unsafe(no_mangle)]
pub extern "C" fn timed_witness(recording: &[u8], pattern: &[u8], out: &mut [u8]) -> u64
    ensures bytes { result ≡ (witness recording.now pattern.now
        (length out.old)).bytes }
    ensures output { out.new ≡ witness_out recording.now pattern.now
        out.old }
{
    match deadlock::witness(recording, pattern, out) {
        Ok(Some(bytes)) => bytes,
        _ => 0,
    }
}

// 1 for a valid schedule, otherwise 0.
#[unsafe(no_mangle)]
pub extern "C" fn timed_schedule(recording: &[u8], pattern: &[u8], schedule: &[u8]) -> u64
    ensures { result ≡ cond (check_schedule recording.now pattern.now
        schedule.now).valid 1 0 }
{
    match schedule::check_schedule(recording, pattern, schedule) {
        Ok(true) => 1,
        _ => 0,
    }
}
