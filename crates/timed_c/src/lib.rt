// The archive for measuring: each export is the entry of timed that has its name.
#![tactic(auto)]

ghost use Rattle.std.specs.Prelude.{◌≡◌, cond, length};
ghost use Rattle.model.specs.Calls.Questions.{is_accepted};
ghost use Rattle.model.specs.Calls.Check.{check};
ghost use Rattle.model.specs.Calls.Relations.{relations};
ghost use Rattle.model.specs.Calls.Load.{load};
ghost use Rattle.model.specs.Calls.Close.{close, close_out};
ghost use Rattle.model.specs.Calls.Witness.{witness, witness_out};
ghost use Rattle.model.specs.Calls.CheckSchedule.{check_schedule};

// Checks a recording: its refusal.
#[unsafe(no_mangle)]
pub extern "C" fn timed_check(recording: &[u8]) -> u64
    ensures { result ≡ (check recording.now).refusal }
{
    timed::timed_check(recording)
}

// Checks a recording, and fills the tables of one that is accepted: its refusal, or else that number.
#[unsafe(no_mangle)]
pub extern "C" fn timed_tables(recording: &[u8]) -> u64
    ensures { cond (is_accepted (check recording.now)) 0 result
        ≡ (check recording.now).refusal }
{
    timed::timed_tables(recording)
}

// Decides the lent pattern so many times, with the recording checked and its tables filled once: 0 for no
// pattern or no accepted recording, 1 for "not", 2 for deadlock.
#[unsafe(no_mangle)]
pub extern "C" fn timed_verdicts(recording: &[u8], pattern: &[u8], rounds: u64) -> u64 {
    timed::timed_verdicts(recording, pattern, rounds)
}

// The held locks of an event.
#[unsafe(no_mangle)]
pub extern "C" fn timed_relations(recording: &[u8], event: u64) -> u64
    ensures { result ≡ (relations recording.now event).held }
{
    timed::timed_relations(recording, event)
}

// A lock's load.
#[unsafe(no_mangle)]
pub extern "C" fn timed_load(recording: &[u8], lock: u64) -> u64
    ensures { result ≡ (load recording.now lock).percent }
{
    timed::timed_load(recording, lock)
}

// How many events a closure adds.
#[unsafe(no_mangle)]
pub extern "C" fn timed_close(recording: &[u8], set: &mut [u8]) -> u64
    ensures added { result ≡ (close recording.now set.old).added }
    ensures closed { set.new ≡ close_out recording.now set.old }
{
    timed::timed_close(recording, set)
}

// How many bytes of schedule are written.
#[unsafe(no_mangle)]
pub extern "C" fn timed_witness(recording: &[u8], pattern: &[u8], out: &mut [u8]) -> u64
    ensures bytes { result ≡ (witness recording.now pattern.now
        (length out.old)).bytes }
    ensures output { out.new ≡ witness_out recording.now pattern.now
        out.old }
{
    timed::timed_witness(recording, pattern, out)
}

// 1 for a valid schedule, otherwise 0.
#[unsafe(no_mangle)]
pub extern "C" fn timed_schedule(recording: &[u8], pattern: &[u8], schedule: &[u8]) -> u64
    ensures { result ≡ cond (check_schedule recording.now pattern.now
        schedule.now).valid 1 0 }
{
    timed::timed_schedule(recording, pattern, schedule)
}
