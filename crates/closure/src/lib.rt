// The closure of a lent event set: its bytes as words, the latest wanted event of each task, and the frontier
// that closes them, written back as bytes.
#![tactic(auto)]

ghost use Rattle.std.specs.Prelude.{ℕ, suc, ◌+◌, ◌-◌, ◌*◌, ◌<◌, ◌≤◌, ◌≡◌, not, ◌&&◌, ◌||◌, T, eqb, leb, ltb};
ghost use Rattle.std.specs.Prelude.{length, get_or, replicate};
ghost use Rattle.model.specs.Lists.{all, from};
ghost use Rattle.model.specs.Answers.{closed_of};
ghost use Rattle.model.specs.Trace.{tasks, locks, task};
ghost use Rattle.model.specs.Recording.{decode_all};
ghost use Rattle.model.specs.EventSet.{members, set_length, lent_bit, lent_set, set_bytes};
ghost use Rattle.model.specs.Closure.{closure};
ghost use Rattle.model.specs.Calls.Close.{close, close_out};
ghost use Rattle.laws.specs.Walked.{LatestEvents};
ghost use Rattle.laws.specs.BitRow.{row_bit};
ghost use Rattle.closure.specs.Reach.{Closes};

use frontier::Frontier;
use model::{Question, Refusal};
use recording::Records;
use relations::{Tables, Trace};

// Question 12: in the words of a set of so many bytes the bits after event n are zero.
fn spare_clear(words: &[u64; 64], n: usize, bytes: usize) -> bool
    requires { (n ≤ 8 * bytes) × (bytes ≤ 512) }
    ensures { result ≡ all (λ e. not (row_bit 64 words.now (e - 1))) (from (n + 1) (8 * bytes - n)) }
{
    (n + 1..8 * bytes + 1).all(|e| !words::has(words, e))
}

// Of each task the latest event that is in the set.
fn wanted(trace: &Trace, words: &[u64; 64]) -> [u16; 16]
    ensures { LatestEvents (λ f. row_bit 64 words.now (f - 1))
        (task (decode_all trace.now.records.bytes.now))
        (length (decode_all trace.now.records.bytes.now) + 1) result }
{
    let mut want = [0; 16];
    for e in 1..trace.len() + 1 {
        if words::has(words, e) {
            want[trace.task(e) as usize] = e as u16;
        }
    }
    want
}

// Advances the frontier, of the set without events, to that of the closure of the set in the words.
fn reach(trace: &Trace, words: &[u64; 64], frontier: &mut Frontier)
    requires { frontier.old ≡ record { front = replicate tasks 0; latest = replicate locks 0 } }
    ensures { Closes (decode_all trace.now.records.bytes.now) words.now frontier.new.front }
{
    frontier.advance(trace, &mut wanted(trace, words));
}

// Puts the events of the frontier's set into an empty one.
fn put_behind(trace: &Trace, frontier: &Frontier, words: &mut [u64; 64])
    requires { words.old ≡ replicate 64 0 }
    ensures { (i : ℕ) → row_bit 64 words.new i
        ≡ (ltb i (length (decode_all trace.now.records.bytes.now)) && leb (suc i)
        (get_or frontier.now.front (task (decode_all trace.now.records.bytes.now) (suc i)) 0)) }
{
    for e in 1..trace.len() + 1 {
        if frontier.contains(trace.records.bytes, e) {
            words::put(words, e);
        }
    }
}

// Closes a lent set, whose words these are: how many events that adds.
fn close_set(trace: &Trace, words: &[u64; 64], set: &mut [u8]) -> u64
    requires { (length set.old ≡ set_length (length (decode_all trace.now.records.bytes.now)))
        × ((i : ℕ) → row_bit 64 words.now i ≡ row_bit 8 set.old i)
        × T (all (λ e. not (lent_bit set.old e)) (from (suc (length (decode_all trace.now.records.bytes.now)))
        (8 * length set.old - length (decode_all trace.now.records.bytes.now)))) }
    ensures answer { result ≡ length (members (decode_all trace.now.records.bytes.now)
        (closure (decode_all trace.now.records.bytes.now)
        (lent_set (decode_all trace.now.records.bytes.now) set.old)))
        - length (members (decode_all trace.now.records.bytes.now)
        (lent_set (decode_all trace.now.records.bytes.now) set.old)) }
    ensures output { set.new ≡ set_bytes (decode_all trace.now.records.bytes.now)
        (closure (decode_all trace.now.records.bytes.now)
        (lent_set (decode_all trace.now.records.bytes.now) set.old)) }
{
    let mut frontier = Frontier::empty();
    reach(trace, words, &mut frontier);
    let mut closed = [0; 64];
    put_behind(trace, &frontier, &mut closed);
    words::unpack(&closed, set);
    words::count(&closed) - words::count(words)
}

// The closure of a lent event set: questions 11 and 12, then the set is closed in place.
pub fn close(recording: &[u8], set: &mut [u8]) -> Result<u64, Refusal>
    ensures answer { closed_of result ≡ close recording.now set.old }
    ensures output { set.new ≡ close_out recording.now set.old }
{
    let records = Records::read(recording)?;
    let n = records.len();
    if set.len() != (n + 7) / 8 {
        return Err(Question::SetLength.into());
    }
    let mut words = [0; 64];
    words::pack(set, &mut words);
    if !spare_clear(&words, n, set.len()) {
        return Err(Question::SpareBits.into());
    }
    let mut tables = Tables::blank();
    Ok(close_set(&Trace::new(&records, &mut tables), &words, set))
}
