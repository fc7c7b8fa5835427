// The load of a lock: of how many events some task holds it right after them, in per cent.
#![tactic(auto)]

ghost use Rattle.std.specs.Prelude.{◌+◌, ◌*◌, ◌<◌, ◌≤◌, ◌≡◌, length};
ghost use Rattle.model.specs.Answers.{load_of};
ghost use Rattle.model.specs.Trace.{locks};
ghost use Rattle.model.specs.Recording.{decode_all};
ghost use Rattle.model.specs.Calls.Load.{held_events, percent, load};
ghost use Rattle.laws.specs.Sizes.{table_length};
ghost use Rattle.laws.specs.Walked.{LockDepth};

use model::{Question, Refusal};
use recording::{Op, Records};

// The depth of the lock after event e, given that before it, which is below e.
fn depth_after(records: &Records, e: usize, lock: u64, depth: u16) -> u16
    requires { (1 ≤ e) × (2 * e ≤ length records.now.bytes.now)
        × LockDepth (decode_all records.now.bytes.now) e lock depth × (lock < locks) }
    ensures { LockDepth (decode_all records.now.bytes.now) (e + 1) lock result }
{
    if recording::object(records.bytes, e) as u64 != lock {
        return depth;
    }
    match recording::operation(records.bytes, e) {
        Op::Acquire => depth + 1,
        Op::Release => depth - 1,
        _ => depth,
    }
}

// How many events there are after which some task holds the lock.
fn count_held(records: &Records, lock: u64) -> u64
    requires { lock < locks }
    ensures { (result < table_length)
        × (result ≡ held_events (decode_all records.now.bytes.now) lock) }
{
    let mut depth = 0u16;
    let mut held = 0;
    for e in 1..records.len() + 1 {
        depth = depth_after(records, e, lock, depth);
        if depth != 0 {
            held += 1;
        }
    }
    held
}

// 100 × h / n, rounded to nearest, halves to even; 0 for no events. The rest of the division decides between
// the quotient and the next number.
#[tactic(auto, unfolding(model::specs::Calls::Load::percent))]
fn percentage(h: u64, n: u64) -> u64
    requires { (h < table_length) × (n < table_length) }
    ensures { result ≡ percent h n }
{
    if n == 0 {
        return 0;
    }
    let quotient = 100 * h / n;
    let rest = 100 * h % n;
    if 2 * rest < n {
        return quotient;
    }
    if n < 2 * rest {
        return quotient + 1;
    }
    if quotient % 2 == 0 {
        return quotient;
    }
    quotient + 1
}

// The load of one lock: question 14, then the per cent of events after which it is held.
pub fn load(recording: &[u8], lock: u64) -> Result<u64, Refusal>
    ensures { load_of result ≡ load recording.now lock }
{
    let records = Records::read(recording)?;
    if 64 <= lock {
        return Err(Question::LockNumber.into());
    }
    let n = records.len() as u64;
    Ok(percentage(count_held(&records, lock), n))
}
