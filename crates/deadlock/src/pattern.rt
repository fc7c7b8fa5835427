// Lent patterns: question 10, whether lent bytes are one, and the closure of the predecessors of its events.
// The numbers are two bytes each.
ghost use Rattle.std.specs.Prelude.{◌*◌, ◌<◌, ◌≤◌, ◌≡◌, ◌&&◌, T, length, get_or, drop, is_ok, MatchResult};
ghost use Rattle.model.specs.declared.Question.TheVariants.{Pattern as NoPattern};
ghost use Rattle.model.specs.Lists.{all};
ghost use Rattle.model.specs.Bytes.{numbers, is_whole};
ghost use Rattle.model.specs.Trace.{is_event, is_acquire};
ghost use Rattle.model.specs.Recording.{decode_all};
ghost use Rattle.model.specs.Pattern.{is_pattern};
ghost use Rattle.laws.specs.Chain.{signature, start, completing};
ghost use Rattle.laws.specs.Frontier.{Before};

use crate::Chain;
use frontier::Frontier;
use model::Question;
use relations::Trace;

// The numbers of a lent pattern, each that of an event of the trace.
#[derive(Clone, Copy)]
pub struct Pattern<'a> {
    pub trace: &'a Trace<'a>,
    pub bytes: &'a [u8],
    ghost events: { T (all (is_event (decode_all trace.now.records.bytes.now)) (numbers bytes.now)) },
}

// The number e is that of an outer acquire, with which a pattern may begin.
fn begins(trace: &Trace, e: usize) -> bool
    ensures { result ≡ (is_event (decode_all trace.now.records.bytes.now) e
        && is_acquire (decode_all trace.now.records.bytes.now) e) }
{
    if e == 0 {
        return false;
    }
    if trace.len() < e {
        return false;
    }
    crate::is_acquire(trace.records.bytes, trace.held(e), e)
}

// The numbers after the first complete the chain of the acquire a: each joins the chain before it, and the
// last one closes it.
fn completes(trace: &Trace, bytes: &[u8], a: usize) -> bool
    requires { (1 ≤ a) × (2 * a ≤ length trace.now.records.bytes.now)
        × T (is_acquire (decode_all trace.now.records.bytes.now) a)
        × (2 ≤ length bytes.now) }
    ensures { result ≡ completing (decode_all trace.now.records.bytes.now)
        (start (signature (decode_all trace.now.records.bytes.now)) a) (drop 1 (numbers bytes.now)) }
{
    let mut chain = Chain::start(trace, a);
    for i in 1..bytes.len() / 2 {
        let e = recording::number(bytes, i) as usize;
        if !chain.joins(trace, e) {
            return false;
        }
        chain = chain.add(trace, e);
    }
    chain.closes(trace)
}

impl<'a> Pattern<'a> {
    // Reads lent bytes, if they are a deadlock pattern of the records, smallest event first: question 10.
    pub fn read(trace: &'a Trace<'a>, bytes: &'a [u8]) -> Result<Pattern<'a>, Question>
        ensures lends { is_ok result ≡ (is_whole bytes.now
            && is_pattern (decode_all trace.now.records.bytes.now) (numbers bytes.now)) }
        ensures gives { MatchResult result
            (λ r. (r.trace.now ≡ trace.now) × (r.bytes.now ≡ bytes.now))
            (λ q. q ≡ NoPattern) }
    {
        let length = bytes.len();
        if length % 2 != 0 || length < 4 || 32 < length {
            return Err(Question::Pattern);
        }
        let a = recording::number(bytes, 0) as usize;
        if !begins(trace, a) || !completes(trace, bytes, a) {
            return Err(Question::Pattern);
        }
        Ok(Pattern { trace, bytes })
    }

    // How many numbers there are.
    pub fn len(&self) -> usize
        ensures { result ≡ length (numbers self.now.bytes.now) }
    {
        self.bytes.len() / 2
    }

    // The number at place i: an event of the trace.
    pub fn event(&self, i: usize) -> u16
        requires { i < length (numbers self.now.bytes.now) }
        ensures { (1 ≤ result) × (2 * result ≤ length self.now.trace.now.records.bytes.now)
            × (result ≡ get_or (numbers self.now.bytes.now) i 0) }
    {
        recording::number(self.bytes, i)
    }

    // Makes the lent frontier that of the closure of the events' predecessors, to which it advances event by
    // event from that of the set without events.
    pub fn reach(&self, frontier: &mut Frontier)
        ensures { Before (decode_all self.now.trace.now.records.bytes.now) (numbers self.now.bytes.now)
            frontier.new.front frontier.new.latest }
    {
        frontier.front = [0; 16];
        frontier.latest = [0; 64];
        for i in 0..self.len() {
            frontier.extend(self.trace, self.event(i) as usize);
        }
    }
}
