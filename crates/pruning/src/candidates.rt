// Which acquires may stand beside the first event of a chain, and the locks that are held at them.
ghost use Rattle.std.specs.Prelude.{◌+◌, ◌*◌, ◌≤◌, ◌≡◌, T, length};
ghost use Rattle.model.specs.Trace.{is_acquire};
ghost use Rattle.model.specs.Recording.{decode_all};
ghost use Rattle.laws.specs.Returning.{all_acquires, beside, Led};
ghost use Rattle.pruning.specs.Candidates.{candidates_of};

use relations::Trace;

// Which acquires may stand beside the first event of a chain: those after an event, by other tasks than one,
// if any, and at which none of some locks is held.
#[derive(Clone, Copy, Debug, PartialEq, Eq)]
pub struct Candidates {
    pub after: usize,
    pub other_than: Option<u8>,
    pub guards: u64,
}

impl Candidates {
    // All acquires.
    pub fn all() -> Candidates
        ensures { candidates_of result ≡ all_acquires }
    {
        Candidates {
            after: 0,
            other_than: None,
            guards: 0,
        }
    }

    // Those that may stand beside event a.
    pub fn beside(trace: &Trace, a: usize) -> Candidates
        requires { (1 ≤ a) × (2 * a ≤ length trace.now.records.bytes.now) }
        ensures { candidates_of result ≡ beside (decode_all trace.now.records.bytes.now) a }
    {
        Candidates {
            after: a,
            other_than: Some(trace.task(a)),
            guards: trace.held(a),
        }
    }

    // Notes the held locks of the acquire e with its lock, unless e is no candidate.
    pub(crate) fn note(&self, trace: &Trace, e: usize, lead: &mut [u64; 64])
        requires { (1 ≤ e) × (2 * e ≤ length trace.now.records.bytes.now)
            × T (is_acquire (decode_all trace.now.records.bytes.now) e)
            × Led (decode_all trace.now.records.bytes.now) (candidates_of self.now) e lead.old }
        ensures { Led (decode_all trace.now.records.bytes.now) (candidates_of self.now) (e + 1) lead.new }
    {
        if self.other_than == Some(trace.task(e)) {
            return;
        }
        let held = trace.held(e);
        if self.guards & held != 0 {
            return;
        }
        let l = trace.object(e) as usize;
        lead[l] |= held;
    }
}
