// The critical sections of locks: an event's held locks, whether the record of an acquire or release is an
// outer one, and its match, off what is kept of the earlier events; and what is kept once the event is noted.
#![tactic(auto)]

ghost use Rattle.std.specs.Prelude.{◌+◌, ◌*◌, ◌<◌, ◌≤◌, ◌≡◌, cond, eqb, length};
ghost use Rattle.model.specs.Trace.{Trace, object, is_acquire};
ghost use Rattle.model.specs.Recording.{decode_all};
ghost use Rattle.model.specs.Relations.{held};
ghost use Rattle.model.specs.Calls.Check.{check_events};
ghost use Rattle.laws.specs.Sizes.{table_length};
ghost use Rattle.laws.specs.Walked.{LatestEvents, KeptDepths, Locksets, marked_before};
ghost use Rattle.sections.specs.declared.Kind.TheVariants.{Uncounted};
ghost use Rattle.sections.specs.Kinds.{IsKind};
ghost use Rattle.sections.specs.Kept.{depths, acquires, OpenBefore};

use recording::Op;

// What an event counts as: its operation, unless it is the record of an acquire or a release that is no outer
// one.
#[derive(Clone, Copy, Debug, PartialEq, Eq, Hash)]
pub enum Kind {
    Read,
    Write,
    Acquire,
    Release,
    Uncounted,
}

// Of a lock its depth, or 1 where it has none, and its latest outer acquire, or 0.
#[derive(Clone, Copy)]
pub struct Section {
    pub depth: u16,
    pub acquire: u16,
}

// What is kept of critical sections before an event: that of each lock, and the locks that each task holds,
// as a mask.
#[derive(Drop)]
pub struct OpenSections {
    pub locks: [Section; 64],
    pub locksets: [u64; 16],
}

impl OpenSections {
    // Before event 1 no section is open.
    pub fn new() -> OpenSections
        ensures { (σ : Trace) → OpenBefore σ 1 result }
    {
        OpenSections {
            locks: [Section {
                depth: 1,
                acquire: 0,
            }; 64],
            locksets: [0; 16],
        }
    }

    // Event e's held locks, those of its task, as a mask.
    pub fn held_locks(&self, records: &[u8], e: usize) -> u64
        requires { (1 ≤ e) × (2 * e ≤ length records.now)
            × Locksets (decode_all records.now) e self.now.locksets }
        ensures { result ≡ held (decode_all records.now) e }
    {
        self.locksets[recording::task(records, e) as usize]
    }

    // The kind of event e: a start, a join, an inner acquire, whose lock is in the mask of its held locks,
    // and an inner release, whose lock is at a depth above 1, do not count.
    pub fn kind_of(&self, records: &[u8], e: usize, mask: u64) -> Kind
        requires { (1 ≤ e) × (2 * e ≤ length records.now)
            × ((check_events (decode_all records.now)).refusal ≡ 0)
            × (mask ≡ held (decode_all records.now) e)
            × KeptDepths (decode_all records.now) e (depths self.now.locks) }
        ensures { IsKind (decode_all records.now) e result }
    {
        let l = recording::object(records, e) as usize;
        match recording::operation(records, e) {
            Op::Read => Kind::Read,
            Op::Write => Kind::Write,
            _ if 64 <= l => Kind::Uncounted,
            Op::Acquire if !recording::in_mask(mask, l as u64) => Kind::Acquire,
            Op::Release if self.locks[l].depth == 1 => Kind::Release,
            _ => Kind::Uncounted,
        }
    }

    // The match of event e, of kind k, as far as the events to it show: of an outer release the latest outer
    // acquire of its lock; an inner event, a start or a join has its own number.
    pub fn match_of(&self, records: &[u8], e: usize, k: Kind) -> u16
        requires { (1 ≤ e) × (2 * e ≤ length records.now) × (e < table_length)
            × ((check_events (decode_all records.now)).refusal ≡ 0)
            × IsKind (decode_all records.now) e k
            × LatestEvents (is_acquire (decode_all records.now)) (object (decode_all records.now)) e
            (acquires self.now.locks) }
        ensures { (result ≤ e) × (result ≡ marked_before (decode_all records.now) (e + 1) e) }
    {
        match k {
            Kind::Release => self.locks[recording::object(records, e) as usize].acquire,
            Kind::Uncounted => e as u16,
            _ => 0,
        }
    }

    // Notes event e, of kind k: an outer acquire opens a section, which an outer release closes, and an inner
    // one changes its lock's depth.
    pub fn note(&mut self, records: &[u8], e: usize, k: Kind)
        requires { (1 ≤ e) × (2 * e ≤ length records.now) × (e < table_length)
            × ((check_events (decode_all records.now)).refusal ≡ 0)
            × IsKind (decode_all records.now) e k
            × OpenBefore (decode_all records.now) e self.old }
        ensures { OpenBefore (decode_all records.now) (e + 1) self.new }
    {
        let t = recording::task(records, e) as usize;
        let l = recording::object(records, e) as usize;
        match k {
            Kind::Acquire => {
                self.locksets[t] |= 1 << l;
                self.locks[l].acquire = e as u16;
            }
            Kind::Release => self.locksets[t] ^= 1 << l,
            Kind::Uncounted => self.note_depth(records, e),
            _ => {}
        }
    }

    // Notes event e, which does not count: an inner acquire takes its lock one deeper, an inner release one
    // up, and a start or a join leaves all as it is.
    fn note_depth(&mut self, records: &[u8], e: usize)
        requires { (1 ≤ e) × (2 * e ≤ length records.now) × (e < table_length)
            × ((check_events (decode_all records.now)).refusal ≡ 0)
            × IsKind (decode_all records.now) e Uncounted
            × OpenBefore (decode_all records.now) e self.old }
        ensures { OpenBefore (decode_all records.now) (e + 1) self.new }
    {
        let l = recording::object(records, e) as usize;
        if 64 <= l {
            return;
        }
        match recording::operation(records, e) {
            Op::Acquire => self.locks[l].depth += 1,
            Op::Release => self.locks[l].depth -= 1,
            _ => {}
        }
    }
}

// The match that a table with marks has for event e: 0 where it is marked by its own number.
pub fn unmarked(noted: u16, e: usize) -> u64
    ensures { result ≡ cond (eqb noted e) 0 noted }
{
    if noted as usize == e {
        return 0;
    }
    noted as u64
}
