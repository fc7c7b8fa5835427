// The relations of a recording's events: an accepted recording with tables of them, filled in one pass over
// its records, and the call that gives those of one event.
#![tactic(auto)]

ghost use Rattle.std.specs.Prelude.{ℕ, ◌+◌, ◌*◌, ◌<◌, ◌≤◌, ◌≡◌, cond, eqb, length, get_or, Ok};
ghost use Rattle.model.specs.Trace.{tasks, variables, at, task, object};
ghost use Rattle.model.specs.Recording.{decode_all};
ghost use Rattle.model.specs.Relations.{held, predecessor};
ghost use Rattle.model.specs.Calls.Check.{check_events};
ghost use Rattle.model.specs.Calls.Relations.{relations};
ghost use Rattle.model.specs.Answers.{relations_of};
ghost use Rattle.laws.specs.Sizes.{records_length, table_length};
ghost use Rattle.laws.specs.Answered.{event_relations};
ghost use Rattle.laws.specs.EventKinds.{marked};
ghost use Rattle.laws.specs.Order.{awaited, start_in};
ghost use Rattle.recording.specs.Asked.{code};
ghost use Rattle.sections.specs.Kinds.{IsKind};
ghost use Rattle.relations.specs.Tables.{row, blank_row, with_row, IsRow, Tabled, Noted, Walked};

use model::{Question, Refusal, Related};
use order::{Latest, TaskEvents};
use recording::{Op, Records};
use sections::{Kind, OpenSections};

// An accepted recording: its records, and the tables of its events' relations, which lie with the caller.
#[derive(Clone, Copy)]
pub struct Trace<'a> {
    pub records: Records<'a>,
    tables: &'a Tables,
    ghost tabled: { Tabled (decode_all records.bytes.now) tables.now },
}

// For each event what its row has, and for each task its start, beside its latest event.
#[derive(Drop)]
pub struct Tables {
    held: [u64; 4096],
    predecessors: [u16; 4096],
    awaited: [u16; 4096],
    matches: [u16; 4096],
    tasks: [TaskEvents; 16],
}

// What is noted of an event: its held locks, its predecessor, what it awaits (a read its writer, a join what
// it waits for), and its match, or for an inner event, a start or a join its own number.
#[derive(Clone, Copy)]
struct Row {
    held: u64,
    predecessor: u16,
    awaited: u16,
    matching: u16,
}

// What the rows of later events ask for of the earlier ones. Both are lent: as values they would be moved
// here by a call of memcpy.
#[derive(Drop)]
struct Walk<'a> {
    sections: &'a mut OpenSections,
    latest: &'a mut Latest,
}

impl<'a> Walk<'a> {
    // The row of event e, of kind k and with these held locks, as far as the events to it show its match.
    fn row_of(&self, records: &Records, e: usize, mask: u64, k: Kind) -> Row
        requires { (1 ≤ e) × (2 * e ≤ length records.now.bytes.now)
            × (mask ≡ held (decode_all records.now.bytes.now) e)
            × IsKind (decode_all records.now.bytes.now) e k
            × Walked (decode_all records.now.bytes.now) e self.now }
        ensures { (result.matching ≤ e) × IsRow (decode_all records.now.bytes.now) (e + 1) e result }
    {
        Row {
            held: mask,
            predecessor: self.latest.predecessor_of(records.bytes, e),
            awaited: self.latest.awaited_by(records.bytes, e),
            matching: self.sections.match_of(records.bytes, e, k),
        }
    }

    // Notes event e in its row; an outer release is then also the match of its acquire.
    #[inline(always)]
    fn note(&mut self, records: &Records, e: usize, tables: &mut Tables)
        requires { (1 ≤ e) × (2 * e ≤ length records.now.bytes.now)
            × Walked (decode_all records.now.bytes.now) e self.old
            × Noted (decode_all records.now.bytes.now) e tables.old }
        ensures { Walked (decode_all records.now.bytes.now) (e + 1) self.new
            × Noted (decode_all records.now.bytes.now) (e + 1) tables.new }
    {
        let mask = self.sections.held_locks(records.bytes, e);
        let kind = self.sections.kind_of(records.bytes, e, mask);
        let row = self.row_of(records, e, mask, kind);
        self.latest.note(records.bytes, e);
        self.sections.note(records.bytes, e, kind);
        tables.put(e, &row);
        match kind {
            Kind::Release => tables.matches[row.matching as usize] = e as u16,
            _ => {}
        }
    }
}

impl Tables {
    // Room for the tables of a recording, nothing noted yet.
    pub fn blank() -> Tables
        ensures { (e : ℕ) → row result e ≡ blank_row }
    {
        Tables {
            held: [0; 4096],
            predecessors: [0; 4096],
            awaited: [0; 4096],
            matches: [0; 4096],
            tasks: [TaskEvents::NONE; 16],
        }
    }

    // Puts the row of event e.
    fn put(&mut self, e: usize, row: &Row)
        requires { e < table_length }
        ensures { self.new ≡ with_row self.old e row.now }
    {
        self.held[e] = row.held;
        self.predecessors[e] = row.predecessor;
        self.awaited[e] = row.awaited;
        self.matches[e] = row.matching;
    }

    // Fills the tables of accepted records: one pass, each event noted in turn. The arms are alike, so that a
    // turn is compiled for each operation, and what it does to all tables is chosen by one test.
    fn fill(&mut self, records: &Records)
        ensures { Tabled (decode_all records.now.bytes.now) self.new }
    {
        let mut sections = OpenSections::new();
        let mut latest = Latest::new();
        let mut walk = Walk {
            sections: &mut sections,
            latest: &mut latest,
        };
        for e in 1..records.len() + 1 {
            match recording::operation(records.bytes, e) {
                Op::Read => walk.note(records, e, self),
                Op::Write => walk.note(records, e, self),
                Op::Acquire => walk.note(records, e, self),
                Op::Release => walk.note(records, e, self),
            }
        }
        self.tasks = walk.latest.tasks;
    }
}

// The writer of an event with this operation, off what it awaits: 0 unless it is a read.
fn writer_of(operation: Op, awaited: u16) -> u64
    ensures { result ≡ cond (eqb (code operation) 0) awaited 0 }
{
    match operation {
        Op::Read => awaited as u64,
        _ => 0,
    }
}

impl<'a> Trace<'a> {
    // An accepted recording, whose tables are filled.
    pub fn new(records: &Records<'a>, tables: &'a mut Tables) -> Trace<'a>
        ensures { result.records ≡ records.now }
    {
        tables.fill(records);
        Trace {
            records: *records,
            tables: &*tables,
        }
    }

    // How many events there are.
    pub fn len(&self) -> usize
        ensures { (result < table_length) × (result ≡ length (decode_all self.now.records.bytes.now))
            × (2 * result ≤ length self.now.records.bytes.now) }
    {
        self.records.len()
    }

    // The operation of event e.
    pub fn operation(&self, e: usize) -> Op
        requires { (1 ≤ e) × (2 * e ≤ length self.now.records.bytes.now) }
        ensures { code result ≡ (at (decode_all self.now.records.bytes.now) e).op }
    {
        recording::operation(self.records.bytes, e)
    }

    // The task of event e.
    pub fn task(&self, e: usize) -> u8
        requires { (1 ≤ e) × (2 * e ≤ length self.now.records.bytes.now) }
        ensures { (result < tasks) × (result ≡ task (decode_all self.now.records.bytes.now) e) }
    {
        recording::task(self.records.bytes, e)
    }

    // The lock or variable of event e, or what stands for the task that it starts or joins.
    pub fn object(&self, e: usize) -> u16
        requires { (1 ≤ e) × (2 * e ≤ length self.now.records.bytes.now) }
        ensures { (result < variables) × (result ≡ object (decode_all self.now.records.bytes.now) e) }
    {
        recording::object(self.records.bytes, e)
    }

    // The held locks of event e, as a mask.
    pub fn held(&self, e: usize) -> u64
        requires { (1 ≤ e) × (2 * e ≤ length self.now.records.bytes.now) }
        ensures { result ≡ held (decode_all self.now.records.bytes.now) e }
    {
        self.tables.held[e]
    }

    // The predecessor of event e, or 0.
    pub fn predecessor(&self, e: usize) -> u16
        requires { (1 ≤ e) × (2 * e ≤ length self.now.records.bytes.now) }
        ensures { result ≡ predecessor (decode_all self.now.records.bytes.now) e }
    {
        self.tables.predecessors[e]
    }

    // The start of task t, or 0.
    pub fn start(&self, t: usize) -> u16
        requires { t < tasks }
        ensures { result ≡ start_in (decode_all self.now.records.bytes.now) t }
    {
        self.tables.tasks[t].start
    }

    // What event e awaits besides its predecessor: a read its writer, a join what it waits for, or 0.
    pub fn awaited(&self, e: usize) -> u16
        requires { (1 ≤ e) × (2 * e ≤ length self.now.records.bytes.now) }
        ensures { result ≡ awaited (decode_all self.now.records.bytes.now) e }
    {
        self.tables.awaited[e]
    }

    // The match of event e, or 0; of an inner event, a start or a join its own number.
    pub fn matching(&self, e: usize) -> u16
        requires { (1 ≤ e) × (2 * e ≤ length self.now.records.bytes.now) }
        ensures { result ≡ marked (decode_all self.now.records.bytes.now) e }
    {
        self.tables.matches[e]
    }

    // The relations of event e.
    fn related(&self, e: usize) -> Related
        requires { (1 ≤ e) × (2 * e ≤ length self.now.records.bytes.now) }
        ensures { relations_of (Ok result) ≡ event_relations (decode_all self.now.records.bytes.now) e }
    {
        let held = self.held(e);
        Related {
            held,
            locks: held.count_ones() as u64,
            matching: sections::unmarked(self.matching(e), e),
            writer: writer_of(self.operation(e), self.awaited(e)),
            predecessor: self.predecessor(e) as u64,
        }
    }
}

// The relations of one event: question 9, then its held locks and their count, match, writer and predecessor.
pub fn relations(recording: &[u8], event: u64) -> Result<Related, Refusal>
    ensures { relations_of result ≡ relations recording.now event }
{
    let records = Records::read(recording)?;
    let n = records.len() as u64;
    if event == 0 || n < event {
        return Err(Question::EventNumber.into());
    }
    let mut tables = Tables::blank();
    Ok(Trace::new(&records, &mut tables).related(event as usize))
}
