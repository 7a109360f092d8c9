// What each move does: to the record of the reader, to the table of the formula so far, to the scratch that holds the open
// clause, to the ranks of the prefix, and to the marks of the clauses so far.
#![tactic(auto)]

ghost use Rattle.std.specs.Prelude.{◌≡◌, ℕ, ◌≤◌};
ghost use Rattle.meaning.specs.WellFormed.{max_clauses};
ghost use Rattle.qdimacs.specs.Read.{State, complete, after_clause};
ghost use Rattle.qdimacs.specs.declared.Move.TheVariants.{Entry, Close};
ghost use Rattle.tracks.specs.Tracks.{fresh, in_phase, with_m, with_c, with_entry, with_pending, with_closed, Stores, Tracks, Allowed, Entering, Entered, Ready, Steps};

use marks::close_marked;
use qdimacs::{Move, Phase};
use table::{Counts, Pending, Ranks, Scratch, add_rank, push_variable, put_literal};

// What is read so far: the phase, M, C, the clauses closed, as written; the counts of the table, the open clause.
#[derive(Clone, Copy)]
pub struct Reader {
    pub phase: Phase,
    pub m: u16,
    pub c: u16,
    pub closed: usize,
    pub counts: Counts,
    pub pending: Pending,
}

impl Reader {
    // Nothing is read yet.
    pub fn new() -> Self
        ensures { result ≡ fresh }
    {
        Self {
            phase: Phase::AtP,
            m: 0,
            c: 0,
            closed: 0,
            counts: Counts::empty(),
            pending: Some(0),
        }
    }

    // In another phase.
    pub fn in_phase(self, phase: Phase) -> Self
        ensures { result ≡ in_phase self phase }
    {
        Self { phase, ..self }
    }

    // M is told.
    pub fn with_m(self, m: u16) -> Self
        ensures { result ≡ with_m self m }
    {
        Self {
            phase: Phase::AtC,
            m,
            ..self
        }
    }

    // C is told.
    pub fn with_c(self, c: u16) -> Self
        ensures { result ≡ with_c self c }
    {
        Self {
            phase: Phase::Line,
            c,
            ..self
        }
    }

    // An entry more; these are the counts after it.
    pub fn with_entry(self, entry: u16, counts: Counts) -> Self
        ensures { result ≡ with_entry self entry counts }
    {
        Self {
            phase: Phase::Vars(entry % 2),
            counts,
            ..self
        }
    }

    // The open clause has one literal more.
    pub fn with_pending(self, pending: Pending) -> Self
        ensures { result ≡ with_pending self pending }
    {
        Self {
            phase: Phase::Clause,
            pending,
            ..self
        }
    }

    // A clause is closed; these are the counts after it.
    pub fn with_closed(self, counts: Counts) -> Self
        requires { self.closed ≤ max_clauses }
        ensures { result ≡ with_closed self counts }
    {
        let closed = self.closed + 1;
        Self {
            phase: after_clause(closed, self.c),
            closed,
            counts,
            pending: Some(0),
            ..self
        }
    }
}

// Whether a text may end here.
pub fn is_complete(phase: Phase, c: u16) -> bool
    ensures { result ≡ complete phase c }
{
    match phase {
        Phase::Line => c == 0,
        Phase::Full => true,
        _ => false,
    }
}

// The phase after a clause is closed.
pub fn after_clause(closed: usize, c: u16) -> Phase
    ensures { result ≡ after_clause closed c }
{
    if closed == c as usize {
        Phase::Full
    } else {
        Phase::Clause
    }
}

// An entry more at the right end of the prefix.
pub fn add_entry(r: Reader, entry: u16, table: &mut [u16], ranks: &mut Ranks) -> Reader
    requires { Entering r entry table.old ranks.old }
    ensures { (st : State) → Stores st r table.old ranks.old → Allowed st (Entry entry) → Entered st r entry result table.new ranks.new }
{
    match push_variable(table, r.counts, entry) {
        Some(counts) => {
            add_rank(ranks, r.counts.variables, entry);
            r.with_entry(entry, counts)
        }
        None => r,
    }
}

// A clause is complete.
pub fn close(
    r: Reader,
    table: &mut [u16],
    scratch: &mut Scratch,
    ranks: &Ranks,
    marks: &mut [u16],
) -> Result<Reader, u8>
    requires { Ready r Close table.old scratch.old ranks.now marks.old }
    ensures { (st : State) (at : ℕ) → Tracks st r table.old scratch.old ranks.now marks.old → Allowed st Close → Steps st at Close result table.new scratch.new ranks.now marks.new }
{
    match close_marked(table, r.counts, scratch, r.pending, ranks, marks) {
        Some(counts) => Ok(r.with_closed(counts)),
        // Kept: document 01's number, as `Move::Fault` has it.
        None => Err(9),
    }
}

// What a move does: the reader after it, or the number of a fault.
// Kept: the number and no enum of faults, since `Move::Fault` has document 01's numbers, as `Steps` says.
pub fn apply(
    r: Reader,
    mv: Move,
    table: &mut [u16],
    scratch: &mut Scratch,
    ranks: &mut Ranks,
    marks: &mut [u16],
) -> Result<Reader, u8>
    requires { Ready r mv table.old scratch.old ranks.old marks.old }
    ensures { (st : State) (at : ℕ) → Tracks st r table.old scratch.old ranks.old marks.old → Allowed st mv → Steps st at mv result table.new scratch.new ranks.new marks.new }
{
    match mv {
        Move::Fault(k) => Err(k),
        Move::Go(phase) => Ok(r.in_phase(phase)),
        Move::SetM(n) => Ok(r.with_m(n)),
        Move::SetC(n) => Ok(r.with_c(n)),
        Move::Entry(entry) => Ok(add_entry(r, entry, table, ranks)),
        Move::Literal(literal) => {
            let pending = put_literal(scratch, r.pending, literal);
            Ok(r.with_pending(pending))
        }
        Move::Close => close(r, table, scratch, ranks, marks),
    }
}
