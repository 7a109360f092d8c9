// The step that a log entry calls, in words.
use std::fmt;

// A step, with the clauses or the variable that it is made on.
// Kept: an enum beside permits' Call, since the face hands out no Call, and this program uses the face alone.
#[derive(Drop)]
enum Step {
    Unit(u32),
    Pure(u32),
    Subsume(u32, u32),
    Strengthen(u32, u32),
    Equality(u32, u32),
    Resolve(u32),
    Expand(u32),
}

// An entry that calls no step.
#[derive(Drop)]
struct NoStep;

impl TryFrom<u32> for Step {
    type Error = NoStep;

    fn try_from(entry: u32) -> Result<Step, NoStep> {
        let a = entry / 262144 % 2048;
        let b = entry / 128 % 2048;
        match entry / 536870912 {
            1 => Ok(Step::Unit(a)),
            2 => Ok(Step::Pure(a)),
            3 => Ok(Step::Subsume(a, b)),
            4 => Ok(Step::Strengthen(a, b)),
            5 => Ok(Step::Equality(a, b)),
            6 => Ok(Step::Resolve(a)),
            7 => Ok(Step::Expand(a)),
            _ => Err(NoStep),
        }
    }
}

impl fmt::Display for Step {
    fn fmt<W: fmt::Write>(&self, f: &mut fmt::Formatter<W>) -> fmt::Result {
        match self {
            Step::Unit(a) => write!(f, "`unit` of clause {a}"),
            Step::Pure(a) => write!(f, "`pure` of variable {a}"),
            Step::Subsume(a, b) => write!(f, "`subsume` of clauses {a} and {b}"),
            Step::Strengthen(a, b) => write!(f, "`strengthen` of clauses {a} and {b}"),
            Step::Equality(a, b) => write!(f, "`equality` of clauses {a} and {b}"),
            Step::Resolve(a) => write!(f, "`resolve` of variable {a}"),
            Step::Expand(a) => write!(f, "`expand` of variable {a}"),
        }
    }
}

// An entry, shown by its step and as it stands in a log: eight hexadecimal digits. A reason names no entry without a step.
#[derive(Drop)]
pub struct Entry(pub u32);

impl fmt::Display for Entry {
    fn fmt<W: fmt::Write>(&self, f: &mut fmt::Formatter<W>) -> fmt::Result {
        let entry = self.0;
        match Step::try_from(entry) {
            Ok(step) => write!(f, "{step} (log entry {entry:08x})"),
            Err(NoStep) => write!(f, "no step (log entry {entry:08x})"),
        }
    }
}
