// Steps, shown. For each case the entry; then the step from the first table and the step from the second, the spare full of junk
// before it. A line has the answer's number, the table that the record names, the three counts, how many numbers of the spare
// are not zero, and the formula that the record names: its text, with slashes for line ends, or its length and sum if it is long.
#![tactic(auto)]

mod cases;
mod faults;
mod rooms;
mod showing;

use std::io;

fn main(rt: HostRuntime) -> io::Result<()> {
    cases::edges(&rt)?;
    cases::units(&rt)?;
    cases::pures(&rt)?;
    cases::subsumptions(&rt)?;
    cases::strengthenings(&rt)?;
    cases::equalities(&rt)?;
    cases::resolutions(&rt)?;
    cases::expansions(&rt)?;
    faults::bad_entries(&rt)?;
    faults::good_entries(&rt)?;
    faults::low_bits(&rt)?;
    faults::lengths(&rt)?;
    faults::records(&rt)?;
    faults::wild_records(&rt)?;
    faults::prefixes(&rt)?;
    faults::ends(&rt)?;
    faults::literals(&rt)?;
    rooms::variables(&rt)?;
    rooms::clauses(&rt)?;
    rooms::literals(&rt)
}
