// The record between C and the face.
ghost use Rattle.std.specs.Prelude.{◌≡◌, ◌≤◌, ◌<◌, get_or, MatchOption};
ghost use Rattle.exports.specs.Records.{counts_in, record_of, side_number};

use rimhlada::Counts;

// The record that the first four numbers are; none where the fourth names neither table.
// Kept: four numbers, since the C interface lends a record as an array of them.
pub fn counts_in(counts: &[u64; 5]) -> Option<Counts>
    ensures { MatchOption result (1 < get_or counts.now 3 0) (λ c. (get_or counts.now 3 0 ≤ 1) × (c ≡ counts_in counts.now)) }
{
    if 1 < counts[3] {
        return None;
    }
    Some(Counts {
        variables: counts[0] as usize,
        clauses: counts[1] as usize,
        literals: counts[2] as usize,
        second: counts[3] == 1,
    })
}

// A record given back, with a number.
pub fn give(counts: &mut [u64; 5], c: Counts, n: usize)
    ensures { counts.new ≡ record_of c n }
{
    *counts = [
        c.variables as u64,
        c.clauses as u64,
        c.literals as u64,
        c.second as u64,
        n as u64,
    ];
}

// The refusal of a record that names neither table: lengths first.
// Kept: a number, since C takes it, and there is no record to ask the face with.
pub fn side_number(first: &[u16], second: &[u16]) -> u8
    ensures { result ≡ side_number first.now second.now }
{
    if first.len() != Counts::TABLE || second.len() != Counts::TABLE {
        return 1;
    }
    2
}
