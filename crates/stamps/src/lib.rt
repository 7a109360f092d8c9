// Stamps of clauses in a filter. The filter is a slice of 1 to 512 words. A clause's stamp is a word of it, and two bits of that word,
// told by the clause's literals. A clause whose stamp is not there was never put in, so it need not be looked for among those that were.
#![tactic(auto)]

ghost use Rattle.std.specs.Prelude.{◌≡◌, ◌≤◌, ◌<◌, length};
ghost use Rattle.stamps.specs.Stamp.{hash_of, stamped, with_stamp};

// A number of 32 bits, computed from all literals of a clause.
pub fn hash_of(clause: &[u16]) -> u64
    ensures { result ≡ hash_of clause.now }
{
    let mut h: u64 = 0;
    for literal in clause {
        h = (h + *literal as u64) * 1640531527 % 4294967296;
    }
    h
}

// Puts the clause's stamp into the filter. Says whether it was there.
pub fn stamp(filter: &mut [u64], clause: &[u16]) -> bool
    requires { (0 < length filter.old) × (length filter.old ≤ 512) }
    ensures value { result ≡ stamped filter.old clause.now }
    ensures filter_after { filter.new ≡ with_stamp filter.old clause.now }
{
    let words = filter.len() as u64;
    let p = hash_of(clause) * words;
    let at = (p / 4294967296) as usize;
    let old = filter[at];
    let new = old | (1 << (p / 67108864 % 64) | 1 << (p / 1048576 % 64));
    filter[at] = new;
    old == new
}

// Whether the clause's stamp is in the filter.
pub fn has_stamp(filter: &[u64], clause: &[u16]) -> bool
    requires { (0 < length filter.now) × (length filter.now ≤ 512) }
    ensures { result ≡ stamped filter.now clause.now }
{
    let words = filter.len() as u64;
    let p = hash_of(clause) * words;
    let at = (p / 4294967296) as usize;
    let old = filter[at];
    old == old | (1 << (p / 67108864 % 64) | 1 << (p / 1048576 % 64))
}
