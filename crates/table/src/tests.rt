// Tests on clauses: slices of literals.
ghost use Rattle.std.specs.Prelude.{◌≡◌, ◌<◌};
ghost use Rattle.meaning.specs.Lists.{has, same, part_of};
ghost use Rattle.meaning.specs.Formula.{opposite};

// Kept: this and `equal` have contracts in our words, which the proofs above cite.
pub fn contains(clause: &[u16], literal: u16) -> bool
    ensures { result ≡ has literal clause.now }
{
    clause.contains(&literal)
}

pub fn equal(a: &[u16], b: &[u16]) -> bool
    ensures { result ≡ same a.now b.now }
{
    a == b
}

// Whether every literal of a is in b.
pub fn part_of(a: &[u16], b: &[u16]) -> bool
    ensures { result ≡ part_of a.now b.now }
{
    a.iter().all(|l| contains(b, *l))
}

// The literal's opposite. Every number of 16 bits has one.
pub fn flip(literal: u16) -> u16
    ensures { result ≡ opposite literal }
{
    if literal % 2 == 0 {
        return literal + 1;
    }
    literal - 1
}
