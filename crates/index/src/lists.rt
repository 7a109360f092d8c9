// Reading an index: the list of a literal as a part of it.
ghost use Rattle.std.specs.Prelude.{◌≡◌, ◌+◌, ◌*◌, ◌≤◌, ◌++◌};
ghost use Rattle.meaning.specs.Formula.{Formula};
ghost use Rattle.index.specs.Index.{clauses_with, list_start, Indexes, Indexed};

// Where the numbers begin in an index: behind an end for each literal.
pub const NUMBERS_AT: usize = 2048;

// Where the list of a literal begins; for 2,048, where the last one ends.
pub fn list_start(index: &[u16], literal: usize) -> usize
    requires indexed { Indexed index.now }
    requires literal_bound { literal ≤ 2048 }
    ensures { (φ : Formula) → Indexes φ index.now → result ≡ 2048 + list_start φ.clauses literal }
{
    if literal == 0 {
        return NUMBERS_AT;
    }
    let k = literal - 1;
    NUMBERS_AT + index[k] as usize
}

// The numbers of the clauses that have the literal, ascending, as a part of the index; an empty part for a literal over 2,047.
pub fn clauses_with(index: &[u16], literal: u16) -> &[u16]
    requires { Indexed index.now }
    ensures { (φ : Formula) → Indexes φ index.now → result.now ≡ clauses_with φ.clauses literal }
{
    // Kept: a case of its own, since an index has no list to begin there.
    if 2047 < literal {
        return &index[..0];
    }
    let l = literal as usize;
    let start = list_start(index, l);
    let end = list_start(index, l + 1);
    &index[start..end]
}

// The numbers of the clauses that have a variable: those with its plain literal, then those with its negated one. The two lists stand one
// after the other. An empty part for a variable over 1,023.
pub fn clauses_of(index: &[u16], v: u16) -> &[u16]
    requires { Indexed index.now }
    ensures { (φ : Formula) → Indexes φ index.now → result.now ≡ clauses_with φ.clauses (2 * v) ++ clauses_with φ.clauses (2 * v + 1) }
{
    // Kept: as above.
    if 1023 < v {
        return &index[..0];
    }
    let l = 2 * v as usize;
    let start = list_start(index, l);
    let end = list_start(index, l + 2);
    &index[start..end]
}
