// The signatures of clauses: in the index behind the last list, as far as there is room.
ghost use Rattle.std.specs.Prelude.{◌≡◌, ℕ, ◌<◌, true, List, length, get_or, set};
ghost use Rattle.meaning.specs.Formula.{Formula};
ghost use Rattle.table.specs.Table.{Holds, Held};
ghost use Rattle.index.specs.Signs.{signature_of, variables_in, Signs};
ghost use Rattle.index.specs.Index.{lists_of, index_of, Indexes, Indexed};

use crate::lists::{NUMBERS_AT, list_start};
use table::{Counts, clause_at};

// 16 bits, a bit for each variable of the clause.
pub fn signature(clause: &[u16]) -> u16
    ensures { result ≡ signature_of clause.now }
{
    clause
        .iter()
        .fold(0, |sign, literal| sign | 1 << (*literal / 2 % 16))
}

// One signature, where the table has the place.
fn put_signature(index: &mut [u16], at: usize, sign: u16)
    ensures { index.new ≡ set index.old at sign }
{
    if at < index.len() {
        index[at] = sign;
    }
}

// The signatures of all clauses, behind the lists.
pub fn put_signatures(t: &[u16], c: Counts, index: &mut [u16])
    requires held { Held t.now c }
    requires index_len { length index.old ≡ 11261 }
    ensures { (φ : Formula) → Holds φ t.now c → index.old ≡ lists_of φ.clauses → index.new ≡ index_of φ.clauses }
{
    let start = NUMBERS_AT + index[2047] as usize;
    for i in 0..c.clauses {
        put_signature(index, start + i, signature(clause_at(t, c, i)));
    }
}

// The signatures, as a part of the index: at the number of a clause its signature, unless the part ends before.
pub fn signatures(index: &[u16]) -> &[u16]
    requires { Indexed index.now }
    ensures { (φ : Formula) → Indexes φ index.now → Signs φ.clauses result.now }
{
    let start = list_start(index, NUMBERS_AT);
    &index[start..]
}

// Whether clause b may have all variables of a clause with this signature: if it has, the signature is a part of that of b. Where the answer
// is no, the clause need not be looked at; a clause without a signature has to be.
pub fn may_be_part(signs: &[u16], sign: u16, b: usize) -> bool
    ensures { (x y : List ℕ) → sign ≡ signature_of x → (b < length signs.now → get_or signs.now b 0 ≡ signature_of y) → variables_in x y ≡ true → result ≡ true }
{
    if signs.len() <= b {
        return true;
    }
    let other = signs[b];
    other | sign == other
}
