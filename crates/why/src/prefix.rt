// The prefix of the formula in the table that the record names.
ghost use Rattle.std.specs.Prelude.{◌+◌, ◌*◌, ◌≡◌, eqb, get_or};
ghost use Rattle.meaning.specs.Formula.{var, universal};
ghost use Rattle.why.specs.Places.{prefix_part, prefix_counted};

use rimhlada::Counts;

// The number at place i; 0 past the prefix's part of the table.
fn number_at_place(first: &[u16; 11261], second: &[u16; 11261], c: Counts, i: usize) -> usize
    ensures { result ≡ get_or (prefix_part first.now second.now c) i 0 }
{
    if 1022 < i {
        return 0;
    }
    if c.second {
        return usize::from(second[i]);
    }
    usize::from(first[i])
}

// The variable at place i.
pub fn variable_at(first: &[u16; 11261], second: &[u16; 11261], c: Counts, i: usize) -> usize
    ensures { result ≡ var (get_or (prefix_part first.now second.now c) i 0) }
{
    number_at_place(first, second, c, i) / 2
}

// Is it variable v, with an `a`?
fn is_universal_number(x: usize, v: usize) -> bool
    ensures { result ≡ eqb (2 * v + 1) x }
{
    x % 2 == 1 && x / 2 == v
}

// Does variable v stand in the prefix with an `a`?
pub fn is_universal(first: &[u16; 11261], second: &[u16; 11261], c: Counts, v: usize) -> bool
    ensures { result ≡ universal (prefix_counted first.now second.now c) v }
{
    for i in 0..c.variables {
        if is_universal_number(number_at_place(first, second, c, i), v) {
            return true;
        }
    }
    false
}
