// Variables in a list of literals, or of entries of a prefix.
ghost use Rattle.std.specs.Prelude.{◌≡◌, drop};
ghost use Rattle.meaning.specs.Formula.{mentions};
ghost use Rattle.permits.specs.Variables.{existentials};

// Whether one of the literals, or of the entries, is of the variable.
pub fn has_variable(list: &[u16], v: usize) -> bool
    ensures { result ≡ mentions list.now v }
{
    list.iter().any(|literal| (*literal / 2) as usize == v)
}

// How many entries from an index on are existential.
pub fn count_existentials(prefix: &[u16], from: usize) -> usize
    ensures { result ≡ existentials (drop from prefix.now) }
{
    prefix
        .iter()
        .skip(from)
        .filter(|entry| **entry % 2 == 0)
        .count()
}
