// The clauses of the formula in the table that the record names.
ghost use Rattle.std.specs.Prelude.{◌≡◌};
ghost use Rattle.why.specs.Places.{start_in};

use rimhlada::Counts;
use std::fmt;

// The literals of a clause, shown with spaces between them.
#[derive(Drop)]
pub struct Clause<'a>(&'a [u16]);

impl fmt::Display for Clause<'_> {
    fn fmt<W: fmt::Write>(&self, f: &mut fmt::Formatter<W>) -> fmt::Result {
        let mut space = "";
        for l in self.0 {
            let sign = if *l % 2 == 1 { "-" } else { "" };
            let v = *l / 2;
            write!(f, "{space}{sign}{v}")?;
            space = " ";
        }
        Ok(())
    }
}

// How many literals stand before clause i.
fn start_of(t: &[u16; 11261], i: usize) -> usize
    ensures { result ≡ start_in t.now i }
{
    if i == 0 || 2047 < i {
        return 0;
    }
    usize::from(t[1022 + i])
}

// Clause i of at most 2,046.
pub fn clause_at<'a>(
    first: &'a [u16; 11261],
    second: &'a [u16; 11261],
    c: Counts,
    i: usize,
) -> Clause<'a> {
    let t = if c.second { second } else { first };
    let literals = rimhlada::literals(first, second, c);
    if 2046 < i {
        return Clause(&[]);
    }
    Clause(
        literals
            .get(start_of(t, i)..start_of(t, i + 1))
            .unwrap_or(&[]),
    )
}
