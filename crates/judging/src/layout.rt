// The layout of a table that comes from outside, by its places.
ghost use Rattle.std.specs.Prelude.{◌≡◌};
ghost use Rattle.judging.specs.Layout.{all_zero, ends_up_to, layout_ok};

use table::Counts;

fn all_zero(s: &[u16]) -> bool
    ensures { result ≡ all_zero s.now }
{
    s.iter().all(|x| *x == 0)
}

// Whether clause ends never fall, and the last is `last`.
fn ends_up_to(s: &[u16], last: usize) -> bool
    ensures { result ≡ ends_up_to 0 s.now last }
{
    let mut k = 0;
    for e in s {
        let e = usize::from(*e);
        if e < k {
            return false;
        }
        k = e;
    }
    k == last
}

// Whether the length, the limits, the unused places and the ends are right.
pub fn layout_ok(t: &[u16], c: Counts) -> bool
    ensures { result ≡ layout_ok t.now c }
{
    let v = c.variables;
    let n = c.clauses;
    let m = c.literals;
    if t.len() != Counts::TABLE
        || Counts::VARIABLES < v
        || Counts::CLAUSES < n
        || Counts::LITERALS < m
    {
        return false;
    }
    let after = Counts::ENDS_AT + n;
    let free = Counts::LITERALS_AT + m;
    all_zero(&t[v..Counts::ENDS_AT])
        && all_zero(&t[after..Counts::LITERALS_AT])
        && all_zero(&t[free..Counts::TABLE])
        && ends_up_to(&t[Counts::ENDS_AT..after], m)
}
