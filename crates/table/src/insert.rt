// A number's place in an ascending front of a slice, found by halving, so that the literals of a long clause take hardly longer
// than those of short ones; and the number put there.
ghost use Rattle.std.specs.Prelude.{◌≡◌, ◌+◌, ◌<◌, true, false, length, take};
ghost use Rattle.meaning.specs.Lists.{has};
ghost use Rattle.meaning.specs.Tidy.{insert_new};
ghost use Rattle.table.specs.Insert.{count_below};
ghost use Rattle.table.specs.Rising.{rising};

// How many numbers are below x: the place of x, where it is there.
pub fn place_in(s: &[u16], x: u16) -> usize
    requires { rising s.now ≡ true }
    ensures { result ≡ count_below s.now x }
{
    s.partition_point(|y| *y < x)
}

// Whether x is there, where p is its place.
pub fn stands_at(s: &[u16], p: usize, x: u16) -> bool
    requires s_value { rising s.now ≡ true }
    requires p_value { p ≡ count_below s.now x }
    ensures { result ≡ has x s.now }
{
    p < s.len() && s[p] == x
}

// Puts x, which is not there yet, among the first m numbers, at its place p.
pub fn insert_at(s: &mut [u16], m: usize, p: usize, x: u16)
    requires { (m < length s.old) × (has x (take m s.old) ≡ false) × (p ≡ count_below (take m s.old) x) }
    ensures { take (m + 1) s.new ≡ insert_new x (take m s.old) }
{
    for j in (p..m).rev() {
        s[j + 1] = s[j];
    }
    s[p] = x;
}
