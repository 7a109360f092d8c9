// Tables, as lists of numbers.
ghost use Rattle.std.specs.Prelude.{ℕ, ◌+◌, ◌*◌, ◌≤◌, ◌<◌, ◌≡◌, length, get_or};
ghost use Rattle.shows.specs.Numbers.{EntryOf, Filled};

use crate::numbers::pair;

// How many numbers are not zero.
pub fn used(t: &[u16]) -> usize
    ensures { result ≤ length t.now }
{
    t.iter().filter(|x| **x != 0).count()
}

// How many numbers of a table reach to the last that is not zero.
pub fn reach(t: &[u16]) -> usize
    ensures { (result ≤ length t.now) × ((k : ℕ) → result ≤ k → get_or t.now k 0 ≡ 0) × ((k : ℕ) → result ≡ k + 1 → 0 < get_or t.now k 0) }
{
    for k in (0..t.len()).rev() {
        if t[k] != 0 {
            return k + 1;
        }
    }
    0
}

// Number k of a table of which the first `given` numbers stand in the bytes.
fn entry_of(bytes: &[u8], given: usize, k: usize) -> u16
    requires { 2 * given ≤ length bytes.now }
    ensures { EntryOf bytes.now given k result }
{
    if k < given {
        return pair(bytes[2 * k], bytes[2 * k + 1]);
    }
    0
}

// A table's first numbers, from bytes: those that are given, then zeros.
// Kept: the two lengths beside the slices, since `Filled` and `Taken` of specs/ speak of them.
pub fn fill(t: &mut [u16], size: usize, bytes: &[u8], given: usize)
    requires { (size ≤ length t.old) × (2 * given ≤ length bytes.now) }
    ensures { Filled bytes.now given size t.new }
{
    for i in 0..size {
        t[i] = entry_of(bytes, given, i);
    }
}
