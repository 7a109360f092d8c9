// Flags: a bit for each number, 64 of them to a word. They take little room, and the next one that is raised is found by words.
#![tactic(auto)]

ghost use Rattle.std.specs.Prelude.{◌≡◌, ℕ, ◌+◌, ◌*◌, ◌/◌, ◌%◌, ◌^◌, ◌≤◌, ◌<◌, true, false, length};
ghost use Rattle.flags.specs.Flags.{flag, raised};

// Raises the flag of a number.
#[tactic(auto, unfolding(crate::specs::Flags::raised))]
pub fn raise(words: &mut [u64], j: usize)
    requires { j < 64 * length words.old }
    ensures { words.new ≡ raised words.old j }
{
    let at = j / 64;
    words[at] = words[at] | 1 << (j % 64);
}

// Whether the flag of a number is raised.
#[tactic(auto, unfolding(crate::specs::Flags::flag))]
pub fn is_raised(words: &[u64], j: usize) -> bool
    requires { j < 64 * length words.now }
    ensures { result ≡ flag words.now j }
{
    (words[j / 64] >> (j % 64)) % 2 == 1
}

// How many bits of the word, from one on, are 0 before the next that is 1, or before its end.
// Kept: a number and no Option, since the walk goes on by it either way.
fn zeros_from(word: u64, bit: usize) -> usize
    requires { bit < 64 }
    ensures result_bound { bit + result ≤ 64 }
    ensures result_value { bit + result < 64 → word / 2 ^ (bit + result) % 2 ≡ 1 }
    ensures by_index { (s : ℕ) → s < result → word / 2 ^ (bit + s) % 2 ≡ 0 }
{
    let zeros = u64::trailing_zeros(word >> bit) as usize;
    if bit + zeros < 64 {
        return zeros;
    }
    64 - bit
}

// The next number, from one on and before another, whose flag is raised, word by word; the other where there is none.
fn seek(words: &[u64], from: usize, to: usize) -> usize
    requires { (from ≤ to) × (to ≤ 64 * length words.now) }
    ensures lower_bound { (from ≤ result) × (result ≤ to) }
    ensures result_value { result < to → flag words.now result ≡ true }
    ensures by_index { (k : ℕ) → from ≤ k → k < result → flag words.now k ≡ false }
{
    let mut i = from;
    // Kept: a turn goes on by all zeros of a word, and a range of words would have to be cut at both ends.
    while i < to {
        let bit = i % 64;
        let zeros = zeros_from(words[i / 64], bit);
        if to - i <= zeros {
            return to;
        }
        i += zeros;
        if bit + zeros < 64 {
            return i;
        }
    }
    i
}

// The same. Often it is the first one, and then nothing has to wait for a count of zeros.
// Kept: a number and no Option, since it bounds a range of numbers, and a caller goes on while it is below the other end.
pub fn next_raised(words: &[u64], from: usize, to: usize) -> usize
    requires { (from ≤ to) × (to ≤ 64 * length words.now) }
    ensures lower_bound { (from ≤ result) × (result ≤ to) }
    ensures result_value { result < to → flag words.now result ≡ true }
    ensures by_index { (k : ℕ) → from ≤ k → k < result → flag words.now k ≡ false }
{
    if from < to && is_raised(words, from) {
        return from;
    }
    seek(words, from, to)
}
