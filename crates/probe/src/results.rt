// A result, put together: numbers as bytes, the least significant first. What has no room is left out; the output has room for every result.
ghost use Rattle.std.specs.Prelude.{◌*◌, ◌≤◌, ◌≡◌, length, take};
ghost use Rattle.probe.specs.Results.{Puts, of_length, of_count, of_numbers, of_table, of_front, of_lent, of_part, of_rest, of_counts};

use arrayvec::ArrayVec;
use rimhlada::Counts;
use shows::reach;

// At most 160,000 bytes.
pub type Output = ArrayVec<u8, 160000>;

// Bytes.
fn put(out: &mut Output, bytes: &[u8])
    ensures { Puts out.old.items bytes.now out.new.items }
{
    let _fits = out.try_extend_from_slice(bytes);
}

// A length, in four bytes.
fn put_length(out: &mut Output, n: usize)
    ensures { Puts out.old.items (of_length n) out.new.items }
{
    put(out, &n.to_le_bytes()[..4]);
}

// A count, in eight bytes.
fn put_count(out: &mut Output, n: usize)
    ensures { Puts out.old.items (of_count n) out.new.items }
{
    put(out, &n.to_le_bytes());
}

// Numbers, two bytes each, at the front of a block.
fn fill_block(block: &mut [u8; 256], numbers: &[u16])
    requires { length numbers.now ≤ 128 }
    ensures { take (2 * length numbers.now) block.new ≡ of_numbers numbers.now }
{
    for i in 0..numbers.len() {
        let [low, high] = numbers[i].to_le_bytes();
        block[2 * i] = low;
        block[2 * i + 1] = high;
    }
}

// Numbers, two bytes each: all of them, or none. They go by blocks, since a `push` for each byte takes twice as long.
fn put_numbers(out: &mut Output, numbers: &[u16])
    ensures { Puts out.old.items (of_numbers numbers.now) out.new.items }
{
    if out.remaining_capacity() / 2 < numbers.len() {
        return;
    }
    let mut block = [0u8; 256];
    for part in numbers.chunks(128) {
        fill_block(&mut block, part);
        put(out, &block[..2 * part.len()]);
    }
}

// A table: its length, how many numbers follow, and these.
fn put_table(out: &mut Output, t: &[u16])
    ensures { Puts out.old.items (of_table t.now) out.new.items }
{
    let n = reach(t);
    put_length(out, t.len());
    put_length(out, n);
    put_numbers(out, &t[..n]);
}

// The answer, the record and n.
pub fn put_front(out: &mut Output, answer: u8, c: Counts, n: usize)
    ensures { Puts out.old.items (of_front answer c n) out.new.items }
{
    put(out, &[answer, u8::from(c.second)]);
    put_count(out, c.variables);
    put_count(out, c.clauses);
    put_count(out, c.literals);
    put_count(out, n);
}

// What follows n: the two tables as left, and the bytes with their length.
fn put_lent(out: &mut Output, first: &[u16], second: &[u16], bytes: &[u8])
    ensures { Puts out.old.items (of_lent first.now second.now bytes.now) out.new.items }
{
    put_table(out, first);
    put_table(out, second);
    put_length(out, bytes.len());
    put(out, bytes);
}

// The same with no bytes, and a part.
pub fn put_part(out: &mut Output, first: &[u16], second: &[u16], part: &[u16])
    ensures { Puts out.old.items (of_part first.now second.now part.now) out.new.items }
{
    put_lent(out, first, second, b"");
    put_table(out, part);
}

// The same, and an empty part.
pub fn put_rest(out: &mut Output, first: &[u16], second: &[u16], bytes: &[u8])
    ensures { Puts out.old.items (of_rest first.now second.now bytes.now) out.new.items }
{
    put_lent(out, first, second, bytes);
    put_table(out, &[]);
}

// The same, with three values for the bytes, eight bytes each.
pub fn put_values(out: &mut Output, first: &[u16], second: &[u16], values: &[u64; 3])
    ensures { Puts out.old.items (of_rest first.now second.now (of_counts values.now)) out.new.items }
{
    let [x, y, z] = *values;
    let bytes = [x.to_le_bytes(), y.to_le_bytes(), z.to_le_bytes()];
    put_rest(out, first, second, bytes.as_flattened());
}
