// What a call brings: its numbers, and the two tables and the bytes that it lends.
ghost use Rattle.std.specs.Prelude.{◌≤◌, ◌≡◌, eqb, length, get_or, drop, OnOk, OnErr};
ghost use Rattle.shows.specs.Numbers.{number_at};
ghost use Rattle.probe.specs.Taken.{Taken};

use rimhlada::Counts;
use shows::{fill, take_long, take_word};
use std::io;
use std::io::{ErrorKind, Read};

// Why nothing more is served: the input ends or holds no call, or the system failed.
#[derive(Drop)]
pub enum Stop {
    NoCall,
    Failed(io::Error),
}

impl From<io::Error> for Stop {
    fn from(e: io::Error) -> Stop {
        if e.kind() == ErrorKind::UnexpectedEof {
            Stop::NoCall
        } else {
            Stop::Failed(e)
        }
    }
}

// The first fifty bytes: the operation, the record, the two numbers; then the first table's length, and how many numbers follow.
#[derive(Clone, Copy)]
pub struct Head {
    pub operation: u8,
    pub side: u8,
    pub counts: Counts,
    pub a: u64,
    pub b: u64,
    pub size: usize,
    pub used: usize,
}

pub fn head_of(h: &[u8; 50]) -> Head
    ensures operation { (result.operation ≡ get_or h.now 0 0) × (result.side ≡ get_or h.now 1 0) }
    ensures counts { (result.counts.variables ≡ number_at h.now 2 8) × (result.counts.clauses ≡ number_at h.now 10 8) × (result.counts.literals ≡ number_at h.now 18 8) }
    ensures second { result.counts.second ≡ eqb (get_or h.now 1 0) 1 }
    ensures numbers { (result.a ≡ number_at h.now 26 8) × (result.b ≡ number_at h.now 34 8) }
    ensures table { (result.size ≡ number_at h.now 42 4) × (result.used ≡ number_at h.now 46 4) }
{
    Head {
        operation: h[0],
        side: h[1],
        counts: Counts {
            variables: take_long(h, 2) as usize,
            clauses: take_long(h, 10) as usize,
            literals: take_long(h, 18) as usize,
            second: h[1] == 1,
        },
        a: take_long(h, 26),
        b: take_long(h, 34),
        size: take_word(h, 42) as usize,
        used: take_word(h, 46) as usize,
    }
}

// Reads so many bytes; those behind them stay. No call where there is no room for them or the input ends.
pub fn take_bytes(input: &mut impl Read, bytes: &mut [u8], n: usize) -> Result<(), Stop>
    ensures room { OnOk result (n ≤ length bytes.old) }
    ensures rest { drop n bytes.new ≡ drop n bytes.old }
{
    if bytes.len() < n {
        return Err(Stop::NoCall);
    }
    input.read_exact(&mut bytes[..n])?;
    Ok(())
}

// Reads a table's numbers, and so many bytes after them. No call where the lengths are too large or the input ends.
pub fn take_table(
    input: &mut impl Read,
    t: &mut [u16],
    raw: &mut [u8],
    size: usize,
    used: usize,
    more: usize,
) -> Result<(), Stop>
    ensures taken { OnOk result (Taken t.new raw.new size used more) }
    ensures failed { OnErr result (t.new ≡ t.old) }
{
    if t.len() < size || size < used || raw.len() < more || (raw.len() - more) / 2 < used {
        return Err(Stop::NoCall);
    }
    take_bytes(input, raw, 2 * used + more)?;
    fill(t, size, raw, used);
    Ok(())
}
