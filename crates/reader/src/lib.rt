// The reader: a text to the work table of the formula that it writes, tidied (document 01, "Reading and writing").
#![tactic(auto)]

ghost use Rattle.reader.specs.Reading.{read_number, answer_for, refusal, Reads};
ghost use Rattle.std.specs.Prelude.{◌≡◌};

use crate::turns::fill;
use table::{Counts, zero};

mod turns;

// What is said of a text: it was read, or why not.
// Kept: no Result, since an offset and a record come back with every answer, and the definition Reads speaks of all three.
#[derive(Clone, Copy)]
pub enum ReadAnswer {
    Read,
    Length,
    Syntax,
    Short,
    Range,
    Twice,
    Unbound,
    Count,
    TooBig,
}

impl ReadAnswer {
    // The number that document 01 gives it.
    // Kept: C takes numbers, and the demands speak of them.
    pub fn number(self) -> u8
        ensures { result ≡ read_number self }
    {
        match self {
            ReadAnswer::Read => 0,
            ReadAnswer::Length => 1,
            ReadAnswer::Syntax => 3,
            ReadAnswer::Short => 4,
            ReadAnswer::Range => 5,
            ReadAnswer::Twice => 6,
            ReadAnswer::Unbound => 7,
            ReadAnswer::Count => 8,
            ReadAnswer::TooBig => 9,
        }
    }
}

// The answer, the offset of a fault, and the counts of the formula read.
#[derive(Clone, Copy)]
pub struct Reading {
    pub answer: ReadAnswer,
    pub offset: usize,
    pub counts: Counts,
}

// The answer for a refusal's number.
// Kept: a number, since `Move::Fault` has document 01's numbers.
fn answer_for(k: u8) -> ReadAnswer
    ensures { result ≡ answer_for k }
{
    match k {
        1 => ReadAnswer::Length,
        3 => ReadAnswer::Syntax,
        4 => ReadAnswer::Short,
        5 => ReadAnswer::Range,
        6 => ReadAnswer::Twice,
        7 => ReadAnswer::Unbound,
        8 => ReadAnswer::Count,
        _ => ReadAnswer::TooBig,
    }
}

// A refusal with this number, at this offset.
fn refuse(k: u8, offset: usize) -> Reading
    ensures { result ≡ refusal k offset }
{
    Reading {
        answer: answer_for(k),
        offset,
        counts: Counts::empty(),
    }
}

// Reads a text into the first table, whatever the tables hold. Meanwhile the second holds the marks of the clauses read so far.
pub fn read(text: &[u8], first: &mut [u16], second: &mut [u16]) -> Reading
    ensures { Reads text.now first.old second.old result first.new second.new }
{
    if first.len() != Counts::TABLE || second.len() != Counts::TABLE || 65536 < text.len() {
        // Kept: document 01's number, as the definition of Reads gives it.
        return refuse(1, 0);
    }
    zero(first);
    zero(second);
    let mut scratch = [0u16; 1023];
    let mut ranks = [0u16; 1024];
    let outcome = fill(text, first, &mut scratch, &mut ranks, second);
    zero(second);
    match outcome {
        Ok(counts) => Reading {
            answer: ReadAnswer::Read,
            offset: 0,
            counts,
        },
        Err(fault) => {
            zero(first);
            refuse(fault.number, fault.offset)
        }
    }
}
