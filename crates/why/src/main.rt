// The program: a formula in QDIMACS on standard input, a run as in `prep`, and then how much is left and a sentence for each variable
// of that, or for the one that the first argument names (0, as no argument: for each). The second argument is the allowance, 0 if there
// is none. What is refused in reading is printed as `r`, number and offset.
#![tactic(auto)]

mod arguments;
mod clauses;
mod entries;
mod prefix;
mod sentences;

use arguments::{is_given, number_at};
use prefix::variable_at;
use rimhlada::{Counts, Reading, ReasonAnswer};
use sentences::{Left, Reason};
use std::io;

fn ask(
    rt: &impl Print,
    first: &mut [u16; 11261],
    second: &mut [u16; 11261],
    c: Counts,
    v: usize,
    allowance: usize,
) -> io::Result<()> {
    let answer = rimhlada::reason(first, second, c, v, allowance).answer;
    if matches!(answer, ReasonAnswer::NotPermitted) {
        return println!(rt; "Variable {v} is not in the formula that is left.");
    }
    rt.println(Reason {
        first,
        second,
        counts: c,
        variable: v,
        allowance,
        answer,
    })
}

// Each variable, from the left.
fn ask_all(
    rt: &impl Print,
    first: &mut [u16; 11261],
    second: &mut [u16; 11261],
    c: Counts,
    allowance: usize,
) -> io::Result<()> {
    if c.variables == 0 {
        return println!(rt; "No variable is left.");
    }
    for i in 0..c.variables {
        let v = variable_at(first, second, c, i);
        ask(rt, first, second, c, v, allowance)?;
    }
    Ok(())
}

fn run_and_ask(
    rt: &impl Print,
    first: &mut [u16; 11261],
    second: &mut [u16; 11261],
    c: Counts,
    v: usize,
    allowance: usize,
) -> io::Result<()> {
    let mut log = [0u8; 32768];
    let d = rimhlada::run(first, second, c, allowance, 8192, &mut log).counts;
    rt.println(Left(d))?;
    if v == 0 {
        ask_all(rt, first, second, d, allowance)
    } else {
        ask(rt, first, second, d, v, allowance)
    }
}

// One byte more than a text may have, so that a longer one is seen.
fn read_input(
    rt: &impl Input,
    first: &mut [u16; 11261],
    second: &mut [u16; 11261],
) -> io::Result<Reading> {
    let mut text = [0u8; 65537];
    let n = shows::read_text(rt, &mut text)?;
    Ok(rimhlada::read(&text[..n], first, second))
}

fn explain(rt: &(impl Input + Print), v: usize, allowance: usize) -> io::Result<()> {
    let mut first = [0u16; 11261];
    let mut second = [0u16; 11261];
    let r = read_input(rt, &mut first, &mut second)?;
    let number = r.answer.number();
    let offset = r.offset;
    if number != 0 {
        return println!(rt; "r {number} {offset}");
    }
    run_and_ask(rt, &mut first, &mut second, r.counts, v, allowance)
}

fn main(rt: HostRuntime) -> io::Result<()> {
    let Some(v) = number_at(&rt, 1).filter(|v| *v <= 1023) else {
        return println!(&rt;
            "why: the first argument is a variable, 1 to 1023, or 0 for each that is left"
        );
    };
    let Some(allowance) = number_at(&rt, 2).filter(|a| *a <= 1000) else {
        return println!(&rt; "why: the second argument is the allowance, 0 to 1000");
    };
    if is_given(&rt, 3) {
        return println!(&rt; "why: there are two arguments at most, a variable and the allowance");
    }
    explain(&rt, v as usize, allowance as usize)
}
