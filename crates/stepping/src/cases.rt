// Small formulas: each kind of step permitted, and each way in which it is not.
use crate::showing::{Kind, show, show_bits};
use std::io;

// P6 to P10 of document 01.
pub fn edges(rt: &impl Print) -> io::Result<()> {
    println!(rt; "edges")?;
    let t = "p cnf 5 5 e 1 2 3 4 5 0 5 -1 0 5 1 3 0 5 -4 0 -5 1 0 -5 2 4 0";
    show(rt, t, Kind::Resolve, 5, 0)?;
    show(
        rt,
        "p cnf 2 2 a 1 0 e 2 0 1 2 0 -1 -2 0",
        Kind::Expand,
        1,
        0,
    )?;
    show(rt, "p cnf 2 2 a 1 0 e 2 0 1 2 0 1 -2 0", Kind::Pure, 1, 0)?;
    let u = "p cnf 3 4 e 1 0 a 2 0 e 3 0 2 -3 0 -2 3 0 -1 3 0 1 -3 0";
    show(rt, u, Kind::Resolve, 1, 0)?;
    show_bits(rt, u, 0xa0000080)
}

pub fn units(rt: &impl Print) -> io::Result<()> {
    println!(rt; "unit")?;
    // the literal is plain, negated; clauses with it go; equal ones merge
    let t = "p cnf 4 6 e 1 2 3 4 0 2 0 1 -2 0 2 3 0 -1 -3 0 1 0 -4 0";
    show(rt, t, Kind::Unit, 0, 0)?;
    show(rt, t, Kind::Unit, 5, 0)?;
    // a clause of two literals, the index past the last, the largest index
    show(rt, t, Kind::Unit, 1, 0)?;
    show(rt, t, Kind::Unit, 6, 0)?;
    show(rt, t, Kind::Unit, 2047, 0)?;
    // the empty clause is no unit; one comes of the opposite unit
    let u = "p cnf 1 3 e 1 0 0 1 0 -1 0";
    show(rt, u, Kind::Unit, 0, 0)?;
    show(rt, u, Kind::Unit, 1, 0)?;
    show(rt, u, Kind::Unit, 2, 0)?;
    // universals with no existential to their right go
    let v = "p cnf 3 4 e 1 0 a 2 0 e 3 0 1 2 -3 0 2 -3 0 3 0 1 -2 -3 0";
    show(rt, v, Kind::Unit, 2, 0)?;
    // the last variable goes
    show(rt, "p cnf 1 1 e 1 0 -1 0", Kind::Unit, 0, 0)
}

pub fn pures(rt: &impl Print) -> io::Result<()> {
    println!(rt; "pure")?;
    // existential and universal, absent, plain only, negated only, in both phases
    let t = "p cnf 8 4 e 1 2 0 a 3 4 5 0 e 6 7 8 0 1 3 6 0 -4 6 0 5 -6 7 0 -5 -7 0";
    show(rt, t, Kind::Pure, 1, 0)?;
    show(rt, t, Kind::Pure, 2, 0)?;
    show(rt, t, Kind::Pure, 3, 0)?;
    show(rt, t, Kind::Pure, 4, 0)?;
    show(rt, t, Kind::Pure, 5, 0)?;
    show(rt, t, Kind::Pure, 6, 0)?;
    show(rt, t, Kind::Pure, 7, 0)?;
    show(rt, t, Kind::Pure, 8, 0)?;
    // not in the prefix
    show(rt, t, Kind::Pure, 0, 0)?;
    show(rt, t, Kind::Pure, 9, 0)?;
    show(rt, t, Kind::Pure, 2047, 0)?;
    // clauses merge where a universal becomes false; negated only
    let u = "p cnf 4 4 e 1 0 a 2 0 e 3 4 0 2 3 0 3 0 2 4 0 1 -3 0";
    show(rt, u, Kind::Pure, 2, 0)?;
    show(
        rt,
        "p cnf 3 3 a 1 0 e 2 3 0 -2 3 0 -2 -3 0 1 3 0",
        Kind::Pure,
        2,
        0,
    )?;
    show(rt, "p cnf 2 2 a 1 0 e 2 0 -1 2 0 2 0", Kind::Pure, 1, 0)
}

pub fn subsumptions(rt: &impl Print) -> io::Result<()> {
    println!(rt; "subsume")?;
    let t = "p cnf 4 4 e 1 2 3 4 0 1 3 0 1 -2 3 0 1 2 0 1 3 4 0";
    show(rt, t, Kind::Subsume, 0, 1)?;
    show(rt, t, Kind::Subsume, 0, 3)?;
    // a is b, b is the part, neither is, a phase differs
    show(rt, t, Kind::Subsume, 0, 0)?;
    show(rt, t, Kind::Subsume, 1, 0)?;
    show(rt, t, Kind::Subsume, 0, 2)?;
    show(rt, t, Kind::Subsume, 2, 1)?;
    // a or b is not there
    show(rt, t, Kind::Subsume, 4, 1)?;
    show(rt, t, Kind::Subsume, 0, 4)?;
    show(rt, t, Kind::Subsume, 2047, 2047)?;
    // the later clause, and the empty one
    let u = "p cnf 2 3 e 1 2 0 1 2 0 -2 1 0 1 0";
    show(rt, u, Kind::Subsume, 2, 0)?;
    show(rt, u, Kind::Subsume, 2, 1)?;
    show(rt, "p cnf 1 2 e 1 0 1 0 0", Kind::Subsume, 1, 0)
}

pub fn strengthenings(rt: &impl Print) -> io::Result<()> {
    println!(rt; "strengthen")?;
    let t = "p cnf 5 6 e 1 2 0 a 3 0 e 4 5 0 1 2 0 -1 2 4 0 1 3 4 0 -1 3 4 0 -3 -4 0 4 5 0";
    show(rt, t, Kind::Strengthen, 0, 1)?;
    show(rt, t, Kind::Strengthen, 2, 3)?;
    show(rt, t, Kind::Strengthen, 3, 2)?;
    // no opposite, others not in b, the same clause, the opposite is universal
    show(rt, t, Kind::Strengthen, 0, 5)?;
    show(rt, t, Kind::Strengthen, 1, 0)?;
    show(rt, t, Kind::Strengthen, 0, 0)?;
    show(rt, t, Kind::Strengthen, 2, 4)?;
    // a or b is not there
    show(rt, t, Kind::Strengthen, 6, 1)?;
    show(rt, t, Kind::Strengthen, 0, 6)?;
    show(rt, t, Kind::Strengthen, 2047, 2047)?;
    // only a universal has its opposite in b
    show(
        rt,
        "p cnf 2 2 a 1 0 e 2 0 1 2 0 -1 2 0",
        Kind::Strengthen,
        0,
        1,
    )?;
    // tidied, b loses a universal too
    show(
        rt,
        "p cnf 4 2 e 1 0 a 2 0 e 3 4 0 1 3 0 1 2 -3 0",
        Kind::Strengthen,
        0,
        1,
    )?;
    // b merges with a clause before it, and one after it merges with b
    show(
        rt,
        "p cnf 3 3 e 1 2 3 0 2 3 0 1 2 0 -1 2 3 0",
        Kind::Strengthen,
        1,
        2,
    )?;
    show(
        rt,
        "p cnf 3 3 e 1 2 3 0 1 2 0 -1 2 3 0 2 3 0",
        Kind::Strengthen,
        0,
        1,
    )?;
    // the empty clause
    show(rt, "p cnf 1 2 e 1 0 1 0 -1 0", Kind::Strengthen, 0, 1)
}

pub fn equalities(rt: &impl Print) -> io::Result<()> {
    println!(rt; "equality")?;
    // 3 is 1; clauses merge, get both phases, or lose a universal
    let t = "p cnf 4 7 e 1 0 a 2 0 e 3 4 0 1 -3 0 -1 3 0 2 3 0 -2 3 4 0 1 -2 4 0 -1 3 4 0 -3 -4 0";
    show(rt, t, Kind::Equality, 0, 1)?;
    // a is not below b
    show(rt, t, Kind::Equality, 1, 0)?;
    show(rt, t, Kind::Equality, 0, 0)?;
    // three literals, other literals, b is not there
    show(rt, t, Kind::Equality, 1, 3)?;
    show(rt, t, Kind::Equality, 0, 2)?;
    show(rt, t, Kind::Equality, 0, 6)?;
    show(rt, t, Kind::Equality, 0, 7)?;
    show(rt, t, Kind::Equality, 2046, 2047)?;
    // 2 is the opposite of 1; with the prefix the other way round 1 is the opposite of 2
    show(
        rt,
        "p cnf 3 4 e 1 2 3 0 1 2 0 1 3 0 -1 -2 0 -2 3 0",
        Kind::Equality,
        0,
        2,
    )?;
    show(
        rt,
        "p cnf 3 4 e 2 1 3 0 1 2 0 1 3 0 -1 -2 0 -2 3 0",
        Kind::Equality,
        0,
        2,
    )?;
    // only one literal is negated; one literal each
    show(rt, "p cnf 2 2 e 1 2 0 1 2 0 -1 2 0", Kind::Equality, 0, 1)?;
    show(rt, "p cnf 1 2 e 1 0 1 0 -1 0", Kind::Equality, 0, 1)?;
    // equal to a universal
    show(
        rt,
        "p cnf 3 3 a 1 0 e 2 3 0 1 2 0 -1 -2 0 2 -3 0",
        Kind::Equality,
        0,
        1,
    )
}

pub fn resolutions(rt: &impl Print) -> io::Result<()> {
    println!(rt; "resolve")?;
    // a universal, an absent variable, 0, the largest number
    let t = "p cnf 6 5 e 1 2 0 a 3 0 e 4 5 6 0 1 2 0 -1 -2 0 -1 2 0 3 4 -5 0 -3 5 0";
    show(rt, t, Kind::Resolve, 3, 0)?;
    show(rt, t, Kind::Resolve, 7, 0)?;
    show(rt, t, Kind::Resolve, 0, 0)?;
    show(rt, t, Kind::Resolve, 2047, 0)?;
    // outside the universal, inside it, in one phase, in no clause
    show(rt, t, Kind::Resolve, 1, 0)?;
    show(rt, t, Kind::Resolve, 2, 0)?;
    show(rt, t, Kind::Resolve, 5, 0)?;
    show(rt, t, Kind::Resolve, 4, 0)?;
    show(rt, t, Kind::Resolve, 6, 0)?;
    // another variable right of the first universal, on the plain side and on the negated side
    show(
        rt,
        "p cnf 4 2 e 1 2 0 a 3 0 e 4 0 1 4 0 -1 2 0",
        Kind::Resolve,
        1,
        0,
    )?;
    show(
        rt,
        "p cnf 4 2 e 1 2 0 a 3 0 e 4 0 1 2 0 -1 4 0",
        Kind::Resolve,
        1,
        0,
    )?;
    show(
        rt,
        "p cnf 4 2 e 1 2 0 a 3 0 e 4 0 1 2 0 -1 3 4 0",
        Kind::Resolve,
        1,
        0,
    )?;
    // resolvents with both phases are left out, equal ones merge, with each other and with clauses that stay
    let u = "p cnf 4 6 e 1 2 3 4 0 1 2 0 2 3 0 -1 3 0 1 -3 0 -1 3 2 0 4 0";
    show(rt, u, Kind::Resolve, 1, 0)?;
    // resolvents lose universals; the empty clause
    let v = "p cnf 4 3 e 1 0 a 2 3 0 e 4 0 1 2 4 0 1 3 -4 0 -4 0";
    show(rt, v, Kind::Resolve, 4, 0)?;
    show(rt, "p cnf 1 2 e 1 0 1 0 -1 0", Kind::Resolve, 1, 0)
}

pub fn expansions(rt: &impl Print) -> io::Result<()> {
    println!(rt; "expand")?;
    // an existential, an absent variable, 0, the largest number
    let t = "p cnf 9 5 e 1 0 a 2 4 0 e 5 9 7 0 1 2 5 0 -2 -4 7 0 4 -5 -7 0 1 0 -1 5 0";
    show(rt, t, Kind::Expand, 1, 0)?;
    show(rt, t, Kind::Expand, 5, 0)?;
    show(rt, t, Kind::Expand, 3, 0)?;
    show(rt, t, Kind::Expand, 0, 0)?;
    show(rt, t, Kind::Expand, 2047, 0)?;
    // a universal to its right, none; copies take the gaps, and one for the variable in no clause
    show(rt, t, Kind::Expand, 2, 0)?;
    show(rt, t, Kind::Expand, 4, 0)?;
    // an existential followed by a universal
    show(
        rt,
        "p cnf 3 2 a 1 0 e 2 0 a 3 0 1 2 0 -1 -2 0",
        Kind::Expand,
        1,
        0,
    )?;
    show(
        rt,
        "p cnf 4 2 a 1 0 a 4 0 e 2 0 a 3 0 1 2 0 -1 -2 0",
        Kind::Expand,
        1,
        0,
    )?;
    show(
        rt,
        "p cnf 3 2 a 1 0 e 2 0 a 3 0 1 2 0 -1 -2 0",
        Kind::Expand,
        3,
        0,
    )?;
    // nothing to its right; in no clause; clauses that get equal; another universal stays; no prefix
    show(rt, "p cnf 2 1 e 1 0 a 2 0 1 0", Kind::Expand, 2, 0)?;
    show(rt, "p cnf 3 2 a 1 0 e 2 3 0 2 3 0 -2 0", Kind::Expand, 1, 0)?;
    show(
        rt,
        "p cnf 2 3 a 1 0 e 2 0 1 2 0 2 0 -1 2 0",
        Kind::Expand,
        1,
        0,
    )?;
    show(
        rt,
        "p cnf 3 2 a 1 2 0 e 3 0 1 2 3 0 -1 -2 -3 0",
        Kind::Expand,
        1,
        0,
    )?;
    show(rt, "p cnf 0 1 0", Kind::Expand, 1, 0)
}
