// The vocabulary of reading: what a token is, where in the text it stands, and what it does. The definitions in specs/ are
// written over these enums, so that the code needs no translation. In the definitions their numbers may have any size.

// What a token is: `p`, `cnf`, `e`, `a`, a numeral, a minus and a numeral other than 0, or anything else.
#![tactic(auto)]

#[derive(Clone, Copy)]
pub enum Word {
    P,
    Cnf,
    E,
    A,
    Plain(u16),
    Minus(u16),
    Other,
}

// What may come next: `p`; `cnf`; M; C; a quantifier line or the first clause; the first variable of a line (0 for `e`, 1 for
// `a`); a further variable of a line or its `0`; a literal, or the `0` of a clause; nothing, after C clauses.
// Kept: 0 and 1 for the quantifier are what `on_variable` of specs/Decide.antt adds to twice the variable.
#[derive(Clone, Copy)]
pub enum Phase {
    AtP,
    AtCnf,
    AtM,
    AtC,
    Line,
    Open(u16),
    Vars(u16),
    Clause,
    Full,
}

// What a token does: it is a fault with this number, it leads to another phase, it tells M or C, it adds an entry to the
// prefix, it adds a literal to the open clause, or it closes that clause.
// Kept: a fault is a number, as document 01 and `decide` of specs/Decide.antt have it.
#[derive(Clone, Copy)]
pub enum Move {
    Fault(u8),
    Go(Phase),
    SetM(u16),
    SetC(u16),
    Entry(u16),
    Literal(u16),
    Close,
}
