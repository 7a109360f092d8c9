// Moves: what a word does in each phase of reading. At one token the faults have the order of the tests here.
ghost use Rattle.std.specs.Prelude.{◌≡◌, ◌+◌, ◌*◌, ◌≤◌};
ghost use Rattle.std.proofs.Math.Option.{some};
ghost use Rattle.meaning.specs.WellFormed.{max_variables};
ghost use Rattle.qdimacs.specs.Words.{variable_of, plain_of, literal_of};
ghost use Rattle.qdimacs.specs.Decide.{on_p, on_cnf, on_m, on_c, on_variable, on_literal, on_line, decide};
ghost use Rattle.scan.specs.Phases.{right_phase};

use qdimacs::{Move, Phase, Word};

// Kept: the faults are numbers, since document 01 numbers them and `decide` of qdimacs/specs says `Fault 3`.
const SYNTAX: u8 = 3;

const RANGE: u8 = 5;

const TWICE: u8 = 6;

const UNBOUND: u8 = 7;

const COUNT: u8 = 8;

const TOO_BIG: u8 = 9;

const MAX_VARIABLES: u16 = 1023;

const MAX_CLAUSES: u16 = 2047;

// The variable of a word, 0 if it is no number.
pub fn variable(w: Word) -> u16
    ensures { result ≡ variable_of w }
{
    match w {
        Word::Plain(n) | Word::Minus(n) => n,
        _ => 0,
    }
}

// Where `p` is due, then where `cnf`, M and C are.
// Kept: `on_p` and `on_cnf` are two, as their definitions are; one would take the word and the phase as arguments and be no shorter.
pub fn on_p(w: Word) -> Move
    ensures { result ≡ on_p w }
{
    match w {
        Word::P => Move::Go(Phase::AtCnf),
        _ => Move::Fault(SYNTAX),
    }
}

pub fn on_cnf(w: Word) -> Move
    ensures { result ≡ on_cnf w }
{
    match w {
        Word::Cnf => Move::Go(Phase::AtM),
        _ => Move::Fault(SYNTAX),
    }
}

// Kept: M and C are two functions of three arms; one would take the limit and the move as arguments and be no shorter.
pub fn on_m(w: Word) -> Move
    ensures { result ≡ on_m (plain_of w) }
{
    match w {
        Word::Plain(n) => {
            if MAX_VARIABLES < n {
                Move::Fault(TOO_BIG)
            } else {
                Move::SetM(n)
            }
        }
        _ => Move::Fault(SYNTAX),
    }
}

pub fn on_c(w: Word) -> Move
    ensures { result ≡ on_c (plain_of w) }
{
    match w {
        Word::Plain(n) => {
            if MAX_CLAUSES < n {
                Move::Fault(TOO_BIG)
            } else {
                Move::SetC(n)
            }
        }
        _ => Move::Fault(SYNTAX),
    }
}

// In a quantifier line; q is 0 for `e` and 1 for `a`, and `ending` is what a 0 does.
pub fn on_variable(q: u16, m: u16, seen: bool, ending: Move, w: Word) -> Move
    requires { (q ≤ 1) × (m ≤ max_variables) }
    ensures { result ≡ on_variable q m seen ending (plain_of w) }
{
    match w {
        Word::Plain(v) => {
            if v == 0 {
                return ending;
            }
            if m < v {
                return Move::Fault(RANGE);
            }
            if seen {
                return Move::Fault(TWICE);
            }
            Move::Entry(2 * v + q)
        }
        _ => Move::Fault(SYNTAX),
    }
}

// A number in a clause, with its sign: 0 or 1.
pub fn on_number(m: u16, seen: bool, n: u16, sign: u16) -> Move
    requires { (sign ≤ 1) × (m ≤ max_variables) }
    ensures { result ≡ on_literal m seen (some (2 * n + sign)) }
{
    if m < n {
        return Move::Fault(RANGE);
    }
    let l = 2 * n + sign;
    if l == 0 {
        return Move::Close;
    }
    if seen {
        Move::Literal(l)
    } else {
        Move::Fault(UNBOUND)
    }
}

// In a clause.
pub fn on_literal(m: u16, seen: bool, w: Word) -> Move
    requires { m ≤ max_variables }
    ensures { result ≡ on_literal m seen (literal_of w) }
{
    match w {
        Word::Plain(n) => on_number(m, seen, n, 0),
        Word::Minus(n) => on_number(m, seen, n, 1),
        _ => Move::Fault(SYNTAX),
    }
}

// Where a quantifier line or the first clause could start.
pub fn on_line(m: u16, c: u16, seen: bool, w: Word) -> Move
    requires { m ≤ max_variables }
    ensures { result ≡ on_line m c seen w }
{
    match w {
        Word::E => Move::Go(Phase::Open(0)),
        Word::A => Move::Go(Phase::Open(1)),
        _ => {
            if c == 0 {
                Move::Fault(COUNT)
            } else {
                on_literal(m, seen, w)
            }
        }
    }
}

// What a word does, by the phase, M, C, and whether the prefix has the word's variable.
pub fn decide_move(phase: Phase, m: u16, c: u16, seen: bool, w: Word) -> Move
    requires { right_phase phase × (m ≤ max_variables) }
    ensures { result ≡ decide phase m c seen w }
{
    match phase {
        Phase::AtP => on_p(w),
        Phase::AtCnf => on_cnf(w),
        Phase::AtM => on_m(w),
        Phase::AtC => on_c(w),
        Phase::Line => on_line(m, c, seen, w),
        Phase::Open(q) => on_variable(q, m, seen, Move::Fault(RANGE), w),
        Phase::Vars(q) => on_variable(q, m, seen, Move::Go(Phase::Line), w),
        Phase::Clause => on_literal(m, seen, w),
        Phase::Full => Move::Fault(COUNT),
    }
}
