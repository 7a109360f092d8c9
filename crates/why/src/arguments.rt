// The two arguments: which variable, and the allowance.
ghost use Rattle.std.specs.Prelude.{◌≤◌, ◌<◌, ◌≡◌, length, IfSome, unwrap_or};
ghost use Rattle.why.specs.Arguments.{bad, number_in, with_digit};

use std::env::{Env, FillError};

// A number with one digit more; none where the byte is no digit, or where there were four.
fn with_digit(n: u64, b: u8) -> Option<u64>
    ensures value { unwrap_or result bad ≡ with_digit n b }
    ensures below { IfSome result (λ m. m < bad) }
{
    if b.is_ascii_digit() && n < 1000 {
        return Some(n * 10 + u64::from(b - b'0'));
    }
    None
}

// The number that at most four bytes write.
fn number_in(digits: &[u8]) -> Option<u64>
    ensures value { length digits.now ≤ 4 → unwrap_or result bad ≡ number_in digits.now }
    ensures below { IfSome result (λ n. n < bad) }
{
    let mut n = 0;
    for b in digits {
        n = with_digit(n, *b)?;
    }
    Some(n)
}

// Is there an argument i?
pub fn is_given(rt: &impl Env, i: usize) -> bool {
    !matches!(rt.arg(i, &mut [0u8; 1]), Err(FillError::NotPresent))
}

// Argument i as a number, 0 if it is missing; none if it is no number of at most four digits.
pub fn number_at(rt: &impl Env, i: usize) -> Option<u64>
    ensures { IfSome result (λ n. n < bad) }
{
    let mut four = [0u8; 4];
    match rt.arg(i, &mut four) {
        Err(FillError::NotPresent) => Some(0),
        Err(FillError::TooLong) | Ok(0) => None,
        Ok(n) => number_in(&four[..n]),
    }
}
