// Words: what a token is. A number has any length, and is cut off at 2,048: M, C and each variable are less.
ghost use Rattle.std.specs.Prelude.{◌≡◌, true, [], ◌∷◌, ◌≤◌};
ghost use Rattle.qdimacs.specs.Bytes.{is_digit, value};
ghost use Rattle.qdimacs.specs.Words.{number_of, word_of};
ghost use Rattle.scan.specs.Cut.{most, sat, sat_word, digits_in, numeral_in};

use qdimacs::Word;

const MOST: u16 = 2048;

// One digit more.
pub fn with_digit(v: u16, b: u8) -> u16
    requires { (v ≤ most) × (is_digit b ≡ true) }
    ensures { result ≡ sat (value v (b ∷ [])) }
{
    (v * 10 + u16::from(b - b'0')).min(MOST)
}

// The value of digits, of any number of them, cut off, if no byte is another.
pub fn read_digits(word: &[u8]) -> Option<u16>
    ensures { result ≡ digits_in word.now }
{
    let mut v = 0;
    for b in word {
        match *b {
            b'0'..=b'9' => {
                v = with_digit(v, *b);
            }
            _ => {
                return None;
            }
        }
    }
    Some(v)
}

// The value of a numeral: at least one digit, and no leading zero.
pub fn read_numeral(word: &[u8]) -> Option<u16>
    ensures { result ≡ numeral_in word.now }
{
    // Kept: two ifs; one `||` of all three tests was tried, and the proof didn't close.
    if word.is_empty() {
        return None;
    }
    if 1 < word.len() && word[0] == b'0' {
        return None;
    }
    read_digits(word)
}

// A numeral, or a minus and a numeral other than 0; or another token.
pub fn read_number(word: &[u8]) -> Word
    ensures { result ≡ sat_word (number_of word.now) }
{
    match word {
        [] => Word::Other,
        [first, digits @ ..] if *first == b'-' => match read_numeral(digits) {
            Some(v) => { if v == 0 { Word::Other } else { Word::Minus(v) } }
            None => Word::Other,
        },
        _ => match read_numeral(word) {
            Some(v) => Word::Plain(v),
            None => Word::Other,
        },
    }
}

// What a token is: `p`, `cnf`, `e`, `a`, a number, or anything else.
pub fn read_word(word: &[u8]) -> Word
    ensures { result ≡ sat_word (word_of word.now) }
{
    if word == b"cnf".as_slice() {
        return Word::Cnf;
    }
    if word.len() != 1 {
        return read_number(word);
    }
    match word[0] {
        b'p' => Word::P,
        b'e' => Word::E,
        b'a' => Word::A,
        _ => read_number(word),
    }
}
