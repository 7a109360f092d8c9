// Tokens: runs of bytes other than space, tab, CR and LF.
ghost use Rattle.std.specs.Prelude.{◌≡◌, false};
ghost use Rattle.qdimacs.specs.Bytes.{is_blank, preamble};
ghost use Rattle.scan.specs.Scan.{run_end, next_in};

// Space, tab, CR, LF.
pub fn blank(b: u8) -> bool
    ensures { result ≡ is_blank b }
{
    match b {
        b'\t' | b'\n' | b'\r' | b' ' => true,
        _ => false,
    }
}

// Where a run of blanks that starts here ends, or with `false` a run of other bytes, which is a token.
pub fn skip<const BLANK: bool>(text: &[u8], from: usize) -> usize
    ensures { result ≡ run_end BLANK text.now from }
{
    for i in from..text.len() {
        if blank(text[i]) != BLANK {
            return i;
        }
    }
    from.max(text.len())
}

// Where the next token at or after an offset starts and where it ends, if there is one.
pub fn next_token(text: &[u8], from: usize) -> Option<(usize, usize)>
    ensures { result ≡ next_in text.now from }
{
    let start = skip::<true>(text, from);
    if start < text.len() {
        let end = skip::<false>(text, start);
        Some((start, end))
    } else {
        None
    }
}

// How many bytes the comments and blanks before the first token take. A token that starts with `c` runs to the next LF.
pub fn skip_preamble(text: &[u8]) -> usize
    ensures { result ≡ preamble false text.now }
{
    let mut comment = false;
    for (i, b) in text.iter().enumerate() {
        let b = *b;
        if comment {
            comment = b != b'\n';
        } else if !blank(b) {
            if b != b'c' {
                return i;
            }
            comment = true;
        }
    }
    text.len()
}
