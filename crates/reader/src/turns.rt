// The reader's loop: token by token.
ghost use Rattle.std.specs.Prelude.{◌≡◌, true, List, ℕ, ◌≤◌, leb, length};
ghost use Rattle.meaning.specs.Lists.{all_of};
ghost use Rattle.meaning.specs.Formula.{var, mentions};
ghost use Rattle.meaning.specs.WellFormed.{max_variables, max_text};
ghost use Rattle.qdimacs.specs.Words.{variable_of};
ghost use Rattle.qdimacs.specs.Decide.{decide};
ghost use Rattle.qdimacs.specs.Read.{start};
ghost use Rattle.scan.specs.Phases.{right_phase};
ghost use Rattle.table.specs.Ranks.{ranks_of};
ghost use Rattle.tracks.specs.Tracks.{fresh, Tracks};
ghost use Rattle.reader.specs.Reading.{concluded, Filled};

use qdimacs::{Move, Word};
use scan::bytes::{next_token, skip_preamble};
use scan::moves::{decide_move, variable};
use scan::words::read_word;
use table::{Counts, Ranks, Scratch};
use tracks::{Reader, apply, is_complete};

// Why a text is refused: document 01's number, and the offset.
// Kept: the number and no enum of faults, since `Move::Fault` of qdimacs has it, as `fault` of its specs.
#[derive(Clone, Copy)]
pub struct Fault {
    pub number: u8,
    pub offset: usize,
}

// Whether a variable is in the prefix that has these ranks.
pub fn seen(ranks: &Ranks, v: u16) -> bool
    ensures { (p : List ℕ) → all_of (λ q. leb (var q) max_variables) p ≡ true → ranks.now ≡ ranks_of p → result ≡ mentions p v }
{
    v <= 1023 && ranks[v as usize] != 0
}

// What a word does.
pub fn judge(r: Reader, ranks: &Ranks, w: Word) -> Move
    requires { right_phase r.phase × (r.m ≤ max_variables) }
    ensures { (p : List ℕ) → all_of (λ q. leb (var q) max_variables) p ≡ true → ranks.now ≡ ranks_of p → result ≡ decide r.phase r.m r.c (mentions p (variable_of w)) w }
{
    let known = seen(ranks, variable(w));
    decide_move(r.phase, r.m, r.c, known, w)
}

// At the end of a text of n bytes: the counts of the formula that was read.
pub fn conclude(r: Reader, n: usize) -> Result<Counts, Fault>
    ensures { result ≡ concluded r n }
{
    if is_complete(r.phase, r.c) {
        return Ok(r.counts);
    }
    Err(Fault {
        // Kept: document 01's number, as `concluded` gives it.
        number: 4,
        offset: n,
    })
}

// Reads a text into a table that is all zero, with a scratch, the ranks of no prefix and the marks of no clause.
pub fn fill(
    text: &[u8],
    table: &mut [u16],
    scratch: &mut Scratch,
    ranks: &mut Ranks,
    marks: &mut [u16],
) -> Result<Counts, Fault>
    requires text_len_bound { length text.now ≤ max_text }
    requires tracks { Tracks start fresh table.old scratch.old ranks.old marks.old }
    ensures { Filled text.now result table.new }
{
    let mut at = skip_preamble(text);
    let mut r = Reader::new();
    // Kept: it goes on from token to token, which no range counts.
    while let Some((a, e)) = next_token(text, at) {
        let w = read_word(&text[a..e]);
        let mv = judge(r, ranks, w);
        match apply(r, mv, table, scratch, ranks, marks) {
            Ok(next) => {
                r = next;
                at = e;
            }
            Err(number) => {
                return Err(Fault { number, offset: a });
            }
        }
    }
    conclude(r, text.len())
}
