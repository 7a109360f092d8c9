// The text of a table that holds a formula: its size, the text, and the text where the output is long enough for it.
ghost use Rattle.meaning.specs.Formula.{Formula};
ghost use Rattle.qdimacs.specs.Write.{write};
ghost use Rattle.table.specs.Table.{Holds, Held};
ghost use Rattle.lines.specs.Written.{Room, Written, Sized};
ghost use Rattle.writer.specs.Written.{most_text, Told};

use crate::clauses::{clauses_size, write_clauses};
use crate::{WriteAnswer, Writing};
use lines::headers::{header_size, write_header};
use lines::prefixes::{largest_variable, prefix_size, write_prefix};
use table::Counts;

// How many bytes the text takes.
fn text_size(t: &[u16], c: Counts) -> usize
    requires { Held t.now c }
    ensures { (φ : Formula) → Holds φ t.now c → Sized (write φ) most_text result }
{
    let m = largest_variable(&t[..c.variables]);
    header_size(m, c.clauses as u16) + prefix_size(&t[..c.variables]) + clauses_size(t, c)
}

// The header, the quantifier lines and the clauses, from the start of the output on; gives the number of bytes.
fn write_text(out: &mut [u8], t: &[u16], c: Counts) -> usize
    requires held { Held t.now c }
    requires room { (φ : Formula) → Holds φ t.now c → Room (write φ) 0 out.old }
    ensures { (φ : Formula) → Holds φ t.now c → Written (write φ) 0 out.old out.new result }
{
    let m = largest_variable(&t[..c.variables]);
    let mut at = write_header(out, 0, m, c.clauses as u16);
    at = write_prefix(out, at, &t[..c.variables]);
    write_clauses(out, at, t, c)
}

// The text, unless the output is shorter: then nothing is written.
pub fn write_held(t: &[u16], c: Counts, out: &mut [u8]) -> Writing
    requires { Held t.now c }
    ensures { (φ : Formula) → Holds φ t.now c → Told (Ok tt) (write φ) out.old result out.new }
{
    if out.len() < text_size(t, c) {
        return Writing {
            answer: WriteAnswer::NoRoom,
            bytes: 0,
        };
    }
    let n = write_text(out, t, c);
    Writing {
        answer: WriteAnswer::Written,
        bytes: n,
    }
}
