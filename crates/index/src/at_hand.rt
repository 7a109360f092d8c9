// What is at hand while a step is chosen, in one: a well formed formula in its table, the ranks of its prefix, and its index in the idle
// table. That they belong together is a fact of the type.
ghost use Rattle.table.specs.Table.{decode};
ghost use Rattle.index.specs.Study.{Studied};

use table::{Counts, Ranks};

#[derive(Clone, Copy)]
pub struct AtHand<'a> {
    pub table: &'a [u16],
    pub counts: Counts,
    pub ranks: &'a Ranks,
    pub index: &'a [u16],
    pub ghost studied: { Studied (decode table.now counts) table.now counts ranks.now index.now },
}
