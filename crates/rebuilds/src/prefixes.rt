// The new prefix: that of the source without a variable.
ghost use Rattle.std.specs.Prelude.{◌≡◌, true};
ghost use Rattle.meaning.specs.Formula.{Formula, drop_var};
ghost use Rattle.meaning.specs.WellFormed.{fits};
ghost use Rattle.table.specs.Table.{empty_formula, table_of, Holds, Held};
ghost use Rattle.rebuilds.specs.Raws.{bare, keep_entry};

use table::{Counts, push_variable};

// The entry at the right end of the prefix, unless it is of variable v. There is room for it.
fn keep_entry(target: &mut [u16], e: Counts, q: u16, v: u16) -> Counts
    requires { Held target.old e }
    ensures { (ψ : Formula) → Holds ψ target.old e → fits (keep_entry v ψ q) ≡ true → Holds (keep_entry v ψ q) target.new result × (result.second ≡ e.second) }
{
    if q / 2 == v {
        return e;
    }
    push_variable(target, e, q).unwrap_or(e)
}

// The prefix of the source without variable v, in a target that is all zero.
pub fn copy_prefix(source: &[u16], c: Counts, v: u16, target: &mut [u16], second: bool) -> Counts
    requires held { Held source.now c }
    requires target_value { target.old ≡ table_of empty_formula }
    ensures holds { (φ : Formula) → Holds φ source.now c → Holds (bare (drop_var v φ.prefix)) target.new result }
    ensures second_value { result.second ≡ second }
{
    let mut e = Counts {
        second,
        ..Counts::empty()
    };
    for q in &source[..c.variables] {
        e = keep_entry(target, e, *q, v);
    }
    e
}
