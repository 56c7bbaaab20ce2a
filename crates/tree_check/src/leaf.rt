ghost use Rattle.std.specs.Prelude.{◌≡◌, ◌≤◌, ◌<◌, All};
ghost use Rattle.refutation.specs.Limits.{IsSmallItem, IsSmallLeaf};
ghost use Rattle.refutation.specs.declared.item.Item.TheVariants as item;
ghost use Rattle.tree_check.specs.Bounds.{known};
ghost use Rattle.tree_check.specs.Forms.{output_form, is_decided};
ghost use Rattle.tree_check.specs.Small.{IsSmall};
ghost use Rattle.tree_check.specs.Valid.{outputs};
ghost use Rattle.tree_check.specs.Verdict.{bad_fact, forms_flaw, item_flaw};

use crate::chain::{is_negative, shows};
use crate::evaluation::are_equal_forms;
use crate::fault::Flaw;
use crate::form::Form;
use crate::output::Output;
use crate::table::Table;
use refutation::{Assumption, Fact, Item};

fn is_decided(f: Form) -> bool
    ensures { result ≡ is_decided f }
{
    match f {
        Form::Undecided => false,
        _ => true,
    }
}

/// What is wrong with the forms of two outputs.
fn forms_flaw(table: &Table, first: &mut Output, second: &mut Output) -> Option<Flaw>
    ensures same_first { first.new ≡ first.old }
    ensures same_second { second.new ≡ second.old }
    ensures flaw { result ≡ forms_flaw (known table.now)
        (output_form (known table.now) first.old.network first.old.place)
        (output_form (known table.now) second.old.network second.old.place) }
{
    let f = first.form(table);
    let g = second.form(table);
    if !is_decided(f) {
        Some(Flaw::NotDecided(1))
    } else if !is_decided(g) {
        Some(Flaw::NotDecided(2))
    } else if are_equal_forms(table, f, g) {
        None
    } else {
        Some(Flaw::Unequal)
    }
}

/// The number of the first fact that its own chain doesn't show.
fn bad_fact(path: &[Assumption], facts: &[Fact]) -> Option<u32>
    requires small { All IsSmall path.now }
    requires limits { IsSmallLeaf facts.now }
    ensures { result ≡ bad_fact path.now 0 facts.now }
{
    let mut n: u32 = 0;
    for fact in facts {
        let from = u32::from(fact.from);
        let to = u32::from(fact.to);
        if !shows(path, fact.chain.numbers(), from, to, i64::from(fact.bound)) {
            return Some(n);
        }
        n += 1;
    }
    None
}

/// What is wrong with a leaf on its path. Its stamp is greater than those of the leaves before.
fn leaf_flaw(
    table: &mut Table,
    stamp: u32,
    first: &mut Output,
    second: &mut Output,
    path: &[Assumption],
    facts: &[Fact],
) -> Option<Flaw>
    requires newer { table.old.stamp < stamp }
    requires same_place { first.old.place ≡ second.old.place }
    requires small { All IsSmall path.now }
    requires limits { IsSmallLeaf facts.now }
    ensures stamp { table.new.stamp ≤ stamp }
    ensures same_first { first.new ≡ first.old }
    ensures same_second { second.new ≡ second.old }
    ensures flaw { result ≡ item_flaw (outputs first.old.network second.old.network first.old.place) path.now (item.Leaf facts.now) }
{
    match bad_fact(path, facts) {
        Some(n) => Some(Flaw::BadChain(n)),
        None => {
            table.enter(stamp, facts);
            forms_flaw(table, first, second)
        }
    }
}

/// What is wrong with an item on its path. Its stamp is greater than those of the items before.
pub fn item_flaw(
    table: &mut Table,
    stamp: u32,
    first: &mut Output,
    second: &mut Output,
    path: &[Assumption],
    item: &Item,
) -> Option<Flaw>
    requires newer { table.old.stamp < stamp }
    requires same_place { first.old.place ≡ second.old.place }
    requires small { All IsSmall path.now }
    requires limits { IsSmallItem item.now }
    ensures stamp { table.new.stamp ≤ stamp }
    ensures same_first { first.new ≡ first.old }
    ensures same_second { second.new ≡ second.old }
    ensures flaw { result ≡ item_flaw (outputs first.old.network second.old.network first.old.place) path.now item.now }
{
    match item {
        Item::Split(_, _, _) => None,
        Item::Leaf(facts) => leaf_flaw(table, stamp, first, second, path, facts.as_slice()),
        Item::Closed(chain) => {
            if is_negative(path, chain.numbers()) {
                None
            } else {
                Some(Flaw::NotNegative)
            }
        }
        Item::Unsettled => Some(Flaw::StillOpen),
    }
}
