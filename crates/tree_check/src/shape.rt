ghost use Rattle.std.specs.Prelude.{◌≡◌, ◌≤◌, ◌&&◌, nat_lt, length};
ghost use Rattle.std.specs.List.{list_all};
ghost use Rattle.tree_check.specs.Valid.{names_inputs};
ghost use Rattle.tree_check.specs.Verdict.{misshapen, subtrees};

use refutation::{Fact, Item};

/// Whether the item names only the first n inputs.
fn names_inputs(n: usize, item: &Item) -> bool
    ensures { result ≡ names_inputs n item.now }
{
    match item {
        Item::Split(i, j, _) => (*i as usize) < n && (*j as usize) < n,
        Item::Leaf(facts) => name_inputs(n, facts.as_slice()),
        Item::Closed(_) => true,
        Item::Unsettled => true,
    }
}

fn name_inputs(n: usize, facts: &[Fact]) -> bool
    ensures { result ≡ list_all (λ f. nat_lt f.from n && nat_lt f.to n) facts.now }
{
    facts
        .iter()
        .all(|f| (f.from as usize) < n && (f.to as usize) < n)
}

/// How many subtrees are below the item.
fn subtrees(item: &Item) -> usize
    ensures { result ≡ subtrees item.now }
{
    match item {
        Item::Split(_, _, _) => 2,
        _ => 0,
    }
}

/// The place of the first item that can't be there, or that names an input past n; the end of the
/// items, where a subtree is missing there.
pub fn misshapen(n: usize, items: &[Item]) -> Option<u32>
    requires { length items.now ≤ 1000000 }
    ensures { result ≡ misshapen n 1 0 items.now }
{
    let mut more: usize = 1;
    let mut place: u32 = 0;
    for item in items {
        if more == 0 || !names_inputs(n, item) {
            return Some(place);
        }
        more = more - 1 + subtrees(item);
        place += 1;
    }
    if more == 0 { None } else { Some(place) }
}
