//! The minterm of a row in a store.
ghost use Rattle.std.specs.Prelude.{◌≡◌, ◌<◌, ◌≤◌, ◌*◌, length, vec_capacity};
ghost use Rattle.std.specs.List.{All, AllByRecursion};
ghost use Rattle.term_store.specs.Nodes.{IsNodes};
ghost use Rattle.term_store.specs.Terms.{delayed};
ghost use Rattle.term_store.specs.Trees.{tree, trees_at, plant, IsPrefix};
ghost use Rattle.term_store.specs.Planting.{IsPlanted, ArePlanted};
ghost use Rattle.func_table.specs.Rules.{IsUpTo};
ghost use Rattle.func_table.specs.Sound.{IsInOrder};
ghost use Rattle.minterm.specs.Minterms.{number_terms, together, before_all, minterm};
ghost use Rattle.term_store.specs.Room.{HasRoom, TakesRoom};
ghost use Rattle.minterm.specs.Steps.{AreInputs, dash_places};

use crate::join::Join;
use crate::joining::put_joined;
use crate::planting::planting_laws;
use func_table::Row;
use term_store::{Node, Store, Term};

/// Plants a term some cycles later, and answers its place; by 0 cycles it is the term itself.
fn put_delayed(store: &mut Store, term: Term, cycles: u32) -> Term
    requires nodes { IsNodes store.old.nodes }
    requires within { term.0 < length store.old.nodes }
    requires small { cycles ≤ 1000000 }
    requires room { HasRoom store.old 1 }
    ensures planted { IsPlanted store.old.nodes store.new.nodes (delayed (tree store.old.nodes term.0) cycles) result }
    ensures room { TakesRoom store.old store.new 1 }
{
    planting_laws();
    if cycles == 0 {
        return term;
    }
    store.put(Node::Inc(term, cycles))
}

/// Plants the terms of the inputs at numbers, and notes their places.
fn put_numbers(store: &mut Store, inputs: &[Term], row: &Row, numbers: &mut Vec<Term>)
    requires nodes { IsNodes store.old.nodes }
    requires inputs { AreInputs store.old.nodes inputs.now }
    requires one_for_each_input { length row.now.entries ≡ length inputs.now }
    requires none_greater { AllByRecursion (IsUpTo row.now.out) row.now.entries }
    requires capacity { length inputs.now ≤ vec_capacity numbers.old }
    requires room { HasRoom store.old (length inputs.now) }
    ensures planted { ArePlanted store.old.nodes store.new.nodes (number_terms row.now.out 0 row.now.entries) numbers.new.items }
    ensures capacity { vec_capacity numbers.new ≡ vec_capacity numbers.old }
    ensures room { TakesRoom store.old store.new (length numbers.new.items) }
{
    planting_laws();
    numbers.clear();
    for (input, entry) in row.entries().iter().enumerate() {
        if let Some(cycles) = entry {
            let place = put_delayed(store, inputs[input], u32::from(row.out() - *cycles));
            numbers.push_reserved(place);
        }
    }
}

/// Notes the places of the inputs at `-`.
fn note_dashes(inputs: &[Term], entries: &[Option<u8>], dashes: &mut Vec<Term>)
    requires one_for_each_input { length entries.now ≡ length inputs.now }
    requires capacity { length inputs.now ≤ vec_capacity dashes.old }
    ensures dashes { dashes.new.items ≡ dash_places inputs.now entries.now }
    ensures capacity { vec_capacity dashes.new ≡ vec_capacity dashes.old }
{
    dashes.clear();
    for (input, entry) in entries.iter().enumerate() {
        if entry.is_none() {
            dashes.push_reserved(inputs[input]);
        }
    }
}

/// Plants the term that rises if all of these rise at once, and returns its place.
fn put_together(store: &mut Store, terms: &[Term]) -> Term
    requires nodes { IsNodes store.old.nodes }
    requires some { 1 ≤ length terms.now }
    requires within { All (λ t. t.0 < length store.old.nodes) terms.now }
    requires room { HasRoom store.old (2 * length terms.now) }
    ensures planted { IsPlanted store.old.nodes store.new.nodes (together (trees_at store.old.nodes terms.now)) result }
    ensures room { TakesRoom store.old store.new (2 * length terms.now) }
{
    planting_laws();
    match terms {
        [] => unreachable!(),
        [only] => *only,
        [first, rest @ ..] => {
            let latest = put_joined(store, Join::Max, *first, rest);
            let earliest = put_joined(store, Join::Min, *first, rest);
            let after = store.put(Node::Inc(earliest, 1));
            store.put(Node::Lt(latest, after))
        }
    }
}

/// Plants `lt(term, min of others)`, or `term` itself if there are none, and returns its place.
fn put_before(store: &mut Store, term: Term, others: &[Term]) -> Term
    requires nodes { IsNodes store.old.nodes }
    requires term { term.0 < length store.old.nodes }
    requires others { All (λ t. t.0 < length store.old.nodes) others.now }
    requires room { HasRoom store.old (length others.now) }
    ensures planted { IsPlanted store.old.nodes store.new.nodes (before_all (tree store.old.nodes term.0) (trees_at store.old.nodes others.now)) result }
    ensures room { TakesRoom store.old store.new (length others.now) }
{
    planting_laws();
    match others {
        [] => term,
        [first, rest @ ..] => {
            let other = put_joined(store, Join::Min, *first, rest);
            store.put(Node::Lt(term, other))
        }
    }
}

/// Plants the terms of a row and its minterm, and answers the minterm's place. The two lists are filled anew.
pub fn put_row(
    store: &mut Store,
    inputs: &[Term],
    row: &Row,
    numbers: &mut Vec<Term>,
    dashes: &mut Vec<Term>,
) -> Term
    requires nodes { IsNodes store.old.nodes }
    requires inputs { AreInputs store.old.nodes inputs.now }
    requires few { length inputs.now ≤ 16 }
    requires one_for_each_input { length row.now.entries ≡ length inputs.now }
    requires ordered { IsInOrder row.now }
    requires numbers { length inputs.now ≤ vec_capacity numbers.old }
    requires dashes { length inputs.now ≤ vec_capacity dashes.old }
    requires room { HasRoom store.old 48 }
    ensures grown { IsPrefix store.old.nodes store.new.nodes }
    ensures planted { IsPlanted (plant store.old.nodes (number_terms row.now.out 0 row.now.entries)) store.new.nodes (minterm row.now) result }
    ensures room { TakesRoom store.old store.new 48 }
    ensures numbers { vec_capacity numbers.new ≡ vec_capacity numbers.old }
    ensures dashes { vec_capacity dashes.new ≡ vec_capacity dashes.old }
{
    planting_laws();
    put_numbers(store, inputs, row, numbers);
    note_dashes(inputs, row.entries(), dashes);
    let together = put_together(store, numbers);
    put_before(store, together, dashes)
}
