//! The term of a table in a store.
ghost use Rattle.std.specs.Prelude.{◌≡◌, ℕ, ◌<◌, ◌≤◌, ◌+◌, ◌*◌, ◌∷◌, [], List, length, map, IfOk, OnOk, OnErr, vec_capacity};
ghost use Rattle.std.specs.List.{All, AllByRecursion};
ghost use Rattle.rl_time.specs.declared.time.Time.{Time};
ghost use Rattle.term_store.specs.Nodes.{IsNodes};
ghost use Rattle.term_store.specs.Terms.{input_trees};
ghost use Rattle.term_store.specs.Tree.{value, span};
ghost use Rattle.term_store.specs.Trees.{tree, trees_at, plant, IsPrefix};
ghost use Rattle.term_store.specs.Planting.{IsPlanted, ArePlanted};
ghost use Rattle.term_store.specs.Subterms.{AreNetworkTerms, register_bits};
ghost use Rattle.func_table.specs.Rules.{IsRow};
ghost use Rattle.func_table.specs.Sound.{IsInOrder, AreSound};
ghost use Rattle.func_table.specs.Function.{table_function};
ghost use Rattle.minterm.specs.Minterms.{earliest, synthesised, table_terms};
ghost use Rattle.term_store.specs.Room.{HasRoom, TakesRoom};
ghost use Rattle.minterm.specs.Steps.{AreInputs, AreRowsPlanted};

use crate::join::Join;
use crate::joining::put_joined;
use crate::laws::table_terms_are_few;
use crate::planting::planting_laws;
use crate::row::put_row;
use func_table::{Row, Table};
use rl_time::NoMemory;
use std::alloc::Global;
use term_store::{Node, Store, Term};

/// The most nodes that a table adds: 16 inputs, and for each of 256 rows 48 operators and a join.
const MOST_ADDED: u32 = 12560;

/// Plants the term of a table, and answers its place: the inputs in order, each row's terms in the
/// order of inputs and its minterm, and then the joins of the minterms; what the store holds already
/// is not planted again. The rows are sound, and the store holds at most 131,072 nodes before. Where
/// memory runs out, the store is as it was.
pub fn synth(alloc: Global, table: &Table, store: &mut Store) -> Result<Term, NoMemory>
    requires sound { AreSound table.now.rows }
    requires room { length store.old.nodes ≤ 131072 }
    ensures nodes { OnOk result (store.new.nodes ≡ plant store.old.nodes (table_terms table.now)) }
    ensures grown { OnOk result (IsPrefix store.old.nodes store.new.nodes) }
    ensures few { length store.new.nodes ≤ length store.old.nodes + 12560 }
    ensures within { IfOk result (λ place. place.0 < length store.new.nodes) }
    ensures term { IfOk result (λ place. tree store.new.nodes place.0 ≡ synthesised table.now) }
    ensures times { IfOk result (λ place. (x : List Time) → length x ≡ length table.now.inputs → value x (tree store.new.nodes place.0) ≡ table_function table.now.rows x) }
    ensures terms { IfOk result (λ place. AreNetworkTerms (length table.now.inputs) (trees_at store.new.nodes (place ∷ []))) }
    ensures short { IfOk result (λ place. span (tree store.new.nodes place.0) ≤ 256) }
    ensures bits { IfOk result (λ place. register_bits (trees_at store.new.nodes (place ∷ [])) ≤ 65536) }
    ensures unchanged { OnErr result (store.new.nodes ≡ store.old.nodes) }
{
    store.rules();
    table.rules();
    table_terms_are_few();
    let count = table.inputs().len();
    store.reserve(MOST_ADDED)?;
    let mut inputs = Vec::with_capacity(alloc, count)?;
    let mut numbers = Vec::with_capacity(alloc, count)?;
    let mut dashes = Vec::with_capacity(alloc, count)?;
    let mut minterms = Vec::with_capacity(alloc, table.rows().len())?;
    put_inputs(store, count as u32, &mut inputs);
    put_rows(
        store,
        &inputs,
        table.rows(),
        &mut numbers,
        &mut dashes,
        &mut minterms,
    );
    Ok(put_earliest(store, &minterms))
}

/// Plants the inputs in order, and notes their places.
fn put_inputs(store: &mut Store, count: u32, inputs: &mut Vec<Term>)
    requires nodes { IsNodes store.old.nodes }
    requires few { count ≤ 16 }
    requires empty { inputs.old.items ≡ [] }
    requires capacity { count ≤ vec_capacity inputs.old }
    requires room { HasRoom store.old count }
    ensures planted { ArePlanted store.old.nodes store.new.nodes (input_trees count) inputs.new.items }
    ensures len { length inputs.new.items ≡ count }
    ensures room { TakesRoom store.old store.new count }
{
    planting_laws();
    for input in 0..count {
        let place = store.put(Node::Input(input));
        inputs.push_reserved(place);
    }
}

/// Plants the terms of the rows in order, and notes the places of their minterms. The lists of numbers
/// and dashes are filled anew for each row.
fn put_rows(
    store: &mut Store,
    inputs: &[Term],
    rows: &[Row],
    numbers: &mut Vec<Term>,
    dashes: &mut Vec<Term>,
    minterms: &mut Vec<Term>,
)
    requires nodes { IsNodes store.old.nodes }
    requires inputs { AreInputs store.old.nodes inputs.now }
    requires few { length inputs.now ≤ 16 }
    requires rows { AllByRecursion (IsRow (length inputs.now)) rows.now }
    requires ordered { AllByRecursion IsInOrder rows.now }
    requires empty { minterms.old.items ≡ [] }
    requires numbers { length inputs.now ≤ vec_capacity numbers.old }
    requires dashes { length inputs.now ≤ vec_capacity dashes.old }
    requires minterms { length rows.now ≤ vec_capacity minterms.old }
    requires room { HasRoom store.old (48 * length rows.now) }
    ensures planted { AreRowsPlanted store.old.nodes store.new.nodes rows.now minterms.new.items }
    ensures room { TakesRoom store.old store.new (48 * length rows.now) }
{
    planting_laws();
    for row in rows {
        let place = put_row(store, inputs, row, numbers, dashes);
        minterms.push_reserved(place);
    }
}

/// Plants the join of the minterms, or never where there are none, and answers its place.
fn put_earliest(store: &mut Store, minterms: &[Term]) -> Term
    requires nodes { IsNodes store.old.nodes }
    requires within { All (λ t. t.0 < length store.old.nodes) minterms.now }
    requires few { length minterms.now ≤ 256 }
    requires room { HasRoom store.old 256 }
    ensures planted { IsPlanted store.old.nodes store.new.nodes (earliest (trees_at store.old.nodes minterms.now)) result }
    ensures room { TakesRoom store.old store.new 256 }
{
    match minterms {
        [] => store.put(Node::Never),
        [first, rest @ ..] => put_joined(store, Join::Min, *first, rest),
    }
}
