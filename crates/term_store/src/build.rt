//! Networks in a store.
ghost use Rattle.std.specs.Prelude.{◌≡◌, ℕ, ◌+◌, ◌<◌, ◌≤◌, [], true, length, map, IfOk, OnOk, OnErr, vec_len, vec_capacity};
ghost use Rattle.std.specs.List.{All};
ghost use Rattle.net_model.specs.View.{formula};
ghost use Rattle.term_store.specs.Terms.{tree_over, let_trees, network_trees, input_trees};
ghost use Rattle.term_store.specs.Nodes.{holds, IsNodes};
ghost use Rattle.term_store.specs.Trees.{trees_at, plant, IsPrefix};
ghost use Rattle.term_store.specs.Planting.{cost, operators, all_operators, HasRoomBesideNever, TakesRoomBesideNever, IsReady, AreReadyLets, AreReadyOutputs, IsPlanted, IsPairPlanted, ArePlanted};

use crate::node::{Node, Term};
use crate::store::Store;
use net_model::{Binding, Expr, Network};
use rl_time::NoMemory;
use std::alloc::Global;

/// The most nodes that a network adds: 64 inputs, never, 16,384 joins and 16,384 delays.
const MOST_ADDED: u32 = 32833;

impl Store {
    /// Plants the inputs, the lets and the outputs of a network, each tree's operands first, and
    /// answers the places of the outputs. The store holds at most 196,608 nodes before.
    pub fn build(&mut self, alloc: Global, n: &Network) -> Result<Vec<Term>, NoMemory>
        requires room { length self.old.nodes ≤ 196608 }
        ensures nodes { OnOk result (self.new.nodes ≡ plant (plant (plant self.old.nodes (input_trees (length n.now.inputs))) (let_trees n.now.lets)) (network_trees n.now)) }
        ensures grown { OnOk result (IsPrefix self.old.nodes self.new.nodes) }
        ensures few { length self.new.nodes ≤ length self.old.nodes + 32833 }
        ensures within { IfOk result (λ places. All (λ t. t.0 < length self.new.nodes) places.items) }
        ensures terms { IfOk result (λ places. trees_at self.new.nodes places.items ≡ network_trees n.now) }
        ensures unchanged { OnErr result (self.new.nodes ≡ self.old.nodes) }
    {
        self.rules();
        n.rules();
        self.reserve(MOST_ADDED)?;
        let mut lets = Vec::with_capacity(alloc, n.lets().len())?;
        let mut places = Vec::with_capacity(alloc, n.outputs().len())?;
        put_inputs(self, n.inputs().len() as u32);
        put_lets(self, &mut lets, n.lets());
        put_outputs(self, &lets, &mut places, n.outputs());
        Ok(places)
    }
}

/// Plants the inputs in order.
fn put_inputs(store: &mut Store, count: u32)
    requires nodes { IsNodes store.old.nodes }
    requires count { count ≤ 64 }
    requires room { HasRoomBesideNever store.old count }
    ensures nodes { store.new.nodes ≡ plant store.old.nodes (input_trees count) }
    ensures is_nodes { IsNodes store.new.nodes }
    ensures grown { IsPrefix store.old.nodes store.new.nodes }
    ensures held { (i : ℕ) → i < count → holds store.new.nodes (Node.Input i) ≡ true }
    ensures room { TakesRoomBesideNever store.old store.new count }
{
    for input in 0..count {
        let _place = store.keep(Node::Input(input));
    }
}

/// Plants the lets in order, and notes their places.
fn put_lets(store: &mut Store, lets: &mut Vec<Term>, bindings: &[Binding])
    requires nodes { IsNodes store.old.nodes }
    requires empty { lets.old.items ≡ [] }
    requires capacity { length bindings.now ≤ vec_capacity lets.old }
    requires ready { AreReadyLets store.old.nodes 0 bindings.now }
    requires room { HasRoomBesideNever store.old (all_operators bindings.now) }
    ensures planted { ArePlanted store.old.nodes store.new.nodes (let_trees bindings.now) lets.new.items }
    ensures len { vec_len lets.new ≡ length bindings.now }
    ensures room { TakesRoomBesideNever store.old store.new (all_operators bindings.now) }
{
    for binding in bindings {
        let place = put(store, lets, binding.body());
        if lets.push(place).is_err() {
            unreachable!();
        }
    }
}

/// Plants the outputs in order, and notes their places.
fn put_outputs(store: &mut Store, lets: &[Term], places: &mut Vec<Term>, bindings: &[Binding])
    requires nodes { IsNodes store.old.nodes }
    requires lets { All (λ t. t.0 < length store.old.nodes) lets.now }
    requires empty { places.old.items ≡ [] }
    requires capacity { length bindings.now ≤ vec_capacity places.old }
    requires ready { AreReadyOutputs store.old.nodes (length lets.now) bindings.now }
    requires room { HasRoomBesideNever store.old (all_operators bindings.now) }
    ensures planted { ArePlanted store.old.nodes store.new.nodes (map (λ e. tree_over (trees_at store.old.nodes lets.now) e.body) bindings.now) places.new.items }
    ensures room { TakesRoomBesideNever store.old store.new (all_operators bindings.now) }
{
    for binding in bindings {
        let place = put(store, lets, binding.body());
        if places.push(place).is_err() {
            unreachable!();
        }
    }
}

/// Plants two operands, from left to right, and answers their places.
#[cycle(planting)]
fn put_pair(store: &mut Store, lets: &[Term], a: &Expr, b: &Expr) -> (Term, Term)
    requires nodes { IsNodes store.old.nodes }
    requires lets { All (λ t. t.0 < length store.old.nodes) lets.now }
    requires ready { IsReady store.old.nodes (length lets.now) (formula a.now) × IsReady store.old.nodes (length lets.now) (formula b.now) }
    requires room { HasRoomBesideNever store.old (operators (formula a.now) + operators (formula b.now)) }
    ensures planted { IsPairPlanted store.old.nodes store.new.nodes (tree_over (trees_at store.old.nodes lets.now) (formula a.now)) (tree_over (trees_at store.old.nodes lets.now) (formula b.now)) result.0 result.1 }
    ensures room { TakesRoomBesideNever store.old store.new (operators (formula a.now) + operators (formula b.now)) }
{
    let first = put(store, lets, a);
    let second = put(store, lets, b);
    (first, second)
}

/// Plants an expression, its operands first, and answers its place.
#[cycle(planting)]
fn put(store: &mut Store, lets: &[Term], body: &Expr) -> Term
    requires nodes { IsNodes store.old.nodes }
    requires lets { All (λ t. t.0 < length store.old.nodes) lets.now }
    requires ready { IsReady store.old.nodes (length lets.now) (formula body.now) }
    requires room { HasRoomBesideNever store.old (operators (formula body.now)) }
    ensures planted { IsPlanted store.old.nodes store.new.nodes (tree_over (trees_at store.old.nodes lets.now) (formula body.now)) result }
    ensures room { TakesRoomBesideNever store.old store.new (operators (formula body.now)) }
{
    match body {
        Expr::Never => store.keep(Node::Never),
        Expr::Input(i) => store.keep(Node::Input(*i)),
        Expr::Named(j) => lets[*j as usize],
        Expr::Min(a, b) => {
            let (first, second) = put_pair(store, lets, a, b);
            store.keep(Node::Min(first, second))
        }
        Expr::Max(a, b) => {
            let (first, second) = put_pair(store, lets, a, b);
            store.keep(Node::Max(first, second))
        }
        Expr::Lt(a, b) => {
            let (first, second) = put_pair(store, lets, a, b);
            store.keep(Node::Lt(first, second))
        }
        Expr::Inc(a, cycles) => {
            let first = put(store, lets, a);
            if *cycles == 0 {
                return first;
            }
            store.keep(Node::Inc(first, *cycles))
        }
    }
}
