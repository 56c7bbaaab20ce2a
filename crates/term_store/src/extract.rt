//! A network from a store.
ghost use Rattle.std.specs.Prelude.{◌≡◌, ◌+◌, ◌<◌, ◌≤◌, ◌^◌, length, map, IfOk, OnOk};
ghost use Rattle.std.specs.List.{All};
ghost use Rattle.net_model.specs.Rules.{names_of};
ghost use Rattle.net_model.specs.View.{formula};
ghost use Rattle.term_store.specs.Terms.{network_trees};
ghost use Rattle.term_store.specs.Subterms.{AreNetworkTerms, join_count, delay_count};
ghost use Rattle.term_store.specs.Nodes.{IsNodes, IsNodeOver};
ghost use Rattle.term_store.specs.Trees.{trees_at};
ghost use Rattle.term_store.specs.Extracted as extracted;
ghost use Rattle.term_store.specs.Ports.{ArePorts};
ghost use Rattle.term_store.specs.Extracted.{extracted, lets_below, root_outputs};
ghost use Rattle.term_store.specs.Extracting.{marked, numbered, let_numbers, with_let};

use crate::node::{Node, Term};
use crate::reach::reached;
use crate::store::Store;
use net_model::{Binding, Expr, Name, Network};
use rl_text::{copy_names, numbered_name};
use rl_time::NoMemory;
use std::alloc::Global;

impl Store {
    /// The network whose outputs have the terms of the roots, in order, and these names. Each min,
    /// max, lt and inc that the roots reach is a let over inputs and earlier lets, named `_0`, `_1`
    /// and so on in the order of the store. The roots are places of the store, one for each
    /// output's name; their terms are those of a network with these inputs.
    pub fn extract(
        &self,
        alloc: Global,
        roots: &[Term],
        inputs: &[Name],
        outputs: &[Name],
    ) -> Result<Network, NoMemory>
        requires roots { All (λ t. t.0 < length self.now.nodes) roots.now }
        requires one_name { length outputs.now ≡ length roots.now }
        requires ports { ArePorts inputs.now outputs.now }
        requires terms { AreNetworkTerms (length inputs.now) (trees_at self.now.nodes roots.now) }
        ensures network { IfOk result (λ n. n ≡ extracted self.now.nodes roots.now inputs.now outputs.now) }
        ensures inputs { IfOk result (λ n. n.inputs ≡ inputs.now) }
        ensures outputs { IfOk result (λ n. names_of n.outputs ≡ outputs.now) }
        ensures terms { IfOk result (λ n. network_trees n ≡ trees_at self.now.nodes roots.now) }
        ensures lets { IfOk result (λ n. length n.lets ≡ join_count (trees_at self.now.nodes roots.now) + delay_count (trees_at self.now.nodes roots.now)) }
    {
        self.rules();
        let marks = reached(alloc, self, roots)?;
        let (lets, numbers) = write_lets(alloc, self, &marks)?;
        let bindings = write_outputs(alloc, self, &numbers, roots, outputs)?;
        let names = copy_names(alloc, inputs)?;
        Ok(Network::new(names, lets, bindings))
    }
}

/// The let of each marked operator, in order, and for each place how many lets are before its own.
fn write_lets(
    alloc: Global,
    store: &Store,
    marks: &[bool],
) -> Result<(Vec<Binding>, Vec<u32>), NoMemory>
    requires nodes { IsNodes store.now.nodes }
    requires marks { length marks.now ≡ length store.now.nodes }
    ensures lets { IfOk result (λ written. written.0.items ≡ lets_below store.now.nodes (marked marks.now) (length store.now.nodes)) }
    ensures numbers { IfOk result (λ written. written.1.items ≡ let_numbers store.now.nodes (marked marks.now) (length store.now.nodes)) }
{
    let mut lets = Vec::new(alloc);
    let mut numbers = Vec::new(alloc);
    for place in 0..store.len() {
        let number = lets.len() as u32;
        let reached = marks[place as usize];
        push_let(alloc, store, &numbers, reached, Term(place), &mut lets)?;
        numbers.push(number)?;
    }
    Ok((lets, numbers))
}

/// Adds the let of a place that is reached and holds an operator.
fn push_let(
    alloc: Global,
    store: &Store,
    numbers: &[u32],
    reached: bool,
    place: Term,
    lets: &mut Vec<Binding>,
) -> Result<(), NoMemory>
    requires nodes { IsNodes store.now.nodes }
    requires within { place.0 < length store.now.nodes }
    requires numbers { length numbers.now ≡ place.0 }
    requires few { length lets.old.items < 2 ^ 32 }
    ensures lets { OnOk result (lets.new.items ≡ with_let store.now.nodes numbers.now reached place.0 lets.old.items) }
{
    let node = store.node(place);
    if !reached || !is_operator(node) {
        return Ok(());
    }
    let name = let_name(alloc, lets.len() as u32)?;
    let body = let_body(alloc, store, numbers, node)?;
    lets.push(Binding::new(name, body))?;
    Ok(())
}

/// Whether the node is a min, max, lt or inc.
fn is_operator(node: Node) -> bool
    ensures operator { result ≡ extracted.is_operator node }
{
    !matches!(node, Node::Input(_) | Node::Never)
}

/// `_` and a number in decimal.
fn let_name(alloc: Global, number: u32) -> Result<Name, NoMemory>
    ensures name { IfOk result (λ name. name ≡ extracted.let_name number) }
{
    numbered_name(alloc, b"_", number)
}

/// A node's expression over the lets of these numbers.
fn let_body(alloc: Global, store: &Store, numbers: &[u32], node: Node) -> Result<Expr, NoMemory>
    requires few { length numbers.now ≤ length store.now.nodes }
    requires over { IsNodeOver (length numbers.now) node }
    ensures body { IfOk result (λ body. formula body ≡ extracted.let_body store.now.nodes (numbered numbers.now) node) }
{
    match node {
        Node::Input(i) => Ok(Expr::Input(i)),
        Node::Never => Ok(Expr::Never),
        Node::Min(a, b) => {
            let (first, second) = pair(alloc, store, numbers, a, b)?;
            Ok(Expr::Min(first, second))
        }
        Node::Max(a, b) => {
            let (first, second) = pair(alloc, store, numbers, a, b)?;
            Ok(Expr::Max(first, second))
        }
        Node::Lt(a, b) => {
            let (first, second) = pair(alloc, store, numbers, a, b)?;
            Ok(Expr::Lt(first, second))
        }
        Node::Inc(a, cycles) => {
            let first = Box::new(alloc, operand(store, numbers, a))?;
            Ok(Expr::Inc(first, cycles))
        }
    }
}

/// Two operands.
fn pair(
    alloc: Global,
    store: &Store,
    numbers: &[u32],
    a: Term,
    b: Term,
) -> Result<(Box<Expr>, Box<Expr>), NoMemory>
    requires few { length numbers.now ≤ length store.now.nodes }
    requires first { a.0 < length numbers.now }
    requires second { b.0 < length numbers.now }
    ensures first { IfOk result (λ both. formula both.0.value ≡ extracted.operand store.now.nodes (numbered numbers.now) a) }
    ensures second { IfOk result (λ both. formula both.1.value ≡ extracted.operand store.now.nodes (numbered numbers.now) b) }
{
    let first = Box::new(alloc, operand(store, numbers, a))?;
    let second = Box::new(alloc, operand(store, numbers, b))?;
    Ok((first, second))
}

/// How an expression names a place: an input, never, or the let of its number.
fn operand(store: &Store, numbers: &[u32], t: Term) -> Expr
    requires few { length numbers.now ≤ length store.now.nodes }
    requires within { t.0 < length numbers.now }
    ensures operand { formula result ≡ extracted.operand store.now.nodes (numbered numbers.now) t }
{
    match store.node(t) {
        Node::Input(i) => Expr::Input(i),
        Node::Never => Expr::Never,
        _ => Expr::Named(numbers[t.0 as usize]),
    }
}

/// The outputs: for each root, its operand under its name.
fn write_outputs(
    alloc: Global,
    store: &Store,
    numbers: &[u32],
    roots: &[Term],
    names: &[Name],
) -> Result<Vec<Binding>, NoMemory>
    requires numbers { length numbers.now ≡ length store.now.nodes }
    requires roots { All (λ t. t.0 < length store.now.nodes) roots.now }
    requires one_name { length names.now ≡ length roots.now }
    ensures outputs { IfOk result (λ outputs. outputs.items ≡ root_outputs store.now.nodes (numbered numbers.now) roots.now names.now) }
{
    let mut outputs = Vec::new(alloc);
    for root in roots {
        let name = Name::new(alloc, names[outputs.len()].bytes())?;
        outputs.push(Binding::new(name, operand(store, numbers, *root)))?;
    }
    Ok(outputs)
}
