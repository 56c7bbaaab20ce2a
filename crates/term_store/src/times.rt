//! The times of a store's terms at many lists of times, in room that is made once.
ghost use Rattle.std.specs.Prelude.{◌≡◌, ℕ, ◌<◌, ◌≤◌, ◌+◌, length, IfOk};
ghost use Rattle.rl_time.specs.declared.time.Time.{Time};
ghost use Rattle.net_model.specs.Value.{time_at};
ghost use Rattle.net_model.specs.Early.{AreEarly};
ghost use Rattle.term_store.specs.Nodes.{IsNodes, IsNodeOver};
ghost use Rattle.term_store.specs.Tree.{value};
ghost use Rattle.term_store.specs.Trees.{tree};
ghost use Rattle.term_store.specs.Steps.{answer, number, number_at, time_of, step_node, step_nodes, step_number, AreSteps, IsStepOver};

use crate::node::{Node, Term};
use crate::step::{Operation, Operator, Step};
use crate::store::Store;
use rl_time::{NoMemory, Time};
use std::alloc::Global;
use std::marker::Model;

/// The number for never. It is greater than every time that is reached, and stays what it is where cycles are added.
const NEVER: u64 = u64::MAX;

/// Values the terms of a store. All room is allocated when it is made.
#[derive(Drop)]
pub struct Evaluator {
    steps: Vec<Step>,
    numbers: Vec<u64>,
}

impl Model for Evaluator {
    ghost use Rattle.std.specs.Prelude.{◌≡◌, List, length};
    ghost use Rattle.term_store.specs.declared.node.Node.{Node};
    ghost use Rattle.term_store.specs.Steps.{step_nodes, AreSteps};

    ghost Value = { List Node };

    ghost view = { λ s. step_nodes s.steps.items };

    ghost invariant = { λ s. AreSteps s.steps.items × (length s.numbers.items ≡ length s.steps.items) };
}

impl Evaluator {
    /// Makes room for the times of a store's nodes.
    pub fn new(alloc: Global, store: &Store) -> Result<Evaluator, NoMemory>
        ensures nodes { IfOk result (λ evaluator. evaluator ≡ store.now.nodes) }
    {
        store.rules();
        let steps = steps(alloc, store)?;
        let numbers = vec![in alloc; NEVER; steps.len()]?;
        Ok(Evaluator { steps, numbers })
    }

    /// The time of the term at a place, at these times of the inputs, each never or at most
    /// 1,000,000,000,000 cycles. Inputs past the last of them are never. Each place up to this one
    /// is valued once.
    pub fn time(&mut self, place: Term, x: &[Time]) -> Time
        requires within { place.0 < length self.old }
        requires early { AreEarly x.now }
        ensures time { result ≡ value x.now (tree self.old place.0) }
        ensures nodes { self.new ≡ self.old }
    {
        last_time(&self.steps, &mut self.numbers, place.0 as usize, x)
    }
}

/// The steps of a store's nodes, in order.
fn steps(alloc: Global, store: &Store) -> Result<Vec<Step>, NoMemory>
    requires nodes { IsNodes store.now.nodes }
    ensures nodes { IfOk result (λ steps. step_nodes steps.items ≡ store.now.nodes) }
    ensures steps { IfOk result (λ steps. AreSteps steps.items) }
{
    let mut steps = Vec::with_capacity(alloc, store.len() as usize)?;
    for place in 0..store.len() {
        steps.push(step(store.node(Term(place))))?;
    }
    Ok(steps)
}

fn step(node: Node) -> Step
    ensures node { step_node result ≡ node }
    ensures over { (m : ℕ) → IsNodeOver m node → IsStepOver m result }
{
    match node {
        Node::Input(i) => Step::Input(i),
        Node::Never => Step::Never,
        Node::Min(a, b) => operation(Operator::Min, a, b, 0),
        Node::Max(a, b) => operation(Operator::Max, a, b, 0),
        Node::Lt(a, b) => operation(Operator::Lt, a, b, 0),
        Node::Inc(a, cycles) => operation(Operator::Inc, a, a, cycles),
    }
}

fn operation(operator: Operator, a: Term, b: Term, by: u32) -> Step
    ensures { result ≡ Step.Operation (record { operator = operator; first = a.0; second = b.0; by = by }) }
{
    Step::Operation(Operation {
        operator,
        first: a.0,
        second: b.0,
        by,
    })
}

/// The time of the step at a place, for which those before it are valued too.
fn last_time(steps: &[Step], numbers: &mut [u64], place: usize, x: &[Time]) -> Time
    requires steps { AreSteps steps.now }
    requires room { length numbers.old ≡ length steps.now }
    requires within { place < length steps.now }
    requires early { AreEarly x.now }
    ensures room { length numbers.new ≡ length numbers.old }
    ensures time { result ≡ value x.now (tree (step_nodes steps.now) place) }
{
    run(steps, numbers, place + 1, x);
    time_of(numbers[place])
}

/// Values the first steps in order, each over the numbers of those before it.
fn run(steps: &[Step], numbers: &mut [u64], len: usize, x: &[Time])
    requires steps { AreSteps steps.now }
    requires room { length numbers.old ≡ length steps.now }
    requires len { len ≤ length steps.now }
    requires early { AreEarly x.now }
    ensures room { length numbers.new ≡ length numbers.old }
    ensures numbers { (place : ℕ) → place < len → number_at numbers.new place ≡ number (value x.now (tree (step_nodes steps.now) place)) }
{
    for place in 0..len {
        numbers[place] = step_number(&steps[place], numbers, x);
    }
}

/// The number that a step gives. Inputs and never are few, so their branches are foreseen by the processor.
fn step_number(step: &Step, numbers: &[u64], x: &[Time]) -> u64
    requires over { IsStepOver (length numbers.now) step.now }
    ensures { result ≡ step_number x.now numbers.now step.now }
{
    match step {
        Step::Input(i) => input_number(x, *i),
        Step::Never => NEVER,
        Step::Operation(operation) => answer(
            operation,
            numbers[operation.first as usize],
            numbers[operation.second as usize],
        ),
    }
}

/// The number of an input's time.
fn input_number(x: &[Time], place: u32) -> u64
    ensures { result ≡ number (time_at x.now place) }
{
    match x.get(place as usize) {
        Some(Time::At(a)) => *a,
        _ => NEVER,
    }
}

/// What an operation gives at the numbers of its operands. All four answers are computed and one is chosen by its index: which
/// operator comes next can't be foreseen, and a wrong guess at a branch costs more than all of them.
fn answer(operation: &Operation, p: u64, q: u64) -> u64
    ensures { result ≡ answer operation.now.operator p q operation.now.by }
{
    let before = if p < q { p } else { NEVER };
    let later = p.saturating_add(u64::from(operation.by));
    [p.min(q), p.max(q), before, later][operation.operator as usize]
}

/// The time that a number means.
fn time_of(number: u64) -> Time
    ensures { result ≡ time_of number }
{
    if number == NEVER {
        Time::Never
    } else {
        Time::At(number)
    }
}
