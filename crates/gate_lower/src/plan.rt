ghost use Rattle.std.specs.Prelude.{◌≡◌, ◌<◌, ◌≤◌, ℕ, length, map, filter, sum_by, max, slice_index_or, IfOk, OnOk};
ghost use Rattle.std.specs.List.{All};
ghost use Rattle.term_store.specs.Nodes.{node_at, IsNodeOver};
ghost use Rattle.term_store.specs.Places.{places, reach_marks, is_marked, is_join_node, is_lt_node, longest_at, marked_upto};
ghost use Rattle.gate_lower.specs.Lowered.{is_gate, gate_number, term_line, node_line};
ghost use Rattle.gate_lower.specs.Planned.{raised, is_positive, count_positive, IsPlan};

use crate::gates::Line;
use rl_time::NoMemory;
use std::alloc::Global;
use term_store::{Node, Store, Term, reached};

/// What is known of each place of a store before the gates are made.
#[derive(Drop)]
pub struct Plan {
    /// Whether the roots reach the place.
    pub marks: Vec<bool>,
    /// The longest delay of the place's term, in cycles; 0 where it isn't delayed.
    pub longest: Vec<u32>,
    /// How many gates have lower places.
    pub gate_numbers: Vec<u32>,
    /// How many delays have lower places.
    pub delay_numbers: Vec<u32>,
}

/// So many zeros.
fn zeros(alloc: Global, count: usize) -> Result<Vec<u32>, NoMemory>
    ensures len { IfOk result (λ v. length v.items ≡ count) }
    ensures zero { IfOk result (λ v. (place : ℕ) → slice_index_or v.items place 0 ≡ 0) }
{
    match vec![in alloc; 0; count] {
        Ok(zeros) => Ok(zeros),
        Err(_) => Err(NoMemory),
    }
}

/// Makes the longest delay of a node's operand at least its own, where the node is a delay.
fn raise(longest: &mut Vec<u32>, node: Node)
    requires over { IsNodeOver (length longest.old.items) node }
    ensures raised { longest.new.items ≡ raised node longest.old.items }
{
    if let Node::Inc(of, by) = node {
        let place = of.0 as usize;
        longest[place] = longest[place].max(by);
    }
}

/// The longest delay of each place by a marked node.
fn longest_delays(alloc: Global, store: &Store, marks: &[bool]) -> Result<Vec<u32>, NoMemory>
    requires len { length marks.now ≡ length store.now.nodes }
    ensures longest { IfOk result (λ v. v.items ≡ map (longest_at store.now.nodes marks.now) (places (length store.now.nodes))) }
{
    store.rules();
    let len = store.len();
    let mut longest = zeros(alloc, len as usize)?;
    for place in 0..len {
        if marks[place as usize] {
            raise(&mut longest, store.node(Term(place)));
        }
    }
    Ok(longest)
}

/// Whether a marked place is one of a gate.
fn is_gate(store: &Store, marks: &[bool], place: u32) -> bool
    requires within { place < length store.now.nodes }
    requires len { length marks.now ≡ length store.now.nodes }
    ensures is { result ≡ is_gate store.now.nodes marks.now place }
{
    marks[place as usize]
        && matches!(
            store.node(Term(place)),
            Node::Min(_, _) | Node::Max(_, _) | Node::Lt(_, _)
        )
}

/// How many gates have lower places than each place.
fn gate_numbers(alloc: Global, store: &Store, marks: &[bool]) -> Result<Vec<u32>, NoMemory>
    requires len { length marks.now ≡ length store.now.nodes }
    ensures numbers { IfOk result (λ v. v.items ≡ map (gate_number store.now.nodes marks.now) (places (length store.now.nodes))) }
{
    store.rules();
    let mut numbers = Vec::new(alloc);
    let mut count = 0;
    for place in 0..store.len() {
        numbers.push(count)?;
        if is_gate(store, marks, place) {
            count += 1;
        }
    }
    Ok(numbers)
}

/// How many places with a delay are lower than each place.
fn delay_numbers(alloc: Global, longest: &[u32]) -> Result<Vec<u32>, NoMemory>
    requires few { length longest.now ≤ 262144 }
    ensures numbers { IfOk result (λ v. v.items ≡ map (count_positive longest.now) (places (length longest.now))) }
{
    let mut numbers = Vec::new(alloc);
    let mut count = 0;
    for delay in longest {
        numbers.push(count)?;
        if *delay > 0 {
            count += 1;
        }
    }
    Ok(numbers)
}

/// The plan of what these roots of a store reach.
pub fn make_plan(alloc: Global, store: &Store, roots: &[Term]) -> Result<Plan, NoMemory>
    requires roots { All (λ r. r.0 < length store.now.nodes) roots.now }
    ensures marks { IfOk result (λ p. p.marks.items ≡ reach_marks store.now.nodes roots.now) }
    ensures plan { IfOk result (IsPlan store.now.nodes) }
{
    store.rules();
    let marks = reached(alloc, store, roots)?;
    let longest = longest_delays(alloc, store, &marks)?;
    let gate_numbers = gate_numbers(alloc, store, &marks)?;
    let delay_numbers = delay_numbers(alloc, &longest)?;
    Ok(Plan {
        marks,
        longest,
        gate_numbers,
        delay_numbers,
    })
}

impl Plan {
    /// The line of the term at a place.
    pub fn line(&self, store: &Store, term: Term) -> Line
        requires plan { IsPlan store.now.nodes self.now }
        requires within { term.0 < length store.now.nodes }
        ensures line { result ≡ term_line store.now.nodes self.now.marks.items term }
    {
        store.rules();
        match store.node(term) {
            Node::Never => Line::Low,
            Node::Input(i) => Line::Input(i),
            Node::Inc(of, by) => Line::Tap(self.delay_numbers[of.0 as usize], by),
            Node::Min(_, _) | Node::Max(_, _) | Node::Lt(_, _) => {
                Line::Gate(self.gate_numbers[term.0 as usize])
            }
        }
    }

    /// Whether the place is one of a gate.
    pub fn is_gate(&self, store: &Store, place: u32) -> bool
        requires plan { IsPlan store.now.nodes self.now }
        requires within { place < length store.now.nodes }
        ensures is { result ≡ is_gate store.now.nodes self.now.marks.items place }
    {
        is_gate(store, &self.marks, place)
    }
}
