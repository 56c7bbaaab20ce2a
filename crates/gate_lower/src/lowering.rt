ghost use Rattle.std.specs.Prelude.{◌≡◌, ◌^◌, ◌<◌, ◌≤◌, ℕ, true, length, sum_by, IfOk, OnOk, Err};
ghost use Rattle.std.specs.List.{All};
ghost use Rattle.term_store.specs.Nodes.{IsNodeOver};
ghost use Rattle.term_store.specs.Trees.{trees_at};
ghost use Rattle.term_store.specs.Subterms.{AreNetworkTerms, join_count, register_bits};
ghost use Rattle.term_store.specs.Places.{reach_marks, is_join_node, is_lt_node, marked_upto};
ghost use Rattle.term_store.specs.Ports.{ArePorts};
ghost use Rattle.gate_lower.specs.Lowered.{node_gate, gates_of, delays_of, outputs_of, marked_bits, lowered};
ghost use Rattle.gate_lower.specs.Planned.{IsPlan};
ghost use Rattle.gate_lower.specs.Rules as rules;
ghost use Rattle.gate_lower.specs.Rules.{IsNetlist};
ghost use Rattle.gate_lower.specs.Timing.{AreGatesOf};
ghost use Rattle.gate_lower.specs.Valued.{HaveTermsValues};
ghost use Rattle.gate_lower.specs.declared.lowering.LowerError.TheVariants.{TooManyBits};

use crate::gates::{Delay, Gate, Gates, OutLine};
use crate::names::copy_names;
use crate::plan::{Plan, make_plan};
use rl_text::Name;
use rl_time::NoMemory;
use std::alloc::{AllocError, Global};
use term_store::{
    Node, Store, Term, places_count_subterms, reached_places_are_closed, terms_follow_nodes,
};

/// Why terms have no gates: they need more than 65,536 register bits, `TooManyBits` holds the number; or memory ran out.
#[derive(Clone, Copy, Debug, PartialEq, Eq)]
pub enum LowerError {
    TooManyBits(u64),
    NoMemory,
}

impl From<AllocError> for LowerError {
    ghost use Rattle.std.specs.Prelude.{◌≡◌};
    ghost use Rattle.gate_lower.specs.declared.lowering.LowerError.TheVariants.{NoMemory};

    ghost from_gives = { λ _ e. e ≡ NoMemory };

    fn from(_: AllocError) -> Self {
        LowerError::NoMemory
    }
}

impl From<NoMemory> for LowerError {
    ghost use Rattle.std.specs.Prelude.{◌≡◌};
    ghost use Rattle.gate_lower.specs.declared.lowering.LowerError.TheVariants.{NoMemory};

    ghost from_gives = { λ _ e. e ≡ NoMemory };

    fn from(_: NoMemory) -> Self {
        LowerError::NoMemory
    }
}

/// The most register bits that a module may have.
const MOST_BITS: u64 = 65536;

/// The sum of the longest delays.
fn delay_bits(longest: &[u32]) -> u64
    requires few { length longest.now ≤ 262144 }
    ensures sum { result ≡ sum_by (λ delay. delay) longest.now }
    ensures small { result ≤ 2 ^ 50 }
{
    let mut bits = 0;
    for delay in longest {
        bits += u64::from(*delay);
    }
    bits
}

/// How many lt are marked.
fn latch_bits(store: &Store, marks: &[bool]) -> u64
    requires len { length marks.now ≡ length store.now.nodes }
    ensures count { result ≡ marked_upto is_lt_node store.now.nodes marks.now (length store.now.nodes) }
{
    store.rules();
    let mut bits = 0;
    for place in 0..store.len() {
        if marks[place as usize] && matches!(store.node(Term(place)), Node::Lt(_, _)) {
            bits += 1;
        }
    }
    bits
}

/// The register bits of what a plan reaches.
fn bits(store: &Store, plan: &Plan) -> u64
    requires plan { IsPlan store.now.nodes plan.now }
    ensures bits { result ≡ marked_bits store.now.nodes plan.now.marks.items }
{
    store.rules();
    delay_bits(&plan.longest) + latch_bits(store, &plan.marks)
}

/// The gate of a node that is a min, max or lt.
fn gate(store: &Store, plan: &Plan, node: Node) -> Gate
    requires plan { IsPlan store.now.nodes plan.now }
    requires over { IsNodeOver (length store.now.nodes) node }
    requires join { is_join_node node ≡ true }
    ensures gate { result ≡ node_gate store.now.nodes plan.now.marks.items node }
{
    match node {
        Node::Min(a, b) => Gate::Or(plan.line(store, a), plan.line(store, b)),
        Node::Max(a, b) => Gate::And(plan.line(store, a), plan.line(store, b)),
        Node::Lt(a, b) => Gate::Latch(plan.line(store, a), plan.line(store, b)),
        Node::Never | Node::Input(_) | Node::Inc(_, _) => unreachable!(),
    }
}

/// The gates of what a plan reaches, in ascending place.
fn gates(alloc: Global, store: &Store, plan: &Plan) -> Result<Vec<Gate>, NoMemory>
    requires plan { IsPlan store.now.nodes plan.now }
    ensures gates { IfOk result (λ gates. gates.items ≡ gates_of store.now.nodes plan.now.marks.items) }
{
    store.rules();
    let mut gates = Vec::new(alloc);
    for place in 0..store.len() {
        if plan.is_gate(store, place) {
            gates.push(gate(store, plan, store.node(Term(place))))?;
        }
    }
    Ok(gates)
}

/// The delays of what a plan reaches, in ascending place.
fn delays(alloc: Global, store: &Store, plan: &Plan) -> Result<Vec<Delay>, NoMemory>
    requires plan { IsPlan store.now.nodes plan.now }
    ensures delays { IfOk result (λ delays. delays.items ≡ delays_of store.now.nodes plan.now.marks.items) }
{
    store.rules();
    let mut delays = Vec::new(alloc);
    for place in 0..store.len() {
        let width = plan.longest[place as usize];
        if width > 0 {
            let from = plan.line(store, Term(place));
            delays.push(Delay { from, width })?;
        }
    }
    Ok(delays)
}

/// The outputs with the lines of their roots, in order.
fn out_lines(
    alloc: Global,
    store: &Store,
    plan: &Plan,
    roots: &[Term],
    names: &[Name],
) -> Result<Vec<OutLine>, NoMemory>
    requires plan { IsPlan store.now.nodes plan.now }
    requires roots { All (λ r. r.0 < length store.now.nodes) roots.now }
    requires one_each { length names.now ≡ length roots.now }
    ensures outputs { IfOk result (λ outs. outs.items ≡ outputs_of store.now.nodes plan.now.marks.items roots.now names.now) }
{
    let mut outs = Vec::new(alloc);
    for (place, name) in names.iter().enumerate() {
        let copy = Name::new(alloc, name.bytes())?;
        outs.push(OutLine::new(copy, plan.line(store, roots[place])))?;
    }
    Ok(outs)
}

/// The gates of the terms at some roots of a store, one output name for each: one gate for each distinct min, max and
/// lt among their subterms, in ascending place, and one delay for each distinct subterm that is delayed, as wide as its
/// longest delay. `TooManyBits` holds how many register bits they need, if that is over 65,536.
pub fn lower(
    alloc: Global,
    store: &Store,
    roots: &[Term],
    inputs: &[Name],
    outputs: &[Name],
) -> Result<Gates, LowerError>
    requires roots { All (λ r. r.0 < length store.now.nodes) roots.now }
    requires one_each { length outputs.now ≡ length roots.now }
    requires ports { ArePorts inputs.now outputs.now }
    requires terms { AreNetworkTerms (length inputs.now) (trees_at store.now.nodes roots.now) }
    ensures gates { IfOk result (λ g. g ≡ lowered store.now.nodes roots.now inputs.now outputs.now) }
    ensures timed { IfOk result (AreGatesOf inputs.now outputs.now (trees_at store.now.nodes roots.now)) }
    ensures terms { IfOk result (HaveTermsValues store.now.nodes roots.now) }
    ensures wires { IfOk result (λ g. length g.gates ≡ join_count (trees_at store.now.nodes roots.now)) }
    ensures bits { IfOk result (λ g. rules.register_bits g ≡ register_bits (trees_at store.now.nodes roots.now)) }
    ensures few { OnOk result (register_bits (trees_at store.now.nodes roots.now) ≤ 65536) }
    ensures too_many { (bits : ℕ) → result ≡ Err (TooManyBits bits) →
        (bits ≡ register_bits (trees_at store.now.nodes roots.now)) × (65536 < bits) }
{
    store.rules();
    places_count_subterms();
    reached_places_are_closed();
    terms_follow_nodes();
    let plan = make_plan(alloc, store, roots)?;
    let bits = bits(store, &plan);
    if bits > MOST_BITS {
        return Err(LowerError::TooManyBits(bits));
    }
    Ok(build(alloc, store, &plan, roots, inputs, outputs)?)
}

/// The gates of what a plan reaches.
fn build(
    alloc: Global,
    store: &Store,
    plan: &Plan,
    roots: &[Term],
    inputs: &[Name],
    outputs: &[Name],
) -> Result<Gates, NoMemory>
    requires plan { IsPlan store.now.nodes plan.now }
    requires marks { plan.now.marks.items ≡ reach_marks store.now.nodes roots.now }
    requires roots { All (λ r. r.0 < length store.now.nodes) roots.now }
    requires one_each { length outputs.now ≡ length roots.now }
    requires valid { IsNetlist (lowered store.now.nodes roots.now inputs.now outputs.now) }
    ensures gates { IfOk result (λ g. g ≡ lowered store.now.nodes roots.now inputs.now outputs.now) }
{
    let gates = gates(alloc, store, plan)?;
    let delays = delays(alloc, store, plan)?;
    let outs = out_lines(alloc, store, plan, roots, outputs)?;
    let names = copy_names(alloc, inputs)?;
    Ok(Gates::new(names, outs, gates, delays))
}
