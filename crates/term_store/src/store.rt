//! The store.
ghost use Rattle.std.specs.Prelude.{◌≡◌, ◌+◌, ◌<◌, ◌≤◌, ◌++◌, ◌∷◌, ◌↔◌, [], length, true, false, Err, IfOk, IfErr, OnOk, OnErr, IsOk, MatchOption, take};
ghost use Rattle.term_store.specs.Nodes.{holds, node_at, place_of, with_node, IsNodeOver, IsNodes, IsFound, IsRefusal};
ghost use Rattle.term_store.specs.Planting.{cost};
ghost use Rattle.indexmap.specs.IndexSet.{spare};

use crate::node::{Node, StoreError, Term};
use indexmap::IndexSet;
use rl_time::NoMemory;
use std::alloc::Global;
use std::marker::Model;

/// The most nodes that a store holds.
const MOST_NODES: usize = 262144;

impl From<NoMemory> for StoreError {
    ghost use Rattle.std.specs.Prelude.{◌≡◌};
    ghost use Rattle.term_store.specs.declared.node.StoreError.{StoreError};
    ghost use Rattle.term_store.specs.declared.node.StoreError.TheVariants.{NoMemory as NoMemoryError};

    ghost from_gives = { λ _ e. e ≡ NoMemoryError };

    fn from(_: NoMemory) -> StoreError {
        StoreError::NoMemory
    }
}

/// Distinct nodes, in the order in which they came. The operands of each are before it.
#[derive(Drop)]
pub struct Store {
    nodes: IndexSet<Node>,
}

impl Model for Store {
    ghost use Rattle.term_store.specs.Nodes.{Contents, IsNodes};

    ghost Value = { Contents };

    ghost use Rattle.indexmap.specs.IndexSet.{spare};

    ghost view = { λ s. record { nodes = s.nodes.keys; spare = spare s.nodes } };

    ghost invariant = { λ s. IsNodes s.nodes.keys };
}

impl Store {
    /// A store without nodes.
    pub fn new(alloc: Global) -> Result<Store, NoMemory>
        ensures empty { IfOk result (λ store. store.nodes ≡ []) }
    {
        Ok(Store {
            nodes: IndexSet::new(alloc),
        })
    }

    /// The number of nodes.
    pub fn len(&self) -> u32
        ensures len { result ≡ length self.now.nodes }
    {
        self.nodes.len() as u32
    }

    /// The node at a place of the store.
    pub fn node(&self, t: Term) -> Node
        requires within { t.0 < length self.now.nodes }
        ensures at { result ≡ node_at self.now.nodes t.0 }
    {
        self.nodes.as_slice()[t.0 as usize]
    }

    /// What is true of the nodes of every store.
    pub fn rules(&self)
        ensures rules { IsNodes self.now.nodes }
    {
        let _ = &self.nodes;
    }

    /// Makes room for n nodes more, at most 262,144.
    pub fn reserve(&mut self, n: u32) -> Result<(), NoMemory>
        requires few { n ≤ 262144 }
        ensures nodes { self.new.nodes ≡ self.old.nodes }
        ensures room { OnOk result (n ≤ self.new.spare) }
        ensures kept { self.old.spare ≤ self.new.spare }
        ensures succeeds { n ≤ self.old.spare → IsOk result }
    {
        match self.nodes.reserve(n as usize) {
            Ok(()) => Ok(()),
            Err(_) => Err(NoMemory),
        }
    }

    /// The place of a node, which goes last where it isn't held. A node that is held is always
    /// taken. For another, `Full` is answered exactly if the store holds 262,144 nodes, and `NoMemory`
    /// only where it holds fewer and no room was left. Its operands are in the store.
    pub fn intern(&mut self, node: Node) -> Result<Term, StoreError>
        requires over { IsNodeOver (length self.old.nodes) node }
        ensures nodes { OnOk result (self.new.nodes ≡ with_node self.old.nodes node) }
        ensures place { IfOk result (λ t. t.0 ≡ place_of self.old.nodes node) }
        ensures within { IfOk result (λ t. t.0 < length self.new.nodes) }
        ensures at { IfOk result (λ t. node_at self.new.nodes t.0 ≡ node) }
        ensures held { holds self.old.nodes node ≡ true → IsOk result × (self.new ≡ self.old) }
        ensures refusal { IfErr result (IsRefusal self.old node) }
        ensures full { holds self.old.nodes node ≡ false → length self.old.nodes ≡ 262144 → result ≡ Err StoreError.Full }
        ensures unchanged { OnErr result (self.new.nodes ≡ self.old.nodes) }
        ensures spare { self.old.spare ≤ self.new.spare + cost self.old.nodes node }
    {
        match find(&self.nodes, node) {
            Some(place) => Ok(place),
            None if self.nodes.len() == MOST_NODES => Err(StoreError::Full),
            None => Ok(put_last(&mut self.nodes, node)?),
        }
    }

    /// Keeps the first nodes and takes the others away.
    pub(crate) fn keep_first(&mut self, len: usize)
        ensures nodes { self.new.nodes ≡ take len self.old.nodes }
    {
        self.nodes.truncate(len);
    }

    /// The place of a node, where it is held or there is room for it.
    pub(crate) fn keep(&mut self, node: Node) -> Term
        requires over { IsNodeOver (length self.old.nodes) node }
        requires room { length self.old.nodes + cost self.old.nodes node ≤ 262144 }
        requires spare { cost self.old.nodes node ≤ self.old.spare }
        ensures nodes { self.new.nodes ≡ with_node self.old.nodes node }
        ensures within { result.0 < length self.new.nodes }
        ensures at { node_at self.new.nodes result.0 ≡ node }
        ensures spare { self.old.spare ≤ self.new.spare + cost self.old.nodes node }
    {
        match self.intern(node) {
            Ok(t) => t,
            Err(_) => unreachable!(),
        }
    }
}

/// The place of a node that is held.
fn find(nodes: &IndexSet<Node>, node: Node) -> Option<Term>
    requires few { length nodes.now.keys ≤ 262144 }
    ensures found { MatchOption result (holds nodes.now.keys node ≡ false) (IsFound nodes.now.keys node) }
{
    match nodes.get_index_of(&node) {
        Some(place) => Some(Term(place as u32)),
        None => None,
    }
}

/// Puts a node last that isn't held.
fn put_last(nodes: &mut IndexSet<Node>, node: Node) -> Result<Term, NoMemory>
    requires held { IsNodes nodes.old.keys }
    requires new { holds nodes.old.keys node ≡ false }
    requires over { IsNodeOver (length nodes.old.keys) node }
    requires room { length nodes.old.keys < 262144 }
    ensures ok { OnOk result ((nodes.new.keys ≡ nodes.old.keys ++ node ∷ []) × IsNodes nodes.new.keys) }
    ensures last { IfOk result (λ t. t.0 ≡ length nodes.old.keys) }
    ensures place { IfOk result (λ t. t.0 ≡ place_of nodes.old.keys node) }
    ensures err { OnErr result (nodes.new.keys ≡ nodes.old.keys) }
    ensures succeeds { 0 < spare nodes.old → IsOk result }
    ensures spare { spare nodes.old ≤ spare nodes.new + 1 }
{
    match nodes.insert_full(node) {
        Ok((place, _)) => Ok(Term(place as u32)),
        Err(_) => Err(NoMemory),
    }
}
