//! Laws of the terms of networks, and of the places of a store.
ghost use Rattle.std.specs.Prelude.{◌≡◌, ◌<◌, ◌≤◌, ◌+◌, ◌*◌, ℕ, List, length};
ghost use Rattle.std.specs.List.{All, AllByRecursion};
ghost use Rattle.net_model.specs.Formula.{Net};
ghost use Rattle.net_model.specs.Rules.{IsNetwork, names_of};
ghost use Rattle.term_store.specs.declared.node.Term.{Term};
ghost use Rattle.term_store.specs.declared.node.Node.{Node};
ghost use Rattle.term_store.specs.Terms.{network_trees};
ghost use Rattle.term_store.specs.Tree.{Tree};
ghost use Rattle.term_store.specs.Subterms.{AreNetworkTerms, IsShortDelay, IsInputBelow, distinct_subterms, join_count, delay_count, register_bits};
ghost use Rattle.term_store.specs.Nodes.{IsNodes};
ghost use Rattle.term_store.specs.Reach.{AreLeastClosed};
ghost use Rattle.term_store.specs.Ports.{ArePorts};
ghost use Rattle.term_store.specs.Laws.{HaveItsValues, AreApart};

/// The terms of a network's outputs have the times that its space-time function gives. The law
/// needs none of the rules of networks.
pub fn terms_have_the_networks_values()
    ensures law { (n : Net) → HaveItsValues n }
{}

/// The distinct subterms of a network's outputs keep the bounds of networks.
pub fn network_terms_are_few()
    ensures law { (n : Net) → IsNetwork n → AreNetworkTerms (length n.inputs) (network_trees n) }
{}

/// The names of a network's inputs and outputs are such as an extracted network may have.
pub fn network_names_are_ports()
    ensures law { (n : Net) → IsNetwork n → ArePorts n.inputs (names_of n.outputs) }
{}

/// Terms that delay each input by at most m cycles, and every other term by one, need at most m
/// register bits for each input, and one for each inc and each min, max and lt.
pub fn short_delays_need_few_bits()
    ensures law { (m inputs : ℕ) (trees : List Tree) → 1 ≤ m → AllByRecursion (IsInputBelow inputs) (distinct_subterms trees) →
        AllByRecursion (IsShortDelay m) (distinct_subterms trees) → register_bits trees ≤ m * inputs + delay_count trees + join_count trees }
{}

/// Two places of a store with the same term are the same place.
pub fn no_two_places_alike()
    ensures law { (nodes : List Node) → IsNodes nodes → AreApart nodes }
{}

/// The places that roots reach are the least that have the roots among them, and the operands of
/// each of them.
pub fn reached_places()
    ensures law { (nodes : List Node) (roots : List Term) → IsNodes nodes → All (λ r. r.0 < length nodes) roots → AreLeastClosed nodes roots }
{}
