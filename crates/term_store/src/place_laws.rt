//! Laws of the places that roots reach.
ghost use Rattle.std.specs.Prelude.{◌≡◌, ◌<◌, ℕ, List, length};
ghost use Rattle.std.specs.List.{All};
ghost use Rattle.term_store.specs.declared.node.Term.{Term};
ghost use Rattle.term_store.specs.declared.node.Node.{Node};
ghost use Rattle.term_store.specs.Nodes.{node_at, IsNodes};
ghost use Rattle.term_store.specs.Tree.{Tree};
ghost use Rattle.term_store.specs.Trees.{tree, plant_one, IsPrefix};
ghost use Rattle.term_store.specs.Places.{reach_marks, CountsAreRight, MarksAreClosed, tree_by_places};

/// The places that roots reach are the distinct subterms of their terms, each once: so what is counted over the one is
/// what is counted over the other.
pub fn places_count_subterms()
    ensures { (nodes : List Node) (roots : List Term) → IsNodes nodes → All (λ r. r.0 < length nodes) roots →
        CountsAreRight nodes roots (reach_marks nodes roots) }
{}

/// The places that roots reach have the operands of each among them, and no input past those of the roots' terms.
pub fn reached_places_are_closed()
    ensures { (nodes : List Node) (roots : List Term) → IsNodes nodes → All (λ r. r.0 < length nodes) roots →
        MarksAreClosed nodes roots (reach_marks nodes roots) }
{}

/// The term of a place is its node over the terms of its operands' places.
pub fn terms_follow_nodes()
    ensures { (nodes : List Node) (place : ℕ) → IsNodes nodes → place < length nodes →
        tree nodes place ≡ tree_by_places nodes (node_at nodes place) }
{}

/// Planting a term that a store holds changes nothing.
pub fn planted_terms_stay()
    ensures { (nodes : List Node) (t : Tree) (place : ℕ) → IsNodes nodes → place < length nodes → tree nodes place ≡ t →
        plant_one nodes t ≡ nodes }
{}

/// The term of a place stays what it is where more nodes come.
pub fn terms_of_places_stay()
    ensures { (old nodes : List Node) (place : ℕ) → IsPrefix old nodes → place < length old → tree nodes place ≡ tree old place }
{}
