//! Terms joined from left to right.
ghost use Rattle.std.specs.Prelude.{◌≡◌, ◌<◌, length};
ghost use Rattle.std.specs.List.{All};
ghost use Rattle.term_store.specs.Nodes.{IsNodes};
ghost use Rattle.term_store.specs.Trees.{tree, trees_at};
ghost use Rattle.term_store.specs.Planting.{IsPlanted};
ghost use Rattle.minterm.specs.Minterms.{joined};
ghost use Rattle.term_store.specs.Room.{HasRoom, TakesRoom};
ghost use Rattle.minterm.specs.Steps.{join_node, join_tree};

use crate::join::Join;
use crate::planting::planting_laws;
use term_store::{Node, Store, Term};

impl Join {
    /// The node of two joined terms.
    fn node(self, first: Term, second: Term) -> Node
        ensures { result ≡ join_node self first second }
    {
        match self {
            Join::Min => Node::Min(first, second),
            Join::Max => Node::Max(first, second),
        }
    }
}

/// Plants the join of a term and others, and answers its place.
pub fn put_joined(store: &mut Store, join: Join, first: Term, rest: &[Term]) -> Term
    requires nodes { IsNodes store.old.nodes }
    requires first { first.0 < length store.old.nodes }
    requires rest { All (λ t. t.0 < length store.old.nodes) rest.now }
    requires room { HasRoom store.old (length rest.now) }
    ensures planted { IsPlanted store.old.nodes store.new.nodes (joined (join_tree join) (tree store.old.nodes first.0) (trees_at store.old.nodes rest.now)) result }
    ensures room { TakesRoom store.old store.new (length rest.now) }
{
    planting_laws();
    let mut last = first;
    for next in rest {
        last = store.put(join.node(last, *next));
    }
    last
}
