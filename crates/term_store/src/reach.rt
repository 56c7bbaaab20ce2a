//! What roots reach.
ghost use Rattle.std.specs.Prelude.{◌≡◌, ℕ, ◌<◌, ◌↔◌, ◌⊎◌, true, false, length, IfOk};
ghost use Rattle.std.specs.List.{All, slice_index_or};
ghost use Rattle.term_store.specs.Nodes.{IsNodeOver};
ghost use Rattle.term_store.specs.Reach.{is_root, IsReached, IsOperand};

use crate::node::{Node, Term};
use crate::store::Store;
use rl_time::NoMemory;
use std::alloc::Global;

/// For each place of the store, whether the roots reach it: whether its term is a subterm of
/// theirs. The roots are places of the store.
pub fn reached(alloc: Global, store: &Store, roots: &[Term]) -> Result<Vec<bool>, NoMemory>
    requires roots { All (λ t. t.0 < length store.now.nodes) roots.now }
    ensures len { IfOk result (λ marks. length marks.items ≡ length store.now.nodes) }
    ensures marks { IfOk result (λ marks. (place : ℕ) → place < length store.now.nodes → (slice_index_or marks.items place false ≡ true) ↔ IsReached store.now.nodes roots.now place) }
{
    store.rules();
    let len = store.len() as usize;
    let mut marks = mark_roots(alloc, len, roots)?;
    for at in (0..len).rev() {
        if marks[at] {
            mark_operands(&mut marks, store.node(Term(at as u32)));
        }
    }
    Ok(marks)
}

/// For each of so many places, whether it is a root.
fn mark_roots(alloc: Global, len: usize, roots: &[Term]) -> Result<Vec<bool>, NoMemory>
    requires roots { All (λ t. t.0 < len) roots.now }
    ensures len { IfOk result (λ marks. length marks.items ≡ len) }
    ensures marks { IfOk result (λ marks. (place : ℕ) → place < len → slice_index_or marks.items place false ≡ is_root roots.now place) }
{
    let Ok(mut marks) = vec![in alloc; false; len] else {
        return Err(NoMemory);
    };
    for root in roots {
        marks[root.0 as usize] = true;
    }
    Ok(marks)
}

/// Marks a node's operands.
fn mark_operands(marks: &mut Vec<bool>, node: Node)
    requires over { IsNodeOver (length marks.old.items) node }
    ensures len { length marks.new.items ≡ length marks.old.items }
    ensures marks { (k : ℕ) → (slice_index_or marks.new.items k false ≡ true) ↔ ((slice_index_or marks.old.items k false ≡ true) ⊎ IsOperand k node) }
{
    match node {
        Node::Input(_) | Node::Never => {}
        Node::Min(a, b) | Node::Max(a, b) | Node::Lt(a, b) => {
            marks[a.0 as usize] = true;
            marks[b.0 as usize] = true;
        }
        Node::Inc(a, _) => marks[a.0 as usize] = true,
    }
}
