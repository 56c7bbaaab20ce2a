//! What a valid tree implies, and what it is.
ghost use Rattle.std.specs.Prelude.{◌≡◌, ◌↔◌, List, None, length};
ghost use Rattle.net_model.specs.declared.assume.Assume.{Assume};
ghost use Rattle.refutation.specs.declared.item.Item.{Item};
ghost use Rattle.refutation.specs.Preorder.{Cases, preorder, OnTree};
ghost use Rattle.spike_eval.specs.Outputs.{output_function};
ghost use Rattle.spike_eval.specs.Premises.{NameInputs, AreEqualUnder};
ghost use Rattle.tree_check.specs.Valid.{Pair, IsValid, IsValidItem, root};
ghost use Rattle.tree_check.specs.Verdict.{verdict};

/// If a tree is valid for the outputs of two networks under premises, the two are equal at all
/// times that meet the premises.
pub fn valid_trees_decide()
    ensures { (premises : List Assume) (pair : Pair) (items : List Item) →
        NameInputs (length pair.first.inputs) premises → IsValid premises pair items →
        AreEqualUnder premises (length pair.first.inputs)
        (output_function pair.first pair.place) (output_function pair.second pair.place) }
{
    spike_eval::outputs_are_causal();
    spike_eval::numbers_decide_under();
}

/// There is no fault exactly where the tree is valid.
pub fn valid_or_fault()
    ensures { (premises : List Assume) (pair : Pair) (items : List Item) →
        (verdict premises pair items ≡ None) ↔ IsValid premises pair items }
{}

/// A list of items is valid exactly where it is the preorder of a tree whose items are valid, each
/// on its path.
pub fn valid_trees_are_trees()
    ensures { (premises : List Assume) (pair : Pair) (items : List Item) →
        IsValid premises pair items ↔ ((t : Cases) × (items ≡ preorder t)
        × OnTree (IsValidItem pair) (root premises) t) }
{}
