//! Laws of the forms of terms, and of trees of due splits.
ghost use Rattle.std.specs.Prelude.{◌≡◌, ◌+◌, ◌<◌, ◌≤◌, ◌∷◌, [], ℕ, true, List, length};
ghost use Rattle.std.specs.List.{AllByRecursion};
ghost use Rattle.net_model.specs.declared.assume.Assume.{Assume};
ghost use Rattle.net_model.specs.Formula.{Net};
ghost use Rattle.refutation.specs.declared.item.Fact.{Fact};
ghost use Rattle.refutation.specs.declared.item.Item.{Item};
ghost use Rattle.refutation.specs.Cases.{Path, EachOnPath};
ghost use Rattle.refutation.specs.Path.{MeetsAll};
ghost use Rattle.spike_eval.specs.Causal.{numbers};
ghost use Rattle.diff_bounds.specs.Bounds.{integers};
ghost use Rattle.term_store.specs.Tree.{Tree, value};
ghost use Rattle.term_store.specs.Terms.{network_trees, tree_in};
ghost use Rattle.tree_check.specs.Forms.{Known, output_form, is_decided};
ghost use Rattle.tree_check.specs.Valid.{Pair, IsValid, root, listed};
ghost use Rattle.case_split.specs.TermForms.{term_form, IsTimeOf, IsWithinKnown};
ghost use Rattle.case_split.specs.Decided.{AreRight, IsPossible};
ghost use Rattle.case_split.specs.Live.{pair_terms, IsDueItem, IsLive, opened};

/// The form of an output of a network is the form of its term.
pub fn networks_have_term_forms()
    ensures law { (known : Known) (n : Net) (k : ℕ) → output_form known n k ≡ term_form known (tree_in (network_trees n) k) }
{}

/// Where the path can be met, a decided form stays what it is as more facts come that chains of the path show.
pub fn decided_forms_stay()
    ensures law { (path : Path) → IsPossible path → (facts more : List Fact) → AreRight path facts → AreRight path more → IsWithinKnown (listed facts) (listed more) →
        (t : Tree) → is_decided (term_form (listed facts) t) ≡ true → term_form (listed more) t ≡ term_form (listed facts) t }
{}

/// At numbers that meet the path, a term has the time that its form is, where chains of the path show the facts, which name inputs.
pub fn terms_have_the_times_of_their_forms()
    ensures law { (path : Path) (facts : List Fact) (ns : List ℕ) (t : Tree) → AreRight path facts →
        AllByRecursion (λ f. (f.from < length ns) × (f.to < length ns)) facts → MeetsAll (integers ns) path →
        IsTimeOf (numbers ns) (term_form (listed facts) t) (value (numbers ns) t) }
{}

/// No valid tree for two outputs has fewer items than a tree each of whose splits is due: so if that is valid too, it is a least certificate.
pub fn trees_of_due_splits_are_least()
    ensures law { (premises : List Assume) (pair : Pair) (items others : List Item) → EachOnPath (IsDueItem (pair_terms pair)) (root premises ∷ []) items →
        IsValid premises pair others → length items ≤ length others }
{}

/// A valid tree for two outputs has at least two items more than were opened in a live tree for them.
pub fn live_trees_are_too_small()
    ensures law { (premises : List Assume) (pair : Pair) (items others : List Item) → IsLive premises pair items → IsValid premises pair others →
        opened items + 2 ≤ length others }
{}
