//! What is true of simplified terms.
ghost use Rattle.std.specs.Prelude.{◌≡◌, ◌≤◌, ℕ, List, map};
ghost use Rattle.rl_time.specs.declared.time.Time.{Time};
ghost use Rattle.term_store.specs.Tree.{Tree, value, span};
ghost use Rattle.term_store.specs.Subterms.{join_count, delay_count, AreNetworkTerms};
ghost use Rattle.simplify.specs.Laws.{IsLaw, IsReduced, HasDelays};
ghost use Rattle.simplify.specs.Simplified.{simplified};

/// Each law holds at all times, never included; it makes a term no later.
pub fn each_law_holds()
    ensures times { (t u : Tree) → IsLaw t u → HasDelays t → (x : List Time) → value x t ≡ value x u }
    ensures no_later { (t u : Tree) → IsLaw t u → span u ≤ span t }
{}

/// A simplified term has the times of the term at all times of the inputs, and is no later.
pub fn simplifying_keeps_times()
    ensures times { (t : Tree) → HasDelays t → (x : List Time) → value x (simplified t) ≡ value x t }
    ensures no_later { (t : Tree) → span (simplified t) ≤ span t }
{}

/// A simplified term is reduced, and a reduced term is simplified: a second run changes nothing.
pub fn simplified_terms_are_reduced()
    ensures reduced { (t : Tree) → IsReduced (simplified t) }
    ensures stays { (t : Tree) → IsReduced t → simplified t ≡ t }
    ensures twice { (t : Tree) → simplified (simplified t) ≡ simplified t }
{}

/// Simplified terms have together no more distinct operators, and those of a network are such again.
pub fn simplified_terms_are_few()
    ensures joins { (trees : List Tree) → join_count (map simplified trees) ≤ join_count trees }
    ensures delays { (trees : List Tree) → delay_count (map simplified trees) ≤ delay_count trees }
    ensures network_terms { (inputs : ℕ) (trees : List Tree) → AreNetworkTerms inputs trees → AreNetworkTerms inputs (map simplified trees) }
{}
