//! The freedom in which the assigns of a module may be activated, and what does not depend on it.

ghost use Rattle.std.specs.Prelude.{◌≡◌, ℕ, List, Bool};
ghost use Rattle.circuit.specs.Circuit.{Circuit};
ghost use Rattle.circuit.specs.Valid.{IsOrdered};
ghost use Rattle.circuit.specs.Meaning.{State};
ghost use Rattle.event_sim.specs.Passes.{AllOrdersAgree, SettlesInRounds};
ghost use Rattle.event_sim.specs.Runs.{IsRun, MakeHistories, RunsAreHistories};

/// Within a cycle the wires may be updated in any order: every order that leads to a settled state leads to the same one.
pub fn all_orders_agree()
    ensures { (m : Circuit) → IsOrdered m → AllOrdersAgree m }
{}

/// As many rounds as there are assigns settle, in whatever order each activates them.
pub fn rounds_settle()
    ensures { (m : Circuit) → IsOrdered m → SettlesInRounds m }
{}

/// After each clock edge, activations in any order that lead to a settled state lead to that of the module's history.
pub fn orders_make_histories()
    ensures { (m : Circuit) → MakeHistories m }
{}

/// A run in an order that activates each assign goes through the module's history.
pub fn runs_are_histories()
    ensures { (m : Circuit) → IsOrdered m → RunsAreHistories m }
{}

/// Under given lists of input levels a run in a given order goes through one list of states, in one number of activations.
pub fn one_run()
    ensures states { (m : Circuit) (ks : List ℕ) (us : List (List Bool)) (a b : List State) (i j : ℕ) →
        IsRun m ks us a i → IsRun m ks us b j → a ≡ b }
    ensures count { (m : Circuit) (ks : List ℕ) (us : List (List Bool)) (a b : List State) (i j : ℕ) →
        IsRun m ks us a i → IsRun m ks us b j → i ≡ j }
{}
