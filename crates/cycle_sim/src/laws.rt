//! What the steps of a simulation are together.

ghost use Rattle.std.specs.Prelude.{◌≡◌, ◌+◌, ◌++◌, ◌∷◌, ℕ, List, [], replicate, Bool, Option, None};
ghost use Rattle.rl_time.specs.declared.time.Time.{Time};
ghost use Rattle.circuit.specs.Circuit.{Circuit};
ghost use Rattle.circuit.specs.Meaning.{State, IsNext, Follows, levels_at, levels_from};
ghost use Rattle.cycle_sim.specs.Standing.{IsStep, Ran, RanOn};

/// Before cycle 0 a simulation has an empty history, and each step makes the history one state longer at its end.
pub fn histories_grow_at_the_end()
    ensures empty { (m : Circuit) → Ran m [] [] None }
    ensures grown { (m : Circuit) (us : List (List Bool)) (states : List State) (inputs : List Bool)
        (before after : Option State) → Ran m us states before → IsStep m before after inputs →
        RanOn m us states inputs after }
{}

/// One more cycle of inputs that rise at some times has their levels in that cycle at its end.
pub fn levels_grow_at_the_end()
    ensures { (rises : List Time) (n : ℕ) →
        levels_from rises 0 (n + 1) ≡ levels_from rises 0 n ++ levels_at rises n ∷ [] }
{}

/// A state that comes after itself under its own inputs does so for any number of cycles.
pub fn quiet_cycles_repeat()
    ensures { (m : Circuit) (s : State) (n : ℕ) → IsNext m s s s.inputs → Follows m s (replicate n s.inputs) (replicate n s) }
{}
