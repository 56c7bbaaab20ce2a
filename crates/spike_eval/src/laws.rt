//! Laws of networks as functions of the times of their inputs.
ghost use Rattle.std.specs.Prelude.{ℕ, List};
ghost use Rattle.rl_time.specs.declared.time.Time.{Time};
ghost use Rattle.net_model.specs.Formula.{Net};
ghost use Rattle.spike_eval.specs.Causal.{IsCausal, IsInvariant, AreEqualOnNumbers, AreEqualOnTimes};
ghost use Rattle.net_model.specs.declared.assume.Assume.{Assume};
ghost use Rattle.spike_eval.specs.Premises.{NameInputs, AreEqualOnNumbersUnder, AreEqualUnder};
ghost use Rattle.spike_eval.specs.Outputs.{output_function};

/// Every output of every network is causal: up to any cycle, it rests on what the inputs do up to
/// that cycle only. The law needs none of the rules of networks.
pub fn outputs_are_causal()
    ensures { (n : Net) (k : ℕ) → IsCausal (output_function n k) }
{}

/// Every output of every network is invariant: where all inputs come one cycle later, so does the
/// output. The law needs none of the rules of networks.
pub fn outputs_are_invariant()
    ensures { (n : Net) (k : ℕ) → IsInvariant (output_function n k) }
{}

/// Causal functions that are equal on all lists of k numbers are equal on all lists of k times,
/// each of which may be never. They need not be invariant.
pub fn numbers_decide()
    ensures { (k : ℕ) (f g : List Time → Time) → IsCausal f → IsCausal g →
        AreEqualOnNumbers k f g → AreEqualOnTimes k f g }
{}

/// Causal functions that are equal on all lists of n numbers that meet some premises are equal on
/// all lists of n times that meet them, each of which may be never. The premises name only the
/// first n inputs.
pub fn numbers_decide_under()
    ensures { (premises : List Assume) (n : ℕ) (f g : List Time → Time) → NameInputs n premises →
        IsCausal f → IsCausal g → AreEqualOnNumbersUnder premises n f g →
        AreEqualUnder premises n f g }
{}
