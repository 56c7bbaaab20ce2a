//! Gates that keep their rules have exactly one timing.

ghost use Rattle.std.specs.Prelude.{List};
ghost use Rattle.rl_time.specs.declared.time.Time.{Time};
ghost use Rattle.gate_lower.specs.Netlist.{Netlist};
ghost use Rattle.gate_lower.specs.Rules.{IsNetlist};
ghost use Rattle.gate_lower.specs.Timing.{HasTiming, TimingsAgree};

/// Gates that keep their rules have at most one timing under all times of the inputs.
pub fn timings_agree()
    ensures { (g : Netlist) (x : List Time) → IsNetlist g → TimingsAgree g x }
{}

/// Gates that keep their rules have a timing under all times of the inputs, also where delays feed one another in a ring.
pub fn timing_exists()
    ensures { (g : Netlist) (x : List Time) → IsNetlist g → HasTiming g x }
{}
