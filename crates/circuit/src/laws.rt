//! What every module does, whatever its parts: its one history, and where activations lead.

ghost use Rattle.std.specs.Prelude.{List, Bool};
ghost use Rattle.circuit.specs.Circuit.{Circuit};
ghost use Rattle.circuit.specs.Valid.{IsOrdered};
ghost use Rattle.circuit.specs.Meaning.{HasOneHistory, SettlesInOrder, HasOneSettled};

/// A module whose assigns are in order has exactly one history under every list of input levels.
pub fn one_history()
    ensures { (m : Circuit) (us : List (List Bool)) → IsOrdered m → HasOneHistory m us }
{}

/// Activations in which the assigns occur in their order lead to a settled state, whatever others are
/// between them.
pub fn settles_in_order()
    ensures { (m : Circuit) → IsOrdered m → SettlesInOrder m }
{}

/// Where assigns are in order, there is at most one settled state for the levels of the inputs and the register bits.
pub fn one_settled()
    ensures { (m : Circuit) → IsOrdered m → HasOneSettled m }
{}
