ghost use Rattle.std.specs.Prelude.{◌≡◌, ◌<◌, ◌≤◌, ℕ, length, IfOk, OnOk, Err};
ghost use Rattle.net_model.specs.Rules.{names_of};
ghost use Rattle.term_store.specs.Terms.{network_trees};
ghost use Rattle.term_store.specs.Subterms.{join_count, register_bits};
ghost use Rattle.gate_lower.specs.Networks.{AreLowered};
ghost use Rattle.gate_lower.specs.Rules as rules;
ghost use Rattle.gate_lower.specs.Timing.{AreGatesOf};
ghost use Rattle.gate_lower.specs.declared.lowering.LowerError.TheVariants.{TooManyBits};

use crate::gates::Gates;
use crate::lowering::{LowerError, lower};
use net_model::{Binding, Network};
use rl_text::Name;
use rl_time::NoMemory;
use std::alloc::Global;
use term_store::{Store, network_names_are_ports, network_terms_are_few};

/// The names of bindings, in order.
fn names(alloc: Global, bindings: &[Binding]) -> Result<Vec<Name>, NoMemory>
    ensures names { IfOk result (λ names. names.items ≡ names_of bindings.now) }
{
    let mut names = Vec::new(alloc);
    for binding in bindings {
        names.push(Name::new(alloc, binding.name().bytes())?)?;
    }
    Ok(names)
}

/// The gates of a network: its terms are planted in a store, so that equal ones are there once, and then lowered. A let
/// that no output needs has no gate. `TooManyBits` holds how many register bits the terms need, if that is over
/// 65,536.
pub fn lower_network(alloc: Global, n: &Network) -> Result<Gates, LowerError>
    ensures gates { IfOk result (AreLowered n.now) }
    ensures timed { IfOk result (AreGatesOf n.now.inputs (names_of n.now.outputs) (network_trees n.now)) }
    ensures wires { IfOk result (λ g. length g.gates ≡ join_count (network_trees n.now)) }
    ensures bits { IfOk result (λ g. rules.register_bits g ≡ register_bits (network_trees n.now)) }
    ensures few { OnOk result (register_bits (network_trees n.now) ≤ 65536) }
    ensures too_many { (bits : ℕ) → result ≡ Err (TooManyBits bits) →
        (bits ≡ register_bits (network_trees n.now)) × (65536 < bits) }
{
    n.rules();
    network_terms_are_few();
    network_names_are_ports();
    let mut store = Store::new(alloc)?;
    let roots = store.build(alloc, n)?;
    let outputs = names(alloc, n.outputs())?;
    lower(alloc, &store, &roots, n.inputs(), &outputs)
}
