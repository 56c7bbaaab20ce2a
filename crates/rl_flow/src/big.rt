ghost use Rattle.std.specs.Prelude.{◌≡◌, ◌≤◌, ℕ, IfOk};
ghost use Rattle.term_store.specs.Subterms.{register_bits};
ghost use Rattle.term_store.specs.Terms.{network_trees};
ghost use Rattle.big_input.specs.Generated.{big_network};
ghost use Rattle.rl_flow.specs.Counted.{big_counts, big_text};

use crate::comparing::compare;
use crate::compiling::{compiled_again, register_bits};
use crate::counts::Counts;
use big_input::big_input;
use big_input::laws::{big_networks_are_networks, big_times_are_early};
use rl_time::NoMemory;
use spike_eval::eval;
use std::alloc::Global;
use term_store::network_terms_are_few;

/// The cycles that are simulated.
const CYCLES: u32 = 64;

/// No network that is made from a number needs more register bits than a module may have: its delays are of at most
/// three cycles.
fn big_networks_need_few_bits()
    ensures { (n : ℕ) → 1 ≤ n → n ≤ 16384 → register_bits (network_trees (big_network n)) ≤ 65536 }
{
    big_networks_are_networks();
    network_terms_are_few();
}

/// Compiles the network that is made from n, simulates what its text gives again, and counts.
fn count(alloc: Global, n: u32) -> Result<Counts, NoMemory>
    requires some { 1 ≤ n }
    requires few { n ≤ 16384 }
    ensures { IfOk result (λ counts. counts ≡ big_counts n) }
{
    big_networks_need_few_bits();
    big_times_are_early();
    let (network, times) = big_input(alloc, n)?;
    let values = eval(alloc, &network, &times)?;
    let module = compiled_again(alloc, network)?;
    module.rules();
    let shown = compare(alloc, &module, &times, &values, CYCLES)?;
    Ok(Counts {
        operators: n,
        gates: module.wires().len() as u32,
        bits: register_bits(&module),
        outputs: module.outputs().len() as u32,
        risen: shown.risen,
        agree: shown.agree,
    })
}

/// What `big n` writes. The network that is made from n is compiled, its module is printed and read again, and simulated for 64
/// cycles, and each output's levels are compared with its value. There is a line for each of the six counts: the
/// operators, the gates, the register bits, the outputs, those that are high in cycle 63, and those whose 64 levels are
/// those of their value.
pub fn big_text(alloc: Global, n: u32) -> Result<Vec<u8>, NoMemory>
    requires some { 1 ≤ n }
    requires few { n ≤ 16384 }
    ensures { IfOk result (λ text. text.items ≡ big_text n) }
{
    let counts = count(alloc, n)?;
    counts.text(alloc)
}
