ghost use Rattle.std.specs.Prelude.{◌≡◌, ◌≤◌, length, IfOk, IfErr};
ghost use Rattle.func_table.specs.Sound.{AreSound};
ghost use Rattle.net_model.specs.Text.{network_text};
ghost use Rattle.rl_jobs.specs.Sources.{FailsBy};
ghost use Rattle.rl_jobs.specs.Synthesised.{IsSynthesised, IsSynthesisText, IsNotSynthesised};

use crate::error::JobError;
use crate::names::alone;
use crate::reading::read_table_of;
use func_table::Table;
use minterm::table_names_are_ports;
use net_lang::{Network, print_network, printing_spells};
use rl_time::NoMemory;
use std::alloc::Global;
use term_store::{Store, terms_have_the_networks_values};

/// The network of a table.
fn network_of_table(alloc: Global, t: &Table) -> Result<Network, NoMemory>
    requires sound { AreSound t.now.rows }
    ensures network { IfOk result (IsSynthesised t.now) }
{
    t.rules();
    table_names_are_ports();
    terms_have_the_networks_values();
    let mut store = Store::new(alloc)?;
    let root = minterm::synth(alloc, t, &mut store)?;
    store.rules();
    let outputs = alone(alloc, t.output())?;
    store.extract(alloc, &[root], t.inputs(), &outputs)
}

/// Synthesises the table of a file: the text of the network of its minterms.
pub fn synth(alloc: Global, bytes: &[u8]) -> Result<Vec<u8>, JobError>
    requires short { length bytes.now ≤ 1048576 }
    ensures text { IfOk result (λ text. IsSynthesisText bytes.now text.items) }
    ensures cause { IfErr result (FailsBy (IsNotSynthesised bytes.now)) }
{
    printing_spells();
    let t = read_table_of(alloc, 1, bytes)?;
    let n = network_of_table(alloc, &t)?;
    n.rules();
    Ok(print_network(alloc, &n)?)
}
