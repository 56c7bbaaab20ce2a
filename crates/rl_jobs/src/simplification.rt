ghost use Rattle.std.specs.Prelude.{◌≡◌, ◌≤◌, length, IfOk, IfErr};
ghost use Rattle.rl_jobs.specs.Sources.{FailsBy};
ghost use Rattle.rl_jobs.specs.Simplification.{IsSimplified, IsSimplifiedText, IsNotSimplified};

use crate::error::JobError;
use crate::names::names;
use crate::reading::read_network_of;
use net_lang::{Network, print_network, printing_spells};
use rl_time::NoMemory;
use simplify::{simplified_terms_are_few, simplify as simplify_terms};
use std::alloc::Global;
use term_store::{
    Store, network_names_are_ports, network_terms_are_few, terms_have_the_networks_values,
};

/// The simplified network of a network.
fn simplified_network(alloc: Global, n: &Network) -> Result<Network, NoMemory>
    ensures network { IfOk result (IsSimplified n.now) }
{
    n.rules();
    network_terms_are_few();
    network_names_are_ports();
    terms_have_the_networks_values();
    simplified_terms_are_few();
    let mut store = Store::new(alloc)?;
    let roots = store.build(alloc, n)?;
    store.rules();
    let simple = simplify_terms(alloc, &mut store, &roots)?;
    store.rules();
    let places = store.compact(alloc, &simple)?;
    store.rules();
    let outputs = names(alloc, n.outputs())?;
    let network = store.extract(alloc, &places, n.inputs(), &outputs)?;
    Ok(network)
}

/// Simplifies the network of a file: the text of its simplified network.
pub fn simplify(alloc: Global, bytes: &[u8]) -> Result<Vec<u8>, JobError>
    requires short { length bytes.now ≤ 1048576 }
    ensures text { IfOk result (λ text. IsSimplifiedText bytes.now text.items) }
    ensures cause { IfErr result (FailsBy (IsNotSimplified bytes.now)) }
{
    printing_spells();
    let n = read_network_of(alloc, 1, bytes)?;
    let simple = simplified_network(alloc, &n)?;
    simple.rules();
    Ok(print_network(alloc, &simple)?)
}
