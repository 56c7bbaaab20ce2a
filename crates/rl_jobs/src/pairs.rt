//! Two networks of the same names.
ghost use Rattle.std.specs.Prelude.{◌≡◌, ◌≤◌, length, OnOk, IfOk, IfErr};
ghost use Rattle.rl_jobs.specs.Sources.{FailsBy};
ghost use Rattle.rl_jobs.specs.Pairs.{two_texts, SpellPair, HaveSameNames, HaveOtherNames, AreNotCompared};

use crate::check::first_difference;
use crate::error::JobError;
use crate::fault::Fault;
use crate::names::names;
use crate::reading::read_network_of;
use net_lang::Network;
use std::alloc::Global;

/// Refuses networks whose inputs or outputs have other names.
fn compare_names(alloc: Global, first: &Network, second: &Network) -> Result<(), JobError>
    ensures same { OnOk result (HaveSameNames (first.now, second.now)) }
    ensures cause { IfErr result (FailsBy (HaveOtherNames (first.now, second.now))) }
{
    if let Some(place) = first_difference(first.inputs(), second.inputs()) {
        return Err(JobError::Refused(Fault::InputNames(place)));
    }
    let outputs = names(alloc, first.outputs())?;
    match first_difference(&outputs, &names(alloc, second.outputs())?) {
        Some(place) => Err(JobError::Refused(Fault::OutputNames(place))),
        None => Ok(()),
    }
}

/// Reads the networks of two files, which must have the same inputs and the same outputs, by name and order.
pub fn read_pair(alloc: Global, first: &[u8], second: &[u8]) -> Result<(Network, Network), JobError>
    requires first { length first.now ≤ 1048576 }
    requires second { length second.now ≤ 1048576 }
    ensures pair { IfOk result (λ pair. SpellPair (two_texts first.now second.now) (pair.0, pair.1)) }
    ensures same { IfOk result (λ pair. HaveSameNames (pair.0, pair.1)) }
    ensures cause { IfErr result (FailsBy (AreNotCompared (two_texts first.now second.now))) }
{
    let first = read_network_of(alloc, 1, first)?;
    let second = read_network_of(alloc, 2, second)?;
    compare_names(alloc, &first, &second)?;
    Ok((first, second))
}
