ghost use Rattle.std.specs.Prelude.{◌≡◌, ◌≤◌, length, IfOk, IfErr};
ghost use Rattle.rl_jobs.specs.Sources.{FailsBy};
ghost use Rattle.rl_jobs.specs.Windows.{output_place, IsWindowTable, CannotBeWritten, IsWindowText, IsNotTabulated};

use crate::error::JobError;
use crate::fault::Fault;
use crate::reading::read_network_of;
use causality::TabError;
use func_table::{Table, print_table, printing_spells};
use net_lang::Network;
use std::alloc::Global;

/// The place of the output of this name, from 0.
fn output_place(n: &Network, name: &[u8]) -> Option<usize>
    ensures { result ≡ output_place name.now n.now }
{
    n.outputs()
        .iter()
        .position(|output| output.name().bytes() == name)
}

/// The table of the output of this name within a window.
fn table_of_output(alloc: Global, n: &Network, name: &[u8], window: u32) -> Result<Table, JobError>
    requires small { window ≤ 1000000 }
    ensures table { IfOk result (IsWindowTable name.now window n.now) }
    ensures cause { IfErr result (FailsBy (CannotBeWritten name.now window n.now)) }
{
    n.rules();
    let Some(place) = output_place(n, name) else {
        return Err(JobError::Refused(Fault::NoOutput));
    };
    match causality::tabulate(alloc, n, place as u32, window) {
        Ok(t) => {
            t.rules();
            Ok(t)
        }
        Err(TabError::TooWide) => Err(JobError::Refused(Fault::TooWide(window))),
        Err(TabError::TooLate(value)) => Err(JobError::Refused(Fault::TooLate(value))),
        Err(TabError::TooManyRows) => Err(JobError::Refused(Fault::TooManyRows)),
        Err(TabError::NoMemory) => Err(JobError::NoMemory),
    }
}

/// Tabulates the output of this name of a file's network, on times up to `window`: the text of the table.
pub fn tabulate(alloc: Global, bytes: &[u8], name: &[u8], window: u32) -> Result<Vec<u8>, JobError>
    requires short { length bytes.now ≤ 1048576 }
    requires small { window ≤ 1000000 }
    ensures text { IfOk result (λ text. IsWindowText name.now window bytes.now text.items) }
    ensures cause { IfErr result (FailsBy (IsNotTabulated name.now window bytes.now)) }
{
    printing_spells();
    let n = read_network_of(alloc, 1, bytes)?;
    let t = table_of_output(alloc, &n, name, window)?;
    t.rules();
    Ok(print_table(alloc, &t)?)
}
