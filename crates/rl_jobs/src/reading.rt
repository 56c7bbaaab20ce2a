ghost use Rattle.std.specs.Prelude.{◌≡◌, ◌≤◌, length, OnOk, IfOk, IfErr};
ghost use Rattle.std.specs.Bool.{OnTrue, OnFalse};
ghost use Rattle.net_lang.specs.Spelling.{SpellsNetwork};
ghost use Rattle.func_table.specs.Spelling.{SpellsTable};
ghost use Rattle.func_table.specs.Sound.{AreSound};
ghost use Rattle.rl_jobs.specs.declared.fault.Fault.TheVariants as fault;
ghost use Rattle.rl_jobs.specs.declared.error.JobError.TheVariants.{Refused};
ghost use Rattle.rl_jobs.specs.Sources.{IsTableText, IsNoNetwork, SpellsSoundTable, BreaksTable, HasBadRows, IsNoTable, SpellsSource, IsNoSource, FailsBy, IsRuled, inputs_of};

use crate::error::JobError;
use crate::fault::Fault;
use crate::source::Source;
use causality::check_rows;
use func_table::{Table, TableError, read_table};
use net_lang::{NetError, Network, read_network};
use rl_text::{Kind, Name, Style, first_word, one_first_word};
use std::alloc::Global;

/// The fault of a rule that a network's text breaks.
fn broken_network(file: u8, rule: net_lang::Rule, line: u32) -> JobError
    ensures { result ≡ Refused (fault.Network file rule line) }
{
    JobError::Refused(Fault::Network(file, rule, line))
}

/// Reads the network of a file, which has this number among the files of the command.
pub fn read_network_of(alloc: Global, file: u8, bytes: &[u8]) -> Result<Network, JobError>
    requires short { length bytes.now ≤ 1048576 }
    ensures network { IfOk result (SpellsNetwork bytes.now) }
    ensures cause { IfErr result (FailsBy (IsNoNetwork file bytes.now)) }
{
    match read_network(alloc, bytes) {
        Ok(n) => Ok(n),
        Err(NetError::Syntax(line)) => Err(broken_network(file, net_lang::Rule::Syntax, line)),
        Err(NetError::Name(line)) => Err(broken_network(file, net_lang::Rule::Name, line)),
        Err(NetError::Doubled(line)) => Err(broken_network(file, net_lang::Rule::Doubled, line)),
        Err(NetError::Unknown(line)) => Err(broken_network(file, net_lang::Rule::Unknown, line)),
        Err(NetError::Count(line)) => Err(broken_network(file, net_lang::Rule::Count, line)),
        Err(NetError::Span(line)) => Err(broken_network(file, net_lang::Rule::Span, line)),
        Err(NetError::NoMemory) => Err(JobError::NoMemory),
    }
}

/// The fault of a rule that a table's text breaks.
fn broken_table(file: u8, rule: func_table::Rule, line: u32) -> JobError
    ensures { result ≡ Refused (fault.Table file rule line) }
{
    JobError::Refused(Fault::Table(file, rule, line))
}

/// Reads the table of a file, whose rows may be unsound.
fn unchecked_table(alloc: Global, file: u8, bytes: &[u8]) -> Result<Table, JobError>
    requires short { length bytes.now ≤ 1048576 }
    ensures table { IfOk result (SpellsTable bytes.now) }
    ensures cause { IfErr result (FailsBy (BreaksTable file bytes.now)) }
{
    match read_table(alloc, bytes) {
        Ok(t) => Ok(t),
        Err(TableError::Syntax(line)) => Err(broken_table(file, func_table::Rule::Syntax, line)),
        Err(TableError::Count(line)) => Err(broken_table(file, func_table::Rule::Count, line)),
        Err(TableError::NoMemory) => Err(JobError::NoMemory),
    }
}

/// Refuses rows that aren't sound.
fn check_table(file: u8, t: &Table) -> Result<(), JobError>
    ensures sound { OnOk result (AreSound t.now.rows) }
    ensures cause { IfErr result (FailsBy (HasBadRows file t.now)) }
{
    match check_rows(t) {
        Ok(()) => Ok(()),
        Err(fault) => Err(JobError::Refused(Fault::Rows(file, fault))),
    }
}

/// Reads the table of a file, which has this number among the files of the command. Its rows must be sound.
pub fn read_table_of(alloc: Global, file: u8, bytes: &[u8]) -> Result<Table, JobError>
    requires short { length bytes.now ≤ 1048576 }
    ensures table { IfOk result (SpellsSoundTable bytes.now) }
    ensures cause { IfErr result (FailsBy (IsNoTable file bytes.now)) }
{
    let t = unchecked_table(alloc, file, bytes)?;
    check_table(file, &t)?;
    Ok(t)
}

/// Whether the first word of a text is `racetable`.
fn is_table_text(bytes: &[u8]) -> bool
    requires short { length bytes.now ≤ 1048576 }
    ensures yes { OnTrue result (IsTableText bytes.now) }
    ensures no { OnFalse result (IsTableText bytes.now → ⊥) }
{
    one_first_word();
    match first_word(bytes, Style::Race) {
        Some(word) => word.kind == Kind::Name && word.bytes == b"racetable".as_slice(),
        None => false,
    }
}

impl Source {
    /// Reads the network or the table of a file, which has this number among the files of the command.
    pub fn read(alloc: Global, file: u8, bytes: &[u8]) -> Result<Source, JobError>
        requires short { length bytes.now ≤ 1048576 }
        ensures source { IfOk result (SpellsSource bytes.now) }
        ensures cause { IfErr result (FailsBy (IsNoSource file bytes.now)) }
    {
        if is_table_text(bytes) {
            Ok(Source::OfTable(read_table_of(alloc, file, bytes)?))
        } else {
            Ok(Source::OfNetwork(read_network_of(alloc, file, bytes)?))
        }
    }

    /// What is true of every source: it keeps the rules of networks, or those of tables.
    pub fn rules(&self)
        ensures { IsRuled self.now }
    {
        match self {
            Source::OfNetwork(n) => n.rules(),
            Source::OfTable(t) => t.rules(),
        }
    }

    /// The names of the inputs, in order.
    pub fn inputs(&self) -> &[Name]
        ensures { result.now ≡ inputs_of self.now }
    {
        match self {
            Source::OfNetwork(n) => n.inputs(),
            Source::OfTable(t) => t.inputs(),
        }
    }
}
