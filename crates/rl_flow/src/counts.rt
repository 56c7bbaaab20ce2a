ghost use Rattle.std.specs.Prelude.{◌≡◌, ◌++◌, IfOk, OnOk};
ghost use Rattle.rl_flow.specs.Counted.{count_line, counts_text};

use rl_text::{put, put_number};
use rl_time::NoMemory;
use std::alloc::Global;

/// What is counted of a network that is compiled and simulated.
#[derive(Clone, Copy, Debug)]
pub struct Counts {
    /// The operators that the network writes.
    pub operators: u32,
    /// The wires of the module.
    pub gates: u32,
    /// The register bits of the module.
    pub bits: u32,
    /// The outputs.
    pub outputs: u32,
    /// The outputs that are high in the last cycle.
    pub risen: u32,
    /// The outputs that have the level of their value in each cycle.
    pub agree: u32,
}

/// Adds a line of a label and a number.
fn put_count(text: &mut Vec<u8>, label: &[u8], number: u32) -> Result<(), NoMemory>
    ensures { OnOk result (text.new.items ≡ text.old.items ++ count_line label.now number) }
{
    put(text, label)?;
    put_number(text, number)?;
    put(text, b"\n")
}

impl Counts {
    /// A line for each count.
    #[tactic(auto, unfolding(crate::specs::Counted::counts_text))]
    pub fn text(&self, alloc: Global) -> Result<Vec<u8>, NoMemory>
        ensures { IfOk result (λ text. text.items ≡ counts_text self.now) }
    {
        let mut text = Vec::new(alloc);
        put_count(&mut text, b"operators ", self.operators)?;
        put_count(&mut text, b"gates ", self.gates)?;
        put_count(&mut text, b"bits ", self.bits)?;
        put_count(&mut text, b"outputs ", self.outputs)?;
        put_count(&mut text, b"risen ", self.risen)?;
        put_count(&mut text, b"agree ", self.agree)?;
        Ok(text)
    }
}
