//! A network's module, as its text gives it again.
ghost use Rattle.std.specs.Prelude.{◌≡◌, ◌≤◌, length, IfOk};
ghost use Rattle.net_model.specs.Formula.{Net};
ghost use Rattle.term_store.specs.Subterms.{register_bits};
ghost use Rattle.term_store.specs.Terms.{network_trees};
ghost use Rattle.circuit.specs.Circuit as circuit;
ghost use Rattle.circuit.specs.Depth.{IsShallow};
ghost use Rattle.verilog_text.specs.Text.{module_text};
ghost use Rattle.verilog_read.specs.declared.error.VerilogError.TheVariants as read_error;
ghost use Rattle.rl_jobs.specs.Compiled.{RealisesSource};
ghost use Rattle.rl_jobs.specs.declared.source.Source.TheVariants.{OfNetwork};

use gate_lower::LowerError;
use net_model::Network;
use rl_jobs::Source;
use rl_time::NoMemory;
use std::alloc::Global;
use verilog_laws::printing_spells;
use verilog_read::{VerilogError, read_module};
use verilog_text::{Module, print_module, spelling_laws};

/// The module of a network that needs no more register bits than a module may have.
fn module_of(alloc: Global, network: Network) -> Result<Module, NoMemory>
    requires few { register_bits (network_trees network) ≤ 65536 }
    ensures right { IfOk result (RealisesSource (OfNetwork network)) }
    ensures shallow { IfOk result IsShallow }
    ensures short { IfOk result (λ m. length (module_text m) ≤ 16777216) }
{
    match Source::OfNetwork(network).module(alloc) {
        Ok(module) => Ok(module),
        Err(LowerError::NoMemory) => Err(NoMemory),
        Err(LowerError::TooManyBits(_)) => unreachable!(),
    }
}

/// The error of a reader that can only run out of memory.
fn out_of_memory(error: VerilogError) -> NoMemory
    requires only { error ≡ read_error.NoMemory }
{
    let _ = error;
    NoMemory
}

/// Prints a module, and reads it again from its text.
fn read_again(alloc: Global, m: &Module) -> Result<Module, NoMemory>
    requires shallow { IsShallow m.now }
    requires short { length (module_text m.now) ≤ 16777216 }
    ensures same { IfOk result (λ again. again ≡ m.now) }
{
    printing_spells();
    spelling_laws::one_module();
    spelling_laws::no_broken_rule();
    m.rules();
    let text = print_module(alloc, m)?;
    match read_module(alloc, &text) {
        Ok(again) => Ok(again),
        Err(error) => Err(out_of_memory(error)),
    }
}

/// The module of a network that needs no more register bits than a module may have, read again from its text.
pub fn compiled_again(alloc: Global, network: Network) -> Result<Module, NoMemory>
    requires few { register_bits (network_trees network) ≤ 65536 }
    ensures right { IfOk result (RealisesSource (OfNetwork network)) }
{
    let module = module_of(alloc, network)?;
    read_again(alloc, &module)
}

/// The register bits of a module.
pub fn register_bits(m: &Module) -> u32
    ensures { result ≡ circuit.register_bits m.now }
{
    m.rules();
    let registers = m.regs();
    let mut bits = 0;
    for register in registers {
        bits += register.width();
    }
    bits
}
