ghost use Rattle.std.specs.Prelude.{◌≡◌, ◌≤◌, ◌<◌, ◌∷◌, [], ℕ, length, IfOk, IfErr, OnOk, Err};
ghost use Rattle.std.specs.List.{All};
ghost use Rattle.term_store.specs.Ports.{ArePorts};
ghost use Rattle.term_store.specs.Subterms.{AreNetworkTerms, join_count, register_bits};
ghost use Rattle.term_store.specs.Trees.{trees_at};
ghost use Rattle.gate_lower.specs.Rules as rules;
ghost use Rattle.gate_lower.specs.Timing.{AreGatesOf};
ghost use Rattle.gate_lower.specs.declared.lowering.LowerError.TheVariants.{TooManyBits};
ghost use Rattle.circuit.specs.Depth.{IsShallow};
ghost use Rattle.verilog_text.specs.Text.{module_text};
ghost use Rattle.rl_jobs.specs.Sources.{IsSound, IsRuled, inputs_of, outputs_of, terms_of, FailsBy};
ghost use Rattle.rl_jobs.specs.Compiled.{planted_source, AreSourceGates, RealisesSource, IsCompiled, IsModuleText, NeedsManyBits, IsNotCompiled};
ghost use Rattle.rl_jobs.specs.declared.fault.Fault.TheVariants as fault;

use crate::error::JobError;
use crate::fault::Fault;
use crate::names::{alone, names};
use crate::source::Source;
use gate_lower::{Gates, LowerError, emit, lower};
use minterm::{table_names_are_ports, table_terms_are_few, the_term_has_the_tables_values};
use rl_text::Name;
use rl_time::NoMemory;
use std::alloc::Global;
use term_store::{
    Store, Term, network_names_are_ports, network_terms_are_few, terms_have_the_networks_values,
};
use verilog_laws::printing_spells;
use verilog_text::{Module, laws, print_module, spelling_laws};

/// A source's names and terms are such as can be lowered. No table needs more register bits than a module may have.
fn sources_can_be_lowered()
    ensures ports { (s : Source) → IsRuled s → ArePorts (inputs_of s) (outputs_of s) }
    ensures terms { (s : Source) → IsRuled s → AreNetworkTerms (length (inputs_of s)) (terms_of s) }
    ensures bits { (s : Source) (bits : ℕ) → IsRuled s → bits ≡ register_bits (terms_of s) → 65536 < bits → NeedsManyBits s (fault.TooManyBits bits) }
{
    network_names_are_ports();
    network_terms_are_few();
    table_names_are_ports();
    table_terms_are_few();
}

impl Source {
    /// The names of the outputs, in order.
    fn output_names(&self, alloc: Global) -> Result<Vec<Name>, NoMemory>
        ensures names { IfOk result (λ names. names.items ≡ outputs_of self.now) }
    {
        match self {
            Source::OfNetwork(n) => names(alloc, n.outputs()),
            Source::OfTable(t) => alone(alloc, t.output()),
        }
    }

    /// Plants its terms in a store without nodes, and answers the places of those of its outputs.
    fn plant(&self, alloc: Global, store: &mut Store) -> Result<Vec<Term>, NoMemory>
        requires sound { IsSound self.now }
        requires empty { store.old.nodes ≡ [] }
        ensures nodes { OnOk result (store.new.nodes ≡ planted_source self.now) }
        ensures within { IfOk result (λ roots. All (λ r. r.0 < length store.new.nodes) roots.items) }
        ensures terms { IfOk result (λ roots. trees_at store.new.nodes roots.items ≡ terms_of self.now) }
    {
        match self {
            Source::OfNetwork(n) => store.build(alloc, n),
            Source::OfTable(t) => {
                let root = minterm::synth(alloc, t, store)?;
                let mut roots = Vec::new(alloc);
                roots.push(root)?;
                Ok(roots)
            }
        }
    }

    /// The gates of its terms.
    fn gates(&self, alloc: Global) -> Result<Gates, LowerError>
        requires sound { IsSound self.now }
        ensures gates { IfOk result (AreSourceGates self.now) }
        ensures timed { IfOk result (AreGatesOf (inputs_of self.now) (outputs_of self.now) (terms_of self.now)) }
        ensures wires { IfOk result (λ g. length g.gates ≡ join_count (terms_of self.now)) }
        ensures bits { IfOk result (λ g. rules.register_bits g ≡ register_bits (terms_of self.now)) }
        ensures few { OnOk result (register_bits (terms_of self.now) ≤ 65536) }
        ensures too_many { (bits : ℕ) → result ≡ Err (TooManyBits bits) → NeedsManyBits self.now (fault.TooManyBits bits) }
    {
        self.rules();
        sources_can_be_lowered();
        let mut store = Store::new(alloc)?;
        let roots = self.plant(alloc, &mut store)?;
        store.rules();
        let outputs = self.output_names(alloc)?;
        lower(alloc, &store, &roots, self.inputs(), &outputs)
    }

    /// The module of its gates. `TooManyBits` holds how many register bits a network needs, if that is over 65,536.
    pub fn module(&self, alloc: Global) -> Result<Module, LowerError>
        requires sound { IsSound self.now }
        ensures is { IfOk result (IsCompiled self.now) }
        ensures right { IfOk result (RealisesSource self.now) }
        ensures shallow { IfOk result IsShallow }
        ensures short { IfOk result (λ m. length (module_text m) ≤ 16777216) }
        ensures few { IfOk result (λ m. register_bits (terms_of self.now) ≤ 65536) }
        ensures too_many { (bits : ℕ) → result ≡ Err (TooManyBits bits) → NeedsManyBits self.now (fault.TooManyBits bits) }
    {
        terms_have_the_networks_values();
        the_term_has_the_tables_values();
        self.rules();
        let gates = self.gates(alloc)?;
        let module = emit(alloc, &gates)?;
        module.rules();
        laws::one_history();
        Ok(module)
    }
}

/// Compiles the network or the table of a file: the text of its Verilog module.
pub fn compile(alloc: Global, bytes: &[u8]) -> Result<Vec<u8>, JobError>
    requires short { length bytes.now ≤ 1048576 }
    ensures text { IfOk result (λ text. IsModuleText bytes.now text.items) }
    ensures cause { IfErr result (FailsBy (IsNotCompiled bytes.now)) }
{
    printing_spells();
    spelling_laws::one_module();
    let source = Source::read(alloc, 1, bytes)?;
    let module = match source.module(alloc) {
        Ok(module) => module,
        Err(LowerError::TooManyBits(bits)) => return Err(JobError::Refused(Fault::TooManyBits(
            bits,
        ))),
        Err(LowerError::NoMemory) => return Err(JobError::NoMemory),
    };
    module.rules();
    let text = print_module(alloc, &module)?;
    Ok(text)
}
