//! With texts, as many as its files, a task can be done, or is refused for exactly one fault, and they fix its answer, except that
//! of `compare`; and a text is read as exactly one module, or has exactly one fault.
ghost use Rattle.std.specs.Prelude.{◌≡◌, ◌⊎◌, ◌∷◌, [], ℕ, List, length};
ghost use Rattle.rl_time.specs.declared.time.Time.{Time};
ghost use Rattle.verilog_text.specs.Spelling.{SpellsModule};
ghost use Rattle.rl_jobs.specs.Readings.{IsReading};
ghost use Rattle.rl_jobs.specs.declared.fault.Fault.{Fault};
ghost use Rattle.rl_jobs.specs.declared.source.Source.{Source};
ghost use Rattle.rl_jobs.specs.Sources.{SpellsSource, inputs_of};
ghost use Rattle.rl_flow.specs.declared.verdict.Verdict.{Verdict};
ghost use Rattle.rl_flow.specs.declared.verdict.Verdict.TheVariants.{Done, No};
ghost use Rattle.rl_flow.specs.Asked.{limits};
ghost use Rattle.rl_flow.specs.Activations.{IsOrderText};
ghost use Rattle.rl_flow.specs.Levels.{IsLevelText, IsNoModule, IsNotSimulated};
ghost use Rattle.rl_flow.specs.Task.{Task, Compile, Simplify, Check, Compare};
ghost use Rattle.rl_flow.specs.Answers.{CanBeDone, HasOneText, IsCause, IsText};
ghost use Rattle.rl_flow.specs.Joined.{IsSimulated};

use event_sim::laws::one_run;
use rl_jobs::laws;
use verilog_laws::spells_or_breaks;
use verilog_text::spelling_laws;

/// Reading modules.
pub fn reading_modules()
    ensures { IsReading SpellsModule IsNoModule }
{
    spelling_laws::one_module();
    spelling_laws::no_broken_rule();
    spelling_laws::one_broken_rule();
    spells_or_breaks();
}

/// What `sim` can be done with at these times, and why not.
pub fn simulating()
    ensures { (times : List Time) → IsReading (λ bytes m. SpellsModule bytes m × (length times ≡ length m.inputs)) (IsNotSimulated times) }
{
    reading_modules();
}

/// At given times, for so many cycles, bytes have at most one text of levels.
pub fn one_level_text()
    ensures { (cycles : ℕ) (times : List Time) (bytes a b : List ℕ) →
        IsLevelText cycles times bytes a → IsLevelText cycles times bytes b → a ≡ b }
{
    reading_modules();
}

/// At given times, for so many cycles, in a given order, bytes have at most one text of levels and activations.
pub fn one_order_text()
    ensures { (cycles : ℕ) (times : List Time) (order : ℕ) (bytes a b : List ℕ) →
        IsOrderText cycles times order bytes a → IsOrderText cycles times order bytes b → a ≡ b }
{
    reading_modules();
    one_run();
}

/// For each task and verdict, texts have at most one answer; of every task but `compare`, which may show what it says in several ways.
pub fn one_text()
    ensures { (task : Task) (v : Verdict) (texts : List (List ℕ)) (a b : List ℕ) → HasOneText task → IsText task v texts a → IsText task v texts b → a ≡ b }
{
    laws::one_module_text();
    laws::one_value_text();
    laws::one_synthesis_text();
    laws::one_simplified_text();
    laws::one_window_text();
    laws::one_check_text();
    one_level_text();
    one_order_text();
}

/// A module that `compile` writes is never refused by `sim`, also not for its length: for any number of cycles and one time
/// for each input, `sim` writes the levels of the source's function, and nothing else.
pub fn compiled_modules_are_simulated()
    ensures { (bytes text : List ℕ) (s : Source) (cycles : ℕ) (times : List Time) → IsText Compile Done (bytes ∷ []) text →
        SpellsSource bytes s → length times ≡ length (inputs_of s) → IsSimulated s cycles times text }
{
    laws::reading_sources();
    one_text();
}

/// What `compare` writes where all outputs are equal is accepted by `check` as trees of the same two networks.
pub fn equal_networks_are_accepted()
    ensures { (budget : ℕ) (first second text : List ℕ) → IsText (Compare budget) Done (first ∷ second ∷ []) text →
        (answer : List ℕ) × IsText Check Done (first ∷ second ∷ text ∷ []) answer }
{}

/// `compare` never says of a network and its simplified text that they differ.
pub fn simplified_networks_do_not_differ()
    ensures { (budget : ℕ) (bytes text answer : List ℕ) → IsText Simplify Done (bytes ∷ []) text →
        IsText (Compare budget) No (bytes ∷ text ∷ []) answer → ⊥ }
{
    laws::reading_networks();
}

/// For each task, texts have at most one fault for which they are refused, and none where the task can be done.
pub fn one_fault()
    ensures one { (task : Task) (texts : List (List ℕ)) (f g : Fault) → IsCause task texts f → IsCause task texts g → f ≡ g }
    ensures none { (task : Task) (texts : List (List ℕ)) (f : Fault) → CanBeDone task texts → IsCause task texts f → ⊥ }
{
    laws::compiling();
    laws::evaluating();
    laws::synthesising();
    laws::simplifying();
    laws::tabulating();
    laws::checking();
    laws::pairing();
    simulating();
}

/// Each task can be done with texts, one for each of its files, or they have a fault for which it is refused.
pub fn done_or_fault()
    ensures { (task : Task) (texts : List (List ℕ)) → length texts ≡ length (limits task) → CanBeDone task texts ⊎ ((f : Fault) × IsCause task texts f) }
{
    laws::compiling();
    laws::evaluating();
    laws::synthesising();
    laws::simplifying();
    laws::tabulating();
    laws::checking();
    laws::pairing();
    simulating();
}
