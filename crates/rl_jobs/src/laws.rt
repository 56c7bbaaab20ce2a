//! Each text is read as exactly one thing, or has exactly one fault; and a job can be done with a text, or has exactly one
//! fault for which it is refused. What a job makes of a text is fixed by the text.
ghost use Rattle.std.specs.Prelude.{◌≡◌, ℕ, List, length};
ghost use Rattle.rl_time.specs.declared.time.Time.{Time};
ghost use Rattle.net_lang.specs.Spelling.{SpellsNetwork};
ghost use Rattle.refutation.specs.Spelling.{SpellsTrees};
ghost use Rattle.net_model.specs.Value.{space_time_function};
ghost use Rattle.rl_jobs.specs.Checked.{ThreeTexts, Claim, first_of, second_of, trees_of, AreValidBefore, AreNoTrees, SpellClaim, Agree, AreNotChecked, IsAcceptedText, IsRefusedText};
ghost use Rattle.rl_jobs.specs.Compiled.{HasFewBits, IsModuleText, IsNotCompiled};
ghost use Rattle.rl_jobs.specs.Pairs.{SpellPair, HaveSameNames, AreNotCompared};
ghost use Rattle.rl_jobs.specs.Readings.{IsReading};
ghost use Rattle.rl_jobs.specs.Simplification.{IsSimplifiedText, IsNotSimplified};
ghost use Rattle.rl_jobs.specs.Sources.{IsNoNetwork, SpellsSoundTable, IsNoTable, SpellsSource, IsNoSource, inputs_of};
ghost use Rattle.rl_jobs.specs.Synthesised.{IsSynthesisText, IsNotSynthesised};
ghost use Rattle.rl_jobs.specs.Values.{IsValueText, IsNotValued};
ghost use Rattle.rl_jobs.specs.Windows.{IsWindowText, CanBeWritten, IsNotTabulated};

use causality::{a_window_or_a_cause, one_row_fault, one_window_cause, sound_or_fault};
use func_table;
use net_lang;
use refutation;
use rl_text::{a_first_word_or_none, one_first_word};
use term_store::no_two_places_alike;
use tree_check::{valid_or_fault, valid_trees_decide};

/// Reading networks, in the file of any number.
pub fn reading_networks()
    ensures { (file : ℕ) → IsReading SpellsNetwork (IsNoNetwork file) }
{
    net_lang::one_network();
    net_lang::no_cause();
    net_lang::one_cause();
    net_lang::a_network_or_a_cause();
}

/// Reading trees, in the file of any number.
pub fn reading_trees()
    ensures { (file : ℕ) → IsReading SpellsTrees (AreNoTrees file) }
{
    refutation::one_list_of_trees();
    refutation::no_cause();
    refutation::one_cause();
    refutation::trees_or_a_cause();
}

/// Reading tables of sound rows.
pub fn reading_tables()
    ensures { (file : ℕ) → IsReading SpellsSoundTable (IsNoTable file) }
{
    func_table::one_table();
    func_table::no_cause();
    func_table::one_cause();
    func_table::a_table_or_a_cause();
    func_table::what_is_spelled_is_a_table();
    sound_or_fault();
    one_row_fault();
}

/// Reading networks or tables, by their first words.
pub fn reading_sources()
    ensures { (file : ℕ) → IsReading SpellsSource (IsNoSource file) }
{
    one_first_word();
    a_first_word_or_none();
    reading_networks();
    reading_tables();
}

/// Bytes have at most one text of a module.
pub fn one_module_text()
    ensures { (bytes a b : List ℕ) → IsModuleText bytes a → IsModuleText bytes b → a ≡ b }
{
    reading_sources();
    no_two_places_alike();
}

/// At given times, bytes have at most one text of values.
pub fn one_value_text()
    ensures { (times : List Time) (bytes a b : List ℕ) → IsValueText times bytes a → IsValueText times bytes b → a ≡ b }
{
    reading_sources();
}

/// Bytes have at most one text of a table's network.
pub fn one_synthesis_text()
    ensures { (bytes a b : List ℕ) → IsSynthesisText bytes a → IsSynthesisText bytes b → a ≡ b }
{
    reading_tables();
    no_two_places_alike();
}

/// Bytes have at most one text of a simplified network.
pub fn one_simplified_text()
    ensures { (bytes a b : List ℕ) → IsSimplifiedText bytes a → IsSimplifiedText bytes b → a ≡ b }
{
    reading_networks();
    no_two_places_alike();
}

/// For a name and a window, bytes have at most one text of a table.
pub fn one_window_text()
    ensures { (name : List ℕ) (window : ℕ) (bytes a b : List ℕ) →
        IsWindowText name window bytes a → IsWindowText name window bytes b → a ≡ b }
{
    reading_networks();
}

/// What `compile` can be done with, and why not.
pub fn compiling()
    ensures { IsReading (λ bytes s. SpellsSource bytes s × HasFewBits s) IsNotCompiled }
{
    reading_sources();
}

/// What `eval` can be done with at these times, and why not.
pub fn evaluating()
    ensures { (times : List Time) → IsReading (λ bytes s. SpellsSource bytes s × (length times ≡ length (inputs_of s))) (IsNotValued times) }
{
    reading_sources();
}

/// What `synth` can be done with, and why not.
pub fn synthesising()
    ensures { IsReading SpellsSoundTable IsNotSynthesised }
{
    reading_tables();
}

/// What `simplify` can be done with, and why not.
pub fn simplifying()
    ensures { IsReading SpellsNetwork IsNotSimplified }
{
    reading_networks();
}

/// What `tabulate` can be done with for this name and window, and why not.
pub fn tabulating()
    ensures { (name : List ℕ) (window : ℕ) →
        IsReading (λ bytes n. SpellsNetwork bytes n × CanBeWritten name window n) (IsNotTabulated name window) }
{
    reading_networks();
    one_window_cause();
    a_window_or_a_cause();
}

/// What `check` can be done with, and why not.
pub fn checking()
    ensures { IsReading (λ texts c. SpellClaim texts c × Agree c) AreNotChecked }
{
    reading_networks();
    reading_trees();
}

/// Networks of the same names whose outputs all have valid trees have equal outputs at all times.
pub fn valid_trees_show_equality()
    ensures { (c : Claim) → Agree c → AreValidBefore c (length (trees_of c)) → (x : List Time) → length x ≡ length (first_of c).inputs →
        space_time_function (first_of c) x ≡ space_time_function (second_of c) x }
{
    valid_trees_decide();
}

/// What `compare` can be done with, and why not.
pub fn pairing()
    ensures { IsReading (λ texts p. SpellPair texts p × HaveSameNames p) AreNotCompared }
{
    reading_networks();
}

/// Three texts are accepted or refused with at most one text, and never both.
pub fn one_check_text()
    ensures accepted { (texts : ThreeTexts) (a b : List ℕ) → IsAcceptedText texts a → IsAcceptedText texts b → a ≡ b }
    ensures refused { (texts : ThreeTexts) (a b : List ℕ) → IsRefusedText texts a → IsRefusedText texts b → a ≡ b }
    ensures never_both { (texts : ThreeTexts) (a b : List ℕ) → IsAcceptedText texts a → IsRefusedText texts b → ⊥ }
{
    checking();
    valid_or_fault();
}
