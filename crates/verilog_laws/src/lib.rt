//! Laws of the texts of modules: what they spell, that each has one answer, and what is printed.
#![tactic(auto)]

ghost use Rattle.std.specs.Prelude.{◌≡◌, ℕ, Bool, List, None};
ghost use Rattle.rl_text.specs.Lexemes.{Lexeme};
ghost use Rattle.circuit.specs.Circuit.{Circuit};
ghost use Rattle.circuit.specs.Depth.{IsShallow};
ghost use Rattle.circuit.specs.Meaning.{HasOneHistory};
ghost use Rattle.circuit.specs.Valid.{IsValid};
ghost use Rattle.verilog_text.specs.Grammar.{Form};
ghost use Rattle.verilog_text.specs.Judging.{SoFar, nothing_yet, after, first_rule};
ghost use Rattle.verilog_text.specs.Spelling.{AreModule, SpellsModule};
ghost use Rattle.verilog_text.specs.Statements.{Statement, AreStatements};
ghost use Rattle.verilog_text.specs.Text.{module_text};
ghost use Rattle.verilog_laws.specs.Answers.{HasAnswer};
ghost use Rattle.verilog_laws.specs.Sound.{IsSound};

use circuit::laws::one_history;
use rl_text::{bad_where_no_tokens, front_is_longest};
use verilog_text::spelling_laws::reading_is_opening;

/// The text of a module spells it, where at most 64 of `~` and `(` are nested.
pub fn printing_spells()
    ensures { (m : Circuit) → IsValid m → IsShallow m → SpellsModule (module_text m) m }
{
    front_is_longest();
}

/// Statements that break no rule are sound, from none on and with each one more.
pub fn statements_stay_sound()
    ensures none { IsSound nothing_yet }
    ensures more { (x : SoFar) (f : Form) → IsSound x → first_rule x f ≡ None → IsSound (after x f) }
{}

/// Words that are statements which break no rule are a valid module.
pub fn statements_are_valid()
    ensures { (words : List Lexeme) (ss : List Statement) (m : Circuit) → AreStatements words ss → AreModule ss m → IsValid m }
{}

/// A text spells only valid modules, so each of their assigns names only inputs, registers and earlier wires.
pub fn spelled_is_valid()
    ensures { (text : List ℕ) (m : Circuit) → SpellsModule text m → IsValid m }
{}

/// What a text spells has exactly one history under every list of input levels.
pub fn spelled_has_one_history()
    ensures { (text : List ℕ) (m : Circuit) (us : List (List Bool)) → SpellsModule text m → HasOneHistory m us }
{
    spelled_is_valid();
    one_history();
}

/// Each text spells a module, or breaks a rule first.
pub fn spells_or_breaks()
    ensures { (text : List ℕ) → HasAnswer text }
{
    bad_where_no_tokens();
    reading_is_opening();
}
