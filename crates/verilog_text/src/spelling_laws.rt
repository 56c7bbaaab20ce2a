//! Laws of texts and the modules that they spell.

ghost use Rattle.std.specs.Prelude.{◌≡◌, ℕ, List, Some};
ghost use Rattle.rl_text.specs.Lexemes.{Lexeme};
ghost use Rattle.verilog_text.specs.declared.rule.Rule.{Rule};
ghost use Rattle.circuit.specs.Circuit.{Circuit};
ghost use Rattle.verilog_text.specs.Statements.{Stage, Statement, Opens};
ghost use Rattle.verilog_text.specs.Reading.{statement_at};
ghost use Rattle.verilog_text.specs.Spelling.{SpellsModule, IsBroken};

use rl_text::{one_bad_place, one_list_of_tokens, tokens_or_bad_place};

/// A text spells at most one module.
pub fn one_module()
    ensures { (text : List ℕ) (m n : Circuit) → SpellsModule text m → SpellsModule text n → m ≡ n }
{
    one_list_of_tokens();
}

/// A text that spells a module breaks no rule.
pub fn no_broken_rule()
    ensures { (text : List ℕ) (m : Circuit) (r : Rule) (line : ℕ) → SpellsModule text m → IsBroken text r line → ⊥ }
{
    one_list_of_tokens();
    tokens_or_bad_place();
}

/// A text breaks at most one rule first, on one line.
pub fn one_broken_rule()
    ensures { (text : List ℕ) (r s : Rule) (k l : ℕ) → IsBroken text r k → IsBroken text s l → (r ≡ s) × (k ≡ l) }
{
    one_list_of_tokens();
    one_bad_place();
    tokens_or_bad_place();
}

/// A statement opens words exactly where it is read at their front.
pub fn reading_is_opening()
    ensures opened { (stage : Stage) (ls : List Lexeme) (s : Statement) (rest : List Lexeme) → statement_at stage ls ≡ Some (s, rest) → Opens stage ls s rest }
    ensures read { (stage : Stage) (ls : List Lexeme) (s : Statement) (rest : List Lexeme) → Opens stage ls s rest → statement_at stage ls ≡ Some (s, rest) }
{}
