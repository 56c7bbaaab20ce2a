//! Laws of the texts of trees.
ghost use Rattle.std.specs.Prelude.{◌≡◌, ◌≢◌, ◌⊎◌, ℕ, List};
ghost use Rattle.refutation.specs.declared.reader.error.TreeError.{TreeError};
ghost use Rattle.refutation.specs.declared.reader.error.TreeError.TheVariants.{NoMemory};
ghost use Rattle.refutation.specs.declared.tree.NamedTree.{NamedTree};
ghost use Rattle.refutation.specs.Trees.{AreTrees};
ghost use Rattle.refutation.specs.Spelling.{SpellsTrees};
ghost use Rattle.refutation.specs.Outcome.{IsCause};
ghost use Rattle.refutation.specs.Text.{trees_text};

use crate::reader::Draft;
use line_lang::{always_one, never_both, one_broken, one_value, written_forms_spell};
use rl_text::decimals_are_numbers;

/// A text spells at most one list of trees.
pub fn one_list_of_trees()
    ensures { (text : List ℕ) (ts us : List NamedTree) → SpellsTrees text ts → SpellsTrees text us → ts ≡ us }
{
    one_value::<Draft>();
}

/// A text that spells trees has no cause of an error.
pub fn no_cause()
    ensures { (text : List ℕ) (ts : List NamedTree) (e : TreeError) → SpellsTrees text ts → IsCause text e → e ≡ NoMemory }
{
    never_both::<Draft>();
}

/// A text has at most one cause of an error.
pub fn one_cause()
    ensures { (text : List ℕ) (e f : TreeError) → IsCause text e → IsCause text f → e ≢ NoMemory → f ≢ NoMemory → e ≡ f }
{
    one_broken::<Draft>();
}

/// Each text spells trees, or has a cause of an error.
pub fn trees_or_a_cause()
    ensures { (text : List ℕ) → ((ts : List NamedTree) × SpellsTrees text ts) ⊎ ((e : TreeError) × (e ≢ NoMemory) × IsCause text e) }
{
    always_one::<Draft>();
}

/// What a text spells are trees of a file: they keep the limits, and their names are distinct names of outputs.
pub fn what_is_spelled_are_trees()
    ensures { (text : List ℕ) (ts : List NamedTree) → SpellsTrees text ts → AreTrees ts }
{}

/// The printing of the trees of a file spells them.
pub fn printing_spells()
    ensures { (ts : List NamedTree) → AreTrees ts → SpellsTrees (trees_text ts) ts }
{
    written_forms_spell::<Draft>();
    decimals_are_numbers();
}
