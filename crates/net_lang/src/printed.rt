//! Laws of printed networks.
ghost use Rattle.std.specs.Prelude.{◌≡◌};
ghost use Rattle.net_lang.specs.declared.reader.error.NetError.{NetError};
ghost use Rattle.net_lang.specs.declared.reader.error.NetError.TheVariants.{NoMemory};
ghost use Rattle.net_model.specs.Formula.{Net};
ghost use Rattle.net_model.specs.Rules.{IsNetwork};
ghost use Rattle.net_lang.specs.Spelling.{SpellsNetwork};
ghost use Rattle.net_lang.specs.Outcome.{IsCause};
ghost use Rattle.net_model.specs.Text.{network_text};

use crate::reader::{Draft, no_cause, one_network};
use line_lang::written_forms_spell;
use rl_text::decimals_are_numbers;

/// The printing of a network spells it.
pub fn printing_spells()
    ensures { (n : Net) → IsNetwork n → SpellsNetwork (network_text n) n }
{
    written_forms_spell::<Draft>();
    decimals_are_numbers();
}

/// What is printed is read back: a network that the text spells is the one that was printed, and no error but running out
/// of memory has a cause in it.
pub fn printing_is_read()
    ensures network { (n m : Net) → IsNetwork n → SpellsNetwork (network_text n) m → m ≡ n }
    ensures cause { (n : Net) (e : NetError) → IsNetwork n → IsCause (network_text n) e → e ≡ NoMemory }
{
    printing_spells();
    one_network();
    no_cause();
}
