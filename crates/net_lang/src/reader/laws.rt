//! Laws of texts and networks.
ghost use Rattle.std.specs.Prelude.{◌≡◌, ◌≢◌, ◌⊎◌, ℕ, List};
ghost use Rattle.net_lang.specs.declared.reader.error.NetError.{NetError};
ghost use Rattle.net_lang.specs.declared.reader.error.NetError.TheVariants.{NoMemory};
ghost use Rattle.net_model.specs.Formula.{Net};
ghost use Rattle.net_model.specs.Rules.{IsNetwork};
ghost use Rattle.net_lang.specs.Spelling.{SpellsNetwork};
ghost use Rattle.net_lang.specs.Outcome.{IsCause};

use super::draft::Draft;
use line_lang::{always_one, never_both, one_broken, one_value};

/// A text spells at most one network.
pub fn one_network()
    ensures { (text : List ℕ) (m n : Net) → SpellsNetwork text m → SpellsNetwork text n → m ≡ n }
{
    one_value::<Draft>();
}

/// A text that spells a network has no cause of an error.
pub fn no_cause()
    ensures { (text : List ℕ) (n : Net) (e : NetError) → SpellsNetwork text n → IsCause text e → e ≡ NoMemory }
{
    never_both::<Draft>();
}

/// A text has at most one cause of an error.
pub fn one_cause()
    ensures { (text : List ℕ) (e f : NetError) → IsCause text e → IsCause text f → e ≢ NoMemory → f ≢ NoMemory → e ≡ f }
{
    one_broken::<Draft>();
}

/// Each text spells a network, or has a cause of an error.
pub fn a_network_or_a_cause()
    ensures { (text : List ℕ) → ((n : Net) × SpellsNetwork text n) ⊎ ((e : NetError) × (e ≢ NoMemory) × IsCause text e) }
{
    always_one::<Draft>();
}

/// What a text spells keeps the rules of networks.
pub fn what_is_spelled_is_a_network()
    ensures { (text : List ℕ) (n : Net) → SpellsNetwork text n → IsNetwork n }
{}
