//! Laws of valid modules.

ghost use Rattle.std.specs.Prelude.{◌≡◌, true};
ghost use Rattle.circuit.specs.Circuit.{Circuit};
ghost use Rattle.circuit.specs.Valid.{HasValidNames, IsValid};
ghost use Rattle.circuit.specs.Numbering.{HasNumberedNames, HasPortNames};
ghost use Rattle.circuit.specs.Tested.{is_valid};

/// Wires `w0`, `w1`, .. and registers `r0`, `r1`, .. give a module valid names, where its ports have different names
/// that a port may have.
pub fn numbered_names_are_valid()
    ensures { (m : Circuit) → HasNumberedNames m → HasPortNames m → HasValidNames m }
{}

/// A module that passes a test that computes is valid: for modules that are written out.
pub fn test_shows_validity()
    ensures { (m : Circuit) → is_valid m ≡ true → IsValid m }
{}
