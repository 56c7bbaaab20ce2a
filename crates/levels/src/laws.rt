//! What is true of every module.

ghost use Rattle.std.specs.Prelude.{◌≤◌, ◌+◌, length};

use circuit::Module;

/// A module has few assigns and registers.
pub fn few_items(m: &Module)
    ensures { length m.now.assigns + length m.now.regs ≤ 131136 }
{
    m.rules();
}
