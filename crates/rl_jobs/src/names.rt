ghost use Rattle.std.specs.Prelude.{◌≡◌, ◌∷◌, [], IfOk};
ghost use Rattle.net_model.specs.Rules.{names_of};
ghost use Rattle.refutation.specs.Trees.{names_of as tree_names};

use net_model::Binding;
use refutation::NamedTree;
use rl_text::Name;
use rl_time::NoMemory;
use std::alloc::Global;

/// A one-element list with a copy of the name.
pub fn alone(alloc: Global, name: &Name) -> Result<Vec<Name>, NoMemory>
    ensures one { IfOk result (λ names. names.items ≡ name.now ∷ []) }
{
    let mut names = Vec::new(alloc);
    names.push(Name::new(alloc, name.bytes())?)?;
    Ok(names)
}

/// The names of bindings, in order.
pub fn names(alloc: Global, bindings: &[Binding]) -> Result<Vec<Name>, NoMemory>
    ensures names { IfOk result (λ names. names.items ≡ names_of bindings.now) }
{
    let mut names = Vec::new(alloc);
    for binding in bindings {
        names.push(Name::new(alloc, binding.name().bytes())?)?;
    }
    Ok(names)
}

/// The names of trees, in order.
pub fn tree_names(alloc: Global, trees: &[NamedTree]) -> Result<Vec<Name>, NoMemory>
    ensures names { IfOk result (λ names. names.items ≡ tree_names trees.now) }
{
    let mut names = Vec::new(alloc);
    for named in trees {
        names.push(Name::new(alloc, named.name.bytes())?)?;
    }
    Ok(names)
}
