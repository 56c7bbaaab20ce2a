ghost use Rattle.std.specs.Prelude.{◌≡◌, ◌≤◌, length, IfOk, IfErr};
ghost use Rattle.refutation.specs.Spelling.{SpellsTrees};
ghost use Rattle.refutation.specs.Outcome.{error_of, IsCause};

use super::error::TreeError;
use super::line::nothing_yet;
use super::rules::Rule;
use crate::tree::NamedTree;
use line_lang::{Failure, read};
use std::alloc::Global;

fn error_of(rule: Rule, line: u32) -> TreeError
    ensures { result ≡ error_of rule line }
{
    match rule {
        Rule::Syntax => TreeError::Syntax(line),
        Rule::Range => TreeError::Range(line),
        Rule::Long => TreeError::Long(line),
        Rule::Count => TreeError::Count(line),
    }
}

/// The trees that a text of at most 67,108,864 bytes spells. An error names the first rule that the first line to
/// break one breaks; a byte that no token, space or comment begins with is `Syntax`, before every rule.
pub fn read_tree(alloc: Global, text: &[u8]) -> Result<Vec<NamedTree>, TreeError>
    requires { length text.now ≤ 67108864 }
    ensures trees { IfOk result (λ trees. SpellsTrees text.now trees.items) }
    ensures cause { IfErr result (IsCause text.now) }
{
    match read(alloc, nothing_yet(alloc), text) {
        Ok(trees) => Ok(trees.into_vec()),
        Err(Failure::Broken(rule, line)) => Err(error_of(rule, line)),
        Err(Failure::NoMemory) => Err(TreeError::NoMemory),
    }
}
