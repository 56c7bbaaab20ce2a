ghost use Rattle.std.specs.Prelude.{◌≡◌, ◌≤◌, length, IfOk, IfErr};
ghost use Rattle.net_lang.specs.Spelling.{SpellsNetwork};
ghost use Rattle.net_lang.specs.Outcome.{error_of, IsCause};

use super::error::NetError;
use super::line::nothing_yet;
use super::rules::Rule;
use line_lang::{Failure, read};
use net_model::Network;
use std::alloc::Global;

fn error_of(rule: Rule, line: u32) -> NetError
    ensures { result ≡ error_of rule line }
{
    match rule {
        Rule::Syntax => NetError::Syntax(line),
        Rule::Name => NetError::Name(line),
        Rule::Doubled => NetError::Doubled(line),
        Rule::Unknown => NetError::Unknown(line),
        Rule::Count => NetError::Count(line),
        Rule::Span => NetError::Span(line),
    }
}

/// The network that a text of at most 1,048,576 bytes spells. An error names the first rule that the first line to
/// break one breaks; a byte that no token, space or comment begins with is `Syntax`, before every rule.
pub fn read_network(alloc: Global, text: &[u8]) -> Result<Network, NetError>
    requires { length text.now ≤ 1048576 }
    ensures network { IfOk result (λ n. SpellsNetwork text.now n) }
    ensures cause { IfErr result (IsCause text.now) }
{
    match read(alloc, nothing_yet(alloc), text) {
        Ok(network) => Ok(network),
        Err(Failure::Broken(rule, line)) => Err(error_of(rule, line)),
        Err(Failure::NoMemory) => Err(NetError::NoMemory),
    }
}
