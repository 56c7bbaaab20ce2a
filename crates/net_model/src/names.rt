//! The names that a network may declare.
ghost use Rattle.std.specs.Prelude.{◌≡◌};
ghost use Rattle.std.specs.List.{list_all};
ghost use Rattle.net_model.specs.Rules.{is_reserved, is_let_name, is_port_name, begins_with_underscore};

use crate::limits::MOST_NAME_BYTES;
use rl_text::is_name;

fn is_reserved(name: &[u8]) -> bool
    ensures { result ≡ is_reserved name.now }
{
    name == b"min".as_slice()
        || name == b"max".as_slice()
        || name == b"lt".as_slice()
        || name == b"inc".as_slice()
        || name == b"never".as_slice()
}

fn begins_with_underscore(name: &[u8]) -> bool
    ensures { result ≡ begins_with_underscore name.now }
{
    match name {
        [] => false,
        [first, ..] => *first == b'_',
    }
}

/// Whether a let may have this name.
pub fn is_let_name(name: &[u8]) -> bool
    ensures { result ≡ is_let_name name.now }
{
    is_name(name) && name.len() <= MOST_NAME_BYTES && !is_reserved(name)
}

/// Whether an input or an output may have this name: that of a let which doesn't begin with `_`.
pub fn is_port_name(name: &[u8]) -> bool
    ensures { result ≡ is_port_name name.now }
{
    is_let_name(name) && !begins_with_underscore(name)
}

/// Whether inputs or outputs may have each of these names.
pub fn are_port_names(names: &[&[u8]]) -> bool
    ensures { result ≡ list_all (λ n. is_port_name n.now) names.now }
{
    names.iter().all(|name| is_port_name(name))
}
