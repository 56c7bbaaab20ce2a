//! Texts that several tests read.
ghost use Rattle.std.specs.Prelude.{◌≤◌, length, IfOk};

use net_lang::{Network, read_network};
use std::alloc::Global;
use std::process::Abort;
use std::test::Fail;

/// A network of the lets p0 = min(inc(a, 1), a), p1 = min(inc(p0, 1), p0) and so on, whose output y is the last.
pub fn chain(rt: &impl Abort, alloc: Global, lets: u32) -> Result<Network, Fail> {
    let mut text = Vec::from_slice(alloc, b"racenet 1\ninput a\nlet p0 = min(inc(a, 1), a)\n")?;
    let mut last = 0u32;
    for next in 1..lets {
        let line = format!(in alloc; "let p{next} = min(inc(p{last}, 1), p{last})\n")?;
        text.extend_from_slice(line.as_bytes())?;
        last = next;
    }
    let line = format!(in alloc; "output y = p{last}\n")?;
    text.extend_from_slice(line.as_bytes())?;
    assert!(rt; text.len() <= 1048576);
    Ok(read_network(alloc, &text)?)
}

/// The text of a table of the inputs a and b and the output y.
pub fn table_of_two(rt: &impl Abort, alloc: Global, rows: &[u8]) -> Result<Vec<u8>, Fail>
    ensures { IfOk result (λ text. length text.items ≤ 1048576) }
{
    let mut text = Vec::from_slice(alloc, b"racetable 1\ninputs a b\noutput y\n")?;
    text.extend_from_slice(rows)?;
    assert!(rt; text.len() <= 1048576);
    Ok(text)
}
