ghost use Rattle.std.specs.Prelude.{◌≤◌};

use crate::big_input;
use net_model::print_network;
use rl_time::Time;
use std::alloc::Global;
use std::process::Abort;
use std::test::Fail;

/// The network of five lets, by a generator that was written apart.
const FIVE: &[u8] = b"racenet 1
input i0 i1 i2 i3 i4 i5 i6 i7
let n0 = inc(i1, 3)
let n1 = max(i5, n0)
let n2 = min(i7, i2)
let n3 = min(n1, i0)
let n4 = max(i5, n1)
output y0 = n0
output y1 = n1
output y2 = n2
output y3 = n3
output y4 = n4
";

/// Whether the network of a number has this text, and its inputs these times.
fn expect(rt: &impl Abort, alloc: Global, n: u32, text: &[u8], times: &[u64; 8]) -> Result<(), Fail>
    requires { (1 ≤ n) × (n ≤ 16384) }
{
    let (network, drawn) = big_input(alloc, n)?;
    assert_eq!(rt; print_network(alloc, &network)?.as_slice(), text);
    assert_eq!(rt; drawn.len(), 8);
    for (time, expected) in drawn.iter().zip(times) {
        assert_eq!(rt; *time, Time::At(*expected));
    }
    Ok(())
}

#[test]
fn networks_of_one_and_of_five_lets(rt: HostRuntime) -> Result<(), Fail> {
    let alloc = rt.alloc();
    let one = b"racenet 1\ninput i0 i1 i2 i3 i4 i5 i6 i7\nlet n0 = lt(i6, i1)\noutput y0 = n0\n";
    expect(&rt, alloc, 1, one, &[11, 11, 11, 2, 11, 4, 6, 13])?;
    expect(&rt, alloc, 5, FIVE, &[9, 6, 9, 4, 2, 15, 13, 10])
}

#[test]
fn the_largest_network(rt: HostRuntime) -> Result<(), Fail> {
    let alloc = rt.alloc();
    let (network, _times) = big_input(alloc, 16384)?;
    assert_eq!(rt; network.lets().len(), 16384);
    assert_eq!(rt; network.outputs().len(), 64);
    assert_eq!(rt; print_network(alloc, &network)?.len(), 471660);
    Ok(())
}
