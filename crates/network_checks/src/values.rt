//! The values of networks.
ghost use Rattle.std.specs.Prelude.{◌≤◌, length, IsTrue};
ghost use Rattle.net_model.specs.Early.{IsAtMost, AreEarly};

use crate::texts::chain;
use net_lang::{Network, read_network};
use rl_time::Time;
use spike_eval::eval;
use std::alloc::Global;
use std::process::Abort;
use std::test::Fail;

fn is_early(time: Time) -> bool
    ensures { IsTrue result → IsAtMost 1000000000000 time }
{
    match time {
        Time::At(a) => a <= 1_000_000_000_000,
        Time::Never => true,
    }
}

fn are_early(x: &[Time]) -> bool
    ensures { IsTrue result → AreEarly x.now }
{
    for time in x {
        if !is_early(*time) {
            return false;
        }
    }
    true
}

fn check_values(
    rt: &impl Abort,
    alloc: Global,
    network: &Network,
    x: &[Time],
    wanted: &[Time],
) -> Result<(), Fail> {
    assert!(rt; x.len() == network.inputs().len());
    let early = are_early(x);
    assert!(rt; early);
    let times = eval(alloc, network, x)?;
    assert_eq!(rt; times.as_slice(), wanted);
    Ok(())
}

#[test]
fn a_race_of_three(rt: HostRuntime) -> Result<(), Fail> {
    let never = Time::Never;
    let text = b"racenet 1
input a b c
output a_first = lt(a, min(b, c))
output b_first = lt(b, min(a, c))
output c_first = lt(c, min(a, b))
output middle = max(min(a, b), min(max(a, b), c))
";
    let network = read_network(rt.alloc(), text)?;
    let rows = [
        ([5, 3, 9], [never, Time::At(3), never, Time::At(5)]),
        ([7, 3, 5], [never, Time::At(3), never, Time::At(5)]),
        ([2, 2, 9], [never, never, never, Time::At(2)]),
    ];
    for ([a, b, c], wanted) in rows {
        let x = [Time::At(a), Time::At(b), Time::At(c)];
        check_values(&rt, rt.alloc(), &network, &x, &wanted)?;
    }
    Ok(())
}

// Without sharing, its last let would be 2 ^ 64 - 1 operators.
#[test]
fn lets_are_valued_once(rt: HostRuntime) -> Result<(), Fail> {
    let network = chain(&rt, rt.alloc(), 64)?;
    check_values(&rt, rt.alloc(), &network, &[Time::At(7)], &[Time::At(7)])
}
