//! The gates and the modules of networks.
use crate::texts::chain;
use gate_lower::{emit, lower_network};
use net_lang::{Network, read_network};
use std::alloc::Global;
use std::process::Abort;
use std::test::Fail;

/// Whether a network has so many gates, delays and registers.
fn expect(
    rt: &impl Abort,
    alloc: Global,
    network: &Network,
    gates: usize,
    delays: usize,
    registers: usize,
) -> Result<(), Fail> {
    let netlist = lower_network(alloc, network)?;
    assert_eq!(rt; netlist.gates().len(), gates);
    assert_eq!(rt; netlist.delays().len(), delays);
    let module = emit(alloc, &netlist)?;
    assert_eq!(rt; module.wires().len(), gates);
    assert_eq!(rt; module.regs().len(), registers);
    Ok(())
}

#[test]
fn networks_have_gates_delays_and_registers(rt: HostRuntime) -> Result<(), Fail> {
    let alloc = rt.alloc();
    let min = b"racenet 1\ninput a b\noutput y = min(a, b)\noutput z = b\n";
    expect(&rt, alloc, &read_network(alloc, min)?, 1, 0, 0)?;
    let race = b"racenet 1\ninput a b\noutput y = lt(a, b)\n";
    expect(&rt, alloc, &read_network(alloc, race)?, 1, 0, 1)?;
    let delay = b"racenet 1\ninput a\nlet m = max(a, a)\noutput y = inc(m, 2)\noutput z = never\n";
    expect(&rt, alloc, &read_network(alloc, delay)?, 1, 1, 1)?;
    let twice = b"racenet 1\ninput a b\noutput y = min(a, b)\noutput z = min(a, b)\n";
    expect(&rt, alloc, &read_network(alloc, twice)?, 1, 0, 0)?;
    let taps =
        b"racenet 1\ninput a\nlet unused = lt(a, inc(a, 9))\noutput y = inc(a, 3)\noutput z = inc(a, 5)\n";
    expect(&rt, alloc, &read_network(alloc, taps)?, 0, 1, 1)
}

#[test]
fn shared_terms_are_never_written_out(rt: HostRuntime) -> Result<(), Fail> {
    for lets in [12, 64] {
        let network = chain(&rt, rt.alloc(), lets)?;
        let count = lets as usize;
        expect(&rt, rt.alloc(), &network, count, count, count)?;
    }
    Ok(())
}
