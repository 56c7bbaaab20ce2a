use event_sim::{Events, laws, simulate};
use rl_time::Time;
use std::test::Fail;
use verilog_read::read_module;

// The first of two inputs to rise.
const FIRST: &[u8] = b"module race(clk, rst, in_a, in_b, out_y);
input clk; input rst; input in_a; input in_b; output out_y; wire w0;
assign w0 = in_a | in_b;
assign out_y = w0;
endmodule
";

#[test]
fn a_run_has_its_activations(rt: HostRuntime) -> Result<(), Fail> {
    let alloc = rt.alloc();
    let m = read_module(alloc, FIRST)?;
    laws::all_orders_agree();
    laws::rounds_settle();
    laws::orders_make_histories();
    laws::one_run();
    assert_eq!(rt; m.inputs().len(), 2);
    let run = simulate(alloc, &m, &[Time::At(1), Time::Never], 3, 1)?;
    assert_eq!(rt; run.activations, 10);
    assert_eq!(rt; run.rows.len(), 1);
    Ok(())
}

#[test]
fn wires_may_be_updated_in_any_order(rt: HostRuntime) -> Result<(), Fail> {
    let alloc = rt.alloc();
    let m = read_module(alloc, FIRST)?;
    assert_eq!(rt; m.inputs().len(), 2);
    assert_eq!(rt; m.outputs().len(), 1);
    assert_eq!(rt; m.assigns().len(), 2);
    let mut events = Events::new(alloc, &m)?;
    assert!(rt; events.settled());
    events.edge(&[true, false]);
    assert!(rt; !events.settled());
    assert!(rt; !events.activate(1));
    assert!(rt; events.activate(0));
    assert!(rt; !events.settled());
    assert!(rt; events.activate(1));
    assert!(rt; events.settled());
    assert!(rt; events.level(0));
    assert_eq!(rt; events.run_passes(0), 2);
    events.edge(&[false, false]);
    assert_eq!(rt; events.run_passes(1), 6);
    assert!(rt; !events.level(0));
    Ok(())
}
