use cycle_sim::{Sim, laws, simulate};
use rl_time::Time;
use std::test::Fail;
use verilog_read::read_module;

// A rise of `a` while `b` is low, kept from then on.
const LATCH: &[u8] = b"module race(clk, rst, in_a, in_b, out_y);
input clk; input rst; input in_a; input in_b; output out_y; wire w0; reg h;
assign w0 = h | (in_a & ~in_b);
assign out_y = w0;
always @(posedge clk) if (rst) h <= 1'b0; else h <= w0;
endmodule
";

#[test]
fn steps_go_to_the_next_cycle(rt: HostRuntime) -> Result<(), Fail> {
    let alloc = rt.alloc();
    let m = read_module(alloc, LATCH)?;
    laws::histories_grow_at_the_end();
    laws::levels_grow_at_the_end();
    laws::quiet_cycles_repeat();
    assert_eq!(rt; m.inputs().len(), 2);
    assert_eq!(rt; m.outputs().len(), 1);
    let mut sim = Sim::new(alloc, &m)?;
    sim.step(&[false, false]);
    assert!(rt; !sim.level(0));
    sim.step(&[true, false]);
    assert_eq!(rt; (sim.level(0), sim.is_quiet()), (true, false));
    sim.step(&[true, true]);
    sim.step(&[true, true]);
    sim.step(&[true, true]);
    sim.step(&[true, true]);
    assert_eq!(rt; sim.outs(), [true].as_slice());
    assert!(rt; sim.is_quiet());
    Ok(())
}

#[test]
fn each_output_has_its_row_of_digits(rt: HostRuntime) -> Result<(), Fail> {
    let alloc = rt.alloc();
    let m = read_module(alloc, LATCH)?;
    let rises = [Time::At(4), Time::Never];
    assert_eq!(rt; m.inputs().len(), 2);
    for (cycles, digits) in [(0, ""), (1, "0"), (5, "00001")] {
        let rows = simulate(alloc, &m, &rises, cycles)?;
        assert_eq!(rt; rows.len(), 1);
        for row in &rows {
            assert_eq!(rt; row.as_slice(), digits.as_bytes());
        }
    }
    Ok(())
}
