//! A large network that is made from numbers, and many cycles, through `run`.
use crate::commands::output_of;
use big_input::big_input;
use net_model::print_network;
use rl_time::{Time, read_time};
use std::alloc::Global;
use std::test::Fail;

// The lines of these values as levels: a digit for each of 64 cycles.
fn levels_of(alloc: Global, values: &[u8]) -> Result<Vec<u8>, Fail> {
    let mut levels = Vec::new(alloc);
    let values = str::from_utf8(values).ok().ok_or("no text")?;
    for line in values.lines() {
        let (name, value) = line.split_once(' ').ok_or("no value")?;
        let time = read_time(value.as_bytes()).ok_or("no time")?;
        levels.extend_from_slice(name.as_bytes())?;
        levels.push(b' ')?;
        for cycle in 0..64u64 {
            let high = match time {
                Time::At(rise) => rise <= cycle,
                Time::Never => false,
            };
            levels.push(if high { b'1' } else { b'0' })?;
        }
        levels.push(b'\n')?;
    }
    Ok(levels)
}

// The largest network and the times of its inputs, by the three commands only.
#[test]
fn the_largest_network_behaves_as_it_is_valued(rt: HostRuntime) -> Result<(), Fail> {
    let alloc = rt.alloc();
    let (network, times) = big_input(alloc, 16384)?;
    for (time, rise) in times.iter().zip([4, 6, 12, 3, 7, 1, 13, 4]) {
        assert_eq!(rt; *time, Time::At(rise));
    }
    let text = print_network(alloc, &network)?;
    let module = output_of(&rt, alloc, &text, &["compile", "f"])?;
    let sim = ["sim", "f", "64", "4", "6", "12", "3", "7", "1", "13", "4"];
    let levels = output_of(&rt, alloc, &module, &sim)?;
    let eval = ["eval", "f", "4", "6", "12", "3", "7", "1", "13", "4"];
    let values = output_of(&rt, alloc, &text, &eval)?;
    assert_eq!(rt; levels, levels_of(alloc, &values)?);
    let module = str::from_utf8(&module).ok().ok_or("no text")?;
    let wires = module.lines().filter(|line| line.starts_with("  wire "));
    assert_eq!(rt; wires.count(), 1138);
    Ok(())
}

const DELAY_MODULE: &[u8] = b"module race(clk, rst, in_a, out_y);
input clk; input rst; input in_a; output out_y; // one cycle later
reg r; assign out_y = r;
always @(posedge clk) if (rst) r <= 1'b0; else r <= in_a;
endmodule";

// The name y, so many digits 0, and so many digits 1.
fn row(alloc: Global, low: usize, high: usize) -> Result<Vec<u8>, Fail> {
    let mut text = b"y ".to_vec(alloc)?;
    text.extend_from_slice(&vec![in alloc; b'0'; low]?)?;
    text.extend_from_slice(&vec![in alloc; b'1'; high]?)?;
    text.extend_from_slice(b"\n")?;
    Ok(text)
}

#[test]
fn as_many_cycles_as_there_may_be(rt: HostRuntime) -> Result<(), Fail> {
    let alloc = rt.alloc();
    let levels = output_of(&rt, alloc, DELAY_MODULE, &["sim", "f", "100000", "99990"])?;
    assert_eq!(rt; levels, row(alloc, 99991, 9)?);
    Ok(())
}
