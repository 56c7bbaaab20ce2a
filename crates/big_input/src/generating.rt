//! The network of a number, let by let.
ghost use Rattle.std.specs.Prelude.{◌≡◌, ◌*◌, ◌+◌, ◌<◌, ◌≤◌, codes, length, IfOk, OnOk};
ghost use Rattle.net_model.specs.View.{formula};
ghost use Rattle.big_input.specs.Stream.{state};
ghost use Rattle.big_input.specs.Generated.{operand, drawn_body, lets_below, output_count, outputs_below, names_below, times_below, equation, numbered, big_network, big_times};

use crate::draws::Draws;
use crate::laws::big_networks_are_networks;
use net_model::{Binding, Expr, MOST_PORTS, Name, Network};
use rl_text::numbered_name;
use rl_time::{NoMemory, Time};
use std::alloc::Global;

/// The inputs of each network.
const INPUTS: u32 = 8;

/// The input or the let of a number: the inputs come first.
fn operand(number: u32) -> Expr
    ensures { formula result ≡ operand number }
{
    if number < INPUTS {
        Expr::Input(number)
    } else {
        Expr::Named(number - INPUTS)
    }
}

/// Draws the formula of the let in this place.
fn draw_body(alloc: Global, draws: &mut Draws, place: u32) -> Result<Expr, NoMemory>
    requires few { place < 16384 }
    ensures drawn { OnOk result (draws.new ≡ state draws.old 3) }
    ensures body { IfOk result (λ body. formula body ≡ drawn_body draws.old place) }
{
    let operator = draws.draw(4);
    let first = Box::new(alloc, operand(draws.draw(INPUTS + place)))?;
    if operator == 3 {
        return Ok(Expr::Inc(first, 1 + draws.draw(3)));
    }
    let second = Box::new(alloc, operand(draws.draw(INPUTS + place)))?;
    match operator {
        0 => Ok(Expr::Min(first, second)),
        1 => Ok(Expr::Max(first, second)),
        _ => Ok(Expr::Lt(first, second)),
    }
}

/// Draws so many lets.
fn draw_lets(alloc: Global, draws: &mut Draws, count: u32) -> Result<Vec<Binding>, NoMemory>
    requires few { count ≤ 16384 }
    ensures drawn { OnOk result (draws.new ≡ state draws.old (3 * count)) }
    ensures lets { IfOk result (λ lets. lets.items ≡ lets_below draws.old count) }
{
    let mut lets = Vec::new(alloc);
    for place in 0..count {
        let name = numbered_name(alloc, b"n", place)?;
        let body = draw_body(alloc, draws, place)?;
        lets.push(Binding::new(name, body))?;
    }
    Ok(lets)
}

/// The outputs: the last of so many lets.
fn outputs(alloc: Global, lets: u32) -> Result<Vec<Binding>, NoMemory>
    ensures outputs { IfOk result (λ outputs. outputs.items ≡ outputs_below lets (output_count lets)) }
{
    let count = lets.min(MOST_PORTS as u32);
    let mut outputs = Vec::new(alloc);
    for place in 0..count {
        let name = numbered_name(alloc, b"y", place)?;
        outputs.push(Binding::new(name, Expr::Named(lets - count + place)))?;
    }
    Ok(outputs)
}

/// The names of the inputs.
fn inputs(alloc: Global) -> Result<Vec<Name>, NoMemory>
    ensures inputs { IfOk result (λ names. names.items ≡ names_below (codes "i") 8) }
{
    let mut names = Vec::new(alloc);
    for place in 0..INPUTS {
        names.push(numbered_name(alloc, b"i", place)?)?;
    }
    Ok(names)
}

/// Draws a time below 16 for each input.
fn draw_times(alloc: Global, draws: &mut Draws) -> Result<Vec<Time>, NoMemory>
    ensures times { IfOk result (λ times. times.items ≡ times_below draws.old 8) }
{
    let mut times = Vec::new(alloc);
    for _input in 0..INPUTS {
        times.push(Time::At(u64::from(draws.draw(16))))?;
    }
    Ok(times)
}

/// A network of n lets, made from the number n, and a time for each of its inputs. Each let draws its operator and its
/// operands, which are inputs and earlier lets; the outputs are the last 64 lets, or all where there are fewer. The times
/// are below 16.
pub fn big_input(alloc: Global, n: u32) -> Result<(Network, Vec<Time>), NoMemory>
    requires some { 1 ≤ n }
    requires few { n ≤ 16384 }
    ensures network { IfOk result (λ made. made.0 ≡ big_network n) }
    ensures times { IfOk result (λ made. made.1.items ≡ big_times n) }
{
    big_networks_are_networks();
    let mut draws = Draws::new(n);
    let lets = draw_lets(alloc, &mut draws, n)?;
    let times = draw_times(alloc, &mut draws)?;
    let outputs = outputs(alloc, n)?;
    let inputs = inputs(alloc)?;
    Ok((Network::new(inputs, lets, outputs), times))
}
