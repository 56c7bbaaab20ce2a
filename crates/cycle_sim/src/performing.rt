ghost use Rattle.std.specs.Prelude.{◌≡◌, ◌≤◌, ◌<◌, ◌+◌, ◌/◌, ◌⊎◌, false, ℕ, length, slice_get, slice_index_or, Some};
ghost use Rattle.circuit.specs.Meaning.{State};
ghost use Rattle.cycle_sim.specs.Operations.{at, literal_level, formula_level, all_done, free_place, IsWithin, AreLaid, AreTapped};
ghost use Rattle.cycle_sim.specs.declared.operation.Operation.{Operation};
ghost use Rattle.cycle_sim.specs.declared.operation.Tap.{Tap};

use crate::operation::{Formula, Operation, Places, Tap};
use levels::Levels;

/// As many differences are counted in a byte.
const FEW: usize = 128;

// Writes levels into a list, from a place on.
fn write(values: &mut [bool], place: usize, levels: &[bool])
    requires { place + length levels.now ≤ length values.old }
    ensures count { length values.new ≡ length values.old }
    ensures here { (i : ℕ) → i < length levels.now → at values.new (place + i) ≡ slice_index_or levels.now i false }
    ensures rest { (p : ℕ) → (p < place) ⊎ (place + length levels.now ≤ p) → at values.new p ≡ at values.old p }
{
    values[place..place + levels.len()].copy_from_slice(levels);
}

/// Writes the levels of inputs, wires and outputs to their places.
pub fn load(values: &mut [bool], places: Places, levels: &Levels)
    requires room { free_place places ≤ length values.old }
    requires inputs { length levels.now.inputs ≡ places.inputs }
    requires wires { length levels.now.wires ≡ places.wires }
    requires outs { length levels.now.outs ≡ places.outs }
    ensures count { length values.new ≡ length values.old }
    ensures laid { AreLaid places levels.now values.new }
{
    let wires = 1 + places.inputs as usize;
    let outs = wires + places.wires as usize;
    values[0] = false;
    write(values, 1, levels.inputs());
    write(values, wires, levels.wires());
    write(values, outs, levels.outs());
}

/// Writes the levels of register bits to the places of their taps.
pub fn load_taps(values: &mut [bool], taps: &[Tap], levels: &Levels)
    requires room { (j : ℕ) (t : Tap) → slice_get taps.now j ≡ Some t → t.to < length values.old }
    requires own { (i j : ℕ) (t u : Tap) → slice_get taps.now i ≡ Some t → slice_get taps.now j ≡ Some u → t.to ≡ u.to → i ≡ j }
    ensures count { length values.new ≡ length values.old }
    ensures tapped { AreTapped taps.now levels.now values.new }
    ensures rest { (p : ℕ) → ((j : ℕ) (t : Tap) → slice_get taps.now j ≡ Some t → p < t.to) → at values.new p ≡ at values.old p }
{
    for tap in taps {
        values[tap.to as usize] = levels.register_bit(tap.reg, tap.bit);
    }
}

// The level of a literal.
fn literal_level(values: &[bool], literal: u32) -> bool
    requires { literal / 2 < length values.now }
    ensures { result ≡ literal_level values.now literal }
{
    values[(literal / 2) as usize] != (literal % 2 == 1)
}

// The level of a formula.
fn formula_level(values: &[bool], formula: Formula) -> bool
    requires { IsWithin (length values.now) formula }
    ensures { result ≡ formula_level values.now formula }
{
    literal_level(values, formula.first)
        | (literal_level(values, formula.second) & literal_level(values, formula.third))
}

/// Performs operations in order.
pub fn perform(values: &mut [bool], operations: &[Operation])
    requires { (i : ℕ) (o : Operation) → slice_get operations.now i ≡ Some o → (o.to < length values.old) × IsWithin (length values.old) o.formula }
    ensures { values.new ≡ all_done values.old operations.now }
{
    for operation in operations {
        values[operation.to as usize] = formula_level(values, operation.formula);
    }
}

// How many levels of two lists differ, of lists so short that a byte holds the number: several are counted at a time.
fn count_few_differences(first: &[bool], second: &[bool]) -> u8
    requires few { length first.now ≤ 128 }
    ensures { result ≤ length first.now }
{
    let mut count: u8 = 0;
    for (old, new) in first.iter().zip(second) {
        count += (*old != *new) as u8;
    }
    count
}

// How many levels of two lists differ.
fn count_differences(first: &[bool], second: &[bool]) -> usize
    requires { length first.now ≡ length second.now }
    ensures { result ≤ length first.now }
{
    let mut count = 0;
    let mut from = 0;
    while from < first.len() {
        let to = first.len().min(from + FEW);
        count += count_few_differences(&first[from..to], &second[from..to]) as usize;
        from = to;
    }
    count
}

/// Takes the levels of wires and outputs from their places: then the levels are those of any state that is there. Answers how many
/// of them change.
pub fn store(values: &[bool], places: Places, levels: &mut Levels) -> usize
    requires room { free_place places ≤ length values.now }
    requires wires { length levels.old.wires ≡ places.wires }
    requires outs { length levels.old.outs ≡ places.outs }
    ensures { (s : State) → AreLaid places s values.now → s.inputs ≡ levels.old.inputs → s.regs ≡ levels.old.regs → levels.new ≡ s }
{
    let wires = 1 + places.inputs as usize;
    let outs = wires + places.wires as usize;
    let new_wires = &values[wires..outs];
    let new_outs = &values[outs..outs + places.outs as usize];
    let changed = count_differences(levels.wires(), new_wires)
        + count_differences(levels.outs(), new_outs);
    levels.set_wires(new_wires);
    levels.set_outs(new_outs);
    changed
}
