ghost use Rattle.std.specs.Prelude.{◌≡◌, ◌++◌, ◌<◌, [], length, slice_index_or, OnOk, IfOk};
ghost use Rattle.std.specs.List.{AllByRecursion};
ghost use Rattle.net_model.specs.View.{formula};
ghost use Rattle.net_model.specs.Rules.{names_of, IsOver};
ghost use Rattle.net_model.specs.Text.{formula_text, equation_text, equations_text, spaced_names, network_text};

use crate::ast::{Binding, Expr, Network};
use rl_text::{Name, put, put_number};
use rl_time::NoMemory;
use std::alloc::Global;

fn put_inputs(text: &mut Vec<u8>, names: &[Name]) -> Result<(), NoMemory>
    ensures { OnOk result (text.new.items ≡ text.old.items ++ spaced_names names.now) }
{
    for name in names {
        put(text, b" ")?;
        put(text, name.bytes())?;
    }
    Ok(())
}

fn put_input(text: &mut Vec<u8>, names: &[Name], place: u32) -> Result<(), NoMemory>
    requires { place < length names.now }
    ensures { OnOk result (text.new.items ≡ text.old.items ++ slice_index_or names.now place []) }
{
    put(text, names[place as usize].bytes())
}

fn put_let(text: &mut Vec<u8>, lets: &[Binding], place: u32) -> Result<(), NoMemory>
    requires { place < length lets.now }
    ensures { OnOk result (text.new.items ≡ text.old.items ++ slice_index_or (names_of lets.now) place []) }
{
    put(text, lets[place as usize].name().bytes())
}

fn put_expr(
    text: &mut Vec<u8>,
    inputs: &[Name],
    lets: &[Binding],
    expr: &Expr,
) -> Result<(), NoMemory>
    requires { IsOver (length inputs.now) (length lets.now) (formula expr.now) }
    ensures { OnOk result (text.new.items ≡ text.old.items ++ formula_text inputs.now (names_of lets.now) (formula expr.now)) }
{
    match expr {
        Expr::Never => put(text, b"never"),
        Expr::Input(i) => put_input(text, inputs, *i),
        Expr::Named(j) => put_let(text, lets, *j),
        Expr::Min(a, b) => {
            put(text, b"min(")?;
            put_expr(text, inputs, lets, a)?;
            put(text, b", ")?;
            put_expr(text, inputs, lets, b)?;
            put(text, b")")
        }
        Expr::Max(a, b) => {
            put(text, b"max(")?;
            put_expr(text, inputs, lets, a)?;
            put(text, b", ")?;
            put_expr(text, inputs, lets, b)?;
            put(text, b")")
        }
        Expr::Lt(a, b) => {
            put(text, b"lt(")?;
            put_expr(text, inputs, lets, a)?;
            put(text, b", ")?;
            put_expr(text, inputs, lets, b)?;
            put(text, b")")
        }
        Expr::Inc(a, by) => {
            put(text, b"inc(")?;
            put_expr(text, inputs, lets, a)?;
            put(text, b", ")?;
            put_number(text, *by)?;
            put(text, b")")
        }
    }
}

fn put_equation(
    text: &mut Vec<u8>,
    word: &[u8],
    inputs: &[Name],
    lets: &[Binding],
    binding: &Binding,
) -> Result<(), NoMemory>
    requires { IsOver (length inputs.now) (length lets.now) binding.now.body }
    ensures { OnOk result (text.new.items ≡ text.old.items ++ equation_text word.now inputs.now (names_of lets.now) binding.now) }
{
    put(text, word)?;
    put(text, binding.name().bytes())?;
    put(text, b" = ")?;
    put_expr(text, inputs, lets, binding.body())?;
    put(text, b"\n")
}

fn put_equations(
    text: &mut Vec<u8>,
    word: &[u8],
    inputs: &[Name],
    lets: &[Binding],
    all: &[Binding],
) -> Result<(), NoMemory>
    requires { AllByRecursion (λ e. IsOver (length inputs.now) (length lets.now) e.body) all.now }
    ensures { OnOk result (text.new.items ≡ text.old.items ++ equations_text word.now inputs.now (names_of lets.now) all.now) }
{
    for binding in all {
        put_equation(text, word, inputs, lets, binding)?;
    }
    Ok(())
}

/// The text of a network: single spaces, one `input` line, one space after each comma, a newline at the end of each
/// line.
#[tactic(auto, unfolding(crate::specs::Text::network_text))]
pub fn print_network(alloc: Global, n: &Network) -> Result<Vec<u8>, NoMemory>
    ensures { IfOk result (λ text. text.items ≡ network_text n.now) }
{
    let (inputs, lets) = (n.inputs(), n.lets());
    n.rules();
    let mut text = Vec::from_slice(alloc, b"racenet 1\ninput")?;
    put_inputs(&mut text, inputs)?;
    put(&mut text, b"\n")?;
    put_equations(&mut text, b"let ", inputs, lets, lets)?;
    put_equations(&mut text, b"output ", inputs, lets, n.outputs())?;
    Ok(text)
}
