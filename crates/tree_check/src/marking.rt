//! Which lets an output needs.
ghost use Rattle.std.specs.Prelude.{◌≡◌, [], length, IfOk};
ghost use Rattle.std.specs.List.{Contains};
ghost use Rattle.net_model.specs.Rules.{AreLets, IsOver};
ghost use Rattle.net_model.specs.View.{formula};
ghost use Rattle.tree_check.specs.Needed.{EachName, AreInOrder, AreMarks, with_names, marked_places};

use net_model::{Binding, Expr};
use rl_time::NoMemory;
use std::alloc::Global;

/// The places of the lets that an expression needs, in order. There are `inputs` inputs.
pub fn needed(
    alloc: Global,
    inputs: usize,
    lets: &[Binding],
    body: &Expr,
) -> Result<Vec<usize>, NoMemory>
    requires lets_over { AreLets inputs 0 lets.now }
    requires body_over { IsOver inputs (length lets.now) (formula body.now) }
    ensures in_order { IfOk result (λ places. AreInOrder lets.now [] places.items) }
    ensures needed { IfOk result (λ places. EachName (Contains places.items) (formula body.now)) }
{
    let marks = mark_all(alloc, inputs, lets, body)?;
    marked_places(alloc, &marks)
}

/// For each let, whether the expression needs it.
fn mark_all(
    alloc: Global,
    inputs: usize,
    lets: &[Binding],
    body: &Expr,
) -> Result<Vec<bool>, NoMemory>
    requires lets_over { AreLets inputs 0 lets.now }
    requires body_over { IsOver inputs (length lets.now) (formula body.now) }
    ensures { IfOk result (λ marks. AreMarks lets.now (formula body.now) 0 marks.items) }
{
    let Ok(mut marks) = vec![in alloc; false; lets.len()] else {
        return Err(NoMemory);
    };
    mark_names(&mut marks, body);
    for at in (0..lets.len()).rev() {
        if marks[at] {
            mark_names(&mut marks, lets[at].body());
        }
    }
    Ok(marks)
}

/// Marks the lets that an expression names.
fn mark_names(marks: &mut Vec<bool>, expr: &Expr)
    ensures { marks.new.items ≡ with_names marks.old.items (formula expr.now) }
{
    match expr {
        Expr::Never | Expr::Input(_) => {}
        Expr::Named(j) => {
            let place = *j as usize;
            if place < marks.len() {
                marks[place] = true;
            }
        }
        Expr::Min(a, b) => {
            mark_names(marks, a);
            mark_names(marks, b);
        }
        Expr::Max(a, b) => {
            mark_names(marks, a);
            mark_names(marks, b);
        }
        Expr::Lt(a, b) => {
            mark_names(marks, a);
            mark_names(marks, b);
        }
        Expr::Inc(a, _) => mark_names(marks, a),
    }
}

/// The places with a mark, in order.
fn marked_places(alloc: Global, marks: &[bool]) -> Result<Vec<usize>, NoMemory>
    ensures { IfOk result (λ places. places.items ≡ marked_places 0 marks.now) }
{
    let mut places = Vec::new(alloc);
    let mut place: usize = 0;
    for marked in marks {
        if *marked {
            places.push(place)?;
        }
        place += 1;
    }
    Ok(places)
}
