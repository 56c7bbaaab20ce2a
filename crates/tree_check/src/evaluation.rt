ghost use Rattle.std.specs.Prelude.{◌≡◌};
ghost use Rattle.net_model.specs.View.{formula};
ghost use Rattle.tree_check.specs.Bounds.{known};
ghost use Rattle.tree_check.specs.Forms.{compared, chosen, min_form, max_form, lt_form, inc_form, form_at, form};
ghost use Rattle.tree_check.specs.Room.{IsWithin, FormHasRoom};
ghost use Rattle.tree_check.specs.Verdict.{are_equal_forms};

use crate::form::Form;
use crate::table::Table;
use net_model::Expr;

/// Whether input i plus c is at most input j plus d, where that is decided.
fn compared(table: &Table, i: u32, c: u32, j: u32, d: u32) -> Option<bool>
    ensures { result ≡ compared (known table.now) i c j d }
{
    let (earlier, later) = (i64::from(c), i64::from(d));
    if i == j {
        Some(c <= d)
    } else if table.knows(i, j, later - earlier) {
        Some(true)
    } else if table.knows(j, i, earlier - later - 1) {
        Some(false)
    } else {
        None
    }
}

fn chosen(answer: Option<bool>, f: Form, g: Form) -> Form
    ensures { result ≡ chosen answer f g }
{
    match answer {
        Some(true) => f,
        Some(false) => g,
        None => Form::Undecided,
    }
}

fn min_form(table: &Table, f: Form, g: Form) -> Form
    ensures { result ≡ min_form (known table.now) f g }
{
    match (f, g) {
        (Form::Undecided, _) => Form::Undecided,
        (_, Form::Undecided) => Form::Undecided,
        (Form::Never, _) => g,
        (_, Form::Never) => f,
        (Form::Plus(i, c), Form::Plus(j, d)) => chosen(compared(table, i, c, j, d), f, g),
    }
}

fn max_form(table: &Table, f: Form, g: Form) -> Form
    ensures { result ≡ max_form (known table.now) f g }
{
    match (f, g) {
        (Form::Undecided, _) => Form::Undecided,
        (_, Form::Undecided) => Form::Undecided,
        (Form::Never, _) => Form::Never,
        (_, Form::Never) => Form::Never,
        (Form::Plus(i, c), Form::Plus(j, d)) => chosen(compared(table, i, c, j, d), g, f),
    }
}

fn lt_form(table: &Table, f: Form, g: Form) -> Form
    ensures { result ≡ lt_form (known table.now) f g }
{
    match (f, g) {
        (Form::Undecided, _) => Form::Undecided,
        (_, Form::Undecided) => Form::Undecided,
        (Form::Never, _) => Form::Never,
        (_, Form::Never) => f,
        (Form::Plus(i, c), Form::Plus(j, d)) => {
            chosen(compared(table, j, d, i, c), Form::Never, f)
        }
    }
}

fn inc_form(f: Form, c: u32) -> Form
    requires { IsWithin 1000000 (inc_form f c) }
    ensures { result ≡ inc_form f c }
{
    match f {
        Form::Never => Form::Never,
        Form::Plus(i, b) => Form::Plus(i, b + c),
        Form::Undecided => Form::Undecided,
    }
}

/// The form at a place, and never past the end.
fn form_at(forms: &[Form], place: u32) -> Form
    ensures { result ≡ form_at forms.now place }
{
    match forms.get(place as usize) {
        Some(f) => *f,
        None => Form::Never,
    }
}

/// The form of an expression, over the forms of the lets.
pub fn form(table: &Table, lets: &[Form], expr: &Expr) -> Form
    requires { FormHasRoom (known table.now) lets.now (formula expr.now) }
    ensures { result ≡ form (known table.now) lets.now (formula expr.now) }
{
    match expr {
        Expr::Never => Form::Never,
        Expr::Input(i) => Form::Plus(*i, 0),
        Expr::Named(j) => form_at(lets, *j),
        Expr::Min(a, b) => min_form(table, form(table, lets, a), form(table, lets, b)),
        Expr::Max(a, b) => max_form(table, form(table, lets, a), form(table, lets, b)),
        Expr::Lt(a, b) => lt_form(table, form(table, lets, a), form(table, lets, b)),
        Expr::Inc(a, c) => inc_form(form(table, lets, a), *c),
    }
}

/// Whether two forms are equal where the facts hold.
pub fn are_equal_forms(table: &Table, f: Form, g: Form) -> bool
    ensures { result ≡ are_equal_forms (known table.now) f g }
{
    match (f, g) {
        (Form::Never, Form::Never) => true,
        (Form::Plus(i, c), Form::Plus(j, d)) => {
            let up = compared(table, i, c, j, d);
            let down = compared(table, j, d, i, c);
            up == Some(true) && down == Some(true)
        }
        _ => false,
    }
}
