ghost use Rattle.std.specs.Prelude.{◌≡◌, ◌<◌, ◌≤◌, length};
ghost use Rattle.std.specs.List.{All};
ghost use Rattle.term_store.specs.Nodes.{IsNodeOver};
ghost use Rattle.tree_check.specs.Forms.{form_at, inc_form};
ghost use Rattle.tree_check.specs.Room.{IsWithin};
ghost use Rattle.case_split.specs.Steps.{min_step, max_step, lt_step, step};

use crate::comparison::{Choice, Comparison, Step};
use term_store::{Node, Term};
use tree_check::Form;

/// What a node waits for, over the forms of the places before it.
pub fn step(forms: &[Form], node: Node) -> Step
    requires over { IsNodeOver (length forms.now) node }
    requires small { All (IsWithin 1000000) forms.now }
    ensures { result ≡ step forms.now node }
{
    match node {
        Node::Input(i) => Step::Settled(Form::Plus(i, 0)),
        Node::Never => Step::Settled(Form::Never),
        Node::Min(a, b) => min_step(form_at(forms, a), form_at(forms, b)),
        Node::Max(a, b) => max_step(form_at(forms, a), form_at(forms, b)),
        Node::Lt(a, b) => lt_step(form_at(forms, a), form_at(forms, b)),
        Node::Inc(a, c) => Step::Settled(inc_form(form_at(forms, a), c)),
    }
}

fn form_at(forms: &[Form], term: Term) -> Form
    requires within { term.0 < length forms.now }
    requires small { All (IsWithin 1000000) forms.now }
    ensures at { result ≡ form_at forms.now term.0 }
    ensures small { IsWithin 1000000 result }
{
    forms[term.0 as usize]
}

fn min_step(f: Form, g: Form) -> Step
    ensures { result ≡ min_step f g }
{
    match (f, g) {
        (Form::Undecided, _) => Step::Settled(Form::Undecided),
        (Form::Never, _) => Step::Settled(g),
        (_, Form::Undecided) => Step::Settled(Form::Undecided),
        (_, Form::Never) => Step::Settled(f),
        (Form::Plus(from, from_cycles), Form::Plus(to, to_cycles)) => Step::Chosen(Choice {
            comparison: Comparison {
                from,
                from_cycles,
                to,
                to_cycles,
            },
            yes: f,
            no: g,
        }),
    }
}

fn max_step(f: Form, g: Form) -> Step
    ensures { result ≡ max_step f g }
{
    match (f, g) {
        (Form::Undecided, _) => Step::Settled(Form::Undecided),
        (_, Form::Undecided) => Step::Settled(Form::Undecided),
        (Form::Never, _) => Step::Settled(Form::Never),
        (_, Form::Never) => Step::Settled(Form::Never),
        (Form::Plus(from, from_cycles), Form::Plus(to, to_cycles)) => Step::Chosen(Choice {
            comparison: Comparison {
                from,
                from_cycles,
                to,
                to_cycles,
            },
            yes: g,
            no: f,
        }),
    }
}

fn lt_step(f: Form, g: Form) -> Step
    ensures { result ≡ lt_step f g }
{
    match (f, g) {
        (Form::Undecided, _) => Step::Settled(Form::Undecided),
        (_, Form::Undecided) => Step::Settled(Form::Undecided),
        (Form::Never, _) => Step::Settled(Form::Never),
        (_, Form::Never) => Step::Settled(f),
        (Form::Plus(to, to_cycles), Form::Plus(from, from_cycles)) => Step::Chosen(Choice {
            comparison: Comparison {
                from,
                from_cycles,
                to,
                to_cycles,
            },
            yes: Form::Never,
            no: f,
        }),
    }
}

fn inc_form(f: Form, c: u32) -> Form
    requires form { IsWithin 1000000 f }
    requires cycles { c ≤ 1000000 }
    ensures { result ≡ inc_form f c }
{
    match f {
        Form::Never => Form::Never,
        Form::Plus(i, b) => Form::Plus(i, b + c),
        Form::Undecided => Form::Undecided,
    }
}
