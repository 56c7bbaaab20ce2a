ghost use Rattle.std.specs.Prelude.{◌≡◌, ◌<◌, ◌∷◌, [], length};
ghost use Rattle.std.specs.List.{All};
ghost use Rattle.term_store.specs.Nodes.{node_at};
ghost use Rattle.tree_check.specs.Room.{IsWithin};
ghost use Rattle.case_split.specs.Task.{IsTask};
ghost use Rattle.case_split.specs.Steps.{step};

use crate::comparison::Step;
use crate::steps::step;
use net_model::Assume;
use std::marker::Model;
use term_store::{Store, Term};
use tree_check::Form;

/// What is asked: whether two places of a store have equal terms at all times that meet premises.
#[derive(Drop)]
pub struct Question<'a> {
    store: &'a Store,
    first: Term,
    second: Term,
    inputs: u32,
    premises: &'a [Assume],
}

impl<'a> Model for Question<'a> {
    ghost use Rattle.std.specs.Prelude.{◌∷◌, []};
    ghost use Rattle.case_split.specs.Task.{Task, IsTask};

    ghost Value = { Task };

    ghost view = { λ q. record { inputs = q.inputs; premises = q.premises.now; nodes = q.store.now.nodes; roots = q.first ∷ q.second ∷ [] } };

    ghost invariant = { λ q. IsTask (record { inputs = q.inputs; premises = q.premises.now; nodes = q.store.now.nodes; roots = q.first ∷ q.second ∷ [] }) };
}

impl<'a> Question<'a> {
    /// The question of two places of a store, whose terms are over so many inputs.
    pub fn new(
        store: &'a Store,
        first: Term,
        second: Term,
        inputs: u32,
        premises: &'a [Assume],
    ) -> Question<'a>
        requires { IsTask (record { inputs = inputs; premises = premises.now; nodes = store.now.nodes; roots = first ∷ second ∷ [] }) }
        ensures { result ≡ record { inputs = inputs; premises = premises.now; nodes = store.now.nodes; roots = first ∷ second ∷ [] } }
    {
        Question {
            store,
            first,
            second,
            inputs,
            premises,
        }
    }

    /// What is true of every question.
    pub fn rules(&self)
        ensures { IsTask self.now }
    {
        let _ = &self.inputs;
    }

    /// How many places there are.
    pub fn len(&self) -> usize
        ensures { result ≡ length self.now.nodes }
    {
        self.store.len() as usize
    }

    /// What the next place waits for, where those before it have these forms.
    pub fn step(&self, forms: &[Form]) -> Step
        requires place { length forms.now < length self.now.nodes }
        requires small { All (IsWithin 1000000) forms.now }
        ensures { result ≡ step forms.now (node_at self.now.nodes (length forms.now)) }
    {
        self.store.rules();
        step(forms, self.store.node(Term(forms.len() as u32)))
    }
}
