//! One output of a network, laid out to be valued at many lists of times.
ghost use Rattle.std.specs.Prelude.{◌≡◌, ◌<◌, length, List, IfOk};
ghost use Rattle.rl_time.specs.declared.time.Time.{Time};
ghost use Rattle.net_model.specs.Early.{AreEarly};
ghost use Rattle.spike_eval.specs.Outputs.{output_function};
ghost use Rattle.causality.specs.Reached.{time_of};

use net_model::Network;
use rl_time::{NoMemory, Time};
use std::alloc::Global;
use std::marker::Model;
use term_store::{Evaluator, Store, Term, terms_have_the_networks_values};

/// What one output reaches, and its place there.
#[derive(Drop)]
pub(crate) struct Output {
    evaluator: Evaluator,
    place: Term,
}

impl Model for Output {
    ghost use Rattle.std.specs.Prelude.{◌<◌, length};
    ghost use Rattle.causality.specs.Reached.{Reached};

    ghost Value = { Reached };

    ghost view = { λ o. record { nodes = o.evaluator; place = o.place.0 } };

    ghost invariant = { λ o. o.place.0 < length o.evaluator };
}

impl Output {
    /// The output at a place, from 0.
    pub(crate) fn new(alloc: Global, n: &Network, out: u32) -> Result<Output, NoMemory>
        requires output { out < length n.now.outputs }
        ensures { IfOk result (λ output. (x : List Time) → time_of output x ≡ output_function n.now out x) }
    {
        terms_have_the_networks_values();
        let mut store = Store::new(alloc)?;
        let outputs = store.build(alloc, n)?;
        let (part, places) = store.part(alloc, &[outputs[out as usize]])?;
        let evaluator = Evaluator::new(alloc, &part)?;
        Ok(Output {
            evaluator,
            place: places[0],
        })
    }

    /// The output's time, at these times of the inputs, each never or at most 1,000,000,000,000 cycles.
    pub(crate) fn time(&mut self, x: &[Time]) -> Time
        requires early { AreEarly x.now }
        ensures time { result ≡ time_of self.old x.now }
        ensures output { self.new ≡ self.old }
    {
        self.evaluator.time(self.place, x)
    }
}
