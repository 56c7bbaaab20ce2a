ghost use Rattle.std.specs.Prelude.{◌≡◌, ◌<◌, ◌≤◌, ℕ, [], length, IfOk};
ghost use Rattle.std.specs.List.{AllByRecursion, Contains};
ghost use Rattle.net_model.specs.Rules.{AreLets, let_spans};
ghost use Rattle.tree_check.specs.Bounds.{known};
ghost use Rattle.tree_check.specs.Forms.{form_at, let_forms, output_form};
ghost use Rattle.tree_check.specs.Needed.{asked, AreInOrder};

use crate::evaluation::form;
use crate::form::Form;
use crate::marking::needed;
use crate::table::Table;
use net_model::{Binding, Network};
use rl_time::NoMemory;
use std::alloc::Global;
use std::marker::Model;

/// An output of a network, with what its forms at the leaves share: the places of the lets that it needs, in order, and
/// room for the form of each let.
#[derive(Drop)]
pub struct Output<'a> {
    network: &'a Network,
    place: u32,
    needed: Vec<usize>,
    forms: Vec<Form>,
}

impl<'a> Model for Output<'a> {
    ghost use Rattle.tree_check.specs.Needed.{Asked, IsReady};
    ghost use Rattle.tree_check.specs.Code.{asked_code};

    ghost Value = { Asked };

    ghost coded = { asked_code };

    ghost view = { λ o. record { network = o.network.now; place = o.place } };

    ghost invariant = { λ o. IsReady o.network.now o.place o.needed.items o.forms.items };
}

impl<'a> Output<'a> {
    /// The output at a place.
    pub fn new(alloc: Global, network: &'a Network, place: u32) -> Result<Output<'a>, NoMemory>
        requires { place < length network.now.outputs }
        ensures { IfOk result (λ o. o ≡ asked network.now place) }
    {
        network.rules();
        let lets = network.lets();
        let body = network.outputs()[place as usize].body();
        let Ok(forms) = vec![in alloc; Form::Never; lets.len()] else {
            return Err(NoMemory);
        };
        Ok(Output {
            network,
            place,
            needed: needed(alloc, network.inputs().len(), lets, body)?,
            forms,
        })
    }

    /// The output's form where the facts of the table hold.
    pub fn form(&mut self, table: &Table) -> Form
        ensures same { self.new ≡ self.old }
        ensures form { result ≡ output_form (known table.now) self.old.network self.old.place }
    {
        let lets = self.network.lets();
        set_forms(table, lets, &self.needed, &mut self.forms);
        let body = self.network.outputs()[self.place as usize].body();
        form(table, &self.forms, body)
    }
}

/// Sets the forms of the lets at these places.
fn set_forms(table: &Table, lets: &[Binding], places: &[usize], forms: &mut Vec<Form>)
    requires in_order { AreInOrder lets.now [] places.now }
    requires long { length forms.old.items ≡ length lets.now }
    requires over { (i : ℕ) × AreLets i 0 lets.now }
    requires short { AllByRecursion (λ s. s ≤ 1000000) (let_spans lets.now) }
    ensures long { length forms.new.items ≡ length lets.now }
    ensures set { (j : ℕ) → Contains places.now j → form_at forms.new.items j ≡ form_at (let_forms (known table.now) lets.now) j }
{
    for place in places {
        let next = form(table, forms, lets[*place].body());
        forms[*place] = next;
    }
}
