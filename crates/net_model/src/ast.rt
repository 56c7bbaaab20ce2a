ghost use Rattle.std.specs.Prelude.{◌≡◌};
ghost use Rattle.net_model.specs.Formula.{net};
ghost use Rattle.net_model.specs.Rules.{IsNetwork};
ghost use Rattle.net_model.specs.View.{formula};

use rl_text::Name;
use std::marker::Model;

/// An expression. `Input` and `Named` hold places in the network's lists of inputs and of lets, from 0; `Inc` holds
/// a number of cycles.
#[derive(Debug, Drop)]
pub enum Expr {
    Never,
    Input(u32),
    Named(u32),
    Min(Box<Expr>, Box<Expr>),
    Max(Box<Expr>, Box<Expr>),
    Lt(Box<Expr>, Box<Expr>),
    Inc(Box<Expr>, u32),
}

/// A let or an output: a name for an expression.
#[derive(Debug, Drop)]
pub struct Binding {
    name: Name,
    body: Expr,
}

impl Model for Binding {
    ghost use Rattle.net_model.specs.Formula.{Equation};
    ghost use Rattle.net_model.specs.Code.{equation_code};

    ghost Value = { Equation };

    ghost coded = { equation_code };

    ghost use Rattle.net_model.specs.View.{formula};

    ghost view = { λ b. record { name = b.name; body = formula b.body } };
}

impl Binding {
    /// This name for this expression.
    pub fn new(name: Name, body: Expr) -> Binding
        ensures { result ≡ record { name = name; body = formula body } }
    {
        Binding { name, body }
    }

    /// The name.
    pub fn name(&self) -> &Name
        ensures { result.now ≡ self.now.name }
    {
        &self.name
    }

    /// The expression.
    pub fn body(&self) -> &Expr
        ensures { formula result.now ≡ self.now.body }
    {
        &self.body
    }
}

/// A network: 1 to 64 inputs, lets that name inputs and earlier lets, and 1 to 64 outputs.
#[derive(Debug, Drop)]
pub struct Network {
    inputs: Vec<Name>,
    lets: Vec<Binding>,
    outputs: Vec<Binding>,
}

impl Model for Network {
    ghost use Rattle.net_model.specs.Formula.{Net, net};
    ghost use Rattle.net_model.specs.Rules.{IsNetwork};
    ghost use Rattle.net_model.specs.Code.{net_code};

    ghost Value = { Net };

    ghost coded = { net_code };

    ghost view = { λ n. net n.inputs.items n.lets.items n.outputs.items };

    ghost invariant = { λ n. IsNetwork (net n.inputs.items n.lets.items n.outputs.items) };
}

impl Network {
    /// A network of these parts, which keep the rules of networks.
    pub fn new(inputs: Vec<Name>, lets: Vec<Binding>, outputs: Vec<Binding>) -> Network
        requires { IsNetwork (net inputs.items lets.items outputs.items) }
        ensures { result ≡ net inputs.items lets.items outputs.items }
    {
        Network {
            inputs,
            lets,
            outputs,
        }
    }

    /// The names of the inputs, in order.
    pub fn inputs(&self) -> &[Name]
        ensures { result.now ≡ self.now.inputs }
    {
        self.inputs.as_slice()
    }

    /// The lets, in order: each names inputs and earlier lets.
    pub fn lets(&self) -> &[Binding]
        ensures { result.now ≡ self.now.lets }
    {
        self.lets.as_slice()
    }

    /// The outputs, in order.
    pub fn outputs(&self) -> &[Binding]
        ensures { result.now ≡ self.now.outputs }
    {
        self.outputs.as_slice()
    }

    /// Every network keeps the rules of networks.
    pub fn rules(&self)
        ensures { IsNetwork self.now }
    {
        let _ = &self.inputs;
    }
}
