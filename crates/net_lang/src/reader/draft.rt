use super::rules::Stage;
use super::scope::Scope;
use net_model::Binding;
use rl_text::Name;

/// What is kept of the lines before.
#[derive(Drop)]
pub struct Draft<'a> {
    pub stage: Stage,
    pub scope: Scope<'a>,
    pub inputs: Vec<Name>,
    pub lets: Vec<Binding>,
    pub outputs: Vec<Binding>,
    pub joins: u32,
    pub delays: u32,
}
