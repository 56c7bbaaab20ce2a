//! The rules of a line, judged.
ghost use Rattle.std.specs.Prelude.{◌≡◌};
ghost use Rattle.std.specs.List.{list_any};
ghost use Rattle.std.specs.Str.{bytes_eq};
ghost use Rattle.refutation.specs.LineRules.{is_open, allows, is_far, is_great, breaks_range, breaks_long, is_full, begin_breaks, breaks_count, first_rule};
ghost use Rattle.refutation.specs.Draft.{form, so_far};

use super::draft::Draft;
use super::form::{Difference, Form};
use super::rules::{Rule, Stage};
use crate::limits::{MOST_BOUND, MOST_FACTS, MOST_ITEMS, MOST_NUMBERS, MOST_TREES, NUMBERS_END};
use crate::tree::NamedTree;
use net_model::{MOST_PORTS, is_port_name};

/// Whether an item may be next.
fn is_open(stage: Stage) -> bool
    ensures { result ≡ is_open stage }
{
    matches!(stage, Stage::Begun | Stage::Leaf | Stage::Item)
}

/// Whether this place allows a form.
pub fn allows(stage: Stage, line: &Form<'_>) -> bool
    ensures { result ≡ allows stage (form line.now) }
{
    match line {
        Form::Header => matches!(stage, Stage::Start),
        Form::Begin(_) => matches!(stage, Stage::Header | Stage::Ended),
        Form::Split(_) | Form::Leaf | Form::Closed(_) | Form::Open => is_open(stage),
        Form::Fact(_, _) => matches!(stage, Stage::Leaf),
        Form::End => matches!(stage, Stage::Leaf | Stage::Item),
    }
}

/// Whether an input's place or the bound is too great.
fn is_far(d: Difference) -> bool
    ensures { result ≡ is_far d }
{
    d.from as usize >= MOST_PORTS
        || d.to as usize >= MOST_PORTS
        || d.bound < -MOST_BOUND
        || MOST_BOUND < d.bound
}

/// Whether a number of a chain is too great.
fn is_great(chain: &[u32]) -> bool
    ensures { result ≡ is_great chain.now }
{
    chain.iter().any(|k| NUMBERS_END <= *k)
}

fn breaks_range(line: &Form<'_>) -> bool
    ensures { result ≡ breaks_range (form line.now) }
{
    match line {
        Form::Split(d) => is_far(*d),
        Form::Fact(d, chain) => is_far(*d) || is_great(chain.numbers()),
        Form::Closed(chain) => is_great(chain.numbers()),
        _ => false,
    }
}

/// Whether the chain is too long, or the leaf has no room for a fact more.
fn breaks_long(draft: &Draft, line: &Form<'_>) -> bool
    ensures { result ≡ breaks_long (so_far draft.now) (form line.now) }
{
    match line {
        Form::Fact(_, chain) => {
            chain.numbers().len() > MOST_NUMBERS || draft.facts.as_slice().len() >= MOST_FACTS
        }
        Form::Closed(chain) => chain.numbers().len() > MOST_NUMBERS,
        _ => false,
    }
}

/// Whether the tree has no room for an item more.
fn is_full(draft: &Draft) -> bool
    ensures { result ≡ is_full (so_far draft.now) }
{
    let items = draft.tree.items().len();
    match draft.stage {
        Stage::Leaf => items >= MOST_ITEMS - 1,
        _ => items >= MOST_ITEMS,
    }
}

fn has_name(trees: &[NamedTree], name: &[u8]) -> bool
    ensures { result ≡ list_any (λ t. bytes_eq name.now t.name) trees.now }
{
    trees.iter().any(|tree| name == tree.name.bytes())
}

/// Whether there are too many trees, or this one has a name that it may not have. At most 64 names are compared.
fn begin_breaks(trees: &[NamedTree], name: &[u8]) -> bool
    ensures { result ≡ begin_breaks trees.now name.now }
{
    trees.len() >= MOST_TREES || !is_port_name(name) || has_name(trees, name)
}

fn breaks_count(draft: &Draft, line: &Form<'_>) -> bool
    ensures { result ≡ breaks_count (so_far draft.now) (form line.now) }
{
    match line {
        Form::Begin(name) => begin_breaks(&draft.trees, name),
        Form::Split(_) | Form::Leaf | Form::Closed(_) | Form::Open => is_full(draft),
        _ => false,
    }
}

/// The rule that a line breaks first, which has a form that its place allows.
pub fn first_rule(draft: &Draft, line: &Form<'_>) -> Option<Rule>
    ensures { result ≡ first_rule (so_far draft.now) (form line.now) }
{
    if breaks_range(line) {
        Some(Rule::Range)
    } else if breaks_long(draft, line) {
        Some(Rule::Long)
    } else if breaks_count(draft, line) {
        Some(Rule::Count)
    } else {
        None
    }
}
