//! A line after the lines before.
ghost use Rattle.std.specs.Prelude.{◌≡◌, ◌++◌, ◌∷◌, [], OnOk, IfOk, false};
ghost use Rattle.line_lang.specs.Language.{IsRead};
ghost use Rattle.line_lang.specs.Judging.{IsEnded};
ghost use Rattle.refutation.specs.declared.reader.rules.Rule.TheVariants as rule;
ghost use Rattle.refutation.specs.Forms as forms;
ghost use Rattle.refutation.specs.FormReading.{form_at};
ghost use Rattle.refutation.specs.LineRules.{SoFar, nothing_yet, all_items, with_item, after, breaks_range};
ghost use Rattle.refutation.specs.Limits.{IsSmallDifference};
ghost use Rattle.refutation.specs.Spelling.{trees};
ghost use Rattle.refutation.specs.Draft.{form, so_far};

use super::draft::Draft;
use super::form::{Difference, Form};
use super::judge::{allows, first_rule};
use super::rules::{Rule, Stage};
use super::words::form_at;
use crate::chain::Chain;
use crate::item::{Fact, Facts, Item};
use crate::tree::{NamedTree, Tree, Trees};
use line_lang::{LineError, LineReader};
use rl_text::{LineWords, Name};
use rl_time::NoMemory;
use std::alloc::Global;
use std::mem;

impl Draft {
    /// Puts the leaf that is open among the items, where one is.
    fn close_leaf(&mut self, alloc: Global) -> Result<(), NoMemory>
        ensures items { OnOk result (self.new.tree ≡ all_items (so_far self.old)) }
        ensures facts { OnOk result (self.new.facts ≡ []) }
        ensures stage { self.new.stage ≡ self.old.stage }
        ensures trees { self.new.trees ≡ self.old.trees }
        ensures name { self.new.name ≡ self.old.name }
    {
        match self.stage {
            Stage::Leaf => {
                let facts = self.facts.take(alloc)?;
                self.tree.push(Item::Leaf(facts))
            }
            _ => {
                self.facts.clear();
                Ok(())
            }
        }
    }

    fn add_item(&mut self, alloc: Global, item: Item) -> Result<(), NoMemory>
        ensures { OnOk result (so_far self.new ≡ with_item (so_far self.old) item) }
    {
        self.close_leaf(alloc)?;
        self.tree.push(item)?;
        self.stage = Stage::Item;
        Ok(())
    }

    fn begin(&mut self, alloc: Global, name: &[u8]) -> Result<(), NoMemory>
        ensures { OnOk result (so_far self.new ≡ after (so_far self.old) (forms.Begin name.now)) }
    {
        self.name = Name::new(alloc, name)?;
        self.tree = Tree::new(alloc);
        self.facts.clear();
        self.stage = Stage::Begun;
        Ok(())
    }

    fn open_leaf(&mut self, alloc: Global) -> Result<(), NoMemory>
        ensures { OnOk result (so_far self.new ≡ after (so_far self.old) forms.Leaf) }
    {
        self.close_leaf(alloc)?;
        self.stage = Stage::Leaf;
        Ok(())
    }

    fn add_fact(&mut self, alloc: Global, d: Difference, chain: &Chain) -> Result<(), NoMemory>
        requires near { IsSmallDifference d.from d.to d.bound }
        ensures { OnOk result (so_far self.new ≡ after (so_far self.old) (forms.Fact d chain.now)) }
    {
        let chain = chain.copy(alloc)?;
        self.facts.push(Fact {
            from: d.from as u16,
            to: d.to as u16,
            bound: d.bound as i32,
            chain,
        })
    }

    fn end(&mut self, alloc: Global) -> Result<(), NoMemory>
        ensures { OnOk result (so_far self.new ≡ after (so_far self.old) forms.End) }
    {
        self.close_leaf(alloc)?;
        let name = mem::replace(&mut self.name, Name::from_vec(Vec::new(alloc)));
        let mut tree = mem::replace(&mut self.tree, Tree::new(alloc));
        tree.shrink();
        self.trees.push(NamedTree { name, tree })?;
        self.stage = Stage::Ended;
        Ok(())
    }

    /// Keeps a line.
    fn keep(&mut self, alloc: Global, line: &Form<'_>) -> Result<(), NoMemory>
        requires near { breaks_range (form line.now) ≡ false }
        ensures { OnOk result (so_far self.new ≡ after (so_far self.old) (form line.now)) }
    {
        match line {
            Form::Header => {
                self.stage = Stage::Header;
                Ok(())
            }
            Form::Begin(name) => self.begin(alloc, name),
            Form::Split(d) => self.add_item(alloc, Item::Split(d.from, d.to, d.bound)),
            Form::Leaf => self.open_leaf(alloc),
            Form::Fact(d, chain) => self.add_fact(alloc, *d, chain),
            Form::Closed(chain) => self.add_item(alloc, Item::Closed(chain.copy(alloc)?)),
            Form::Open => self.add_item(alloc, Item::Unsettled),
            Form::End => self.end(alloc),
        }
    }
}

impl<'a> LineReader<'a> for Draft {
    type Line = Form<'a>;

    type Rule = Rule;

    type Value = Trees;

    ghost SoFar = { SoFar };

    ghost Form = { forms.Form };

    ghost language = { trees };

    ghost reading = { form_at };

    ghost form = { form };

    ghost so_far = { so_far };

    ghost is_sound = { λ _. Unit {0} };

    fn grammar_is_read()
        ensures { IsRead trees form_at }
    {}

    fn syntax() -> Rule
        ensures { result ≡ rule.Syntax }
    {
        Rule::Syntax
    }

    fn form_at(alloc: Global, line: LineWords<'a>) -> Result<Form<'a>, LineError<Rule>> {
        form_at(alloc, line)
    }

    fn allows(&self, line: &Form<'a>) -> bool {
        allows(self.stage, line)
    }

    fn judge(&mut self, alloc: Global, line: &Form<'a>) -> Result<(), LineError<Rule>> {
        if let Some(rule) = first_rule(self, line) {
            return Err(LineError::Broken(rule));
        }
        self.keep(alloc, line)?;
        Ok(())
    }

    fn whole(self) -> Option<Trees>
        ensures { IsEnded trees (so_far self) result }
    {
        match self.stage {
            Stage::Ended => Some(Trees::new(self.trees)),
            _ => None,
        }
    }
}

/// A draft of no lines.
pub fn nothing_yet(alloc: Global) -> Draft
    ensures { so_far result ≡ nothing_yet }
{
    Draft {
        stage: Stage::Start,
        trees: Vec::new(alloc),
        name: Name::from_vec(Vec::new(alloc)),
        tree: Tree::new(alloc),
        facts: Facts::new(alloc),
    }
}
