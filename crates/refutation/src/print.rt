ghost use Rattle.std.specs.Prelude.{◌≡◌, ◌++◌, OnOk, IfOk};
ghost use Rattle.std.specs.Fmt.{signed_decimal};
ghost use Rattle.refutation.specs.Text.{chain_text, difference_text, fact_text, facts_text, split_text, leaf_text, closed_text, item_text, items_text, tree_text, forest_text, trees_text};
ghost use Rattle.refutation.specs.Trees.{AreTrees};
ghost use Rattle.refutation.specs.Spelling.{SpellsTrees};

use crate::item::{Fact, Item};
use crate::laws::printing_spells;
use crate::tree::NamedTree;
use itoa::Buffer;
use rl_text::{put, put_number};
use rl_time::NoMemory;
use std::alloc::Global;

fn put_bound(text: &mut Vec<u8>, bound: i64) -> Result<(), NoMemory>
    ensures { OnOk result (text.new.items ≡ text.old.items ++ signed_decimal bound) }
{
    let mut buffer = Buffer::new();
    put(text, buffer.format(bound).as_bytes())
}

fn put_difference(text: &mut Vec<u8>, from: u32, to: u32, bound: i64) -> Result<(), NoMemory>
    ensures { OnOk result (text.new.items ≡ text.old.items ++ difference_text from to bound) }
{
    put_number(text, from)?;
    put(text, b" ")?;
    put_number(text, to)?;
    put(text, b" ")?;
    put_bound(text, bound)
}

fn put_chain(text: &mut Vec<u8>, chain: &[u32]) -> Result<(), NoMemory>
    ensures { OnOk result (text.new.items ≡ text.old.items ++ chain_text chain.now) }
{
    for number in chain {
        put(text, b" ")?;
        put_number(text, *number)?;
    }
    Ok(())
}

fn put_fact(text: &mut Vec<u8>, fact: &Fact) -> Result<(), NoMemory>
    ensures { OnOk result (text.new.items ≡ text.old.items ++ fact_text fact.now) }
{
    put(text, b"fact ")?;
    put_difference(
        text,
        u32::from(fact.from),
        u32::from(fact.to),
        i64::from(fact.bound),
    )?;
    put(text, b" :")?;
    put_chain(text, fact.chain.numbers())?;
    put(text, b"\n")
}

fn put_facts(text: &mut Vec<u8>, facts: &[Fact]) -> Result<(), NoMemory>
    ensures { OnOk result (text.new.items ≡ text.old.items ++ facts_text facts.now) }
{
    for fact in facts {
        put_fact(text, fact)?;
    }
    Ok(())
}

fn put_split(text: &mut Vec<u8>, from: u32, to: u32, bound: i64) -> Result<(), NoMemory>
    ensures { OnOk result (text.new.items ≡ text.old.items ++ split_text from to bound) }
{
    put(text, b"split ")?;
    put_difference(text, from, to, bound)?;
    put(text, b"\n")
}

fn put_closed(text: &mut Vec<u8>, chain: &[u32]) -> Result<(), NoMemory>
    ensures { OnOk result (text.new.items ≡ text.old.items ++ closed_text chain.now) }
{
    put(text, b"closed")?;
    put_chain(text, chain)?;
    put(text, b"\n")
}

fn put_leaf(text: &mut Vec<u8>, facts: &[Fact]) -> Result<(), NoMemory>
    ensures { OnOk result (text.new.items ≡ text.old.items ++ leaf_text facts.now) }
{
    put(text, b"leaf\n")?;
    put_facts(text, facts)
}

fn put_item(text: &mut Vec<u8>, item: &Item) -> Result<(), NoMemory>
    ensures { OnOk result (text.new.items ≡ text.old.items ++ item_text item.now) }
{
    match item {
        Item::Split(from, to, bound) => put_split(text, *from, *to, *bound),
        Item::Leaf(facts) => put_leaf(text, facts.as_slice()),
        Item::Closed(chain) => put_closed(text, chain.numbers()),
        Item::Unsettled => put(text, b"open\n"),
    }
}

fn put_items(text: &mut Vec<u8>, items: &[Item]) -> Result<(), NoMemory>
    ensures { OnOk result (text.new.items ≡ text.old.items ++ items_text items.now) }
{
    for item in items {
        put_item(text, item)?;
    }
    Ok(())
}

fn put_tree(text: &mut Vec<u8>, tree: &NamedTree) -> Result<(), NoMemory>
    ensures { OnOk result (text.new.items ≡ text.old.items ++ tree_text tree.now) }
{
    put(text, b"tree ")?;
    put(text, tree.name.bytes())?;
    put(text, b"\n")?;
    put_items(text, tree.tree.items())?;
    put(text, b"end\n")
}

fn put_trees(text: &mut Vec<u8>, trees: &[NamedTree]) -> Result<(), NoMemory>
    ensures { OnOk result (text.new.items ≡ text.old.items ++ forest_text trees.now) }
{
    for tree in trees {
        put_tree(text, tree)?;
    }
    Ok(())
}

#[tactic(auto, unfolding(crate::specs::Text::trees_text))]
fn text_of(alloc: Global, trees: &[NamedTree]) -> Result<Vec<u8>, NoMemory>
    ensures { IfOk result (λ text. text.items ≡ trees_text trees.now) }
{
    let mut text = Vec::from_slice(alloc, b"racetree 1\n")?;
    put_trees(&mut text, trees)?;
    Ok(text)
}

/// The text of the trees of a file: a line for each item and each fact, single spaces, no space at the end of a line.
/// It spells the trees.
pub fn print_tree(alloc: Global, trees: &[NamedTree]) -> Result<Vec<u8>, NoMemory>
    requires { AreTrees trees.now }
    ensures text { IfOk result (λ text. text.items ≡ trees_text trees.now) }
    ensures spells { IfOk result (λ text. SpellsTrees text.items trees.now) }
{
    printing_spells();
    text_of(alloc, trees)
}
