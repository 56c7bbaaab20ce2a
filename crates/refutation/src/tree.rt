ghost use Rattle.std.specs.Prelude.{◌≡◌, ◌++◌, ◌∷◌, [], OnOk};

use crate::item::Item;
use rl_text::Name;
use rl_time::NoMemory;
use std::alloc::Global;
use std::marker::Model;

/// A tree, seen as its items in preorder. Nothing is said here of whether they are one whole tree.
#[derive(Debug, Drop)]
pub struct Tree {
    items: Vec<Item>,
}

impl Model for Tree {
    ghost use Rattle.std.specs.Prelude.{List};
    ghost use Rattle.refutation.specs.declared.item.Item.{Item};

    ghost Value = { List Item };

    ghost view = { λ t. t.items.items };
}

impl Tree {
    /// A tree without items yet.
    pub fn new(alloc: Global) -> Tree
        ensures { result ≡ [] }
    {
        Tree {
            items: Vec::new(alloc),
        }
    }

    /// Adds an item at the end.
    pub fn push(&mut self, item: Item) -> Result<(), NoMemory>
        ensures { OnOk result (self.new ≡ self.old ++ item ∷ []) }
    {
        self.items.push(item)?;
        Ok(())
    }

    /// Gives back the room that no item takes.
    pub(crate) fn shrink(&mut self)
        ensures { self.new ≡ self.old }
    {
        self.items.shrink_to(0);
    }

    /// The items, in order.
    pub fn items(&self) -> &[Item]
        ensures { result.now ≡ self.now }
    {
        self.items.as_slice()
    }
}

/// A tree for the output of this name.
#[derive(Debug, Drop)]
pub struct NamedTree {
    pub name: Name,
    pub tree: Tree,
}

/// The trees of a file, seen as a list.
#[derive(Drop)]
pub struct Trees {
    trees: Vec<NamedTree>,
}

impl Model for Trees {
    ghost use Rattle.std.specs.Prelude.{List};
    ghost use Rattle.refutation.specs.declared.tree.NamedTree.{NamedTree};

    ghost Value = { List NamedTree };

    ghost view = { λ t. t.trees.items };
}

impl Trees {
    /// These trees.
    pub fn new(trees: Vec<NamedTree>) -> Trees
        ensures { result ≡ trees.items }
    {
        Trees { trees }
    }

    /// The trees, in order.
    pub fn into_vec(self) -> Vec<NamedTree>
        ensures { result.items ≡ self }
    {
        self.trees
    }
}
