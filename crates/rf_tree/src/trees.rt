//! Trees of items as the program keeps them: nodes by their places, each after those below it.

ghost use Rattle.std.specs.Prelude.{◌≡◌, ◌≤◌, Some, List, [], length, slice_get, slice_range};
ghost use Rattle.std.specs.Str.{chars};
ghost use Rattle.rf_base_grammar.specs.Token.{Token};
ghost use Rattle.rf_base_grammar.specs.declared.items.Item.{Item};
ghost use Rattle.rf_base_tree.specs.Trees.{Forest, spelling_at};
ghost use Rattle.rf_tree.specs.Kept.{IsTreeOf, IsTree, HasItem};

use crate::nodes::{At, Nodes};
use rf_base_grammar::{Item, SOURCE_LIMIT};
use rf_base_tree::TreeKind;
use std::alloc::{AllocError, AllocFailed, Global};
use std::mem;
use thiserror::Error;

/// The tree of a source's items.
#[derive(Debug, Drop)]
pub struct Tree<'s> {
    /// The source.
    pub src: &'s str,
    /// Its items, as they were read or settled.
    pub items: Vec<Item>,
    /// The nodes; each stands after those that it names.
    pub nodes: Nodes,
    /// The nodes of what stands at the top, in order.
    pub tops: Vec<At>,
}

/// Trees that stand next to one another at the top of a file, without their items.
#[derive(Debug, Drop)]
pub struct Trees {
    /// The nodes; each stands after those that it names.
    pub nodes: Nodes,
    /// The nodes of the trees themselves, in order.
    pub tops: Vec<At>,
}

impl Trees {
    /// No trees. It takes no memory.
    pub fn none(alloc: Global) -> Trees
        ensures { (result.nodes ≡ []) × (result.tops.items ≡ []) }
    {
        Trees {
            nodes: Nodes::new(alloc),
            tops: Vec::new(alloc),
        }
    }
}

impl<'s> Tree<'s> {
    /// Puts trees in place of those that it has, and gives these.
    pub fn put_trees(&mut self, trees: Trees) -> Trees
        ensures put { (self.new.nodes ≡ trees.nodes) × (self.new.tops ≡ trees.tops) }
        ensures given { (result.nodes ≡ self.old.nodes) × (result.tops ≡ self.old.tops) }
        ensures kept { (self.new.src.now ≡ self.old.src.now) × (self.new.items ≡ self.old.items) }
    {
        Trees {
            nodes: mem::replace(&mut self.nodes, trees.nodes),
            tops: mem::replace(&mut self.tops, trees.tops),
        }
    }

    /// The text of the item of this number.
    pub fn text(&self, item: usize) -> &'s str
        requires tree { IsTree self.now }
        requires there { HasItem self.now item }
        ensures characters { (ts : List Token) (trees : Forest) → IsTreeOf self.now ts trees
            → chars result.now ≡ spelling_at ts item }
        ensures bytes { (i : Item) → slice_get self.now.items.items item ≡ Some i
            → result.now ≡ slice_range self.now.src.now i.start i.end }
        ensures short { length result.now ≤ SOURCE_LIMIT }
    {
        let item = &self.items[item];
        &self.src[item.start as usize..item.end as usize]
    }
}

/// Why there is no tree.
#[derive(Clone, Copy, Debug, PartialEq, Eq, Error)]
pub enum TreeError {
    /// The first item that can't go on, or the end, is refused.
    #[error("{kind:?} at {offset}")]
    Refused {
        /// What is wrong there.
        kind: TreeKind,
        /// The byte that the kind names, counted from the source's start.
        offset: u32,
    },
    /// Memory ran out.
    #[error("out of memory")]
    Memory(AllocError),
}

impl From<AllocError> for TreeError {
    ghost use Rattle.std.specs.Prelude.{◌≡◌};
    ghost use Rattle.rf_tree.specs.declared.trees.TreeError.TheVariants.{Memory};

    ghost from_gives = { λ x e. e ≡ Memory x };

    fn from(error: AllocError) -> TreeError {
        TreeError::Memory(error)
    }
}

impl<T: Drop> From<AllocFailed<T>> for TreeError {
    ghost use Rattle.std.specs.Prelude.{◌≡◌, alloc_error};
    ghost use Rattle.rf_tree.specs.declared.trees.TreeError.TheVariants.{Memory};

    ghost from_gives = { λ _ e. e ≡ Memory alloc_error };

    fn from(fault: AllocFailed<T>) -> TreeError {
        TreeError::Memory(AllocError::from(fault))
    }
}
