//! Lists, while they are read and when they are whole.
ghost use Rattle.std.specs.Prelude.{◌≡◌, IfOk};
ghost use Rattle.tree.specs.View.{item_of};
ghost use Rattle.f77_words.specs.lists.Reader as reader;
ghost use Rattle.f77_words.specs.lists.Views.{frame_of};

use std::alloc::Global;
use tree::{Item, Memory, Seq};

/// The items of a list, and the depth of its deepest expression, which is counted up to the first that is too deep.
#[derive(Drop)]
pub struct ItemList {
    pub items: Seq<Item>,
    pub depth: u16,
}

impl ItemList {
    /// A list without items.
    pub(crate) fn new(alloc: Global) -> ItemList
        ensures { frame_of result ≡ reader.none }
    {
        ItemList {
            items: Seq::new(alloc),
            depth: 0,
        }
    }

    /// The list with one more item of some depth.
    #[tactic(auto, using(crate::proofs::lists::Stacks::lists))]
    pub(crate) fn with(self, item: Item, depth: u16) -> Result<ItemList, Memory>
        ensures { IfOk result (λ list. frame_of list ≡ reader.added (item_of item) depth (frame_of self)) }
    {
        let ItemList {
            mut items,
            depth: so_far,
        } = self;
        items.push(item)?;
        Ok(ItemList {
            items,
            depth: so_far.max(depth),
        })
    }
}
