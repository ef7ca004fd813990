//! Input and output lists in which each name stands for what it is.
ghost use Rattle.std.specs.Prelude.{◌≡◌, map, IfOk};
ghost use Rattle.tree.specs.View.{expression_of, item_of};
ghost use Rattle.f77_tree.specs.Parts.{read_by, value_by, item_by};

use crate::resolver::Resolver;
use f77_grammar::Direction;
use std::alloc::Global;
use tree::{Expr, Item, Memory, Seq, copy_text, three};

impl Resolver<'_> {
    // What is read into keeps its name.
    #[tactic(auto, using(crate::proofs::ItemLaws::read_laws))]
    fn resolve_read(&self, alloc: Global, expr: &Expr) -> Result<Expr, Memory>
        ensures { IfOk result (λ resolved. expression_of resolved ≡ read_by self.now expr.now) }
    {
        match expr {
            Expr::Item(item) => Ok(Expr::Item(self.resolve_reference(alloc, item)?)),
            Expr::Int(_) => self.resolve(alloc, expr),
            Expr::Truth(_) => self.resolve(alloc, expr),
            Expr::Un(..) => self.resolve(alloc, expr),
            Expr::Bin(..) => self.resolve(alloc, expr),
            Expr::Call(..) => self.resolve(alloc, expr),
            Expr::List(..) | Expr::Spread(..) | Expr::Transpose(_) => self.resolve(alloc, expr),
            Expr::Reshape(..) | Expr::Reduce(..) => self.resolve(alloc, expr),
        }
    }

    fn resolve_value(
        &self,
        alloc: Global,
        direction: Direction,
        expr: &Expr,
    ) -> Result<Expr, Memory>
        ensures { IfOk result (λ resolved. expression_of resolved ≡ value_by self.now direction expr.now) }
    {
        match direction {
            Direction::Output => self.resolve(alloc, expr),
            Direction::Input => self.resolve_read(alloc, expr),
        }
    }

    #[cycle(items)]
    #[tactic(auto, using(crate::proofs::ItemLaws::item_laws))]
    fn resolve_item(&self, alloc: Global, direction: Direction, item: &Item) -> Result<Item, Memory>
        ensures { IfOk result (λ resolved. item_of resolved ≡ item_by self.now direction item.now) }
    {
        match item {
            Item::One(expr) => Ok(Item::One(self.resolve_value(alloc, direction, expr)?)),
            Item::Text(text) => Ok(Item::Text(copy_text(text, alloc)?)),
            Item::Turns(list, variable, first, last, step) => {
                let list = self.resolve_items(alloc, direction, list)?;
                let (first, last, step) = three(
                    self.resolve(alloc, first),
                    self.resolve(alloc, last),
                    self.resolve(alloc, step),
                )?;
                Ok(Item::Turns(list, *variable, first, last, step))
            }
        }
    }

    /// The items of an input or output list.
    #[cycle(items)]
    pub fn resolve_items(
        &self,
        alloc: Global,
        direction: Direction,
        list: &Seq<Item>,
    ) -> Result<Seq<Item>, Memory>
        ensures { IfOk result (λ resolved. map item_of resolved ≡ map (item_by self.now direction) list.now) }
    {
        let mut resolved = Seq::new(alloc);
        for item in list.as_slice() {
            resolved.push(self.resolve_item(alloc, direction, item)?)?;
        }
        Ok(resolved)
    }
}
