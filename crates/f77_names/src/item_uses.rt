//! How names stand in what is assigned to, and in input and output lists.
ghost use Rattle.std.specs.Prelude.{◌≡◌, ◌++◌, map, OnOk};
ghost use Rattle.tree.specs.Plain.{items};
ghost use Rattle.tree.specs.View.{expression_of, reference_of, item_of};
ghost use Rattle.f77_grammar.specs.program.Uses as plain;
ghost use Rattle.f77_names.specs.UsesView.{listed};

use crate::uses::{Role, Uses};
use f77_grammar::Direction;
use tree::{Expr, Item, Memory, Name, Ref, Seq};

impl Uses {
    /// What is assigned or read into.
    #[tactic(auto, using(crate::proofs::ItemUseLaws::item_use_laws))]
    pub(crate) fn add_target(&mut self, target: &Ref) -> Result<(), Memory>
        ensures { OnOk result (listed self.new ≡ listed self.old
            ++ plain.target_uses (reference_of target.now).name (reference_of target.now).subscripts) }
    {
        self.note(target.name, Role::Target(target.subs.len()))?;
        self.add_subs(&target.subs)
    }

    #[tactic(auto, using(crate::proofs::ItemUseLaws::item_use_laws))]
    fn add_read(&mut self, expr: &Expr) -> Result<(), Memory>
        ensures { OnOk result (listed self.new ≡ listed self.old ++ plain.input_uses (expression_of expr.now)) }
    {
        match expr {
            Expr::Item(target) => self.add_target(target),
            Expr::Int(_) | Expr::Truth(_) | Expr::Un(..) | Expr::Bin(..) => self.add_expr(expr),
            Expr::Call(..) | Expr::List(..) | Expr::Spread(..) => self.add_expr(expr),
            Expr::Transpose(_) | Expr::Reshape(..) | Expr::Reduce(..) => self.add_expr(expr),
        }
    }

    // A DO variable and its three parameters.
    pub(crate) fn add_control(
        &mut self,
        variable: Name,
        first: &Expr,
        last: &Expr,
        step: &Expr,
    ) -> Result<(), Memory>
        ensures { OnOk result (listed self.new ≡ listed self.old
            ++ plain.control_uses variable (expression_of first.now) (expression_of last.now)
            (expression_of step.now)) }
    {
        self.note(variable, Role::Counter)?;
        self.add_expr(first)?;
        self.add_expr(last)?;
        self.add_expr(step)
    }

    // An item that is an expression.
    fn add_single(&mut self, direction: Direction, expr: &Expr) -> Result<(), Memory>
        ensures { OnOk result (listed self.new ≡ listed self.old
            ++ plain.value_uses direction (expression_of expr.now)) }
    {
        match direction {
            Direction::Output => self.add_expr(expr),
            Direction::Input => self.add_read(expr),
        }
    }

    #[cycle(items)]
    #[tactic(auto, using(crate::proofs::ItemUseLaws::item_use_laws))]
    fn add_item(&mut self, direction: Direction, item: &Item) -> Result<(), Memory>
        ensures { OnOk result (listed self.new ≡ listed self.old ++ plain.uses_in_item direction (item_of item.now)) }
    {
        match item {
            Item::One(expr) => self.add_single(direction, expr),
            Item::Text(_) => Ok(()),
            Item::Turns(list, variable, first, last, step) => {
                self.add_items(direction, list)?;
                self.add_control(*variable, first, last, step)
            }
        }
    }

    /// The items of an input or output list.
    #[cycle(items)]
    pub(crate) fn add_items(&mut self, direction: Direction, list: &Seq<Item>) -> Result<(), Memory>
        ensures { OnOk result (listed self.new ≡ listed self.old
            ++ plain.uses_in_items direction (items (map item_of list.now))) }
    {
        for item in list.as_slice() {
            self.add_item(direction, item)?;
        }
        Ok(())
    }
}
