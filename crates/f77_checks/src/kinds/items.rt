//! The kinds of what stands in input and output lists, and of the parameters of DO loops.
ghost use Rattle.std.specs.Prelude.{◌≡◌, map};
ghost use Rattle.tree.specs.Plain.{items};
ghost use Rattle.tree.specs.View.{expression_of, item_of};
ghost use Rattle.tree.specs.declared.exprs.Expr.TheVariants as exprs;
ghost use Rattle.f77_grammar.specs.statements.Items.{takes_text};
ghost use Rattle.f77_grammar.specs.program.Kinds as kinds;
ghost use Rattle.f77_checks.specs.kinds.KnownUses.{known_uses};

use crate::kinds::kind_check::KindCheck;
use f77_grammar::Direction;
use tree::{Expr, Item, Kind, Ref, Seq};

// Texts are printed alone.
fn takes_text(direction: Direction) -> bool
    ensures { result ≡ takes_text direction }
{
    match direction {
        Direction::Output => true,
        Direction::Input => false,
    }
}

impl KindCheck<'_> {
    fn has_some_kind(&self, expr: &Expr) -> bool
        ensures { result ≡ kinds.has_some_kind (known_uses self.now) (expression_of expr.now) }
    {
        self.has_kind(expr, Kind::Integer) || self.has_kind(expr, Kind::Logical)
    }

    /// Whether three parameters of a DO loop are INTEGER values.
    pub fn are_numbers(&self, first: &Expr, last: &Expr, step: &Expr) -> bool
        ensures { result ≡ kinds.are_numbers (known_uses self.now) (expression_of first.now) (expression_of last.now)
            (expression_of step.now) }
    {
        self.has_kind(first, Kind::Integer)
            && self.has_kind(last, Kind::Integer)
            && self.has_kind(step, Kind::Integer)
    }

    // A name alone may be a whole array.
    #[tactic(auto, using(crate::proofs::kinds::ItemLaws::item_laws))]
    fn suits_output(&self, expr: &Expr) -> bool
        ensures { result ≡ kinds.suits_output (known_uses self.now) (expression_of expr.now) }
    {
        match expr {
            Expr::Item(item) => item.subs.is_empty() || self.has_some_kind(expr),
            Expr::Int(_) => self.has_some_kind(expr),
            Expr::Truth(_) => self.has_some_kind(expr),
            Expr::Un(..) => self.has_some_kind(expr),
            Expr::Bin(..) => self.has_some_kind(expr),
            Expr::Call(..) => self.has_some_kind(expr),
            Expr::List(..) => self.has_some_kind(expr),
            Expr::Spread(..) => self.has_some_kind(expr),
            Expr::Transpose(_) => self.has_some_kind(expr),
            Expr::Reshape(..) => self.has_some_kind(expr),
            Expr::Reduce(..) => self.has_some_kind(expr),
        }
    }

    // A scalar, a whole array or an element.
    #[tactic(auto, using(crate::proofs::kinds::ItemLaws::item_laws))]
    fn is_read_into(&self, item: &Ref) -> bool
        ensures { result ≡ kinds.suits_input (known_uses self.now) (expression_of (exprs.Item item.now)) }
    {
        if item.subs.is_empty() {
            return true;
        }
        self.is_array(item.name) && self.are_subscripts(&item.subs)
    }

    #[tactic(auto, using(crate::proofs::kinds::ItemLaws::item_laws))]
    fn suits_input(&self, expr: &Expr) -> bool
        ensures { result ≡ kinds.suits_input (known_uses self.now) (expression_of expr.now) }
    {
        match expr {
            Expr::Item(item) => self.is_read_into(item),
            Expr::Int(_) => false,
            Expr::Truth(_) => false,
            Expr::Un(..) => false,
            Expr::Bin(..) => false,
            Expr::Call(..) => false,
            Expr::List(..) => false,
            Expr::Spread(..) => false,
            Expr::Transpose(_) => false,
            Expr::Reshape(..) => false,
            Expr::Reduce(..) => false,
        }
    }

    fn suits_value(&self, direction: Direction, expr: &Expr) -> bool
        ensures { result ≡ kinds.suits_value (known_uses self.now) direction (expression_of expr.now) }
    {
        match direction {
            Direction::Output => self.suits_output(expr),
            Direction::Input => self.suits_input(expr),
        }
    }

    #[cycle(items)]
    #[tactic(auto, using(crate::proofs::kinds::ItemLaws::item_laws))]
    fn suits_item(&self, direction: Direction, item: &Item) -> bool
        ensures { result ≡ kinds.suits_item (known_uses self.now) direction (item_of item.now) }
    {
        match item {
            Item::One(expr) => self.suits_value(direction, expr),
            Item::Text(_) => takes_text(direction),
            Item::Turns(list, _, first, last, step) => {
                self.suits_items(direction, list) && self.are_numbers(first, last, step)
            }
        }
    }

    /// Whether an input or output list suits.
    #[cycle(items)]
    pub fn suits_items(&self, direction: Direction, list: &Seq<Item>) -> bool
        ensures { result ≡ kinds.suits_items (known_uses self.now) direction (items (map item_of list.now)) }
    {
        for item in list.as_slice() {
            if !self.suits_item(direction, item) {
                return false;
            }
        }
        true
    }
}
