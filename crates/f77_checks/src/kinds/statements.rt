//! The kinds of what stands in statements.
ghost use Rattle.std.specs.Prelude.{◌≡◌, [], ◌∷◌, map};
ghost use Rattle.tree.specs.View.{expression_of, reference_of};
ghost use Rattle.f77_grammar.specs.Statement77 as plain;
ghost use Rattle.f77_grammar.specs.program.Kinds as kinds;
ghost use Rattle.f77_grammar.specs.syntax.Views.{bounds_of, entity_of, constant_of, statement_of};
ghost use Rattle.f77_checks.specs.kinds.KnownUses.{known_uses};

use crate::kinds::kind_check::KindCheck;
use f77_grammar::Direction;
use f77_grammar::syntax::{Entity, Stmt77};
use tree::{Expr, Kind, Name, Ref, Seq};

impl KindCheck<'_> {
    // The lower and the upper bound of a dimension are INTEGER values.
    fn is_integer_bound(&self, bound: &(Expr, Expr)) -> bool
        ensures { result ≡ kinds.are_integer_bounds (known_uses self.now) (bounds_of bound.now ∷ []) }
    {
        self.has_kind(&bound.0, Kind::Integer) && self.has_kind(&bound.1, Kind::Integer)
    }

    fn are_integer_bounds(&self, bounds: &Seq<(Expr, Expr)>) -> bool
        ensures { result ≡ kinds.are_integer_bounds (known_uses self.now) (map bounds_of bounds.now) }
    {
        for bound in bounds.as_slice() {
            if !self.is_integer_bound(bound) {
                return false;
            }
        }
        true
    }

    fn have_integer_bounds(&self, entities: &Seq<Entity>) -> bool
        ensures { result ≡ kinds.has_integer_bounds (known_uses self.now) (map entity_of entities.now) }
    {
        for entity in entities.as_slice() {
            if !self.are_integer_bounds(&entity.dims) {
                return false;
            }
        }
        true
    }

    // In PARAMETER each value has the kind of its name.
    fn suit_constants(&self, constants: &Seq<(Name, Expr)>) -> bool
        ensures { result ≡ kinds.suits (known_uses self.now) (plain.Constants (map constant_of constants.now)) }
    {
        for constant in constants.as_slice() {
            if !self.has_kind(&constant.1, self.kind(constant.0)) {
                return false;
            }
        }
        true
    }

    // A scalar, or an element with so many subscripts: no whole array and no call.
    #[tactic(auto, using(crate::proofs::kinds::StatementLaws::stored_laws))]
    fn is_stored_into(&self, name: Name, count: usize) -> bool
        ensures { result ≡ kinds.is_stored_into (known_uses self.now) name count }
    {
        if count == 0 {
            return !self.is_array(name);
        }
        self.is_array(name)
    }

    // What is stored into is no call and no whole array, and has the kind of the right side.
    #[tactic(auto, using(crate::proofs::kinds::StatementLaws::assignment_laws))]
    fn suits_assignment(&self, left: &Ref, right: &Expr) -> bool
        ensures { result ≡ kinds.suits (known_uses self.now)
            (plain.Assign (reference_of left.now) (expression_of right.now)) }
    {
        self.is_stored_into(left.name, left.subs.len())
            && self.are_subscripts(&left.subs)
            && self.has_kind(right, self.kind(left.name))
    }

    /// Whether all in the statement suits, also in the inner one of a logical IF.
    #[tactic(auto, using(crate::proofs::kinds::StatementLaws::statement_laws))]
    pub fn suits(&self, statement: &Stmt77) -> bool
        ensures { result ≡ kinds.suits (known_uses self.now) (statement_of statement.now) }
    {
        match statement {
            Stmt77::Declare(_, entities) => self.have_integer_bounds(entities),
            Stmt77::Dimension(entities) => self.have_integer_bounds(entities),
            Stmt77::Constants(constants) => self.suit_constants(constants),
            Stmt77::Assign(left, right) => self.suits_assignment(left, right),
            Stmt77::Test(condition, inner) => {
                self.has_kind(condition, Kind::Logical) && self.suits(inner)
            }
            Stmt77::If(condition) => self.has_kind(condition, Kind::Logical),
            Stmt77::ElseIf(condition) => self.has_kind(condition, Kind::Logical),
            Stmt77::Do(_, _, first, last, step) => self.are_numbers(first, last, step),
            Stmt77::Read(list) => self.suits_items(Direction::Input, list),
            Stmt77::Print(list) => self.suits_items(Direction::Output, list),
            Stmt77::Program(_) => true,
            Stmt77::ImplicitNone => true,
            Stmt77::Go(_) => true,
            Stmt77::Else => true,
            Stmt77::EndIf => true,
            Stmt77::EndDo => true,
            Stmt77::Continue => true,
            Stmt77::Stop => true,
            Stmt77::End => true,
        }
    }
}
