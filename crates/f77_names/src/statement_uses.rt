//! How names stand in declarations and in whole statements.
ghost use Rattle.std.specs.Prelude.{◌≡◌, ◌++◌, map, OnOk, IfOk};
ghost use Rattle.std.specs.List.{flat_map};
ghost use Rattle.tree.specs.View.{expression_of, reference_of};
ghost use Rattle.f77_grammar.specs.program.Uses as plain;
ghost use Rattle.f77_names.specs.UsesView.{listed};
ghost use Rattle.f77_grammar.specs.syntax.Views.{statement_of, text_of, bounds_of, entity_of, constant_of};

use crate::uses::{Role, Uses};
use f77_grammar::Direction;
use f77_grammar::syntax::{Entity, Labelled, Stmt77};
use std::alloc::Global;
use tree::{Expr, Kind, Memory, Name, Ref, Seq};

impl Uses {
    #[tactic(auto, using(crate::proofs::StatementUseLaws::entity_laws))]
    fn add_bound(&mut self, bound: &(Expr, Expr)) -> Result<(), Memory>
        ensures { OnOk result (listed self.new ≡ listed self.old
            ++ (plain.uses77_in (expression_of bound.now.0) ++ plain.uses77_in (expression_of bound.now.1))) }
    {
        self.add_expr(&bound.0)?;
        self.add_expr(&bound.1)
    }

    /// The uses in the bounds of a name.
    pub(crate) fn add_bounds(&mut self, bounds: &Seq<(Expr, Expr)>) -> Result<(), Memory>
        ensures { OnOk result (listed self.new ≡ listed self.old ++ plain.uses_in_bounds (map bounds_of bounds.now)) }
    {
        for bound in bounds.as_slice() {
            self.add_bound(bound)?;
        }
        Ok(())
    }

    // A name with its bounds, if it has any.
    #[tactic(auto, using(crate::proofs::StatementUseLaws::entity_laws))]
    fn add_dimensions(&mut self, entity: &Entity) -> Result<(), Memory>
        ensures { OnOk result (listed self.new ≡ listed self.old ++ plain.dimensioned_uses (entity_of entity.now)) }
    {
        if entity.dims.is_empty() {
            return Ok(());
        }
        self.note(entity.name, Role::Bounded(entity.dims.len()))?;
        self.add_bounds(&entity.dims)
    }

    #[tactic(auto, using(crate::proofs::StatementUseLaws::entity_laws))]
    fn add_typed_entity(&mut self, kind: Kind, entity: &Entity) -> Result<(), Memory>
        ensures { OnOk result (listed self.new ≡ listed self.old ++ plain.typed_uses kind (entity_of entity.now)) }
    {
        self.note(entity.name, Role::Typed(kind))?;
        self.add_dimensions(entity)
    }

    fn add_typed(&mut self, kind: Kind, entities: &Seq<Entity>) -> Result<(), Memory>
        ensures { OnOk result (listed self.new ≡ listed self.old
            ++ flat_map (plain.typed_uses kind) (map entity_of entities.now)) }
    {
        for entity in entities.as_slice() {
            self.add_typed_entity(kind, entity)?;
        }
        Ok(())
    }

    fn add_dimensioned(&mut self, entities: &Seq<Entity>) -> Result<(), Memory>
        ensures { OnOk result (listed self.new ≡ listed self.old
            ++ flat_map plain.dimensioned_uses (map entity_of entities.now)) }
    {
        for entity in entities.as_slice() {
            self.add_dimensions(entity)?;
        }
        Ok(())
    }

    #[tactic(auto, using(crate::proofs::StatementUseLaws::entity_laws))]
    fn add_constant(&mut self, constant: &(Name, Expr)) -> Result<(), Memory>
        ensures { OnOk result (listed self.new ≡ listed self.old ++ plain.defined_uses (constant_of constant.now)) }
    {
        self.note(constant.0, Role::Defined)?;
        self.add_expr(&constant.1)
    }

    fn add_constants(&mut self, constants: &Seq<(Name, Expr)>) -> Result<(), Memory>
        ensures { OnOk result (listed self.new ≡ listed self.old
            ++ flat_map plain.defined_uses (map constant_of constants.now)) }
    {
        for constant in constants.as_slice() {
            self.add_constant(constant)?;
        }
        Ok(())
    }

    fn add_assignment(&mut self, left: &Ref, right: &Expr) -> Result<(), Memory>
        ensures { OnOk result (listed self.new ≡ listed self.old
            ++ plain.assignment_uses (reference_of left.now) (expression_of right.now)) }
    {
        self.add_target(left)?;
        self.add_expr(right)
    }

    /// The uses in a statement, also in the inner one of a logical IF.
    #[tactic(auto, using(crate::proofs::StatementUseLaws::statement_use_laws))]
    pub(crate) fn add_statement(&mut self, statement: &Stmt77) -> Result<(), Memory>
        ensures { OnOk result (listed self.new ≡ listed self.old ++ plain.uses77_of (statement_of statement.now)) }
    {
        match statement {
            Stmt77::Program(name) => self.note(*name, Role::Title),
            Stmt77::Declare(kind, entities) => self.add_typed(*kind, entities),
            Stmt77::Dimension(entities) => self.add_dimensioned(entities),
            Stmt77::Constants(constants) => self.add_constants(constants),
            Stmt77::Assign(left, right) => self.add_assignment(left, right),
            Stmt77::Test(condition, inner) => {
                self.add_expr(condition)?;
                self.add_statement(inner)
            }
            Stmt77::If(condition) => self.add_expr(condition),
            Stmt77::ElseIf(condition) => self.add_expr(condition),
            Stmt77::Do(_, variable, first, last, step) => {
                self.add_control(*variable, first, last, step)
            }
            Stmt77::Read(list) => self.add_items(Direction::Input, list),
            Stmt77::Print(list) => self.add_items(Direction::Output, list),
            Stmt77::ImplicitNone => Ok(()),
            Stmt77::Go(_) => Ok(()),
            Stmt77::Else => Ok(()),
            Stmt77::EndIf => Ok(()),
            Stmt77::EndDo => Ok(()),
            Stmt77::Continue => Ok(()),
            Stmt77::Stop => Ok(()),
            Stmt77::End => Ok(()),
        }
    }
}

/// The uses of names in a statement, also in the inner one of a logical IF.
pub fn uses_of(alloc: Global, statement: &Stmt77) -> Result<Uses, Memory>
    ensures { IfOk result (λ uses. listed uses ≡ plain.uses77_of (statement_of statement.now)) }
{
    let mut uses = Uses::new(alloc);
    uses.add_statement(statement)?;
    Ok(uses)
}

/// The uses of names in a program, in the order of the text.
pub fn uses_in_text(alloc: Global, text: &[Labelled]) -> Result<Uses, Memory>
    ensures { IfOk result (λ uses. listed uses ≡ plain.uses_in_text (text_of text.now)) }
{
    let mut uses = Uses::new(alloc);
    for statement in text {
        uses.add_statement(&statement.statement)?;
    }
    Ok(uses)
}
