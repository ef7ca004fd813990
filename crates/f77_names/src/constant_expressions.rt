//! Constant expressions: their names are symbolic constants that are defined before (ANSI X3.9-1978, sections 5.1, 6.7
//! and 8.6).
ghost use Rattle.std.specs.Prelude.{◌≡◌, ◌++◌, List, ℕ, IfOk, OnOk, map};
ghost use Rattle.std.specs.List.{list_any};
ghost use Rattle.f77_grammar.specs.program.Declarations.{has_list, has_unknown, bounds_of_entities};
ghost use Rattle.f77_grammar.specs.program.Declarations.{defines_from_unknown, has_unknown_constant};
ghost use Rattle.f77_grammar.specs.syntax.Views.{statement_of, entity_of, constant_of};
ghost use Rattle.f77_names.specs.Seen.{is_unknown_use, AreDefined};
ghost use Rattle.f77_names.specs.UsesView.{role_of, plain_use, listed};

use crate::names::Names;
use crate::uses::{Role, Use, Uses};
use f77_grammar::syntax::{Entity, Stmt77};
use std::alloc::Global;
use tree::{Expr, Fun, Memory, Name};

impl Role {
    // A list in parentheses follows the name.
    fn is_listed(self) -> bool
        ensures { result ≡ has_list (role_of self) }
    {
        match self {
            Role::Valued(count) => count != 0,
            Role::Target(count) => count != 0,
            Role::Title => false,
            Role::Typed(_) => false,
            Role::Bounded(_) => false,
            Role::Defined => false,
            Role::Counter => false,
        }
    }
}

impl Uses {
    // The uses in the bounds of all these names.
    fn add_all_bounds(&mut self, entities: &[Entity]) -> Result<(), Memory>
        ensures { OnOk result (listed self.new ≡ listed self.old ++ bounds_of_entities (map entity_of entities.now)) }
    {
        for entity in entities {
            self.add_bounds(&entity.dims)?;
        }
        Ok(())
    }
}

impl Names {
    // In a constant expression the name is no symbolic constant defined before or, by `own`, earlier in the same
    // statement.
    fn is_unknown(&self, own: &Names, used: &Use) -> bool
        ensures { result ≡ is_unknown_use self.now own.now (plain_use used.now) }
    {
        let is_defined = own.facts(used.name).constant || self.facts(used.name).constant;
        !is_defined || (used.role.is_listed() && Fun::read77(used.name.text()).is_none())
    }

    fn has_unknown(&self, own: &Names, uses: &[Use]) -> bool
        ensures { result ≡ list_any (is_unknown_use self.now own.now) (map plain_use uses.now) }
    {
        for used in uses {
            if self.is_unknown(own, used) {
                return true;
            }
        }
        false
    }

    // A constant is defined by a name that isn't defined before it.
    fn defines_from_unknown(
        &self,
        alloc: Global,
        constants: &[(Name, Expr)],
    ) -> Result<bool, Memory>
        ensures { IfOk result (λ unknown. (defined : List (List ℕ)) → AreDefined self.now defined
            → unknown ≡ defines_from_unknown defined (map constant_of constants.now)) }
    {
        let mut own = Names::new(alloc);
        for constant in constants {
            let mut value = Uses::new(alloc);
            value.add_expr(&constant.1)?;
            if self.has_unknown(&own, value.as_slice()) {
                return Ok(true);
            }
            own.note(constant.0, Role::Defined)?;
        }
        Ok(false)
    }

    // A bound has a name that isn't defined before.
    fn bounds_from_unknown(&self, alloc: Global, entities: &[Entity]) -> Result<bool, Memory>
        ensures { IfOk result (λ unknown. (defined : List (List ℕ)) → AreDefined self.now defined
            → unknown ≡ has_unknown defined (bounds_of_entities (map entity_of entities.now))) }
    {
        let own = Names::new(alloc);
        let mut bounds = Uses::new(alloc);
        bounds.add_all_bounds(entities)?;
        Ok(self.has_unknown(&own, bounds.as_slice()))
    }

    // The statement defines by a name that isn't defined before, in a bound or in the value of a constant.
    pub(crate) fn has_unknown_constant(
        &self,
        alloc: Global,
        statement: &Stmt77,
    ) -> Result<bool, Memory>
        ensures { IfOk result (λ unknown. (defined : List (List ℕ)) → AreDefined self.now defined
            → unknown ≡ has_unknown_constant defined (statement_of statement.now)) }
    {
        let in_bounds = self.bounds_from_unknown(alloc, statement.entities())?;
        let in_values = self.defines_from_unknown(alloc, statement.definitions())?;
        Ok(in_bounds || in_values)
    }
}
