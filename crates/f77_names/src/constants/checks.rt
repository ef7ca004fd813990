//! Checks of the values of symbolic constants and bounds.
ghost use Rattle.std.specs.Prelude.{◌≡◌, IfOk, map, is_none};
ghost use Rattle.std.specs.List.{list_any};
ghost use Rattle.meaning.specs.Store.{Store};
ghost use Rattle.f77_grammar.specs.program.Limits.{has_reversed_bounds, has_many_elements, has_bad_constant};
ghost use Rattle.f77_grammar.specs.syntax.First.{first_index};
ghost use Rattle.f77_grammar.specs.syntax.Views.{text_of, constant_of};
ghost use Rattle.f77_names.specs.constants.Constants.{AreValues, store_of};
ghost use Rattle.meaning.specs.Dialect.{fortran77};
ghost use Rattle.f77_names.specs.constants.Bounds.{lacks_value};

use crate::constants::constants::Constants;
use f77_grammar::syntax::Labelled;
use meaning::element_counts::sum_of;
use std::alloc::Global;
use tree::{ARRAY_ELEMENTS, Expr, Memory, Name};

/// The place of the first statement with an upper bound below its lower bound.
pub fn reversed_bounds(
    alloc: Global,
    text: &[Labelled],
    constants: &Constants,
) -> Result<Option<usize>, Memory>
    ensures { (s : Store) → AreValues constants.now s
        → IfOk result (λ place. place ≡ first_index (has_reversed_bounds (fortran77 constants.now.width) s)
        (text_of text.now)) }
{
    for (i, statement) in text.iter().enumerate() {
        if constants.any_reversed(alloc, statement.statement.entities())? {
            return Ok(Some(i));
        }
    }
    Ok(None)
}

/// The place of the statement at which the arrays declared so far first have too many elements.
pub fn many_elements(
    alloc: Global,
    text: &[Labelled],
    constants: &Constants,
) -> Result<Option<usize>, Memory>
    ensures { (s : Store) → AreValues constants.now s
        → IfOk result (λ place. place ≡ first_index (has_many_elements (fortran77 constants.now.width) s)
        (text_of text.now)) }
{
    let mut count = 0;
    for (i, statement) in text.iter().enumerate() {
        let here = constants.all_elements(alloc, statement.statement.entities())?;
        count = sum_of(count, here);
        if count > ARRAY_ELEMENTS {
            return Ok(Some(i));
        }
    }
    Ok(None)
}

impl Constants {
    fn is_without_value(&self, name: Name) -> bool
        ensures { result ≡ is_none ((store_of self.now).bounds name) }
    {
        match self.value(name) {
            None => true,
            Some(_) => false,
        }
    }

    fn lacks_value(&self, constants: &[(Name, Expr)]) -> bool
        ensures { result ≡ lacks_value (store_of self.now) (map constant_of constants.now) }
    {
        for constant in constants {
            if self.is_without_value(constant.0) {
                return true;
            }
        }
        false
    }
}

/// The place of the first statement with a symbolic constant or a bound that faults, or leaves the range of INTEGER.
pub fn bad_constant(
    alloc: Global,
    text: &[Labelled],
    constants: &Constants,
) -> Result<Option<usize>, Memory>
    ensures { (s : Store) → AreValues constants.now s
        → IfOk result (λ place. place ≡ first_index (has_bad_constant (fortran77 constants.now.width) s)
        (text_of text.now)) }
{
    for (i, statement) in text.iter().enumerate() {
        if constants.lacks_value(statement.statement.definitions()) {
            return Ok(Some(i));
        }
        if constants.any_bad(alloc, statement.statement.entities())? {
            return Ok(Some(i));
        }
    }
    Ok(None)
}
