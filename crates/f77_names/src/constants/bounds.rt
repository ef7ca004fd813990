//! Bounds of arrays, and how many elements they make.
ghost use Rattle.std.specs.Prelude.{◌≡◌, ◌||◌, IfOk, map, sum};
ghost use Rattle.std.specs.List.{list_any};
ghost use Rattle.tree.specs.View.{expression_of};
ghost use Rattle.f77_grammar.specs.program.Limits as plain;
ghost use Rattle.f77_grammar.specs.syntax.Views.{bounds_of, entity_of};
ghost use Rattle.f77_names.specs.constants.Constants.{store_of};
ghost use Rattle.meaning.specs.Dialect.{fortran77};
ghost use Rattle.meaning.specs.element_counts.Counts.{capped};
ghost use Rattle.f77_names.specs.constants.Bounds.{paired, has_reversed, has_bad, bounds_in};

use crate::constants::constants::Constants;
use f77_grammar::syntax::Entity;
use meaning::element_counts::{product_of, size_between, sum_of};
use std::alloc::Global;
use tree::{Expr, Fault, Memory};

fn both(lower: Result<i128, Fault>, upper: Result<i128, Fault>) -> Result<(i128, i128), Fault>
    ensures { result ≡ paired lower upper }
{
    Ok((lower?, upper?))
}

fn is_reversed(dimension: Result<(i128, i128), Fault>) -> bool
    ensures { result ≡ plain.is_reversed dimension }
{
    match dimension {
        Ok((lower, upper)) => upper < lower,
        Err(_) => false,
    }
}

fn size(dimension: Result<(i128, i128), Fault>) -> u64
    ensures { result ≡ capped (plain.size_in dimension) }
{
    match dimension {
        Ok((lower, upper)) => size_between(lower, upper),
        Err(_) => 0,
    }
}

impl Constants {
    /// The numbers that two bounds have, or the first fault.
    pub(crate) fn dimension(
        &self,
        alloc: Global,
        bounds: &(Expr, Expr),
    ) -> Result<Result<(i128, i128), Fault>, Memory>
        ensures { IfOk result (λ dimension.
            dimension ≡ plain.dimension_of (fortran77 self.now.width) (store_of self.now) (bounds_of bounds.now)) }
    {
        let lower = self.number(alloc, &bounds.0)?;
        let upper = self.number(alloc, &bounds.1)?;
        Ok(both(lower, upper))
    }

    fn has_reversed(&self, alloc: Global, dims: &[(Expr, Expr)]) -> Result<bool, Memory>
        ensures { IfOk result
            (λ found. found ≡ has_reversed self.now.width (store_of self.now) (map bounds_of dims.now)) }
    {
        for bounds in dims {
            if is_reversed(self.dimension(alloc, bounds)?) {
                return Ok(true);
            }
        }
        Ok(false)
    }

    /// Whether an upper bound is below its lower bound.
    pub(crate) fn any_reversed(&self, alloc: Global, entities: &[Entity]) -> Result<bool, Memory>
        ensures { IfOk result (λ found.
            found ≡ list_any (has_reversed self.now.width (store_of self.now)) (bounds_in
            (map entity_of entities.now))) }
    {
        for entity in entities {
            if self.has_reversed(alloc, entity.dims.as_slice())? {
                return Ok(true);
            }
        }
        Ok(false)
    }

    fn is_bad(&self, alloc: Global, bounds: &(Expr, Expr)) -> Result<bool, Memory>
        ensures { IfOk result (λ bad.
            bad ≡ (plain.is_no_constant (fortran77 self.now.width) (store_of self.now) (expression_of bounds.now.0)
            || plain.is_no_constant (fortran77 self.now.width) (store_of self.now) (expression_of bounds.now.1))) }
    {
        let lower = self.constant_value(alloc, &bounds.0)?;
        let upper = self.constant_value(alloc, &bounds.1)?;
        Ok(lower.is_err() || upper.is_err())
    }

    fn has_bad(&self, alloc: Global, dims: &[(Expr, Expr)]) -> Result<bool, Memory>
        ensures { IfOk result (λ found. found ≡ has_bad self.now.width (store_of self.now) (map bounds_of dims.now)) }
    {
        for bounds in dims {
            if self.is_bad(alloc, bounds)? {
                return Ok(true);
            }
        }
        Ok(false)
    }

    /// Whether a bound faults, or leaves the range of INTEGER.
    pub(crate) fn any_bad(&self, alloc: Global, entities: &[Entity]) -> Result<bool, Memory>
        ensures { IfOk result (λ found.
            found ≡ list_any (has_bad self.now.width (store_of self.now)) (bounds_in (map entity_of entities.now))) }
    {
        for entity in entities {
            if self.has_bad(alloc, entity.dims.as_slice())? {
                return Ok(true);
            }
        }
        Ok(false)
    }

    fn product(&self, alloc: Global, dims: &[(Expr, Expr)]) -> Result<u64, Memory>
        ensures { IfOk result (λ count.
            count ≡ capped (plain.product_of_sizes (fortran77 self.now.width) (store_of self.now)
            (map bounds_of dims.now))) }
    {
        let mut product = 1;
        for bounds in dims {
            let size = size(self.dimension(alloc, bounds)?);
            product = product_of(product, size);
        }
        Ok(product)
    }

    fn elements(&self, alloc: Global, dims: &[(Expr, Expr)]) -> Result<u64, Memory>
        ensures { IfOk result (λ count.
            count ≡ capped (plain.elements (fortran77 self.now.width) (store_of self.now) (map bounds_of dims.now))) }
    {
        match dims {
            [] => Ok(0),
            [..] => self.product(alloc, dims),
        }
    }

    /// The elements of these arrays, or one more than the most where there are more.
    pub(crate) fn all_elements(&self, alloc: Global, entities: &[Entity]) -> Result<u64, Memory>
        ensures { IfOk result (λ count.
            count ≡ capped (sum (map (plain.elements (fortran77 self.now.width) (store_of self.now)) (bounds_in
            (map entity_of entities.now))))) }
    {
        let mut count = 0;
        for entity in entities {
            count = sum_of(count, self.elements(alloc, entity.dims.as_slice())?);
        }
        Ok(count)
    }
}
