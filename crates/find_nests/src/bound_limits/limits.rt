//! The limits of forms.
ghost use Rattle.std.specs.Prelude.{◌≡◌, ◌≤◌, ◌^◌, ◌*ℤ◌, ◌&&◌, pos, nat_abs, int_div, int_le, true, IfOk};
ghost use Rattle.find_nests.specs.bound_limits.Limits.{keeps_limits, dividend, end_keeps_limits, all_keep_limits};
ghost use Rattle.find_nests.specs.bound_limits.Limits.{is_constant_form, normal, difference, plus_constant, folded};
ghost use Rattle.find_nests.specs.bound_limits.View.{wide_form_of, IsSized};

use crate::bound_limits::forms::WideForm;
use crate::bound_limits::numbers::{all_small, is_small, negated, not_zero, plus_multiple};
use std::alloc::Global;
use tree::Memory;

// The trip where what is divided is this constant.
fn folded(top: i128, step: i128) -> i128
    requires top { nat_abs top ≤ 2 ^ 40 }
    requires step { (1 ≤ nat_abs step) × (nat_abs step ≤ 2 ^ 31) }
    ensures value { result ≡ int_div top (pos (nat_abs step)) }
    ensures size { nat_abs result ≤ 2 ^ 40 }
{
    top / step.abs()
}

fn rises(step: i128) -> bool
    ensures { result ≡ int_le (pos 0) step }
{
    step >= 0
}

impl WideForm {
    fn is_constant(&self) -> bool
        ensures { result ≡ is_constant_form (wide_form_of self.now) }
    {
        not_zero(self.coefficients.as_slice()) == 0
    }

    // Whether it is within the limits, where it has so many symbols, and divided trips beside.
    fn keeps_limits(&self, symbols: usize, trips: usize) -> bool
        requires { trips ≤ 1 }
        ensures { result ≡ keeps_limits symbols trips (wide_form_of self.now) }
    {
        let list = self.coefficients.as_slice();
        let (front, back) = list.split_at(symbols.min(list.len()));
        let few_symbols = not_zero(front) + trips <= 8;
        let few_loops = not_zero(back) <= 7;
        all_small(list) && (is_small(self.constant) && (few_symbols && few_loops))
    }

    // The form less another one, and a number.
    fn span(&self, alloc: Global, other: &WideForm, more: i128) -> Result<WideForm, Memory>
        requires left { IsSized (2 ^ 107) (wide_form_of self.now) }
        requires right { IsSized (2 ^ 107) (wide_form_of other.now) }
        requires more { nat_abs more ≤ 2 ^ 31 }
        ensures { IfOk result (λ form. wide_form_of form
            ≡ plus_constant (difference (wide_form_of self.now) (wide_form_of other.now)) more) }
    {
        let form = self.plus(alloc, -1, other)?;
        let moved = form.plus_constant(alloc, more)?;
        Ok(moved)
    }

    // What is divided to get the trip of a loop from this bound to the last one.
    fn dividend(&self, alloc: Global, step: i128, last: &WideForm) -> Result<WideForm, Memory>
        requires first { IsSized (2 ^ 107) (wide_form_of self.now) }
        requires last { IsSized (2 ^ 107) (wide_form_of last.now) }
        requires step { nat_abs step ≤ 2 ^ 31 }
        ensures { IfOk result (λ top. wide_form_of top
            ≡ dividend step (wide_form_of self.now) (wide_form_of last.now)) }
    {
        if rises(step) {
            let up = last.span(alloc, self, step)?;
            return Ok(up);
        }
        let down = self.span(alloc, last, negated(step))?;
        Ok(down)
    }

    // The last value of a loop's variable, where the trip is constant.
    fn folded_end(&self, alloc: Global, step: i128, top: &WideForm) -> Result<WideForm, Memory>
        requires first { IsSized (2 ^ 40) (wide_form_of self.now) }
        requires top { IsSized (2 ^ 40) (wide_form_of top.now) }
        requires step { (1 ≤ nat_abs step) × (nat_abs step ≤ 2 ^ 31) }
        ensures { IfOk result (λ end. wide_form_of end
            ≡ plus_constant (wide_form_of self.now) (step *ℤ folded step (wide_form_of top.now))) }
    {
        let trip = folded(top.constant, step);
        Ok(WideForm {
            coefficients: Vec::from_slice(alloc, self.coefficients.as_slice())?,
            constant: plus_multiple(self.constant, step, trip),
        })
    }

    // Whether the last value of a loop's variable is within the limits.
    fn end_keeps_limits(
        &self,
        alloc: Global,
        symbols: usize,
        step: i128,
        top: &WideForm,
    ) -> Result<bool, Memory>
        requires first { IsSized (2 ^ 40) (wide_form_of self.now) }
        requires top { IsSized (2 ^ 40) (wide_form_of top.now) }
        requires step { (1 ≤ nat_abs step) × (nat_abs step ≤ 2 ^ 31) }
        ensures { IfOk result (λ kept. kept
            ≡ end_keeps_limits symbols step (wide_form_of self.now) (wide_form_of top.now)) }
    {
        if top.is_constant() {
            let end = self.folded_end(alloc, step, top)?;
            return Ok(end.keeps_limits(symbols, 0));
        }
        if step.unsigned_abs() == 1 {
            let end = self.plus(alloc, step, top)?;
            return Ok(end.keeps_limits(symbols, 0));
        }
        Ok(self.keeps_limits(symbols, 1))
    }

    // Whether all three are within the limits.
    fn keeps_limits_with(&self, less: &WideForm, top: &WideForm, symbols: usize) -> bool
        ensures { result ≡ (keeps_limits symbols 0 (wide_form_of self.now)
            && (keeps_limits symbols 0 (wide_form_of less.now) && keeps_limits symbols 0 (wide_form_of top.now))) }
    {
        self.keeps_limits(symbols, 0)
            && (less.keeps_limits(symbols, 0) && top.keeps_limits(symbols, 0))
    }

    /// Whether the forms of a loop from this bound to the last one are within the limits.
    pub(crate) fn all_keep_limits(
        &self,
        alloc: Global,
        symbols: usize,
        step: i128,
        last: &WideForm,
    ) -> Result<bool, Memory>
        requires first { IsSized (2 ^ 107) (wide_form_of self.now) }
        requires last { IsSized (2 ^ 107) (wide_form_of last.now) }
        requires step { (1 ≤ nat_abs step) × (nat_abs step ≤ 2 ^ 31) }
        ensures value { IfOk result (λ kept. kept
            ≡ all_keep_limits symbols step (wide_form_of self.now) (wide_form_of last.now)) }
        ensures small { IfOk result (λ kept. kept ≡ true → IsSized (2 ^ 40) (wide_form_of self.now)) }
    {
        let less = self.plus_constant(alloc, negated(step))?;
        let top = self.dividend(alloc, step, last)?;
        let three = self.keeps_limits_with(&less, &top, symbols);
        if !three {
            return Ok(false);
        }
        let kept = self.end_keeps_limits(alloc, symbols, step, &top)?;
        Ok(kept)
    }

    /// A loop from this bound in its iterations, which have the place.
    pub(crate) fn normal(&self, alloc: Global, place: usize, step: i128) -> Result<WideForm, Memory>
        requires first { IsSized (2 ^ 40) (wide_form_of self.now) }
        requires step { nat_abs step ≤ 2 ^ 31 }
        ensures value { IfOk result (λ form. wide_form_of form ≡ normal place step (wide_form_of self.now)) }
        ensures size { IfOk result (λ form. IsSized (2 ^ 41) (wide_form_of form)) }
    {
        let iterations = WideForm::unit(alloc, place)?;
        let turns = self.plus(alloc, step, &iterations)?;
        let form = turns.plus_constant(alloc, negated(step))?;
        Ok(form)
    }
}
