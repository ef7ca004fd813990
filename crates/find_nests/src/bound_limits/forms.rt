//! Linear forms with large coefficients, and their sums.
ghost use Rattle.std.specs.Prelude.{◌≡◌, ◌<◌, ◌+◌, ◌^◌, nat_abs, IfOk};
ghost use Rattle.linear_forms.specs.Linear.{sum, multiple};
ghost use Rattle.linear_forms.specs.Places.{unit_form};
ghost use Rattle.find_nests.specs.bound_limits.Limits.{plus_constant};
ghost use Rattle.find_nests.specs.bound_limits.View.{wide_form_of, CanAdd};

use crate::bound_limits::numbers::{combined, plus, plus_multiple};
use crate::bound_limits::places::unit;
use std::alloc::Global;
use tree::Memory;

/// A sum of symbols and loops with coefficients, and a constant. The places are those of the symbols, and behind them
/// the loops from the outside in.
#[derive(Drop)]
pub struct WideForm {
    pub coefficients: Vec<i128>,
    pub constant: i128,
}

impl WideForm {
    /// The form and so many times another one.
    pub(crate) fn plus(
        &self,
        alloc: Global,
        times: i128,
        other: &WideForm,
    ) -> Result<WideForm, Memory>
        requires { CanAdd (wide_form_of self.now) times (wide_form_of other.now) }
        ensures { IfOk result (λ form. wide_form_of form
            ≡ sum (wide_form_of self.now) (multiple times (wide_form_of other.now))) }
    {
        Ok(WideForm {
            coefficients: combined(
                alloc,
                self.coefficients.as_slice(),
                times,
                other.coefficients.as_slice(),
            )?,
            constant: plus_multiple(self.constant, times, other.constant),
        })
    }

    pub(crate) fn plus_constant(&self, alloc: Global, number: i128) -> Result<WideForm, Memory>
        requires { nat_abs self.now.constant + nat_abs number < 2 ^ 127 }
        ensures { IfOk result (λ form. wide_form_of form ≡ plus_constant (wide_form_of self.now) number) }
    {
        Ok(WideForm {
            coefficients: Vec::from_slice(alloc, self.coefficients.as_slice())?,
            constant: plus(self.constant, number),
        })
    }

    /// The loop or the symbol at a place.
    pub(crate) fn unit(alloc: Global, place: usize) -> Result<WideForm, Memory>
        ensures { IfOk result (λ form. wide_form_of form ≡ unit_form place) }
    {
        Ok(WideForm {
            coefficients: unit(alloc, place)?,
            constant: 0,
        })
    }
}
