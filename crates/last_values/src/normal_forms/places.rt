//! Places of linear forms.
ghost use Rattle.std.specs.Prelude.{◌≡◌, pos, slice_index_or};
ghost use Rattle.last_values.specs.normal_forms.Combinations.{coefficient_in, number_of_place};

use subscripts::Affine;

/// A place of a form: that of a loop, that of a symbol or a divided trip, or that of the constant.
#[derive(Clone, Copy)]
pub enum Place {
    Loop(usize),
    Symbol(usize),
    Constant,
}

fn coefficient_in(terms: &[(u16, i64)], place: usize) -> i64
    ensures { result ≡ coefficient_in terms.now place }
{
    let Some((first, rest)) = terms.split_first() else {
        return 0;
    };
    if usize::from(first.0) == place {
        return first.1;
    }
    coefficient_in(rest, place)
}

fn loop_coefficient(loops: &[i64], place: usize) -> i64
    ensures { result ≡ slice_index_or loops.now place (pos 0) }
{
    if place >= loops.len() {
        return 0;
    }
    loops[place]
}

impl Place {
    /// The number at this place of a form.
    pub fn of(self, form: &Affine) -> i64
        ensures { result ≡ number_of_place form.now self }
    {
        match self {
            Place::Loop(place) => loop_coefficient(&form.loops, place),
            Place::Symbol(place) => coefficient_in(&form.syms, place),
            Place::Constant => form.constant,
        }
    }
}
