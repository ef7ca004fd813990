//! The class of a subscript pair.
ghost use Rattle.std.specs.Prelude.{◌≡◌, ◌⊎◌, ℤ, pos};
ghost use Rattle.subscripts.specs.Classes.{HasClass};
ghost use Rattle.subscripts.specs.Found.{HasFound, with_loop, IsSivClass};
ghost use Rattle.subscripts.specs.Shapes.{IsPairing, IsSmall};

use crate::pairing::{Class, Pairing};

/// The loops found that have a coefficient: none, one with these two coefficients, or several.
#[derive(Clone, Copy)]
enum Found {
    Nothing,
    One(i64, i64),
    Several,
}

impl Found {
    // With one more loop, which has these coefficients.
    fn with(self, first: i64, second: i64) -> Found
        ensures { result ≡ with_loop self first second }
    {
        if first == 0 && second == 0 {
            return self;
        }
        match self {
            Found::Nothing => Found::One(first, second),
            Found::One(_, _) => Found::Several,
            Found::Several => Found::Several,
        }
    }
}

impl Pairing {
    // The loops that have a coefficient.
    fn loops(&self) -> Found
        requires { IsPairing self.now }
        ensures { HasFound self.now result }
    {
        let mut found = Found::Nothing;
        for k in 0..7 {
            let first = self.from.loops[k];
            let second = self.to.loops[k];
            if k < usize::from(self.common) {
                found = found.with(first, second);
            } else {
                found = found.with(first, 0).with(0, second);
            }
        }
        found
    }
}

// The class of a single index variable with these coefficients, not both 0.
fn siv_class(first: i64, second: i64) -> Class
    requires { IsSmall second }
    ensures { IsSivClass result first second }
{
    if first == 0 || second == 0 {
        return Class::WeakZero;
    }
    if first == second {
        return Class::Strong;
    }
    if first == -second {
        return Class::WeakCrossing;
    }
    Class::GeneralSiv
}

/// The class of a subscript pair (Goff, Kennedy and Tseng 1991, section 2).
pub fn classify(p: &Pairing) -> Class
    requires { IsPairing p.now }
    ensures { HasClass p.now result }
{
    if !p.known {
        return Class::Unknown;
    }
    if !p.symbols_cancel() {
        return Class::Miv;
    }
    match p.loops() {
        Found::Nothing => Class::Ziv,
        Found::One(first, second) => siv_class(first, second),
        Found::Several => Class::Miv,
    }
}
