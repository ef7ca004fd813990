//! How wide INTEGER is.
ghost use Rattle.std.specs.Prelude.{◌≡◌};
ghost use Rattle.tree.specs.Operators.{fits};
ghost use Rattle.tree.specs.Widths.{bits_of};

/// The range of INTEGER, for the run of a program.
#[derive(Clone, Copy, Debug, PartialEq, Eq)]
pub enum Width {
    /// 32 bits: from -2^31 to 2^31 - 1.
    Plain,
    /// 64 bits: from -2^63 to 2^63 - 1.
    Wide,
}

impl Width {
    /// The bits beside the sign.
    pub fn bits(self) -> u32
        ensures { result ≡ bits_of self }
    {
        match self {
            Width::Plain => 31,
            Width::Wide => 63,
        }
    }

    /// Whether INTEGER holds the number.
    pub fn holds(self, number: i128) -> bool
        ensures { result ≡ fits (bits_of self) number }
    {
        match self {
            Width::Plain => i32::try_from(number).is_ok(),
            Width::Wide => i64::try_from(number).is_ok(),
        }
    }
}
