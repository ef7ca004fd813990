//! Answers that hold together.
ghost use Rattle.std.specs.Prelude.{◌↔◌, IsTrue};

pub fn both_true(first: bool, second: bool) -> bool
    ensures { IsTrue result ↔ (IsTrue first × IsTrue second) }
{
    first && second
}

pub fn all_true(first: bool, second: bool, third: bool) -> bool
    ensures { IsTrue result ↔ (IsTrue first × IsTrue second × IsTrue third) }
{
    first && second && third
}
