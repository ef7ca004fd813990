//! Lists one behind the other.
ghost use Rattle.std.specs.Prelude.{◌≡◌, ◌++◌, OnOk};

use tree::{Memory, Seq};

pub(crate) fn add<T: Drop>(all: &mut Vec<T>, more: Seq<T>) -> Result<(), Memory>
    ensures { OnOk result (all.new.items ≡ all.old.items ++ more) }
{
    all.append(&mut more.into_vec())?;
    Ok(())
}
