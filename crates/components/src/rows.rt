//! What each number leads to.
ghost use Rattle.std.specs.Prelude.{◌≡◌, [], replicate, IfOk};
ghost use Rattle.components.specs.Reachability.{AreBelow};
ghost use Rattle.components.specs.Targets.{AreTargets};

use std::alloc::Global;
use tree::{Memory, Seq};

/// So many empty lists.
pub fn empty_rows(alloc: Global, n: usize) -> Result<Vec<Seq<usize>>, Memory>
    ensures { IfOk result (λ rows. rows.items ≡ replicate n []) }
{
    let mut rows = Vec::new(alloc);
    for _number in 0..n {
        rows.push(Seq::new(alloc))?;
    }
    Ok(rows)
}

/// What each number below `n` leads to by the pairs, in the order of the pairs.
pub fn rows_of(alloc: Global, n: usize, pairs: &[(usize, usize)]) -> Result<Vec<Seq<usize>>, Memory>
    requires { AreBelow n pairs.now }
    ensures { IfOk result (λ rows. AreTargets n pairs.now rows.items) }
{
    let mut rows = empty_rows(alloc, n)?;
    for &(from, to) in pairs {
        rows[from].push(to)?;
    }
    Ok(rows)
}
