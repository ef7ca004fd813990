//! Whether a statement by itself may stand in array form.
ghost use Rattle.std.specs.Prelude.{◌≡◌};
ghost use Rattle.emission.specs.emission_pieces.Levels.{is_anti, is_held, is_hold_of, is_own, is_recurrent};
ghost use Rattle.emission.specs.emission_pieces.Levels.{may_be_formed};

use crate::nest_emission::pairs::joins;
use dependence_graph::graphs::{Dep, Edge, Hold};

/// Whether the dependence goes from a read to a write.
pub fn is_anti(kind: Dep) -> bool
    ensures { result ≡ is_anti kind }
{
    match kind {
        Dep::Flow => false,
        Dep::Anti => true,
        Dep::Output => false,
    }
}

// A flow or output dependence of the statement on itself that is at work.
fn is_own(level: usize, statement: usize, edge: &Edge) -> bool
    ensures { result ≡ is_own level statement edge.now }
{
    joins(level, statement, statement, edge) && !is_anti(edge.kind)
}

fn is_recurrent(edges: &[Edge], level: usize, statement: usize) -> bool
    ensures { result ≡ is_recurrent edges.now level statement }
{
    edges.iter().any(|edge| is_own(level, statement, edge))
}

// Holds count statements from 1.
fn is_hold_of(level: usize, statement: usize, hold: &Hold) -> bool
    ensures { result ≡ is_hold_of level statement hold.now }
{
    hold.stmt > 0 && (hold.stmt - 1) as usize == statement && hold.level as usize == level
}

fn is_held(holds: &[Hold], level: usize, statement: usize) -> bool
    ensures { result ≡ is_held holds.now level statement }
{
    holds.iter().any(|hold| is_hold_of(level, statement, hold))
}

/// Whether no dependence at work at the level, other than an antidependence, leads from the statement to itself, and
/// nothing holds it there.
pub fn may_be_formed(edges: &[Edge], holds: &[Hold], level: usize, statement: usize) -> bool
    ensures { result ≡ may_be_formed edges.now holds.now level statement }
{
    !is_recurrent(edges, level, statement) && !is_held(holds, level, statement)
}
