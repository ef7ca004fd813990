//! The classes of a part of a nest at a level.
ghost use Rattle.std.specs.Prelude.{◌≡◌, ◌<◌, All, IfOk, length, map, slice_index};
ghost use Rattle.components.specs.Emission.{statements_of_classes};
ghost use Rattle.components.specs.Lists.{Distinct};
ghost use Rattle.emission.specs.emission_pieces.Levels.{AreComponents};

use crate::nest_emission::pairs::pairs_at;
use components::components;
use dependence_graph::graphs::Edge;
use std::alloc::Global;
use tree::{Memory, Seq};

// The statements in these places of a part.
fn statements_in(alloc: Global, part: &[usize], places: &[usize]) -> Result<Seq<usize>, Memory>
    requires { All (λ place. place < length part.now) places.now }
    ensures { IfOk result (λ class. class ≡ map (slice_index part.now) places.now) }
{
    let mut class = Seq::new(alloc);
    for place in places {
        class.push(part[*place])?;
    }
    Ok(class)
}

fn statements_of(
    alloc: Global,
    part: &[usize],
    order: &[Seq<usize>],
) -> Result<Seq<Seq<usize>>, Memory>
    requires { All (λ places. All (λ place. place < length part.now) places) order.now }
    ensures { IfOk result (λ classes. classes ≡ statements_of_classes part.now order.now) }
{
    let mut classes = Seq::new(alloc);
    for places in order {
        classes.push(statements_in(alloc, part, places.as_slice())?)?;
    }
    Ok(classes)
}

/// The statements of a part in classes, within each of which they lead to one another by the dependences at work at
/// this level, in topological order; of several that may come next the one with the least statement.
pub fn classes_at(
    alloc: Global,
    part: &[usize],
    edges: &[Edge],
    level: usize,
) -> Result<Seq<Seq<usize>>, Memory>
    requires { Distinct part.now }
    ensures { IfOk result (λ classes. AreComponents edges.now level part.now classes) }
{
    let pairs = pairs_at(alloc, part, edges, level)?;
    let order = components(alloc, part.len(), pairs.as_slice())?;
    statements_of(alloc, part, order.members.as_slice())
}
