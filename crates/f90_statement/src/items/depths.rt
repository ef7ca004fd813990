//! How deep a list is.
ghost use Rattle.std.specs.Prelude.{◌≡◌, [], List, Option, IfOk, reverse};
ghost use Rattle.f90_grammar.specs.Phrases.{Phrase90};
ghost use Rattle.f90_expressions.specs.Machine.{deeper};
ghost use Rattle.f90_statement.specs.items.Depths.{depth_of_bounds, levels, with_part, with_parts};
ghost use Rattle.f90_statement.specs.items.Flat as flats;
ghost use Rattle.f90_statement.specs.items.Views.{IsNodeOf, AreNodesOf};
ghost use Rattle.f90_statement.specs.items.parts.Bounds.{AreBoundsOf};

use crate::items::nodes::Node;
use crate::items::parts::Bounds;
use std::alloc::Global;
use tree::{EXPRESSION_DEPTH_90, Memory};

// A depth is counted up to here: it is too deep.
const DEPTH_COUNTED: u16 = EXPRESSION_DEPTH_90 + 1;

fn deepened(depth: u16) -> u16
    ensures { result ≡ deeper depth }
{
    depth.saturating_add(1).min(DEPTH_COUNTED)
}

fn bounds_depth(bounds: &Bounds) -> u16
    ensures { (a b : Phrase90) (c : Option Phrase90) → AreBoundsOf bounds.now a b c → result ≡ depth_of_bounds a b c }
{
    let step = match &bounds.step {
        Some(step) => step.depth,
        None => 0,
    };
    bounds.first.depth.max(bounds.last.depth).max(step)
}

// The depth in the innermost list, with one part more. The list round it stands last.
fn with_node(outer: &mut Vec<u16>, inner: u16, node: &Node) -> Result<u16, Memory>
    ensures { (part : flats.Node) → IsNodeOf node.now part → IfOk result (λ depth.
        with_part part (levels inner (reverse outer.old.items)) ≡ levels depth (reverse outer.new.items)) }
{
    match node {
        Node::Value(expression) => Ok(inner.max(expression.depth)),
        Node::Text(_) => Ok(inner),
        Node::Begin => {
            outer.push(inner)?;
            Ok(0)
        }
        Node::Turns(_, bounds) => {
            let depth = deepened(inner.max(bounds_depth(bounds)));
            match outer.pop() {
                Some(outside) => Ok(outside.max(depth)),
                None => Ok(depth),
            }
        }
    }
}

/// How deep a list with these parts is.
pub(crate) fn depth(alloc: Global, nodes: &[Node]) -> Result<u16, Memory>
    ensures { (parts : List flats.Node) → AreNodesOf nodes.now parts → IfOk result (λ depth.
        depth ≡ (with_parts parts (levels 0 [])).inner) }
{
    let mut outer = Vec::new(alloc);
    let mut inner = 0;
    'parts: for node in nodes {
        inner = with_node(&mut outer, inner, node)?;
    }
    Ok(inner)
}
