//! Whether an expression is a variable, an element, an array or a section.
ghost use Rattle.std.specs.Prelude.{◌≡◌, ◌+◌, ◌<◌, ◌≤◌, ◌^◌, ◌==◌, ◌↔◌, IsTrue, IfSome, if◌then◌else◌};
ghost use Rattle.f90_grammar.specs.Items.{IsReference90, IsVariable};
ghost use Rattle.f90_grammar.specs.Phrases.{Phrase90};
ghost use Rattle.f90_expressions.specs.Reading.{IsMadeOf};
ghost use Rattle.f90_expressions.specs.Views.{node_seen, nodes_seen};
ghost use Rattle.f90_statement.specs.items.parts.Variables.{names, is_named, open_behind, has_section, is_plain};

use f90_expressions::{Expression, Node};

fn names(node: &Node) -> bool
    ensures { result ≡ names (node_seen node.now) }
{
    match node {
        Node::Name(_) | Node::Listed(_) => true,
        Node::Digits(_) | Node::Truth(_) | Node::Parenthesis | Node::Prefix(_) => false,
        Node::Infix(_) | Node::One | Node::Bounds | Node::Stride | Node::Begin => false,
        Node::Values | Node::Inner(_) | Node::Outer(_) | Node::Looped => false,
    }
}

#[tactic(auto, using(crate::proofs::items::OfParts::VariableLaws::lists))]
fn is_named(nodes: &[Node]) -> bool
    ensures { result ≡ is_named (nodes_seen nodes.now) }
{
    match nodes.split_last() {
        Some((last, _)) => names(last),
        None => false,
    }
}

// How many lists are open behind a part, or none where it is a section in the outermost list.
fn open_behind(node: &Node, level: usize) -> Option<usize>
    requires { level + 1 < 2 ^ 64 }
    ensures next { result ≡ open_behind (node_seen node.now) level }
    ensures bound { IfSome result (λ next. next ≤ level + 1) }
{
    match node {
        Node::Begin => Some(level + 1),
        Node::Listed(_) => Some(level.saturating_sub(1)),
        Node::Values => Some(level.saturating_sub(1)),
        Node::Looped => Some(level.saturating_sub(1)),
        Node::Bounds => inner(level),
        Node::Stride => inner(level),
        Node::Digits(_) => Some(level),
        Node::Truth(_) => Some(level),
        Node::Name(_) => Some(level),
        Node::Parenthesis => Some(level),
        Node::Prefix(_) => Some(level),
        Node::Infix(_) => Some(level),
        Node::One => Some(level),
        Node::Inner(_) => Some(level),
        Node::Outer(_) => Some(level),
    }
}

fn inner(level: usize) -> Option<usize>
    ensures next { result ≡ (if level == 1 then None else Some level) }
    ensures bound { IfSome result (λ next. next ≤ level + 1) }
{
    if level == 1 { None } else { Some(level) }
}

// Whether a section stands in the outermost list.
fn has_section(nodes: &[Node]) -> bool
    ensures { result ≡ has_section (nodes_seen nodes.now) 0 }
{
    let mut level = 0usize;
    for node in nodes {
        let Some(next) = open_behind(node, level) else {
            return true;
        };
        level = next;
    }
    false
}

fn is_plain(nodes: &[Node]) -> bool
    ensures { result ≡ is_plain (nodes_seen nodes.now) }
{
    is_named(nodes) && !has_section(nodes)
}

/// Whether an expression is a name, or a name with a list.
pub fn is_reference(expression: &Expression) -> bool
    ensures { (p : Phrase90) → IsMadeOf expression.now p → IsTrue result ↔ IsReference90 p }
{
    is_named(expression.nodes.as_slice())
}

/// Whether an expression is a name, or a name with a list in which no section stands.
pub fn is_variable(expression: &Expression) -> bool
    ensures { (p : Phrase90) → IsMadeOf expression.now p → IsTrue result ↔ IsVariable p }
{
    is_plain(expression.nodes.as_slice())
}
