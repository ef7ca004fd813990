//! The literals of an expression, and whether it is too deep.
ghost use Rattle.std.specs.Prelude.{◌≡◌, ◌+◌, ◌*◌};
ghost use Rattle.std.specs.List.{list_any};
ghost use Rattle.std.specs.Char.{digit_value};
ghost use Rattle.f90_grammar.specs.Contents.{has_wide_literal90, is_deep};
ghost use Rattle.f90_grammar.specs.Phrases.{Phrase90};
ghost use Rattle.f90_expressions.specs.Literals.{is_wide_node, narrow, value_in};
ghost use Rattle.f90_expressions.specs.Reading.{IsMadeOf};
ghost use Rattle.f90_expressions.specs.Views.{node_seen, nodes_seen};

use crate::nodes::{Expression, Node};
use tree::{EXPRESSION_DEPTH_90, GREATEST_LITERAL};

// The value of a digit, in any base; decimal digits alone come here.
fn digit_value(c: u8) -> u8
    ensures { result ≡ digit_value c }
{
    match c {
        b'0'..=b'9' => c - b'0',
        b'A'..=b'Z' => c - b'A' + 10,
        b'a'..=b'z' => c - b'a' + 10,
        _ => 36,
    }
}

// A literal's value with one more digit, where it is within 2^127-1.
fn with_digit(value: u128, digit: u8) -> Option<u128>
    ensures { result ≡ narrow (10 * value + digit) }
{
    let units = u128::from(digit);
    if value > (GREATEST_LITERAL as u128 - units) / 10 {
        return None;
    }
    Some(10 * value + units)
}

/// The value of a literal's digits, where it is at most 2^127-1.
#[tactic(auto, using(crate::proofs::LiteralLaws::values))]
pub fn literal(digits: &[u8]) -> Option<u128>
    ensures { result ≡ value_in digits.now }
{
    let mut value = 0;
    for c in digits {
        let Some(more) = with_digit(value, digit_value(*c)) else {
            return None;
        };
        value = more;
    }
    Some(value)
}

fn is_wide(node: &Node) -> bool
    ensures { result ≡ is_wide_node (node_seen node.now) }
{
    match node {
        Node::Digits(digits) => literal(digits.as_slice()).is_none(),
        Node::Truth(_) => false,
        Node::Name(_) => false,
        Node::Parenthesis => false,
        Node::Prefix(_) => false,
        Node::Infix(_) => false,
        Node::One => false,
        Node::Bounds => false,
        Node::Stride => false,
        Node::Begin => false,
        Node::Listed(_) => false,
        Node::Values => false,
        Node::Inner(_) => false,
        Node::Outer(_) => false,
        Node::Looped => false,
    }
}

fn has_wide(nodes: &[Node]) -> bool
    ensures { result ≡ list_any is_wide_node (nodes_seen nodes.now) }
{
    for node in nodes {
        if is_wide(node) {
            return true;
        }
    }
    false
}

impl Expression {
    /// Whether one of its literals is above 2^127-1.
    #[tactic(auto, using(crate::proofs::LiteralLaws::has_wide_is))]
    pub fn has_wide_literal(&self) -> bool
        ensures { (p : Phrase90) → IsMadeOf self.now p → result ≡ has_wide_literal90 p }
    {
        has_wide(self.nodes.as_slice())
    }

    /// Whether it is more than 1,000 deep.
    #[tactic(auto, using(crate::proofs::LiteralLaws::deep_is))]
    pub fn is_deep(&self) -> bool
        ensures { (p : Phrase90) → IsMadeOf self.now p → result ≡ is_deep p }
    {
        self.depth > EXPRESSION_DEPTH_90
    }
}
