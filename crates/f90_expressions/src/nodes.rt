//! An expression as a list of its parts.
use reading::Sign;
use tree::{Name, Op, Seq};

/// A part of an expression, behind the parts that it is made of.
#[derive(Drop)]
pub enum Node {
    /// A literal, by its digits.
    Digits(Seq<u8>),
    Truth(bool),
    Name(Name),
    Parenthesis,
    Prefix(Sign),
    Infix(Op),
    /// A part of a list that is a value.
    One,
    /// A section with its two bounds.
    Bounds,
    /// A section with its stride too.
    Stride,
    /// The parts of a list, or the values or the turn of a constructor, stand behind it.
    Begin,
    Listed(Name),
    Values,
    /// A turn, with its variable, whose body is a value.
    Inner(Name),
    /// A turn whose body is a turn.
    Outer(Name),
    /// A constructor that is a turn.
    Looped,
}

/// An expression as it is written, and how deep it is: operators but plus signs, parentheses and lists on a path count
/// one each, up to the first that is too deep.
#[derive(Drop)]
pub struct Expression {
    pub nodes: Seq<Node>,
    pub depth: u16,
}
