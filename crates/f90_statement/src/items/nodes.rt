//! A list of PRINT or READ as a list of its parts.
use crate::items::parts::Bounds;
use f90_expressions::Expression;
use tree::{Name, Seq};

/// What a list is for.
#[derive(Clone, Copy, Debug, PartialEq, Eq)]
pub enum Direction {
    Input,
    Output,
}

/// A part of a list, behind the parts that it is made of. `Begin` stands before the items of an implied DO list, and
/// `Turns`, with its variable and its parameters, behind them.
#[derive(Drop)]
pub enum Node {
    Value(Expression),
    Text(Seq<u8>),
    Begin,
    Turns(Name, Bounds),
}

/// A list as it is written, and how deep it is: each implied DO list round an item counts one, up to the first that is
/// too deep.
#[derive(Drop)]
pub struct ItemList {
    pub nodes: Seq<Node>,
    pub depth: u16,
}
