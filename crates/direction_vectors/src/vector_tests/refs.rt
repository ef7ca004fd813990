//! Two references that are tested.
use subscripts::{Pairing, Span};
use tree::Seq;

/// Two references to one variable, the first and the second, each with the loops round it.
#[derive(Drop)]
pub struct RefPair {
    /// Their subscripts, in pairs. A scalar has none.
    pub subs: Seq<Pairing>,
    /// The spans of the loops round the first reference, from the outside in.
    pub from_spans: Seq<Span>,
    /// The spans of the loops round the second reference.
    pub to_spans: Seq<Span>,
    /// How many loops stand round both. They are the first loops of each.
    pub common: u8,
    /// Whether the two may meet in one turn of all common loops: the first statement stands earlier in the text.
    pub same_turn: bool,
}
