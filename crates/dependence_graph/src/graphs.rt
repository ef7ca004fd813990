//! Dependences between the statements of a nest (Allen and Kennedy, "Optimizing Compilers for Modern Architectures",
//! chapter 2), and what keeps a statement from array form.
use subscripts::{Dirs, Point, Test};
use tree::{Name, Seq};

/// A reference: the number of its statement, and its place among the statement's references.
#[derive(Clone, Copy, Debug, PartialEq, Eq)]
pub struct Place {
    pub stmt: u32,
    pub at: u32,
}

/// True dependence from a write to a read, antidependence from a read to a write, or output dependence between writes.
#[derive(Clone, Copy, Debug, PartialEq, Eq)]
pub enum Dep {
    Flow,
    Anti,
    Output,
}

/// A dependence from one reference to another. `level` is that of the loop that carries it, from the outside in from 1,
/// or 0 where it is loop independent. `pair` has iterations of the two at which they meet, where such are known.
#[derive(Clone, Copy, Debug)]
pub struct Edge {
    pub from: Place,
    pub to: Place,
    pub kind: Dep,
    pub array: Name,
    pub dirs: Dirs,
    pub level: u8,
    pub test: Test,
    pub pair: Option<(Point, Point)>,
}

/// Two references that were tested, and are independent in these directions.
#[derive(Clone, Copy, Debug)]
pub struct Dropped {
    pub from: Place,
    pub to: Place,
    pub kind: Dep,
    pub array: Name,
    pub dirs: Dirs,
    pub test: Test,
}

/// What keeps a statement in its loops.
#[derive(Clone, Copy, Debug, PartialEq, Eq)]
pub enum HoldReason {
    /// Its left side is no array form.
    Form,
    /// The trip of one of its loops varies with another.
    Triangle,
    /// A guard may keep a subscript within its bounds.
    Bounds,
}

/// A statement that has no array form from this loop on, which counts from the outside in from 1.
#[derive(Clone, Copy, Debug, PartialEq, Eq)]
pub struct Hold {
    pub stmt: u32,
    pub level: u8,
    pub reason: HoldReason,
}

/// A closed walk over statements of a loop, by dependences of this level or more.
#[derive(Drop)]
pub struct Cycle {
    pub level: u8,
    pub stmts: Seq<u32>,
}

/// The dependences of a nest with so many statements.
#[derive(Drop)]
pub struct Graph {
    pub stmts: u32,
    pub edges: Seq<Edge>,
    pub dropped: Seq<Dropped>,
}
