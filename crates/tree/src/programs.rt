//! Declarations and programs.
use crate::{Block, Kind, Name, Seq};

/// The bounds of one dimension.
#[derive(Clone, Copy, Debug, PartialEq, Eq)]
pub struct Dim {
    pub lower: i64,
    pub upper: i64,
}

/// A scalar, an array of fixed bounds, or an allocatable array with its number of dimensions.
#[derive(Drop)]
pub enum Extent {
    Scalar,
    Fixed(Seq<Dim>),
    Later(usize),
}

#[derive(Drop)]
pub struct Decl {
    pub name: Name,
    pub kind: Kind,
    pub extent: Extent,
}

/// A FORTRAN 77 program. The declarations stand in byte order of their names.
#[derive(Drop)]
pub struct Program77 {
    pub name: Option<Name>,
    pub decls: Seq<Decl>,
    pub body: Block,
}

/// A Fortran 90 program. The declarations stand in byte order of their names.
#[derive(Drop)]
pub struct Program90 {
    pub name: Option<Name>,
    pub decls: Seq<Decl>,
    pub body: Block,
}

/// A line of text, without its end.
#[derive(Drop)]
pub struct Line {
    pub text: Seq<u8>,
}
