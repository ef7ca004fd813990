//! Statements as they are written.
use crate::items::ItemList;
use crate::items::parts::Bounds;
use f90_expressions::Expression;
use tree::{Kind, Name, Seq};

/// A bound of a declared array: a literal with an optional sign.
#[derive(Clone, Copy, Debug)]
pub struct Bound {
    pub is_negative: bool,
    /// The value of its digits, where it is at most 2^127-1.
    pub magnitude: Option<u128>,
}

/// A dimension of a declared array: its upper bound, both bounds, or none where it is allocatable.
#[derive(Clone, Copy, Debug)]
pub enum Dimension {
    Upper(Bound),
    Both(Bound, Bound),
    Deferred,
}

/// A declared name, with its dimensions if it is an array.
#[derive(Drop)]
pub struct Entity {
    pub name: Name,
    pub dimensions: Seq<Dimension>,
}

/// A statement that may stand in a logical IF (ISO/IEC 1539:1991, section 8.1.2.4).
#[derive(Drop)]
pub enum Action {
    Assign(Expression, Expression),
    /// A GO TO, with its label.
    Go(u32),
    /// A CONTINUE without a label.
    Continue,
    Stop,
    /// A READ, with its list if it has one.
    Read(Option<ItemList>),
    /// A PRINT, with its list if it has one.
    Print(Option<ItemList>),
}

/// A statement.
#[derive(Drop)]
pub enum Statement {
    Program(Name),
    ImplicitNone,
    /// A type declaration, and whether its names are allocatable arrays.
    Declare(Kind, bool, Seq<Entity>),
    Act(Action),
    /// A CONTINUE with a label.
    Label(u32),
    Where(Expression, Expression, Expression),
    /// A logical IF.
    Test(Expression, Action),
    If(Expression),
    ElseIf(Expression),
    Else,
    EndIf,
    Do(Name, Bounds),
    EndDo,
    /// An ALLOCATE with its extents.
    Allocate(Name, Seq<Expression>),
    Deallocate(Name),
    End,
    /// An END PROGRAM, with a name if one is written.
    EndProgram(Option<Name>),
}
