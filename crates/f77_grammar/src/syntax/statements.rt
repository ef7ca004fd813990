//! Statements as they stand on their cards.
ghost use Rattle.std.specs.Prelude.{◌≡◌};
ghost use Rattle.f77_grammar.specs.program.Text.{action};
ghost use Rattle.f77_grammar.specs.syntax.Views.{statement_of};

use tree::{Expr, Item, Kind, Name, Ref, Seq};

/// A name in a type statement or a DIMENSION, with the lower and the upper bound of each dimension.
#[derive(Drop)]
pub struct Entity {
    pub name: Name,
    pub dims: Seq<(Expr, Expr)>,
}

/// A statement of FORTRAN 77. A name with a list in parentheses stands as a reference.
#[derive(Drop)]
pub enum Stmt77 {
    Program(Name),
    ImplicitNone,
    Declare(Kind, Seq<Entity>),
    Dimension(Seq<Entity>),
    Constants(Seq<(Name, Expr)>),
    Assign(Ref, Expr),
    Go(u32),
    /// A logical IF.
    Test(Expr, Box<Stmt77>),
    If(Expr),
    ElseIf(Expr),
    Else,
    EndIf,
    /// The label of its last statement, where one is written, its variable and its three parameters.
    Do(Option<u32>, Name, Expr, Expr, Expr),
    EndDo,
    Continue,
    Stop,
    Read(Seq<Item>),
    Print(Seq<Item>),
    End,
}

/// A statement with the label and the line of its card.
#[derive(Drop)]
pub struct Labelled {
    pub label: Option<u32>,
    pub line: u32,
    pub statement: Stmt77,
}

impl Stmt77 {
    /// What the statement does: of a logical IF, its inner statement.
    #[tactic(auto, using(crate::proofs::syntax::Equations::statement_equations))]
    pub fn action(&self) -> &Stmt77
        ensures { statement_of result.now ≡ action (statement_of self.now) }
    {
        match self {
            Stmt77::Test(_, inner) => inner.action(),
            statement => statement,
        }
    }
}
