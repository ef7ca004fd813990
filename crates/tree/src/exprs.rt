//! Expressions and references (ANSI X3.9-1978, sections 5 and 6; of arrays ISO/IEC 1539:1991, 4.5, 6.2 and 13).
ghost use Rattle.std.specs.Prelude.{◌≡◌, IfOk, map};
ghost use Rattle.tree.specs.View.{expression_of, subscript_of, reference_of, loop_of};

use crate::{Fun, Memory, Name, Op, Red, Seq, both, three};
use std::alloc::Global;

/// An expression. A literal isn't negative. The last five are forms of Fortran 90.
#[derive(Drop)]
#[cycle(expr)]
pub enum Expr {
    Int(i128),
    Truth(bool),
    Item(Ref),
    Un(Op, Box<Expr>),
    Bin(Op, Box<Expr>, Box<Expr>),
    Call(Fun, Seq<Expr>),
    /// A constructor: its values, under its loops.
    List(Seq<Expr>, Seq<Turn>),
    /// The array, the new dimension and its extent.
    Spread(Box<Expr>, usize, Box<Expr>),
    Transpose(Box<Expr>),
    /// The array and the new extents.
    Reshape(Box<Expr>, Seq<Expr>),
    Reduce(Red, Box<Expr>),
}

/// A loop of a constructor. The innermost one stands first.
#[derive(Drop)]
#[cycle(expr)]
pub struct Turn {
    pub var: Name,
    pub first: Expr,
    pub last: Expr,
}

/// A scalar or a whole array, which have no subscripts, an element or a section.
#[derive(Drop)]
#[cycle(expr)]
pub struct Ref {
    pub name: Name,
    pub subs: Seq<Sub>,
}

/// A subscript: a value, or the lower bound, the upper bound and the stride of a section.
#[derive(Drop)]
#[cycle(expr)]
pub enum Sub {
    One(Expr),
    Part(Expr, Expr, Expr),
}

impl Expr {
    /// An equal expression.
    #[cycle(expr_copy)]
    #[tactic(auto, using(crate::proofs::Equations::expression_equations))]
    pub fn copy(&self, alloc: Global) -> Result<Expr, Memory>
        ensures { IfOk result (λ copy. expression_of copy ≡ expression_of self.now) }
    {
        match self {
            Expr::Int(number) => Ok(Expr::Int(*number)),
            Expr::Truth(truth) => Ok(Expr::Truth(*truth)),
            Expr::Item(item) => Ok(Expr::Item(item.copy(alloc)?)),
            Expr::Un(op, a) => Ok(Expr::Un(*op, copy_box(a, alloc)?)),
            Expr::Bin(op, a, b) => Ok(Expr::Bin(*op, copy_box(a, alloc)?, copy_box(b, alloc)?)),
            Expr::Call(function, arguments) => {
                Ok(Expr::Call(*function, copy_all(arguments, alloc)?))
            }
            Expr::List(values, loops) => Ok(Expr::List(
                copy_all(values, alloc)?,
                copy_loops(loops, alloc)?,
            )),
            Expr::Spread(array, dimension, extent) => Ok(Expr::Spread(
                copy_box(array, alloc)?,
                *dimension,
                copy_box(extent, alloc)?,
            )),
            Expr::Transpose(array) => Ok(Expr::Transpose(copy_box(array, alloc)?)),
            Expr::Reshape(array, extents) => Ok(Expr::Reshape(
                copy_box(array, alloc)?,
                copy_all(extents, alloc)?,
            )),
            Expr::Reduce(reduction, array) => {
                Ok(Expr::Reduce(*reduction, copy_box(array, alloc)?))
            }
        }
    }
}

#[cycle(expr_copy)]
fn copy_box(expr: &Expr, alloc: Global) -> Result<Box<Expr>, Memory>
    ensures { IfOk result (λ copy. expression_of copy.value ≡ expression_of expr.now) }
{
    let copy = expr.copy(alloc)?;
    Ok(Box::new(alloc, copy)?)
}

#[cycle(expr_copy)]
pub(crate) fn copy_all(exprs: &Seq<Expr>, alloc: Global) -> Result<Seq<Expr>, Memory>
    ensures { IfOk result (λ copies. map expression_of copies ≡ map expression_of exprs.now) }
{
    let mut copies = Seq::new(alloc);
    for expr in exprs.as_slice() {
        copies.push(expr.copy(alloc)?)?;
    }
    Ok(copies)
}

#[cycle(expr_copy)]
fn copy_loops(loops: &Seq<Turn>, alloc: Global) -> Result<Seq<Turn>, Memory>
    ensures { IfOk result (λ copies. map loop_of copies ≡ map loop_of loops.now) }
{
    let mut copies = Seq::new(alloc);
    for turn in loops.as_slice() {
        copies.push(turn.copy(alloc)?)?;
    }
    Ok(copies)
}

impl Turn {
    #[cycle(expr_copy)]
    #[tactic(auto, using(crate::proofs::Equations::expression_equations))]
    fn copy(&self, alloc: Global) -> Result<Turn, Memory>
        ensures { IfOk result (λ copy. loop_of copy ≡ loop_of self.now) }
    {
        let (first, last) = both(self.first.copy(alloc), self.last.copy(alloc))?;
        Ok(Turn {
            var: self.var,
            first,
            last,
        })
    }
}

impl Ref {
    #[cycle(expr_copy)]
    #[tactic(auto, using(crate::proofs::Equations::expression_equations))]
    pub(crate) fn copy(&self, alloc: Global) -> Result<Ref, Memory>
        ensures { IfOk result (λ copy. reference_of copy ≡ reference_of self.now) }
    {
        let mut subs = Seq::new(alloc);
        for sub in self.subs.as_slice() {
            subs.push(sub.copy(alloc)?)?;
        }
        Ok(Ref {
            name: self.name,
            subs,
        })
    }
}

impl Sub {
    #[cycle(expr_copy)]
    #[tactic(auto, using(crate::proofs::Equations::expression_equations))]
    fn copy(&self, alloc: Global) -> Result<Sub, Memory>
        ensures { IfOk result (λ copy. subscript_of copy ≡ subscript_of self.now) }
    {
        match self {
            Sub::One(expr) => Ok(Sub::One(expr.copy(alloc)?)),
            Sub::Part(lower, upper, stride) => {
                let (lower, upper, stride) = three(
                    lower.copy(alloc),
                    upper.copy(alloc),
                    stride.copy(alloc),
                )?;
                Ok(Sub::Part(lower, upper, stride))
            }
        }
    }
}
