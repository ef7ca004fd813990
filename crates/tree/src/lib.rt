//! The trees of programs of both dialects, their names, lists and operators.
//!
//! Proved: names, lists and the trees of both dialects; a copy is an equal plain tree (`Expr::copy`, `Block::copy`);
//! each operator and function of values is exact in 128 bits, with its faults (`Op::apply`, `Fun::apply`); one table
//! each of operators, functions, causes of refusal and limits, with what a reader takes as an operator or function
//! being exactly what the table spells (`Op::read77`, `Fun::read77`).
//!
//! **What an operation on values of unsuited kinds gives is said once.** `apply` and `call` are total, in the
//! definitions and in the code: constants and machines share them, and no definition above needs a premise on kinds.
#![tactic(auto)]

mod arguments;
mod declarations;
mod exprs;
mod functions;
mod gathered;
mod limits;
mod lists;
mod names;
mod ops;
mod programs;
mod refusals;
mod results;
mod stmts;
mod width;

pub use arguments::Arguments;
pub use declarations::{copy_decl, copy_decls};
pub use exprs::{Expr, Ref, Sub, Turn};
pub use functions::{Fun, Intrinsic, Red};
pub use gathered::Gathered;
pub use limits::{
    ARRAY_DIMENSIONS, ARRAY_ELEMENTS, BLOCK_DEPTH_77, BLOCK_DEPTH_90, CONTINUATION_LINES,
    DECK_BYTES, DECK_BYTES_90, EXPRESSION_DEPTH_77, EXPRESSION_DEPTH_90, FORM_COEFFICIENT,
    GREATEST_LITERAL, NEST_DEPTH, NEST_REFERENCES, NEST_STATEMENTS, PROGRAM_NAMES_77,
    PROGRAM_NAMES_90, SOURCE_BYTES,
};
pub use lists::{Memory, Seq};
pub use names::Name;
pub use ops::{Fault, Kind, OPERATORS, Op, Value};
pub use programs::{Decl, Dim, Extent, Line, Program77, Program90};
pub use refusals::{Cause, Refusal, Refused};
pub use results::{both, three};
pub use stmts::{Arm, Block, Item, Mark, Stmt, copy_text};
pub use width::Width;
