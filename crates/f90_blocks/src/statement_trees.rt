//! Statements of Fortran 90 with the trees of their expressions (ISO/IEC 1539:1991, sections 6.3, 7.5, 8 and 9.4).
ghost use Rattle.f90_blocks.specs.statement_trees.Uncut.{LiteralsStay, FitTreesStay, KindsStay};

mod expressions;
mod items;
mod nodes;
mod statements;

pub use nodes::StatementTree;
pub use statements::statement_tree;

/// Where no literal is too great, the literals of a tree are held as they are.
pub fn literals_stay()
    ensures { LiteralsStay }
{}

/// Then a tree is held as it is where each dimension of SPREAD is below 2^64.
pub fn fit_trees_stay()
    ensures { FitTreesStay }
{}

/// So it is where its kinds and ranks suit, or those of what is held of it (ISO/IEC 1539:1991, section 13.13.104).
pub fn kinds_stay()
    ensures { KindsStay }
{}
