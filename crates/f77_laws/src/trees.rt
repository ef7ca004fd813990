//! The tree of a FORTRAN 77 program is a relation between its statements and a block.
//!
//! Proved (laws): which block statements form is a relation, in the words of the standard: a block is one unit after
//! another; a unit is a statement alone, a block IF up to its END IF, a DO with its range, or a DO with a block and its
//! END DO. Statements form at most one block, whatever they are; where each label stands once nothing is nested wrongly
//! exactly where they form one, and that block is the body of what is computed from the last statement back; so the
//! program that is read, which is the tree by the relation, is what is computed (`statements_form_one_tree`). The
//! labels that loops have are given from the last statement back, too; nothing is nested wrongly with them exactly
//! where the statements are closed as they are written, an END DO closing the nearest DO or block IF that is open
//! (`end_do_closes_nearest`). Every list of the statements of a program is read as a program or has one refusal, never
//! both (`text_is_read_or_refused`). That an END IF ends a block IF is a relation, too: all between them are paired.
//! Each has one partner at most, and it has one exactly where the definitions that count say so; what these give as
//! standing since an open block IF, or outside those that have ended, is what stands there; in a block all are paired
//! (`each_block_if_has_one_end_if`).
//!
//! **What block statements form is a relation.** A program that is read is the tree of its statements in the words of
//! the standard (`AreBlock`, `IsTreeOf`): a block is one unit after another, and a unit a statement alone, a block IF
//! with all up to its END IF, a DO with its range, or a DO with a block and its END DO. What the code computes goes
//! from the last statement back; that is a definition of f77_laws::trees (`Steps`), which no reader has to believe,
//! since laws there say that there is at most one such block, and that it is the one computed. The same for the END IF
//! that ends a block IF, which causes find by counting, and for the END DO that closes a DO, by whose label loops are
//! told (`Written`).
mod laws;

pub use laws::{
    each_block_if_has_one_end_if, end_do_closes_nearest, statements_form_one_tree,
    text_is_read_or_refused,
};
