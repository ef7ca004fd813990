//! The listing of a program, and what stands in the place of its nests: array assignments and loops.
ghost use Rattle.translation.specs.nest_blocks.Laws.{AnswersAreBlocks, AnswersAreListed};
ghost use Rattle.tree.specs.declared.width.Width.{Width};

mod answers;
mod loop_answers;
mod places;

pub use answers::{Answers, program_answers};

/// What the answers to a program's loops list is a listing of the program, with their graphs.
pub fn answers_are_listed()
    ensures { AnswersAreListed }
{}

/// What they put in the place of loops are translations of the program's nests.
pub fn answers_are_blocks()
    ensures { (width : Width) → AnswersAreBlocks width }
{}
