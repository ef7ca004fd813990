//! Laws of the blocks that statements form (ISO/IEC 1539:1991, section 8.1).
//!
//! Proved: statements in order form a block (`statements_form_body`), and one alone (`one_block`); the labels that its
//! jumps name are those that the statements name (`targets_are_named`); what is wrong with labels, jumps and DO
//! variables in the blocks of a text is told at each statement from what stands before and behind it
//! (`misplaced_is_at_place`).
ghost use Rattle.f90_laws.specs.blocks.Blocks.{TargetsAreNamed, BodyForms, OneBlock, OneBody};
ghost use Rattle.f90_laws.specs.blocks.Places.{MisplacedIsAtPlace};

/// The labels that the GO TOs of a block name are those that its statements name.
pub fn targets_are_named()
    ensures { TargetsAreNamed }
{}

/// Statements in order form the block of a program (ISO/IEC 1539:1991, section 2.3).
pub fn statements_form_body()
    ensures { BodyForms }
{}

/// Statements form one block.
pub fn one_block()
    ensures block { OneBlock }
    ensures body { OneBody }
{}

/// What is wrong with labels, jumps and DO variables is told at each statement from what stands before and behind it.
pub fn misplaced_is_at_place()
    ensures { MisplacedIsAtPlace }
{}
