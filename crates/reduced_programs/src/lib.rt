//! Laws: a reduced program as a whole, without the declarations that it no longer needs.
//!
//! A law is a function without a body: its contract is what holds.
#![tactic(auto)]

ghost use Rattle.reduced_programs.specs.Marks.{ReducedProgramKeepsMarks};
ghost use Rattle.reduced_programs.specs.Names.{SourceNamesStay};
ghost use Rattle.reduced_programs.specs.Whole.{ReducedProgramIsProgram, WholeProgramKeepsMeaning};
ghost use Rattle.tree.specs.declared.width.Width.{Width};

/// A reduced program is one of the profile, where the expressions of the program given leave room for four levels more.
pub fn reduced_program_is_program()
    ensures { ReducedProgramIsProgram }
{}

/// And it keeps the meaning that the program given keeps.
pub fn reduced_program_keeps_meaning()
    ensures { (width : Width) → WholeProgramKeepsMeaning width }
{}

/// Its marked statements are those of the program given, in their order. One that isn't gathered stays as it is, with
/// what stands round it; a form has the mark of the statement in its loop, one level further out.
pub fn reduced_program_keeps_marks()
    ensures { ReducedProgramKeepsMarks }
{}

/// What declares made names beside those of a source has the source's names: the meaning that it keeps is kept.
pub fn source_names_stay()
    ensures { SourceNamesStay }
{}
