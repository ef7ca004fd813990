//! Programs in which loops that gather have their forms. A law is a function without a body: its contract is what
//! holds.
ghost use Rattle.reduction_laws.specs.blocks.Meaning.{ReducedKeepsMeaning};
ghost use Rattle.reduction_laws.specs.blocks.Profile.{ReducedIsProgram};
ghost use Rattle.reduction_laws.specs.blocks.Reduced.{ReducedBlockFollows};
ghost use Rattle.tree.specs.declared.width.Width.{Width};

/// Where the statements of a program meet no fault, those with forms in place of loops go the same way, but for made
/// variables that nobody reads outside the bodies of their own loops.
pub fn reduced_block()
    ensures { ReducedBlockFollows }
{}

/// Where a program keeps the meaning of a source, so does the program with forms in place of loops, without the
/// declarations of made names that no longer stand in it.
pub fn reduced_program()
    ensures { (width : Width) → ReducedKeepsMeaning width }
{}

/// The program with forms in place of loops is one of the profile, where the expressions leave room for four levels
/// more.
pub fn reduced_profile()
    ensures { ReducedIsProgram }
{}
