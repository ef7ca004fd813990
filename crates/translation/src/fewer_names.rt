//! A block of the profile is one with fewer declarations, as long as all its names are declared.
ghost use Rattle.translation.specs.fewer_names.Laws.{BlockWithFewerNames};

/// Declarations of names that don't stand in a block may be left out.
pub fn block_with_fewer_names()
    ensures { BlockWithFewerNames }
{}
