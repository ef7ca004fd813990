//! Laws of a nest and the expanded one, each in a place of its own. A law is a function without a body: its contract is
//! what holds.
ghost use Rattle.prepared_passes.specs.expansion.Found.{ArrayNamesAreApart, FoundNestHasExpandedDeclarations};
ghost use Rattle.prepared_passes.specs.expansion.Found.{FoundNestHasMadeNames, FoundNestHasNoPrivateScalars};
ghost use Rattle.prepared_passes.specs.expansion.Found.{FoundNestIsExpandedInPlaces, RangeNamesAreApart};
ghost use Rattle.prepared_passes.specs.expansion.FreeBehind.{FoundNestIsFreeBehind};
ghost use Rattle.prepared_passes.specs.expansion.Places.{ExpandedNestHasGuardedNames, ExpandedNestIsBegunBefore};
ghost use Rattle.tree.specs.declared.width.Width.{Width};

/// From each moment at which an expanded nest may be run there is one before expansion, from which the nest's run is
/// followed by that of the expanded nest.
pub fn expanded_nest_is_begun_before()
    ensures { (width : Width) → ExpandedNestIsBegunBefore width }
{}

/// Its guarded statements name elements of its arrays whatever their guards are.
pub fn expanded_nest_has_guarded_names()
    ensures { (width : Width) → ExpandedNestHasGuardedNames width }
{}

/// What stands behind the loops of a found nest with masks gives no value to a private scalar, and reads none.
pub fn found_nest_is_free_behind()
    ensures { (width : Width) → FoundNestIsFreeBehind width }
{}

/// A found nest with masks has a place before expansion, made of that in which the expanded nest stands.
pub fn found_nest_is_expanded_in_places()
    ensures { (width : Width) → FoundNestIsExpandedInPlaces width }
{}

/// There are declarations by which the expanded nest is prepared.
pub fn found_nest_has_expanded_declarations()
    ensures { (width : Width) → FoundNestHasExpandedDeclarations width }
{}

/// Where a private scalar of a found nest with masks still stands as a scalar in the expanded one, its element is
/// copied to it.
pub fn found_nest_has_no_private_scalars()
    ensures { (width : Width) → FoundNestHasNoPrivateScalars width }
{}

/// What passes made for the expanded nest has the names of its masks, and names of arrays by the nest's number.
pub fn found_nest_has_made_names()
    ensures { (width : Width) → FoundNestHasMadeNames width }
{}

/// No two nests of a program have arrays of one name.
pub fn array_names_are_apart()
    ensures { ArrayNamesAreApart }
{}

/// No two nests of a program have ranges of one name.
pub fn range_names_are_apart()
    ensures { RangeNamesAreApart }
{}
