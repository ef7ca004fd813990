//! Each nest that is found has a nest with loops from 1 by 1.
ghost use Rattle.pass_laws.specs.normal_nests.Form.{FoundNestHasNormalForm};
ghost use Rattle.pass_laws.specs.normal_nests.There.{NormalisedIsThere};

/// A nest that is found has a nest with loops from 1 by 1: the forms of its loops are within the limits.
pub fn normalised_nest()
    ensures { NormalisedIsThere }
{}

/// And that is one loop.
pub fn found_nest_has_normal_form()
    ensures { FoundNestHasNormalForm }
{}
