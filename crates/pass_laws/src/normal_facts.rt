//! What array forms and the laws of runs ask of a nest holds of what is made of a nest that was found.
ghost use Rattle.pass_laws.specs.normal_facts.Laws.{NormalNestHasFacts, NormalNestHasFormFacts, NormalNestIsRegular};
ghost use Rattle.tree.specs.declared.width.Width.{Width};

/// Its subscripts and trips are linear as the forms say, and its statements assign what has the kind of their left
/// side.
pub fn normal_nest_has_facts()
    ensures { (width : Width) → NormalNestHasFacts width }
{}

/// The trips of its loops are what is written, and no two of its symbols have one name.
pub fn normal_nest_has_form_facts()
    ensures { (width : Width) → NormalNestHasFormFacts width }
{}

/// Its subscripts are in canonical text, so that each moves with the loops whose variables stand in it.
pub fn normal_nest_is_regular()
    ensures { (width : Width) → NormalNestIsRegular width }
{}
