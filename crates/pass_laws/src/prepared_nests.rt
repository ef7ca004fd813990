//! Which nests are prepared, and that what graphs, orders, array forms and emission ask of a nest holds of each such
//! one.
ghost use Rattle.pass_laws.specs.prepared_nests.Laws.{NormalNestHasParts, NormalNestIsBranched, NormalNestIsPrepared};
ghost use Rattle.pass_laws.specs.prepared_nests.Laws.{PreparedNestHasFacts, PreparedNestHasFormFacts};
ghost use Rattle.pass_laws.specs.prepared_nests.Laws.{PreparedNestIsReady};
ghost use Rattle.pass_laws.specs.prepared_nests.Laws.{PreparedNestIsRegular, PreparedNestMayBeEmitted};
ghost use Rattle.tree.specs.declared.width.Width.{Width};

/// What is made of a nest that is found in a program of FORTRAN 77 has prepared parts, also where IFs stand in it.
pub fn normal_nest_has_parts()
    ensures { (width : Width) → NormalNestHasParts width }
{}

/// So it is prepared with its IFs and jumps.
pub fn normal_nest_is_branched()
    ensures { (width : Width) → NormalNestIsBranched width }
{}

/// It is prepared without them where it has loops and statements alone.
pub fn normal_nest_is_prepared()
    ensures { (width : Width) → NormalNestIsPrepared width }
{}

/// A prepared nest may be tested for dependences.
pub fn prepared_nest_is_ready()
    ensures { PreparedNestIsReady }
{}

/// It may be emitted from, by its graph.
pub fn prepared_nest_may_be_emitted()
    ensures { PreparedNestMayBeEmitted }
{}

/// Its subscripts are in canonical text, so that each moves with the loops whose variables stand in it.
pub fn prepared_nest_is_regular()
    ensures { PreparedNestIsRegular }
{}

/// Its subscripts and trips are linear as the forms say, and its statements assign what has the kind of their left
/// side.
pub fn prepared_nest_has_facts()
    ensures { PreparedNestHasFacts }
{}

/// The trips of its loops are what is written, and no two of its symbols have one name.
pub fn prepared_nest_has_form_facts()
    ensures { PreparedNestHasFormFacts }
{}
