//! A law is a function without a body: its contract is what holds.
ghost use Rattle.prepared_passes.specs.symbols.Laws.{FoundNestIsOfSource, NestWithSymbolsIsSameButText};
ghost use Rattle.prepared_passes.specs.symbols.Laws.{NestWithSymbolsRunsAlike};
ghost use Rattle.prepared_passes.specs.symbols.Laws.{PreparedNestIsPreparedAnew, SymbolsAreFoundWithAnythingBehind};
ghost use Rattle.tree.specs.declared.width.Width.{Width};

/// The nest with all its symbols comes to the same moment.
pub fn nest_with_symbols_runs_alike()
    ensures { (width : Width) → NestWithSymbolsRunsAlike width }
{}

/// It is the same nest but for its symbols and its texts.
pub fn nest_with_symbols_is_same_but_text()
    ensures { NestWithSymbolsIsSameButText }
{}

/// Its symbols are found whatever stands behind it.
pub fn symbols_are_found_with_anything_behind()
    ensures { SymbolsAreFoundWithAnythingBehind }
{}

/// It is prepared by the same declarations.
pub fn prepared_nest_is_prepared_anew()
    ensures { PreparedNestIsPreparedAnew }
{}

/// What is made of a nest that is found is of its source.
pub fn found_nest_is_of_source()
    ensures { (width : Width) → FoundNestIsOfSource width }
{}
