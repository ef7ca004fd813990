//! Laws of statements that were mapped, and of symbols that come in. A law is a function without a body: its contract
//! is what holds.
ghost use Rattle.statement_passes.specs.Laws.{MappedNestHas, NamesStayInOrder, ShiftedHasNumber, ShiftedHasText};
ghost use Rattle.statement_passes.specs.Laws.{ShiftedIsAffine, ShiftedIsForm, ShiftedRunsAlike, ShiftedTripHasText};
ghost use Rattle.statement_passes.specs.Laws.{SymbolLeavesNest};

/// What stands in a nest whose statements were mapped.
pub fn mapped_standings()
    ensures { MappedNestHas }
{}

/// A symbol that comes in leaves the statements of a nest as they are, and its loops but for their trips' places.
pub fn symbol_standings()
    ensures standings { SymbolLeavesNest }
    ensures runs { ShiftedRunsAlike }
{}

/// Symbols stay in byte order.
pub fn symbol_order()
    ensures { NamesStayInOrder }
{}

/// A form is written as it was, by the new list.
pub fn shifted_text()
    ensures form { ShiftedHasText }
    ensures trip { ShiftedTripHasText }
{}

/// It stays a form within the limits, and one of the new list.
pub fn shifted_form()
    ensures form { ShiftedIsForm }
    ensures affine { ShiftedIsAffine }
{}

/// It has the number that it had, whatever the new symbol is.
pub fn shifted_number()
    ensures { ShiftedHasNumber }
{}
