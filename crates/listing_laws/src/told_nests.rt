//! What a reader of a listing knows of each nest: the graph that its entries tell.
//!
//! Proved (laws): the entries that are listed of a nest by a graph tell that graph again, with its edges and their
//! pairs, its drops and its statements (`graph_is_told`), so in a whole listing nest by nest (`nests_are_told`). Cut
//! before each NEST and KEEP entry they are those of the program's nests and kept loops; they tell just the holds; and
//! for no candidate for which a DROP entry stands there is a pair of iterations within the bounds (`lines_tell_nests`).
//! By its edges and holds a nest has one list of cycles (`cycles_are_unique`).
//!
//! **What is promised of a listing is said of its entries.** So who reads the lines of a text needs no graph beside
//! them.
ghost use Rattle.listing_laws.specs.told_nests.Laws.{CyclesAreUnique, GraphIsTold, LinesTellNests, NestsAreTold};

/// The entries of a nest tell the graph by which they were listed.
pub fn graph_is_told()
    ensures { GraphIsTold }
{}

/// The nests of a listing, each with the graph that its entries tell, are those that were listed.
pub fn nests_are_told()
    ensures { NestsAreTold }
{}

/// Lines that list a program tell its nests, their graphs and their holds, and drop no candidate that has a pair.
pub fn lines_tell_nests()
    ensures { LinesTellNests }
{}

/// Two lists of cycles of a nest, by the same edges and holds, are equal.
pub fn cycles_are_unique()
    ensures { CyclesAreUnique }
{}
