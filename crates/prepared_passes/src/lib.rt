//! Laws of the passes over prepared nests, but loop normalization: what a pass makes goes on as what it was given, and
//! is prepared again.
//!
//! **prepared_passes::conversion**: a nest whose IFs, labels and jumps have become masks (`if_convert`) may stand for
//! the nest. At each point of a block the mask under which statements stand there is true just where the run of the
//! source goes on there, and the mask of a jump under way just where the run jumps to its label; a block that is not
//! entered is gone through by a run that has stopped, in which nothing happens. What masks held before doesn't matter,
//! so a loop's body may be gone through again.
//!
//! **prepared_passes::symbols**: canonical text has the value of what it stands for, whatever its names hold, so a nest
//! whose symbols were found anew (`symbols_anew`) comes from a moment to the moment that the nest comes to
//! (`nest_with_symbols_runs_alike`). It is the same nest but for its symbols and its texts
//! (`nest_with_symbols_is_same_but_text`), whatever stands behind it (`symbols_are_found_with_anything_behind`). It is
//! prepared as the nest is (`prepared_nest_is_prepared_anew`), where this is of a source, as what is made of a nest
//! that is found (`found_nest_is_of_source`).
//!
//! **prepared_passes::substitution**: let no induction of a prepared nest be named behind its loops, and no symbol be
//! written there. Where the nest meets no fault, neither does the nest with its inductions substituted, and it comes to
//! the same moment but for the number of steps (`substituted_nest_runs_alike`). It is prepared by the same
//! declarations, with expressions that are at most 23 deeper (`substituted_nest_is_prepared`). What is substituted
//! doesn't hang on what stands behind (`inductions_are_substituted_with_anything_behind`).
//!
//! **prepared_passes::renaming**: a prepared nest whose scalars were renamed stays prepared, by the same declarations
//! and no deeper (`renamed_nest_is_prepared`), and it is the same but for its statements and the names that were made
//! (`renamed_nest_keeps_rest`), whatever stands behind it (`nest_is_renamed_with_anything_behind`). Where its loops
//! with what comes after them meet no fault, neither do those of the renamed nest, from the same moment, and what they
//! come to is the same but for the names that were made (`renamed_nest_goes_on_as_nest`). So the renamed nest may stand
//! for the nest (`renamed_may_stand_for`). The names must be new to the nest, as they are where its declarations don't
//! have them yet (`names_are_fresh`). Before each statement the value of a scalar has one name: in the run of the
//! renamed nest this name holds what the scalar holds in that of the nest. A loop has either all ranges of a scalar in
//! it or none, so its value has one name before and behind the loop's body.
//!
//! **prepared_passes::unexpanded**: of a found nest with masks the symbols are found anew, inductions are substituted
//! and scalars renamed. Behind its loops stand last values alone, so that no induction is named there
//! (`found_nest_is_apart_behind`). In a program that has the masks and the names of ranges as scalars the nest is
//! prepared, and goes on as that with its symbols found anew (`found_nest_is_unexpanded`). No induction is written in
//! it (`unexpanded_nest_writes_no_induction`).
//!
//! **prepared_passes::expansion**: a prepared nest has what the laws of `scalar_expand` ask of its loops, its
//! statements and its names (`prepared_nest_is_expandable`), where the arrays that are to be made have names that stand
//! nowhere in it, and what they ask of the texts of trips (`prepared_texts_tell`). So where it meets no fault, neither
//! do the loops of the expanded nest, what stands behind them, and the last values; each scalar of the program then
//! holds what it holds behind the nest (`prepared_nest_runs_expanded`). The loops stay as they are
//! (`expanded_nest_keeps_loops`), and the expanded nest is prepared by declarations that have its arrays
//! (`expanded_nest_is_prepared`). Where a private scalar still stands as a scalar in it, its element is copied to it
//! (`expanded_nest_has_no_private_scalars`). Asked before the run: the arrays are allocated by their extents, and the
//! symbols hold the values by which extents and trips are counted. The texts of extents have these numbers where none
//! stands on a divided one (`extent_texts_have_numbers`); of others that isn't said here, but each text has some
//! number, whatever the symbols hold, which `IsPrepared` asks.
//!
//! **prepared_passes::places**: a mask is a scalar before expansion and an array behind it, and so is the name of a
//! range, so both nests have places of their own. From each moment at which the expanded nest may be run there is one
//! before, from which the nest's run is followed by that of the expanded nest (`expanded_nest_is_begun_before`),
//! whatever the texts of extents are. Its guarded statements name elements of its arrays whatever their guards are
//! (`expanded_nest_has_guarded_names`). Of a found nest with masks and with names of ranges the place before is made of
//! the one behind (`found_nest_is_expanded_in_places`).
//!
//! **prepared_passes::splitting**: what is known of nests whose nodes were split (`node_splitting`) holds for every
//! choice of reads that are copied. A prepared nest stays prepared, by declarations that have the arrays of copies
//! (`split_nest_is_prepared`), and it is the same but for its statements and these arrays (`split_nest_keeps_rest`),
//! whose names belong to one copy alone (`copy_names`). Where the arrays are allocated by their extents, and its loops
//! with what comes after them meet no fault, neither do those of the split nest, and what they come to is the same but
//! for the copies (`split_nest_goes_on_as_nest`). So the split nest may stand for the nest (`split_may_stand_for`). Its
//! guarded statements name elements whatever their guards are (`split_nest_has_guarded_names`), and no private scalar
//! comes back (`split_nest_has_no_private_scalars`). Where a statement meets no fault, each read in it has a value,
//! since all operands are evaluated. So has its copy, which stands right before the statement under its guard: the
//! statement then reads this value. The array has an element for each iteration of the loops round the statement.
//!
//! **prepared_passes::arrangement** (loop interchange): where the sequential run of a nest goes on, so does that of the
//! nest with its loops in the order that the edges of its dependence graph ask for, its statements as they are, in the
//! same store but for the loop variables (`moved_loops`). Asked: that the nest has its facts, and that each trip
//! without a loop's variable names symbols alone, as canonical text does. The statements are brought into canonical
//! text again afterwards: from stores that have all in common, each number of 64 bits, the nest then does the same
//! (`canonical_text`). So a prepared nest with its loops moved is prepared again (`arranged_nest_is_prepared`), goes on
//! as the nest does (`arranged_nest_goes_on_as_nest`), and may stand for it (`arranged_may_stand_for`). A chain of
//! loops in another order is a list of exchanges of neighbours, so the instances are those of the nest, each by its
//! iterations in the other order; in that order they keep the vectors of all edges but antidependences of a statement
//! on itself, which an output dependence with the same vector covers. That all trips that are come to can be counted
//! goes over from move to move. A trip without a loop's variable has the same text under any loops.
#![tactic(auto)]

mod arrangement;
mod conversion;
mod expansion;
mod places;
mod renaming;
mod splitting;
mod substitution;
mod symbols;
mod unexpanded;

pub use arrangement::{
    arranged_may_stand_for, arranged_nest_goes_on_as_nest, arranged_nest_is_prepared,
    canonical_text, moved_loops,
};
pub use conversion::{
    branched_nest_is_branching, converted_branched_nest_is_prepared, converted_may_stand_for,
    converted_nest_is_prepared, found_nest_has_declarations, found_nest_is_converted,
    found_nest_is_unguarded, program_has_no_masks,
};
pub use expansion::{
    expanded_nest_has_no_private_scalars, expanded_nest_is_prepared, expanded_nest_keeps_loops,
    extent_texts_have_numbers, prepared_nest_is_expandable, prepared_nest_may_be_expanded,
    prepared_nest_runs_expanded, prepared_texts_tell,
};
pub use places::{
    array_names_are_apart, expanded_nest_has_guarded_names, expanded_nest_is_begun_before,
    found_nest_has_expanded_declarations, found_nest_has_made_names,
    found_nest_has_no_private_scalars, found_nest_is_expanded_in_places, found_nest_is_free_behind,
    range_names_are_apart,
};
pub use renaming::{
    names_are_fresh, nest_is_renamed_with_anything_behind, renamed_may_stand_for,
    renamed_nest_goes_on_as_nest, renamed_nest_is_prepared, renamed_nest_keeps_rest,
};
pub use splitting::{
    copies_are_fresh, copy_names, split_may_stand_for, split_nest_goes_on_as_nest,
    split_nest_has_guarded_names, split_nest_has_no_private_scalars, split_nest_is_prepared,
    split_nest_keeps_rest,
};
pub use substitution::{
    inductions_are_substituted_with_anything_behind, substituted_nest_is_prepared,
    substituted_nest_runs_alike,
};
pub use symbols::{
    found_nest_is_of_source, nest_with_symbols_is_same_but_text, nest_with_symbols_runs_alike,
    prepared_nest_is_prepared_anew, symbols_are_found_with_anything_behind,
};
pub use unexpanded::{
    found_nest_is_apart_behind, found_nest_is_unexpanded, unexpanded_nest_writes_no_induction,
};
