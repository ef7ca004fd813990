//! Laws of loops that are cut into loops over pieces of their iterations (Allen and Kennedy, "Optimizing Compilers for
//! Modern Architectures", sections 5.8 and 5.9).
//!
//! **split_laws::pieces** (laws): loops over consecutive pieces of a loop's iterations run as the loop does, to the
//! last step, with any body that leaves the variable and the symbols of the bounds alone (`loops_over_pieces`): from
//! equal moments to equal moments, also where the body faults, stops or jumps. Bounds that are texts of forms within
//! the limits have their numbers (`piece_bounds`), and assignments to other names leave these alone
//! (`other_assignments`). Where a loop is cut at the points of a pair of subscripts, no two different iterations of one
//! piece make its sides equal (`points_part`).
//!
//! **split_laws::cuts** (law): where the loop of a nest is cut at its points, no two different iterations of one piece
//! make the sides of a pair of subscripts equal that gave one of the points, whatever the symbols are
//! (`cut_pairs_never_meet`).
//!
//! **split_laws::splitting** (laws): each loop of a program that stands in no nest has become, in the split program,
//! what the answer to it says (`split_program_is_split`): a kept loop stands round what has become of its body, the
//! loop of a nest stays or gives way to loops over its pieces, and all else is as it was. Loops over pieces with bounds
//! such as the answer has run as the loop does, where its parameters have values (`cut_loop_runs_as_loop`).
#![tactic(auto)]

pub mod cuts;
pub mod pieces;
pub mod splitting;
