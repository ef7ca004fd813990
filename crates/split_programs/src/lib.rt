//! Laws of whole split programs (Allen and Kennedy, "Optimizing Compilers for Modern Architectures", sections 5.8 and
//! 5.9).
//!
//! **split_programs::profiles** (law): what a program of FORTRAN 77 is split to is one again
//! (`split_program_is_of_profile`): the loops over pieces have whole INTEGER expressions as their bounds, no label and
//! no call comes or goes, and no block stands deeper.
//!
//! **split_programs::runs** (law): a split program comes to the same moment as the program that it was made of
//! (`split_program_runs_as_source`), under any limit of steps and with any input: the same way of ending, the same
//! output, store and number of steps, also where the run meets a fault. So nothing is asked of the source's run: the
//! bounds of a loop that is cut have values in each store of a run, and its trip is the constant that was found. What
//! keeps the meaning of the split program keeps that of its source.
//!
//! **split_programs::parts** (law): where a loop is cut behind its points, no two different iterations of one of its
//! pieces, by the turns with which they end, make the sides of a pair of subscripts equal that gave one of the points
//! (`pieces_part_pairs`).
//!
//! **Runs are equal statement by statement**, from each moment whose store holds the program: so no relation of stores
//! is needed, and a loop that is kept runs as before since its body does.
#![tactic(auto)]

pub mod parts;
pub mod profiles;
pub mod runs;
