//! Loops from 1 by 1: which nests are found, what becomes of them, and that their runs keep their meaning.
//!
//! **pass_laws::normal_loop** (`normal_loop_runs`): a loop with any increment, beside the loop from 1 by 1 in whose
//! body a linear form in the counter stands for the variable. Where the given loop meets no fault the other one meets
//! none, also with no turn and with a negative increment; both write the same and read the same, all names but the two
//! variables are alike, the variable has gone on by the increment once for each turn, and the counter is one more than
//! the number of turns. Asked: no jump leaves the body and it doesn't stop; the form is within its limits, over names
//! that hold numbers of 64 bits; in the first turn it is the first value; the trip's expression has the quotient as
//! its value. What is asked of the first value holds where that value is linear (`first_value_is_form`), and a trip
//! with a negative increment needs no negative divisor (`trip_is_turned`). Loops in loops, last values and the nest as
//! a block follow in `pass_laws::normal_runs`, `pass_laws::last_runs` and `pass_laws::normal_meaning`.
//!
//! **pass_laws::nest_sources** (laws): the parts of a block (`parts_of_statements`), and the body of a nest
//! (`nest_of_loop`), stand for the statements of the source, but for line numbers, marks and the texts of increments,
//! where these are assignments, loops, IFs, labels and jumps.
//!
//! **pass_laws::nest_loops** (law): a nest that is found in a program of the profile runs as its loop
//! (`nest_runs_as_loop`): from each moment the block of the nest and the DO statement come to the same moment, with
//! the same store, output, input and number of steps, and the same fault but for its line, under any limit of steps
//! and in both dialects. Three facts carry it: what isn't left by a jump, READ, PRINT or STOP, and is of the profile,
//! has only statements that nests have; a suitable increment has its number in every store; and runs don't look at the
//! numbers of lines.
//!
//! **pass_laws::normal_values** (laws), of a nest's run within its loops and that of the normal form within the loops
//! from 1 by 1, at the same turns, in stores that have all names in common but loop variables and counters: an
//! expression that has a value has it with forms of the counters in the place of the variables (`expression_beside`);
//! an assignment that meets no fault meets none and stores the same (`statement_beside`); a loop and its form have the
//! same number of turns, and in each turn the form of the variable is the variable's value, also with negative and
//! divided steps and with no turn (`bounds_beside`); the texts in place have the first value, and the value behind the
//! last turn where there is one (`last_value_in_place`).
//!
//! **pass_laws::normal_runs** (law): where the run of a nest of loops and statements alone goes on, that of its normal
//! body goes on, in a store that is the same but for counters and for the variables that get their last values behind
//! all loops, which are as before (`body_beside`).
//!
//! **pass_laws::last_runs** (law): from such a store the statements behind all loops go on, and give each of these
//! variables the value that the run of the nest leaves it with (`last_values_behind`): by the last turn of each loop
//! round a loop, where these have turns, and of several loops with one variable by the last that was done.
//!
//! **pass_laws::normal_meaning** (law): where the run of such a nest goes on, so does that of its normal form with
//! what comes after it, in the same store but for the counters (`normal_form_keeps_meaning`). Asked: INTEGER of 32 to
//! 64 bits, and that the counters are scalars.
//!
//! **pass_laws::branch_meaning** (law): the same of a nest in whose loops block IFs, labels and jumps stand
//! (`branched_form_keeps_meaning`). Asked: no loop stands in an IF, and each jump leads to a label behind it in the
//! body of its own loop, in its block or in one round it, with no loop between. What is asked of nests of loops and
//! statements alone is asked here too, and of the conditions that no counter stands in them.
//!
//! - **pass_laws::ready_nests** (laws): what `normalise` makes of a nest that was found in a program of the profile
//!   can be tested (`normal_nest`). What of it holds of more nests has laws of its own: the loops of a found nest have
//!   different numbers (`found_loops`), what is made of any nest has its loops with their numbers, in their order
//!   (`normal_loops`), and each statement of it stands in seven loops at most, whose trips are forms over the loops
//!   round them (`normal_trips`).
//!
//! - **pass_laws::normal_nests** (law): `normalise` gives a nest for each nest that was found in a program of the
//!   profile (`normalised_nest`): where no reason holds against a loop the forms of it and of the loops in it are
//!   within the limits, and the last value of the outermost variable stands after the nest. So its body is one loop
//!   again (`found_nest_has_normal_form`).
//!
//! **pass_laws::found_sources** (laws): a found nest of loops and statements alone is one of which
//! `pass_laws::normal_runs` speaks (`found_nest_is_source`); no IF, label, jump or guard has gone or come as its loops
//! were made to go from 1 by 1 (`normal_nest_is_plain`).
//!
//! **pass_laws::listed_nests** (laws): the loops that are listed of a nest are those of its nest with loops from 1 by
//! 1, with all that stands in them, but for what stands behind the nest (`normal_nest_is_listed`); no others are
//! (`listed_nest_is_normal`), so there is one list of loops with their trips, and one of statements
//! (`listed_nest_is_one`).
//!
//! **pass_laws::prepared_nests** (laws): what passes over nests are given and make, and what follows from it. A nest
//! is prepared (`IsPrepared`) by the declarations of the program that it is to stand in: its loops go from 1 by 1 to
//! linear trips, its statements assign scalars of one kind in canonical text, and made names are declared by their
//! kinds and extents. `IsBranched` says the same of nests with IFs and jumps. What is made of a nest of a program of
//! FORTRAN 77, with loops from 1 by 1, has prepared parts (`normal_nest_has_parts`), so it is prepared with its IFs
//! and jumps (`normal_nest_is_branched`), and without them where it has loops and statements alone
//! (`normal_nest_is_prepared`). A prepared nest may be tested for dependences and emitted from, is regular, and has in
//! each setting what runs, orders and array forms ask for. Numbers of statements and references are not bounded here:
//! they are counted at run time.
//!
//! **pass_laws::prepared_runs** (laws): a prepared nest does what the loop does that it was found at, and what is
//! emitted for it does what the nest does; between the two stand the passes.
//!
//! - From moments that agree on the source, where the loop of a found nest meets no fault, the loops of its normal
//!   form, and what comes after them, go on to a moment that agrees with the loop's end, also with IFs and jumps
//!   (`normal_nest_goes_on_as_loop`).
//! - The run of a prepared nest is its instances one after another, and then what comes after the loops, but for the
//!   variables of the loops (`run_of_prepared_nest`).
//! - Where the loops of a prepared nest and what comes after them meet no fault in a sequential run, and made arrays
//!   are as large as guarded statements ask, the array run of what is emitted for them, by a graph of the nest and all
//!   its holds, goes on to the same store but for the variables of the loops (`pieces_go_on_as_nest`).
//! - What is emitted is a block of the profile of Fortran 90, made arrays allocated before and deallocated behind
//!   (`prepared_translation_is_of_profile`).
//! - ALLOCATE leads to a moment that differs in the nest's arrays alone, which are there by their extents, where none
//!   of them was (`arrays_are_allocated`), and DEALLOCATE lets them go and changes nothing else
//!   (`arrays_are_deallocated`). ALLOCATE does nothing in a sequential run, so the runs of nests begin where made
//!   arrays are allocated already; what allocates them is looked at once, where the translation of a program is.
//!
//! **pass_laws::branch_sources** (laws): each found nest is one of which `pass_laws::branch_meaning` speaks
//! (`found_nest_is_branched_source`), so that loop normalization keeps the meaning of each nest that is found in a
//! program of FORTRAN 77 (`found_nest_keeps_meaning`). That its jumps stay within their loops and pass no loop is what
//! its loops have no reason for, where no label stands twice.
//!
//! **pass_laws::normal_facts** (laws): what `normalise` makes of a found nest without IF, label and jump has, in a
//! program that declares the counters besides, the facts that the laws of runs and orders ask for
//! (`normal_nest_has_facts`), those that array forms ask for (`normal_nest_has_form_facts`), and regular subscripts,
//! guards and right sides (`normal_nest_is_regular`).
//!
//! **The counter stands first in the law on a normal loop.** There the form that replaces the variable has the counter
//! first and the other names behind it. In a nest the loops round it come first in canonical text, which the rule of
//! canonical text brings about in a second step.
//!
//! **Divisors of trips are less than 2^127.** What `normalise` makes keeps to that by the limits of forms, and beyond
//! it a division of forms could not be told.
//!
//! **Nests with block IFs and jumps have a law of their own on loop normalization.** The law on loops and statements
//! alone goes with values of iterations, on which orders and emission stand; with IFs and jumps it is two runs side by
//! side, on the same way. No loop of a found nest stands in an IF, and no jump passes one, so there what stands in a
//! loop's body between two of its loops is flat, and a jump skips a part of it in both runs.
//!
//! **What replaces a loop's variable has the loop's own counter first**, as the law of a normal loop has it.
//! `pass_laws::normal_loop` asks for at most 1,000 symbols, which no program of FORTRAN 77 passes.
#![tactic(auto)]

pub mod branch_meaning;
pub mod branch_sources;
pub mod found_sources;
pub mod last_runs;
pub mod listed_nests;
pub mod nest_loops;
pub mod nest_sources;
pub mod normal_facts;
pub mod normal_loop;
pub mod normal_meaning;
pub mod normal_nests;
pub mod normal_runs;
pub mod normal_values;
pub mod prepared_nests;
pub mod prepared_runs;
pub mod ready_nests;
