//! What keeps a statement of a nest from array form.
//!
//! Proved: `holds` gives exactly the holds of a statement, the first one at each level, from the outside in, and
//! `all_holds` those of all statements: FORM where some loop from the level on doesn't stand in exactly one left
//! subscript, or a left subscript with such a loop isn't linear or has two of them; else TRIANGLE where the trip of one
//! of these loops has the variable of another one of them; else BOUNDS where one of these loops stands in the guard,
//! and some subscript of guard, left side or right side may be out of bounds where the guard is false. The definitions
//! are those of `array_form::forms`, so a level without a hold is the premise of the law on array forms.
//! `surroundings_of` gives what `array_form::forms` calls the surroundings of a statement: its loops with their trips
//! as linear forms (the places of a trip's affine form), the symbols, and whether SPREAD may be written; each loop has
//! the trip that the nest gives it. `is_plain_statement` and `is_plain_nest` are the tests for the conditions of
//! `holds` and `all_holds`: such a statement exists, in at most 7 loops, in a nest of at most 65536 symbols; so is each
//! statement. Not spoken of: array forms as text.
//!
//! **A trip is a form over the loops round the statement.** The places of a trip's affine form are the loops round its
//! own loop, which are the first of those round the statement, so the same coefficients are a form over all of these,
//! with symbols behind them. Coefficients that aren't written are 0. A loop without a trip counts as one that doesn't
//! turn.
//!
//! **A subscript is safe by a box or by a fellow.** The box is all iterations of the loops that stand in a linear
//! subscript without symbols, where their trips are constants; the definition asks each iteration, the code only the
//! two ends of the sum. The fellow is an equal subscript of a statement without a guard in the same loops, with no
//! wider bounds: what the sequential run looked at unguarded was within them. A made array is as large as its loops
//! make it. A name that is neither declared with bounds nor made is never safe, nor one with another number of
//! subscripts; no nest of a program has such.
//!
//! **The statements are copied once.** `all_holds` keeps of each statement the numbers of its loops and the forms and
//! bounds of its subscripts, and asks these alone.
mod bounds;
mod boxes;
mod left_sides;
mod levels;
mod loops;
mod loops_standing;
mod noted;
mod plain;
mod triangles;

pub use levels::{all_holds, holds};
pub use loops::{CountedLoop, Surroundings, loop_names, surroundings_of};
pub use loops_standing::{loops_in, loops_in_sub, stand_in};
pub use plain::{is_plain_nest, is_plain_statement};
