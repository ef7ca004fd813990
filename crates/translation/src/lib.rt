//! The translation of a program of FORTRAN 77 to Fortran 90: array statements in the place of its nests.
//!
//! **translation::emission_ready** (law): a nest that can be tested (`IsReady`), with its dependence graph and fewer
//! than 65536 symbols, has all that emission asks for (`ready_nests_may_be_emitted`).
//!
//! **translation::nest_translation** (law): let p be a program of FORTRAN 77, and a block what is emitted, by some
//! graph and all holds, for what the passes make of a found nest of it (`IsPassedAs`). Where the block is of the
//! profile of a program q that has p's names and the block's, it does, with arrays as values, what the nest's loop
//! does, and has no label (`translation_does_as_loop`). The laws of `pass_laws` and of `prepared_passes` meet here:
//! from the loop to the nest in which masks are scalars, from there to the last nest that the passes make, and to what
//! is emitted for it.
//!
//! **translation::placed_loops** (law): where each block that stands in the place of a loop does, with arrays as
//! values, what the loop does (`DoesAs`), the program with further names and these blocks keeps the meaning of the
//! program: wherever its sequential run ends without fault, so does the array run, with the same output and the same
//! values of the source's variables (`placed_loops_keep_meaning`). READ and PRINT, jumps past a block and out of the
//! loops round it, STOP are all spoken of.
//!
//! **translation::loop_placing** (`place`): the statements of a program with blocks in the place of the loops that have
//! these numbers, and all others as they were (`placed_in`). Want of memory is the only error.
//!
//! **translation::program_translation** (laws): a program of FORTRAN 77 and one of Fortran 90 that has such
//! translations in the place of some of its nests have the same output and the same values of the source's variables,
//! wherever the sequential run ends without fault: then the array run does so too (`translation_keeps_meaning`). Asked
//! of the second program is that it is one of Fortran 90's profile, and that it declares besides made names alone. And
//! a translation of a program, within the limits on blocks and statements, is such a program and keeps the meaning
//! (`translation_is_good`).
//!
//! **translation::loop_numbers** (laws): a loop of a program of FORTRAN 77 is known by its number
//! (`loops_are_numbered`), nests are numbered in the order of their outermost loops, so no two have one number
//! (`nests_are_numbered`), and numbers count from 1 (`loop_numbers_count`).
//!
//! **translation::nest_blocks** (`program_answers`): one answer to each loop that stands in no nest, in the order of
//! the text; the lines that they list, and in the place of each loop just what an answer puts there (`AreAnswersFor`).
//! The answer to what was found in a program of FORTRAN 77 (`answer_to`, `IsAnswerTo`) has its lines in the listing
//! and, where it is a nest, what is emitted for what the passes make of it by the graph that is listed and all its
//! holds. Masks and copies are numbered through the program: each answer says how many there are by then. Want of
//! memory is the only error. Laws: these lines are a listing of the program (`answers_are_listed`), and these blocks
//! translations of its nests (`answers_are_blocks`).
//!
//! **translation::made_declarations** (`with_declarations`, law): made names among declarations, each at its place in
//! byte order: as passes made it, a scalar of its kind or an array that is allocated later, or else an INTEGER scalar.
//! Such names, each in one way and none that is declared, keep them declarations of the profile that declare these
//! names besides (`with_made_names`).
//!
//! **translation::nest_profile** (law): a translation of a found nest is a block of the profile of a program that
//! declares the counters besides, wherever the nest's loop is a statement of FORTRAN 77's, since what the passes make
//! of it is prepared (`translation_is_of_profile`). Asked: that no name of the program is TRANSPOSE or RESHAPE, and
//! that the loops round it have variables that FORTRAN 77 has.
//!
//! **translation::placed_profile** (law): a program of FORTRAN 77 with blocks of the profile, without labels and jumps,
//! in the place of loops that no jump leaves is one of Fortran 90 within the limits on blocks and statements
//! (`placed_program_is_program`).
//!
//! **translation::program_marks** (law): a program in which answers' blocks stand in the place of loops is marked as
//! its listing has it (`translation_is_marked`).
//!
//! Proved (`translate`): the listing of a program of FORTRAN 77, and what it is translated to (`IsVectorised`). Want of
//! memory is the only error; a translation of more than 300 blocks in one another or 2^31 statements is too large for
//! memory.
//!
//! **translation::fewer_names** (law): a block that is of the profile with some declarations is so with fewer of them
//! that have all its names (`block_with_fewer_names`).
//!
//! **Counters are named by a third program.** What is emitted may name only some of a nest's counters, since a loop may
//! have become array assignments. So the law on a nest takes the program r that has all counters, and q, the one that
//! is written, has exactly those that stand in it. A loop variable that nothing reads isn't declared.
//!
//! **Each nest's block stands by the loop's number.** `place` counts the loops of the text as `find_nests` does; so no
//! two lists have to be walked in step, and a nest that isn't translated simply has no block.
//!
//! **The limits on blocks and statements are looked at when the program is there.** Emission can bring more statements
//! than there were, and how many isn't known before. A translation of more than 2^31 statements doesn't fit memory, so
//! it is answered as want of memory, and so is one of more than 300 blocks in one another, which no deck is known to
//! have. Before, the loops of such a deck stayed; then what the listing says of its statements would not have been so.
//!
//! **A name is declared exactly where it stands.** The names that stand in the blocks are collected, and those that
//! FORTRAN 77 doesn't have are declared; so no loop variable is declared that isn't used, and a made name may be a
//! scalar for one pass and an array for the next: the last nest says how it is declared.
//!
//! **Each name that passes make is made for one nest.** Masks and copies are numbered through the program, so those of
//! a nest come behind those of each nest before it (`AreNumbered`); the array for a scalar bears its name and its
//! nest's number. So a mask may be an array in one nest, and each name is declared in one way.
//!
//! **Arrays come and go within the block of a nest.** ALLOCATE stands before what is emitted and DEALLOCATE behind what
//! comes after it, so between the statements of a translated program no allocatable array is there, and the runs of
//! nests are looked at in a store that has them.
//!
//! **A block for each loop's number, from 1 on.** `block_at` takes 1 from the number, and numbers are natural, so 0
//! would mean the first block too: what is asked of blocks is asked from 1 on.
//!
//! **What stands in the place of a loop is of the profile wherever the loop is, in loops with variables of FORTRAN
//! 77.** Without the second half it would be false: a DO variable round the nest could be one of its counters. The same
//! holds of names of the program that hide TRANSPOSE or RESHAPE.
//!
//! **The answer to one loop and those to all loops of a program are one crate.** The second call alone makes the first
//! one, and the definitions of both speak of the same answers; a crate of its own made each chain through
//! `translation::nest_blocks` longer by one.
#![tactic(auto)]

mod depth;
pub mod emission_ready;
pub mod fewer_names;
mod limits;
pub mod loop_numbers;
pub mod loop_placing;
pub mod made_declarations;
mod names;
pub mod nest_blocks;
pub mod nest_profile;
pub mod nest_translation;
mod number;
pub mod placed_loops;
pub mod placed_profile;
pub mod program_marks;
pub mod program_translation;
mod translating;

pub use translating::{Translation, translate};
