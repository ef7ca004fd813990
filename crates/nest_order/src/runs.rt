//! What the run of a nest does, by its instances, and that any order of them that keeps the nest's edges does the same.
//!
//! Proved (laws), of nests of DO loops from 1 by 1 with guarded assignments in them, whose trips may depend on outer
//! loops and on symbols:
//!
//! - a sequential run of the nest that goes on is its instances one after another, but for the loop variables
//!   (`run_of_nest`);
//! - two instances may be exchanged where they can touch no common cell of which one is written
//!   (`exchanged_instances`);
//! - from a store from which the instances meet no fault in sequential order, they meet none in any order that keeps
//!   the edges of the nest's graph, and leave the same store (`any_order`). Of the edges it is asked that one stands
//!   for each candidate that has a pair of iterations, that each has a level, and that each stands for a candidate: not
//!   which test found it;
//! - where the nest's sequential run goes on, what recursive emission makes of it goes on and leaves the same store,
//!   but for the loop variables: all in loops (`emission`, `loops`), and where other statements stand in the place of
//!   loops, that do what the instances there do (`forms`). The emitted block may be run with arrays as values, whatever
//!   its lines and marks;
//! - where no edge from a statement's left side to the statement itself is carried by its inner loops, none of its
//!   instances there reads what an earlier one has written, and no two store different values in one cell
//!   (`statement_alone`), which is what `meaning_laws::arrays` asks of instances that are to store all at once; the
//!   nest's instances are instances as `meaning_laws::arrays` has them (`instances_one_by_one`);
//! - so forms in the place of such a statement's inner loops, each of which equals its instances where these may store
//!   all at once, keep the meaning of the nest (`lone_forms`: `instances`, `meaning`);
//! - with arrays as values expressions have the values that they have without, and FORTRAN 77's read the same cells
//!   (`with_arrays`); where the outer loops are at their iterations, an instance is put at its own by the inner loops
//!   alone (`inner_iterations`);
//! - stores that are the same but for the loop variables agree on a program that doesn't declare these (`near_stores`);
//! - statements without READ and PRINT leave output and input as they were, and such are nests and what is emitted for
//!   them (`quiet_statements`: `lines`, `nests`).
//!
//! Asked of a nest and its setting (`IsNestIn`): statements are numbered in text order, each loop has a variable of its
//! own, a statement names no loop's variable but its own and assigns none, nothing assigns a symbol, a trip names
//! symbols and outer loop variables alone; loop variables and symbols are scalars. Asked of a store (`HoldsNest`):
//! declared names have their bounds, each of their cells a value of its kind within INTEGER, the symbols their values.
//! Runs that fault are not spoken of.
//!
//! **A nest is a shape of numbers, and one record says what they stand for.** Its premises speak of the statements and
//! loops of the shape, never of all numbers.
//!
//! **The number of a loop's turns is asked for only where the trip can be counted.** So a table of turns may be cut at
//! the greatest count, and then no instance has an iteration beyond INTEGER.
//!
//! **The invariant of stores is one record.** A contract can't range over predicates on stores, so the laws fix what is
//! asked: the program's declarations, the bounds of the time, and the values of symbols. Symbols have their values by
//! number.
//!
//! **Sequential runs are those without arrays as values; an emitted block is run with or without them.** What has a
//! value without arrays has the same one with them, and what it names is a scalar, so nothing more is asked of a nest.
//!
//! **Forms are asked to do what the instances in their loop do, from the very store that they begin in.** That the
//! instances lead from there to a store like the one of the nest's own run is shown once, so a law on array assignments
//! needs no second store.
//!
//! **An instance's store has its iterations put into it.** The loop variables hold the iterations, and everything else
//! is as in the store at hand; a loop variable that is declared elsewhere keeps its bounds. The order in which
//! iterations are put doesn't matter, as the names are distinct.
ghost use Rattle.nest_order.specs.runs.Alone.{InnerInstancesAreApart};
ghost use Rattle.nest_order.specs.runs.Arrays.{CellIsKept, OuterIterationsHold, SameCellsAreRead, SubscriptsReadSame};
ghost use Rattle.nest_order.specs.runs.Arrays.{ValueIsKept};
ghost use Rattle.nest_order.specs.runs.Laws.{AnyOrderGivesStore, EmissionKeepsMeaning, InstancesComeFromReads};
ghost use Rattle.nest_order.specs.runs.Laws.{InstancesMayPass, NearStoresAgree, RunIsInstances};
ghost use Rattle.nest_order.specs.runs.Laws.{TranslationKeepsMeaning, UnguardedInstancesNameCells};
ghost use Rattle.nest_order.specs.runs.LoneForms.{LoneFormsAreInstances, LoneFormsKeepMeaning};
ghost use Rattle.nest_order.specs.runs.Quiet.{NestsAreQuiet, QuietStatementsKeepLines};

/// A sequential run of a nest that ends without fault is its instances one after another, but for the loop variables.
pub fn run_of_nest()
    ensures { RunIsInstances }
{}

/// Two instances may be exchanged where they touch no common cell of which one is written.
pub fn exchanged_instances()
    ensures { InstancesMayPass }
{}

/// The fundamental theorem of dependence (Allen and Kennedy, section 2.2): any order of a nest's instances that keeps
/// the edges of its graph leaves the sequential store, whichever test found the edges.
pub fn any_order()
    ensures { AnyOrderGivesStore }
{}

/// Recursive emission keeps the meaning of a nest: all in loops, and where other statements that do what the instances
/// in a loop do stand in the loop's place. The store is the same but for the loop variables.
pub fn emission()
    ensures loops { EmissionKeepsMeaning }
    ensures forms { TranslationKeepsMeaning }
{}

/// Forms of statements that don't depend on themselves within their outer loops, each of which equals its instances
/// where these may store all at once, keep the meaning of the nest in the place of the statements' inner loops.
pub fn lone_forms()
    ensures instances { LoneFormsAreInstances }
    ensures meaning { LoneFormsKeepMeaning }
{}

/// Where there are arrays as values, expressions have the values that they have without, references name the same
/// cells, and expressions of FORTRAN 77 read the same cells.
pub fn with_arrays()
    ensures value { ValueIsKept }
    ensures cell { CellIsKept }
    ensures reads { SameCellsAreRead }
    ensures subscripts { SubscriptsReadSame }
{}

/// Where the variables of the outer loops hold their iterations, an instance's iterations are those of the inner loops.
pub fn inner_iterations()
    ensures { OuterIterationsHold }
{}

/// Stores that are the same but for the variables of a nest's loops agree on a program that doesn't declare these.
pub fn near_stores()
    ensures { NearStoresAgree }
{}

/// The instances of a nest are instances for which storing one by one is storing all at once, where none reads what an
/// earlier one has written.
pub fn instances_one_by_one()
    ensures { InstancesComeFromReads }
{}

/// Where no edge that leads from a statement's left side to the statement itself is carried by one of its inner loops,
/// its instances in these loops may store all at once: none reads what an earlier one has written, and no two store
/// different values in one cell.
pub fn statement_alone()
    ensures { InnerInstancesAreApart }
{}

/// Statements without READ and PRINT leave the output, the input and its place as they were. Such are nests, and what
/// is emitted for them.
pub fn quiet_statements()
    ensures lines { QuietStatementsKeepLines }
    ensures nests { NestsAreQuiet }
{}

/// Where a nest's instances meet no fault, each reference of an unguarded one names a cell within the bounds of its
/// name, and a linear subscript has its value there.
pub fn unguarded_instances()
    ensures { UnguardedInstancesNameCells }
{}
