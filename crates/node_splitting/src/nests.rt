//! Nests whose statements read copies.
ghost use Rattle.std.specs.Prelude.{◌≡◌, ◌+◌, ◌++◌, ◌∷◌, [], IfOk, OnOk, length, map, slice_index_or};
ghost use Rattle.std.specs.Option.{option_map};
ghost use Rattle.tree.specs.View.{expression_of, reference_of};
ghost use Rattle.nest.specs.Plain as plain;
ghost use Rattle.nest.specs.View.{guarded_of, loop_of, made_of, nest_of, part_of};
ghost use Rattle.nest.specs.statement_loops.Standings.{standing_of};
ghost use Rattle.node_splitting.specs.Arrays.{arrays, copy_element};
ghost use Rattle.node_splitting.specs.Reads.{read_as_expression, read_copied, copies_of};
ghost use Rattle.node_splitting.specs.Counts.{variables_from_outside};
ghost use Rattle.node_splitting.specs.Split.{IsSplitNest, arrays_from, in_canonical_text, firsts, firsts_from, last};
ghost use Rattle.node_splitting.specs.Split.{last_from, made_arrays, reads_at, with_copy_arrays};
ghost use Rattle.node_splitting.specs.View.{may_of};

use crate::arrays::{add_arrays, element, symbol_count};
use crate::choice::{Choice, choice_of};
use crate::counts::sum;
use crate::plans::{SplitStmt, copy_guard, split_statement, variables_of};
use dependence_graph::graphs::Graph;
use nest::statement_loops::{Standing, statements_of};
use nest::{GuardedStmt, Loop, Made, Nest, Part, copy_ref};
use nest_rewrite::rewrite_stmt;
use statement_passes::{StatementPass, map_statements, text_rule, with_made};
use std::alloc::Global;
use tree::{Expr, Memory, Name, Ref, Seq};

// ---- statements

#[tactic(auto, using(tree::proofs::Equations::expression_equations))]
fn as_expression(alloc: Global, item: &Ref) -> Result<Expr, Memory>
    ensures { IfOk result (λ e. expression_of e ≡ read_as_expression (reference_of item.now)) }
{
    Ok(Expr::Item(copy_ref(item, alloc)?))
}

// The copy of a read, before which there are so many.
fn copied(
    alloc: Global,
    loops: &[Name],
    stmt: &GuardedStmt,
    copies: u32,
    read: &Ref,
) -> Result<GuardedStmt, Memory>
    ensures { IfOk result (λ new. guarded_of new
        ≡ read_copied (copy_element loops.now) (guarded_of stmt.now) copies (reference_of read.now)) }
{
    Ok(GuardedStmt {
        line: stmt.line,
        guard: copy_guard(alloc, &stmt.guard)?,
        left: element(alloc, loops, copies)?,
        right: as_expression(alloc, read)?,
    })
}

fn canonised(
    alloc: Global,
    symbols: &Seq<Name>,
    loops: &Seq<Loop>,
    stmt: &GuardedStmt,
) -> Result<GuardedStmt, Memory>
    ensures { IfOk result (λ new. guarded_of new
        ≡ in_canonical_text symbols.now (map loop_of loops.now) (guarded_of stmt.now)) }
{
    let mut rule = text_rule(alloc, symbols, loops)?;
    rewrite_stmt(alloc, stmt, &mut rule)
}

// Adds a statement in canonical text.
#[tactic(auto, using(crate::proofs::AddedTexts::run_laws))]
fn add_text(
    alloc: Global,
    symbols: &Seq<Name>,
    loops: &Seq<Loop>,
    stmt: &GuardedStmt,
    made: &mut Seq<Part>,
) -> Result<(), Memory>
    ensures { OnOk result (map part_of made.new ≡ map part_of made.old
        ++ plain.Run (in_canonical_text symbols.now (map loop_of loops.now) (guarded_of stmt.now)) ∷ []) }
{
    made.push(Part::Run(canonised(alloc, symbols, loops, stmt)?))
}

// Adds the copies of these reads, before which there are so many; `names` are the variables of the loops.
#[tactic(auto, using(crate::proofs::AddedTexts::copies_laws))]
fn add_copies(
    alloc: Global,
    symbols: &Seq<Name>,
    loops: &Seq<Loop>,
    names: &Seq<Name>,
    stmt: &GuardedStmt,
    copies: u32,
    reads: &[Ref],
    made: &mut Seq<Part>,
) -> Result<(), Memory>
    ensures { OnOk result (map part_of made.new ≡ map part_of made.old ++ map plain.Run
        (map (in_canonical_text symbols.now (map loop_of loops.now))
        (copies_of (copy_element names.now) (guarded_of stmt.now) copies (map reference_of reads.now)))) }
{
    let Some((first, rest)) = reads.split_first() else {
        return Ok(());
    };
    let copy = copied(alloc, names.as_slice(), stmt, copies, first)?;
    add_text(alloc, symbols, loops, &copy, made)?;
    let next = sum(1, copies)?;
    add_copies(alloc, symbols, loops, names, stmt, next, rest, made)
}

/// The pass that copies reads and reads the copies: by what may be copied, the symbols, and how many copies there are
/// before each statement.
#[derive(Drop)]
struct Splitting {
    choice: Choice,
    symbols: Seq<Name>,
    firsts: Seq<u32>,
}

fn first_at(firsts: &[u32], number: u32) -> u32
    ensures { result ≡ slice_index_or firsts.now number 0 }
{
    match firsts.get(number as usize) {
        Some(first) => *first,
        None => 0,
    }
}

impl Splitting {
    // Adds the copies of a statement, before which there are so many, and what the statement becomes.
    fn add_split(
        &self,
        alloc: Global,
        loops: &Seq<Loop>,
        first: u32,
        stmt: &GuardedStmt,
        split: &SplitStmt,
        made: &mut Seq<Part>,
    ) -> Result<(), Memory>
        ensures { OnOk result (map part_of made.new ≡ map part_of made.old ++ map plain.Run
            (map (in_canonical_text self.now.symbols (map loop_of loops.now))
            (copies_of (copy_element (variables_from_outside (map loop_of loops.now))) (guarded_of stmt.now) first
            (map reference_of split.now.reads) ++ guarded_of split.now.stmt ∷ []))) }
    {
        let names = variables_of(alloc, loops)?;
        let reads = split.reads.as_slice();
        add_copies(
            alloc,
            &self.symbols,
            loops,
            &names,
            stmt,
            first,
            reads,
            made,
        )?;
        add_text(alloc, &self.symbols, loops, &split.stmt, made)
    }
}

impl StatementPass for Splitting {
    ghost use Rattle.node_splitting.specs.Split.{each_split};
    ghost use Rattle.node_splitting.specs.View.{may_of};

    ghost each = { λ p. each_split (may_of p.choice) p.symbols p.firsts };

    fn add_each(
        &mut self,
        alloc: Global,
        loops: &Seq<Loop>,
        number: u32,
        stmt: &GuardedStmt,
        made: &mut Seq<Part>,
    ) -> Result<(), Memory> {
        let count = symbol_count(&self.symbols)?;
        let first = first_at(self.firsts.as_slice(), number);
        let split = split_statement(alloc, &self.choice, count, loops, number, first, stmt)?;
        self.add_split(alloc, loops, first, stmt, &split, made)
    }
}

// ---- numbers and arrays

/// How many copies there are before each of some statements, the arrays of theirs, and how many there are behind them.
#[derive(Drop)]
struct Plan {
    firsts: Seq<u32>,
    arrays: Seq<Made>,
    copies: u32,
}

fn copy_names(alloc: Global, names: &Seq<Name>) -> Result<Seq<Name>, Memory>
    ensures { IfOk result (λ copies. copies ≡ names.now) }
{
    Ok(Seq::from_vec(Vec::from_slice(alloc, names.as_slice())?))
}

// Plans the statement with this number.
fn add_plan(
    alloc: Global,
    nest: &Nest,
    choice: &Choice,
    number: u32,
    standing: &Standing,
    plan: &mut Plan,
) -> Result<(), Memory>
    ensures firsts { OnOk result (plan.new.firsts ≡ plan.old.firsts ++ plan.old.copies ∷ []) }
    ensures arrays { OnOk result (map made_of plan.new.arrays ≡ map made_of plan.old.arrays
        ++ arrays (nest_of nest.now) (map loop_of standing.now.loops) plan.old.copies
        (reads_at (may_of choice.now) (length nest.now.symbols) (map loop_of standing.now.loops) number
        (guarded_of standing.now.stmt))) }
    ensures copies { OnOk result (plan.new.copies ≡ plan.old.copies
        + length (reads_at (may_of choice.now) (length nest.now.symbols) (map loop_of standing.now.loops) number
        (guarded_of standing.now.stmt))) }
{
    let count = symbol_count(&nest.symbols)?;
    let loops = &standing.loops;
    let first = plan.copies;
    let split = split_statement(alloc, choice, count, loops, number, first, &standing.stmt)?;
    let reads = split.reads.as_slice();
    add_arrays(alloc, nest, loops, first, reads, &mut plan.arrays)?;
    plan.firsts.push(first)?;
    plan.copies = split.copies;
    Ok(())
}

// Plans these statements, of which the first one has this number.
fn add_plans(
    alloc: Global,
    nest: &Nest,
    choice: &Choice,
    number: u32,
    standings: &[Standing],
    plan: &mut Plan,
) -> Result<(), Memory>
    ensures firsts { OnOk result (plan.new.firsts ≡ plan.old.firsts
        ++ firsts_from (may_of choice.now) (nest_of nest.now) number plan.old.copies (map standing_of standings.now)) }
    ensures arrays { OnOk result (map made_of plan.new.arrays ≡ map made_of plan.old.arrays
        ++ arrays_from (may_of choice.now) (nest_of nest.now) number plan.old.copies (map standing_of standings.now)) }
    ensures copies { OnOk result (plan.new.copies
        ≡ last_from (may_of choice.now) (nest_of nest.now) number plan.old.copies (map standing_of standings.now)) }
{
    let Some((first, rest)) = standings.split_first() else {
        return Ok(());
    };
    add_plan(alloc, nest, choice, number, first, plan)?;
    add_plans(alloc, nest, choice, sum(1, number)?, rest, plan)
}

fn plan_of(alloc: Global, nest: &Nest, choice: &Choice) -> Result<Plan, Memory>
    ensures firsts { IfOk result (λ plan. plan.firsts ≡ firsts (may_of choice.now) (nest_of nest.now)) }
    ensures arrays { IfOk result (λ plan. map made_of plan.arrays
        ≡ made_arrays (may_of choice.now) (nest_of nest.now)) }
    ensures copies { IfOk result (λ plan. plan.copies ≡ last (may_of choice.now) (nest_of nest.now)) }
{
    let standings = statements_of(alloc, nest)?;
    let mut plan = Plan {
        firsts: Seq::new(alloc),
        arrays: Seq::new(alloc),
        copies: nest.copies,
    };
    add_plans(alloc, nest, choice, 0, standings.as_slice(), &mut plan)?;
    Ok(plan)
}

// ---- the nest

// The nest with these made arrays more, and this number of copies.
fn with_arrays(alloc: Global, nest: Nest, arrays: Seq<Made>, copies: u32) -> Result<Nest, Memory>
    ensures { IfOk result (λ new. nest_of new ≡ record (nest_of nest)
        { made = (nest_of nest).made ++ map made_of arrays; copies = copies }) }
{
    let more = with_made(alloc, &nest, arrays)?;
    Ok(with_count(more, copies))
}

fn with_count(nest: Nest, copies: u32) -> Nest
    ensures { nest_of result ≡ record (nest_of nest) { copies = copies } }
{
    let mut nest = nest;
    nest.copies = copies;
    nest
}

fn split_by(alloc: Global, nest: &Nest, choice: Choice, plan: Plan) -> Result<Nest, Memory>
    ensures { IfOk result (λ new. (plan.firsts ≡ firsts (may_of choice) (nest_of nest.now))
        → (plan.copies ≡ last (may_of choice) (nest_of nest.now))
        → nest_of new ≡ with_copy_arrays (may_of choice) (nest_of nest.now) (map made_of plan.arrays)) }
{
    let symbols = copy_names(alloc, &nest.symbols)?;
    let Plan {
        firsts,
        arrays,
        copies,
    } = plan;
    let mut pass = Splitting {
        choice,
        symbols,
        firsts,
    };
    let mapped = map_statements(alloc, nest, &mut pass)?;
    with_arrays(alloc, mapped, arrays, copies)
}

/// The nest in which reads of what is overwritten within a component are copied right before their statements; None
/// where nothing is copied. The graph is that of the nest.
pub fn split_nodes(alloc: Global, nest: &Nest, graph: &Graph) -> Result<Option<Nest>, Memory>
    ensures { IfOk result (λ new. IsSplitNest (nest_of nest.now) graph.now (option_map nest_of new)) }
{
    let choice = choice_of(alloc, graph.edges.as_slice())?;
    let plan = plan_of(alloc, nest, &choice)?;
    if plan.arrays.is_empty() {
        return Ok(None);
    }
    Ok(Some(split_by(alloc, nest, choice, plan)?))
}
