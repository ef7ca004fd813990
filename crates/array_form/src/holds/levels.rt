//! The holds of statements.
ghost use Rattle.std.specs.Prelude.{◌≡◌, ◌≤◌, ◌+◌, ◌++◌, ◌&&◌, ◌^◌, IfOk, OnOk, length, not};
ghost use Rattle.std.specs.List.{flat_map};
ghost use Rattle.std.specs.Option.{option_map};
ghost use Rattle.meaning.specs.ArrayValues.{counted};
ghost use Rattle.tree.specs.View.{expression_of, reference_of};
ghost use Rattle.nest.specs.Bodies.{nest_statements};
ghost use Rattle.nest.specs.View.{nest_of};
ghost use Rattle.nest.specs.statement_loops.Standings.{standing_of};
ghost use Rattle.array_form.specs.forms.Statements.{hold_at, stand_in_guard};
ghost use Rattle.array_form.specs.holds.Holds.{all_holds, hold_at_level, hold_with, holds_of, holds_of_standing};
ghost use Rattle.array_form.specs.holds.Holds.{hold_reason_of};
ghost use Rattle.array_form.specs.holds.Levels.{loops_from_place};
ghost use Rattle.array_form.specs.holds.Noted.{AreNoted, IsNoted};
ghost use Rattle.array_form.specs.holds.Plain.{IsPlainNest, IsPlainStatement};
ghost use Rattle.array_form.specs.holds.View.{surroundings_view};

use crate::holds::bounds::is_safe_if_guarded;
use crate::holds::left_sides::has_form;
use crate::holds::loops::{Surroundings, surroundings_of};
use crate::holds::loops_standing::stand_in_guard;
use crate::holds::noted::{Noted, all_noted};
use crate::holds::triangles::is_triangle;
use dependence_graph::graphs::{Hold, HoldReason};
use nest::statement_loops::{Standing, statements_of};
use nest::{GuardedStmt, Nest};
use std::alloc::Global;
use tree::{Memory, Seq};

// Whether one of the loops from this place on stands in the guard of a statement that isn't safe.
fn may_leave_bounds(a: &Surroundings, from: usize, stmt: &GuardedStmt, safe: bool) -> bool
    requires { from ≤ length a.now.loops }
    ensures { result ≡ (stand_in_guard (loops_from_place a.now from) (option_map expression_of stmt.now.guard)
        && not safe) }
{
    stand_in_guard(&a.loops.as_slice()[from..], &stmt.guard) && !safe
}

// What forbids array form from this place on, counted from 0; `safe` where the statement names cells whatever its guard
// is.
#[tactic(auto, using(crate::proofs::holds::HoldLaws::hold_laws))]
fn reason_at(
    alloc: Global,
    a: &Surroundings,
    from: usize,
    stmt: &GuardedStmt,
    safe: bool,
) -> Result<Option<HoldReason>, Memory>
    requires few { length a.now.loops ≤ 7 }
    requires symbols { length a.now.symbols ≤ 2 ^ 16 }
    requires from { from ≤ length a.now.loops }
    ensures { IfOk result (λ reason. reason ≡ hold_reason_of (hold_at (surroundings_view a.now) (from + 1)
        (option_map expression_of stmt.now.guard) (reference_of stmt.now.left) safe)) }
{
    if !has_form(alloc, a, from, &stmt.left.subs)? {
        return Ok(Some(HoldReason::Form));
    }
    if is_triangle(a, from) {
        return Ok(Some(HoldReason::Triangle));
    }
    if may_leave_bounds(a, from, stmt, safe) {
        return Ok(Some(HoldReason::Bounds));
    }
    Ok(None)
}

fn note(holds: &mut Seq<Hold>, s: u32, level: u8, reason: Option<HoldReason>) -> Result<(), Memory>
    ensures { OnOk result (holds.new ≡ holds.old ++ hold_with s level reason) }
{
    match reason {
        Some(reason) => holds.push(Hold {
            stmt: s,
            level,
            reason,
        }),
        None => Ok(()),
    }
}

fn holds_in(
    alloc: Global,
    s: u32,
    a: &Surroundings,
    stmt: &GuardedStmt,
    safe: bool,
) -> Result<Seq<Hold>, Memory>
    requires few { length a.now.loops ≤ 7 }
    requires symbols { length a.now.symbols ≤ 2 ^ 16 }
    ensures { IfOk result (λ all. all ≡ flat_map (hold_at_level s (surroundings_view a.now)
        (option_map expression_of stmt.now.guard) (reference_of stmt.now.left) safe)
        (counted 1 (length a.now.loops))) }
{
    let mut all = Seq::new(alloc);
    for from in 0..a.loops.len() {
        let reason = reason_at(alloc, a, from, stmt, safe)?;
        note(&mut all, s, (from + 1) as u8, reason)?;
    }
    Ok(all)
}

// The holds of one of the statements, which has this number; `own` is what is kept of it.
fn holds_of_standing(
    alloc: Global,
    s: u32,
    nest: &Nest,
    standing: &Standing,
    noted: &[Noted],
    own: &Noted,
) -> Result<Seq<Hold>, Memory>
    requires few { length standing.now.loops ≤ 7 }
    requires symbols { length nest.now.symbols ≤ 2 ^ 16 }
    requires noted { AreNoted (nest_of nest.now) (nest_statements (nest_of nest.now)) noted.now }
    requires own { IsNoted (nest_of nest.now) (standing_of standing.now) own.now }
    ensures { IfOk result (λ all. all ≡ holds_of_standing (nest_of nest.now) s (standing_of standing.now)) }
{
    let a = surroundings_of(alloc, nest, &standing.loops)?;
    let safe = is_safe_if_guarded(a.loops.as_slice(), noted, own);
    holds_in(alloc, s, &a, &standing.stmt, safe)
}

/// The holds of a statement of a nest, the first one at each level, from the outside in. The loops of the nest go from
/// 1 to their trips by 1.
pub fn holds(alloc: Global, s: u32, nest: &Nest) -> Result<Seq<Hold>, Memory>
    requires { IsPlainStatement (nest_of nest.now) s }
    ensures { IfOk result (λ all. all ≡ holds_of (nest_of nest.now) s) }
{
    let all = statements_of(alloc, nest)?;
    let noted = all_noted(alloc, nest, all.as_slice())?;
    let standing = &all.as_slice()[s as usize - 1];
    let own = &noted.as_slice()[s as usize - 1];
    holds_of_standing(alloc, s, nest, standing, noted.as_slice(), own)
}

fn push_all(all: &mut Seq<Hold>, more: &[Hold]) -> Result<(), Memory>
    ensures { OnOk result (all.new ≡ all.old ++ more.now) }
{
    for hold in more {
        all.push(*hold)?;
    }
    Ok(())
}

/// The holds of all statements of a nest, in their order.
pub fn all_holds(alloc: Global, nest: &Nest) -> Result<Seq<Hold>, Memory>
    requires { IsPlainNest (nest_of nest.now) }
    ensures { IfOk result (λ all. all ≡ all_holds (nest_of nest.now)) }
{
    let standings = statements_of(alloc, nest)?;
    let noted = all_noted(alloc, nest, standings.as_slice())?;
    let mut all = Seq::new(alloc);
    for place in 0..standings.len() {
        let standing = &standings.as_slice()[place];
        let own = &noted.as_slice()[place];
        let number = (place + 1) as u32;
        let more = holds_of_standing(alloc, number, nest, standing, noted.as_slice(), own)?;
        push_all(&mut all, more.as_slice())?;
    }
    Ok(all)
}
