//! Whether a name stands outside the loops of which it is the variable.
ghost use Rattle.std.specs.Prelude.{◌≡◌, map};
ghost use Rattle.std.specs.List.{list_any};
ghost use Rattle.std.specs.Option.{option_map};
ghost use Rattle.meaning.specs.Reads.{names_in_subscript};
ghost use Rattle.tree.specs.View.{expression_of, reference_of, subscript_of};
ghost use Rattle.nest.specs.View.{branch_of, guarded_of, loop_of, part_of};
ghost use Rattle.nest.specs.statement_loops.Names.{is_among};
ghost use Rattle.last_values.specs.Occurrences.{stands_in_guard, stands_in_left, stands_in_statement, stands_in_bounds};
ghost use Rattle.last_values.specs.Occurrences.{stands_outside, occurs_only_within};
ghost use Rattle.last_values.specs.Arms.{stands_outside_in_branch};

use nest::statement_loops::{stands_in, stands_in_sub};
use nest::{GuardedStmt, Loop, NestArm, Part};
use tree::{Expr, Name, Ref, Seq, Sub};

fn stands_in_guard(guard: &Option<Expr>, name: Name) -> bool
    ensures { result ≡ stands_in_guard name (option_map expression_of guard.now) }
{
    match guard {
        Some(expr) => stands_in(expr, name),
        None => false,
    }
}

fn stands_in_subs(subs: &Seq<Sub>, name: Name) -> bool
    ensures { result ≡ list_any (λ p. is_among (names_in_subscript p) name) (map subscript_of subs.now) }
{
    for sub in subs.as_slice() {
        if stands_in_sub(sub, name) {
            return true;
        }
    }
    false
}

#[tactic(auto, using(nest::proofs::statement_loops::AmongLaws::among_laws))]
fn stands_in_left(left: &Ref, name: Name) -> bool
    ensures { result ≡ stands_in_left name (reference_of left.now) }
{
    left.name == name || stands_in_subs(&left.subs, name)
}

fn stands_in_stmt(stmt: &GuardedStmt, name: Name) -> bool
    ensures { result ≡ stands_in_statement name (guarded_of stmt.now) }
{
    stands_in_guard(&stmt.guard, name)
        || stands_in_left(&stmt.left, name)
        || stands_in(&stmt.right, name)
}

fn stands_in_bounds(turns: &Loop, name: Name) -> bool
    ensures { result ≡ stands_in_bounds name (loop_of turns.now) }
{
    stands_in(&turns.first, name) || stands_in(&turns.last, name)
}

#[cycle(outside)]
#[tactic(auto, using(crate::proofs::OutsideLaws::outside_laws))]
fn stands_outside(part: &Part, name: Name) -> bool
    ensures { result ≡ stands_outside name (part_of part.now) }
{
    match part {
        Part::Run(stmt) => stands_in_stmt(stmt, name),
        Part::Turns(turns, body) => {
            stands_in_bounds(turns, name)
                || (turns.var != name && stands_outside_in_parts(body, name))
        }
        Part::Choice(arms, other) => {
            stands_outside_in_arms(arms, name) || stands_outside_in_parts(other, name)
        }
        Part::Label(_) => false,
        Part::Jump(_) => false,
    }
}

#[cycle(outside)]
fn stands_outside_in_parts(parts: &Seq<Part>, name: Name) -> bool
    ensures { result ≡ list_any (stands_outside name) (map part_of parts.now) }
{
    for part in parts.as_slice() {
        if stands_outside(part, name) {
            return true;
        }
    }
    false
}

#[cycle(outside)]
#[tactic(auto, using(crate::proofs::OutsideLaws::outside_laws))]
fn stands_outside_in_arm(arm: &NestArm, name: Name) -> bool
    ensures { result ≡ stands_outside_in_branch name (branch_of arm.now) }
{
    stands_in(&arm.test, name) || stands_outside_in_parts(&arm.body, name)
}

#[cycle(outside)]
fn stands_outside_in_arms(arms: &Seq<NestArm>, name: Name) -> bool
    ensures { result ≡ list_any (stands_outside_in_branch name) (map branch_of arms.now) }
{
    for arm in arms.as_slice() {
        if stands_outside_in_arm(arm, name) {
            return true;
        }
    }
    false
}

/// Whether the name occurs in this part of a nest nowhere but in the bodies of the loops of which it is the variable.
pub fn occurs_only_within(part: &Part, name: Name) -> bool
    ensures { result ≡ occurs_only_within name (part_of part.now) }
{
    !stands_outside(part, name)
}
