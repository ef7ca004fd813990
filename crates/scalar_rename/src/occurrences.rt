//! Where a scalar stands in the statements of a nest.
ghost use Rattle.std.specs.Prelude.{◌≡◌, map, not, ◌==◌};
ghost use Rattle.std.specs.List.{list_all, list_any};
ghost use Rattle.std.specs.Option.{option_map};
ghost use Rattle.std.specs.Str.{bytes_eq};
ghost use Rattle.last_values.specs.Occurrences.{stands_in_guard, stands_in_left, stands_in_statement};
ghost use Rattle.meaning.specs.Reads.{names_in_subscript};
ghost use Rattle.nest.specs.View.{guarded_of, loop_of};
ghost use Rattle.nest.specs.statement_loops.Names.{is_among};
ghost use Rattle.nest.specs.statement_loops.Standings.{standing_of};
ghost use Rattle.scalar_expand.specs.Privates.{are_same_loops, begins_anew, is_source, stands_only_in};
ghost use Rattle.scalar_rename.specs.Ranges.{begins_range, stands_in_one_body};
ghost use Rattle.tree.specs.View.{expression_of, reference_of, subscript_of};

use nest::statement_loops::{Standing, stands_in, stands_in_sub};
use nest::{GuardedStmt, Loop};
use tree::{Expr, Name, Ref, Sub};

// ---- names

fn has_no_underscore(text: &[u8]) -> bool
    ensures { result ≡ list_all (λ c. not (c == 95)) text.now }
{
    let Some((first, rest)) = text.split_first() else {
        return true;
    };
    *first != 95 && has_no_underscore(rest)
}

/// Whether FORTRAN 77 has the name.
pub(crate) fn is_source(name: Name) -> bool
    ensures { result ≡ is_source name }
{
    let text = name.text();
    text.len() <= 6 && has_no_underscore(text)
}

// ---- where a name stands

fn stands_in_guard(guard: &Option<Expr>, name: Name) -> bool
    ensures { result ≡ stands_in_guard name (option_map expression_of guard.now) }
{
    match guard {
        Some(expr) => stands_in(expr, name),
        None => false,
    }
}

fn stands_in_subs(subs: &[Sub], name: Name) -> bool
    ensures { result ≡ list_any (λ p. is_among (names_in_subscript p) name) (map subscript_of subs.now) }
{
    let Some((first, rest)) = subs.split_first() else {
        return false;
    };
    stands_in_sub(first, name) || stands_in_subs(rest, name)
}

#[tactic(auto, using(nest::proofs::statement_loops::AmongLaws::among_laws))]
fn stands_in_left(left: &Ref, name: Name) -> bool
    ensures { result ≡ stands_in_left name (reference_of left.now) }
{
    left.name == name || stands_in_subs(left.subs.as_slice(), name)
}

fn stands_in_stmt(stmt: &GuardedStmt, name: Name) -> bool
    ensures { result ≡ stands_in_statement name (guarded_of stmt.now) }
{
    stands_in_guard(&stmt.guard, name)
        || stands_in_left(&stmt.left, name)
        || stands_in(&stmt.right, name)
}

#[tactic(auto, using(tree::proofs::Equations::expression_equations))]
fn is_left(left: &Ref, name: Name) -> bool
    ensures { result ≡ bytes_eq (reference_of left.now).name name }
{
    left.name == name
}

/// Whether the statement gives the scalar a value, always.
pub(crate) fn begins_range(stmt: &GuardedStmt, name: Name) -> bool
    ensures { result ≡ begins_range name (guarded_of stmt.now) }
{
    is_left(&stmt.left, name) && stmt.guard.is_none()
}

fn begins_anew(stmt: &GuardedStmt, name: Name) -> bool
    ensures { result ≡ begins_anew name (guarded_of stmt.now) }
{
    is_left(&stmt.left, name) && stmt.guard.is_none() && !stands_in(&stmt.right, name)
}

// ---- one loop's own body

fn are_same_loops(first: &[Loop], second: &[Loop]) -> bool
    ensures { result ≡ are_same_loops (map loop_of first.now) (map loop_of second.now) }
{
    let Some((one, first)) = first.split_first() else {
        return second.is_empty();
    };
    let Some((other, second)) = second.split_first() else {
        return false;
    };
    one.number == other.number && are_same_loops(first, second)
}

fn stands_only_in(standing: &Standing, name: Name, loops: &[Loop]) -> bool
    ensures { result ≡ stands_only_in name (map loop_of loops.now) (standing_of standing.now) }
{
    !stands_in_stmt(&standing.stmt, name) || are_same_loops(standing.loops.as_slice(), loops)
}

fn all_stand_in(standings: &[Standing], name: Name, loops: &[Loop]) -> bool
    ensures { result ≡ list_all (stands_only_in name (map loop_of loops.now)) (map standing_of standings.now) }
{
    let Some((first, rest)) = standings.split_first() else {
        return true;
    };
    stands_only_in(first, name, loops) && all_stand_in(rest, name, loops)
}

/// Whether all statements in which the scalar stands are in one loop's own body, the first of which gives it a value,
/// always, without reading it.
pub(crate) fn stands_in_one_body(standings: &[Standing], name: Name) -> bool
    ensures { result ≡ stands_in_one_body name (map standing_of standings.now) }
{
    let Some((first, rest)) = standings.split_first() else {
        return false;
    };
    if stands_in_stmt(&first.stmt, name) {
        return begins_anew(&first.stmt, name) && all_stand_in(rest, name, first.loops.as_slice());
    }
    stands_in_one_body(rest, name)
}
