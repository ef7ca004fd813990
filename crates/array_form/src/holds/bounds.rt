//! Statements that name cells within the declared bounds whatever their guards are.
ghost use Rattle.std.specs.Prelude.{◌≡◌, ◌≤◌, ◌==◌, ◌&&◌, ◌||◌, All, List, Option, is_none, ℕ, length};
ghost use Rattle.std.specs.List.{list_all, list_any};
ghost use Rattle.std.specs.Cmp.Lexicographic.{pointwise};
ghost use Rattle.subscripts.specs.Shapes.{IsSmall};
ghost use Rattle.tree.specs.View.{bounds_of};
ghost use Rattle.linear_forms.specs.Affines.{IsAffineOf, IsFound};
ghost use Rattle.linear_forms.specs.Linear.{Form};
ghost use Rattle.nest.specs.Bodies.{Standing, nest_statements};
ghost use Rattle.nest.specs.Plain.{Nest};
ghost use Rattle.array_form.specs.forms.Loops as forms;
ghost use Rattle.array_form.specs.holds.Bounds as plain;
ghost use Rattle.array_form.specs.holds.Bounds.{is_safe, is_safe_subscript, is_same, is_zero_form, lies_within};
ghost use Rattle.array_form.specs.holds.Bounds.{loop_numbers_round, meets, trips_round};
ghost use Rattle.array_form.specs.holds.Boxes.{trips_of};
ghost use Rattle.array_form.specs.holds.Noted.{AreBounded, AreNoted, HasSmallForm, IsBounded, IsNoted};

use crate::holds::boxes::{is_in_box, is_nought};
use crate::holds::loops::CountedLoop;
use crate::holds::noted::{Bounded, Noted};
use crate::trips::{are_unused, are_zero};
use linear_forms::combined;
use subscripts::Affine;
use tree::Dim;

fn is_zero(form: &Affine) -> bool
    ensures { (n : ℕ) (f : Form) → n ≤ 7 → IsAffineOf n f form.now → result ≡ is_zero_form f }
{
    if !are_zero(&form.loops) {
        return false;
    }
    if !are_unused(&form.syms) {
        return false;
    }
    is_nought(form.constant)
}

// Whether the second form is there, and is the first one.
fn is_same(form: &Affine, other: &Option<Affine>) -> bool
    ensures { (n : ℕ) (f : Form) (g : Option Form) → n ≤ 7 → IsAffineOf n f form.now → IsFound n g other.now
        → result ≡ is_same f g }
{
    let Some(other) = other else {
        return false;
    };
    match combined(form, other, -1) {
        Some(rest) => is_zero(&rest),
        None => false,
    }
}

fn lies_within(bounds: Dim, others: Dim) -> bool
    ensures { result ≡ lies_within (bounds_of bounds) (bounds_of others) }
{
    bounds.lower <= others.lower && others.upper <= bounds.upper
}

fn same_numbers(loops: &[u32], others: &[u32]) -> bool
    ensures { result ≡ pointwise (λ i j. i == j) loops.now others.now }
{
    let Some((first, loops)) = loops.split_first() else {
        return others.is_empty();
    };
    let Some((other, others)) = others.split_first() else {
        return false;
    };
    *first == *other && same_numbers(loops, others)
}

// Whether a subscript is an equal one with no wider bounds.
fn equals(sub: &Bounded, form: &Affine, bounds: Dim) -> bool
    ensures { (n : ℕ) (f : Form) (q : plain.Bounded) → n ≤ 7 → IsAffineOf n f form.now → IsBounded n q sub.now
        → result ≡ (is_same f q.form && lies_within (bounds_of bounds) q.bounds) }
{
    is_same(form, &sub.form) && lies_within(bounds, sub.bounds)
}

// Whether one of these is.
fn has_equal(subs: &[Bounded], form: &Affine, bounds: Dim) -> bool
    ensures { (n : ℕ) (f : Form) (qs : List plain.Bounded) → n ≤ 7 → IsAffineOf n f form.now
        → AreBounded n qs subs.now → result
        ≡ list_any (λ (q : plain.Bounded). is_same f q.form && lies_within (bounds_of bounds) q.bounds) qs }
{
    let Some((first, rest)) = subs.split_first() else {
        return false;
    };
    equals(first, form, bounds) || has_equal(rest, form, bounds)
}

fn meets(noted: &Noted, loops: &[u32], form: &Affine, bounds: Dim) -> bool
    ensures { (n : Nest) (y : Standing) (f : Form) → length loops.now ≤ 7 → IsAffineOf (length loops.now) f form.now
        → IsNoted n y noted.now → result ≡ meets n loops.now f (bounds_of bounds) y }
{
    if noted.guarded {
        return false;
    }
    if !same_numbers(noted.loops.as_slice(), loops) {
        return false;
    }
    has_equal(noted.subscripts.as_slice(), form, bounds)
}

// Whether one of the statements is unguarded, in the same loops, and has an equal subscript with no wider bounds.
fn is_met(all: &[Noted], loops: &[u32], form: &Affine, bounds: Dim) -> bool
    ensures { (n : Nest) (ys : List Standing) (f : Form) → length loops.now ≤ 7
        → IsAffineOf (length loops.now) f form.now → AreNoted n ys all.now
        → result ≡ list_any (meets n loops.now f (bounds_of bounds)) ys }
{
    let Some((first, rest)) = all.split_first() else {
        return false;
    };
    meets(first, loops, form, bounds) || is_met(rest, loops, form, bounds)
}

fn is_safe_subscript(loops: &[CountedLoop], all: &[Noted], numbers: &[u32], sub: &Bounded) -> bool
    requires few { length loops.now ≤ 7 }
    requires small { HasSmallForm sub.now }
    ensures { (n : Nest) (x : Standing) (q : plain.Bounded) → AreNoted n (nest_statements n) all.now
        → trips_of (length loops.now) loops.now ≡ trips_round x → numbers.now ≡ loop_numbers_round x
        → IsBounded (length loops.now) q sub.now → result ≡ is_safe_subscript n x q }
{
    match &sub.form {
        None => false,
        Some(form) => {
            is_in_box(loops, form, sub.bounds) || is_met(all, numbers, form, sub.bounds)
        }
    }
}

fn are_safe(loops: &[CountedLoop], all: &[Noted], numbers: &[u32], subs: &[Bounded]) -> bool
    requires few { length loops.now ≤ 7 }
    requires small { All HasSmallForm subs.now }
    ensures { (n : Nest) (x : Standing) (qs : List plain.Bounded) → AreNoted n (nest_statements n) all.now
        → trips_of (length loops.now) loops.now ≡ trips_round x → numbers.now ≡ loop_numbers_round x
        → AreBounded (length loops.now) qs subs.now → result ≡ list_all (is_safe_subscript n x) qs }
{
    let Some((first, rest)) = subs.split_first() else {
        return true;
    };
    is_safe_subscript(loops, all, numbers, first) && are_safe(loops, all, numbers, rest)
}

// Whether each subscript of a statement in these loops, which may be out of bounds, stays within the declared bounds
// over constant trips, or is met: a statement without a guard, in the same loops, has an equal one with no wider
// bounds.
fn is_safe(loops: &[CountedLoop], all: &[Noted], own: &Noted) -> bool
    requires few { length loops.now ≤ 7 }
    requires small { All HasSmallForm own.now.subscripts }
    ensures { (n : Nest) (x : Standing) → AreNoted n (nest_statements n) all.now
        → trips_of (length loops.now) loops.now ≡ trips_round x → IsNoted n x own.now → result ≡ is_safe n x }
{
    own.sized && are_safe(loops, all, own.loops.as_slice(), own.subscripts.as_slice())
}

/// Whether a statement has no guard, or is safe.
pub fn is_safe_if_guarded(loops: &[CountedLoop], all: &[Noted], own: &Noted) -> bool
    requires few { length loops.now ≤ 7 }
    requires small { All HasSmallForm own.now.subscripts }
    ensures { (n : Nest) (x : Standing) → AreNoted n (nest_statements n) all.now
        → trips_of (length loops.now) loops.now ≡ trips_round x → IsNoted n x own.now
        → result ≡ (is_none x.statement.guard || is_safe n x) }
{
    if !own.guarded {
        return true;
    }
    is_safe(loops, all, own)
}
