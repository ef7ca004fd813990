//! Left sides that are array forms.
ghost use Rattle.std.specs.Prelude.{◌≡◌, ◌≤◌, ◌^◌, ◌==◌, if◌then◌else◌, IfOk, length, map};
ghost use Rattle.std.specs.List.{list_all};
ghost use Rattle.array_form.specs.declared.holds.loops.CountedLoop.{CountedLoop};
ghost use Rattle.array_form.specs.forms.Loops.{is_among};
ghost use Rattle.meaning.specs.Reads.{names_in_subscript};
ghost use Rattle.array_form.specs.forms.Statements.{has_form, is_linear_subscript, subscript_occurrences};
ghost use Rattle.tree.specs.Plain.{subscripts};
ghost use Rattle.tree.specs.View.{subscript_of};
ghost use Rattle.array_form.specs.holds.View.{surroundings_view};
ghost use Rattle.array_form.specs.holds.Levels.{is_formed, loops_from_place};

use crate::holds::loops::{CountedLoop, Surroundings, loop_names};
use crate::holds::loops_standing::loops_in_sub;
use linear_forms::linear;
use nest::statement_loops::stands_in_sub;
use std::alloc::Global;
use tree::{Memory, Name, Seq, Sub};

// 1 where the name stands in the subscript, else 0.
#[tactic(auto, using(crate::proofs::holds::AmongLaws::among_laws))]
fn occurrence(name: Name, sub: &Sub) -> usize
    ensures value { result ≡ (if is_among (names_in_subscript (subscript_of sub.now)) name then 1 else 0) }
    ensures most { result ≤ 1 }
{
    if stands_in_sub(sub, name) { 1 } else { 0 }
}

// In how many of the subscripts the name stands.
fn occurrences(name: Name, subs: &Seq<Sub>) -> usize
    ensures { result ≡ subscript_occurrences name (subscripts (map subscript_of subs.now)) }
{
    let mut count = 0;
    for sub in subs.as_slice() {
        count += occurrence(name, sub);
    }
    count
}

#[tactic(auto, using(crate::proofs::holds::LinearLaws::linear_laws))]
fn is_linear(alloc: Global, a: &Surroundings, sub: &Sub) -> Result<bool, Memory>
    requires { length a.now.symbols ≤ 2 ^ 16 }
    ensures { IfOk result (λ b. b ≡ is_linear_subscript (surroundings_view a.now) (subscript_of sub.now)) }
{
    match sub {
        Sub::One(expr) => {
            let names = loop_names(alloc, a.loops.as_slice())?;
            match linear(expr, names.as_slice(), &a.symbols) {
                Some(_) => Ok(true),
                None => Ok(false),
            }
        }
        Sub::Part(..) => Ok(false),
    }
}

// Whether a subscript with one of the loops from this place on is linear, and has no other one.
fn is_formed(alloc: Global, a: &Surroundings, from: usize, sub: &Sub) -> Result<bool, Memory>
    requires symbols { length a.now.symbols ≤ 2 ^ 16 }
    requires from { from ≤ length a.now.loops }
    ensures { IfOk result (λ b. b
        ≡ is_formed (surroundings_view a.now) (loops_from_place a.now from) (subscript_of sub.now)) }
{
    let here = loops_in_sub(alloc, &a.loops.as_slice()[from..], sub)?;
    if here.len() == 0 {
        return Ok(true);
    }
    if here.len() == 1 {
        return is_linear(alloc, a, sub);
    }
    Ok(false)
}

fn are_formed(alloc: Global, a: &Surroundings, from: usize, subs: &Seq<Sub>) -> Result<bool, Memory>
    requires symbols { length a.now.symbols ≤ 2 ^ 16 }
    requires from { from ≤ length a.now.loops }
    ensures { IfOk result (λ b. b
        ≡ list_all (is_formed (surroundings_view a.now) (loops_from_place a.now from)) (map subscript_of subs.now)) }
{
    for sub in subs.as_slice() {
        if !is_formed(alloc, a, from, sub)? {
            return Ok(false);
        }
    }
    Ok(true)
}

// Whether each of the loops stands in exactly one subscript.
fn occur_once(loops: &[CountedLoop], subs: &Seq<Sub>) -> bool
    ensures { result
        ≡ list_all (λ (l : CountedLoop). subscript_occurrences l.var
        (subscripts (map subscript_of subs.now)) == 1) loops.now }
{
    for turns in loops {
        if occurrences(turns.var, subs) != 1 {
            return false;
        }
    }
    true
}

/// Whether each loop from this place on, counted from 0, stands in exactly one of the subscripts, and each subscript
/// with one of these is linear and has no other one.

pub fn has_form(
    alloc: Global,
    a: &Surroundings,
    from: usize,
    subs: &Seq<Sub>,
) -> Result<bool, Memory>
    requires symbols { length a.now.symbols ≤ 2 ^ 16 }
    requires from { from ≤ length a.now.loops }
    ensures { IfOk result (λ b. b ≡ has_form (surroundings_view a.now) (loops_from_place a.now from)
        (subscripts (map subscript_of subs.now))) }
{
    if !occur_once(&a.loops.as_slice()[from..], subs) {
        return Ok(false);
    }
    are_formed(alloc, a, from, subs)
}
