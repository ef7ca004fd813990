//! Loops that stand in a text.
ghost use Rattle.std.specs.Prelude.{◌≡◌, ◌≤◌, ◌++◌, ◌∷◌, ◌&&◌, [], if◌then◌else◌, IfOk, OnOk, length, map};
ghost use Rattle.std.specs.List.{list_all, position_or_len};
ghost use Rattle.std.specs.Cmp.Lexicographic.{pointwise};
ghost use Rattle.std.specs.Str.{bytes_eq};
ghost use Rattle.array_form.specs.forms.Loops.{is_among};
ghost use Rattle.meaning.specs.Reads.{names_in, names_in_subscript};
ghost use Rattle.tree.specs.View.{expression_of, subscript_of};
ghost use Rattle.array_form.specs.holds.View.{loop_names};
ghost use Rattle.array_form.specs.Loops.{has_one, has_parts, in_order, is_exchanged, standing_in};

use crate::holds::CountedLoop;
use nest::statement_loops::{stands_in, stands_in_sub};
use std::alloc::Global;
use tree::{Expr, Memory, Name, Seq, Sub};

fn push_if(those: &mut Seq<CountedLoop>, turns: CountedLoop, stands: bool) -> Result<(), Memory>
    ensures { OnOk result (those.new ≡ those.old ++ (if stands then turns ∷ [] else [])) }
{
    if stands {
        those.push(turns)?;
    }
    Ok(())
}

/// Those of the loops whose variables stand in the expression.
#[tactic(auto, using(crate::proofs::LoopLaws::standing_laws))]
pub fn standing_in(
    alloc: Global,
    loops: &[CountedLoop],
    expr: &Expr,
) -> Result<Seq<CountedLoop>, Memory>
    ensures { IfOk result (λ those. those ≡ standing_in loops.now (names_in (expression_of expr.now))) }
{
    let mut those = Seq::new(alloc);
    for turns in loops {
        push_if(&mut those, *turns, stands_in(expr, turns.var))?;
    }
    Ok(those)
}

#[tactic(auto, using(crate::proofs::LoopLaws::standing_laws))]
fn standing_in_sub(
    alloc: Global,
    loops: &[CountedLoop],
    sub: &Sub,
) -> Result<Seq<CountedLoop>, Memory>
    ensures { IfOk result (λ those. those ≡ standing_in loops.now (names_in_subscript (subscript_of sub.now))) }
{
    let mut those = Seq::new(alloc);
    for turns in loops {
        push_if(&mut those, *turns, stands_in_sub(sub, turns.var))?;
    }
    Ok(those)
}

fn push_all(those: &mut Seq<CountedLoop>, more: &[CountedLoop]) -> Result<(), Memory>
    ensures { OnOk result (those.new ≡ those.old ++ more.now) }
{
    for turns in more {
        those.push(*turns)?;
    }
    Ok(())
}

/// The loops that stand in subscripts, in the order of these.
pub fn loops_in_order(
    alloc: Global,
    loops: &[CountedLoop],
    subs: &Seq<Sub>,
) -> Result<Seq<CountedLoop>, Memory>
    ensures { IfOk result (λ those. those ≡ in_order loops.now (map subscript_of subs.now)) }
{
    let mut those = Seq::new(alloc);
    for sub in subs.as_slice() {
        let here = standing_in_sub(alloc, loops, sub)?;
        push_all(&mut those, here.as_slice())?;
    }
    Ok(those)
}

/// Whether each subscript has one of the loops at most.
pub fn one_each(alloc: Global, loops: &[CountedLoop], subs: &Seq<Sub>) -> Result<bool, Memory>
    ensures { IfOk result (λ b. b ≡ list_all (has_one loops.now) (map subscript_of subs.now)) }
{
    for sub in subs.as_slice() {
        let here = standing_in_sub(alloc, loops, sub)?;
        if here.len() > 1 {
            return Ok(false);
        }
    }
    Ok(true)
}

/// Whether a loop with this variable is among them.
pub fn has_loop(loops: &[CountedLoop], name: Name) -> bool
    ensures { result ≡ is_among (loop_names loops.now) name }
{
    let Some((first, rest)) = loops.split_first() else {
        return false;
    };
    first.var == name || has_loop(rest, name)
}

/// The place of the loop with this variable, or the number of loops where there is none.
pub fn place_of(loops: &[CountedLoop], name: Name) -> usize
    ensures place { result ≡ position_or_len (λ x. bytes_eq x name) (loop_names loops.now) }
    ensures within { result ≤ length loops.now }
{
    let Some((first, rest)) = loops.split_first() else {
        return 0;
    };
    if first.var == name {
        return 0;
    }
    1 + place_of(rest, name)
}

/// Whether these are the same loops in the same order.
pub fn same_loops(loops: &[CountedLoop], others: &[CountedLoop]) -> bool
    ensures { result ≡ pointwise bytes_eq (loop_names loops.now) (loop_names others.now) }
{
    let Some((first, loops)) = loops.split_first() else {
        return others.is_empty();
    };
    let Some((other, others)) = others.split_first() else {
        return false;
    };
    first.var == other.var && same_loops(loops, others)
}

fn those_among(
    alloc: Global,
    loops: &[CountedLoop],
    here: &[CountedLoop],
) -> Result<Seq<CountedLoop>, Memory>
    ensures { IfOk result (λ those. those ≡ standing_in loops.now (loop_names here.now)) }
{
    let mut those = Seq::new(alloc);
    for turns in loops {
        push_if(&mut those, *turns, has_loop(here, turns.var))?;
    }
    Ok(those)
}

/// Whether these are the loops but for some that are left out, in the same order.
pub fn are_part(alloc: Global, loops: &[CountedLoop], here: &[CountedLoop]) -> Result<bool, Memory>
    ensures { IfOk result (λ b. b ≡ has_parts loops.now here.now) }
{
    let those = those_among(alloc, loops, here)?;
    Ok(same_loops(those.as_slice(), here))
}

/// Whether these are two loops in the other order.
pub fn are_exchanged(loops: &[CountedLoop], here: &[CountedLoop]) -> bool
    ensures { result ≡ is_exchanged loops.now here.now }
{
    let Some((first, rest)) = loops.split_first() else {
        return false;
    };
    let Some((second, rest)) = rest.split_first() else {
        return false;
    };
    rest.is_empty() && same_loops(&[*second, *first], here)
}
