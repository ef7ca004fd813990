//! The loops and statements of a nest whose private scalars become arrays.
ghost use Rattle.std.specs.Prelude.{◌≡◌, ◌++◌, IfOk, OnOk, map};
ghost use Rattle.nest.specs.Plain.{Run, parts as plain_parts};
ghost use Rattle.nest.specs.View.{guarded_of, part_of};
ghost use Rattle.scalar_expand.specs.Expanded.{copied, copies_in, copy_in, expanded_part, expanded_parts, is_copied_in};
ghost use Rattle.scalar_expand.specs.Expanded.{is_innermost};

use crate::elements::element;
use crate::privates::{Private, RoundLoop};
use crate::values_behind::{has_known_end, item, scalar};
use nest::{GuardedStmt, Part};
use nest_rewrite::rewrite_stmt;
use rewrite::Rule;
use std::alloc::Global;
use tree::{Memory, Seq};

// ---- copies

fn is_innermost(number: u32, loops: &[RoundLoop]) -> bool
    ensures { result ≡ is_innermost number loops.now }
{
    let Some((first, rest)) = loops.split_first() else {
        return false;
    };
    if rest.is_empty() {
        return first.number == number;
    }
    is_innermost(number, rest)
}

fn is_copied_in(number: u32, private: &Private) -> bool
    ensures { result ≡ is_copied_in number private.now }
{
    !has_known_end(private) && is_innermost(number, private.loops.as_slice())
}

fn copied(alloc: Global, line: u32, private: &Private) -> Result<GuardedStmt, Memory>
    ensures { IfOk result (λ stmt. guarded_of stmt ≡ copied line private.now) }
{
    let value = element(alloc, private)?;
    Ok(GuardedStmt {
        line,
        guard: None,
        left: scalar(alloc, private.name),
        right: item(value),
    })
}

#[tactic(auto, using(nest::proofs::Equations::part_equations))]
fn copy_part(alloc: Global, line: u32, private: &Private) -> Result<Part, Memory>
    ensures { IfOk result (λ part. part_of part ≡ Run (copied line private.now)) }
{
    Ok(Part::Run(copied(alloc, line, private)?))
}

fn add_copy(
    alloc: Global,
    line: u32,
    number: u32,
    private: &Private,
    body: &mut Seq<Part>,
) -> Result<(), Memory>
    ensures { OnOk result (map part_of body.new ≡ map part_of body.old ++ copy_in line number private.now) }
{
    if is_copied_in(number, private) {
        body.push(copy_part(alloc, line, private)?)?;
    }
    Ok(())
}

// Adds the copies that end the body of the loop with this number.
fn add_copies(
    alloc: Global,
    line: u32,
    number: u32,
    privates: &[Private],
    body: &mut Seq<Part>,
) -> Result<(), Memory>
    ensures { OnOk result (map part_of body.new
        ≡ map part_of body.old ++ copies_in line number privates.now) }
{
    let Some((first, rest)) = privates.split_first() else {
        return Ok(());
    };
    add_copy(alloc, line, number, first, body)?;
    add_copies(alloc, line, number, rest, body)
}

// ---- parts

/// What becomes of a part by this rule, where these private scalars may be copied at the end of a loop's body.
#[cycle(expanding)]
#[tactic(auto, using(nest::proofs::Equations::part_equations))]
pub(crate) fn expand_part<R: Rule>(
    alloc: Global,
    line: u32,
    privates: &[Private],
    part: &Part,
    rule: &mut R,
) -> Result<Part, Memory>
    ensures made { IfOk result (λ new. part_of new
        ≡ expanded_part line (R.making rule.old) privates.now (part_of part.now)) }
    ensures same { R.making rule.new ≡ R.making rule.old }
{
    match part {
        Part::Run(stmt) => Ok(Part::Run(rewrite_stmt(alloc, stmt, rule)?)),
        Part::Turns(turns, body) => {
            let mut body = expand_parts(alloc, line, privates, body, rule)?;
            add_copies(alloc, line, turns.number, privates, &mut body)?;
            Ok(Part::Turns(turns.copy(alloc)?, body))
        }
        Part::Choice(..) | Part::Label(_) | Part::Jump(_) => part.copy(alloc),
    }
}

#[cycle(expanding)]
fn expand_parts<R: Rule>(
    alloc: Global,
    line: u32,
    privates: &[Private],
    parts: &Seq<Part>,
    rule: &mut R,
) -> Result<Seq<Part>, Memory>
    ensures made { IfOk result (λ new. map part_of new
        ≡ expanded_parts line (R.making rule.old) privates.now (plain_parts (map part_of parts.now))) }
    ensures same { R.making rule.new ≡ R.making rule.old }
{
    let mut made = Seq::new(alloc);
    for part in parts.as_slice() {
        made.push(expand_part(alloc, line, privates, part, rule)?)?;
    }
    Ok(made)
}
