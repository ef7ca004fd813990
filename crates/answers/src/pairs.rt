//! The answers of the tests of dependence to pairings.
ghost use Rattle.std.specs.Prelude.{◌≤◌, ◌<◌, All, IsTrue, length};
ghost use Rattle.subscripts.specs.Shapes.{AreDirsOf, IsPairing};

use crate::questions::Question;
use crate::words::{class_name, push_verdict};
use dependence_tests::delta_test::test_group;
use dependence_tests::gcd_banerjee::{gcd_refutes, range_refutes};
use dependence_tests::loop_lines::only_loop_of;
use dependence_tests::siv_tests::{test_siv, test_ziv};
use std::alloc::{AllocError, Global};
use subscripts::{Class, Dirs, Group, Groups, Pairing, Verdict, classify, partition};

/// Whether all are pairings, and the directions those of their loops.
fn are_valid(ps: &[Pairing], d: &Dirs) -> bool
    ensures pairings { IsTrue result → All IsPairing ps.now }
    ensures dirs { IsTrue result → All (λ p. AreDirsOf p d.now) ps.now }
{
    for p in ps {
        if !p.is_valid() || !d.suit(p) {
            return false;
        }
    }
    true
}

/// The places of a group's members, in order.
#[derive(Clone, Copy)]
struct Members {
    count: u8,
    at: [u8; 7],
}

/// The members of the group with this number, among so many pairings.
fn members_of(groups: &Groups, number: usize, count: usize) -> Members {
    let mut members = Members {
        count: 0,
        at: [0; 7],
    };
    for (place, of) in groups.of.iter().enumerate() {
        if place < count && usize::from(*of) == number {
            let next = usize::from(members.count);
            if let Some(at) = members.at.get_mut(next) {
                *at = place as u8;
                members.count = members.count.saturating_add(1);
            }
        }
    }
    members
}

/// The group of these members.
fn group_of(ps: &[Pairing], members: &Members) -> Option<Group> {
    let first = ps.first()?;
    let mut group = Group {
        count: members.count,
        at: [*first; 7],
    };
    for (place, at) in members.at.iter().enumerate() {
        if place < usize::from(members.count) {
            *group.at.get_mut(place)? = *ps.get(usize::from(*at))?;
        }
    }
    Some(group)
}

/// The answer for a group.
fn group_verdict(g: &Group, d: &Dirs) -> Option<Verdict> {
    if !g.is_valid() {
        return None;
    }
    let count = usize::from(g.count);
    if count > 7 || !are_valid(&g.at[..count], d) {
        return None;
    }
    Some(test_group(g, d))
}

/// The answer for a pairing alone, and the name of the test, if it has no loop or one.
fn verdict_alone(p: &Pairing, d: &Dirs) -> Option<(Verdict, &'static str)>
    requires pairing { IsPairing p.now }
    requires dirs { AreDirsOf p.now d.now }
{
    if let Class::Ziv = classify(p) {
        return Some((test_ziv(p), "test_ziv"));
    }
    only_loop_of(p)?;
    Some((test_siv(p, d), "test_siv"))
}

fn push_number(out: &mut String, alloc: Global, number: usize) -> Result<(), AllocError> {
    out.push_str(format!(in alloc; "{number}")?.as_str())?;
    Ok(())
}

fn push_members(out: &mut String, alloc: Global, members: &Members) -> Result<(), AllocError> {
    for (place, at) in members.at.iter().enumerate() {
        if place < usize::from(members.count) {
            if place > 0 {
                out.push_str(",")?;
            }
            push_number(out, alloc, usize::from(*at))?;
        }
    }
    Ok(())
}

/// The line of a pairing: its class, its group, and whether the GCD test refutes it.
fn push_pair(
    out: &mut String,
    alloc: Global,
    p: &Pairing,
    place: usize,
    group: u8,
) -> Result<(), AllocError>
    requires { IsPairing p.now }
{
    out.push_str("  pair ")?;
    push_number(out, alloc, place)?;
    out.push_str(": ")?;
    out.push_str(class_name(classify(p)))?;
    out.push_str(", group of ")?;
    push_number(out, alloc, usize::from(group))?;
    if p.known {
        out.push_str(if gcd_refutes(p) {
            ", gcd refutes"
        } else {
            ", gcd doesn't refute"
        })?;
    }
    out.push_str("\n")?;
    Ok(())
}

/// The line of a test's answer.
fn push_answer(
    out: &mut String,
    alloc: Global,
    name: &str,
    members: &Members,
    verdict: &Verdict,
    p: &Pairing,
) -> Result<(), AllocError> {
    out.push_str("    ")?;
    out.push_str(name)?;
    out.push_str(" of ")?;
    push_members(out, alloc, members)?;
    out.push_str(": ")?;
    push_verdict(out, alloc, verdict, (p.from_depth, p.to_depth))
}

/// The line that Banerjee's test refutes a pairing, if it does.
fn push_range(
    out: &mut String,
    alloc: Global,
    p: &Pairing,
    d: &Dirs,
    place: usize,
) -> Result<(), AllocError>
    requires pairing { IsPairing p.now }
    requires dirs { AreDirsOf p.now d.now }
{
    if p.known && range_refutes(p, d) {
        out.push_str("  range refutes ")?;
        push_number(out, alloc, place)?;
        out.push_str("\n")?;
    }
    Ok(())
}

/// What the test of the pairing's group says, where the pairing is the group's first.
fn push_test(
    out: &mut String,
    alloc: Global,
    ps: &[Pairing],
    d: &Dirs,
    groups: &Groups,
    place: usize,
) -> Result<(), AllocError>
    requires pairings { All IsPairing ps.now }
    requires dirs { All (λ p. AreDirsOf p d.now) ps.now }
    requires place { place < length ps.now }
{
    let p = &ps[place];
    let members = members_of(groups, place, ps.len());
    if members.count > 1 {
        if let Some(group) = group_of(ps, &members) {
            if let Some(verdict) = group_verdict(&group, d) {
                return push_answer(out, alloc, "test_group", &members, &verdict, p);
            }
        }
        return Ok(());
    }
    if members.count == 1 {
        if let Some((verdict, name)) = verdict_alone(p, d) {
            return push_answer(out, alloc, name, &members, &verdict, p);
        }
    }
    Ok(())
}

/// The lines of pairings.
fn push_pairs(
    out: &mut String,
    alloc: Global,
    ps: &[Pairing],
    groups: &Groups,
) -> Result<(), AllocError>
    requires count { length ps.now ≤ 7 }
    requires pairings { All IsPairing ps.now }
{
    for (place, p) in ps.iter().enumerate() {
        push_pair(out, alloc, p, place, groups.of[place])?;
    }
    Ok(())
}

/// The answers for pairings.
fn answers_for(alloc: Global, ps: &[Pairing], d: &Dirs) -> Result<String, AllocError>
    requires count { length ps.now ≤ 7 }
    requires pairings { All IsPairing ps.now }
    requires dirs { All (λ p. AreDirsOf p d.now) ps.now }
{
    let mut out = String::new(alloc);
    let groups = partition(ps);
    push_pairs(&mut out, alloc, ps, &groups)?;
    for (place, p) in ps.iter().enumerate() {
        push_range(&mut out, alloc, p, d, place)?;
    }
    for place in 0..ps.len() {
        push_test(&mut out, alloc, ps, d, &groups, place)?;
    }
    Ok(out)
}

/// The classes and groups of pairings under loops for which there are these directions, or that they are none.
pub fn classes(alloc: Global, ps: &[Pairing], d: &Dirs) -> Result<String, AllocError> {
    if ps.len() > 7 || !are_valid(ps, d) {
        return format!(in alloc; "  no pairings\n");
    }
    let mut out = String::new(alloc);
    push_pairs(&mut out, alloc, ps, &partition(ps))?;
    Ok(out)
}

/// The answers to a question, or that it is none.
pub fn answers(alloc: Global, asked: &Question) -> Result<String, AllocError> {
    let count = usize::from(asked.count);
    if count > 7 || !are_valid(&asked.pairs[..count], &asked.dirs) {
        return format!(in alloc; "  no question\n");
    }
    answers_for(alloc, &asked.pairs[..count], &asked.dirs)
}
