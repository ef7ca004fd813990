//! The references of a nest.
ghost use Rattle.std.specs.Prelude.{◌≡◌, ◌++◌, ◌↔◌, All, IfOk, IsTrue, OnOk, map};
ghost use Rattle.tree.specs.View.{reference_of, subscript_of};
ghost use Rattle.tree.specs.Plain.{subscripts};
ghost use Rattle.dependence_graph.specs.nest_graph.Ready.{AreElements, IsElement};
ghost use Rattle.dependence_graph.specs.nest_graph.References.{references_of};
ghost use Rattle.dependence_graph.specs.nest_ready.Gathered.{HaveSameRank, all_references};
ghost use Rattle.nest.specs.statement_loops.Standings.{standing_of};

use crate::nest_ready::conjunctions::both_true;
use crate::nest_references::references_of;
use nest::copy_ref;
use nest::statement_loops::Standing;
use std::alloc::Global;
use tree::{Memory, Ref, Seq, Sub};

#[tactic(auto, using(crate::proofs::nest_ready::RankLaws::element_laws))]
fn are_elements(subs: &[Sub]) -> bool
    ensures { IsTrue result ↔ AreElements (subscripts (map subscript_of subs.now)) }
{
    let Some((sub, rest)) = subs.split_first() else {
        return true;
    };
    match sub {
        Sub::One(_) => are_elements(rest),
        Sub::Part(..) => false,
    }
}

// A scalar, or an element of an array of at most seven dimensions.
#[tactic(auto, using(crate::proofs::nest_ready::RankLaws::is_element_by))]
fn is_element(item: &Ref) -> bool
    ensures { IsTrue result ↔ IsElement (reference_of item.now) }
{
    both_true(item.subs.len() <= 7, are_elements(item.subs.as_slice()))
}

/// Whether each is a scalar, or an element of an array of at most seven dimensions.
pub fn all_elements(items: &[Ref]) -> bool
    ensures { IsTrue result ↔ All (λ r. IsElement (reference_of r)) items.now }
{
    for item in items {
        if !is_element(item) {
            return false;
        }
    }
    true
}

#[tactic(auto, using(crate::proofs::nest_ready::RankLaws::rank_by))]
fn has_rank_of(one: &Ref, other: &Ref) -> bool
    ensures { IsTrue result ↔ HaveSameRank (reference_of one.now) (reference_of other.now) }
{
    if one.name != other.name {
        return true;
    }
    one.subs.len() == other.subs.len()
}

fn have_rank_of(one: &Ref, others: &[Ref]) -> bool
    ensures { IsTrue result ↔ All (λ r. HaveSameRank (reference_of one.now) (reference_of r)) others.now }
{
    for other in others {
        if !has_rank_of(one, other) {
            return false;
        }
    }
    true
}

/// Whether those of one name have as many subscripts.
pub fn have_ranks(items: &[Ref]) -> bool
    ensures { IsTrue result
        ↔ All (λ q. All (λ r. HaveSameRank (reference_of q) (reference_of r)) items.now) items.now }
{
    for item in items {
        if !have_rank_of(item, items) {
            return false;
        }
    }
    true
}

fn add_items(list: &mut Seq<Ref>, alloc: Global, items: &[Ref]) -> Result<(), Memory>
    ensures { OnOk result (map reference_of list.new ≡ map reference_of list.old ++ map reference_of items.now) }
{
    for item in items {
        list.push(copy_ref(item, alloc)?)?;
    }
    Ok(())
}

fn add_references(list: &mut Seq<Ref>, alloc: Global, standing: &Standing) -> Result<(), Memory>
    ensures { OnOk result (map reference_of list.new ≡ map reference_of list.old
        ++ references_of (standing_of standing.now)) }
{
    let items = references_of(alloc, standing)?;
    add_items(list, alloc, items.as_slice())
}

/// All references of statements.
pub fn all_references(alloc: Global, all: &[Standing]) -> Result<Seq<Ref>, Memory>
    ensures { IfOk result (λ items. map reference_of items ≡ all_references (map standing_of all.now)) }
{
    let mut list = Seq::new(alloc);
    for standing in all {
        add_references(&mut list, alloc, standing)?;
    }
    Ok(list)
}
