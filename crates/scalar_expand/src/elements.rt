//! Elements of the arrays that take the place of private scalars.
ghost use Rattle.std.specs.Prelude.{◌≡◌, IfOk, map, option_copied, reverse};
ghost use Rattle.std.specs.Option.{option_map};
ghost use Rattle.tree.specs.Plain.{Only, subscripts};
ghost use Rattle.tree.specs.View.{expression_of, reference_of, subscript_of};
ghost use Rattle.scalar_expand.specs.Expanded.{element, expanded_node, expanded_reference, named_private};
ghost use Rattle.scalar_expand.specs.Expanded.{loop_subscript};
ghost use Rattle.scalar_expand.specs.View.{made_or};

use crate::privates::{Private, RoundLoop};
use crate::texts::bare;
use rewrite::{NodeRule, Rule, rewrite_expression, rewrite_parts};
use std::alloc::Global;
use tree::{Expr, Memory, Name, Ref, Seq, Sub};

#[tactic(auto, using(tree::proofs::Equations::expression_equations))]
pub(crate) fn only(expr: Expr) -> Sub
    ensures { subscript_of result ≡ Only (expression_of expr) }
{
    Sub::One(expr)
}

fn variables(alloc: Global, loops: &[RoundLoop]) -> Result<Vec<Sub>, Memory>
    ensures { IfOk result (λ subs. map subscript_of subs.items ≡ map loop_subscript loops.now) }
{
    let mut subs = Vec::new(alloc);
    for turns in loops {
        subs.push(only(bare(alloc, turns.variable)))?;
    }
    Ok(subs)
}

/// The array's element by these subscripts, the last one of which is that of the innermost loop.
pub(crate) fn element_at(array: Name, mut subs: Vec<Sub>) -> Ref
    ensures { reference_of result
        ≡ record { name = array; subscripts = subscripts (reverse (map subscript_of subs.items)) } }
{
    subs.reverse();
    Ref {
        name: array,
        subs: Seq::from_vec(subs),
    }
}

/// The element of the iteration at hand.
pub(crate) fn element(alloc: Global, private: &Private) -> Result<Ref, Memory>
    ensures { IfOk result (λ r. reference_of r ≡ element private.now) }
{
    let subs = variables(alloc, private.loops.as_slice())?;
    Ok(element_at(private.array, subs))
}

/// The private scalar of this name.
pub(crate) fn named_private(privates: &[Private], name: Name) -> Option<&Private>
    ensures { option_copied result ≡ named_private privates.now name }
{
    let Some((first, rest)) = privates.split_first() else {
        return None;
    };
    if first.name == name {
        return Some(first);
    }
    named_private(rest, name)
}

// The element that stands for a reference, if it is a private scalar.
#[tactic(auto, using(crate::proofs::ElementLaws::reference_laws))]
fn element_for(alloc: Global, privates: &[Private], item: &Ref) -> Result<Option<Ref>, Memory>
    ensures { IfOk result (λ made. made_or (option_map reference_of made) (reference_of item.now)
        ≡ expanded_reference privates.now (reference_of item.now)) }
{
    if !item.subs.is_empty() {
        return Ok(None);
    }
    match named_private(privates, item.name) {
        Some(private) => Ok(Some(element(alloc, private)?)),
        None => Ok(None),
    }
}

#[tactic(auto, using(tree::proofs::Equations::expression_equations))]
fn node_for(alloc: Global, privates: &[Private], node: &Expr) -> Result<Option<Expr>, Memory>
    ensures { IfOk result (λ made. made_or (option_map expression_of made) (expression_of node.now)
        ≡ expanded_node privates.now (expression_of node.now)) }
{
    match node {
        Expr::Item(item) => match element_for(alloc, privates, item)? {
            Some(element) => Ok(Some(Expr::Item(element))),
            None => Ok(None),
        },
        Expr::Int(_)
        | Expr::Truth(_)
        | Expr::Un(..)
        | Expr::Bin(..)
        | Expr::Call(..)
        | Expr::List(..)
        | Expr::Spread(..)
        | Expr::Transpose(_)
        | Expr::Reshape(..)
        | Expr::Reduce(..) => Ok(None),
    }
}

/// The rule by which private scalars become elements. What the stores of the two runs have in common differs from place
/// to place, so it suits no node by itself: laws of the pass say what it keeps.
#[derive(Drop)]
pub struct Expansion {
    pub privates: Seq<Private>,
}

impl NodeRule for Expansion {
    ghost use Rattle.scalar_expand.specs.Expanded.{expanding};

    ghost making = { λ r. expanding r.privates };

    fn node(&mut self, alloc: Global, _first: &Expr, node: Expr) -> Result<Expr, Memory> {
        match node_for(alloc, self.privates.as_slice(), &node) {
            Ok(Some(element)) => Ok(element),
            Ok(None) => Ok(node),
            Err(memory) => Err(memory),
        }
    }
}

impl Rule for Expansion {
    ghost use Rattle.scalar_expand.specs.Expanded.{expanding};
    ghost use Rattle.scalar_expand.specs.Expansion.{expansion_keeps, none_suits, nothing_alike};

    ghost making = { λ r. expanding r.privates };

    ghost suits = { λ r. none_suits };

    ghost like = { λ r bits turns. nothing_alike };

    ghost keeps = { expansion_keeps };

    fn expression(&mut self, alloc: Global, expr: &Expr) -> Result<Expr, Memory> {
        rewrite_expression(alloc, expr, self)
    }

    fn parts(&mut self, alloc: Global, item: &Ref) -> Result<Ref, Memory> {
        rewrite_parts(alloc, item, self)
    }

    fn left(&mut self, alloc: Global, left: Ref) -> Result<Ref, Memory> {
        match element_for(alloc, self.privates.as_slice(), &left) {
            Ok(Some(element)) => Ok(element),
            Ok(None) => Ok(left),
            Err(memory) => Err(memory),
        }
    }
}
