//! Forms of the outermost loop's counter in the place of inductions.
ghost use Rattle.std.specs.Prelude.{◌≡◌, IfOk, map};
ghost use Rattle.tree.specs.View.{expression_of};
ghost use Rattle.nest.specs.View.{guarded_of, loop_of};
ghost use Rattle.inductions.specs.Putting.{constant_at, found, grows_at, induction_in, putting, induction_text};
ghost use Rattle.inductions.specs.Putting.{with_induction_forms};

use crate::found::Induction;
use linear_forms::express;
use nest::{GuardedStmt, Loop, Part};
use nest_rewrite::rewrite_stmt;
use rewrite::NodeRule;
use statement_passes::{StatementPass, rewrite_nodes, text_rule};
use std::alloc::Global;
use subscripts::Affine;
use tree::{Expr, Memory, Name, Seq};

/// The inductions of a nest, by the counter of its outermost loop and its symbols, with them among these.
#[derive(Drop)]
pub(crate) struct Substitution {
    pub counter: Name,
    pub symbols: Seq<Name>,
    pub inductions: Seq<Induction>,
}

// The forms that stand for the inductions where so many statements stand before.
#[derive(Drop)]
struct Forms {
    counter: Name,
    inductions: Seq<Induction>,
    number: u32,
}

// The constant of the form of an induction there.
fn constant_at(induction: &Induction, number: u32) -> i64
    ensures { result ≡ constant_at induction.now number }
{
    if number as usize <= induction.place {
        induction.less
    } else {
        0
    }
}

// The canonical text of the form of an induction there.
fn value_text(
    alloc: Global,
    counter: Name,
    induction: &Induction,
    number: u32,
) -> Result<Expr, Memory>
    ensures { IfOk result (λ e. expression_of e ≡ induction_text counter induction.now number) }
{
    let form = Affine {
        loops: [induction.step, 0, 0, 0, 0, 0, 0],
        syms: [
            (0, 1),
            (0, 0),
            (0, 0),
            (0, 0),
            (0, 0),
            (0, 0),
            (0, 0),
            (0, 0),
        ],
        constant: constant_at(induction, number),
    };
    let symbols = Seq::from_vec(Vec::from_slice(alloc, &[induction.name])?);
    express(alloc, &form, &[counter], &symbols, &[])
}

fn found(inductions: &[Induction], name: Name) -> Option<Induction>
    ensures { result ≡ found inductions.now name }
{
    let Some((first, rest)) = inductions.split_first() else {
        return None;
    };
    if first.name == name {
        return Some(*first);
    }
    found(rest, name)
}

// The induction that the expression is by itself.
#[tactic(auto, using(tree::proofs::Equations::expression_equations, crate::proofs::ItemLaws::item_laws))]
fn induction_in(inductions: &Seq<Induction>, expr: &Expr) -> Option<Induction>
    ensures { result ≡ induction_in inductions.now (expression_of expr.now) }
{
    match expr {
        Expr::Item(item) => {
            if item.subs.is_empty() {
                found(inductions.as_slice(), item.name)
            } else {
                None
            }
        }
        Expr::Int(_)
        | Expr::Truth(_)
        | Expr::Un(..)
        | Expr::Bin(..)
        | Expr::Call(..)
        | Expr::List(..)
        | Expr::Spread(..)
        | Expr::Transpose(_)
        | Expr::Reshape(..)
        | Expr::Reduce(..) => None,
    }
}

impl NodeRule for Forms {
    ghost use Rattle.inductions.specs.Putting.{putting};

    ghost making = { λ r. putting r.counter r.inductions r.number };

    fn node(&mut self, alloc: Global, _first: &Expr, node: Expr) -> Result<Expr, Memory> {
        match induction_in(&self.inductions, &node) {
            Some(induction) => value_text(alloc, self.counter, &induction, self.number),
            None => Ok(node),
        }
    }
}

fn grows_at(inductions: &[Induction], number: u32) -> bool
    ensures { result ≡ grows_at inductions.now number }
{
    inductions
        .iter()
        .any(|induction| induction.place == number as usize)
}

impl Substitution {
    fn forms_at(&self, alloc: Global, number: u32) -> Result<Forms, Memory>
        ensures counter { IfOk result (λ forms. forms.counter ≡ self.now.counter) }
        ensures inductions { IfOk result (λ forms. forms.inductions ≡ self.now.inductions) }
        ensures number { IfOk result (λ forms. forms.number ≡ number) }
    {
        let inductions = Vec::from_slice(alloc, self.inductions.as_slice())?;
        Ok(Forms {
            counter: self.counter,
            inductions: Seq::from_vec(inductions),
            number,
        })
    }

    // A statement with the forms in it, in canonical text.
    fn with_forms(
        &self,
        alloc: Global,
        loops: &Seq<Loop>,
        number: u32,
        stmt: &GuardedStmt,
    ) -> Result<GuardedStmt, Memory>
        ensures { IfOk result (λ new. guarded_of new
            ≡ with_induction_forms self.now.counter self.now.inductions self.now.symbols (map loop_of loops.now) number
            (guarded_of stmt.now)) }
    {
        let mut rule = text_rule(alloc, &self.symbols, loops)?;
        let mut forms = self.forms_at(alloc, number)?;
        let stmt = rewrite_nodes(alloc, stmt, &mut forms)?;
        rewrite_stmt(alloc, &stmt, &mut rule)
    }
}

impl StatementPass for Substitution {
    ghost use Rattle.inductions.specs.Putting.{put_in};

    ghost each = { λ p. put_in p.counter p.inductions p.symbols };

    fn add_each(
        &mut self,
        alloc: Global,
        loops: &Seq<Loop>,
        number: u32,
        stmt: &GuardedStmt,
        made: &mut Seq<Part>,
    ) -> Result<(), Memory> {
        if grows_at(self.inductions.as_slice(), number) {
            return Ok(());
        }
        made.push(Part::Run(self.with_forms(alloc, loops, number, stmt)?))
    }
}
