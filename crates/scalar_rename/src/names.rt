//! Names that take the place of names, and what becomes of a statement by them.
ghost use Rattle.std.specs.Prelude.{◌≡◌, ◌+◌, ◌<◌, ◌^◌, IfOk, map};
ghost use Rattle.nest.specs.View.{guarded_of};
ghost use Rattle.scalar_rename.specs.Ranges.{owner_at};
ghost use Rattle.scalar_rename.specs.Renamed.{bare_name, name_by, names_at, renamed_node, renamed_statement};
ghost use Rattle.scalar_rename.specs.Renamed.{with_left_name};
ghost use Rattle.tree.specs.Plain.{Named, no_subscripts};
ghost use Rattle.tree.specs.View.{expression_of, reference_of};

use crate::ranges::Web;
use nest::{GuardedStmt, Loop, Part};
use rewrite::NodeRule;
use statement_passes::{StatementPass, rewrite_nodes};
use std::alloc::Global;
use tree::{Expr, Memory, Name, Ref, Seq};

/// A name in place of another one.
#[derive(Clone, Copy)]
pub struct NewName {
    pub old: Name,
    pub new: Name,
}

// ---- names by places

fn owner_at(web: &Web, place: usize) -> Name
    ensures { result ≡ owner_at web.now place }
{
    match web.owners.as_slice().get(place) {
        Some(name) => *name,
        None => web.name,
    }
}

fn names_at(alloc: Global, webs: &[Web], place: usize) -> Result<Seq<NewName>, Memory>
    ensures { IfOk result (λ names. names ≡ names_at webs.now place) }
{
    let mut names = Seq::new(alloc);
    for web in webs {
        names.push(NewName {
            old: web.name,
            new: owner_at(web, place),
        })?;
    }
    Ok(names)
}

fn name_in(names: &[NewName], name: Name) -> Name
    ensures { result ≡ name_by names.now name }
{
    let Some((first, rest)) = names.split_first() else {
        return name;
    };
    if first.old == name {
        return first.new;
    }
    name_in(rest, name)
}

// ---- expressions

#[tactic(auto, using(crate::proofs::NodeLaws::bare_laws))]
fn bare_item(item: &Ref) -> Option<Name>
    ensures { result ≡ bare_name (Named (reference_of item.now).name (reference_of item.now).subscripts) }
{
    if item.subs.is_empty() {
        Some(item.name)
    } else {
        None
    }
}

#[tactic(auto, using(tree::proofs::Equations::expression_equations))]
fn bare_name(expr: &Expr) -> Option<Name>
    ensures { result ≡ bare_name (expression_of expr.now) }
{
    match expr {
        Expr::Item(item) => bare_item(item),
        Expr::Int(_)
        | Expr::Truth(_)
        | Expr::Un(..)
        | Expr::Bin(..)
        | Expr::Call(..)
        | Expr::List(..)
        | Expr::Spread(..)
        | Expr::Transpose(_)
        | Expr::Reshape(..)
        | Expr::Reduce(..) => None,
    }
}

#[tactic(auto, using(tree::proofs::Equations::expression_equations))]
fn scalar(alloc: Global, name: Name) -> Ref
    ensures { reference_of result ≡ record { name = name; subscripts = no_subscripts } }
{
    Ref {
        name,
        subs: Seq::new(alloc),
    }
}

#[tactic(auto, using(tree::proofs::Equations::expression_equations))]
fn variable(alloc: Global, name: Name) -> Expr
    ensures { expression_of result ≡ Named name no_subscripts }
{
    Expr::Item(scalar(alloc, name))
}

/// The rule by which variables without subscripts get these names.
#[derive(Drop)]
pub(crate) struct NewNames {
    pub names: Seq<NewName>,
}

impl NodeRule for NewNames {
    ghost use Rattle.scalar_rename.specs.Renamed.{renaming};

    ghost making = { λ r. renaming r.names };

    fn node(&mut self, alloc: Global, _first: &Expr, node: Expr) -> Result<Expr, Memory> {
        match bare_name(&node) {
            Some(name) => Ok(variable(alloc, name_in(self.names.as_slice(), name))),
            None => Ok(node),
        }
    }
}

// ---- statements

#[tactic(auto, using(tree::proofs::Equations::expression_equations))]
fn with_left_name(stmt: GuardedStmt, name: Name) -> GuardedStmt
    ensures { guarded_of result ≡ with_left_name (guarded_of stmt) name }
{
    GuardedStmt {
        line: stmt.line,
        guard: stmt.guard,
        left: Ref {
            name,
            subs: stmt.left.subs,
        },
        right: stmt.right,
    }
}

// The name that a left side has by the names at a place.
#[tactic(auto, using(tree::proofs::Equations::expression_equations))]
fn left_name(alloc: Global, webs: &[Web], place: usize, left: &Ref) -> Result<Name, Memory>
    ensures { IfOk result (λ name. name ≡ name_by (names_at webs.now place) (reference_of left.now).name) }
{
    let names = names_at(alloc, webs, place)?;
    Ok(name_in(names.as_slice(), left.name))
}

/// The pass that gives each range of these scalars its name.
#[derive(Drop)]
pub(crate) struct Renaming {
    pub webs: Seq<Web>,
}

impl Renaming {
    fn renamed(
        &self,
        alloc: Global,
        place: usize,
        stmt: &GuardedStmt,
    ) -> Result<GuardedStmt, Memory>
        requires { place + 1 < 2 ^ 64 }
        ensures { IfOk result (λ new. guarded_of new
            ≡ renamed_statement self.now.webs place (guarded_of stmt.now)) }
    {
        let webs = self.webs.as_slice();
        let left = left_name(alloc, webs, place + 1, &stmt.left)?;
        let names = names_at(alloc, webs, place)?;
        let mut rule = NewNames { names };
        let new = rewrite_nodes(alloc, stmt, &mut rule)?;
        Ok(with_left_name(new, left))
    }
}

impl StatementPass for Renaming {
    ghost use Rattle.scalar_rename.specs.Renamed.{each_renamed};

    ghost each = { λ p. each_renamed p.webs };

    fn add_each(
        &mut self,
        alloc: Global,
        _loops: &Seq<Loop>,
        number: u32,
        stmt: &GuardedStmt,
        made: &mut Seq<Part>,
    ) -> Result<(), Memory> {
        made.push(Part::Run(self.renamed(alloc, number as usize, stmt)?))
    }
}
