//! The references of a statement in their order.
ghost use Rattle.std.specs.Prelude.{◌≡◌, ◌++◌, ◌∷◌, [], if◌then◌else◌, Bool, IfOk, OnOk, List, ℕ, map};
ghost use Rattle.std.specs.List.{flat_map, list_any};
ghost use Rattle.std.specs.Option.{option_map};
ghost use Rattle.std.specs.Str.{bytes_eq};
ghost use Rattle.tree.specs.View.{expression_of, reference_of, subscript_of};
ghost use Rattle.dependence_graph.specs.nest_graph.References.{own_reference, references_in, references_in_guard};
ghost use Rattle.dependence_graph.specs.nest_graph.References.{references_in_subscript, references_of};
ghost use Rattle.dependence_graph.specs.nest_references.Items.{references_in_item};
ghost use Rattle.nest.specs.View.{loop_of};
ghost use Rattle.nest.specs.statement_loops.Standings.{standing_of};

use nest::statement_loops::Standing;
use nest::{Loop, copy_ref};
use std::alloc::Global;
use tree::{Expr, Memory, Name, Ref, Seq, Sub};

/// References that were found so far.
#[derive(Drop)]
struct Found {
    list: Seq<Ref>,
}

fn is_among(names: &[Name], name: Name) -> bool
    ensures { result ≡ list_any (λ other. bytes_eq other name) names.now }
{
    names.iter().any(|other| *other == name)
}

impl Found {
    fn push(&mut self, alloc: Global, item: &Ref) -> Result<(), Memory>
        ensures { OnOk result (map reference_of self.new.list ≡ map reference_of self.old.list
            ++ reference_of item.now ∷ []) }
    {
        let copy = copy_ref(item, alloc)?;
        self.list.push(copy)
    }

    // The reference itself, where it isn't the variable of a loop round the statement.
    #[tactic(auto, using(crate::proofs::nest_references::ReferenceLaws::own_laws))]
    fn add_own(&mut self, alloc: Global, loops: &[Name], item: &Ref) -> Result<(), Memory>
        ensures { OnOk result (map reference_of self.new.list ≡ map reference_of self.old.list
            ++ own_reference loops.now (reference_of item.now).name (reference_of item.now).subscripts) }
    {
        if item.subs.is_empty() && is_among(loops, item.name) {
            return Ok(());
        }
        self.push(alloc, item)
    }

    #[cycle(found)]
    #[tactic(auto, using(crate::proofs::nest_references::ReferenceLaws::reference_laws))]
    fn add_item(&mut self, alloc: Global, loops: &[Name], item: &Ref) -> Result<(), Memory>
        ensures { OnOk result (map reference_of self.new.list ≡ map reference_of self.old.list
            ++ references_in_item loops.now (reference_of item.now)) }
    {
        self.add_own(alloc, loops, item)?;
        self.add_subs(alloc, loops, &item.subs)
    }

    #[cycle(found)]
    #[tactic(auto, using(crate::proofs::nest_references::ReferenceLaws::reference_laws))]
    fn add_expr(&mut self, alloc: Global, loops: &[Name], expr: &Expr) -> Result<(), Memory>
        ensures { OnOk result (map reference_of self.new.list ≡ map reference_of self.old.list
            ++ references_in loops.now (expression_of expr.now)) }
    {
        match expr {
            Expr::Int(_) => Ok(()),
            Expr::Truth(_) => Ok(()),
            Expr::Item(item) => self.add_item(alloc, loops, item),
            Expr::Un(_, a) => self.add_expr(alloc, loops, a),
            Expr::Bin(_, a, b) => {
                self.add_expr(alloc, loops, a)?;
                self.add_expr(alloc, loops, b)
            }
            Expr::Call(_, arguments) => self.add_exprs(alloc, loops, arguments),
            Expr::List(values, _) => self.add_exprs(alloc, loops, values),
            Expr::Spread(array, _, extent) => {
                self.add_expr(alloc, loops, array)?;
                self.add_expr(alloc, loops, extent)
            }
            Expr::Transpose(array) => self.add_expr(alloc, loops, array),
            Expr::Reshape(array, extents) => {
                self.add_expr(alloc, loops, array)?;
                self.add_exprs(alloc, loops, extents)
            }
            Expr::Reduce(_, array) => self.add_expr(alloc, loops, array),
        }
    }

    #[cycle(found)]
    fn add_exprs(&mut self, alloc: Global, loops: &[Name], exprs: &Seq<Expr>) -> Result<(), Memory>
        ensures { OnOk result (map reference_of self.new.list ≡ map reference_of self.old.list
            ++ flat_map (references_in loops.now) (map expression_of exprs.now)) }
    {
        for expr in exprs.as_slice() {
            self.add_expr(alloc, loops, expr)?;
        }
        Ok(())
    }

    #[cycle(found)]
    #[tactic(auto, using(crate::proofs::nest_references::ReferenceLaws::reference_laws))]
    fn add_sub(&mut self, alloc: Global, loops: &[Name], sub: &Sub) -> Result<(), Memory>
        ensures { OnOk result (map reference_of self.new.list ≡ map reference_of self.old.list
            ++ references_in_subscript loops.now (subscript_of sub.now)) }
    {
        match sub {
            Sub::One(expr) => self.add_expr(alloc, loops, expr),
            Sub::Part(lower, upper, stride) => {
                self.add_expr(alloc, loops, lower)?;
                self.add_expr(alloc, loops, upper)?;
                self.add_expr(alloc, loops, stride)
            }
        }
    }

    #[cycle(found)]
    fn add_subs(&mut self, alloc: Global, loops: &[Name], subs: &Seq<Sub>) -> Result<(), Memory>
        ensures { OnOk result (map reference_of self.new.list ≡ map reference_of self.old.list
            ++ flat_map (references_in_subscript loops.now) (map subscript_of subs.now)) }
    {
        for sub in subs.as_slice() {
            self.add_sub(alloc, loops, sub)?;
        }
        Ok(())
    }

    fn add_guard(
        &mut self,
        alloc: Global,
        loops: &[Name],
        guard: &Option<Expr>,
    ) -> Result<(), Memory>
        ensures { OnOk result (map reference_of self.new.list ≡ map reference_of self.old.list
            ++ references_in_guard loops.now (option_map expression_of guard.now)) }
    {
        match guard {
            Some(expr) => self.add_expr(alloc, loops, expr),
            None => Ok(()),
        }
    }
}

/// The variables of loops.
pub(crate) fn variables_of(alloc: Global, loops: &Seq<Loop>) -> Result<Seq<Name>, Memory>
    ensures { IfOk result (λ names. names ≡ map (λ l. l.variable) (map loop_of loops.now)) }
{
    let mut names = Seq::new(alloc);
    for turns in loops.as_slice() {
        names.push(turns.var)?;
    }
    Ok(names)
}

/// The references of a statement: its left side, and then each occurrence of a variable other than that of a loop round
/// it, in its guard, in the subscripts of its left side and in its right side.
#[tactic(auto, using(crate::proofs::nest_references::ReferenceLaws::statement_laws))]
pub fn references_of(alloc: Global, standing: &Standing) -> Result<Seq<Ref>, Memory>
    ensures { IfOk result (λ all. map reference_of all ≡ references_of (standing_of standing.now)) }
{
    let loops = variables_of(alloc, &standing.loops)?;
    let names = loops.as_slice();
    let stmt = &standing.stmt;
    let mut found = Found {
        list: Seq::new(alloc),
    };
    found.push(alloc, &stmt.left)?;
    found.add_guard(alloc, names, &stmt.guard)?;
    found.add_subs(alloc, names, &stmt.left.subs)?;
    found.add_expr(alloc, names, &stmt.right)?;
    Ok(found.list)
}
