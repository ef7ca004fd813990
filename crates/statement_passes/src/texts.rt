//! What becomes of the expressions of one statement: by a rule of nodes, and by canonical text over the loops round it.
ghost use Rattle.std.specs.Prelude.{◌≡◌, IfOk, map};
ghost use Rattle.std.specs.Option.{option_map};
ghost use Rattle.tree.specs.View.{expression_of};
ghost use Rattle.rewrite.specs.Making.{made};
ghost use Rattle.nest.specs.View.{guarded_of, loop_of};
ghost use Rattle.statement_passes.specs.Texts.{with_nodes};

use form_rules::Canonical;
use nest::{GuardedStmt, Loop};
use rewrite::{NodeRule, rewrite_expression, rewrite_parts};
use std::alloc::Global;
use tree::{Expr, Memory, Name, Seq, three};

const PLACES: usize = 1 << 16;

fn variables_of(alloc: Global, loops: &Seq<Loop>) -> Result<Seq<Name>, Memory>
    ensures { IfOk result (λ names. names ≡ map (λ l. l.variable) (map loop_of loops.now)) }
{
    let mut names = Seq::new(alloc);
    for turns in loops.as_slice() {
        names.push(turns.var)?;
    }
    Ok(names)
}

fn copy_names(alloc: Global, names: &Seq<Name>) -> Result<Seq<Name>, Memory>
    ensures { IfOk result (λ copies. copies ≡ names.now) }
{
    Ok(Seq::from_vec(Vec::from_slice(alloc, names.as_slice())?))
}

/// The rule of canonical text over these loops and symbols. More symbols than there are places don't fit into memory.
pub fn text_rule(alloc: Global, symbols: &Seq<Name>, loops: &Seq<Loop>) -> Result<Canonical, Memory>
    ensures loops { IfOk result (λ rule. rule.loops ≡ map (λ l. l.variable) (map loop_of loops.now)) }
    ensures symbols { IfOk result (λ rule. rule.symbols ≡ symbols.now) }
{
    let symbols = copy_names(alloc, symbols)?;
    if symbols.len() > PLACES {
        return Err(Memory);
    }
    let loops = variables_of(alloc, loops)?;
    Ok(Canonical { loops, symbols })
}

fn rewrite_guard<R: NodeRule>(
    alloc: Global,
    guard: &Option<Expr>,
    rule: &mut R,
) -> Result<Option<Expr>, Memory>
    ensures made { IfOk result (λ new. option_map expression_of new
        ≡ option_map (made (R.making rule.old)) (option_map expression_of guard.now)) }
    ensures same { R.making rule.new ≡ R.making rule.old }
{
    match guard {
        Some(expr) => Ok(Some(rewrite_expression(alloc, expr, rule)?)),
        None => Ok(None),
    }
}

/// A statement with what the rule makes of its guard, of the subscripts of its left side, and of its right side.
pub fn rewrite_nodes<R: NodeRule>(
    alloc: Global,
    stmt: &GuardedStmt,
    rule: &mut R,
) -> Result<GuardedStmt, Memory>
    ensures made { IfOk result (λ new. guarded_of new
        ≡ with_nodes (R.making rule.old) (guarded_of stmt.now)) }
    ensures same { R.making rule.new ≡ R.making rule.old }
{
    let guard = rewrite_guard(alloc, &stmt.guard, rule);
    let left = rewrite_parts(alloc, &stmt.left, rule);
    let right = rewrite_expression(alloc, &stmt.right, rule);
    let (guard, left, right) = three(guard, left, right)?;
    Ok(GuardedStmt {
        line: stmt.line,
        guard,
        left,
        right,
    })
}
