//! Expressions and references in which each name stands for what it is.
ghost use Rattle.std.specs.Prelude.{◌≡◌, ◌≢◌, [], negsuc, true, map, IfOk};
ghost use Rattle.tree.specs.Plain.{subscripts, no_subscripts};
ghost use Rattle.tree.specs.View.{expression_of, subscript_of, reference_of};
ghost use Rattle.tree.specs.declared.exprs.Expr.TheVariants as exprs;
ghost use Rattle.tree.specs.declared.ops.Value.TheVariants as values;
ghost use Rattle.tree.specs.Widths.{bits_of};
ghost use Rattle.tree.specs.declared.width.Width.TheVariants.{Wide};
ghost use Rattle.meaning.specs.Value.{is_in_range};
ghost use Rattle.f77_grammar.specs.program.Tree as tree;
ghost use Rattle.f77_tree.specs.Parts.{known_uses, known_store, resolved_by, subscript_by, reference_by};
ghost use Rattle.f77_tree.specs.Resolved.{called};
ghost use Rattle.reading.specs.Signs as signs;

use crate::resolver::Resolver;
use std::alloc::Global;
use tree::{Expr, Fun, Memory, Name, Op, Ref, Seq, Sub, Value, three};

// A number as an expression, in which a literal isn't negative.
#[tactic(auto, using(crate::proofs::LiteralLaws::literal_laws))]
fn number(alloc: Global, number: i128) -> Result<Expr, Memory>
    requires { is_in_range (bits_of Wide) (values.Int number) ≡ true }
    ensures { IfOk result (λ expr. expression_of expr ≡ tree.literal (values.Int number)) }
{
    if number >= 0 {
        return Ok(Expr::Int(number));
    }
    let size = Expr::Int(-number);
    Ok(Expr::Un(Op::Neg, Box::new(alloc, size)?))
}

#[tactic(auto, using(crate::proofs::LiteralLaws::literal_laws))]
fn literal(alloc: Global, value: Value) -> Result<Expr, Memory>
    requires { is_in_range (bits_of Wide) value ≡ true }
    ensures { IfOk result (λ expr. expression_of expr ≡ tree.literal value) }
{
    match value {
        Value::Int(value) => number(alloc, value),
        Value::Truth(truth) => Ok(Expr::Truth(truth)),
    }
}

impl Resolver<'_> {
    // A name without subscripts.
    #[tactic(auto, using(crate::proofs::ResolvedLaws::name_laws))]
    fn name(&self, alloc: Global, name: Name) -> Result<Expr, Memory>
        ensures { IfOk result (λ expr.
            expression_of expr ≡ tree.named_tree (known_uses self.now) (known_store self.now) name no_subscripts) }
    {
        if self.is_constant(name) {
            return literal(alloc, self.value(name));
        }
        Ok(Expr::Item(Ref {
            name,
            subs: Seq::new(alloc),
        }))
    }

    // The function that a name with a list in parentheses calls.
    fn called(&self, name: Name) -> Option<Fun>
        ensures { result ≡ called (known_uses self.now) name }
    {
        if self.is_array(name) {
            return None;
        }
        Fun::read77(name.text())
    }

    /// The expression, in which symbolic constants are replaced by their values, and calls are told from elements.
    #[cycle(resolve)]
    #[tactic(auto, using(crate::proofs::ResolvedLaws::resolved_laws))]
    pub fn resolve(&self, alloc: Global, expr: &Expr) -> Result<Expr, Memory>
        ensures { IfOk result (λ resolved. expression_of resolved ≡ resolved_by self.now expr.now) }
    {
        match expr {
            Expr::Int(number) => Ok(Expr::Int(*number)),
            Expr::Truth(truth) => Ok(Expr::Truth(*truth)),
            Expr::Item(item) => self.resolve_named(alloc, item),
            Expr::Un(op, a) => Ok(Expr::Un(*op, self.resolve_box(alloc, a)?)),
            Expr::Bin(op, a, b) => Ok(Expr::Bin(
                *op,
                self.resolve_box(alloc, a)?,
                self.resolve_box(alloc, b)?,
            )),
            Expr::Call(function, arguments) => {
                Ok(Expr::Call(*function, self.resolve_all(alloc, arguments)?))
            }
            // FORTRAN 77 has no arrays as values.
            Expr::List(..) | Expr::Spread(..) | Expr::Transpose(_) => expr.copy(alloc),
            Expr::Reshape(..) | Expr::Reduce(..) => expr.copy(alloc),
        }
    }

    #[cycle(resolve)]
    fn resolve_box(&self, alloc: Global, expr: &Expr) -> Result<Box<Expr>, Memory>
        ensures { IfOk result (λ resolved. expression_of resolved.value ≡ resolved_by self.now expr.now) }
    {
        let resolved = self.resolve(alloc, expr)?;
        Ok(Box::new(alloc, resolved)?)
    }

    #[cycle(resolve)]
    fn resolve_all(&self, alloc: Global, exprs: &Seq<Expr>) -> Result<Seq<Expr>, Memory>
        ensures { IfOk result (λ resolved. map expression_of resolved ≡ map (resolved_by self.now) exprs.now) }
    {
        let mut resolved = Seq::new(alloc);
        for expr in exprs.as_slice() {
            resolved.push(self.resolve(alloc, expr)?)?;
        }
        Ok(resolved)
    }

    // A scalar, a symbolic constant, an element or a call.
    #[cycle(resolve)]
    #[tactic(auto, using(crate::proofs::ResolvedLaws::item_laws))]
    fn resolve_named(&self, alloc: Global, item: &Ref) -> Result<Expr, Memory>
        ensures { IfOk result (λ resolved. expression_of resolved ≡ resolved_by self.now (exprs.Item item.now)) }
    {
        if item.subs.is_empty() {
            return self.name(alloc, item.name);
        }
        match self.called(item.name) {
            Some(function) => Ok(Expr::Call(function, self.arguments(alloc, &item.subs)?)),
            None => Ok(Expr::Item(self.resolve_reference(alloc, item)?)),
        }
    }

    #[cycle(resolve)]
    #[tactic(auto, using(crate::proofs::ResolvedLaws::resolved_laws))]
    fn argument(&self, alloc: Global, sub: &Sub) -> Result<Expr, Memory>
        ensures { IfOk result (λ argument. expression_of argument ≡ signs.argument_of (subscript_by self.now sub.now)) }
    {
        match sub {
            Sub::One(expr) => self.resolve(alloc, expr),
            Sub::Part(first, _, _) => first.copy(alloc),
        }
    }

    // What stands in parentheses, as arguments.
    #[cycle(resolve)]
    fn arguments(&self, alloc: Global, subs: &Seq<Sub>) -> Result<Seq<Expr>, Memory>
        ensures { IfOk result (λ arguments. map expression_of arguments ≡ map (λ p.
            signs.argument_of (subscript_by self.now p)) subs.now) }
    {
        let mut arguments = Seq::new(alloc);
        for sub in subs.as_slice() {
            arguments.push(self.argument(alloc, sub)?)?;
        }
        Ok(arguments)
    }

    #[cycle(resolve)]
    #[tactic(auto, using(crate::proofs::ResolvedLaws::resolved_laws))]
    fn resolve_sub(&self, alloc: Global, sub: &Sub) -> Result<Sub, Memory>
        ensures { IfOk result (λ resolved. subscript_of resolved ≡ subscript_by self.now sub.now) }
    {
        match sub {
            Sub::One(expr) => Ok(Sub::One(self.resolve(alloc, expr)?)),
            Sub::Part(first, last, stride) => {
                let (first, last, stride) = three(
                    first.copy(alloc),
                    last.copy(alloc),
                    stride.copy(alloc),
                )?;
                Ok(Sub::Part(first, last, stride))
            }
        }
    }

    #[cycle(resolve)]
    fn resolve_subs(&self, alloc: Global, subs: &Seq<Sub>) -> Result<Seq<Sub>, Memory>
        ensures { IfOk result (λ resolved. map subscript_of resolved ≡ map (subscript_by self.now) subs.now) }
    {
        let mut resolved = Seq::new(alloc);
        for sub in subs.as_slice() {
            resolved.push(self.resolve_sub(alloc, sub)?)?;
        }
        Ok(resolved)
    }

    /// What is assigned or read into: its name stays, also where it is a constant's or a function's.
    #[cycle(resolve)]
    #[tactic(auto, using(crate::proofs::ResolvedLaws::reference_laws))]
    pub fn resolve_reference(&self, alloc: Global, item: &Ref) -> Result<Ref, Memory>
        ensures { IfOk result (λ resolved. reference_of resolved ≡ reference_by self.now item.now) }
    {
        Ok(Ref {
            name: item.name,
            subs: self.resolve_subs(alloc, &item.subs)?,
        })
    }
}
