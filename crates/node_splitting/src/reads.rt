//! Reads of a statement that are copied, and what is read in their places.
ghost use Rattle.std.specs.Prelude.{◌≡◌, ◌+◌, ◌∷◌, ◌++◌, [], IfOk, OnOk, length, map};
ghost use Rattle.tree.specs.Plain.{expressions, subscripts};
ghost use Rattle.tree.specs.View.{expression_of, reference_of, subscript_of};
ghost use Rattle.node_splitting.specs.Counts.{count, count_all, count_in_subscripts, count_subscript};
ghost use Rattle.node_splitting.specs.Reads.{read_as_expression, is_copied};
ghost use Rattle.node_splitting.specs.View.{may_be_read, new_in, new_of, new_of_all, new_of_subscript};
ghost use Rattle.node_splitting.specs.View.{read_in, read_of, read_of_all, read_of_subscript};

use crate::arrays::element;
use crate::choice::Choice;
use crate::counts::{count, count_item, count_sub, is_counter, own_count, sum};
use dependence_graph::graphs::Place;
use nest::copy_ref;
use std::alloc::Global;
use tree::{Expr, Memory, Name, Ref, Seq, Sub, three};

/// Which reads of a statement are copied: the variables of the loops round it, what the graph says, the number of the
/// statement, whether an array over its loops has extents, whether its right side is one reference as a whole, and the
/// number of the first reference there.
#[derive(Clone, Copy)]
pub(crate) struct Reader<'a> {
    pub loops: &'a [Name],
    pub choice: &'a Choice,
    pub stmt: u32,
    pub fits: bool,
    pub whole: bool,
    pub right: u32,
}

/// How far a statement is read: the number of the next reference, how many copies there are in the program so far, and
/// what the statement's own ones copy.
#[derive(Drop)]
pub(crate) struct Progress {
    pub next: u32,
    pub copies: u32,
    pub reads: Seq<Ref>,
}

impl Progress {
    // Adds a read. There are as many references in it as are passed over.
    fn add(&mut self, alloc: Global, item: &Ref, passed: u32) -> Result<(), Memory>
        ensures next { OnOk result (self.new.next ≡ self.old.next + passed) }
        ensures copies { OnOk result (self.new.copies ≡ self.old.copies + 1) }
        ensures reads { OnOk result (map reference_of self.new.reads
            ≡ map reference_of self.old.reads ++ reference_of item.now ∷ []) }
    {
        self.next = sum(self.next, passed)?;
        self.copies = sum(self.copies, 1)?;
        let copy = copy_ref(item, alloc)?;
        self.reads.push(copy)
    }

    // Passes over references.
    fn pass(&mut self, passed: u32) -> Result<(), Memory>
        ensures next { OnOk result (self.new.next ≡ self.old.next + passed) }
        ensures copies { self.new.copies ≡ self.old.copies }
        ensures reads { self.new.reads ≡ self.old.reads }
    {
        self.next = sum(self.next, passed)?;
        Ok(())
    }
}

#[tactic(auto, using(tree::proofs::Equations::expression_equations))]
fn copy_sub(sub: &Sub, alloc: Global) -> Result<Sub, Memory>
    ensures { IfOk result (λ copy. subscript_of copy ≡ subscript_of sub.now) }
{
    match sub {
        Sub::One(expr) => Ok(Sub::One(expr.copy(alloc)?)),
        Sub::Part(lower, upper, stride) => {
            let (lower, upper, stride) = three(
                lower.copy(alloc),
                upper.copy(alloc),
                stride.copy(alloc),
            )?;
            Ok(Sub::Part(lower, upper, stride))
        }
    }
}

impl Reader<'_> {
    fn may_be_read(&self, number: u32) -> bool
        ensures { result ≡ may_be_read self.now number }
    {
        let place = Place {
            stmt: self.stmt,
            at: number,
        };
        self.fits && self.choice.may_be_copied(place) && !(self.whole && number == self.right)
    }

    // Whether it is copied, where the next reference is the one itself.
    fn is_copied(&self, item: &Ref, number: u32) -> bool
        ensures { result ≡ is_copied self.now.loops.now (may_be_read self.now) number
            (reference_of item.now).name (reference_of item.now).subscripts }
    {
        !is_counter(self.loops, item) && self.may_be_read(number)
    }

    #[cycle(splitting)]
    #[tactic(auto, using(crate::proofs::ReadLaws::item_laws))]
    fn split_item(&self, alloc: Global, item: &Ref, at: &mut Progress) -> Result<Ref, Memory>
        ensures made { IfOk result (λ new. read_as_expression (reference_of new)
            ≡ new_of self.now at.old.next at.old.copies (read_as_expression (reference_of item.now))) }
        ensures next { OnOk result (at.new.next ≡ at.old.next
            + count self.now.loops.now (read_as_expression (reference_of item.now))) }
        ensures copies { OnOk result (at.new.copies ≡ at.old.copies
            + length (read_of self.now at.old.next (read_as_expression (reference_of item.now)))) }
        ensures reads { OnOk result (map reference_of at.new.reads ≡ map reference_of at.old.reads
            ++ read_of self.now at.old.next (read_as_expression (reference_of item.now))) }
    {
        if self.is_copied(item, at.next) {
            let element = element(alloc, self.loops, at.copies)?;
            at.add(alloc, item, count_item(self.loops, item)?)?;
            return Ok(element);
        }
        at.pass(own_count(self.loops, item))?;
        let subs = self.split_subs(alloc, &item.subs, at)?;
        Ok(Ref {
            name: item.name,
            subs,
        })
    }

    #[cycle(splitting)]
    #[tactic(auto, using(crate::proofs::ReadLaws::read_laws))]
    fn split_box(&self, alloc: Global, expr: &Expr, at: &mut Progress) -> Result<Box<Expr>, Memory>
        ensures made { IfOk result (λ new. expression_of new.value
            ≡ new_of self.now at.old.next at.old.copies (expression_of expr.now)) }
        ensures next { OnOk result (at.new.next ≡ at.old.next + count self.now.loops.now (expression_of expr.now)) }
        ensures copies { OnOk result (at.new.copies ≡ at.old.copies
            + length (read_of self.now at.old.next (expression_of expr.now))) }
        ensures reads { OnOk result (map reference_of at.new.reads ≡ map reference_of at.old.reads
            ++ read_of self.now at.old.next (expression_of expr.now)) }
    {
        let made = self.split_expr(alloc, expr, at)?;
        Ok(Box::new(alloc, made)?)
    }

    /// An expression with elements of copies in place of what is copied.
    #[cycle(splitting)]
    #[tactic(auto, using(crate::proofs::ReadLaws::read_laws))]
    pub(crate) fn split_expr(
        &self,
        alloc: Global,
        expr: &Expr,
        at: &mut Progress,
    ) -> Result<Expr, Memory>
        ensures made { IfOk result (λ new. expression_of new
            ≡ new_of self.now at.old.next at.old.copies (expression_of expr.now)) }
        ensures next { OnOk result (at.new.next ≡ at.old.next + count self.now.loops.now (expression_of expr.now)) }
        ensures copies { OnOk result (at.new.copies ≡ at.old.copies
            + length (read_of self.now at.old.next (expression_of expr.now))) }
        ensures reads { OnOk result (map reference_of at.new.reads ≡ map reference_of at.old.reads
            ++ read_of self.now at.old.next (expression_of expr.now)) }
    {
        match expr {
            Expr::Int(number) => Ok(Expr::Int(*number)),
            Expr::Truth(truth) => Ok(Expr::Truth(*truth)),
            Expr::Item(item) => Ok(Expr::Item(self.split_item(alloc, item, at)?)),
            Expr::Un(op, a) => Ok(Expr::Un(*op, self.split_box(alloc, a, at)?)),
            Expr::Bin(op, a, b) => {
                let a = self.split_box(alloc, a, at)?;
                Ok(Expr::Bin(*op, a, self.split_box(alloc, b, at)?))
            }
            Expr::Call(function, arguments) => Ok(Expr::Call(
                *function,
                self.split_all(alloc, arguments, at)?,
            )),
            Expr::List(..)
            | Expr::Spread(..)
            | Expr::Transpose(_)
            | Expr::Reshape(..)
            | Expr::Reduce(..) => {
                at.pass(count(self.loops, expr)?)?;
                expr.copy(alloc)
            }
        }
    }

    #[cycle(splitting)]
    fn split_all(
        &self,
        alloc: Global,
        exprs: &Seq<Expr>,
        at: &mut Progress,
    ) -> Result<Seq<Expr>, Memory>
        ensures made { IfOk result (λ new. expressions (map expression_of new)
            ≡ new_of_all self.now at.old.next at.old.copies (expressions (map expression_of exprs.now))) }
        ensures next { OnOk result (at.new.next ≡ at.old.next
            + count_all self.now.loops.now (expressions (map expression_of exprs.now))) }
        ensures copies { OnOk result (at.new.copies ≡ at.old.copies
            + length (read_of_all self.now at.old.next (expressions (map expression_of exprs.now)))) }
        ensures reads { OnOk result (map reference_of at.new.reads ≡ map reference_of at.old.reads
            ++ read_of_all self.now at.old.next (expressions (map expression_of exprs.now))) }
    {
        let mut made = Seq::new(alloc);
        for expr in exprs.as_slice() {
            made.push(self.split_expr(alloc, expr, at)?)?;
        }
        Ok(made)
    }

    #[cycle(splitting)]
    #[tactic(auto, using(crate::proofs::ReadLaws::read_laws))]
    fn split_sub(&self, alloc: Global, sub: &Sub, at: &mut Progress) -> Result<Sub, Memory>
        ensures made { IfOk result (λ new. subscript_of new
            ≡ new_of_subscript self.now at.old.next at.old.copies (subscript_of sub.now)) }
        ensures next { OnOk result (at.new.next ≡ at.old.next
            + count_subscript self.now.loops.now (subscript_of sub.now)) }
        ensures copies { OnOk result (at.new.copies ≡ at.old.copies
            + length (read_of_subscript self.now at.old.next (subscript_of sub.now))) }
        ensures reads { OnOk result (map reference_of at.new.reads ≡ map reference_of at.old.reads
            ++ read_of_subscript self.now at.old.next (subscript_of sub.now)) }
    {
        match sub {
            Sub::One(expr) => Ok(Sub::One(self.split_expr(alloc, expr, at)?)),
            Sub::Part(..) => {
                at.pass(count_sub(self.loops, sub)?)?;
                copy_sub(sub, alloc)
            }
        }
    }

    /// Subscripts with elements of copies in place of what is copied.
    #[cycle(splitting)]
    pub(crate) fn split_subs(
        &self,
        alloc: Global,
        subs: &Seq<Sub>,
        at: &mut Progress,
    ) -> Result<Seq<Sub>, Memory>
        ensures made { IfOk result (λ new. subscripts (map subscript_of new)
            ≡ new_in self.now at.old.next at.old.copies (subscripts (map subscript_of subs.now))) }
        ensures next { OnOk result (at.new.next ≡ at.old.next
            + count_in_subscripts self.now.loops.now (subscripts (map subscript_of subs.now))) }
        ensures copies { OnOk result (at.new.copies ≡ at.old.copies
            + length (read_in self.now at.old.next (subscripts (map subscript_of subs.now)))) }
        ensures reads { OnOk result (map reference_of at.new.reads ≡ map reference_of at.old.reads
            ++ read_in self.now at.old.next (subscripts (map subscript_of subs.now))) }
    {
        let mut made = Seq::new(alloc);
        for sub in subs.as_slice() {
            made.push(self.split_sub(alloc, sub, at)?)?;
        }
        Ok(made)
    }
}
