//! The statements of a program, from the last one back.
ghost use Rattle.std.specs.Prelude.{◌≡◌, ◌++◌, map, IfOk, OnOk};
ghost use Rattle.tree.specs.View.{expression_of, statement_of as tree_statement_of};
ghost use Rattle.tree.specs.Plain as plain;
ghost use Rattle.f77_laws.specs.trees.Steps as steps;
ghost use Rattle.f77_tree.specs.Parts.{known_uses, known_store, resolved_by};
ghost use Rattle.f77_tree.specs.Resolved.{made};
ghost use Rattle.f77_tree.specs.Rests.{piece_of, rest_of, heading_of, ordinary};
ghost use Rattle.f77_grammar.specs.syntax.Views.{labelled_of, statement_of, text_of};

use crate::resolver::Resolver;
use crate::rests::{Heading, Piece, Rest};
use crate::targets::Targets;
use f77_grammar::syntax::{Labelled, Stmt77};
use std::alloc::Global;
use tree::{Expr, Memory, Name, Stmt, three};

fn add(list: &mut Vec<Stmt>, statement: Option<Stmt>) -> Result<(), Memory>
    ensures { OnOk result (map tree_statement_of list.new.items
        ≡ map tree_statement_of list.old.items ++ made statement) }
{
    if let Some(statement) = statement {
        list.push(statement)?;
    }
    Ok(())
}

impl Resolver<'_> {
    fn heading(
        &self,
        alloc: Global,
        line: u32,
        var: Name,
        first: &Expr,
        last: &Expr,
        step: &Expr,
    ) -> Result<Heading, Memory>
        ensures { IfOk result (λ heading.
            heading_of heading ≡ plain.Do line var (resolved_by self.now first.now) (resolved_by self.now last.now)
            (resolved_by self.now step.now)) }
    {
        let (first, last, step) = three(
            self.resolve(alloc, first),
            self.resolve(alloc, last),
            self.resolve(alloc, step),
        )?;
        Ok(Heading {
            line,
            var,
            first,
            last,
            step,
        })
    }

    // What a statement that opens and closes nothing has become.
    fn piece(&self, alloc: Global, targets: &Targets, statement: &Labelled) -> Result<Piece, Memory>
        ensures { IfOk result (λ piece.
            piece_of piece ≡ ordinary (known_uses self.now) (known_store self.now) targets.now.list.items
            (labelled_of statement.now)) }
    {
        let mut made = targets.mark(alloc, statement.label)?;
        let simple = self.simple(alloc, statement.line, &statement.statement)?;
        add(&mut made, simple)?;
        Ok(Piece {
            ends: statement.label,
            made,
        })
    }
}

impl Rest {
    // With a statement before all that.
    #[tactic(auto, using(crate::proofs::BegunLaws::begun_laws))]
    fn begin(
        self,
        alloc: Global,
        resolver: &Resolver,
        targets: &Targets,
        statement: &Labelled,
    ) -> Result<Rest, Memory>
        ensures { IfOk result (λ rest.
            rest_of rest ≡ steps.begun (known_uses resolver.now)
            (known_store resolver.now) targets.now.list.items (labelled_of statement.now)
            (statement_of statement.now.statement) (rest_of self)) }
    {
        match &statement.statement {
            Stmt77::EndIf => self.end_arm(alloc),
            Stmt77::Else => self.begin_else(alloc),
            Stmt77::ElseIf(condition) => {
                let test = resolver.resolve(alloc, condition)?;
                self.begin_arm(alloc, test)
            }
            Stmt77::If(condition) => {
                let mark = targets.mark(alloc, statement.label)?;
                let test = resolver.resolve(alloc, condition)?;
                self.begin_if(alloc, statement.line, mark, test)
            }
            Stmt77::Do(Some(label), var, first, last, step) => {
                let mark = targets.mark(alloc, statement.label)?;
                let heading = resolver.heading(alloc, statement.line, *var, first, last, step)?;
                self.begin_loop(alloc, *label, mark, heading)
            }
            Stmt77::Program(_)
            | Stmt77::ImplicitNone
            | Stmt77::Declare(..)
            | Stmt77::Dimension(_)
            | Stmt77::Constants(_)
            | Stmt77::Assign(..)
            | Stmt77::Go(_)
            | Stmt77::Test(..)
            | Stmt77::Do(None, ..)
            | Stmt77::EndDo
            | Stmt77::Continue
            | Stmt77::Stop
            | Stmt77::Read(_)
            | Stmt77::Print(_)
            | Stmt77::End => self.precede(resolver.piece(alloc, targets, statement)?),
        }
    }
}

/// What all statements of a program have become.
pub fn rest_of_text(
    alloc: Global,
    resolver: &Resolver,
    targets: &Targets,
    text: &[Labelled],
) -> Result<Rest, Memory>
    ensures { IfOk result (λ rest.
        rest_of rest ≡ steps.rest_from (known_uses resolver.now)
        (known_store resolver.now) targets.now.list.items (text_of text.now)) }
{
    let mut rest = Rest::new(alloc);
    let mut i = text.len();
    while i > 0 {
        i -= 1;
        rest = rest.begin(alloc, resolver, targets, &text[i])?;
    }
    Ok(rest)
}
