//! Statements in canonical text by the symbols of the nest.
ghost use Rattle.std.specs.Prelude.{◌≡◌, IfOk, map};
ghost use Rattle.nest.specs.View.{guarded_of, loop_of};
ghost use Rattle.symbols_anew.specs.Nests.{canonised};

use nest::{GuardedStmt, Loop, Part};
use nest_rewrite::rewrite_stmt;
use statement_passes::{StatementPass, text_rule};
use std::alloc::Global;
use tree::{Memory, Name, Seq};

/// The pass that brings each statement into canonical text, by the loops round it and these symbols.
#[derive(Drop)]
pub(crate) struct CanonicalTexts {
    pub symbols: Seq<Name>,
}

impl CanonicalTexts {
    fn canonised(
        &self,
        alloc: Global,
        loops: &Seq<Loop>,
        stmt: &GuardedStmt,
    ) -> Result<GuardedStmt, Memory>
        ensures { IfOk result (λ new. guarded_of new
            ≡ canonised self.now.symbols (map loop_of loops.now) (guarded_of stmt.now)) }
    {
        let mut rule = text_rule(alloc, &self.symbols, loops)?;
        rewrite_stmt(alloc, stmt, &mut rule)
    }
}

impl StatementPass for CanonicalTexts {
    ghost use Rattle.symbols_anew.specs.Nests.{each_canonised};

    ghost each = { λ p. each_canonised p.symbols };

    fn add_each(
        &mut self,
        alloc: Global,
        loops: &Seq<Loop>,
        _number: u32,
        stmt: &GuardedStmt,
        made: &mut Seq<Part>,
    ) -> Result<(), Memory> {
        made.push(Part::Run(self.canonised(alloc, loops, stmt)?))
    }
}
