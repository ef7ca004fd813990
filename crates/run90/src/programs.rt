//! A program that can be run.
ghost use Rattle.std.specs.Prelude.{map};
ghost use Rattle.tree.specs.View.{declaration_of};
ghost use Rattle.machine.specs.Storage.{AreDistinct};
ghost use Rattle.run90.specs.Propositions.{AreDistinct-prop};

use array_expressions::assignments::Moment;
use std::alloc::Global;
use tree::{Block, Decl, Seq, Width};

/// A Fortran 90 program with the values of its names. The declared names stand beside those of the last run, from which
/// each run begins anew.
#[derive(Drop)]
pub struct Machine90 {
    pub(crate) alloc: Global,
    pub(crate) decls: Seq<Decl>,
    pub(crate) body: Block,
    pub(crate) moment: Moment,
    pub(crate) width: Width,
    ghost distinct: { AreDistinct (map declaration_of decls) } by { AreDistinct-prop (map declaration_of decls) },
}
