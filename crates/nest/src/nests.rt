//! Nests.
ghost use Rattle.std.specs.Prelude.{◌≡◌, IfOk, map};
ghost use Rattle.nest.specs.View.{made_of, nest_of};

use crate::parts::Part;
use crate::references::copy_exprs;
use std::alloc::Global;
use tree::{Block, Decl, Expr, Kind, Memory, Name, Seq, copy_decls};

/// An array that a pass made, allocated from 1 to its extents, the extent of the innermost loop first; without extents
/// a scalar.
#[derive(Drop)]
pub struct Made {
    pub name: Name,
    pub kind: Kind,
    pub extents: Seq<Expr>,
}

/// A nest: a loop with what stands in it.
#[derive(Drop)]
pub struct Nest {
    /// The number of the nest in the program, from 1.
    pub number: u32,
    /// The line of the outermost loop.
    pub line: u32,
    /// The name of the program.
    pub title: Option<Name>,
    /// The outermost loop.
    pub body: Part,
    /// The declarations of the program.
    pub decls: Seq<Decl>,
    /// The INTEGER scalars that the nest doesn't write, in byte order.
    pub symbols: Seq<Name>,
    /// What is allocated before the nest, in this order.
    pub made: Seq<Made>,
    /// What runs after the nest.
    pub after: Block,
    /// How many masks were made so far in the program.
    pub masks: u32,
    /// How many copies were made so far in the program.
    pub copies: u32,
}

impl Made {
    /// An equal made array.
    pub fn copy(&self, alloc: Global) -> Result<Made, Memory>
        ensures { IfOk result (λ copy. made_of copy ≡ made_of self.now) }
    {
        Ok(Made {
            name: self.name,
            kind: self.kind,
            extents: copy_exprs(&self.extents, alloc)?,
        })
    }
}

fn copy_made(made: &Seq<Made>, alloc: Global) -> Result<Seq<Made>, Memory>
    ensures { IfOk result (λ copies. map made_of copies ≡ map made_of made.now) }
{
    let mut copies = Seq::new(alloc);
    for array in made.as_slice() {
        copies.push(array.copy(alloc)?)?;
    }
    Ok(copies)
}

fn copy_names(names: &Seq<Name>, alloc: Global) -> Result<Seq<Name>, Memory>
    ensures { IfOk result (λ copies. copies ≡ names.now) }
{
    Ok(Seq::from_vec(Vec::from_slice(alloc, names.as_slice())?))
}

impl Nest {
    /// An equal nest.
    pub fn copy(&self, alloc: Global) -> Result<Nest, Memory>
        ensures { IfOk result (λ copy. nest_of copy ≡ nest_of self.now) }
    {
        Ok(Nest {
            number: self.number,
            line: self.line,
            title: self.title,
            body: self.body.copy(alloc)?,
            decls: copy_decls(&self.decls, alloc)?,
            symbols: copy_names(&self.symbols, alloc)?,
            made: copy_made(&self.made, alloc)?,
            after: self.after.copy(alloc)?,
            masks: self.masks,
            copies: self.copies,
        })
    }
}
