//! A program in which each loop that only gathers is one statement.
ghost use Rattle.std.specs.Prelude.{◌≡◌, ◌∷◌, ◌++◌, ◌||◌, [], ℕ, List, IfOk, OnOk, map, not};
ghost use Rattle.std.specs.List.{filter, flat_map};
ghost use Rattle.std.specs.Option.{option_map};
ghost use Rattle.std.specs.Str.{bytes_eq};
ghost use Rattle.indexmap.specs.IndexSet.{insert_all};
ghost use Rattle.tree.specs.Plain.{Block as Tree, Declaration};
ghost use Rattle.tree.specs.View.{block_of, declaration_of, program_of_90, statement_of, tested_of};
ghost use Rattle.meaning.specs.Names.{is_among};
ghost use Rattle.meaning.specs.Reads.{names_in_block};
ghost use Rattle.reductions.specs.Finding.{context_by, context_of, is_source, reducible};
ghost use Rattle.reductions.specs.Reading.{read_in_block};
ghost use Rattle.reductions.specs.Reduced.{done_in, done_in_arm, done_in_block, done_or, done_within};
ghost use Rattle.reductions.specs.Reduced.{form as plain_form, formed_or, reduced, reduced_arm, reduced_block};
ghost use Rattle.reductions.specs.Reduced.{declarations_left, reduced_program, reduction_of, with_body};
ghost use Rattle.reductions.specs.View.{context_in};

use crate::finding::{Context, is_source};
use crate::forms::{form, reduction};
use crate::loops::loop_in;
use crate::reading::names_read_outside;
use indexmap::IndexSet;
use rewrite::names_in_block;
use std::alloc::Global;
use tree::{Arm, Block, Decl, Mark, Memory, Name, Program90, Red, Seq, Stmt};

/// A program with reductions, and the mark and the function of each, in the order of the text.
#[derive(Drop)]
pub struct Reduced {
    pub program: Program90,
    pub done: Seq<(Mark, Red)>,
}

// ---- statements

impl Context<'_> {
    // The statement that stands for a loop, if it gathers and may become one.
    fn form(
        &self,
        alloc: Global,
        stmt: &Stmt,
        done: &mut Seq<(Mark, Red)>,
    ) -> Result<Option<Stmt>, Memory>
        ensures form { IfOk result (λ new. option_map statement_of new
            ≡ option_map plain_form (reducible (context_in self.now) (statement_of stmt.now))) }
        ensures done { OnOk result (done.new
            ≡ done.old ++ reduction_of (reducible (context_in self.now) (statement_of stmt.now))) }
    {
        let Some(found) = loop_in(stmt) else {
            return Ok(None);
        };
        if !self.is_reducible(alloc, &found)? {
            return Ok(None);
        }
        done.push(reduction(&found))?;
        Ok(Some(form(alloc, &found)?))
    }

    #[cycle(reducing)]
    #[tactic(auto, using(crate::proofs::ReducedLaws::reduced_laws))]
    fn add_statement(
        &self,
        alloc: Global,
        stmt: Stmt,
        made: &mut Seq<Stmt>,
        done: &mut Seq<(Mark, Red)>,
    ) -> Result<(), Memory>
        ensures made { OnOk result (map statement_of made.new
            ≡ map statement_of made.old ++ reduced (context_in self.now) (statement_of stmt) ∷ []) }
        ensures done { OnOk result (done.new ≡ done.old ++ done_in (context_in self.now) (statement_of stmt)) }
    {
        match stmt {
            Stmt::If { line, arms, other } => {
                let arms = self.reduce_arms(alloc, arms, done)?;
                let other = self.reduce_block(alloc, other, done)?;
                made.push(Stmt::If { line, arms, other })
            }
            Stmt::Do { .. } => self.add_loop(alloc, stmt, made, done),
            Stmt::Assign { .. } => made.push(stmt),
            Stmt::Masked { .. } => made.push(stmt),
            Stmt::Label { .. } => made.push(stmt),
            Stmt::Go { .. } => made.push(stmt),
            Stmt::Stop { .. } => made.push(stmt),
            Stmt::Read { .. } => made.push(stmt),
            Stmt::Print { .. } => made.push(stmt),
            Stmt::Allocate { .. } => made.push(stmt),
            Stmt::Deallocate { .. } => made.push(stmt),
        }
    }

    // Its form, or the loop with its body reduced.
    #[cycle(reducing)]
    fn add_loop(
        &self,
        alloc: Global,
        stmt: Stmt,
        made: &mut Seq<Stmt>,
        done: &mut Seq<(Mark, Red)>,
    ) -> Result<(), Memory>
        ensures made { OnOk result (map statement_of made.new ≡ map statement_of made.old
            ++ formed_or (context_in self.now) (reducible (context_in self.now) (statement_of stmt))
            (with_body (context_in self.now) (statement_of stmt)) ∷ []) }
        ensures done { OnOk result (done.new ≡ done.old
            ++ done_or (context_in self.now) (reducible (context_in self.now) (statement_of stmt))
            (done_within (context_in self.now) (statement_of stmt))) }
    {
        match self.form(alloc, &stmt, done)? {
            Some(form) => made.push(form),
            None => self.add_with_body(alloc, stmt, made, done),
        }
    }

    #[cycle(reducing)]
    #[tactic(auto, using(crate::proofs::ReducedLaws::reduced_laws))]
    fn add_with_body(
        &self,
        alloc: Global,
        stmt: Stmt,
        made: &mut Seq<Stmt>,
        done: &mut Seq<(Mark, Red)>,
    ) -> Result<(), Memory>
        ensures made { OnOk result (map statement_of made.new
            ≡ map statement_of made.old ++ with_body (context_in self.now) (statement_of stmt) ∷ []) }
        ensures done { OnOk result (done.new ≡ done.old ++ done_within (context_in self.now) (statement_of stmt)) }
    {
        match stmt {
            Stmt::Do {
                line,
                var,
                first,
                last,
                step,
                body,
            } => {
                let body = self.reduce_block(alloc, body, done)?;
                made.push(Stmt::Do {
                    line,
                    var,
                    first,
                    last,
                    step,
                    body,
                })
            }
            Stmt::If { .. }
            | Stmt::Assign { .. }
            | Stmt::Masked { .. }
            | Stmt::Label { .. }
            | Stmt::Go { .. }
            | Stmt::Stop { .. }
            | Stmt::Read { .. }
            | Stmt::Print { .. }
            | Stmt::Allocate { .. }
            | Stmt::Deallocate { .. } => made.push(stmt),
        }
    }

    #[cycle(reducing)]
    fn reduce_arms(
        &self,
        alloc: Global,
        arms: Seq<Arm>,
        done: &mut Seq<(Mark, Red)>,
    ) -> Result<Seq<Arm>, Memory>
        ensures made { IfOk result (λ made. map tested_of made
            ≡ map (reduced_arm (context_in self.now)) (map tested_of arms)) }
        ensures done { OnOk result (done.new
            ≡ done.old ++ flat_map (done_in_arm (context_in self.now)) (map tested_of arms)) }
    {
        let mut made = Seq::new(alloc);
        for arm in arms.into_vec() {
            made.push(self.reduce_arm(alloc, arm, done)?)?;
        }
        Ok(made)
    }

    #[cycle(reducing)]
    #[tactic(auto, using(crate::proofs::ReducedLaws::reduced_laws))]
    fn reduce_arm(
        &self,
        alloc: Global,
        arm: Arm,
        done: &mut Seq<(Mark, Red)>,
    ) -> Result<Arm, Memory>
        ensures made { IfOk result (λ made. tested_of made ≡ reduced_arm (context_in self.now) (tested_of arm)) }
        ensures done { OnOk result (done.new ≡ done.old ++ done_in_arm (context_in self.now) (tested_of arm)) }
    {
        let Arm { test, body } = arm;
        let body = self.reduce_block(alloc, body, done)?;
        Ok(Arm { test, body })
    }

    #[cycle(reducing)]
    #[tactic(auto, using(crate::proofs::ReducedLaws::block_laws))]
    fn reduce_block(
        &self,
        alloc: Global,
        block: Block,
        done: &mut Seq<(Mark, Red)>,
    ) -> Result<Block, Memory>
        ensures made { IfOk result (λ made. block_of made ≡ reduced_block (context_in self.now) (block_of block)) }
        ensures done { OnOk result (done.new ≡ done.old ++ done_in_block (context_in self.now) (block_of block)) }
    {
        let Block { stmts } = block;
        let stmts = self.reduce_statements(alloc, stmts, done)?;
        Ok(Block { stmts })
    }

    #[cycle(reducing)]
    fn reduce_statements(
        &self,
        alloc: Global,
        stmts: Seq<Stmt>,
        done: &mut Seq<(Mark, Red)>,
    ) -> Result<Seq<Stmt>, Memory>
        ensures made { IfOk result (λ made. map statement_of made
            ≡ map (reduced (context_in self.now)) (map statement_of stmts)) }
        ensures done { OnOk result (done.new
            ≡ done.old ++ flat_map (done_in (context_in self.now)) (map statement_of stmts)) }
    {
        let mut made = Seq::new(alloc);
        for stmt in stmts.into_vec() {
            self.add_statement(alloc, stmt, &mut made, done)?;
        }
        Ok(made)
    }
}

// ---- names and declarations

fn set_of(alloc: Global, names: &[Name]) -> Result<IndexSet<Name>, Memory>
    ensures { IfOk result (λ set. set.keys ≡ insert_all bytes_eq [] names.now) }
{
    let mut set = IndexSet::new(alloc);
    for name in names {
        set.insert(*name)?;
    }
    Ok(set)
}

// The names that stand in a block.
#[tactic(auto, using(crate::proofs::NameLaws::set_laws))]
fn names_of(alloc: Global, block: &Block) -> Result<IndexSet<Name>, Memory>
    ensures { IfOk result (λ set. (x : List ℕ)
        → is_among set.keys x ≡ is_among (names_in_block (block_of block.now)) x) }
{
    let names = names_in_block(alloc, block)?;
    set_of(alloc, names.as_slice())
}

// The names that a block reads outside the bodies of their own loops.
#[tactic(auto, using(crate::proofs::NameLaws::set_laws))]
fn reads_of(alloc: Global, block: &Block) -> Result<IndexSet<Name>, Memory>
    ensures { IfOk result (λ set. (x : List ℕ)
        → is_among set.keys x ≡ is_among (read_in_block (block_of block.now)) x) }
{
    let names = names_read_outside(alloc, block)?;
    set_of(alloc, names.as_slice())
}

fn stays(old: &IndexSet<Name>, new: &IndexSet<Name>, name: Name) -> bool
    ensures { result ≡ (is_source name || (is_among new.now.keys name || not (is_among old.now.keys name))) }
{
    is_source(name) || new.contains(&name) || !old.contains(&name)
}

fn declarations_left(
    alloc: Global,
    decls: Seq<Decl>,
    old: &IndexSet<Name>,
    new: &IndexSet<Name>,
) -> Result<Seq<Decl>, Memory>
    ensures { IfOk result (λ left. map declaration_of left ≡ filter (λ (d : Declaration). is_source d.name
        || (is_among new.now.keys d.name || not (is_among old.now.keys d.name))) (map declaration_of decls)) }
{
    let mut left = Seq::new(alloc);
    for decl in decls.into_vec() {
        if stays(old, new, decl.name) {
            left.push(decl)?;
        }
    }
    Ok(left)
}

// The body reduced. Adds what is done.
fn reduce_body(
    alloc: Global,
    decls: &Seq<Decl>,
    title: &Option<Name>,
    body: Block,
    done: &mut Seq<(Mark, Red)>,
) -> Result<Block, Memory>
    ensures body { IfOk result (λ new. block_of new
        ≡ reduced_block (context_by (map declaration_of decls.now) title.now (block_of body)) (block_of body)) }
    ensures done { OnOk result (done.new ≡ done.old
        ++ done_in_block (context_by (map declaration_of decls.now) title.now (block_of body)) (block_of body)) }
{
    let reads = reads_of(alloc, &body)?;
    let context = Context {
        decls,
        title: *title,
        reads,
    };
    context.reduce_block(alloc, body, done)
}

// The program of this body, without the declarations of made names that stood in the old one alone.
fn with_names_left(
    alloc: Global,
    name: Option<Name>,
    decls: Seq<Decl>,
    old: &IndexSet<Name>,
    body: Block,
) -> Result<Program90, Memory>
    ensures { IfOk result (λ new. (b : Tree) → ((x : List ℕ) → is_among old.now.keys x ≡ is_among (names_in_block b) x)
        → program_of_90 new ≡ record {
          name = name;
          body = block_of body;
          declarations = declarations_left b (block_of body) (map declaration_of decls);
        }) }
{
    let new = names_of(alloc, &body)?;
    let decls = declarations_left(alloc, decls, old, &new)?;
    Ok(Program90 { name, decls, body })
}

/// The program in which each loop that only gathers a sum or an extreme is one statement, without the declarations of
/// made names that no longer stand in it.
pub fn reduce(alloc: Global, program: Program90) -> Result<Reduced, Memory>
    ensures program { IfOk result (λ new. program_of_90 new.program ≡ reduced_program (program_of_90 program)) }
    ensures done { IfOk result (λ new. new.done
        ≡ done_in_block (context_of (program_of_90 program)) (block_of program.body)) }
{
    let Program90 { name, decls, body } = program;
    let old = names_of(alloc, &body)?;
    let mut done = Seq::new(alloc);
    let body = reduce_body(alloc, &decls, &name, body, &mut done)?;
    let program = with_names_left(alloc, name, decls, &old, body)?;
    Ok(Reduced { program, done })
}
