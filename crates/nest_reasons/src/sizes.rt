//! How large a loop is: assignments, occurrences of variables other than those of loops, conditions, GO TOs and loops.
ghost use Rattle.std.specs.Prelude.{◌≡◌, ◌++◌, ◌∷◌, [], length, map, OnOk, IfOk};
ghost use Rattle.std.specs.List.{flat_map, filter, list_any};
ghost use Rattle.tree.specs.View.{expression_of, reference_of, statement_of, tested_of, block_of};
ghost use Rattle.meaning.specs.Reads.{names_in, names_in_subscripts};
ghost use Rattle.nest_reasons.specs.Sizes.{occurrences, pieces_in, pieces_in_block, is_assignment};
ghost use Rattle.nest_reasons.specs.Arms.{pieces_in_arm};
ghost use Rattle.nest_reasons.specs.Sizes.{turns_with, is_branching, is_loop_piece, is_counted_name, is_over, is_large};

use rewrite::{names_in_expr, names_in_ref};
use std::alloc::Global;
use tree::{Arm, Block, Expr, Memory, NEST_REFERENCES, NEST_STATEMENTS, Name, Ref, Seq, Stmt};

// Conditions, GO TOs and loops in the outermost loop of a nest, together.
const NEST_BRANCHES: usize = 200;

/// What counts towards the size of a loop: a name that stands in it, an assignment, a loop with its variable, a
/// condition or a GO TO.
#[derive(Clone, Copy, Debug)]
pub enum Piece {
    Occurs(Name),
    Assigns,
    Turns(Name),
    Branches,
}

/// Pieces in the order of the text.
#[derive(Drop)]
struct Pieces {
    list: Seq<Piece>,
}

impl Pieces {
    fn note(&mut self, piece: Piece) -> Result<(), Memory>
        ensures { OnOk result (self.new.list ≡ self.old.list ++ piece ∷ []) }
    {
        self.list.push(piece)
    }

    fn add_names(&mut self, names: &[Name]) -> Result<(), Memory>
        ensures { OnOk result (self.new.list ≡ self.old.list ++ occurrences names.now) }
    {
        for name in names {
            self.note(Piece::Occurs(*name))?;
        }
        Ok(())
    }

    fn add_expr(&mut self, alloc: Global, expr: &Expr) -> Result<(), Memory>
        ensures { OnOk result (self.new.list ≡ self.old.list ++ occurrences (names_in (expression_of expr.now))) }
    {
        let names = names_in_expr(alloc, expr)?;
        self.add_names(names.as_slice())
    }

    fn add_ref(&mut self, alloc: Global, item: &Ref) -> Result<(), Memory>
        ensures { OnOk result (self.new.list ≡ self.old.list ++ occurrences ((reference_of item.now).name
            ∷ names_in_subscripts (reference_of item.now).subscripts)) }
    {
        let names = names_in_ref(alloc, item)?;
        self.add_names(names.as_slice())
    }

    #[cycle(pieces)]
    #[tactic(auto, using(crate::proofs::SizeLaws::piece_laws))]
    fn add_stmt(&mut self, alloc: Global, stmt: &Stmt) -> Result<(), Memory>
        ensures { OnOk result (self.new.list ≡ self.old.list ++ pieces_in (statement_of stmt.now)) }
    {
        match stmt {
            Stmt::Assign { left, right, .. } => {
                self.note(Piece::Assigns)?;
                self.add_ref(alloc, left)?;
                self.add_expr(alloc, right)
            }
            Stmt::Masked {
                mask,
                left,
                right,
                ..
            } => {
                self.note(Piece::Assigns)?;
                self.add_expr(alloc, mask)?;
                self.add_ref(alloc, left)?;
                self.add_expr(alloc, right)
            }
            Stmt::If { arms, other, .. } => {
                self.add_arms(alloc, arms)?;
                self.add_block(alloc, other)
            }
            Stmt::Do {
                var,
                first,
                last,
                step,
                body,
                ..
            } => {
                self.note(Piece::Turns(*var))?;
                self.add_expr(alloc, first)?;
                self.add_expr(alloc, last)?;
                self.add_expr(alloc, step)?;
                self.add_block(alloc, body)
            }
            Stmt::Label { .. } => Ok(()),
            Stmt::Go { .. } => self.note(Piece::Branches),
            Stmt::Stop { .. } => Ok(()),
            Stmt::Read { .. } => Ok(()),
            Stmt::Print { .. } => Ok(()),
            Stmt::Allocate { .. } => Ok(()),
            Stmt::Deallocate { .. } => Ok(()),
        }
    }

    #[cycle(pieces)]
    fn add_arms(&mut self, alloc: Global, arms: &Seq<Arm>) -> Result<(), Memory>
        ensures { OnOk result (self.new.list ≡ self.old.list ++ flat_map pieces_in_arm (map tested_of arms.now)) }
    {
        for arm in arms.as_slice() {
            self.add_arm(alloc, arm)?;
        }
        Ok(())
    }

    #[cycle(pieces)]
    #[tactic(auto, using(crate::proofs::SizeLaws::piece_laws))]
    fn add_arm(&mut self, alloc: Global, arm: &Arm) -> Result<(), Memory>
        ensures { OnOk result (self.new.list ≡ self.old.list ++ pieces_in_arm (tested_of arm.now)) }
    {
        self.note(Piece::Branches)?;
        self.add_expr(alloc, &arm.test)?;
        self.add_block(alloc, &arm.body)
    }

    #[cycle(pieces)]
    #[tactic(auto, using(crate::proofs::SizeLaws::block_laws))]
    fn add_block(&mut self, alloc: Global, block: &Block) -> Result<(), Memory>
        ensures { OnOk result (self.new.list ≡ self.old.list ++ pieces_in_block (block_of block.now)) }
    {
        self.add_stmts(alloc, &block.stmts)
    }

    #[cycle(pieces)]
    fn add_stmts(&mut self, alloc: Global, stmts: &Seq<Stmt>) -> Result<(), Memory>
        ensures { OnOk result (self.new.list ≡ self.old.list ++ flat_map pieces_in (map statement_of stmts.now)) }
    {
        for stmt in stmts.as_slice() {
            self.add_stmt(alloc, stmt)?;
        }
        Ok(())
    }
}

impl Piece {
    fn is_assignment(&self) -> bool
        ensures { result ≡ is_assignment self.now }
    {
        match self {
            Piece::Occurs(_) => false,
            Piece::Assigns => true,
            Piece::Turns(_) => false,
            Piece::Branches => false,
        }
    }

    fn turns_with(&self, name: Name) -> bool
        ensures { result ≡ turns_with name self.now }
    {
        match self {
            Piece::Occurs(_) => false,
            Piece::Assigns => false,
            Piece::Turns(variable) => *variable == name,
            Piece::Branches => false,
        }
    }

    fn is_loop(&self) -> bool
        ensures { result ≡ is_loop_piece self.now }
    {
        match self {
            Piece::Occurs(_) => false,
            Piece::Assigns => false,
            Piece::Turns(_) => true,
            Piece::Branches => false,
        }
    }

    fn is_branching(&self) -> bool
        ensures { result ≡ is_branching self.now }
    {
        match self {
            Piece::Occurs(_) => false,
            Piece::Assigns => false,
            Piece::Turns(_) => true,
            Piece::Branches => true,
        }
    }

    // Whether it is a name and none of the variables of these loops.
    fn is_counted(&self, loops: &[Piece]) -> bool
        ensures { result ≡ is_counted_name loops.now self.now }
    {
        match self {
            Piece::Occurs(name) => !is_variable(loops, *name),
            Piece::Assigns => false,
            Piece::Turns(_) => false,
            Piece::Branches => false,
        }
    }
}

fn is_variable(loops: &[Piece], name: Name) -> bool
    ensures { result ≡ list_any (turns_with name) loops.now }
{
    loops.iter().any(|piece| piece.turns_with(name))
}

// The loop itself is one of the loops that are counted.
fn is_over(assignments: usize, references: usize, branchings: usize) -> bool
    ensures { result ≡ is_over assignments references branchings }
{
    assignments > NEST_STATEMENTS || references > NEST_REFERENCES || branchings > NEST_BRANCHES + 1
}

fn assignments(pieces: &[Piece]) -> usize
    ensures value { result ≡ length (filter is_assignment pieces.now) }
{
    let mut count = 0;
    for i in 0..pieces.len() {
        if pieces[i].is_assignment() {
            count += 1;
        }
    }
    count
}

fn branchings(pieces: &[Piece]) -> usize
    ensures value { result ≡ length (filter is_branching pieces.now) }
{
    let mut count = 0;
    for i in 0..pieces.len() {
        if pieces[i].is_branching() {
            count += 1;
        }
    }
    count
}

fn references(pieces: &[Piece], loops: &[Piece]) -> usize
    ensures value { result ≡ length (filter (is_counted_name loops.now) pieces.now) }
{
    let mut count = 0;
    for i in 0..pieces.len() {
        if pieces[i].is_counted(loops) {
            count += 1;
        }
    }
    count
}

fn loops_among(alloc: Global, pieces: &[Piece]) -> Result<Seq<Piece>, Memory>
    ensures { IfOk result (λ loops. loops ≡ filter is_loop_piece pieces.now) }
{
    let mut loops = Seq::new(alloc);
    for piece in pieces {
        if piece.is_loop() {
            loops.push(*piece)?;
        }
    }
    Ok(loops)
}

fn pieces_of(alloc: Global, stmt: &Stmt) -> Result<Seq<Piece>, Memory>
    ensures { IfOk result (λ pieces. pieces ≡ pieces_in (statement_of stmt.now)) }
{
    let mut pieces = Pieces {
        list: Seq::new(alloc),
    };
    pieces.add_stmt(alloc, stmt)?;
    Ok(pieces.list)
}

fn is_over_among(pieces: &[Piece], loops: &Seq<Piece>) -> bool
    ensures { result ≡ is_over (length (filter is_assignment pieces.now))
        (length (filter (is_counted_name loops.now) pieces.now)) (length (filter is_branching pieces.now)) }
{
    let occurrences = references(pieces, loops.as_slice());
    is_over(assignments(pieces), occurrences, branchings(pieces))
}

fn is_large_among(alloc: Global, pieces: &[Piece]) -> Result<bool, Memory>
    ensures { IfOk result (λ large. large ≡ is_large pieces.now) }
{
    let loops = loops_among(alloc, pieces)?;
    Ok(is_over_among(pieces, &loops))
}

/// Whether a loop has too many assignments; or too many occurrences of variables other than those of its loops: in left
/// sides, right sides, subscripts, conditions and bounds of loops, where an element counts and what stands in its
/// subscripts for itself; or too many conditions, GO TOs and loops in it together, where ELSE and labels don't count.
pub fn is_large(alloc: Global, stmt: &Stmt) -> Result<bool, Memory>
    ensures { IfOk result (λ large. large ≡ is_large (pieces_in (statement_of stmt.now))) }
{
    let pieces = pieces_of(alloc, stmt)?;
    is_large_among(alloc, pieces.as_slice())
}
